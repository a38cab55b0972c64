// Lines settled by moving bytes: a line that is rolled keeps the bytes of one of its images, so that no figure is read or written.
ghost use Rattle.std.specs.Prelude.{◌≡◌, true, length};
ghost use Rattle.model.specs.Layouts.{record_bytes};
ghost use Rattle.model.specs.Records.{records_accepted};
ghost use Rattle.model.specs.Images.{rolled_forward, rolled_back};
ghost use Rattle.sheet_laws.specs.Changed.{nothing_text, state_over, image_over, settled_over, image_in, settled_as};
ghost use Rattle.sheet_laws.specs.ByIndex.{changed_at};

use crate::records::line_at;
use crate::{parts, reading};
use types::{BEFORE_AT, State, VERSION_AT};

// A line that can be read with another state word and nothing behind its image.
fn settle_line(line: &mut [u8], state: State)
    requires { length line.old ≡ record_bytes }
    ensures { line.new ≡ settled_over nothing_text (state_over state line.old) }
{
    parts::put_state(line, state);
    parts::put_nothing(line);
}

// The line with its image before as its own, and the state that the before state gives back.
fn restore_line(line: &mut [u8], state: State)
    requires { length line.old ≡ record_bytes }
    ensures { line.new ≡ settled_over nothing_text (state_over state (image_over (image_in true line.old) line.old)) }
{
    let image = parts::image_bytes(line, BEFORE_AT);
    parts::put_at(line, VERSION_AT, &image);
    settle_line(line, state);
}

// Line i settled: another state word, one of its images and nothing behind that; past the end nothing changes.
pub fn settle(records: &mut [u8], i: usize, state: State, before: bool)
    requires { records_accepted records.old ≡ true }
    ensures { records.new ≡ changed_at (settled_as state before) i records.old }
{
    if let Some(line) = line_at(records, i) {
        if before {
            restore_line(&mut records[line], state);
        } else {
            settle_line(&mut records[line], state);
        }
    }
}

// Line i rolled forward: its own image stays.
pub fn roll_forward(records: &mut [u8], i: usize)
    requires { records_accepted records.old ≡ true }
    ensures { records.new ≡ changed_at rolled_forward i records.old }
{
    settle(records, i, State::Committed, false);
}

// Line i rolled back: the image before is moved to its place.
pub fn roll_back(records: &mut [u8], i: usize)
    requires { records_accepted records.old ≡ true }
    ensures { records.new ≡ changed_at rolled_back i records.old }
{
    let state = reading::before_state(records, i);
    settle(records, i, state, true);
}
