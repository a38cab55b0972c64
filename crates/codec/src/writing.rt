// A change written to a record line under a number. The line's image is moved, and only the figures that are new are written.
ghost use Rattle.std.specs.Prelude.{◌≡◌, true, length};
ghost use Rattle.model.specs.Layouts.{record_bytes};
ghost use Rattle.model.specs.Records.{record_in, record_text, records_accepted};
ghost use Rattle.model.specs.Images.{written_image, state_kept, prepared, committed};
ghost use Rattle.sheet_laws.specs.Records.{Readable};
ghost use Rattle.sheet_laws.specs.ByIndex.{changed_at};

use crate::records::line_at;
use crate::{fields, parts};
use types::{
    BEFORE_AT, Before, CLOCK_AT, CLOCK_BYTES, Columns, Image, Kind, STATE_AT, State, VERSION_AT,
    VERSION_BYTES,
};

// The image that a change writes to a line that can be read.
fn written_image(line: &[u8], n: u32, columns: Columns) -> Image
    requires { Readable line.now }
    ensures { result ≡ written_image n columns (record_in line.now) }
{
    let version = line_bytes::figure(line, VERSION_AT, VERSION_BYTES) as u32;
    Image {
        version: version + 1,
        txid: n,
        column1: columns.column1,
        column2: columns.column2,
    }
}

// The before state that a line leaves where it is prepared.
fn state_kept(line: &[u8]) -> Before
    requires { length line.now ≡ record_bytes }
    ensures { result ≡ state_kept (record_in line.now).state }
{
    if fields::is_word_at(line, STATE_AT, Kind::StateWord, State::Committed as u32) {
        Before::Committed
    } else {
        Before::Absent
    }
}

// A line that can be read, prepared.
fn prepare_line(line: &mut [u8], n: u32, columns: Columns, clock: u32)
    requires { Readable line.old }
    ensures { line.new ≡ record_text (prepared n clock columns (record_in line.old)) }
{
    let image = written_image(line, n, columns);
    let prior = state_kept(line);
    let before = parts::image_bytes(line, VERSION_AT);
    parts::put_at(line, BEFORE_AT, &before);
    parts::put_prior(line, prior);
    parts::put_state(line, State::Prepared);
    parts::write_image(line, image);
    parts::write_at(line, CLOCK_AT, CLOCK_BYTES, clock);
}

// A line that can be read, committed in one phase.
fn commit_line(line: &mut [u8], n: u32, columns: Columns)
    requires { Readable line.old }
    ensures { line.new ≡ record_text (committed n columns (record_in line.old)) }
{
    let image = written_image(line, n, columns);
    parts::put_state(line, State::Committed);
    parts::write_image(line, image);
    parts::put_nothing(line);
}

// Line i prepared under number n at a clock reading; past the end nothing changes.
pub fn prepare(records: &mut [u8], i: usize, n: u32, columns: Columns, clock: u32)
    requires { records_accepted records.old ≡ true }
    ensures { records.new ≡ changed_at (prepared n clock columns) i records.old }
{
    if let Some(line) = line_at(records, i) {
        prepare_line(&mut records[line], n, columns, clock);
    }
}

// Line i committed in one phase under number n; past the end nothing changes.
pub fn commit(records: &mut [u8], i: usize, n: u32, columns: Columns)
    requires { records_accepted records.old ≡ true }
    ensures { records.new ≡ changed_at (committed n columns) i records.old }
{
    if let Some(line) = line_at(records, i) {
        commit_line(&mut records[line], n, columns);
    }
}
