// A line put into a sheet and one taken out, the lines below shifting by one; and how many lines stand before the spares at the end (document 02, note 6).
#![tactic(auto)]

ghost use Rattle.std.specs.Prelude.{◌≡◌, ◌+◌, ◌*◌, ◌/◌, ◌≤◌, ◌<◌, length, take, drop};
ghost use Rattle.lists.specs.Each.{joined};
ghost use Rattle.model.specs.Layouts.{record_bytes};
ghost use Rattle.model.specs.Lines.{lines_of};
ghost use Rattle.model.specs.Spares.{spare_line, is_spare, filled_lines};
ghost use Rattle.shifting.specs.Shifted.{insert_at, remove_at};

use types::RECORD_BYTES;

// A spare: a line without a record.
pub fn spare() -> [u8; RECORD_BYTES]
    ensures { result ≡ spare_line record_bytes }
{
    let mut line = [32u8; RECORD_BYTES];
    line[RECORD_BYTES - 1] = 10;
    line
}

// A line at index `at`; the lines from there on stand one further down, and the last goes.
pub fn insert_line(s: &mut [u8], width: usize, at: usize, text: &[u8])
    requires s_len { length s.old ≡ length s.old / width * width }
    requires at_in_bounds { at < length s.old / width }
    requires text_len { length text.now ≡ width }
    ensures { s.new ≡ joined (insert_at at text.now (lines_of width s.old)) }
{
    let from = at * width;
    let end = from + width;
    s.copy_within(from..s.len() - width, end);
    s[from..end].copy_from_slice(text);
}

// The line at index `at` goes; those below it stand one further up, and the last is a spare, which is the end of the widest one.
pub fn remove_line(s: &mut [u8], width: usize, at: usize)
    requires s_len { length s.old ≡ length s.old / width * width }
    requires at_in_bounds { at < length s.old / width }
    requires le_width { 1 ≤ width }
    requires width_le_record_bytes { width ≤ record_bytes }
    ensures { s.new ≡ joined (remove_at at (spare_line width) (lines_of width s.old)) }
{
    let from = at * width;
    s.copy_within(from + width.., from);
    let last = s.len() - width;
    s[last..].copy_from_slice(&spare()[RECORD_BYTES - width..]);
}

// Whether the line at `at` is a spare, which is the end of the widest one.
#[tactic(auto, using(crate::specs::Comparing::compared), unfolding(model::specs::Spares::spare_line))]
fn is_spare(s: &[u8], at: usize, width: usize, line: &[u8]) -> bool
    requires width_in_bounds { at + width ≤ length s.now }
    requires least_width { 1 ≤ width }
    requires width_le_record_bytes { width ≤ record_bytes }
    requires widest { line.now ≡ spare_line record_bytes }
    ensures { result ≡ is_spare width (take width (drop at s.now)) }
{
    s[at..at + width] == line[RECORD_BYTES - width..]
}

// Where the spares at the end of a sheet begin. Lines are compared from the end: one where there is no spare.
pub fn front_end(s: &[u8], width: usize) -> usize
    requires s_len { length s.now ≡ length s.now / width * width }
    requires le_width { 10 ≤ width }
    requires width_le_record_bytes { width ≤ record_bytes }
    ensures { result ≡ filled_lines width s.now * width }
{
    let line = spare();
    for n in (0..s.len() / width).rev() {
        let at = n * width;
        if !is_spare(s, at, width, &line) {
            return at + width;
        }
    }
    0
}
