// A line as a row of numbers, read and written by its layout: the one codec for every kind of line.
ghost use Rattle.std.specs.Prelude.{◌≡◌, length};
ghost use Rattle.model.specs.Layouts.{layout};
ghost use Rattle.model.specs.Lines.{row_of, line_text, row_good};
ghost use Rattle.sheet_laws.specs.Lines.{line_bytes};

use crate::{fields, layouts};
use types::Layout;

// The numbers of a line over the row.
pub fn read_row(l: Layout, line: &[u8], row: &mut [u32])
    requires line_len { length line.now ≡ line_bytes (layout l) }
    requires row_len { length row.old ≡ length (layout l) }
    ensures { row.new ≡ row_of (layout l) line.now }
{
    // by index into the row: no fact tells what a chain over `row.iter_mut()` leaves
    let mut at = 0;
    for (i, c) in layouts::columns(l).iter().enumerate() {
        let end = at + c.width;
        row[i] = fields::read_field(*c, &line[at..end]).unwrap_or(0);
        at = end;
    }
}

// The line for a row of numbers over the bytes of a line.
pub fn write_row(l: Layout, row: &[u32], line: &mut [u8])
    requires row_len { length row.now ≡ length (layout l) }
    requires line_len { length line.old ≡ line_bytes (layout l) }
    ensures { line.new ≡ line_text (layout l) row.now }
{
    let mut at = 0;
    for (i, c) in layouts::columns(l).iter().enumerate() {
        let end = at + c.width;
        fields::write_field(*c, row[i], &mut line[at..end]);
        at = end;
    }
    line[at] = b'\n';
}

// Every number of a row is in its field's range.
pub fn row_good(l: Layout, row: &[u32]) -> bool
    requires { length row.now ≡ length (layout l) }
    ensures { result ≡ row_good (layout l) row.now }
{
    layouts::columns(l)
        .iter()
        .zip(row)
        .all(|(c, v)| fields::in_range(*c, *v))
}
