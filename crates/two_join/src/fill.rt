// A sheet filled with fixed text to lines of a joined sheet, so that the check of a record sheet tells whether it is good alone.
ghost use Rattle.std.specs.Prelude.{◌≡◌, ◌+◌, ◌*◌, ◌/◌, ◌≤◌, length};
ghost use Rattle.lists.specs.Pieces.{over};
ghost use Rattle.model.specs.Layouts.{record_bytes};
ghost use Rattle.model.specs.TwoSheets.{plain_bytes, bookkeeping_bytes};
ghost use Rattle.two_laws.specs.Deciding.{fill_plain, fill_bookkeeping, filled_plain, filled_bookkeeping};
ghost use Rattle.two_join.specs.Splits.{line_in};

use crate::{BOOKKEEPING_BYTES, COLUMNS_BYTES, PLAIN_BYTES, PLAIN_END, REST_BYTES, copy_part};
use types::{BEFORE_STATE_AT, COLUMN1_AT, RECORD_BYTES, STATE_AT};

// Where LF stands in a line of a joined sheet, and in the part of it behind the columns.
const RECORD_END: usize = RECORD_BYTES - 1;

const REST_END: usize = REST_BYTES - 1;

// What stands beside a plain line: COMMITTED of version 1, loaded at layout, and nothing before it.
const STATE: [u8; 20] = *b" COMMITTED     1   0";

const REST: [u8; REST_END] = *b"         -     0   0        0        0          0";

// What stands beside a bookkeeping line: columns 0.
const COLUMNS: [u8; 18] = *b"        0        0";

// Line i of the plain sheet, filled, over line i of the target.
fn plain_at(plain: &[u8], i: usize, target: &mut [u8])
    requires plain_bytes_in_bounds { i * plain_bytes + plain_bytes ≤ length plain.now }
    requires record_bytes_in_bounds { i * record_bytes + record_bytes ≤ length target.old }
    ensures { target.new ≡ over target.old (i * record_bytes) (fill_plain (line_in plain_bytes plain.now i)) }
{
    let p = i * PLAIN_BYTES;
    let t = i * RECORD_BYTES;
    let state = STATE;
    let rest = REST;
    copy_part(target, t, plain, p, STATE_AT);
    copy_part(target, t + STATE_AT, &state, 0, 20);
    copy_part(target, t + COLUMN1_AT, plain, p + STATE_AT, COLUMNS_BYTES);
    copy_part(target, t + BEFORE_STATE_AT, &rest, 0, REST_END);
    copy_part(target, t + RECORD_END, plain, p + PLAIN_END, 1);
}

// The plain sheet filled.
pub fn plain(plain: &[u8], target: &mut [u8])
    requires { length target.old ≡ length plain.now / plain_bytes * record_bytes }
    ensures { target.new ≡ filled_plain plain.now }
{
    let n = plain.len() / PLAIN_BYTES;
    for i in 0..n {
        plain_at(plain, i, target);
    }
}

// Line i of the bookkeeping sheet, filled, over line i of the target.
fn bookkeeping_at(book: &[u8], i: usize, target: &mut [u8])
    requires bookkeeping_bytes_in_bounds { i * bookkeeping_bytes + bookkeeping_bytes ≤ length book.now }
    requires record_bytes_in_bounds { i * record_bytes + record_bytes ≤ length target.old }
    ensures { target.new ≡ over target.old (i * record_bytes) (fill_bookkeeping (line_in bookkeeping_bytes book.now i)) }
{
    let b = i * BOOKKEEPING_BYTES;
    let t = i * RECORD_BYTES;
    let columns = COLUMNS;
    copy_part(target, t, book, b, COLUMN1_AT);
    copy_part(target, t + COLUMN1_AT, &columns, 0, COLUMNS_BYTES);
    copy_part(
        target,
        t + BEFORE_STATE_AT,
        book,
        b + COLUMN1_AT,
        REST_BYTES,
    );
}

// The bookkeeping sheet filled.
pub fn bookkeeping(book: &[u8], target: &mut [u8])
    requires { length target.old ≡ length book.now / bookkeeping_bytes * record_bytes }
    ensures { target.new ≡ filled_bookkeeping book.now }
{
    let n = book.len() / BOOKKEEPING_BYTES;
    for i in 0..n {
        bookkeeping_at(book, i, target);
    }
}
