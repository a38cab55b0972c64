// Two sheets joined into one, line by line, and that one split into both again.
#![tactic(auto)]

ghost use Rattle.std.specs.Prelude.{◌≡◌, true, ◌&&◌, ◌+◌, ◌*◌, ◌/◌, ◌≤◌, length, take, drop};
ghost use Rattle.lists.specs.Pieces.{over};
ghost use Rattle.model.specs.Layouts.{record_bytes};
ghost use Rattle.model.specs.TwoSheets.{plain_bytes, bookkeeping_bytes, join_line, joined_sheet, plain_line, bookkeeping_line, plain_part, bookkeeping_part};
ghost use Rattle.two_join.specs.Splits.{line_at};
ghost use Rattle.two_laws.specs.Deciding.{keys_agree, lines_agree, whole};
ghost use Rattle.model.specs.Lines.{lines_of};

pub mod fill;

use types::{BEFORE_STATE_AT, COLUMN_BYTES, COLUMN1_AT, RECORD_BYTES, STATE_AT};

// Bytes of both columns, of a line of either sheet, of the fields behind the columns with LF, and where LF stands in a plain line. A key has as many as stand before the
// state word.
pub const COLUMNS_BYTES: usize = COLUMN_BYTES + COLUMN_BYTES;

pub const PLAIN_BYTES: usize = STATE_AT + COLUMNS_BYTES + 1;

pub const BOOKKEEPING_BYTES: usize = RECORD_BYTES - COLUMNS_BYTES;

pub const REST_BYTES: usize = BOOKKEEPING_BYTES - COLUMN1_AT;

pub const PLAIN_END: usize = PLAIN_BYTES - 1;

// Eight bytes, all of them read before the first is written: so they compile to one step, whether or not both lie in one place. By the library's
// `copy_from_slice`, a call on two sheets of 251 to 500 lines took 2.25 to 2.4 times as long as on the joined one, where 2.2 is the bar; so it takes 2.0 to 2.1.
fn copy_eight(target: &mut [u8], at: usize, from: &[u8], start: usize)
    requires at_in_bounds { at + 8 ≤ length target.old }
    requires start_in_bounds { start + 8 ≤ length from.now }
    ensures { target.new ≡ over target.old at (take 8 (drop start from.now)) }
{
    let b0 = from[start];
    let b1 = from[start + 1];
    let b2 = from[start + 2];
    let b3 = from[start + 3];
    let b4 = from[start + 4];
    let b5 = from[start + 5];
    let b6 = from[start + 6];
    let b7 = from[start + 7];
    target[at] = b0;
    target[at + 1] = b1;
    target[at + 2] = b2;
    target[at + 3] = b3;
    target[at + 4] = b4;
    target[at + 5] = b5;
    target[at + 6] = b6;
    target[at + 7] = b7;
}

// So many bytes, one by one.
fn copy_rest(target: &mut [u8], at: usize, from: &[u8], start: usize, n: usize)
    requires n_in_bounds { at + n ≤ length target.old }
    requires n_in_bounds_2 { start + n ≤ length from.now }
    ensures { target.new ≡ over target.old at (take n (drop start from.now)) }
{
    let end = at + n;
    let stop = start + n;
    decimal::put(&mut target[at..end], &from[start..stop]);
}

// n bytes of a sheet from `start` on, over the target from `at` on: eight at a time, and the rest.
pub fn copy_part(target: &mut [u8], at: usize, from: &[u8], start: usize, n: usize)
    requires n_in_bounds { at + n ≤ length target.old }
    requires n_in_bounds_2 { start + n ≤ length from.now }
    ensures { target.new ≡ over target.old at (take n (drop start from.now)) }
{
    let eights = n / 8;
    for k in 0..eights {
        copy_eight(target, at + k * 8, from, start + k * 8);
    }
    let done = eights * 8;
    copy_rest(target, at + done, from, start + done, n - done);
}

// Line i of both sheets joined, over line i of the target.
fn join_at(plain: &[u8], book: &[u8], i: usize, target: &mut [u8])
    requires plain_bytes_in_bounds { i * plain_bytes + plain_bytes ≤ length plain.now }
    requires bookkeeping_bytes_in_bounds { i * bookkeeping_bytes + bookkeeping_bytes ≤ length book.now }
    requires record_bytes_in_bounds { i * record_bytes + record_bytes ≤ length target.old }
    ensures { target.new ≡ over target.old (i * record_bytes) (join_line (take plain_bytes (drop (i * plain_bytes) plain.now)) (take bookkeeping_bytes (drop (i * bookkeeping_bytes) book.now))) }
{
    let p = i * PLAIN_BYTES;
    let b = i * BOOKKEEPING_BYTES;
    let t = i * RECORD_BYTES;
    copy_part(target, t, book, b, COLUMN1_AT);
    copy_part(target, t + COLUMN1_AT, plain, p + STATE_AT, COLUMNS_BYTES);
    copy_part(
        target,
        t + BEFORE_STATE_AT,
        book,
        b + COLUMN1_AT,
        REST_BYTES,
    );
}

// Both sheets joined over the target.
pub fn join(plain: &[u8], book: &[u8], target: &mut [u8])
    requires plain_len { length plain.now ≡ length target.old / record_bytes * plain_bytes }
    requires book_len { length book.now ≡ length target.old / record_bytes * bookkeeping_bytes }
    requires target_len { length target.old ≡ length target.old / record_bytes * record_bytes }
    ensures { target.new ≡ joined_sheet plain.now book.now }
{
    let n = target.len() / RECORD_BYTES;
    for i in 0..n {
        join_at(plain, book, i, target);
    }
}

// Line i of the plain sheet has the key of line i of the other, byte for byte, and ends in LF.
fn agree_at(plain: &[u8], book: &[u8], i: usize) -> bool
    requires plain_bytes_in_bounds { i * plain_bytes + plain_bytes ≤ length plain.now }
    requires bookkeeping_bytes_in_bounds { i * bookkeeping_bytes + bookkeeping_bytes ≤ length book.now }
    ensures { result ≡ keys_agree (take plain_bytes (drop (i * plain_bytes) plain.now)) (take bookkeeping_bytes (drop (i * bookkeeping_bytes) book.now)) }
{
    let p = i * PLAIN_BYTES;
    let b = i * BOOKKEEPING_BYTES;
    line_bytes::ten_equal(plain, p, book, b)
        & line_bytes::ten_equal(plain, p + 10, book, b + 10)
        & (plain[p + PLAIN_END] == b'\n')
}

// Both have whole lines, as many, and their keys agree.
pub fn agree(plain: &[u8], book: &[u8]) -> bool
    ensures { result ≡ (whole plain_bytes plain.now && whole bookkeeping_bytes book.now && lines_agree (lines_of plain_bytes plain.now) (lines_of bookkeeping_bytes book.now)) }
{
    let n = plain.len() / PLAIN_BYTES;
    if plain.len() != n * PLAIN_BYTES {
        return false;
    }
    if book.len() / BOOKKEEPING_BYTES != n {
        return false;
    }
    if book.len() != n * BOOKKEEPING_BYTES {
        return false;
    }
    for i in 0..n {
        if !agree_at(plain, book, i) {
            return false;
        }
    }
    true
}

// Key and columns of line i of a joined sheet, over line i of the plain sheet.
fn plain_at(area: &[u8], i: usize, plain: &mut [u8])
    requires record_bytes_in_bounds { i * record_bytes + record_bytes ≤ length area.now }
    requires plain_bytes_in_bounds { i * plain_bytes + plain_bytes ≤ length plain.old }
    ensures { plain.new ≡ over plain.old (i * plain_bytes) (plain_line (line_at area.now i)) }
{
    let p = i * PLAIN_BYTES;
    let t = i * RECORD_BYTES;
    copy_part(plain, p, area, t, STATE_AT);
    copy_part(plain, p + STATE_AT, area, t + COLUMN1_AT, COLUMNS_BYTES);
    plain[p + PLAIN_END] = b'\n';
}

// The plain part of a joined sheet over the plain sheet.
pub fn split_plain(area: &[u8], plain: &mut [u8])
    requires { length plain.old ≡ length area.now / record_bytes * plain_bytes }
    ensures { plain.new ≡ plain_part area.now }
{
    let n = area.len() / RECORD_BYTES;
    for i in 0..n {
        plain_at(area, i, plain);
    }
}

// The remaining fields of line i of a joined sheet, over line i of the bookkeeping sheet.
fn bookkeeping_at(area: &[u8], i: usize, book: &mut [u8])
    requires record_bytes_in_bounds { i * record_bytes + record_bytes ≤ length area.now }
    requires bookkeeping_bytes_in_bounds { i * bookkeeping_bytes + bookkeeping_bytes ≤ length book.old }
    ensures { book.new ≡ over book.old (i * bookkeeping_bytes) (bookkeeping_line (line_at area.now i)) }
{
    let b = i * BOOKKEEPING_BYTES;
    let t = i * RECORD_BYTES;
    copy_part(book, b, area, t, COLUMN1_AT);
    copy_part(book, b + COLUMN1_AT, area, t + BEFORE_STATE_AT, REST_BYTES);
}

// The bookkeeping part of a joined sheet over the bookkeeping sheet.
pub fn split_bookkeeping(area: &[u8], book: &mut [u8])
    requires { length book.old ≡ length area.now / record_bytes * bookkeeping_bytes }
    ensures { book.new ≡ bookkeeping_part area.now }
{
    let n = area.len() / RECORD_BYTES;
    for i in 0..n {
        bookkeeping_at(area, i, book);
    }
}
