// A line added to a plain sheet and a bookkeeping sheet, and one removed from both (document 02, notes 4 and 6). Where it goes is told by both sheets joined in an area of this call's
// own; the line then goes to each sheet by itself. A refusal leaves all three sheets as they were.
#![tactic(auto)]

ghost use Rattle.std.specs.Prelude.{◌≡◌, true, length};
ghost use Rattle.lists.specs.Each.{joined};
ghost use Rattle.model.specs.Lines.{lines_of};
ghost use Rattle.model.specs.Records.{record_text, absent_at, key_in_range};
ghost use Rattle.model.specs.Spares.{spare_line};
ghost use Rattle.model.specs.Refusals.{refused_with};
ghost use Rattle.model.specs.Told.{ranked_by};
ghost use Rattle.model.specs.Results.{refusal_in, answer_of};
ghost use Rattle.model.specs.Results as calls;
ghost use Rattle.model.specs.Operations.{once};
ghost use Rattle.model.specs.TwoSheets.{plain_bytes, bookkeeping_bytes, plain_line, bookkeeping_line};
ghost use Rattle.model.specs.TwoCalls.{response_two, plain_left, bookkeeping_left};
ghost use Rattle.shifting.specs.Shifted.{insert_at, remove_at};
ghost use Rattle.two_check.specs.Areas.{two, Rooms};
ghost use Rattle.two_adding.specs.Placing.{place_full, place_two};
ghost use Rattle.two_adding.specs.Parts.{Shiftable};

use shifting::{front_end, insert_line, remove_line};
use two_join::{BOOKKEEPING_BYTES, PLAIN_BYTES};
use types::{Key, RECORD_BYTES, Rank, Refusal};

// Where the line of the key goes, if it is to be added, or goes from.
fn place_in(
    add: bool,
    full: bool,
    key: Key,
    plain: &[u8],
    book: &[u8],
    coordinator: &[u8],
    area: &mut [u8],
) -> Result<Rank, Refusal>
    requires { Rooms plain.now book.now (length area.old) }
    ensures { ranked_by result ≡ place_full add full key plain.now book.now coordinator.now }
{
    two_check::join_checked(plain, book, coordinator, area)?;
    let n = plain.len() / PLAIN_BYTES * RECORD_BYTES;
    if add {
        return adding::to_add(full, key, &area[..n]);
    }
    adding::to_remove(key, &area[..n])
}

// The same in an area of its own.
fn place(
    add: bool,
    full: bool,
    key: Key,
    plain: &[u8],
    book: &[u8],
    coordinator: &[u8],
) -> Result<Rank, Refusal>
    ensures { ranked_by result ≡ place_full add full key plain.now book.now coordinator.now }
{
    two_check::in_area(
        plain.len(),
        book.len(),
        &mut |area: &mut [u8]| { place_in(add, full, key, plain, book, coordinator, area) },
    )
}

// The same of both sheets with their spares.
fn place_on(
    add: bool,
    key: Key,
    plain: &[u8],
    book: &[u8],
    coordinator: &[u8],
) -> Result<Rank, Refusal>
    ensures { ranked_by result ≡ place_two add key plain.now book.now coordinator.now }
{
    two_engine::check_forms(plain, book, coordinator)?;
    let p = front_end(plain, PLAIN_BYTES);
    let b = front_end(book, BOOKKEEPING_BYTES);
    let full = b == book.len();
    place(add, full, key, &plain[..p], &book[..b], coordinator)
}

// The key's line, ABSENT of version 0, at an index of both sheets.
fn put_in(key: Key, at: usize, plain: &mut [u8], book: &mut [u8])
    requires shiftable { Shiftable plain.old book.old at }
    requires key_value { key_in_range key ≡ true }
    ensures plain { plain.new ≡ joined (insert_at at (plain_line (record_text (absent_at key))) (lines_of plain_bytes plain.old)) }
    ensures bookkeeping { book.new ≡ joined (insert_at at (bookkeeping_line (record_text (absent_at key))) (lines_of bookkeeping_bytes book.old)) }
{
    let line = adding::absent_line(key);
    let mut columns = [0u8; PLAIN_BYTES];
    two_join::split_plain(&line, &mut columns);
    insert_line(plain, PLAIN_BYTES, at, &columns);
    let mut rest = [0u8; BOOKKEEPING_BYTES];
    two_join::split_bookkeeping(&line, &mut rest);
    insert_line(book, BOOKKEEPING_BYTES, at, &rest);
}

// The line at an index of both sheets taken out.
fn take_out(at: usize, plain: &mut [u8], book: &mut [u8])
    requires { Shiftable plain.old book.old at }
    ensures plain { plain.new ≡ joined (remove_at at (spare_line plain_bytes) (lines_of plain_bytes plain.old)) }
    ensures bookkeeping { book.new ≡ joined (remove_at at (spare_line bookkeeping_bytes) (lines_of bookkeeping_bytes book.old)) }
{
    remove_line(plain, PLAIN_BYTES, at);
    remove_line(book, BOOKKEEPING_BYTES, at);
}

// Refused with 1, 2, 13, 5, 14 or 15.
pub fn add(key: Key, plain: &mut [u8], book: &mut [u8], coordinator: &[u8]) -> Result<(), Refusal>
    ensures answer { refused_with result ≡ refusal_in (answer_of (response_two (once (calls.add key)) (two plain.old book.old coordinator.now))) }
    ensures plain { plain.new ≡ plain_left plain.old (response_two (once (calls.add key)) (two plain.old book.old coordinator.now)) }
    ensures bookkeeping { book.new ≡ bookkeeping_left book.old (response_two (once (calls.add key)) (two plain.old book.old coordinator.now)) }
{
    let rank = place_on(true, key, plain, book, coordinator)?;
    put_in(key, rank.below, plain, book);
    Ok(())
}

// Refused with 1, 2, 13, 5, 6 or 16.
pub fn remove(
    key: Key,
    plain: &mut [u8],
    book: &mut [u8],
    coordinator: &[u8],
) -> Result<(), Refusal>
    ensures answer { refused_with result ≡ refusal_in (answer_of (response_two (once (calls.remove key)) (two plain.old book.old coordinator.now))) }
    ensures plain { plain.new ≡ plain_left plain.old (response_two (once (calls.remove key)) (two plain.old book.old coordinator.now)) }
    ensures bookkeeping { book.new ≡ bookkeeping_left book.old (response_two (once (calls.remove key)) (two plain.old book.old coordinator.now)) }
{
    let rank = place_on(false, key, plain, book, coordinator)?;
    take_out(rank.below, plain, book);
    Ok(())
}
