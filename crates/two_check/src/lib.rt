// Whether two sheets are accepted, and both joined in a lent area.
#![tactic(auto)]

ghost use Rattle.std.specs.Prelude.{◌≡◌, ◌&&◌, true, length, replicate, ◌*◌, ◌/◌, ◌≤◌, ◌<◌, ◌^◌};
ghost use Rattle.lists.specs.Basics.{eqb};
ghost use Rattle.model.specs.Layouts.{record_bytes};
ghost use Rattle.model.specs.Records.{records_accepted};
ghost use Rattle.model.specs.Refusals.{refusal_of, refusal_number, refused_with};
ghost use Rattle.model.specs.Coordinator.{coordinator_readable};
ghost use Rattle.model.specs.SheetCalls.{all_issued};
ghost use Rattle.model.specs.TwoSheets.{plain_bytes, bookkeeping_bytes, joined_sheet, full_conditions};
ghost use Rattle.two_laws.specs.Deciding.{whole, filled_plain, filled_bookkeeping};
ghost use Rattle.two_check.specs.Areas.{both_within, Room, Rooms, RoomsFor, BookkeepingIn, Apart, Lines, JoinedIn};

use two_join::{BOOKKEEPING_BYTES, PLAIN_BYTES};
use types::{RECORD_BYTES, Refusal};

// Bytes of so many lines joined.
const BYTES_50: usize = 50 * RECORD_BYTES;

const BYTES_100: usize = 100 * RECORD_BYTES;

const BYTES_250: usize = 250 * RECORD_BYTES;

const BYTES_500: usize = 500 * RECORD_BYTES;

// An area of so many bytes. A call makes it, since the check would count the bytes of a local array one by one.
fn blank<const N: usize>() -> [u8; N]
    ensures { result ≡ replicate N 0 }
{
    [0u8; N]
}

// Whether neither of two sheets of so many bytes has more than so many lines.
fn within(lines: usize, plain: usize, book: usize) -> bool
    requires { lines ≤ 500 }
    ensures { result ≡ both_within lines plain book }
{
    (plain <= lines * PLAIN_BYTES) & (book <= lines * BOOKKEEPING_BYTES)
}

// What is done in an area of N bytes of this call's own. A function for each size, so that the areas of several may share one place on the stack (`make stack`).
fn in_bytes<const N: usize, R, F: FnMut(&mut [u8]) -> R>(act: &mut F) -> R
    requires few { N < 2 ^ 63 }
    requires callable { (area : _) → length area.now ≡ N → F.pre act.old area }
    ensures { (old : _) × (new : _) × (length old.now ≡ N) × F.step act.old old result new act.new }
{
    act(&mut blank::<N>())
}

// What is done in an area of this call's own that has room for two sheets of so many bytes joined. It is the smallest of several, since to set the largest to zero takes
// longer than a call on a few lines.
pub fn in_area<R, F: FnMut(&mut [u8]) -> R>(plain: usize, book: usize, act: &mut F) -> R
    requires { (area : _) → RoomsFor plain book (length area.now) → F.pre act.old area }
    ensures { (old : _) × (new : _) × RoomsFor plain book (length old.now) × F.step act.old old result new act.new }
{
    if within(50, plain, book) {
        return in_bytes::<BYTES_50, R, F>(act);
    }
    if within(100, plain, book) {
        return in_bytes::<BYTES_100, R, F>(act);
    }
    if within(250, plain, book) {
        return in_bytes::<BYTES_250, R, F>(act);
    }
    in_bytes::<BYTES_500, R, F>(act)
}

// Whether the plain sheet, filled with fixed text over the target, is a good record sheet.
fn plain_fills(plain: &[u8], target: &mut [u8]) -> bool
    requires { length target.old ≡ length plain.now / plain_bytes * record_bytes }
    ensures { result ≡ records_accepted (filled_plain plain.now) }
{
    two_join::fill::plain(plain, target);
    record_check::records_ok(target)
}

// The same of the bookkeeping sheet.
fn bookkeeping_fills(book: &[u8], target: &mut [u8]) -> bool
    requires { length target.old ≡ length book.now / bookkeeping_bytes * record_bytes }
    ensures answer { result ≡ records_accepted (filled_bookkeeping book.now) }
    ensures filled { target.new ≡ filled_bookkeeping book.now }
{
    two_join::fill::bookkeeping(book, target);
    record_check::records_ok(target)
}

// Whether both, joined over the target, are a good record sheet.
fn both_join(plain: &[u8], book: &[u8], target: &mut [u8]) -> bool
    requires plain_len { length plain.now ≡ length target.old / record_bytes * plain_bytes }
    requires book_len { length book.now ≡ length target.old / record_bytes * bookkeeping_bytes }
    requires target_len { length target.old ≡ length target.old / record_bytes * record_bytes }
    ensures answer { result ≡ records_accepted (joined_sheet plain.now book.now) }
    ensures joined { target.new ≡ joined_sheet plain.now book.now }
{
    two_join::join(plain, book, target);
    record_check::records_ok(target)
}

// Whether the plain sheet is good alone, by the check of a record sheet on its lines filled with fixed text.
fn plain_alone(plain: &[u8], area: &mut [u8]) -> bool
    requires { Room plain_bytes plain.now (length area.old) }
    ensures { result ≡ (whole plain_bytes plain.now && records_accepted (filled_plain plain.now)) }
{
    let lines = plain.len() / PLAIN_BYTES;
    if plain.len() != lines * PLAIN_BYTES {
        return false;
    }
    if 500 < lines {
        return false;
    }
    let n = lines * RECORD_BYTES;
    plain_fills(plain, &mut area[..n])
}

// The same of the bookkeeping sheet, which then stands filled in the area.
fn bookkeeping_alone(book: &[u8], area: &mut [u8]) -> bool
    requires { Room bookkeeping_bytes book.now (length area.old) }
    ensures { BookkeepingIn book.now result area.new }
{
    let lines = book.len() / BOOKKEEPING_BYTES;
    if book.len() != lines * BOOKKEEPING_BYTES {
        return false;
    }
    if 500 < lines {
        return false;
    }
    let n = lines * RECORD_BYTES;
    bookkeeping_fills(book, &mut area[..n])
}

// Why sheets whose keys don't agree are refused: either isn't good alone, or else their keys.
fn apart(plain: &[u8], book: &[u8], area: &mut [u8]) -> Refusal
    requires { Rooms plain.now book.now (length area.old) }
    ensures { Apart plain.now book.now (refusal_number result) area.new }
{
    if !plain_alone(plain, area) {
        return Refusal::BadRecords;
    }
    if !bookkeeping_alone(book, area) {
        return Refusal::BadRecords;
    }
    Refusal::SheetsDiffer
}

// Accepted sheets stand joined in the area. Where their keys differ, it has lines that name the numbers which the bookkeeping sheet names.
pub fn join_lines(plain: &[u8], book: &[u8], area: &mut [u8]) -> Result<(), Refusal>
    requires { Rooms plain.now book.now (length area.old) }
    ensures { Lines plain.now book.now (refused_with result) area.new }
{
    if !two_join::agree(plain, book) {
        return Err(apart(plain, book, area));
    }
    let lines = plain.len() / PLAIN_BYTES;
    if 500 < lines {
        return Err(Refusal::BadRecords);
    }
    let n = lines * RECORD_BYTES;
    if !both_join(plain, book, &mut area[..n]) {
        return Err(Refusal::BadRecords);
    }
    Ok(())
}

// Whether the coordinator sheet, with letters of either case, fits accepted lines.
fn fits(records: &[u8], coordinator: &[u8]) -> bool
    requires { records_accepted records.now ≡ true }
    ensures { result ≡ (coordinator_readable coordinator.now && all_issued records.now coordinator.now) }
{
    if !coordinator_check::coordinator_readable(coordinator) {
        return false;
    }
    coordinator_check::all_issued(records, coordinator)
}

// Whether what is told of two sheets is that either isn't good alone, or both joined aren't.
pub fn is_bad<T>(told: &Result<T, Refusal>) -> bool
    ensures { result ≡ eqb (refused_with told.now) 1 }
{
    match told {
        Err(refusal) => *refusal == Refusal::BadRecords,
        Ok(_) => false,
    }
}

// Accepted sheets then stand joined in the area.
pub fn join_checked(
    plain: &[u8],
    book: &[u8],
    coordinator: &[u8],
    area: &mut [u8],
) -> Result<(), Refusal>
    requires { Rooms plain.now book.now (length area.old) }
    ensures answer { refused_with result ≡ refusal_of (full_conditions plain.now book.now coordinator.now) }
    ensures joined { refused_with result ≡ 0 → JoinedIn plain.now book.now area.new }
{
    let lines = join_lines(plain, book, area);
    if is_bad(&lines) {
        return lines;
    }
    let n = book.len() / BOOKKEEPING_BYTES * RECORD_BYTES;
    if !fits(&area[..n], coordinator) {
        return Err(Refusal::BadCoordinator);
    }
    lines
}
