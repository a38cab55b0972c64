// The calls on a plain sheet and a bookkeeping sheet, for every input. Sheets that have their size and as many lines are lent without their spares to the calls on both
// joined; the spares stay behind what is left.
#![tactic(auto)]

ghost use Rattle.std.specs.Prelude.{◌≡◌, true, false};
ghost use Rattle.model.specs.Refusals.{refusal_of, refusal_number, refused_with};
ghost use Rattle.model.specs.Spares.{sized};
ghost use Rattle.model.specs.TwoSheets.{plain_bytes, bookkeeping_bytes};
ghost use Rattle.model.specs.TwoSpares.{plain_lines, bookkeeping_lines, two_conditions};
ghost use Rattle.model.specs.Results as model;
ghost use Rattle.model.specs.Calls.{new_transaction};
ghost use Rattle.model.specs.Operations as operations;
ghost use Rattle.model.specs.Operations.{once, coordinator_left};
ghost use Rattle.model.specs.Requests.{operation_of};
ghost use Rattle.model.specs.TwoCalls.{response_two, plain_left, bookkeeping_left};
ghost use Rattle.answers.specs.Answers.{in_numbers, to_performed, to_visited};
ghost use Rattle.two_check.specs.Areas.{two};
ghost use Rattle.two_engine.specs.Forms.{unequal_conditions, Forms};
ghost use Rattle.two_engine.specs.Performing.{GivesAs, Gives};

pub mod lookup;

use answers::Performed;
use record_check::is_sized;
use shifting::front_end;
use two_join::{BOOKKEEPING_BYTES, PLAIN_BYTES};
use types::{Columns, Key, Recovery, Refusal, Request, Transaction};

// The refusal of sheets with different numbers of lines: each is checked beside the other without its lines, so that their keys aren't compared.
fn unequal(plain: &[u8], book: &[u8], coordinator: &[u8]) -> Refusal
    requires { (sized plain_bytes plain.now ≡ true) × (sized bookkeeping_bytes book.now ≡ true) }
    ensures { refusal_number result ≡ refusal_of (unequal_conditions (plain_lines plain.now) (bookkeeping_lines book.now) coordinator.now) }
{
    let p = front_end(plain, PLAIN_BYTES);
    let first = two_sheets::check(&plain[..p], &book[..0], coordinator);
    if two_check::is_bad(&first) {
        return Refusal::BadRecords;
    }
    let b = front_end(book, BOOKKEEPING_BYTES);
    match two_sheets::check(&plain[..0], &book[..b], coordinator) {
        Ok(()) => Refusal::SheetsDiffer,
        Err(told) => told,
    }
}

// Whether both sheets have their size and as many lines.
pub fn check_forms(plain: &[u8], book: &[u8], coordinator: &[u8]) -> Result<(), Refusal>
    ensures { Forms plain.now book.now coordinator.now (refused_with result) }
{
    if !is_sized(plain, PLAIN_BYTES) {
        return Err(Refusal::BadRecords);
    }
    if !is_sized(book, BOOKKEEPING_BYTES) {
        return Err(Refusal::BadRecords);
    }
    if plain.len() / PLAIN_BYTES == book.len() / BOOKKEEPING_BYTES {
        return Ok(());
    }
    Err(unequal(plain, book, coordinator))
}

// Refused with 1, 2 or 13.
pub fn check(plain: &[u8], book: &[u8], coordinator: &[u8]) -> Result<(), Refusal>
    ensures { refused_with result ≡ refusal_of (two_conditions plain.now book.now coordinator.now) }
{
    check_forms(plain, book, coordinator)?;
    let p = front_end(plain, PLAIN_BYTES);
    let b = front_end(book, BOOKKEEPING_BYTES);
    two_sheets::check(&plain[..p], &book[..b], coordinator)
}

// Every call by one function: what is asked, of a transaction.
pub fn perform(
    request: Request,
    t: Transaction,
    plain: &mut [u8],
    book: &mut [u8],
    coordinator: &mut [u8],
) -> Result<Performed, Refusal>
    ensures answer { in_numbers result ≡ to_performed t (response_two (operation_of request t) (two plain.old book.old coordinator.old)) }
    ensures plain { plain.new ≡ plain_left plain.old (response_two (operation_of request t) (two plain.old book.old coordinator.old)) }
    ensures bookkeeping { book.new ≡ bookkeeping_left book.old (response_two (operation_of request t) (two plain.old book.old coordinator.old)) }
    ensures decisions { coordinator.new ≡ coordinator_left coordinator.old (response_two (operation_of request t) (two plain.old book.old coordinator.old)) }
{
    check_forms(plain, book, coordinator)?;
    let p = front_end(plain, PLAIN_BYTES);
    let b = front_end(book, BOOKKEEPING_BYTES);
    two_sheets::perform(request, t, &mut plain[..p], &mut book[..b], coordinator)
}

// A begin takes no transaction: one of number 0 stands in its place.
pub fn begin(
    serializable: bool,
    plain: &mut [u8],
    book: &mut [u8],
    coordinator: &mut [u8],
) -> Result<Performed, Refusal>
    ensures { Gives (once (model.begin serializable)) (new_transaction 0 false) plain.old book.old coordinator.old (in_numbers result) plain.new book.new coordinator.new }
{
    let none = transactions::new_transaction(0, false);
    perform(Request::Begin(serializable), none, plain, book, coordinator)
}

// The read, or the first of its two calls, which answers the columns of the plain sheet.
pub fn read(
    t: Transaction,
    key: Key,
    clock: u32,
    plain: &mut [u8],
    book: &mut [u8],
    coordinator: &mut [u8],
) -> Result<Performed, Refusal>
    ensures { Gives (once (model.read t key clock)) t plain.old book.old coordinator.old (in_numbers result) plain.new book.new coordinator.new }
{
    perform(Request::Read(key, clock), t, plain, book, coordinator)
}

// The second call of a read, with the columns that the first answered.
pub fn second(
    t: Transaction,
    key: Key,
    clock: u32,
    columns: Columns,
    plain: &mut [u8],
    book: &mut [u8],
    coordinator: &mut [u8],
) -> Result<Performed, Refusal>
    ensures { Gives (once (model.second t key clock columns)) t plain.old book.old coordinator.old (in_numbers result) plain.new book.new coordinator.new }
{
    perform(
        Request::Second(key, clock, columns),
        t,
        plain,
        book,
        coordinator,
    )
}

pub fn put(
    t: Transaction,
    key: Key,
    columns: Columns,
    plain: &mut [u8],
    book: &mut [u8],
    coordinator: &mut [u8],
) -> Result<Performed, Refusal>
    ensures { Gives (once (model.put t key columns)) t plain.old book.old coordinator.old (in_numbers result) plain.new book.new coordinator.new }
{
    perform(Request::Put(key, columns), t, plain, book, coordinator)
}

pub fn advance(
    t: Transaction,
    clock: u32,
    plain: &mut [u8],
    book: &mut [u8],
    coordinator: &mut [u8],
) -> Result<Performed, Refusal>
    ensures { Gives (once (model.advance t clock)) t plain.old book.old coordinator.old (in_numbers result) plain.new book.new coordinator.new }
{
    perform(Request::Advance(clock), t, plain, book, coordinator)
}

pub fn close(
    t: Transaction,
    clock: u32,
    limit: u32,
    plain: &mut [u8],
    book: &mut [u8],
    coordinator: &mut [u8],
) -> Result<Performed, Refusal>
    ensures { Gives (operations.close t clock limit) t plain.old book.old coordinator.old (in_numbers result) plain.new book.new coordinator.new }
{
    perform(Request::Close(clock, limit), t, plain, book, coordinator)
}

pub fn abort(
    t: Transaction,
    plain: &mut [u8],
    book: &mut [u8],
    coordinator: &mut [u8],
) -> Result<Performed, Refusal>
    ensures { Gives (once (model.abort t)) t plain.old book.old coordinator.old (in_numbers result) plain.new book.new coordinator.new }
{
    perform(Request::Abort, t, plain, book, coordinator)
}

// It takes no transaction, which `perform` would hand on and back.
pub fn visit(
    key: Key,
    clock: u32,
    plain: &mut [u8],
    book: &mut [u8],
    coordinator: &mut [u8],
) -> Result<Recovery, Refusal>
    ensures { GivesAs to_visited (once (model.visit key clock)) plain.old book.old coordinator.old (in_numbers result) plain.new book.new coordinator.new }
{
    check_forms(plain, book, coordinator)?;
    let p = front_end(plain, PLAIN_BYTES);
    let b = front_end(book, BOOKKEEPING_BYTES);
    two_sheets::visit(key, clock, &mut plain[..p], &mut book[..b], coordinator)
}
