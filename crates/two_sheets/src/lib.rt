// The calls on a plain sheet, a bookkeeping sheet and a coordinator sheet, for every input (document 02, note 4). Both sheets are joined in an area of this call's
// own, where the call on accepted sheets runs, and an accepted call is split back; a lent area wouldn't do, since a refusal leaves every lent byte.
#![tactic(auto)]

ghost use Rattle.std.specs.Prelude.{◌≡◌, length};
ghost use Rattle.model.specs.Refusals.{refusal_of, refused_with};
ghost use Rattle.model.specs.TwoSheets.{full_conditions};
ghost use Rattle.model.specs.Results as model;
ghost use Rattle.model.specs.Operations.{once, coordinator_left};
ghost use Rattle.model.specs.Requests.{operation_of};
ghost use Rattle.model.specs.FullCalls.{response_full, full_plain_left, full_bookkeeping_left};
ghost use Rattle.answers.specs.Answers.{in_numbers, to_performed, to_visited};
ghost use Rattle.two_check.specs.Areas.{two, Rooms};
ghost use Rattle.two_sheets.specs.Performing.{OnJoined, GivesAs, Performs};

pub mod lookup;

use answers::Performed;
use two_join::PLAIN_BYTES;
use types::{Key, RECORD_BYTES, Recovery, Refusal, Request, Transaction};

// Refused with 1, 2 or 13.
pub fn check(plain: &[u8], book: &[u8], coordinator: &[u8]) -> Result<(), Refusal>
    ensures { refused_with result ≡ refusal_of (full_conditions plain.now book.now coordinator.now) }
{
    two_check::in_area(
        plain.len(),
        book.len(),
        &mut |area: &mut [u8]| { two_check::join_checked(plain, book, coordinator, area) },
    )
}

// What is asked, on both sheets joined in the area. An accepted call goes to both.
fn on_joined(
    request: Request,
    t: Transaction,
    plain: &mut [u8],
    book: &mut [u8],
    coordinator: &mut [u8],
    area: &mut [u8],
) -> Result<Performed, Refusal>
    requires { OnJoined plain.old book.old coordinator.old area.old }
    ensures { Performs request t plain.old book.old coordinator.old (in_numbers result) plain.new book.new coordinator.new }
{
    let performed = perform::perform(request, t, area, coordinator)?;
    two_join::split_plain(area, plain);
    two_join::split_bookkeeping(area, book);
    Ok(performed)
}

// The same with the area to be filled.
fn on_area(
    request: Request,
    t: Transaction,
    plain: &mut [u8],
    book: &mut [u8],
    coordinator: &mut [u8],
    area: &mut [u8],
) -> Result<Performed, Refusal>
    requires { Rooms plain.old book.old (length area.old) }
    ensures { Performs request t plain.old book.old coordinator.old (in_numbers result) plain.new book.new coordinator.new }
{
    two_check::join_checked(plain, book, coordinator, area)?;
    let n = plain.len() / PLAIN_BYTES * RECORD_BYTES;
    on_joined(request, t, plain, book, coordinator, &mut area[..n])
}

// Every call by one function: what is asked, of a transaction.
pub fn perform(
    request: Request,
    t: Transaction,
    plain: &mut [u8],
    book: &mut [u8],
    coordinator: &mut [u8],
) -> Result<Performed, Refusal>
    ensures answer { in_numbers result ≡ to_performed t (response_full (operation_of request t) (two plain.old book.old coordinator.old)) }
    ensures plain { plain.new ≡ full_plain_left plain.old (response_full (operation_of request t) (two plain.old book.old coordinator.old)) }
    ensures bookkeeping { book.new ≡ full_bookkeeping_left book.old (response_full (operation_of request t) (two plain.old book.old coordinator.old)) }
    ensures decisions { coordinator.new ≡ coordinator_left coordinator.old (response_full (operation_of request t) (two plain.old book.old coordinator.old)) }
{
    let lengths = (plain.len(), book.len());
    two_check::in_area(
        lengths.0,
        lengths.1,
        &mut |area: &mut [u8]| { on_area(request, t, plain, book, coordinator, area) },
    )
}

// The visit on both sheets joined in the area. It takes no transaction, which `perform` would hand on and back.
fn visit_joined(
    key: Key,
    clock: u32,
    plain: &mut [u8],
    book: &mut [u8],
    coordinator: &mut [u8],
    area: &mut [u8],
) -> Result<Recovery, Refusal>
    requires { OnJoined plain.old book.old coordinator.old area.old }
    ensures { GivesAs to_visited (once (model.visit key clock)) plain.old book.old coordinator.old (in_numbers result) plain.new book.new coordinator.new }
{
    let met = visits::visit(key, clock, area, coordinator)?;
    two_join::split_plain(area, plain);
    two_join::split_bookkeeping(area, book);
    Ok(met)
}

// The same with the area to be filled.
fn visit_area(
    key: Key,
    clock: u32,
    plain: &mut [u8],
    book: &mut [u8],
    coordinator: &mut [u8],
    area: &mut [u8],
) -> Result<Recovery, Refusal>
    requires { Rooms plain.old book.old (length area.old) }
    ensures { GivesAs to_visited (once (model.visit key clock)) plain.old book.old coordinator.old (in_numbers result) plain.new book.new coordinator.new }
{
    two_check::join_checked(plain, book, coordinator, area)?;
    let n = plain.len() / PLAIN_BYTES * RECORD_BYTES;
    visit_joined(key, clock, plain, book, coordinator, &mut area[..n])
}

pub fn visit(
    key: Key,
    clock: u32,
    plain: &mut [u8],
    book: &mut [u8],
    coordinator: &mut [u8],
) -> Result<Recovery, Refusal>
    ensures { GivesAs to_visited (once (model.visit key clock)) plain.old book.old coordinator.old (in_numbers result) plain.new book.new coordinator.new }
{
    let lengths = (plain.len(), book.len());
    two_check::in_area(
        lengths.0,
        lengths.1,
        &mut |area: &mut [u8]| { visit_area(key, clock, plain, book, coordinator, area) },
    )
}
