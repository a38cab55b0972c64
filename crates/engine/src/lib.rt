// The calls on two lent sheets, for every input: refusals 1 and 2 by the check, the others and what is done by the call on accepted sheets, which is lent the lines of
// records and no spares. A refusal leaves both sheets as they were. `perform` is every call by one function.
#![tactic(auto)]

ghost use Rattle.std.specs.Prelude.{◌≡◌};
ghost use Rattle.model.specs.Results as model;
ghost use Rattle.model.specs.ByteCalls.{result_on, sheet_after, coordinator_after};
ghost use Rattle.model.specs.Operations.{response_on, sheet_left, coordinator_left};
ghost use Rattle.model.specs.Operations as operations;
ghost use Rattle.model.specs.Requests.{operation_of};
ghost use Rattle.engine.specs.Issuing.{IssuesOn};
ghost use Rattle.answers.specs.Answers.{in_numbers, to_begun, to_returned, to_read, to_performed, to_closed, to_visited};

use answers::{Closed, Performed, Read};
use record_check::lines_end;
use sheets::check;
use types::{Columns, Key, Recovery, Refusal, Request, Transaction};

// Each asks the check and makes the call on the lines. A function that took the call as a closure would be no plainer: `?` says the refusal, and what differs is the call, its
// answer and what it is lent.

// A number issued, without its transaction: checked or not, it is the same.
pub fn issue(records: &[u8], coordinator: &mut [u8]) -> Result<u32, Refusal>
    ensures { IssuesOn records.now coordinator.old (in_numbers result) coordinator.new }
{
    check::check(records, coordinator)?;
    cores::begin::issue(coordinator)
}

pub fn begin(
    serializable: bool,
    records: &[u8],
    coordinator: &mut [u8],
) -> Result<Transaction, Refusal>
    ensures answer { in_numbers result ≡ to_begun (result_on (model.begin serializable) records.now coordinator.old) }
    ensures decisions { coordinator.new ≡ coordinator_after records.now coordinator.old (result_on (model.begin serializable) records.now coordinator.old) }
{
    let number = issue(records, coordinator)?;
    Ok(transactions::new_transaction(number, serializable))
}

pub fn read(
    t: Transaction,
    key: Key,
    clock: u32,
    records: &mut [u8],
    coordinator: &mut [u8],
) -> Result<Read, Refusal>
    ensures answer { in_numbers result ≡ to_read t (result_on (model.read t key clock) records.old coordinator.old) }
    ensures lines { records.new ≡ sheet_after records.old coordinator.old (result_on (model.read t key clock) records.old coordinator.old) }
    ensures decisions { coordinator.new ≡ coordinator_after records.old coordinator.old (result_on (model.read t key clock) records.old coordinator.old) }
{
    check::check(records, coordinator)?;
    let end = lines_end(records);
    reads::read(t, key, clock, &mut records[..end], coordinator)
}

pub fn put(
    t: Transaction,
    key: Key,
    columns: Columns,
    records: &[u8],
    coordinator: &[u8],
) -> Result<Transaction, Refusal>
    ensures { in_numbers result ≡ to_returned t (result_on (model.put t key columns) records.now coordinator.now) }
{
    check::check(records, coordinator)?;
    let end = lines_end(records);
    cores::put::put(t, key, columns, &records[..end], coordinator)
}

pub fn advance(
    t: Transaction,
    clock: u32,
    records: &mut [u8],
    coordinator: &mut [u8],
) -> Result<Transaction, Refusal>
    ensures answer { in_numbers result ≡ to_returned t (result_on (model.advance t clock) records.old coordinator.old) }
    ensures lines { records.new ≡ sheet_after records.old coordinator.old (result_on (model.advance t clock) records.old coordinator.old) }
    ensures decisions { coordinator.new ≡ coordinator_after records.old coordinator.old (result_on (model.advance t clock) records.old coordinator.old) }
{
    check::check(records, coordinator)?;
    let end = lines_end(records);
    cores::advance::advance(t, clock, &mut records[..end], coordinator)
}

// Steps up to done, or up to one that would write beyond the limit. One check serves them all.
pub fn close(
    t: Transaction,
    clock: u32,
    limit: u32,
    records: &mut [u8],
    coordinator: &mut [u8],
) -> Result<Closed, Refusal>
    ensures answer { in_numbers result ≡ to_closed t (response_on (operations.close t clock limit) records.old coordinator.old) }
    ensures lines { records.new ≡ sheet_left records.old (response_on (operations.close t clock limit) records.old coordinator.old) }
    ensures decisions { coordinator.new ≡ coordinator_left coordinator.old (response_on (operations.close t clock limit) records.old coordinator.old) }
{
    check::check(records, coordinator)?;
    let end = lines_end(records);
    cores::close::close(t, clock, limit, &mut records[..end], coordinator)
}

pub fn abort(t: Transaction, records: &[u8], coordinator: &[u8]) -> Result<Transaction, Refusal>
    ensures { in_numbers result ≡ to_returned t (result_on (model.abort t) records.now coordinator.now) }
{
    check::check(records, coordinator)?;
    let end = lines_end(records);
    cores::abort::abort(t, &records[..end], coordinator)
}

pub fn visit(
    key: Key,
    clock: u32,
    records: &mut [u8],
    coordinator: &mut [u8],
) -> Result<Recovery, Refusal>
    ensures answer { in_numbers result ≡ to_visited (result_on (model.visit key clock) records.old coordinator.old) }
    ensures lines { records.new ≡ sheet_after records.old coordinator.old (result_on (model.visit key clock) records.old coordinator.old) }
    ensures decisions { coordinator.new ≡ coordinator_after records.old coordinator.old (result_on (model.visit key clock) records.old coordinator.old) }
{
    check::check(records, coordinator)?;
    let end = lines_end(records);
    visits::visit(key, clock, &mut records[..end], coordinator)
}

// Every call by one function: what is asked, of a transaction.
pub fn perform(
    request: Request,
    t: Transaction,
    records: &mut [u8],
    coordinator: &mut [u8],
) -> Result<Performed, Refusal>
    ensures answer { in_numbers result ≡ to_performed t (response_on (operation_of request t) records.old coordinator.old) }
    ensures lines { records.new ≡ sheet_left records.old (response_on (operation_of request t) records.old coordinator.old) }
    ensures decisions { coordinator.new ≡ coordinator_left coordinator.old (response_on (operation_of request t) records.old coordinator.old) }
{
    check::check(records, coordinator)?;
    let end = lines_end(records);
    perform::perform(request, t, &mut records[..end], coordinator)
}
