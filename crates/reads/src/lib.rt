// The columns of a key: as the transaction holds them, or as its line says once it was visited.
#![tactic(auto)]

ghost use Rattle.std.specs.Prelude.{◌≡◌, ◌<◌, true, false, if◌then◌else◌};
ghost use Rattle.model.specs.Records.{records_accepted, by_state};
ghost use Rattle.model.specs.Results.{read, second};
ghost use Rattle.model.specs.Calls.{result_of};
ghost use Rattle.model.specs.ByteCalls.{sheets_of};
ghost use Rattle.model.specs.Transactions as model;
ghost use Rattle.transactions.specs.Held.{entry_at};
ghost use Rattle.call_laws.specs.Accepted.{Accepted, Outcome};
ghost use Rattle.recover.specs.Recovering.{line_at};
ghost use Rattle.answers.specs.Answers.{in_numbers, to_read};
ghost use Rattle.reads.specs.Fetching.{call_of, first_of, new_read, entry_seen, read_as, fetched_held, fetched_met, ReadAt, NewRead};

use answers::Read;
use types::{
    Columns, Entry, Key, NO_COLUMNS, Reading, Record, Recovery, Refusal, State, Transaction,
};

// Absence as a number of an entry.
fn absence(state: State) -> u32
    ensures { result ≡ (if by_state state true false false then 1 else 0) }
{
    u32::from(state == State::Absent)
}

// The entry of a record as it is read, which may see columns handed in.
fn entry_of(handed: Option<Columns>, r: Record) -> Entry
    ensures { result ≡ entry_seen handed r.key r }
{
    let key = r.key;
    let state = r.state;
    let seen = match handed {
        Some(columns) => recover::seen(true, columns, r),
        None => r.image,
    };
    let absent = absence(state);
    Entry {
        key,
        seen,
        absent,
        wrote: 0,
        put: NO_COLUMNS,
    }
}

// The read of a record that is then held so.
fn hold(e: Entry, t: Transaction) -> Read
    requires { t.count < 8 }
    ensures { result ≡ fetched_held e t }
{
    let transaction = transactions::with_entry(t.count + 1, t.count as usize, e, t);
    Read {
        value: transactions::reading(e),
        transaction,
    }
}

// The read of a record as its visit leaves it, by what the visit came to.
fn read_met(v: Recovery, e: Entry, t: Transaction) -> Result<Read, Refusal>
    requires { t.count < 8 }
    ensures { in_numbers result ≡ fetched_met v e t }
{
    match v {
        Recovery::Stays | Recovery::Forward | Recovery::Back => Ok(hold(e, t)),
        Recovery::Again => Ok(Read {
            value: Reading::Again,
            transaction: t,
        }),
        Recovery::Busy => Err(Refusal::Busy),
    }
}

// The whole read of a key that is not held, that of line i.
fn read_new(
    handed: Option<Columns>,
    t: Transaction,
    i: usize,
    clock: u32,
    records: &mut [u8],
    coordinator: &mut [u8],
) -> Result<Read, Refusal>
    requires { NewRead t records.old coordinator.old i }
    ensures { Outcome (to_read t) (new_read handed t (line_at records.old i).key clock (sheets_of records.old coordinator.old)) records.old coordinator.old (in_numbers result) records.new coordinator.new }
{
    if 8 <= t.count {
        return Err(Refusal::EntriesSpent);
    }
    let v = recover::recover(i, clock, records, coordinator);
    let r = codec::records::record_at(records, i);
    read_met(v, entry_of(handed, r), t)
}

// The first of two calls: the columns of line i as they stand, and nothing is visited or held.
fn first(t: Transaction, i: usize, records: &[u8]) -> Result<Read, Refusal>
    requires { records_accepted records.now ≡ true }
    ensures { in_numbers result ≡ first_of t (line_at records.now i) }
{
    if 8 <= t.count {
        return Err(Refusal::EntriesSpent);
    }
    Ok(Read {
        value: Reading::First(codec::reading::columns(records, i)),
        transaction: t,
    })
}

// Either call for a key that is not held, that of line i. Under a capital letter a read takes one call, and either is the whole read.
fn fetch_new(
    handed: Option<Columns>,
    t: Transaction,
    i: usize,
    clock: u32,
    records: &mut [u8],
    coordinator: &mut [u8],
) -> Result<Read, Refusal>
    requires { NewRead t records.old coordinator.old i }
    ensures { Outcome (to_read t) (result_of (call_of handed t (line_at records.old i).key clock) (sheets_of records.old coordinator.old)) records.old coordinator.old (in_numbers result) records.new coordinator.new }
{
    let storage = codec::records::record_at(records, i).key.storage;
    let is_lower = transactions::is_lower(&coordinator[5..14], storage);
    match handed {
        None => {
            if is_lower {
                return first(t, i, records);
            }
            read_new(None, t, i, clock, records, coordinator)
        }
        Some(columns) => {
            if !is_lower {
                return read_new(None, t, i, clock, records, coordinator);
            }
            if !well_formed::columns_in_range(columns) {
                return Err(Refusal::BadColumns);
            }
            read_new(Some(columns), t, i, clock, records, coordinator)
        }
    }
}

// The read of the key that entry j holds.
fn read_held(t: Transaction, j: usize) -> Read
    requires { j < 8 }
    ensures { result ≡ read_as (model.reading (entry_at t j)) t }
{
    Read {
        value: transactions::reading(transactions::entry_at(t, j)),
        transaction: t,
    }
}

// Either call for a key whose line is line i.
fn fetch_found(
    handed: Option<Columns>,
    t: Transaction,
    key: Key,
    i: usize,
    clock: u32,
    records: &mut [u8],
    coordinator: &mut [u8],
) -> Result<Read, Refusal>
    requires { ReadAt t key records.old coordinator.old i }
    ensures { Outcome (to_read t) (result_of (call_of handed t key clock) (sheets_of records.old coordinator.old)) records.old coordinator.old (in_numbers result) records.new coordinator.new }
{
    match transactions::held_at(key, t) {
        Some(j) => Ok(read_held(t, j)),
        None => fetch_new(handed, t, i, clock, records, coordinator),
    }
}

// Either call of a read: the first, or the second with the columns that the first answered. Unless the read takes two, either is the whole one.
fn fetch(
    handed: Option<Columns>,
    t: Transaction,
    key: Key,
    clock: u32,
    records: &mut [u8],
    coordinator: &mut [u8],
) -> Result<Read, Refusal>
    requires { Accepted records.old coordinator.old }
    ensures { Outcome (to_read t) (result_of (call_of handed t key clock) (sheets_of records.old coordinator.old)) records.old coordinator.old (in_numbers result) records.new coordinator.new }
{
    admission::open_refusal(t, key, coordinator)?;
    let i = sheets::lookup::find(records, key).ok_or(Refusal::NoSuchKey)?;
    fetch_found(handed, t, key, i, clock, records, coordinator)
}

// The read, or the first of its two calls.
pub fn read(
    t: Transaction,
    key: Key,
    clock: u32,
    records: &mut [u8],
    coordinator: &mut [u8],
) -> Result<Read, Refusal>
    requires { Accepted records.old coordinator.old }
    ensures { Outcome (to_read t) (result_of (read t key clock) (sheets_of records.old coordinator.old)) records.old coordinator.old (in_numbers result) records.new coordinator.new }
{
    fetch(None, t, key, clock, records, coordinator)
}

// The second, with the columns that the first answered.
pub fn second(
    t: Transaction,
    key: Key,
    clock: u32,
    columns: Columns,
    records: &mut [u8],
    coordinator: &mut [u8],
) -> Result<Read, Refusal>
    requires { Accepted records.old coordinator.old }
    ensures { Outcome (to_read t) (result_of (second t key clock columns) (sheets_of records.old coordinator.old)) records.old coordinator.old (in_numbers result) records.new coordinator.new }
{
    fetch(Some(columns), t, key, clock, records, coordinator)
}
