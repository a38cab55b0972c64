// The columns that a transaction means to write to a key that it holds.
ghost use Rattle.std.specs.Prelude.{◌≡◌, ◌≤◌, ◌<◌};
ghost use Rattle.model.specs.Results.{put};
ghost use Rattle.model.specs.Calls.{result_of};
ghost use Rattle.model.specs.ByteCalls.{sheets_of};
ghost use Rattle.call_laws.specs.Accepted.{Accepted};
ghost use Rattle.answers.specs.Answers.{in_numbers, to_returned};
ghost use Rattle.cores.specs.Putting.{put_held, put_at};

use types::{Columns, Entry, Key, Refusal, Transaction};

// A put over entry i.
fn put_at(t: Transaction, i: usize, columns: Columns) -> Result<Transaction, Refusal>
    requires { i < 8 }
    ensures { in_numbers result ≡ to_returned t (put_at t i columns) }
{
    let e = transactions::entry_at(t, i);
    if 99999 <= e.seen.version {
        return Err(Refusal::VersionsSpent);
    }
    let key = e.key;
    let seen = e.seen;
    let absent = e.absent;
    let with_put = Entry {
        key,
        seen,
        absent,
        wrote: 1,
        put: columns,
    };
    Ok(transactions::with_entry(t.count, i, with_put, t))
}

// A put of a key that has a line.
fn put_held(t: Transaction, key: Key, columns: Columns) -> Result<Transaction, Refusal>
    requires { t.count ≤ 8 }
    ensures { in_numbers result ≡ to_returned t (put_held t key columns) }
{
    if !well_formed::columns_in_range(columns) {
        return Err(Refusal::BadColumns);
    }
    let i = transactions::held_at(key, t).ok_or(Refusal::NotHeld)?;
    put_at(t, i, columns)
}

pub fn put(
    t: Transaction,
    key: Key,
    columns: Columns,
    records: &[u8],
    coordinator: &[u8],
) -> Result<Transaction, Refusal>
    requires { Accepted records.now coordinator.now }
    ensures { in_numbers result ≡ to_returned t (result_of (put t key columns) (sheets_of records.now coordinator.now)) }
{
    admission::open_refusal(t, key, coordinator)?;
    sheets::lookup::find(records, key).ok_or(Refusal::NoSuchKey)?;
    put_held(t, key, columns)
}
