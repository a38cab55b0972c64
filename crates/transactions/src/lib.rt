// A transaction by value: what it holds, and the transaction with some fields replaced. `stages` has what a step returns.
#![tactic(auto)]

ghost use Rattle.std.specs.Prelude.{◌≡◌, not, cond, ◌+◌, ◌≤◌, ◌<◌, length, get_or};
ghost use Rattle.model.specs.Transactions as model;
ghost use Rattle.model.specs.Transactions.{held, is_empty, puts, to_validate, must_validate, no_entry, held_at, with_entry};
ghost use Rattle.model.specs.Groups.{letter_for};
ghost use Rattle.model.specs.Steps.{holds_lower};
ghost use Rattle.model.specs.Calls.{new_transaction};
ghost use Rattle.transactions.specs.Held.{entry_at};
ghost use Rattle.transactions.specs.Units.{letter_or_none, units_in};

pub mod phases;
pub mod stages;

use types::{Columns, Entry, Key, NO_IMAGE, NO_KEY, Reading, Transaction};

const NO_ENTRY: Entry = Entry {
    key: NO_KEY,
    seen: NO_IMAGE,
    absent: 0,
    wrote: 0,
    put: Columns {
        column1: 0,
        column2: 0,
    },
};

// What a read of a held entry answers: as last put, else as first read.
pub fn reading(e: Entry) -> Reading
    ensures { result ≡ model.reading e }
{
    let put = e.put;
    if e.wrote == 1 {
        return Reading::Value(put);
    }
    if e.absent == 1 {
        return Reading::Absent;
    }
    Reading::Value(Columns {
        column1: e.seen.column1,
        column2: e.seen.column2,
    })
}

// The entries in use.
pub fn held(t: &Transaction) -> &[Entry]
    requires { t.now.count ≤ 8 }
    ensures entries { result.now ≡ held t.now }
    ensures few { length result.now ≤ 8 }
{
    &t.entries[..t.count as usize]
}

// Entry i.
pub fn entry_at(t: Transaction, i: usize) -> Entry
    requires { i < 8 }
    ensures { result ≡ entry_at t i }
{
    t.entries[i]
}

// The index of the entry that holds the key.
pub fn held_at(k: Key, t: Transaction) -> Option<usize>
    requires { t.count ≤ 8 }
    ensures { result ≡ held_at k t }
{
    held(&t).iter().position(|e| e.key == k)
}

// A new transaction: open, without entries.
pub fn new_transaction(n: u32, serializable: bool) -> Transaction
    ensures { result ≡ new_transaction n serializable }
{
    let entries = [NO_ENTRY; 8];
    Transaction {
        number: n,
        serializable: u32::from(serializable),
        phase: 0,
        place: 0,
        verdict: 0,
        count: 0,
        entries,
    }
}

// The transaction in another phase, at a place, with a verdict. These stay numbers, as the C interface has them: the clause holds of every number, and an enum would
// ask more.
pub fn moved(phase: u32, place: u32, verdict: u32, t: Transaction) -> Transaction
    ensures { result ≡ model.moved phase place verdict t }
{
    Transaction {
        phase,
        place,
        verdict,
        ..t
    }
}

// Some entry has a put.
pub fn has_puts(t: Transaction) -> bool
    requires { t.count ≤ 8 }
    ensures { result ≡ not (is_empty (puts t)) }
{
    held(&t).iter().any(|e| e.wrote == 1)
}

// The letter of a storage, counted from 1, if it has one.
pub fn letter_of(letters: &[u8], storage: u32) -> Option<u8>
    ensures { letter_for storage (units_in letters.now) ≡ letter_or_none result }
{
    if storage < 1 {
        return None;
    }
    let i = (storage - 1) as usize;
    letters.get(i).copied()
}

// The storage can't be read consistently: its letter is a small one, and these come after the capitals. One without a letter can.
#[tactic(auto, unfolding(sheet_laws::specs::Letters::letter_in))]
pub fn is_lower(letters: &[u8], storage: u32) -> bool
    ensures { result ≡ (letter_for storage (units_in letters.now)).lower }
{
    letter_of(letters, storage).is_some_and(|letter| b'a' <= letter)
}

// An entry to be validated: one without a put, if the transaction is serializable, or if its storage can't be read consistently: there any transaction must look
// whether what it read still stands.
fn must_validate(letters: &[u8], t: &Transaction, e: Entry) -> bool
    ensures { result ≡ must_validate (units_in letters.now) t.now e }
{
    e.wrote != 1 && (t.serializable == 1 || is_lower(letters, e.key.storage))
}

// Some entry, put or not, is of a storage that can't be read consistently: such a transaction doesn't commit in one phase, which looks at the puts only.
pub fn holds_lower(letters: &[u8], t: Transaction) -> bool
    requires { t.count ≤ 8 }
    ensures { result ≡ holds_lower (units_in letters.now) t }
{
    held(&t).iter().any(|e| is_lower(letters, e.key.storage))
}

// How many entries are to be validated.
pub fn validate_count(letters: &[u8], t: Transaction) -> u32
    requires { t.count ≤ 8 }
    ensures { result ≡ length (to_validate (units_in letters.now) t) }
{
    held(&t)
        .iter()
        .filter(|e| must_validate(letters, &t, **e))
        .count() as u32
}

// Some entry is to be validated. By the count: the borrow checker does not cover `any` with a closure that holds both the letters and the transaction.
pub fn validates(letters: &[u8], t: Transaction) -> bool
    requires { t.count ≤ 8 }
    ensures { result ≡ not (is_empty (to_validate (units_in letters.now) t)) }
{
    0 < validate_count(letters, t)
}

// The entry to be validated at a place, an empty one past the last.
pub fn to_validate(letters: &[u8], t: Transaction, place: u32) -> Entry
    requires { t.count ≤ 8 }
    ensures { result ≡ get_or (to_validate (units_in letters.now) t) place no_entry }
{
    held(&t)
        .iter()
        .filter(|e| must_validate(letters, &t, **e))
        .nth(place as usize)
        .copied()
        .unwrap_or(NO_ENTRY)
}

// The transaction with the first n entries in use, and e as entry i.
pub fn with_entry(n: u32, i: usize, e: Entry, t: Transaction) -> Transaction
    requires { i < 8 }
    ensures { result ≡ with_entry n i e t }
{
    let mut u = t;
    u.count = n;
    u.entries[i] = e;
    u
}
