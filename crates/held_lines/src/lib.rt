// The lines of a transaction's entries on an accepted record sheet.
#![tactic(auto)]

ghost use Rattle.std.specs.Prelude.{◌≡◌, true, List, ℕ, ◌≤◌, get_or};
ghost use Rattle.model.specs.Records.{no_record, records_accepted, key_in_range};
ghost use Rattle.model.specs.Records as sheet;
ghost use Rattle.model.specs.Coordinator.{coordinator_of};
ghost use Rattle.model.specs.Images.{unchanged, same_columns, prepared_by};
ghost use Rattle.model.specs.Steps as model;
ghost use Rattle.model.specs.ByteCalls.{sheets_of};
ghost use Rattle.sheet_laws.specs.Letters.{units_in};
ghost use Rattle.held_lines.specs.Located.{line_index, keys_ranged, indices_of, index_in};

use codec::reading;
use sheets::lookup;
use types::{Entry, Key, Transaction};

// What a call finds once about the entries of its transaction: the index of each one's line, how many groups the puts make, and the place of each one's group. Two arrays
// and not one of pairs: `lines_of` and `put_groups::groups_of` each give one, which their clauses name whole (`indices_of`, `groups_in`).
#[derive(Clone, Copy)]
pub struct Located {
    pub indices: [usize; 8],
    pub groups: u32,
    pub of: [u32; 8],
}

pub const NO_INDICES: [usize; 8] = [0, 0, 0, 0, 0, 0, 0, 0];

// The index of the line of a key, the number of lines where it has none.
fn line_index(records: &[u8], key: Key) -> usize
    requires { (records_accepted records.now ≡ true) × (key_in_range key ≡ true) }
    ensures { result ≡ line_index key (sheet.records records.now) }
{
    match lookup::find(records, key) {
        Some(i) => i,
        None => codec::records::count(records),
    }
}

// Where the lines of a transaction's entries are. The only searches of a call for its entries.
pub fn lines_of(records: &[u8], t: Transaction) -> [usize; 8]
    requires { (records_accepted records.now ≡ true) × ((t.count ≤ 8) × (keys_ranged t ≡ true)) }
    ensures { result ≡ indices_of (sheet.records records.now) t t.count }
{
    let mut indices = NO_INDICES;
    for (i, e) in transactions::held(&t).iter().enumerate() {
        indices[i] = line_index(records, e.key);
    }
    indices
}

// The line of an entry isn't pending and has the TxID and version read.
fn is_unchanged(records: &[u8], e: Entry, index: usize) -> bool
    requires { records_accepted records.now ≡ true }
    ensures { result ≡ unchanged e (get_or (sheet.records records.now) index no_record) }
{
    !reading::is_prepared(records, index)
        & (reading::txid(records, index) == e.seen.txid)
        & (reading::version(records, index) == e.seen.version)
}

// The line of an entry has the columns read.
fn same_columns(records: &[u8], e: Entry, index: usize) -> bool
    requires { records_accepted records.now ≡ true }
    ensures { result ≡ same_columns e (get_or (sheet.records records.now) index no_record) }
{
    let columns = reading::columns(records, index);
    (columns.column1 == e.seen.column1) & (columns.column2 == e.seen.column2)
}

// The condition of an entry by the index of its line, beside any coordinator sheet with these letters: there is a line, it is as it was read, and so are its columns
// where they may have been read at another time than the rest.
pub fn holds(records: &[u8], letters: &[u8], e: Entry, index: usize) -> bool
    requires { (records_accepted records.now ≡ true) × (index ≡ line_index e.key (sheet.records records.now)) }
    ensures { (cs : List ℕ) → units_in letters.now ≡ (coordinator_of cs).units → result ≡ model.holds (sheets_of records.now cs) e }
{
    if codec::records::count(records) <= index {
        return false;
    }
    if !transactions::is_lower(letters, e.key.storage) {
        return is_unchanged(records, e, index);
    }
    is_unchanged(records, e, index) & same_columns(records, e, index)
}

// Of the indices of a transaction's lines the one of a key; 0 for a key that it does not hold.
pub fn index_of(key: Key, t: Transaction, indices: [usize; 8]) -> usize
    requires { t.count ≤ 8 }
    ensures { result ≡ index_in key t indices }
{
    match transactions::held_at(key, t) {
        Some(i) => indices[i],
        None => 0,
    }
}

// Line i is pending by the transaction of this number.
pub fn prepared_by(n: u32, records: &[u8], i: usize) -> bool
    requires { records_accepted records.now ≡ true }
    ensures { result ≡ prepared_by n (get_or (sheet.records records.now) i no_record) }
{
    reading::is_prepared(records, i) & (reading::txid(records, i) == n)
}
