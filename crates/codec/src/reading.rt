// Single fields of a line of a record sheet by its index, each read without the others.
ghost use Rattle.std.specs.Prelude.{◌≡◌, cond, true, false, ◌+◌, ◌*◌, ◌/◌, ◌≤◌, length, take, drop, get_or, ltb};
ghost use Rattle.decimal.specs.Digits.{figure_at};
ghost use Rattle.lists.specs.Bytes.{eq_list};
ghost use Rattle.model.specs.Layouts.{record_bytes, word_bytes, word_at};
ghost use Rattle.model.specs.Records.{no_record, records_accepted};
ghost use Rattle.model.specs.Records as model;
ghost use Rattle.model.specs.Images.{is_prepared, state_back, columns_of};

use crate::fields;
use crate::records::line_at;
use types::{
    BEFORE_STATE_AT, Before, CLOCK_AT, CLOCK_BYTES, CLUSTERING_AT, COLUMN_BYTES, COLUMN1_AT,
    COLUMN2_AT, Columns, Key, Kind, NAMESPACE_AT, PARTITION_AT, PARTITION_BYTES, STATE_AT,
    STORAGE_BYTES, State, TABLE_AT, TABLE_BYTES, TXID_AT, TXID_BYTES, VERSION_AT, VERSION_BYTES,
};

// Whether word n of a kind stands `from` bytes into line i; past the end none does.
fn has_word(records: &[u8], i: usize, from: usize, kind: Kind, n: u32) -> bool
    requires { from + word_bytes ≤ record_bytes }
    ensures { result ≡ cond (ltb i (length records.now / record_bytes)) (eq_list (take word_bytes (drop (i * record_bytes + from) records.now)) (word_at kind n)) false }
{
    match line_at(records, i) {
        Some(line) => fields::is_word_at(records, line.start + from, kind, n),
        None => false,
    }
}

// Whether line i is pending; past the end none is.
pub fn is_prepared(records: &[u8], i: usize) -> bool
    ensures { result ≡ is_prepared (get_or (model.records records.now) i no_record) }
{
    has_word(
        records,
        i,
        STATE_AT,
        Kind::StateWord,
        State::Prepared as u32,
    )
}

// The figure of n columns that begins `from` bytes into line i, 0 past the end.
fn figure(records: &[u8], i: usize, from: usize, n: usize) -> u64
    requires inside { from + n ≤ record_bytes }
    requires digits { n ≤ 15 }
    ensures { result ≡ cond (ltb i (length records.now / record_bytes)) (figure_at (i * record_bytes + from) n records.now) 0 }
{
    match line_at(records, i) {
        Some(line) => line_bytes::figure(records, line.start + from, n),
        None => 0,
    }
}

// The key of line i.
pub fn key(records: &[u8], i: usize) -> Key
    requires { records_accepted records.now ≡ true }
    ensures { result ≡ (get_or (model.records records.now) i no_record).key }
{
    Key {
        storage: figure(records, i, 0, STORAGE_BYTES) as u32,
        namespace: figure(records, i, NAMESPACE_AT, TABLE_BYTES) as u32,
        table: figure(records, i, TABLE_AT, TABLE_BYTES) as u32,
        partition: figure(records, i, PARTITION_AT, PARTITION_BYTES) as u32,
        clustering: figure(records, i, CLUSTERING_AT, PARTITION_BYTES) as u32,
    }
}

// The version of line i.
pub fn version(records: &[u8], i: usize) -> u32
    requires { records_accepted records.now ≡ true }
    ensures { result ≡ (get_or (model.records records.now) i no_record).image.version }
{
    figure(records, i, VERSION_AT, VERSION_BYTES) as u32
}

// Its TxID.
pub fn txid(records: &[u8], i: usize) -> u32
    requires { records_accepted records.now ≡ true }
    ensures { result ≡ (get_or (model.records records.now) i no_record).image.txid }
{
    figure(records, i, TXID_AT, TXID_BYTES) as u32
}

// Both its columns.
pub fn columns(records: &[u8], i: usize) -> Columns
    requires { records_accepted records.now ≡ true }
    ensures { result ≡ columns_of (get_or (model.records records.now) i no_record).image }
{
    Columns {
        column1: figure(records, i, COLUMN1_AT, COLUMN_BYTES) as u32,
        column2: figure(records, i, COLUMN2_AT, COLUMN_BYTES) as u32,
    }
}

// Its prepare clock.
pub fn clock(records: &[u8], i: usize) -> u32
    requires { records_accepted records.now ≡ true }
    ensures { result ≡ (get_or (model.records records.now) i no_record).clock }
{
    figure(records, i, CLOCK_AT, CLOCK_BYTES) as u32
}

// The state that its before state gives back.
pub fn before_state(records: &[u8], i: usize) -> State
    ensures { result ≡ state_back (get_or (model.records records.now) i no_record).prior }
{
    let committed = Before::Committed as u32;
    if has_word(records, i, BEFORE_STATE_AT, Kind::BeforeWord, committed) {
        State::Committed
    } else {
        State::Absent
    }
}
