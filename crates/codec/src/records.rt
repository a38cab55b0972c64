// Records of a sheet by their index: what a call with a transaction reads and writes of a record sheet.
ghost use Rattle.std.specs.Prelude.{◌≡◌, ◌+◌, ◌*◌, ◌/◌, cond, length, get_or, ltb, Some, None};
ghost use Rattle.model.specs.Layouts.{record_bytes, record_fields};
ghost use Rattle.model.specs.Records.{record_of, no_record, absence};
ghost use Rattle.model.specs.Records as model;

use crate::lines;
use std::ops::Range;
use types::{
    Before, Image, Key, Layout, NO_IMAGE, NO_KEY, RECORD_BYTES, RECORD_FIELDS, Record, State,
};

const NO_RECORD: Record = Record {
    key: NO_KEY,
    state: State::Absent,
    image: NO_IMAGE,
    prior: Before::Nothing,
    before: NO_IMAGE,
    clock: 0,
};

// The record of its numbers.
pub fn record_of(v: &[u32]) -> Record
    requires { length v.now ≡ record_fields }
    ensures { result ≡ record_of v.now }
{
    Record {
        key: Key {
            storage: v[0],
            namespace: v[1],
            table: v[2],
            partition: v[3],
            clustering: v[4],
        },
        state: State::from(v[5]),
        image: Image {
            version: v[6],
            txid: v[7],
            column1: v[8],
            column2: v[9],
        },
        prior: Before::from(v[10]),
        before: Image {
            version: v[11],
            txid: v[12],
            column1: v[13],
            column2: v[14],
        },
        clock: v[15],
    }
}

// The image of an absence: version and TxID each 0 or each at least 1, and no columns.
pub fn is_absence(m: Image) -> bool
    ensures { result ≡ absence m }
{
    if m.version == 0 {
        return (m.txid == 0) & (m.column1 == 0) & (m.column2 == 0);
    }
    (1 <= m.txid) & (m.column1 == 0) & (m.column2 == 0)
}

// How many records a sheet has.
pub fn count(records: &[u8]) -> usize
    ensures { result ≡ length records.now / record_bytes }
{
    records.len() / RECORD_BYTES
}

// Where line i lies, if there is one.
pub fn line_at(records: &[u8], i: usize) -> Option<Range<usize>>
    ensures { result ≡ cond (ltb i (length records.now / record_bytes)) (Some (record { start = i * record_bytes; end = i * record_bytes + record_bytes })) None }
{
    if i < count(records) {
        let start = i * RECORD_BYTES;
        Some(start..start + RECORD_BYTES)
    } else {
        None
    }
}

// Record i, an absent one of no key past the end.
pub fn record_at(records: &[u8], i: usize) -> Record
    ensures { result ≡ get_or (model.records records.now) i no_record }
{
    match line_at(records, i) {
        Some(line) => {
            let mut row = [0u32; RECORD_FIELDS];
            lines::read_row(Layout::RecordLine, &records[line], &mut row);
            record_of(&row)
        }
        None => NO_RECORD,
    }
}
