// The check of a coordinator sheet by itself, and against the numbers that records name.
#![tactic(auto)]

ghost use Rattle.std.specs.Prelude.{◌≡◌, ◌≤◌, true};
ghost use Rattle.model.specs.Records.{records_accepted};
ghost use Rattle.model.specs.Coordinator.{coordinator_readable, coordinator_accepted};
ghost use Rattle.model.specs.SheetCalls.{all_issued};
ghost use Rattle.coordinator_check.specs.Sheet.{whole_lines};

mod head;
mod lines;

use line_bytes::number;
use types::{
    BEFORE_TXID_AT, COORDINATOR_BYTES, LEAST_COORDINATOR_BYTES, LINE_END, MOST_COORDINATOR_BYTES,
    RECORD_BYTES, TXID_AT,
};

// A head and 1 to 999 lines of 15 bytes.
#[tactic(auto, unfolding(crate::specs::Sheet::whole_lines))]
fn whole_lines(size: usize) -> bool
    ensures value { result ≡ whole_lines size }
    ensures headed { result ≡ true → 30 ≤ size }
{
    (LEAST_COORDINATOR_BYTES <= size)
        & (size <= MOST_COORDINATOR_BYTES)
        & (size % COORDINATOR_BYTES == 0)
}

// Whether the sheet breaks no rule of its own, with letters of either case.
pub fn coordinator_readable(coordinator: &[u8]) -> bool
    ensures { result ≡ coordinator_readable coordinator.now }
{
    if !whole_lines(coordinator.len()) {
        return false;
    }
    if !head::letters_ok(&coordinator[..COORDINATOR_BYTES]) {
        return false;
    }
    let Some(issued) = decimal::read(&coordinator[..4], 0, 999) else {
        return false;
    };
    lines::decisions_ok(coordinator, issued as usize)
}

// Whether it is, besides, one of capitals: small letters are for two sheets only.
pub fn coordinator_ok(coordinator: &[u8]) -> bool
    ensures { result ≡ coordinator_accepted coordinator.now }
{
    if !coordinator_readable(coordinator) {
        return false;
    }
    head::capitals(&coordinator[5..LINE_END])
}

// Whether every number that a record names, as its TxID or its before TxID, has been issued. Figures of one width order as their bytes do, so
// that none is read.
pub fn all_issued(records: &[u8], coordinator: &[u8]) -> bool
    requires records_value { records_accepted records.now ≡ true }
    requires coordinator_value { coordinator_readable coordinator.now ≡ true }
    ensures { result ≡ all_issued records.now coordinator.now }
{
    let issued = number::<4>(coordinator, 0);
    let count = records.len() / RECORD_BYTES;
    for i in 0..count {
        let txid = number::<4>(records, i * RECORD_BYTES + TXID_AT);
        let before_txid = number::<4>(records, i * RECORD_BYTES + BEFORE_TXID_AT);
        if txid > issued {
            return false;
        }
        if before_txid > issued {
            return false;
        }
    }
    true
}
