// The companion of the close: for 1 to 8 puts a transaction and sheets whose close makes as many writes as any can.
#![tactic(auto)]

ghost use Rattle.std.specs.Prelude.{◌≡◌, ◌*◌, ◌≤◌, length};
ghost use Rattle.model.specs.Layouts.{record_bytes};
ghost use Rattle.model.specs.Records.{records_text};
ghost use Rattle.model.specs.Refusals.{refusal_of, refused_with};
ghost use Rattle.model.specs.Greatest.{greatest_lines, greatest_entry, greatest_transaction, greatest_conditions};
ghost use Rattle.model.specs.Greatest.{greatest_records_after, greatest_coordinator_after};
ghost use Rattle.answers.specs.Answers.{in_numbers};
ghost use Rattle.greatest.specs.Answers.{greatest_answer};

use types::{
    Columns, Entry, Key, LEAST_COORDINATOR_BYTES, Layout, NO_IMAGE, RECORD_BYTES, Refusal,
    Transaction,
};

// One number issued, every storage written record by record, nothing decided.
const COORDINATOR: [u8; LEAST_COORDINATOR_BYTES] = *b"   1 RRRRRRRRR\n   1         -\n";

// 3 for another count than 1 to 8, then 1 for a target of another length.
fn fits(count: u32, records: &[u8], coordinator: &[u8]) -> Result<(), Refusal>
    ensures { refused_with result ≡ refusal_of (greatest_conditions count records.now coordinator.now) }
{
    if count < 1 {
        return Err(Refusal::BadTransaction);
    }
    if 8 < count {
        return Err(Refusal::BadTransaction);
    }
    if records.len() != (count as usize) * RECORD_BYTES {
        return Err(Refusal::BadRecords);
    }
    if coordinator.len() != LEAST_COORDINATOR_BYTES {
        return Err(Refusal::BadRecords);
    }
    Ok(())
}

// An ABSENT line for each put over the target.
fn fill_lines(count: u32, records: &mut [u8])
    requires count_bound { count ≤ 8 }
    requires records_len { length records.old ≡ count * record_bytes }
    ensures { records.new ≡ records_text (greatest_lines count) }
{
    for i in 0..count {
        let at = (i as usize) * RECORD_BYTES;
        let end = at + RECORD_BYTES;
        let row = [1, 1, 1, 0, i + 1, 0, 0, 0, 0, 0, 0, 0, 0, 0, 0, 0];
        codec::lines::write_row(Layout::RecordLine, &row, &mut records[at..end]);
    }
}

// Line i as read, with a put over it.
fn entry(i: u32) -> Entry
    requires { i ≤ 8 }
    ensures { result ≡ greatest_entry i }
{
    Entry {
        key: Key {
            storage: 1,
            namespace: 1,
            table: 1,
            partition: 0,
            clustering: i,
        },
        seen: NO_IMAGE,
        absent: 1,
        wrote: 1,
        put: Columns {
            column1: i,
            column2: 10 * i,
        },
    }
}

// Checked, since an unchecked one of one put would be written in one phase.
fn transaction(count: u32) -> Transaction
    requires { count ≤ 8 }
    ensures { result ≡ greatest_transaction count }
{
    let mut t = transactions::new_transaction(1, true);
    for i in 0..count {
        let e = entry(i + 1);
        t = transactions::with_entry(i + 1, i as usize, e, t);
    }
    t
}

// A transaction of so many puts, and both sheets over the targets.
pub fn greatest(
    count: u32,
    records: &mut [u8],
    coordinator: &mut [u8],
) -> Result<Transaction, Refusal>
    ensures answer { in_numbers result ≡ greatest_answer count records.old coordinator.old }
    ensures records { records.new ≡ greatest_records_after count records.old coordinator.old }
    ensures coordinator { coordinator.new ≡ greatest_coordinator_after count records.old coordinator.old }
{
    fits(count, records, coordinator)?;
    fill_lines(count, records);
    coordinator.copy_from_slice(&COORDINATOR);
    Ok(transaction(count))
}
