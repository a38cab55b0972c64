// What a step writes to the lines of a group, entry by entry. The coordinator sheet is lent for its units, by which the groups were found.
ghost use Rattle.std.specs.Prelude.{◌≡◌, cond, true, ◌*◌, ◌/◌, length, get_or, ltb};
ghost use Rattle.lists.specs.Each.{all};
ghost use Rattle.lists.specs.Pieces.{over};
ghost use Rattle.model.specs.Layouts.{record_bytes};
ghost use Rattle.model.specs.Records.{records_accepted, record_text, records_text, no_record};
ghost use Rattle.model.specs.Records as sheet;
ghost use Rattle.model.specs.Writes.{lines_after, prepare, commit, forward, back};
ghost use Rattle.model.specs.Steps.{holds, group_at, keys_of};
ghost use Rattle.model.specs.ByteCalls.{sheets_of};
ghost use Rattle.group_writes.specs.Changes.{changed, written};
ghost use Rattle.group_writes.specs.Turns.{MayChange, Turn, Turned};
ghost use Rattle.group_writes.specs.Ready.{Ready};

use codec::{settling, writing};
use held_lines::Located;
use types::{Columns, Entry, Transaction};

// What a step does to the line of an entry: the put committed in one phase, or prepared at a clock reading, or the line rolled forward or back.
#[derive(Clone, Copy)]
enum Effect {
    Commit,
    Prepare(u32),
    Forward,
    Back,
}

// Line i changed under a number; only what the number has prepared is rolled.
fn change_line(c: Effect, n: u32, put: Columns, i: usize, records: &mut [u8])
    requires { records_accepted records.old ≡ true }
    ensures { records.new ≡ cond (ltb i (length records.old / record_bytes)) (over records.old (i * record_bytes) (record_text (changed c n put (get_or (sheet.records records.old) i no_record)))) records.old }
{
    match c {
        Effect::Commit => writing::commit(records, i, n, put),
        Effect::Prepare(clock) => writing::prepare(records, i, n, put, clock),
        Effect::Forward => {
            if held_lines::prepared_by(n, records, i) {
                settling::roll_forward(records, i);
            }
        }
        Effect::Back => {
            if held_lines::prepared_by(n, records, i) {
                settling::roll_back(records, i);
            }
        }
    }
}

// The line of an entry changed, if the entry is of the group.
fn change_entry(c: Effect, n: u32, own: bool, e: Entry, index: usize, records: &mut [u8])
    requires { Turn c n own e index records.old }
    ensures { Turned c n own e records.old records.new }
{
    if !own {
        return;
    }
    change_line(c, n, e.put, index, records);
}

// The lines of the group changed.
fn change_group(c: Effect, t: Transaction, located: Located, records: &mut [u8], coordinator: &[u8])
    requires { MayChange c records.old coordinator.now t located }
    ensures { records.new ≡ records_text (lines_after (written c t.number (group_at t (sheets_of records.old coordinator.now))) (sheet.records records.old)) }
{
    for (i, e) in transactions::held(&t).iter().enumerate() {
        let own = located.of[i] == t.place;
        change_entry(c, t.number, own, *e, located.indices[i], records);
    }
}

// The puts of the group committed in one phase.
pub fn commit_group(t: Transaction, located: Located, records: &mut [u8], coordinator: &[u8])
    requires ready { Ready records.old coordinator.now t located }
    requires conditions { all (holds (sheets_of records.old coordinator.now)) (group_at t (sheets_of records.old coordinator.now)) ≡ true }
    ensures { records.new ≡ records_text (lines_after (commit t.number (group_at t (sheets_of records.old coordinator.now))) (sheet.records records.old)) }
{
    change_group(Effect::Commit, t, located, records, coordinator);
}

// The puts of the group prepared at a clock reading.
pub fn prepare_group(
    t: Transaction,
    located: Located,
    clock: u32,
    records: &mut [u8],
    coordinator: &[u8],
)
    requires ready { Ready records.old coordinator.now t located }
    requires conditions { all (holds (sheets_of records.old coordinator.now)) (group_at t (sheets_of records.old coordinator.now)) ≡ true }
    ensures { records.new ≡ records_text (lines_after (prepare t.number clock (group_at t (sheets_of records.old coordinator.now))) (sheet.records records.old)) }
{
    change_group(Effect::Prepare(clock), t, located, records, coordinator);
}

// The lines of the group that the transaction has prepared rolled forward.
pub fn forward_group(t: Transaction, located: Located, records: &mut [u8], coordinator: &[u8])
    requires { Ready records.old coordinator.now t located }
    ensures { records.new ≡ records_text (lines_after (forward t.number (keys_of (group_at t (sheets_of records.old coordinator.now)))) (sheet.records records.old)) }
{
    change_group(Effect::Forward, t, located, records, coordinator);
}

// The lines of the group that the transaction has prepared rolled back.
pub fn back_group(t: Transaction, located: Located, records: &mut [u8], coordinator: &[u8])
    requires { Ready records.old coordinator.now t located }
    ensures { records.new ≡ records_text (lines_after (back t.number (keys_of (group_at t (sheets_of records.old coordinator.now)))) (sheet.records records.old)) }
{
    change_group(Effect::Back, t, located, records, coordinator);
}
