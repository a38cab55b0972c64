// Whether the next step of a transaction would change a byte, asked before the step is made: a close must stop before a write beyond its limit.
ghost use Rattle.std.specs.Prelude.{◌≡◌, true, false, not, ◌&&◌, ℕ};
ghost use Rattle.model.specs.Coordinator.{coordinator_of, decision};
ghost use Rattle.model.specs.Transactions.{is_empty};
ghost use Rattle.model.specs.Images.{by_decision};
ghost use Rattle.model.specs.Steps.{one_phase_allowed, group_at};
ghost use Rattle.model.specs.Steps as model;
ghost use Rattle.model.specs.Closing.{changes};
ghost use Rattle.model.specs.ByteCalls.{sheets_of};
ghost use Rattle.group_writes.specs.Ready as groups;
ghost use Rattle.steps.specs.Ready.{Ready};
ghost use Rattle.closing.specs.Writes.{puts_group, rolls_group};

use group_writes::{changes, groups};
use held_lines::Located;
use transactions::phases::Phase;
use types::{Decision, Transaction};

// The group at the transaction's place has an entry. The sheets are lent for the lines and units by which the entries were found.
fn has_entry(t: Transaction, located: Located, records: &[u8], coordinator: &[u8]) -> bool
    requires { groups.Ready records.now coordinator.now t located }
    ensures { result ≡ not (is_empty (group_at t (sheets_of records.now coordinator.now))) }
{
    located.of[..t.count as usize].contains(&t.place)
}

// The puts of the group would be written: all conditions hold, and there is one.
fn puts_group(t: Transaction, located: Located, records: &[u8], coordinator: &[u8]) -> bool
    requires { groups.Ready records.now coordinator.now t located }
    ensures { result ≡ puts_group t (sheets_of records.now coordinator.now) }
{
    groups::group_holds(records, coordinator, t, located)
        & has_entry(t, located, records, coordinator)
}

// Some line of the group would be rolled: one that the transaction has prepared. Lines rolled already, by a visit or before, are skipped.
// Over indices, as in `groups::group_holds`.
fn rolls_group(t: Transaction, located: Located, records: &[u8], coordinator: &[u8]) -> bool
    requires { groups.Ready records.now coordinator.now t located }
    ensures { result ≡ rolls_group t (sheets_of records.now coordinator.now) }
{
    (0..t.count as usize).any(|i| {
        located.of[i] == t.place && held_lines::prepared_by(t.number, records, located.indices[i])
    })
}

// An open transaction writes only in one phase.
fn open_writes(t: Transaction, located: Located, records: &[u8], coordinator: &[u8]) -> bool
    requires { groups.Ready records.now coordinator.now t located }
    ensures { result ≡ (one_phase_allowed t (sheets_of records.now coordinator.now) && puts_group t (sheets_of records.now coordinator.now)) }
{
    steps::phases::one_phase_allowed(located.groups, &coordinator[5..14], t)
        & puts_group(t, located, records, coordinator)
}

// The own line is `-`, so that a decision would be written.
fn undecided(t: Transaction, coordinator: &[u8]) -> bool
    ensures { result ≡ by_decision (decision t.number (coordinator_of coordinator.now)) true false false }
{
    codec::coordinator::decision_at(coordinator, t.number) == Decision::Undecided
}

// The step of the transaction's phase would change a byte, whatever the clock.
pub fn writes(t: Transaction, located: Located, records: &[u8], coordinator: &[u8]) -> bool
    requires { Ready records.now coordinator.now t located }
    ensures { (clock : ℕ) → result ≡ changes (model.step t clock (sheets_of records.now coordinator.now)).write (sheets_of records.now coordinator.now) }
{
    let Ok(phase) = Phase::try_from(t.phase) else {
        return false;
    };
    match phase {
        Phase::Open => open_writes(t, located, records, coordinator),
        Phase::Prepare => puts_group(t, located, records, coordinator),
        Phase::Decide | Phase::Withdraw => undecided(t, coordinator),
        Phase::Finish | Phase::Undo => rolls_group(t, located, records, coordinator),
        Phase::Validate | Phase::Done => false,
    }
}
