// What an advance does in each phase. A phase is lent only the sheets that it looks at.
ghost use Rattle.std.specs.Prelude.{◌≡◌, ◌<◌, ◌≤◌};
ghost use Rattle.model.specs.Transactions.{puts};
ghost use Rattle.model.specs.Steps.{units_of, groups_of, one_phase_allowed, open_step, one_phase, next_group, prepare_step, validate_step, decide_step, withdraw_step, finish_step, undo_step};
ghost use Rattle.model.specs.Writes.{Sheets};
ghost use Rattle.model.specs.ByteCalls.{sheets_of};
ghost use Rattle.sheet_laws.specs.Letters.{units_in};
ghost use Rattle.transactions.specs.Numbers.{phase_number};
ghost use Rattle.steps.specs.Ready.{Ready, Known};
ghost use Rattle.steps.specs.Stepped.{Stepped, ByCoordinator};

use group_writes::{changes, groups};
use held_lines::Located;
use transactions::phases::{Phase, Verdict};
use transactions::stages;
use types::{Decision, Transaction};

// One group, not serializable, and no key of a storage that can't be read consistently: there the columns read must still be compared when the rest is prepared.
pub fn one_phase_allowed(groups: u32, letters: &[u8], t: Transaction) -> bool
    requires { t.count ≤ 8 }
    ensures { (s : Sheets) → groups ≡ groups_of t s → units_in letters.now ≡ units_of s → result ≡ one_phase_allowed t s }
{
    (groups == 1) & (t.serializable != 1) & !transactions::holds_lower(letters, t)
}

// The only group committed if its conditions hold.
fn one_phase(
    t: Transaction,
    located: Located,
    records: &mut [u8],
    coordinator: &[u8],
) -> Transaction
    requires { Ready records.old coordinator.now t located }
    ensures { Stepped (sheets_of records.old coordinator.now) (one_phase t (sheets_of records.old coordinator.now)) result records.new coordinator.now }
{
    if groups::group_holds(records, coordinator, t, located) {
        changes::commit_group(t, located, records, coordinator);
        return stages::commits(t);
    }
    stages::to_phase(Phase::Withdraw as u32, t)
}

// Without puts to validate, or at once to done; one group in one phase, the only way that writes; more by prepare.
pub fn open(t: Transaction, located: Located, records: &mut [u8], coordinator: &[u8]) -> Transaction
    requires { Ready records.old coordinator.now t located }
    ensures { Stepped (sheets_of records.old coordinator.now) (open_step t (sheets_of records.old coordinator.now)) result records.new coordinator.now }
{
    if !transactions::has_puts(t) {
        if !transactions::validates(&coordinator[5..14], t) {
            return stages::commits(t);
        }
        return stages::to_phase(Phase::Validate as u32, t);
    }
    if !one_phase_allowed(located.groups, &coordinator[5..14], t) {
        return stages::to_phase(Phase::Prepare as u32, t);
    }
    one_phase(t, located, records, coordinator)
}

// To the next group, or after the last to another phase.
fn next_group(after: Phase, groups: u32, t: Transaction) -> Transaction
    requires { t.place < groups }
    ensures { (s : Sheets) → groups ≡ groups_of t s → result ≡ next_group (phase_number after) t s }
{
    let next = t.place + 1;
    if next < groups {
        return transactions::moved(t.phase, next, t.verdict, t);
    }
    stages::to_phase(after as u32, t)
}

// The group prepared if its conditions hold; if one fails, nothing is written.
pub fn prepare(
    t: Transaction,
    located: Located,
    clock: u32,
    records: &mut [u8],
    coordinator: &[u8],
) -> Transaction
    requires ready { Ready records.old coordinator.now t located }
    requires phase { t.phase ≡ 1 }
    ensures { Stepped (sheets_of records.old coordinator.now) (prepare_step t clock (sheets_of records.old coordinator.now)) result records.new coordinator.now }
{
    if !groups::group_holds(records, coordinator, t, located) {
        return stages::to_phase(Phase::Withdraw as u32, t);
    }
    changes::prepare_group(t, located, clock, records, coordinator);
    next_group(
        stages::after_prepare(&coordinator[5..14], t),
        located.groups,
        t,
    )
}

// One entry without a put.
pub fn validate(t: Transaction, located: Located, records: &[u8], coordinator: &[u8]) -> Transaction
    requires ready { Ready records.now coordinator.now t located }
    requires phase { t.phase ≡ 2 }
    ensures { Stepped (sheets_of records.now coordinator.now) (validate_step t (sheets_of records.now coordinator.now)) result records.now coordinator.now }
{
    let letters = &coordinator[5..14];
    let e = transactions::to_validate(letters, t, t.place);
    let indices = located.indices;
    let index = held_lines::index_of(e.key, t, indices);
    if !held_lines::holds(records, letters, e, index) {
        return stages::to_phase(Phase::Withdraw as u32, t);
    }
    stages::next_entry(letters, t)
}

// The commit point: the transaction's own line, if no visit has aborted it. One that is committed already has been refused.
pub fn decide(t: Transaction, coordinator: &mut [u8]) -> Transaction
    requires { Known coordinator.old t }
    ensures { ByCoordinator (decide_step t) coordinator.old result coordinator.new }
{
    match codec::coordinator::decision_at(coordinator, t.number) {
        Decision::Undecided => {
            codec::coordinator::set_decision(coordinator, t.number, Decision::Committed);
            transactions::moved(Phase::Finish as u32, 0, Verdict::Committed as u32, t)
        }
        Decision::Committed => t,
        Decision::Aborted => transactions::moved(Phase::Undo as u32, 0, Verdict::Aborted as u32, t),
    }
}

// The transaction aborted on its own line, if that is undecided. One that is committed has been refused.
pub fn withdraw(t: Transaction, coordinator: &mut [u8]) -> Transaction
    requires { Known coordinator.old t }
    ensures { ByCoordinator (withdraw_step t) coordinator.old result coordinator.new }
{
    match codec::coordinator::decision_at(coordinator, t.number) {
        Decision::Undecided => {
            codec::coordinator::set_decision(coordinator, t.number, Decision::Aborted);
            stages::withdrawn(t)
        }
        Decision::Committed => t,
        Decision::Aborted => stages::withdrawn(t),
    }
}

// What the transaction has prepared in the group rolled forward.
pub fn finish(
    t: Transaction,
    located: Located,
    records: &mut [u8],
    coordinator: &[u8],
) -> Transaction
    requires ready { Ready records.old coordinator.now t located }
    requires phase { t.phase ≡ 5 }
    ensures { Stepped (sheets_of records.old coordinator.now) (finish_step t (sheets_of records.old coordinator.now)) result records.new coordinator.now }
{
    changes::forward_group(t, located, records, coordinator);
    next_group(Phase::Done, located.groups, t)
}

// What the transaction has prepared in the group rolled back.
pub fn undo(t: Transaction, located: Located, records: &mut [u8], coordinator: &[u8]) -> Transaction
    requires ready { Ready records.old coordinator.now t located }
    requires phase { t.phase ≡ 6 }
    ensures { Stepped (sheets_of records.old coordinator.now) (undo_step t (sheets_of records.old coordinator.now)) result records.new coordinator.now }
{
    changes::back_group(t, located, records, coordinator);
    next_group(Phase::Done, located.groups, t)
}

// Nothing is left to do. An advance is refused before it comes here.
pub fn done(t: Transaction) -> Transaction
    ensures { result ≡ t }
{
    t
}
