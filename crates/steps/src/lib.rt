// An advance on two lent sheets that the refusals have let pass: a decision over eight phases, with a function for each that does something.
#![tactic(auto)]

ghost use Rattle.model.specs.Steps as model;
ghost use Rattle.model.specs.ByteCalls.{sheets_of};
ghost use Rattle.steps.specs.Ready.{Ready};
ghost use Rattle.steps.specs.Stepped.{Stepped};

pub mod phases;

use held_lines::Located;
use transactions::phases::Phase;
use types::Transaction;

// The step of the transaction's phase: the transaction that comes back, and both sheets after it. What was found once of its entries goes with it.
pub fn step(
    t: Transaction,
    located: Located,
    clock: u32,
    records: &mut [u8],
    coordinator: &mut [u8],
) -> Transaction
    requires { Ready records.old coordinator.old t located }
    ensures { Stepped (sheets_of records.old coordinator.old) (model.step t clock (sheets_of records.old coordinator.old)) result records.new coordinator.new }
{
    let Ok(phase) = Phase::try_from(t.phase) else {
        return t;
    };
    match phase {
        Phase::Open => phases::open(t, located, records, coordinator),
        Phase::Prepare => phases::prepare(t, located, clock, records, coordinator),
        Phase::Validate => phases::validate(t, located, records, coordinator),
        Phase::Decide => phases::decide(t, coordinator),
        Phase::Withdraw => phases::withdraw(t, coordinator),
        Phase::Finish => phases::finish(t, located, records, coordinator),
        Phase::Undo => phases::undo(t, located, records, coordinator),
        Phase::Done => phases::done(t),
    }
}
