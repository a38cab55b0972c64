// One step of a transaction, by its phase.
ghost use Rattle.model.specs.Results.{advance};
ghost use Rattle.model.specs.Calls.{result_of};
ghost use Rattle.model.specs.ByteCalls.{sheets_of};
ghost use Rattle.call_laws.specs.Accepted.{Accepted, Outcome};
ghost use Rattle.answers.specs.Answers.{in_numbers, to_returned};

use types::{Refusal, Transaction};
use well_formed::barred;

pub fn advance(
    t: Transaction,
    clock: u32,
    records: &mut [u8],
    coordinator: &mut [u8],
) -> Result<Transaction, Refusal>
    requires { Accepted records.old coordinator.old }
    ensures { Outcome (to_returned t) (result_of (advance t clock) (sheets_of records.old coordinator.old)) records.old coordinator.old (in_numbers result) records.new coordinator.new }
{
    let located = admission::admit(t, records, coordinator)?;
    let own = codec::coordinator::decision_at(coordinator, t.number);
    if barred::forbids(t.phase, own) {
        return Err(Refusal::WrongPhase);
    }
    Ok(steps::step(t, located, clock, records, coordinator))
}
