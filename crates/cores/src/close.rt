// All steps of a transaction in one call, up to done or to a step that would write beyond a limit.
ghost use Rattle.std.specs.Prelude.{◌≡◌};
ghost use Rattle.model.specs.ByteCalls.{sheets_of};
ghost use Rattle.model.specs.Operations.{response, records_left, coordinator_left};
ghost use Rattle.model.specs.Operations as model;
ghost use Rattle.call_laws.specs.Accepted.{Accepted};
ghost use Rattle.answers.specs.Answers.{in_numbers, to_closed};

use answers::Closed;
use types::{Refusal, Transaction};
use well_formed::barred;

// What is asked at the start holds for every step, so that no step inside is refused.
pub fn close(
    t: Transaction,
    clock: u32,
    limit: u32,
    records: &mut [u8],
    coordinator: &mut [u8],
) -> Result<Closed, Refusal>
    requires { Accepted records.old coordinator.old }
    ensures answer { in_numbers result ≡ to_closed t (response (model.close t clock limit) (sheets_of records.old coordinator.old)) }
    ensures lines { records.new ≡ records_left records.old (response (model.close t clock limit) (sheets_of records.old coordinator.old)) }
    ensures decisions { coordinator.new ≡ coordinator_left coordinator.old (response (model.close t clock limit) (sheets_of records.old coordinator.old)) }
{
    let located = admission::admit(t, records, coordinator)?;
    let own = codec::coordinator::decision_at(coordinator, t.number);
    if barred::bars(t.phase, own) {
        return Err(Refusal::WrongPhase);
    }
    let ran = closing::run(t, located, clock, limit, records, coordinator);
    let transaction = ran.transaction;
    Ok(Closed {
        writes: ran.writes,
        transaction,
    })
}
