// Giving a transaction up before it is decided.
ghost use Rattle.std.specs.Prelude.{◌≡◌};
ghost use Rattle.model.specs.Results.{abort};
ghost use Rattle.model.specs.Conditions.{cannot_abort};
ghost use Rattle.model.specs.Calls.{result_of};
ghost use Rattle.model.specs.ByteCalls.{sheets_of};
ghost use Rattle.call_laws.specs.Accepted.{Accepted};
ghost use Rattle.answers.specs.Answers.{in_numbers, to_returned};

use transactions::phases::Phase;
use types::{Refusal, Transaction};

// Refusal 4: a transaction that is withdrawn or decided can't be given up.
#[tactic(auto, unfolding(model::specs::Conditions::cannot_abort))]
fn cannot_abort(t: Transaction) -> bool
    ensures { result ≡ cannot_abort t }
{
    let Ok(phase) = Phase::try_from(t.phase) else {
        return true;
    };
    match phase {
        Phase::Open | Phase::Prepare | Phase::Validate | Phase::Decide => false,
        Phase::Withdraw | Phase::Finish | Phase::Undo | Phase::Done => true,
    }
}

pub fn abort(t: Transaction, records: &[u8], coordinator: &[u8]) -> Result<Transaction, Refusal>
    requires { Accepted records.now coordinator.now }
    ensures { in_numbers result ≡ to_returned t (result_of (abort t) (sheets_of records.now coordinator.now)) }
{
    admission::judge(t, coordinator)?;
    if cannot_abort(t) {
        return Err(Refusal::WrongPhase);
    }
    Ok(transactions::moved(Phase::Withdraw as u32, 0, t.verdict, t))
}
