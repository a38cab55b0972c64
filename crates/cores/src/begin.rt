// One more number.
ghost use Rattle.std.specs.Prelude.{◌≡◌, true};
ghost use Rattle.model.specs.Coordinator.{coordinator_readable};
ghost use Rattle.answers.specs.Answers.{in_numbers};
ghost use Rattle.cores.specs.Begins.{Issues};

use types::Refusal;

// The number of a new transaction, whatever accepted record sheet lies beside: begin looks at none of its lines.
pub fn issue(coordinator: &mut [u8]) -> Result<u32, Refusal>
    requires { coordinator_readable coordinator.old ≡ true }
    ensures { Issues coordinator.old (in_numbers result) coordinator.new }
{
    let issued = codec::coordinator::issued(coordinator);
    if admission::all_spent(coordinator, issued) {
        return Err(Refusal::NumbersSpent);
    }
    let n = issued + 1;
    codec::coordinator::set_issued(coordinator, n);
    Ok(n)
}
