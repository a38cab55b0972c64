// The visit of a key.
#![tactic(auto)]

ghost use Rattle.std.specs.Prelude.{◌≡◌};
ghost use Rattle.model.specs.Results.{visit};
ghost use Rattle.model.specs.Calls.{result_of};
ghost use Rattle.model.specs.ByteCalls.{sheets_of};
ghost use Rattle.call_laws.specs.Accepted.{Accepted, Outcome};
ghost use Rattle.recover.specs.Recovering.{line_at, Standing};
ghost use Rattle.answers.specs.Answers.{in_numbers, to_visited};
ghost use Rattle.visits.specs.Visiting.{visited_by};

use types::{Key, Recovery, Refusal};

// A visit is refused where the line's owner may still be at work.
fn answer(v: Recovery) -> Result<Recovery, Refusal>
    ensures { in_numbers result ≡ visited_by v }
{
    match v {
        Recovery::Busy => Err(Refusal::Busy),
        met => Ok(met),
    }
}

// The visit of the key of line i.
pub fn visit_line(
    i: usize,
    clock: u32,
    records: &mut [u8],
    coordinator: &mut [u8],
) -> Result<Recovery, Refusal>
    requires { Standing records.old coordinator.old i }
    ensures { Outcome to_visited (result_of (visit (line_at records.old i).key clock) (sheets_of records.old coordinator.old)) records.old coordinator.old (in_numbers result) records.new coordinator.new }
{
    answer(recover::recover(i, clock, records, coordinator))
}

pub fn visit(
    key: Key,
    clock: u32,
    records: &mut [u8],
    coordinator: &mut [u8],
) -> Result<Recovery, Refusal>
    requires { Accepted records.old coordinator.old }
    ensures { Outcome to_visited (result_of (visit key clock) (sheets_of records.old coordinator.old)) records.old coordinator.old (in_numbers result) records.new coordinator.new }
{
    if !codec::keys::key_in_range(key) {
        return Err(Refusal::BadKey);
    }
    match sheets::lookup::find(records, key) {
        None => Err(Refusal::NoSuchKey),
        Some(i) => visit_line(i, clock, records, coordinator),
    }
}
