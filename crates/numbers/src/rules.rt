// The rules of records, by value.
ghost use Rattle.std.specs.Prelude.{◌≡◌};
ghost use Rattle.model.specs.Records.{no_before, absent_rule, committed_rule, before_rule, prepared_rule, state_rule};

use types::{Before, NO_IMAGE, Record, State};

// Nothing is before: no state, an image of zeros and a clock of 0.
fn no_before(r: Record) -> bool
    ensures { result ≡ no_before r }
{
    (r.prior == Before::Nothing) & (r.before == NO_IMAGE) & (r.clock == 0)
}

fn absent_rule(r: Record) -> bool
    ensures { result ≡ absent_rule r }
{
    codec::records::is_absence(r.image) & no_before(r)
}

fn committed_rule(r: Record) -> bool
    ensures { result ≡ committed_rule r }
{
    (1 <= r.image.version) & no_before(r)
}

// The image before is one of its state.
fn before_rule(r: Record) -> bool
    ensures { result ≡ before_rule r }
{
    match r.prior {
        Before::Nothing => false,
        Before::Absent => codec::records::is_absence(r.before),
        Before::Committed => 1 <= r.before.version,
    }
}

// The version is compared from its own side, so that nothing can wrap.
fn prepared_rule(r: Record) -> bool
    ensures { result ≡ prepared_rule r }
{
    let follows = (r.image.version as u64) == (r.before.version as u64) + 1;
    (1 <= r.image.txid) & follows & before_rule(r)
}

// The record keeps the rule of its state.
pub fn state_rule(r: Record) -> bool
    ensures { result ≡ state_rule r }
{
    match r.state {
        State::Absent => absent_rule(r),
        State::Committed => committed_rule(r),
        State::Prepared => prepared_rule(r),
    }
}
