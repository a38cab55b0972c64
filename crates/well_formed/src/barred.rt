// Refusal 4 of an advance and of a close: what the decision on a transaction's own line forbids in its phase.
ghost use Rattle.std.specs.Prelude.{◌≡◌};
ghost use Rattle.model.specs.Closing.{close_barred};
ghost use Rattle.well_formed.specs.Barred.{forbids};

use transactions::phases::Phase;
use types::Decision;

// Of an advance: the phase has no step, or the transaction's own line forbids it.
#[tactic(auto, unfolding(crate::specs::Barred::forbids))]
pub fn forbids(phase: u32, own: Decision) -> bool
    ensures { result ≡ forbids phase own }
{
    let Ok(phase) = Phase::try_from(phase) else {
        return true;
    };
    match phase {
        Phase::Open | Phase::Prepare | Phase::Validate => false,
        Phase::Decide | Phase::Withdraw => own == Decision::Committed,
        Phase::Finish => own != Decision::Committed,
        Phase::Undo => own != Decision::Aborted,
        Phase::Done => true,
    }
}

// Of a close: as of an advance, and where the own line is COMMITTED before a decision. A single step from there would still go through, but not all of them.
#[tactic(auto, unfolding(crate::specs::Barred::forbids, model::specs::Closing::close_barred))]
pub fn bars(phase: u32, own: Decision) -> bool
    ensures { result ≡ close_barred phase own }
{
    let Ok(named) = Phase::try_from(phase) else {
        return true;
    };
    match named {
        Phase::Open | Phase::Prepare | Phase::Validate => own == Decision::Committed,
        _ => forbids(phase, own),
    }
}
