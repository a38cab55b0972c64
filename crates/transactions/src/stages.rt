// The transaction that a step returns, where no sheet has to be looked at.
ghost use Rattle.std.specs.Prelude.{◌≡◌, ◌≤◌, ◌<◌, length};
ghost use Rattle.model.specs.Transactions.{to_validate};
ghost use Rattle.model.specs.Steps as model;
ghost use Rattle.model.specs.Steps.{to, after_prepare, next_entry};
ghost use Rattle.transactions.specs.Units.{units_in};
ghost use Rattle.transactions.specs.Numbers.{phase_number};

use crate::phases::{Phase, Verdict};
use types::Transaction;

// To another phase, with the verdict as it is.
pub fn to_phase(phase: u32, t: Transaction) -> Transaction
    ensures { result ≡ (to phase t).transaction }
{
    crate::moved(phase, 0, t.verdict, t)
}

// To done, committed.
pub fn commits(t: Transaction) -> Transaction
    ensures { result ≡ model.commits t }
{
    crate::moved(Phase::Done as u32, 0, Verdict::Committed as u32, t)
}

// The phase after the last group is prepared: validate if there is an entry to validate, else decide.
pub fn after_prepare(letters: &[u8], t: Transaction) -> Phase
    requires { t.count ≤ 8 }
    ensures { phase_number result ≡ after_prepare (units_in letters.now) t }
{
    if crate::validates(letters, t) {
        return Phase::Validate;
    }
    Phase::Decide
}

// Past a validated entry: to the next, after the last to decide, or to done, committed, without puts.
pub fn next_entry(letters: &[u8], t: Transaction) -> Transaction
    requires { (t.count ≤ 8) × (t.place < length (to_validate (units_in letters.now) t)) }
    ensures { result ≡ next_entry (units_in letters.now) t }
{
    let count = crate::validate_count(letters, t);
    let next = t.place + 1;
    if next < count {
        return crate::moved(Phase::Validate as u32, next, t.verdict, t);
    }
    if !crate::has_puts(t) {
        return commits(t);
    }
    to_phase(Phase::Decide as u32, t)
}

// To undo, or to done without puts; aborted either way.
pub fn withdrawn(t: Transaction) -> Transaction
    requires { t.count ≤ 8 }
    ensures { result ≡ model.withdrawn t }
{
    let next = if crate::has_puts(t) {
        Phase::Undo
    } else {
        Phase::Done
    };
    crate::moved(next as u32, 0, Verdict::Aborted as u32, t)
}
