// The issued count and the decisions: what a call with a transaction reads and writes of a coordinator sheet.
ghost use Rattle.std.specs.Prelude.{◌≡◌, cond, true, ◌*◌, ◌/◌, length, drop, leb};
ghost use Rattle.lists.specs.Pieces.{over};
ghost use Rattle.lists.specs.Bytes.{eq_list};
ghost use Rattle.decimal.specs.Field.{field_text};
ghost use Rattle.types.specs.declared.Kind.TheVariants.{DecisionWord};
ghost use Rattle.model.specs.Layouts.{coordinator_bytes, word_at};
ghost use Rattle.model.specs.Coordinator.{decision_number, decision, coordinator_of};
ghost use Rattle.sheet_laws.specs.Coordinator.{decision_text};
ghost use Rattle.sheet_laws.specs.Singles.{decision_word};
ghost use Rattle.sheet_laws.specs.Decisions.{number_has_line};

use crate::{fields, lines};
use types::{COORDINATOR_BYTES, DECISION_AT, Decision, Kind, Layout, NUMBER_BYTES};

// How many lines stand after the head.
pub fn count(coordinator: &[u8]) -> usize
    ensures { result ≡ length (drop coordinator_bytes coordinator.now) / coordinator_bytes }
{
    coordinator.len().saturating_sub(COORDINATOR_BYTES) / COORDINATOR_BYTES
}

// A number that has a line.
fn has_line(coordinator: &[u8], n: u32) -> bool
    ensures { result ≡ number_has_line n coordinator.now }
{
    (1 <= n) & (n as usize <= count(coordinator))
}

// The count of numbers issued.
pub fn issued(coordinator: &[u8]) -> u32
    ensures { result ≡ (coordinator_of coordinator.now).issued }
{
    let end = NUMBER_BYTES.min(coordinator.len());
    decimal::read(&coordinator[..end], 0, 999).unwrap_or(0)
}

// Whether the line of number n, which has one, holds the word of a decision.
fn holds_decision(coordinator: &[u8], n: u32, d: Decision) -> bool
    requires { number_has_line n coordinator.now ≡ true }
    ensures { result ≡ eq_list (decision_word n coordinator.now) (word_at DecisionWord (decision_number d)) }
{
    let at = (n as usize) * COORDINATOR_BYTES + DECISION_AT;
    fields::is_word_at(coordinator, at, Kind::DecisionWord, d as u32)
}

// The decision of number n; one without a line is undecided.
pub fn decision_at(coordinator: &[u8], n: u32) -> Decision
    ensures { result ≡ decision n (coordinator_of coordinator.now) }
{
    if !has_line(coordinator, n) {
        return Decision::Undecided;
    }
    if holds_decision(coordinator, n, Decision::Committed) {
        return Decision::Committed;
    }
    if holds_decision(coordinator, n, Decision::Aborted) {
        return Decision::Aborted;
    }
    Decision::Undecided
}

// The line of number n with another decision; where n has no line nothing changes.
pub fn set_decision(coordinator: &mut [u8], n: u32, d: Decision)
    ensures { coordinator.new ≡ cond (number_has_line n coordinator.old) (over coordinator.old (n * coordinator_bytes) (decision_text n d)) coordinator.old }
{
    if has_line(coordinator, n) {
        let at = (n as usize) * COORDINATOR_BYTES;
        let row = [n, d as u32];
        lines::write_row(
            Layout::CoordinatorLine,
            &row,
            &mut coordinator[at..at + COORDINATOR_BYTES],
        );
    }
}

// Another count of numbers issued; where there is no head nothing changes.
pub fn set_issued(coordinator: &mut [u8], n: u32)
    ensures { coordinator.new ≡ cond (leb 4 (length coordinator.old)) (over coordinator.old 0 (field_text 4 n)) coordinator.old }
{
    if NUMBER_BYTES <= coordinator.len() {
        decimal::write(&mut coordinator[..NUMBER_BYTES], n);
    }
}
