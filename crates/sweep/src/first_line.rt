// The first line of the input: numbers of lines and the clock, and what refuses an input.
ghost use Rattle.std.specs.Prelude.{◌≡◌, ◌≤◌, length, take};
ghost use Rattle.model.specs.Lines.{line_set};
ghost use Rattle.model.specs.Refusals.{refusal_of, refused_with};
ghost use Rattle.model.specs.Visitor.{first_layout, input_fits, input_conditions, first_bytes};
ghost use Rattle.sweep.specs.FirstLine.{first_of, records_from, Small};

use crate::{FIRST_BYTES, FirstLine};
use types::{COORDINATOR_BYTES, RECORD_BYTES, Refusal};

// Three figures and LF.
fn well_set(input: &[u8]) -> bool
    requires { first_bytes ≤ length input.now }
    ensures { result ≡ line_set first_layout (take first_bytes input.now) }
{
    if decimal::read(&input[0..4], 0, 9999).is_none() {
        return false;
    }
    if decimal::read(&input[4..8], 0, 9999).is_none() {
        return false;
    }
    if decimal::read(&input[8..19], 0, 4294967295).is_none() {
        return false;
    }
    input[19] == 10
}

// The numbers of the first line, 0 for one that cannot be read.
pub fn numbers(input: &[u8]) -> FirstLine
    requires { first_bytes ≤ length input.now }
    ensures { result ≡ first_of input.now }
{
    let lines = decimal::read(&input[0..4], 0, 9999).unwrap_or(0);
    let decisions = decimal::read(&input[4..8], 0, 9999).unwrap_or(0);
    let clock = decimal::read(&input[8..19], 0, 4294967295).unwrap_or(0);
    FirstLine {
        lines,
        decisions,
        clock,
    }
}

// Where the record sheet begins: after the first line and the coordinator sheet with its head.
pub fn records_from(first: FirstLine) -> usize
    requires { Small first }
    ensures { result ≡ records_from first }
{
    FIRST_BYTES + (first.decisions as usize + 1) * COORDINATOR_BYTES
}

// The first line is well set, and its numbers of lines fit the input.
fn fits(input: &[u8]) -> bool
    ensures { result ≡ input_fits input.now }
{
    if input.len() < FIRST_BYTES {
        return false;
    }
    if !well_set(input) {
        return false;
    }
    let first = numbers(input);
    input.len() == records_from(first) + first.lines as usize * RECORD_BYTES
}

// Whether an input is accepted; else its refusal, 1 or 2.
pub fn check(input: &[u8]) -> Result<(), Refusal>
    ensures { refused_with result ≡ refusal_of (input_conditions input.now) }
{
    if !fits(input) {
        return Err(Refusal::BadRecords);
    }
    let from = records_from(numbers(input));
    sheets::check::check(&input[from..], &input[FIRST_BYTES..from])
}
