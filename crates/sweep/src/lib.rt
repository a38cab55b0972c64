// The work of the visiting program, from its whole input to its whole output.
#![tactic(auto)]

ghost use Rattle.std.specs.Prelude.{◌≡◌, ◌≤◌, length};
ghost use Rattle.model.specs.Visitor.{refused_text};
ghost use Rattle.model.specs.Visitor as model;
ghost use Rattle.sweep.specs.Output.{onto, visited_sheets, answered, output_after, work_after, Loaded, Target};

use types::{COORDINATOR_BYTES, MOST_COORDINATOR_BYTES, MOST_RECORD_BYTES};

mod first_line;
mod passes;

// Bytes of the first line, LF counted.
pub const FIRST_BYTES: usize = 20;

// The longest input that can be anything but refusal 1: a head and 9999 coordinator lines, 500 record lines.
pub const LONGEST: usize = FIRST_BYTES + COORDINATOR_BYTES * 10000 + MOST_RECORD_BYTES;

// The longest output, both sheets.
pub const MOST_OUTPUT: usize = MOST_RECORD_BYTES + MOST_COORDINATOR_BYTES;

// What the first line of an input says: record lines, coordinator lines without head, clock.
#[derive(Clone, Copy)]
struct FirstLine {
    lines: u32,
    decisions: u32,
    clock: u32,
}

// The line of a refusal, its number left blank.
const REFUSED: [u8; 11] = *b"REFUSED   \n";

// `REFUSED` and the number, over the first 11 bytes.
fn print_refusal(n: u32, output: &mut [u8]) -> usize
    requires { 11 ≤ length output.old }
    ensures { (result ≡ length (refused_text n)) × (output.new ≡ onto (refused_text n) output.old) }
{
    let mut text = REFUSED;
    decimal::write(&mut text[7..10], n);
    decimal::put(&mut output[..11], &text);
    11
}

// The sheets of an accepted input, visited in two slices of their lengths.
fn visit_sheets(input: &[u8], records: &mut [u8], coordinator: &mut [u8])
    requires { Loaded input.now records.old coordinator.old }
    ensures lines { records.new ≡ (visited_sheets input.now).records }
    ensures decisions { coordinator.new ≡ (visited_sheets input.now).coordinator }
{
    let first = first_line::numbers(input);
    let from = first_line::records_from(first);
    decimal::put(coordinator, &input[FIRST_BYTES..from]);
    decimal::put(records, &input[from..]);
    passes::sweep(first.clock, records, coordinator);
}

// Both sheets of an accepted input as the visits leave them, one after the other.
fn print_sheets(input: &[u8], work: &mut [u8], output: &mut [u8]) -> usize
    requires { Target input.now work.old output.old }
    ensures answer { result ≡ length (model.printed (visited_sheets input.now)) }
    ensures output { output.new ≡ onto (model.printed (visited_sheets input.now)) output.old }
    ensures work { work.new ≡ onto (visited_sheets input.now).records work.old }
{
    let from = first_line::records_from(first_line::numbers(input));
    let c = from - FIRST_BYTES;
    let r = input.len() - from;
    visit_sheets(input, &mut work[..r], &mut output[..c]);
    let n = c + r;
    decimal::put(&mut output[c..n], &work[..r]);
    n
}

// The output for an input, in the first bytes of `output`, and its length. The record sheet is visited in `work`.
// Where there is no room for the largest sheets, nothing changes and the answer is 0.
pub fn run(input: &[u8], work: &mut [u8], output: &mut [u8]) -> usize
    ensures answer { result ≡ answered input.now work.old output.old }
    ensures output { output.new ≡ output_after input.now work.old output.old }
    ensures work { work.new ≡ work_after input.now work.old output.old }
{
    if work.len() < MOST_RECORD_BYTES {
        return 0;
    }
    if output.len() < MOST_OUTPUT {
        return 0;
    }
    match first_line::check(input) {
        Ok(()) => print_sheets(input, work, output),
        Err(refusal) => print_refusal(refusal as u32, output),
    }
}
