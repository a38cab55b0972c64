// What a call wrote, told from both sheets before and after it. Bytes alone are judged: the sheets need not be accepted.
#![tactic(auto)]

ghost use Rattle.std.specs.Prelude.{◌≡◌, cond, ◌+◌, ◌/◌, ◌<◌, ◌≤◌, ◌^◌, OnOk, eqb, length};
ghost use Rattle.model.specs.Layouts.{record_bytes};
ghost use Rattle.model.specs.Refusals.{refusal_number, refusal_of, refused_with};
ghost use Rattle.model.specs.Changes.{differs, reach_of, first_of, length_conditions, written_number, written_lines};

use types::{RECORD_BYTES, Refusal};

// Line i has other bytes afterwards.
fn line_differs(before: &[u8], after: &[u8], i: usize) -> bool
    requires line_there { i < length before.now / record_bytes }
    requires same_length { length before.now ≡ length after.now }
    ensures { result ≡ differs before.now after.now i }
{
    let at = i * RECORD_BYTES;
    let end = at + RECORD_BYTES;
    before[at..end] != after[at..end]
}

// How many lines reach to the last that differs, that one included.
fn last_reach(before: &[u8], after: &[u8]) -> usize
    requires { length before.now ≡ length after.now }
    ensures value { result ≡ reach_of before.now after.now (length before.now / record_bytes) }
    ensures upper_bound { result ≤ length before.now / record_bytes }
{
    for last in (0..before.len() / RECORD_BYTES).rev() {
        if line_differs(before, after, last) {
            return last + 1;
        }
    }
    0
}

// The index of the first of so many lines that differs.
fn first_differing(before: &[u8], after: &[u8], lines: usize) -> usize
    requires lines_there { lines ≤ length before.now / record_bytes }
    requires same_length { length before.now ≡ length after.now }
    ensures value { result ≡ first_of before.now after.now 0 lines }
    ensures upper_bound { result ≤ lines }
{
    for i in 0..lines {
        if line_differs(before, after, i) {
            return i;
        }
    }
    lines
}

// A refusal by its number in the table.
fn number(refusal: Refusal) -> u32
    ensures value { result ≡ refusal_number refusal }
    ensures lower_bound { 1 ≤ result }
    ensures upper_bound { result ≤ 16 }
{
    refusal as u32
}

// What is lent fits: each sheet has one length before and after, a number counts the lines, and the target has two numbers.
fn fits(
    records_before: usize,
    records: usize,
    coordinator_before: usize,
    coordinator: usize,
    lines: usize,
) -> Result<(), Refusal>
    ensures answer { refused_with result ≡ refusal_of (length_conditions records_before records coordinator_before coordinator lines) }
    ensures records { OnOk result (records_before ≡ records) }
    ensures counted { OnOk result (records_before / record_bytes < 2 ^ 32) }
    ensures target { OnOk result (lines ≡ 2) }
    ensures decisions { OnOk result (coordinator_before ≡ coordinator) }
{
    if records_before != records {
        return Err(Refusal::BadRecords);
    }
    if records_before % RECORD_BYTES != 0 {
        return Err(Refusal::BadRecords);
    }
    if 4294967296 <= records_before / RECORD_BYTES {
        return Err(Refusal::BadRecords);
    }
    if lines != 2 {
        return Err(Refusal::BadRecords);
    }
    if coordinator_before != coordinator {
        return Err(Refusal::BadCoordinator);
    }
    Ok(())
}

// Which sheets a call wrote.
#[derive(Clone, Copy)]
enum Sheets {
    Neither = 0,
    Coordinator = 1,
    Records = 2,
    Both = 3,
}

// Which they are, as a number.
fn told(stays: bool, reach: usize) -> u32
    ensures { result ≡ cond stays 0 1 + cond (eqb reach 0) 0 2 }
{
    let wrote = match (stays, reach) {
        (true, 0) => Sheets::Neither,
        (false, 0) => Sheets::Coordinator,
        (true, _) => Sheets::Records,
        (false, _) => Sheets::Both,
    };
    wrote as u32
}

// 0 nothing, 1 the coordinator sheet, 2 record lines, 3 both, or 1000 + the refusal. The target gets the index of the first line that differs and how many
// lines reach from it to the last.
pub fn written(
    records_before: &[u8],
    records: &[u8],
    coordinator_before: &[u8],
    coordinator: &[u8],
    lines: &mut [u32],
) -> u32
    ensures answer { result ≡ written_number records_before.now records.now coordinator_before.now coordinator.now lines.old }
    ensures target { lines.new ≡ written_lines records_before.now records.now coordinator_before.now coordinator.now lines.old }
{
    let lent = fits(
        records_before.len(),
        records.len(),
        coordinator_before.len(),
        coordinator.len(),
        lines.len(),
    );
    if let Err(refusal) = lent {
        return 1000 + number(refusal);
    }
    let reach = last_reach(records_before, records);
    let first = first_differing(records_before, records, reach);
    lines[0] = first as u32;
    lines[1] = (reach - first) as u32;
    told(coordinator_before == coordinator, reach)
}
