// Coordinator sheets to lent lists of numbers and back: ten numbers for the head, one for each decision.
ghost use Rattle.std.specs.Prelude.{◌≡◌, map, ◌+◌, ◌-◌, ◌*◌, ◌/◌, ◌≤◌, length, drop, eqb};
ghost use Rattle.lists.specs.Each.{joined};
ghost use Rattle.model.specs.Layouts.{coordinator_bytes, head_fields};
ghost use Rattle.model.specs.Lines.{lines_of};
ghost use Rattle.model.specs.Coordinator.{letter_of, all_capitals, numbers_accepted};
ghost use Rattle.model.specs.Refusals.{refusal_of, refused_with};
ghost use Rattle.model.specs.SheetCalls.{read_coordinator_conditions, decisions_read, write_coordinator_conditions, coordinator_written};
ghost use Rattle.numbers.specs.Decisions.{decisions_pass};
ghost use Rattle.numbers.specs.DecisionFills.{decision_field, line_texts, numbers_in, sheet_for};

use types::{COORDINATOR_BYTES, HEAD_FIELDS, Layout, Refusal};

// Every decision is one of the three, and none stands from the issued count on.
fn decisions_pass(decisions: &[u32], issued: usize) -> bool
    ensures { result ≡ decisions_pass issued decisions.now }
{
    decisions.iter().take(issued).all(|decision| *decision <= 2)
        && decisions.iter().skip(issued).all(|decision| *decision == 0)
}

// Every letter is a capital, those being the first five: small letters are for two sheets only.
fn capitals(letters: &[u32]) -> bool
    ensures { result ≡ all_capitals (map letter_of letters.now) }
{
    letters.iter().all(|letter| *letter <= 4)
}

// The numbers are those of a coordinator of capitals that keeps the rules. What the head or the count refuses is refused before any decision is looked at.
pub fn numbers_ok(numbers: &[u32]) -> bool
    ensures { result ≡ numbers_accepted numbers.now }
{
    if numbers.len() < HEAD_FIELDS {
        return false;
    }
    if !codec::lines::row_good(Layout::CoordinatorHead, &numbers[..HEAD_FIELDS]) {
        return false;
    }
    if !capitals(&numbers[1..HEAD_FIELDS]) {
        return false;
    }
    let n = numbers.len() - HEAD_FIELDS;
    if n < 1 {
        return false;
    }
    if 999 < n {
        return false;
    }
    let issued = numbers[0] as usize;
    if n < issued {
        return false;
    }
    decisions_pass(&numbers[HEAD_FIELDS..], issued)
}

// The decision of every line over the target.
fn fill_decisions(lines: &[u8], numbers: &mut [u32])
    requires { length numbers.old ≡ length lines.now / coordinator_bytes }
    ensures { numbers.new ≡ map decision_field (lines_of coordinator_bytes lines.now) }
{
    for (i, line) in lines.chunks_exact(COORDINATOR_BYTES).enumerate() {
        let mut row = [0u32; 2];
        codec::lines::read_row(Layout::CoordinatorLine, line, &mut row);
        numbers[i] = row[1];
    }
}

// The line of every decision over the target.
fn fill_lines(decisions: &[u32], lines: &mut [u8])
    requires few_lines { length decisions.now ≤ 999 }
    requires lines_len { length lines.old ≡ length decisions.now * coordinator_bytes }
    ensures { lines.new ≡ joined (line_texts 1 decisions.now) }
{
    // by index into the target, as in the loop above: no fact tells what `chunks_exact_mut` or a chain over `iter_mut` leaves
    for (i, decision) in decisions.iter().enumerate() {
        let at = i * COORDINATOR_BYTES;
        let end = at + COORDINATOR_BYTES;
        let row = [(i + 1) as u32, *decision];
        codec::lines::write_row(Layout::CoordinatorLine, &row, &mut lines[at..end]);
    }
}

// How many numbers stand after those of the head.
fn decision_count(numbers: &[u32]) -> usize
    ensures { result ≡ length (drop head_fields numbers.now) }
{
    numbers.len().saturating_sub(HEAD_FIELDS)
}

// The target has room for the head and every line exactly. Divided, since the bytes of the lines may be more than a number holds.
fn has_room(coordinator: &[u8], numbers: &[u32]) -> bool
    ensures { result ≡ eqb (length coordinator.now) (coordinator_bytes + length (drop head_fields numbers.now) * coordinator_bytes) }
{
    let size = coordinator.len();
    if size < COORDINATOR_BYTES {
        return false;
    }
    if size % COORDINATOR_BYTES != 0 {
        return false;
    }
    size / COORDINATOR_BYTES - 1 == decision_count(numbers)
}

// The numbers of the head and of every decision over the target.
fn fill_numbers(coordinator: &[u8], numbers: &mut [u32])
    requires whole_head { coordinator_bytes ≤ length coordinator.now }
    requires numbers_len { length numbers.old ≡ head_fields + length (drop coordinator_bytes coordinator.now) / coordinator_bytes }
    ensures { numbers.new ≡ numbers_in coordinator.now }
{
    codec::lines::read_row(
        Layout::CoordinatorHead,
        &coordinator[..COORDINATOR_BYTES],
        &mut numbers[..HEAD_FIELDS],
    );
    fill_decisions(
        &coordinator[COORDINATOR_BYTES..],
        &mut numbers[HEAD_FIELDS..],
    );
}

// The head and the line of every decision over the target.
fn fill_sheet(numbers: &[u32], coordinator: &mut [u8])
    requires whole_head { head_fields ≤ length numbers.now }
    requires few_lines { length (drop head_fields numbers.now) ≤ 999 }
    requires coordinator_len { length coordinator.old ≡ coordinator_bytes + length (drop head_fields numbers.now) * coordinator_bytes }
    ensures { coordinator.new ≡ sheet_for numbers.now }
{
    codec::lines::write_row(
        Layout::CoordinatorHead,
        &numbers[..HEAD_FIELDS],
        &mut coordinator[..COORDINATOR_BYTES],
    );
    fill_lines(
        &numbers[HEAD_FIELDS..],
        &mut coordinator[COORDINATOR_BYTES..],
    );
}

// Coordinator sheet to numbers.
pub fn read_coordinator(coordinator: &[u8], numbers: &mut [u32]) -> Result<(), Refusal>
    ensures answer { refused_with result ≡ refusal_of (read_coordinator_conditions coordinator.now numbers.old) }
    ensures target { numbers.new ≡ decisions_read coordinator.now numbers.old }
{
    if numbers.len() != HEAD_FIELDS + codec::coordinator::count(coordinator) {
        return Err(Refusal::BadRecords);
    }
    if !coordinator_check::coordinator_ok(coordinator) {
        return Err(Refusal::BadCoordinator);
    }
    fill_numbers(coordinator, numbers);
    Ok(())
}

// Numbers to coordinator sheet.
pub fn write_coordinator(numbers: &[u32], coordinator: &mut [u8]) -> Result<(), Refusal>
    ensures answer { refused_with result ≡ refusal_of (write_coordinator_conditions numbers.now coordinator.old) }
    ensures target { coordinator.new ≡ coordinator_written numbers.now coordinator.old }
{
    if !has_room(coordinator, numbers) {
        return Err(Refusal::BadRecords);
    }
    if !numbers_ok(numbers) {
        return Err(Refusal::BadCoordinator);
    }
    fill_sheet(numbers, coordinator);
    Ok(())
}
