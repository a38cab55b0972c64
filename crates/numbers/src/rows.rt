// Records as a lent list of numbers, sixteen to a record: whether they keep the rules of a record sheet, and how many there are before the spares at its end.
ghost use Rattle.std.specs.Prelude.{◌≡◌, length, eqb};
ghost use Rattle.lists.specs.Each.{all};
ghost use Rattle.model.specs.Layouts.{record_fields};
ghost use Rattle.model.specs.Records.{rows, record_of, key_less};
ghost use Rattle.model.specs.Spares.{sized};
ghost use Rattle.model.specs.SheetCalls.{filled_rows, all_rows_accepted};
ghost use Rattle.numbers.specs.RowsPass.{row_ok, rows_pass};

use crate::rules;
use types::{Layout, RECORD_FIELDS};

// The row is in range and keeps the rule of its state. It is taken in at both places that ask it, where the columns are known.
#[inline(always)]
fn row_ok(row: &[u32]) -> bool
    requires { length row.now ≡ record_fields }
    ensures { result ≡ row_ok row.now }
{
    codec::lines::row_good(Layout::RecordLine, row)
        && rules::state_rule(codec::records::record_of(row))
}

// The key of the row comes before that of the next.
fn rises(row: &[u32], next: &[u32]) -> bool
    requires row_len { length row.now ≡ record_fields }
    requires next_len { length next.now ≡ record_fields }
    ensures { result ≡ key_less (record_of row.now).key (record_of next.now).key }
{
    codec::records::record_of(row).key < codec::records::record_of(next).key
}

// Every row is good by itself and before the next: one after another, so that the first which isn't ends it, and the last by itself.
fn rows_pass(numbers: &[u32]) -> bool
    ensures { result ≡ rows_pass (rows numbers.now) }
{
    let all = numbers.chunks_exact(RECORD_FIELDS);
    let next = numbers.chunks_exact(RECORD_FIELDS).skip(1);
    let last = (numbers.len() / RECORD_FIELDS).saturating_sub(1);
    all.zip(next)
        .all(|(row, next)| row_ok(row) && rises(row, next))
        && numbers.chunks_exact(RECORD_FIELDS).skip(last).all(row_ok)
}

// Every number of the row is 0: it is a spare.
fn all_zero(row: &[u32]) -> bool
    ensures { result ≡ all (eqb 0) row.now }
{
    row.iter().all(|x| *x == 0)
}

// How many rows there are up to the last that is no spare. They are judged from the end: one where there is no spare.
#[tactic(auto, using(crate::specs::Spares::none_left))]
pub fn filled_rows(numbers: &[u32]) -> usize
    ensures { result ≡ filled_rows numbers.now }
{
    for i in (0..numbers.len() / RECORD_FIELDS).rev() {
        let at = i * RECORD_FIELDS;
        if !all_zero(&numbers[at..at + RECORD_FIELDS]) {
            return i + 1;
        }
    }
    0
}

// Whole rows, 1 to 500 of them.
#[tactic(auto, unfolding(model::specs::Spares::sized))]
fn is_sized(numbers: &[u32]) -> bool
    ensures { result ≡ sized record_fields numbers.now }
{
    let n = numbers.len() / RECORD_FIELDS;
    (numbers.len() == n * RECORD_FIELDS) & (1 <= n) & (n <= 500)
}

// The numbers are those of a record sheet, spares at its end included: zeros above a record are no spare, and out of range.
pub fn rows_ok(numbers: &[u32]) -> bool
    ensures { result ≡ all_rows_accepted numbers.now }
{
    if !is_sized(numbers) {
        return false;
    }
    let end = filled_rows(numbers) * RECORD_FIELDS;
    rows_pass(&numbers[..end])
}
