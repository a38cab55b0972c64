// Record sheets to lent lists of numbers and back: sixteen numbers for each record, and sixteen zeros for each spare.
ghost use Rattle.std.specs.Prelude.{◌≡◌, map, ◌*◌, ◌/◌, length};
ghost use Rattle.lists.specs.Each.{joined};
ghost use Rattle.model.specs.Layouts.{record_layout, record_bytes, record_fields};
ghost use Rattle.model.specs.Lines.{row_of, line_text, lines_of};
ghost use Rattle.model.specs.Records.{rows};
ghost use Rattle.model.specs.Spares.{spares_text};
ghost use Rattle.model.specs.Refusals.{refusal_of, refused_with};
ghost use Rattle.model.specs.SheetCalls.{read_records_conditions, numbers_read, write_records_conditions, records_written};
ghost use Rattle.numbers.specs.Spares.{rows_read, lines_written};

use crate::rows;
use types::{Layout, RECORD_BYTES, RECORD_FIELDS, Refusal};

// The numbers of every line over the target.
fn fill_numbers(records: &[u8], numbers: &mut [u32])
    requires { length numbers.old ≡ length records.now / record_bytes * record_fields }
    ensures { numbers.new ≡ joined (map (row_of record_layout) (lines_of record_bytes records.now)) }
{
    for (i, line) in records.chunks_exact(RECORD_BYTES).enumerate() {
        let at = i * RECORD_FIELDS;
        let end = at + RECORD_FIELDS;
        codec::lines::read_row(Layout::RecordLine, line, &mut numbers[at..end]);
    }
}

// The line of every record over the target. Reading and writing stay two functions each: one for both would take two types of element, two widths and a closure that
// writes what it is lent, with a law for it, in place of three lines.
fn fill_records(numbers: &[u32], records: &mut [u8])
    requires { length records.old ≡ length numbers.now / record_fields * record_bytes }
    ensures { records.new ≡ joined (map (line_text record_layout) (rows numbers.now)) }
{
    for (i, row) in numbers.chunks_exact(RECORD_FIELDS).enumerate() {
        let at = i * RECORD_BYTES;
        let end = at + RECORD_BYTES;
        codec::lines::write_row(Layout::RecordLine, row, &mut records[at..end]);
    }
}

// Spares over the target.
fn fill_spares(records: &mut [u8])
    requires { length records.old ≡ length records.old / record_bytes * record_bytes }
    ensures { records.new ≡ spares_text record_bytes (length records.old / record_bytes) }
{
    // by index, as in the two loops above: no fact tells what `chunks_exact_mut` leaves
    let line = shifting::spare();
    for i in 0..records.len() / RECORD_BYTES {
        let at = i * RECORD_BYTES;
        let end = at + RECORD_BYTES;
        records[at..end].copy_from_slice(&line);
    }
}

// The numbers of the sheet's records over the target, and zeros behind them for its spares.
fn fill_rows(records: &[u8], numbers: &mut [u32])
    requires records_len { length records.now ≡ length records.now / record_bytes * record_bytes }
    requires numbers_len { length numbers.old ≡ length records.now / record_bytes * record_fields }
    ensures { numbers.new ≡ rows_read records.now }
{
    let end = shifting::front_end(records, RECORD_BYTES);
    let filled = end / RECORD_BYTES * RECORD_FIELDS;
    fill_numbers(&records[..end], &mut numbers[..filled]);
    numbers[filled..].fill(0);
}

// The lines of the records over the target, and spares behind them for the rows of zeros at the end.
fn fill_sheet(numbers: &[u32], records: &mut [u8])
    requires numbers_len { length numbers.now ≡ length numbers.now / record_fields * record_fields }
    requires records_len { length records.old ≡ length numbers.now / record_fields * record_bytes }
    ensures { records.new ≡ lines_written numbers.now }
{
    let n = rows::filled_rows(numbers);
    let end = n * RECORD_FIELDS;
    let filled = n * RECORD_BYTES;
    fill_records(&numbers[..end], &mut records[..filled]);
    fill_spares(&mut records[filled..]);
}

// Record sheet to numbers.
pub fn read_records(records: &[u8], numbers: &mut [u32]) -> Result<(), Refusal>
    ensures answer { refused_with result ≡ refusal_of (read_records_conditions records.now numbers.old) }
    ensures target { numbers.new ≡ numbers_read records.now numbers.old }
{
    if !record_check::sheet_ok(records) {
        return Err(Refusal::BadRecords);
    }
    if numbers.len() != records.len() / RECORD_BYTES * RECORD_FIELDS {
        return Err(Refusal::BadRecords);
    }
    fill_rows(records, numbers);
    Ok(())
}

// Numbers to record sheet.
pub fn write_records(numbers: &[u32], records: &mut [u8]) -> Result<(), Refusal>
    ensures answer { refused_with result ≡ refusal_of (write_records_conditions numbers.now records.old) }
    ensures target { records.new ≡ records_written numbers.now records.old }
{
    if !rows::rows_ok(numbers) {
        return Err(Refusal::BadRecords);
    }
    if records.len() != numbers.len() / RECORD_FIELDS * RECORD_BYTES {
        return Err(Refusal::BadRecords);
    }
    fill_sheet(numbers, records);
    Ok(())
}
