// Sheets to lent lists of numbers and back, for C. Each answers 0 or the refusal itself, as the check does.
ghost use Rattle.std.specs.Prelude.{◌≡◌};
ghost use Rattle.model.specs.Refusals.{refusal_of};
ghost use Rattle.model.specs.SheetCalls.{read_records_conditions, numbers_read, write_records_conditions, records_written};
ghost use Rattle.model.specs.SheetCalls.{read_coordinator_conditions, decisions_read, write_coordinator_conditions, coordinator_written};

// Record sheet to sixteen numbers for each line.
#[unsafe(no_mangle)]
pub extern "C" fn rapyheo_read_records(records: &[u8], numbers: &mut [u32]) -> u32
    ensures answer { result ≡ refusal_of (read_records_conditions records.now numbers.old) }
    ensures target { numbers.new ≡ numbers_read records.now numbers.old }
{
    by_place::refusal(numbers::records::read_records(records, numbers))
}

// Fifteen numbers for each record to a record sheet.
#[unsafe(no_mangle)]
pub extern "C" fn rapyheo_write_records(numbers: &[u32], records: &mut [u8]) -> u32
    ensures answer { result ≡ refusal_of (write_records_conditions numbers.now records.old) }
    ensures target { records.new ≡ records_written numbers.now records.old }
{
    by_place::refusal(numbers::records::write_records(numbers, records))
}

// Coordinator sheet to ten numbers for the head and one for each line.
#[unsafe(no_mangle)]
pub extern "C" fn rapyheo_read_coordinator(coordinator: &[u8], numbers: &mut [u32]) -> u32
    ensures answer { result ≡ refusal_of (read_coordinator_conditions coordinator.now numbers.old) }
    ensures target { numbers.new ≡ decisions_read coordinator.now numbers.old }
{
    by_place::refusal(numbers::decisions::read_coordinator(coordinator, numbers))
}

// Ten numbers for the head and one for each line to a coordinator sheet.
#[unsafe(no_mangle)]
pub extern "C" fn rapyheo_write_coordinator(numbers: &[u32], coordinator: &mut [u8]) -> u32
    ensures answer { result ≡ refusal_of (write_coordinator_conditions numbers.now coordinator.old) }
    ensures target { coordinator.new ≡ coordinator_written numbers.now coordinator.old }
{
    by_place::refusal(numbers::decisions::write_coordinator(numbers, coordinator))
}
