// All record lines of a sheet visited, twice.
ghost use Rattle.std.specs.Prelude.{◌≡◌, ◌/◌, ◌<◌};
ghost use Rattle.model.specs.Layouts.{record_bytes};
ghost use Rattle.model.specs.Results.{visit};
ghost use Rattle.model.specs.ByteHistories.{Passing, after_on};
ghost use Rattle.model.specs.Visitor.{visited_all, keys_on, swept};
ghost use Rattle.sweep.specs.Passes.{both, key_at, Lined};

use types::RECORD_BYTES;

// The visit of the key of line i, the spares beginning at `end`. The check has let both sheets pass, and a visit leaves sheets that pass: neither is checked again.
fn visit_line(i: usize, end: usize, clock: u32, records: &mut [u8], coordinator: &mut [u8])
    requires lined { Lined (both records.old coordinator.old) end }
    requires i_bound { i < end / record_bytes }
    ensures { both records.new coordinator.new ≡ after_on (visit (key_at records.old i) clock) (both records.old coordinator.old) }
{
    // A line whose owner may still be at work is refused, and stays.
    let _ = visits::visit_line(i, clock, &mut records[..end], coordinator);
}

// Every record line in order. A visit keeps the keys, so that the key of line i is the first sheet's.
fn pass(end: usize, clock: u32, records: &mut [u8], coordinator: &mut [u8])
    requires { Lined (both records.old coordinator.old) end }
    ensures { both records.new coordinator.new ≡ visited_all clock (keys_on (both records.old coordinator.old)) (both records.old coordinator.old) }
{
    let n = end / RECORD_BYTES;
    for i in 0..n {
        visit_line(i, end, clock, records, coordinator);
    }
}

// Every record line in order, and all again. Spares are passed over, and stay where they are.
pub fn sweep(clock: u32, records: &mut [u8], coordinator: &mut [u8])
    requires { Passing (both records.old coordinator.old) }
    ensures { both records.new coordinator.new ≡ swept clock (both records.old coordinator.old) }
{
    let end = record_check::lines_end(records);
    for turn in 0..2usize {
        pass(end, clock, records, coordinator);
    }
}
