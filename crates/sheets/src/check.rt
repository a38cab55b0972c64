// The check of both sheets.
ghost use Rattle.std.specs.Prelude.{◌≡◌};
ghost use Rattle.model.specs.Refusals.{refusal_of, refused_with};
ghost use Rattle.model.specs.SheetCalls.{check_conditions};

use types::Refusal;

// Accepted, or the refusal of the sheet that is not.
pub fn check(records: &[u8], coordinator: &[u8]) -> Result<(), Refusal>
    ensures { refused_with result ≡ refusal_of (check_conditions records.now coordinator.now) }
{
    if !record_check::sheet_ok(records) {
        return Err(Refusal::BadRecords);
    }
    if !coordinator_check::coordinator_ok(coordinator) {
        return Err(Refusal::BadCoordinator);
    }
    let end = record_check::lines_end(records);
    if !coordinator_check::all_issued(&records[..end], coordinator) {
        return Err(Refusal::BadCoordinator);
    }
    Ok(())
}
