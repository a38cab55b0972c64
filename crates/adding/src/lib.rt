// A line added to a record sheet, and one removed (document 02, note 6): where it goes, by the rank of its key, or the refusal; and both calls on two lent sheets. A refusal leaves
// both sheets as they were.
#![tactic(auto)]

ghost use Rattle.std.specs.Prelude.{◌≡◌, true};
ghost use Rattle.model.specs.Records.{records_accepted, record_text, absent_at, ranked};
ghost use Rattle.model.specs.Records as model;
ghost use Rattle.model.specs.Refusals.{refused_with};
ghost use Rattle.model.specs.SheetCalls.{told_rank};
ghost use Rattle.model.specs.Told.{ranked_by};
ghost use Rattle.model.specs.Conditions.{is_blank, add_conditions, remove_conditions};
ghost use Rattle.model.specs.Results.{refusal_in, answer_of};
ghost use Rattle.model.specs.Results as calls;
ghost use Rattle.model.specs.ByteCalls.{result_on, sheet_after};

use codec::keys::key_in_range;
use record_check::lines_end;
use sheets::{check, lookup};
use types::{Key, Layout, RECORD_BYTES, RECORD_FIELDS, Rank, Record, Refusal, State};

// The line of a key that is ABSENT, of version 0.
pub fn absent_line(key: Key) -> [u8; RECORD_BYTES]
    ensures { result ≡ record_text (absent_at key) }
{
    let mut row = [0u32; RECORD_FIELDS];
    row[0] = key.storage;
    row[1] = key.namespace;
    row[2] = key.table;
    row[3] = key.partition;
    row[4] = key.clustering;
    let mut text = [0u8; RECORD_BYTES];
    codec::lines::write_row(Layout::RecordLine, &row, &mut text);
    text
}

// Whether a record may be removed.
fn is_blank(r: Record) -> bool
    ensures { result ≡ is_blank r }
{
    match r.state {
        State::Absent => r.image.version == 0,
        State::Committed => false,
        State::Prepared => false,
    }
}

// Where a line for the key goes among accepted lines, of a sheet that is full or not; or 5, 14 or 15.
pub fn to_add(full: bool, key: Key, lines: &[u8]) -> Result<Rank, Refusal>
    requires { records_accepted lines.now ≡ true }
    ensures { ranked_by result ≡ told_rank (add_conditions full key (model.records lines.now)) (ranked key (model.records lines.now)) }
{
    if !key_in_range(key) {
        return Err(Refusal::BadKey);
    }
    let rank = lookup::rank(lines, key);
    if rank.present {
        return Err(Refusal::HasLine);
    }
    if full {
        return Err(Refusal::NoSpare);
    }
    Ok(rank)
}

// Where the line of the key stands that is to go; or 5, 6 or 16.
pub fn to_remove(key: Key, lines: &[u8]) -> Result<Rank, Refusal>
    requires { records_accepted lines.now ≡ true }
    ensures { ranked_by result ≡ told_rank (remove_conditions key (model.records lines.now)) (ranked key (model.records lines.now)) }
{
    if !key_in_range(key) {
        return Err(Refusal::BadKey);
    }
    let rank = lookup::rank(lines, key);
    if !rank.present {
        return Err(Refusal::NoSuchKey);
    }
    let record = codec::records::record_at(lines, rank.below);
    if !is_blank(record) {
        return Err(Refusal::NotBlank);
    }
    Ok(rank)
}

// Refused with 1, 2, 5, 14 or 15.
pub fn add(key: Key, records: &mut [u8], coordinator: &[u8]) -> Result<(), Refusal>
    ensures answer { refused_with result ≡ refusal_in (answer_of (result_on (calls.add key) records.old coordinator.now)) }
    ensures lines { records.new ≡ sheet_after records.old coordinator.now (result_on (calls.add key) records.old coordinator.now) }
{
    check::check(records, coordinator)?;
    let end = lines_end(records);
    let full = end == records.len();
    let rank = to_add(full, key, &records[..end])?;
    let line = absent_line(key);
    shifting::insert_line(records, RECORD_BYTES, rank.below, &line);
    Ok(())
}

// Refused with 1, 2, 5, 6 or 16.
pub fn remove(key: Key, records: &mut [u8], coordinator: &[u8]) -> Result<(), Refusal>
    ensures answer { refused_with result ≡ refusal_in (answer_of (result_on (calls.remove key) records.old coordinator.now)) }
    ensures lines { records.new ≡ sheet_after records.old coordinator.now (result_on (calls.remove key) records.old coordinator.now) }
{
    check::check(records, coordinator)?;
    let end = lines_end(records);
    let rank = to_remove(key, &records[..end])?;
    shifting::remove_line(records, RECORD_BYTES, rank.below);
    Ok(())
}
