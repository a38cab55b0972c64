// What a client asks besides the calls: what a call wrote, where the line of a key stands, and which version this is.
ghost use Rattle.std.specs.Prelude.{◌≡◌};
ghost use Rattle.model.specs.Changes.{written_number, written_lines};
ghost use Rattle.model.specs.SheetCalls.{rank_on, line_on};
ghost use Rattle.by_place.specs.Ranks.{line_number, rank_number, rank_target};
ghost use Rattle.c_api.specs.Telling.{version};

use types::Key;

// From copies of both sheets as they were before a call: 0 nothing was written, 1 the coordinator sheet, 2 record lines, 3 both, or 1000 + the refusal.
// The target gets the index of the first line that differs and how many lines reach from it to the last. Bytes alone are judged: the sheets need not be
// accepted.
#[unsafe(no_mangle)]
pub extern "C" fn rapyheo_written(
    records_before: &[u8],
    records: &[u8],
    coordinator_before: &[u8],
    coordinator: &[u8],
    lines: &mut [u32],
) -> u32
    ensures answer { result ≡ written_number records_before.now records.now coordinator_before.now coordinator.now lines.old }
    ensures target { lines.new ≡ written_lines records_before.now records.now coordinator_before.now coordinator.now lines.old }
{
    changes::written(
        records_before,
        records,
        coordinator_before,
        coordinator,
        lines,
    )
}

// The index of the line that has the key, or 1000 + the refusal.
#[unsafe(no_mangle)]
pub extern "C" fn rapyheo_lookup(
    records: &[u8],
    storage: u32,
    namespace: u32,
    table: u32,
    partition: u32,
    clustering: u32,
) -> u32
    ensures { result ≡ line_number (line_on records.now (record { storage = storage; namespace = namespace; table = table; partition = partition; clustering = clustering })) }
{
    let key = Key {
        storage,
        namespace,
        table,
        partition,
        clustering,
    };
    by_place::line_number(sheets::lookup::line_of(records, key))
}

// Where the key stands, or would stand: the target gets how many lines have smaller keys, and 1 if the key has a line itself, else 0. Answers 0, or 1000 + the
// refusal, 1 also for a target of another length than 2.
#[unsafe(no_mangle)]
pub extern "C" fn rapyheo_rank(
    records: &[u8],
    storage: u32,
    namespace: u32,
    table: u32,
    partition: u32,
    clustering: u32,
    rank: &mut [u32],
) -> u32
    ensures answer { result ≡ rank_number rank.old (rank_on records.now (record { storage = storage; namespace = namespace; table = table; partition = partition; clustering = clustering })) }
    ensures target { rank.new ≡ rank_target rank.old (rank_on records.now (record { storage = storage; namespace = namespace; table = table; partition = partition; clustering = clustering })) }
{
    let key = Key {
        storage,
        namespace,
        table,
        partition,
        clustering,
    };
    by_place::tell_rank(sheets::lookup::rank_of(records, key), rank)
}

// 10000 * major + 100 * minor + patch.
#[unsafe(no_mangle)]
pub extern "C" fn rapyheo_version() -> u32
    ensures { result ≡ version }
{
    30000
}
