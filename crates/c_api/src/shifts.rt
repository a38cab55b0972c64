// Lines added and removed, for C. Each answers 0 or the refusal itself, as the check does.
ghost use Rattle.std.specs.Prelude.{◌≡◌};
ghost use Rattle.model.specs.Results.{add, remove, refusal_in, answer_of};
ghost use Rattle.model.specs.ByteCalls.{result_on, sheet_after};
ghost use Rattle.model.specs.Operations.{once};
ghost use Rattle.model.specs.TwoCalls.{response_two, plain_left, bookkeeping_left};
ghost use Rattle.two_check.specs.Areas.{two};

use types::Key;

// A line for a key that has none, in key order; the last spare is used up.
#[unsafe(no_mangle)]
pub extern "C" fn rapyheo_add(
    records: &mut [u8],
    coordinator: &[u8],
    storage: u32,
    namespace: u32,
    table: u32,
    partition: u32,
    clustering: u32,
) -> u32
    ensures answer { result ≡ refusal_in (answer_of (result_on (add (record { storage = storage; namespace = namespace; table = table; partition = partition; clustering = clustering })) records.old coordinator.now)) }
    ensures lines { records.new ≡ sheet_after records.old coordinator.now (result_on (add (record { storage = storage; namespace = namespace; table = table; partition = partition; clustering = clustering })) records.old coordinator.now) }
{
    let key = Key {
        storage,
        namespace,
        table,
        partition,
        clustering,
    };
    by_place::refusal(adding::add(key, records, coordinator))
}

// The line of a key, which is ABSENT of version 0, taken away; a spare comes last.
#[unsafe(no_mangle)]
pub extern "C" fn rapyheo_remove(
    records: &mut [u8],
    coordinator: &[u8],
    storage: u32,
    namespace: u32,
    table: u32,
    partition: u32,
    clustering: u32,
) -> u32
    ensures answer { result ≡ refusal_in (answer_of (result_on (remove (record { storage = storage; namespace = namespace; table = table; partition = partition; clustering = clustering })) records.old coordinator.now)) }
    ensures lines { records.new ≡ sheet_after records.old coordinator.now (result_on (remove (record { storage = storage; namespace = namespace; table = table; partition = partition; clustering = clustering })) records.old coordinator.now) }
{
    let key = Key {
        storage,
        namespace,
        table,
        partition,
        clustering,
    };
    by_place::refusal(adding::remove(key, records, coordinator))
}

// The same on a plain sheet and a bookkeeping sheet.
#[unsafe(no_mangle)]
pub extern "C" fn rapyheo_two_add(
    plain: &mut [u8],
    book: &mut [u8],
    coordinator: &[u8],
    storage: u32,
    namespace: u32,
    table: u32,
    partition: u32,
    clustering: u32,
) -> u32
    ensures answer { result ≡ refusal_in (answer_of (response_two (once (add (record { storage = storage; namespace = namespace; table = table; partition = partition; clustering = clustering }))) (two plain.old book.old coordinator.now))) }
    ensures plain { plain.new ≡ plain_left plain.old (response_two (once (add (record { storage = storage; namespace = namespace; table = table; partition = partition; clustering = clustering }))) (two plain.old book.old coordinator.now)) }
    ensures bookkeeping { book.new ≡ bookkeeping_left book.old (response_two (once (add (record { storage = storage; namespace = namespace; table = table; partition = partition; clustering = clustering }))) (two plain.old book.old coordinator.now)) }
{
    let key = Key {
        storage,
        namespace,
        table,
        partition,
        clustering,
    };
    by_place::refusal(two_adding::add(key, plain, book, coordinator))
}

#[unsafe(no_mangle)]
pub extern "C" fn rapyheo_two_remove(
    plain: &mut [u8],
    book: &mut [u8],
    coordinator: &[u8],
    storage: u32,
    namespace: u32,
    table: u32,
    partition: u32,
    clustering: u32,
) -> u32
    ensures answer { result ≡ refusal_in (answer_of (response_two (once (remove (record { storage = storage; namespace = namespace; table = table; partition = partition; clustering = clustering }))) (two plain.old book.old coordinator.now))) }
    ensures plain { plain.new ≡ plain_left plain.old (response_two (once (remove (record { storage = storage; namespace = namespace; table = table; partition = partition; clustering = clustering }))) (two plain.old book.old coordinator.now)) }
    ensures bookkeeping { book.new ≡ bookkeeping_left book.old (response_two (once (remove (record { storage = storage; namespace = namespace; table = table; partition = partition; clustering = clustering }))) (two plain.old book.old coordinator.now)) }
{
    let key = Key {
        storage,
        namespace,
        table,
        partition,
        clustering,
    };
    by_place::refusal(two_adding::remove(key, plain, book, coordinator))
}
