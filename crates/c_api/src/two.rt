// The calls on a plain sheet and a bookkeeping sheet, for C (document 02, note 4).
ghost use Rattle.std.specs.Prelude.{◌≡◌};
ghost use Rattle.model.specs.Refusals.{refusal_of};
ghost use Rattle.model.specs.Results.{visit};
ghost use Rattle.model.specs.Operations.{once, coordinator_left};
ghost use Rattle.model.specs.CallByPlace.{list_after};
ghost use Rattle.model.specs.TwoSpares.{two_conditions, rank_two, line_two};
ghost use Rattle.model.specs.TwoCalls.{response_two, plain_left, bookkeeping_left};
ghost use Rattle.two_check.specs.Areas.{two};
ghost use Rattle.by_place.specs.Numbers.{visit_number};
ghost use Rattle.by_place.specs.TwoNumbers.{call_number_two};
ghost use Rattle.by_place.specs.Asked.{asks, called_at_two};
ghost use Rattle.by_place.specs.Ranks.{line_number, rank_number, rank_target};

use crate::listing;
use types::{Columns, Key, Transaction};

// 0 where the sheets are accepted, else the refusal: 1, 2 or 13.
#[unsafe(no_mangle)]
pub extern "C" fn rapyheo_two_check(plain: &[u8], book: &[u8], coordinator: &[u8]) -> u32
    ensures { result ≡ refusal_of (two_conditions plain.now book.now coordinator.now) }
{
    by_place::refusal(two_engine::check(plain, book, coordinator))
}

// 0 stays, 1 forward, 2 back, 3 again, or 1000 + the refusal.
#[unsafe(no_mangle)]
pub extern "C" fn rapyheo_two_visit(
    plain: &mut [u8],
    book: &mut [u8],
    coordinator: &mut [u8],
    storage: u32,
    namespace: u32,
    table: u32,
    partition: u32,
    clustering: u32,
    clock: u32,
) -> u32
    ensures answer { result ≡ visit_number (response_two (once (visit (record { storage = storage; namespace = namespace; table = table; partition = partition; clustering = clustering }) clock)) (two plain.old book.old coordinator.old)) }
    ensures plain { plain.new ≡ plain_left plain.old (response_two (once (visit (record { storage = storage; namespace = namespace; table = table; partition = partition; clustering = clustering }) clock)) (two plain.old book.old coordinator.old)) }
    ensures bookkeeping { book.new ≡ bookkeeping_left book.old (response_two (once (visit (record { storage = storage; namespace = namespace; table = table; partition = partition; clustering = clustering }) clock)) (two plain.old book.old coordinator.old)) }
    ensures decisions { coordinator.new ≡ coordinator_left coordinator.old (response_two (once (visit (record { storage = storage; namespace = namespace; table = table; partition = partition; clustering = clustering }) clock)) (two plain.old book.old coordinator.old)) }
{
    let key = Key {
        storage,
        namespace,
        table,
        partition,
        clustering,
    };
    match two_engine::visit(key, clock, plain, book, coordinator) {
        Ok(met) => by_place::recovery_number(met),
        Err(refusal) => by_place::refused(refusal),
    }
}

// The index of the line that has the key, the same on both sheets, or 1000 + the refusal.
#[unsafe(no_mangle)]
pub extern "C" fn rapyheo_two_lookup(
    plain: &[u8],
    book: &[u8],
    storage: u32,
    namespace: u32,
    table: u32,
    partition: u32,
    clustering: u32,
) -> u32
    ensures { result ≡ line_number (line_two plain.now book.now (record { storage = storage; namespace = namespace; table = table; partition = partition; clustering = clustering })) }
{
    let key = Key {
        storage,
        namespace,
        table,
        partition,
        clustering,
    };
    by_place::line_number(two_engine::lookup::line_of(plain, book, key))
}

// Where the key stands, or would stand, on both sheets: as `rapyheo_rank`.
#[unsafe(no_mangle)]
pub extern "C" fn rapyheo_two_rank(
    plain: &[u8],
    book: &[u8],
    storage: u32,
    namespace: u32,
    table: u32,
    partition: u32,
    clustering: u32,
    rank: &mut [u32],
) -> u32
    ensures answer { result ≡ rank_number rank.old (rank_two plain.now book.now (record { storage = storage; namespace = namespace; table = table; partition = partition; clustering = clustering })) }
    ensures target { rank.new ≡ rank_target rank.old (rank_two plain.now book.now (record { storage = storage; namespace = namespace; table = table; partition = partition; clustering = clustering })) }
{
    let key = Key {
        storage,
        namespace,
        table,
        partition,
        clustering,
    };
    by_place::tell_rank(two_engine::lookup::rank_of(plain, book, key), rank)
}

// Every call by place, as `rapyheo_call_at`, and the second call of a read. Where a read takes two calls, the first answers 10000 + 100000000 * column 1 + column 2.
#[unsafe(no_mangle)]
pub extern "C" fn rapyheo_two_call_at(
    list: &mut [Transaction],
    place: usize,
    plain: &mut [u8],
    book: &mut [u8],
    coordinator: &mut [u8],
    call: u32,
    storage: u32,
    namespace: u32,
    table: u32,
    partition: u32,
    clustering: u32,
    column1: u32,
    column2: u32,
    clock: u32,
    limit: u32,
) -> u64
    ensures answer { result ≡ call_number_two (called_at_two list.old place call (asks call storage namespace table partition clustering column1 column2 clock limit) (two plain.old book.old coordinator.old)) }
    ensures transactions { list.new ≡ list_after list.old place (called_at_two list.old place call (asks call storage namespace table partition clustering column1 column2 clock limit) (two plain.old book.old coordinator.old)) }
    ensures plain { plain.new ≡ plain_left plain.old (called_at_two list.old place call (asks call storage namespace table partition clustering column1 column2 clock limit) (two plain.old book.old coordinator.old)) }
    ensures bookkeeping { book.new ≡ bookkeeping_left book.old (called_at_two list.old place call (asks call storage namespace table partition clustering column1 column2 clock limit) (two plain.old book.old coordinator.old)) }
    ensures decisions { coordinator.new ≡ coordinator_left coordinator.old (called_at_two list.old place call (asks call storage namespace table partition clustering column1 column2 clock limit) (two plain.old book.old coordinator.old)) }
{
    if !by_place::is_named_two(list.len(), place, call) {
        return by_place::unlisted_two(plain, book, coordinator);
    }
    let key = Key {
        storage,
        namespace,
        table,
        partition,
        clustering,
    };
    let columns = Columns { column1, column2 };
    let request = by_place::request(call, key, columns, clock, limit);
    let t = list[place];
    let performed = two_engine::perform(request, t, plain, book, coordinator);
    listing::put_back(list, place, &performed);
    match performed {
        Ok(performed) => by_place::number_two(performed.reply),
        Err(refusal) => by_place::refused(refusal) as u64,
    }
}
