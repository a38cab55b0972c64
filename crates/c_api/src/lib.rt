// The functions exported for C. A slice passes as a pointer and then a length.
#![tactic(auto)]

ghost use Rattle.std.specs.Prelude.{◌≡◌, false, ◌+◌};
ghost use Rattle.model.specs.Refusals.{refusal_of};
ghost use Rattle.model.specs.SheetCalls.{check_conditions};
ghost use Rattle.model.specs.Results.{begin, visit};
ghost use Rattle.model.specs.ByteCalls.{result_on, sheet_after, coordinator_after};
ghost use Rattle.model.specs.Operations.{sheet_left, coordinator_left};
ghost use Rattle.model.specs.CallByPlace.{list_after};
ghost use Rattle.by_place.specs.Numbers.{begin_number, visit_number, call_number};
ghost use Rattle.by_place.specs.Asked.{asks, called_at_on};

pub mod conversions;
mod listing;
pub mod shifts;
pub mod telling;
pub mod two;

use types::{Columns, Key, Transaction};

// 0 where both sheets are accepted, else the refusal: 1 or 2.
#[unsafe(no_mangle)]
pub extern "C" fn rapyheo_check(records: &[u8], coordinator: &[u8]) -> u32
    ensures { result ≡ refusal_of (check_conditions records.now coordinator.now) }
{
    by_place::refusal(sheets::check::check(records, coordinator))
}

// The number given, 1 to 999, or 1000 + the refusal.
#[unsafe(no_mangle)]
pub extern "C" fn rapyheo_begin(records: &[u8], coordinator: &mut [u8]) -> u32
    ensures answer { result ≡ begin_number (result_on (begin false) records.now coordinator.old) }
    ensures decisions { coordinator.new ≡ coordinator_after records.now coordinator.old (result_on (begin false) records.now coordinator.old) }
{
    match engine::issue(records, coordinator) {
        Ok(number) => number,
        Err(refusal) => by_place::refused(refusal),
    }
}

// 0 stays, 1 forward, 2 back, 3 again, or 1000 + the refusal.
#[unsafe(no_mangle)]
pub extern "C" fn rapyheo_visit(
    records: &mut [u8],
    coordinator: &mut [u8],
    storage: u32,
    namespace: u32,
    table: u32,
    partition: u32,
    clustering: u32,
    clock: u32,
) -> u32
    ensures answer { result ≡ visit_number (result_on (visit (record { storage = storage; namespace = namespace; table = table; partition = partition; clustering = clustering }) clock) records.old coordinator.old) }
    ensures lines { records.new ≡ sheet_after records.old coordinator.old (result_on (visit (record { storage = storage; namespace = namespace; table = table; partition = partition; clustering = clustering }) clock) records.old coordinator.old) }
    ensures decisions { coordinator.new ≡ coordinator_after records.old coordinator.old (result_on (visit (record { storage = storage; namespace = namespace; table = table; partition = partition; clustering = clustering }) clock) records.old coordinator.old) }
{
    let key = Key {
        storage,
        namespace,
        table,
        partition,
        clustering,
    };
    match engine::visit(key, clock, records, coordinator) {
        Ok(met) => by_place::recovery_number(met),
        Err(refusal) => by_place::refused(refusal),
    }
}

// Every call by place, for C: what is asked comes as numbers, of which a call takes its own and no other. What a read came to (0 absent, 1 columns, 2 again),
// how many writes a close made, else 0, or 1000 + the refusal. The header gives each call a name of its own.
#[unsafe(no_mangle)]
pub extern "C" fn rapyheo_call_at(
    list: &mut [Transaction],
    place: usize,
    records: &mut [u8],
    coordinator: &mut [u8],
    call: u32,
    storage: u32,
    namespace: u32,
    table: u32,
    partition: u32,
    clustering: u32,
    column1: u32,
    column2: u32,
    clock: u32,
    limit: u32,
) -> u32
    ensures answer { result ≡ call_number (called_at_on list.old place call (asks call storage namespace table partition clustering column1 column2 clock limit) records.old coordinator.old) }
    ensures transactions { list.new ≡ list_after list.old place (called_at_on list.old place call (asks call storage namespace table partition clustering column1 column2 clock limit) records.old coordinator.old) }
    ensures lines { records.new ≡ sheet_left records.old (called_at_on list.old place call (asks call storage namespace table partition clustering column1 column2 clock limit) records.old coordinator.old) }
    ensures decisions { coordinator.new ≡ coordinator_left coordinator.old (called_at_on list.old place call (asks call storage namespace table partition clustering column1 column2 clock limit) records.old coordinator.old) }
{
    if !by_place::is_named(list.len(), place, call) {
        return by_place::unlisted(records, coordinator);
    }
    let key = Key {
        storage,
        namespace,
        table,
        partition,
        clustering,
    };
    let columns = Columns { column1, column2 };
    let request = by_place::request(call, key, columns, clock, limit);
    let t = list[place];
    let performed = engine::perform(request, t, records, coordinator);
    listing::put_back(list, place, &performed);
    match performed {
        Ok(performed) => by_place::number(performed.reply),
        Err(refusal) => by_place::refused(refusal),
    }
}
