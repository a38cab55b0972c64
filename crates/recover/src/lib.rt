// Meeting a line: what a visit of it comes to, what it writes, and what a read sees of the record then. A visit reads only the fields that it needs, and rolls a line by moving its bytes.
#![tactic(auto)]

ghost use Rattle.std.specs.Prelude.{◌≡◌, true, ◌&&◌, if◌then◌else◌, nat_le};
ghost use Rattle.model.specs.Records.{records_accepted};
ghost use Rattle.model.specs.Records as sheet;
ghost use Rattle.model.specs.Images as model;
ghost use Rattle.model.specs.Images.{by_decision};
ghost use Rattle.model.specs.Visits.{number_expired, meeting, recovery_write};
ghost use Rattle.model.specs.Calls.{seen_second};
ghost use Rattle.model.specs.ByteCalls.{sheets_of};
ghost use Rattle.call_laws.specs.Accepted.{Written};
ghost use Rattle.types.specs.declared.Recovery.TheVariants.{Forward, Back, Again, Busy};
ghost use Rattle.recover.specs.Clocks.{line_allows};
ghost use Rattle.recover.specs.Recovering.{line_at, Standing, Pending, Recovered};

use codec::{coordinator, reading, settling};
use types::{Columns, Decision, Image, Record, Recovery, State};

// The ticks since a clock reading, modulo 2^32.
#[tactic(auto, unfolding(model::specs::Images::elapsed))]
fn elapsed(now: u32, clock: u32) -> u32
    ensures { result ≡ model.elapsed now clock }
{
    now.wrapping_sub(clock)
}

// A clock gone back lands at 2^31 or above and never expires.
fn has_expired(now: u32, clock: u32) -> bool
    ensures { result ≡ (nat_le 15000 (model.elapsed now clock) && nat_le (model.elapsed now clock) 2147483647) }
{
    (15000..=2147483647).contains(&elapsed(now, clock))
}

// Whether line i lets the number count as expired: it is not the number's, which is asked before its clock is read, or it has expired.
fn line_allows(n: u32, i: usize, clock: u32, records: &[u8]) -> bool
    requires { records_accepted records.now ≡ true }
    ensures { result ≡ line_allows clock n (line_at records.now i) }
{
    // Three returns: as one chain of `||` the proof didn't close, since where the tests join it is not known which one held.
    if !reading::is_prepared(records, i) {
        return true;
    }
    if reading::txid(records, i) != n {
        return true;
    }
    has_expired(clock, reading::clock(records, i))
}

// Whether a number has expired: every line prepared by it has, on the whole sheet. The first that hasn't ends the search.
// By line numbers: the lines lie as bytes, and there is no slice of them to iterate over.
fn number_expired(n: u32, clock: u32, records: &[u8]) -> bool
    requires { records_accepted records.now ≡ true }
    ensures { result ≡ number_expired clock (sheet.records records.now) n }
{
    let count = codec::records::count(records);
    for i in 0..count {
        if !line_allows(n, i, clock, records) {
            return false;
        }
    }
    true
}

// A line prepared by a number, by the number's decision. Undecided: expired, the visit comes again; otherwise the owner may still be at work. The number's
// lines are looked at there only.
fn pending(owner: Decision, n: u32, clock: u32, records: &[u8]) -> Recovery
    requires { records_accepted records.now ≡ true }
    ensures { result ≡ by_decision owner (if number_expired clock (sheet.records records.now) n then Again else Busy) Forward Back }
{
    match owner {
        Decision::Committed => Recovery::Forward,
        Decision::Aborted => Recovery::Back,
        Decision::Undecided => {
            if number_expired(n, clock, records) {
                Recovery::Again
            } else {
                Recovery::Busy
            }
        }
    }
}

// What a visit of line i comes to.
fn meet(i: usize, clock: u32, records: &[u8], decisions: &[u8]) -> Recovery
    requires { records_accepted records.now ≡ true }
    ensures { result ≡ meeting clock (sheets_of records.now decisions.now) (line_at records.now i) }
{
    if !reading::is_prepared(records, i) {
        return Recovery::Stays;
    }
    let n = reading::txid(records, i);
    let owner = coordinator::decision_at(decisions, n);
    pending(owner, n, clock, records)
}

// What the visit writes: that line alone, or the decision of its owner.
fn settle(v: Recovery, i: usize, records: &mut [u8], decisions: &mut [u8])
    requires standing { Standing records.old decisions.old i }
    requires pending { Pending v (line_at records.old i) }
    ensures { Written (recovery_write v (line_at records.old i)) records.old decisions.old records.new decisions.new }
{
    match v {
        Recovery::Stays | Recovery::Busy => {}
        Recovery::Forward => settling::roll_forward(records, i),
        Recovery::Back => settling::roll_back(records, i),
        Recovery::Again => {
            let owner = reading::txid(records, i);
            coordinator::set_decision(decisions, owner, Decision::Aborted);
        }
    }
}

// Visits line i; one that is busy stays as it is.
pub fn recover(i: usize, clock: u32, records: &mut [u8], decisions: &mut [u8]) -> Recovery
    requires { Standing records.old decisions.old i }
    ensures { Recovered clock i records.old decisions.old result records.new decisions.new }
{
    let v = meet(i, clock, records, decisions);
    settle(v, i, records, decisions);
    v
}

// What a second call sees of a record: the columns handed in, where they may be older or newer than the rest. An ABSENT record has none.
#[tactic(auto, unfolding(model::specs::Calls::seen_second))]
pub fn seen(lower: bool, columns: Columns, r: Record) -> Image
    ensures { result ≡ seen_second lower columns r }
{
    let image = r.image;
    if !lower || r.state == State::Absent {
        return image;
    }
    Image {
        column1: columns.column1,
        column2: columns.column2,
        ..image
    }
}
