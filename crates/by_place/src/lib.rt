// What C asks of a call by place and is answered, as numbers: whether a list, a place and a call are named, what the number of a call asks, and an answer as one
// number.
#![tactic(auto)]

ghost use Rattle.std.specs.Prelude.{◌≡◌, ◌+◌, ◌≤◌};
ghost use Rattle.model.specs.Refusals.{refusal_number, refused_with};
ghost use Rattle.answers.specs.Answers.{reply_number, number_in};
ghost use Rattle.model.specs.Told.{ranked_by};
ghost use Rattle.model.specs.CallByPlace.{listed};
ghost use Rattle.by_place.specs.Numbers.{unlisted_number};
ghost use Rattle.by_place.specs.Ranks.{one_if, line_number, rank_number, rank_target};
ghost use Rattle.by_place.specs.Asked.{request_of, calls, calls_two, naming};
ghost use Rattle.by_place.specs.TwoNumbers.{number_in_two, unlisted_number_two};
ghost use Rattle.two_check.specs.Areas.{two};

use answers::Reply;
use types::{Columns, Key, Rank, Reading, Recovery, Refusal, Request};

// How many calls there are by place, and on two sheets, where a read may take two. Each has its number in `request`.
const CALLS: u32 = 7;

const CALLS_TWO: u32 = 8;

// The answer where the list is over 16, or has no such place, or there is no such call.
const UNLISTED: u32 = 1003;

// A refusal itself, or 0: what C is answered by a call that has nothing else to say.
pub fn refusal(told: Result<(), Refusal>) -> u32
    ensures { result ≡ refused_with told }
{
    match told {
        Ok(()) => 0,
        Err(refusal) => refusal as u32,
    }
}

// A refusal as one number, beside what accepted calls answer.
pub fn refused(refusal: Refusal) -> u32
    ensures { result ≡ 1000 + refusal_number refusal }
{
    1000 + refusal as u32
}

// What a visit came to: 0 stays, 1 forward, 2 back, 3 again. A busy line is refused, and has no number of its own.
pub fn recovery_number(v: Recovery) -> u32
    ensures { result ≡ reply_number v }
{
    match v {
        Recovery::Stays | Recovery::Busy => 0,
        Recovery::Forward => 1,
        Recovery::Back => 2,
        Recovery::Again => 3,
    }
}

// What a call replies: of a read 0 absent, 1 columns, 2 again, 3 a first call; how many writes a close made; else 0.
pub fn number(reply: Reply) -> u32
    ensures { result ≡ number_in reply }
{
    match reply {
        Reply::Nothing => 0,
        Reply::Read(Reading::Absent) => 0,
        Reply::Read(Reading::Value(_)) => 1,
        Reply::Read(Reading::Again) => 2,
        Reply::Read(Reading::First(_)) => 3,
        Reply::Visited(v) => recovery_number(v),
        Reply::Writes(n) => n,
    }
}

// What a call on two sheets replies: of a read's first call the columns, 10000 and more.
pub fn number_two(reply: Reply) -> u64
    ensures { result ≡ number_in_two reply }
{
    match reply {
        Reply::Read(Reading::First(c)) => {
            10000 + (c.column1 as u64 * 100000000 + c.column2 as u64)
        }
        _ => number(reply) as u64,
    }
}

// The index of the line of a key as one number, or 1000 + the refusal.
pub fn line_number(told: Result<Rank, Refusal>) -> u32
    requires { (ranked_by told).rank.below ≤ 500 }
    ensures { result ≡ line_number (ranked_by told) }
{
    match told {
        Ok(rank) => rank.below as u32,
        Err(refusal) => refused(refusal),
    }
}

// Where a key stands, in a lent target of two numbers.
pub fn tell_rank(told: Result<Rank, Refusal>, target: &mut [u32]) -> u32
    requires { (ranked_by told).rank.below ≤ 500 }
    ensures answer { result ≡ rank_number target.old (ranked_by told) }
    ensures target { target.new ≡ rank_target target.old (ranked_by told) }
{
    if target.len() != 2 {
        return 1001;
    }
    match told {
        Ok(rank) => {
            target[0] = rank.below as u32;
            target[1] = one_if(rank.present);
            0
        }
        Err(refusal) => refused(refusal),
    }
}

fn one_if(present: bool) -> u32
    ensures { result ≡ one_if present }
{
    u32::from(present)
}

// Whether a list of this length is not over 16 and has the place.
pub fn is_listed(length: usize, place: usize) -> bool
    ensures { result ≡ listed length place }
{
    length <= 16 && place < length
}

// Whether the place is listed, and the number is that of a call.
pub fn is_named(length: usize, place: usize, call: u32) -> bool
    ensures { result ≡ naming calls length place call }
{
    is_listed(length, place) & (call < CALLS)
}

pub fn is_named_two(length: usize, place: usize, call: u32) -> bool
    ensures { result ≡ naming calls_two length place call }
{
    is_listed(length, place) & (call < CALLS_TWO)
}

// What the number of a call asks, of the numbers that come with it. Past the last, which `is_named` lets nobody ask, it is an abort: the calls are numbers since C sends
// them so, and the clause of this function, which could never fail, has the abort.
pub fn request(call: u32, key: Key, columns: Columns, clock: u32, limit: u32) -> Request
    ensures { result ≡ request_of call key columns clock limit }
{
    match call {
        0 => Request::Begin(false),
        1 => Request::Begin(true),
        2 => Request::Read(key, clock),
        3 => Request::Put(key, columns),
        4 => Request::Advance(clock),
        5 => Request::Abort,
        6 => Request::Close(clock, limit),
        7 => Request::Second(key, clock, columns),
        _ => Request::Abort,
    }
}

// The answer where the list is over 16, or there is no such place or no such call: the sheets come first. They are lent as the caller has them, and stay.
pub fn unlisted(records: &mut [u8], coordinator: &mut [u8]) -> u32
    ensures answer { result ≡ unlisted_number records.old coordinator.old }
    ensures lines { records.new ≡ records.old }
    ensures decisions { coordinator.new ≡ coordinator.old }
{
    match sheets::check::check(records, coordinator) {
        Ok(()) => UNLISTED,
        Err(refusal) => refused(refusal),
    }
}

pub fn unlisted_two(plain: &mut [u8], book: &mut [u8], coordinator: &mut [u8]) -> u64
    ensures answer { result ≡ unlisted_number_two (two plain.old book.old coordinator.old) }
    ensures plain { plain.new ≡ plain.old }
    ensures bookkeeping { book.new ≡ book.old }
    ensures decisions { coordinator.new ≡ coordinator.old }
{
    match two_engine::check(plain, book, coordinator) {
        Ok(()) => UNLISTED as u64,
        Err(refusal) => refused(refusal) as u64,
    }
}
