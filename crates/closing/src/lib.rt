// Steps of a transaction one after another on two lent sheets, up to done or to a step that would write beyond a limit.
#![tactic(auto)]

ghost use Rattle.closing.specs.Running.{Sure, Turned, Closed};

pub mod writes;

use held_lines::Located;
use transactions::phases::Phase;
use types::Transaction;

// Turns enough for every order: one from open, one for each group in prepare and in finish, one for each entry in check, one to decide.
const MOST_STEPS: usize = 18;

// A close under way: the transaction as it stands, how many more writes the limit allows, and how many were made.
#[derive(Clone, Copy)]
pub struct Ran {
    pub transaction: Transaction,
    pub left: u32,
    pub writes: u32,
}

// One turn: a step, counted if it writes, or nothing where the close stops. A step that writes nothing is made whatever the limit.
fn turn(x: Ran, located: Located, clock: u32, records: &mut [u8], coordinator: &mut [u8]) -> Ran
    requires { Sure x records.old coordinator.old located }
    ensures { Turned clock x records.old coordinator.old result records.new coordinator.new located }
{
    if x.transaction.phase == Phase::Done as u32 {
        return x;
    }
    let t = x.transaction;
    if !writes::writes(t, located, records, coordinator) {
        let next = steps::step(t, located, clock, records, coordinator);
        return Ran {
            transaction: next,
            left: x.left,
            writes: x.writes,
        };
    }
    if x.left == 0 {
        return x;
    }
    let next = steps::step(t, located, clock, records, coordinator);
    Ran {
        transaction: next,
        left: x.left - 1,
        writes: x.writes + 1,
    }
}

// All turns, at one clock reading: as many as any order needs, where one past the end changes nothing. What was found once of the entries holds for every turn,
// since no step moves a line or changes a put.
pub fn run(
    t: Transaction,
    located: Located,
    clock: u32,
    limit: u32,
    records: &mut [u8],
    coordinator: &mut [u8],
) -> Ran
    requires { Sure (record { transaction = t; left = limit; writes = 0 }) records.old coordinator.old located }
    ensures { Closed clock t limit records.old coordinator.old result records.new coordinator.new }
{
    let mut x = Ran {
        transaction: t,
        left: limit,
        writes: 0,
    };
    for i in 0..MOST_STEPS {
        x = turn(x, located, clock, records, coordinator);
    }
    x
}
