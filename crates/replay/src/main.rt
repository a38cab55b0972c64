// Runs a history of calls from standard input and prints every answer, and both sheets where a line asks for them and at the end. docs/REPLAY.md has the form
// of a history.
#![tactic(auto)]

mod joined;

use history::replay;
use joined::Joined;
use script::{head, room};
use std::io::{Eprint, Print};
use types::{COORDINATOR_BYTES, RECORD_BYTES};

// A history, whose first line says how long its sheets are; none where that is wrong, or the input too short for them.
fn history(rt: &(impl Print + Eprint), input: &mut [u8]) -> Option<()> {
    let [records, coordinator] = head::read::<2>(input)?;
    let (_, rest) = input.split_at_mut_checked(9)?;
    let (coordinator, rest) = rest.split_at_mut_checked((coordinator + 1) * COORDINATOR_BYTES)?;
    let (records, lines) = rest.split_at_mut_checked(records * RECORD_BYTES)?;
    let mut sheets = Joined {
        records,
        coordinator,
    };
    replay(rt, false, lines, &mut sheets);
    Some(())
}

fn main(rt: HostRuntime) {
    let mut input = room::blank_input();
    let n = streams::read(&rt, &mut input);
    if room::LONGEST < n || history(&rt, &mut input[..n]).is_none() {
        streams::write(&rt, b"bad input\n");
    }
}
