// Runs a history of calls on two sheets from standard input and prints every answer, and all sheets where a line asks for them and at the end. docs/REPLAY.md has
// the form of a history.
#![tactic(auto)]

mod two;

use history::replay;
use script::{head, room};
use std::io::{Eprint, Print};
use two::Two;
use two_join::{BOOKKEEPING_BYTES, PLAIN_BYTES};
use types::COORDINATOR_BYTES;

// A history, whose first line says how long its sheets are; none where that is wrong, or the input too short for them.
fn history(rt: &(impl Print + Eprint), input: &mut [u8]) -> Option<()> {
    let [plain, bookkeeping, coordinator] = head::read::<3>(input)?;
    let (_, rest) = input.split_at_mut_checked(13)?;
    let (coordinator, rest) = rest.split_at_mut_checked((coordinator + 1) * COORDINATOR_BYTES)?;
    let (plain, rest) = rest.split_at_mut_checked(plain * PLAIN_BYTES)?;
    let (book, lines) = rest.split_at_mut_checked(bookkeeping * BOOKKEEPING_BYTES)?;
    let mut sheets = Two {
        plain,
        book,
        coordinator,
    };
    replay(rt, true, lines, &mut sheets);
    Some(())
}

fn main(rt: HostRuntime) {
    let mut input = room::blank_input();
    let n = streams::read(&rt, &mut input);
    if room::LONGEST < n || history(&rt, &mut input[..n]).is_none() {
        streams::write(&rt, b"bad input\n");
    }
}
