// Prints what the companion of the close gives for 1 to 8 puts: both sheets, and what the close of its transaction on them reports.
#![tactic(auto)]

use std::io::{Eprint, Print};
use types::{LEAST_COORDINATOR_BYTES, RECORD_BYTES, Refusal};

// Lines for the most puts that a transaction has.
const MOST_BYTES: usize = RECORD_BYTES * 8;

// A limit that closes every order.
const LIMIT: u32 = 17;

// A word, a space and a number.
fn told(rt: &(impl Print + Eprint), word: &[u8], v: u32) {
    let mut digits = [0u8; 20];
    let k = io::decimal(u64::from(v), &mut digits);
    streams::write(rt, word);
    streams::write(rt, b" ");
    streams::write(rt, &digits[..k]);
}

// What the companion gives over both targets, and what is told of the close. Neither is refused: the companion is asked for 1 to 8 puts, and gives what a close takes.
fn close(
    rt: &(impl Print + Eprint),
    count: u32,
    records: &mut [u8],
    coordinator: &mut [u8],
) -> Result<(), Refusal> {
    let t = greatest::greatest(count, records, coordinator)?;
    told(rt, b"puts", count);
    streams::write(rt, b"\n");
    streams::write(rt, coordinator);
    streams::write(rt, records);
    let closed = engine::close(t, 0, LIMIT, records, coordinator)?;
    told(rt, b"writes", closed.writes);
    told(rt, b" phase", closed.transaction.phase);
    told(rt, b" verdict", closed.transaction.verdict);
    streams::write(rt, b"\n");
    Ok(())
}

fn main(rt: HostRuntime) {
    for count in 1..=8u32 {
        let mut records = [0u8; MOST_BYTES];
        let mut coordinator = [0u8; LEAST_COORDINATOR_BYTES];
        let size = count as usize * RECORD_BYTES;
        let _ = close(&rt, count, &mut records[..size], &mut coordinator);
    }
}
