// The visiting program: all of standard input, visited, to standard output.
#![tactic(auto)]

use types::MOST_RECORD_BYTES;

// Of an input that is longer than any which fits, one byte more is enough.
const MOST: usize = sweep::LONGEST + 1;

fn main(rt: HostRuntime) {
    let mut input = [0u8; MOST];
    let mut work = [0u8; MOST_RECORD_BYTES];
    let mut output = [0u8; sweep::MOST_OUTPUT];
    let n = streams::read(&rt, &mut input);
    let printed = sweep::run(&input[..n], &mut work, &mut output);
    streams::write(&rt, &output[..printed]);
}
