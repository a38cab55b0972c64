// Standard input and output of the programs. What fails is told on standard error, since the programs give no exit status.
#![tactic(auto)]

ghost use Rattle.io.specs.Counts.{IsPrefixLen};

use std::io::{Eprint, Input, Print, Read};

// Reads all of standard input that fits, and answers how many bytes it put at the start of `input`: none where a read failed, since a part of an input must
// not be taken for the whole.
pub fn read(rt: &(impl Input + Eprint), input: &mut [u8]) -> usize
    ensures { IsPrefixLen result input.new }
{
    let mut reader = rt.reader();
    let mut done = 0;
    while done < input.len() {
        match reader.read(&mut input[done..]) {
            Ok(0) => break,
            Ok(more) => done += more,
            Err(_) => {
                // Where that can't be told either, nothing is left to do.
                let _ = rt.eprintln("standard input could not be read");
                return 0;
            }
        }
    }
    done
}

// Writes all of the text to standard output.
pub fn write(rt: &(impl Print + Eprint), text: &[u8]) {
    if rt.write_all(text).is_err() {
        let _ = rt.eprintln("standard output could not be written");
    }
}
