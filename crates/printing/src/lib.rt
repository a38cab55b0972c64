// The replies of a history as text for standard output, gathered in a buffer and written when that is full.
#![tactic(auto)]

ghost use Rattle.std.specs.Prelude.{◌≡◌, ◌≤◌};

use script::reply::Reply;
use std::fmt;
use std::fmt::Write;
use std::io::{Eprint, Print};

// The first `fill` bytes wait to be written.
#[derive(Drop)]
pub struct Output<'a, R> {
    rt: &'a R,
    bytes: [u8; 4096],
    pub fill: usize,
    ghost within: { fill ≤ 4096 },
}

impl<'a, R: Print + Eprint> Output<'a, R> {
    pub fn new(rt: &'a R) -> Self
        ensures { result.fill ≡ 0 }
    {
        Output {
            rt,
            bytes: [0; 4096],
            fill: 0,
        }
    }

    fn byte(&mut self, b: u8) {
        if self.fill == 4096 {
            self.flush();
        }
        self.bytes[self.fill] = b;
        self.fill += 1;
    }

    fn text(&mut self, s: &[u8]) {
        for b in s {
            self.byte(*b);
        }
    }

    // A reply as a line, with the part of the sheet that was asked for, without its LF; nothing for an empty part.
    pub fn line(&mut self, reply: Reply, part: &[u8]) {
        let _ = write!(self, "{reply}");
        if let [part @ .., _] = part {
            self.byte(b' ');
            self.text(part);
        }
        self.byte(b'\n');
    }

    // What waits is written.
    pub fn flush(&mut self)
        ensures { self.new.fill ≡ 0 }
    {
        let bytes = &self.bytes;
        streams::write(self.rt, &bytes[..self.fill]);
        self.fill = 0;
    }
}

impl<'a, R: Print + Eprint> Write for Output<'a, R> {
    fn write_str(&mut self, s: &str) -> fmt::Result {
        self.text(s.as_bytes());
        Ok(())
    }
}
