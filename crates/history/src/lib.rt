// A history of calls from its first line on, on whatever sheets it has: what each line asks is done, and every answer printed.
#![tactic(auto)]

ghost use Rattle.std.specs.Prelude.{◌≡◌, ℕ, List, Result};
ghost use Rattle.types.specs.declared.Key.{Key};
ghost use Rattle.types.specs.declared.Rank.{Rank};
ghost use Rattle.types.specs.declared.Refusal.{Refusal};
ghost use Rattle.types.specs.declared.Request.{Request};
ghost use Rattle.types.specs.declared.Transaction.{Transaction};
ghost use Rattle.answers.specs.declared.Performed.{Performed};
ghost use Rattle.script_calls.specs.Parts.{part_asked};

use answers::Performed;
use printing::Output;
use script::reply::Reply;
use script::scan;
use script::scan::{Command, Kind, LINE_NUMBERS};
use script_calls::{calls, slots};
use std::io::{Eprint, Print};
use types::{Key, Rank, Refusal, Request, Transaction};

// The sheets of a history, and the engine's calls on them.
pub trait Sheets {
    // The line that a look-up by these numbers hands back.
    ghost line: { Self → List ℕ → List ℕ };

    // What a check, the look-up's companion, adding, removing and a call answer on these sheets, and the sheets that they leave.
    ghost checked: { Self → Result (Unit {0}) Refusal → Type 0 };

    ghost told: { Self → Key → Result Rank Refusal → Type 0 };

    ghost added: { Self → Key → Result (Unit {0}) Refusal → Self → Type 0 };

    ghost removed: { Self → Key → Result (Unit {0}) Refusal → Self → Type 0 };

    ghost performed: { Self → Request → Transaction → Result Performed Refusal → Self → Type 0 };

    fn check(&self) -> Result<(), Refusal>
        ensures { checked self.now result };

    fn rank(&self, key: Key) -> Result<Rank, Refusal>
        ensures { told self.now key result };

    fn add(&mut self, key: Key) -> Result<(), Refusal>
        ensures { added self.old key result self.new };

    fn remove(&mut self, key: Key) -> Result<(), Refusal>
        ensures { removed self.old key result self.new };

    fn perform(&mut self, request: Request, t: Transaction) -> Result<Performed, Refusal>
        ensures { performed self.old request t result self.new };

    fn line(&self, n: [u32; LINE_NUMBERS]) -> &[u8]
        ensures { result.now ≡ line self.now n };

    // All of them, the coordinator sheet first.
    fn print<R: Print + Eprint>(&self, rt: &R);
}

// What is printed after the reply: the part of a sheet that the look-up hands back, and an empty part for a call that asks for none.
pub fn part<S: Sheets>(c: Command, sheets: &S) -> &[u8]
    ensures { result.now ≡ part_asked c (S.line sheets.now c.numbers) }
{
    if calls::asks_line(c.kind) {
        return sheets.line(c.numbers);
    }
    &[]
}

// A line that asks for a call on a transaction or a visit, or for none.
fn perform<S: Sheets>(c: Command, slots: &mut [Transaction; 16], sheets: &mut S) -> Reply {
    match calls::request(c) {
        Some(request) => {
            let t = slots::taken(c, slots);
            slots::performed(c, slots, sheets.perform(request, t))
        }
        None => slots::replied(c, slots),
    }
}

// What a line does, and its reply.
fn run<S: Sheets>(c: Command, slots: &mut [Transaction; 16], sheets: &mut S) -> Reply {
    let key = calls::key_at(c.numbers, 0);
    match c.kind {
        Kind::Check => calls::made(sheets.check()),
        Kind::Lookup => calls::rank(sheets.rank(key)),
        Kind::Add => calls::made(sheets.add(key)),
        Kind::Remove => calls::made(sheets.remove(key)),
        _ => perform(c, slots, sheets),
    }
}

// All sheets, which follow what was printed before.
fn print_sheets<S: Sheets, R: Print + Eprint>(sheets: &S, rt: &R, out: &mut Output<R>) {
    out.flush();
    streams::write(rt, b"sheets\n");
    sheets.print(rt);
}

// The answers to the calls, one a line, and the sheets that they leave.
pub fn replay<S: Sheets, R: Print + Eprint>(rt: &R, two: bool, lines: &[u8], sheets: &mut S) {
    let mut out = Output::new(rt);
    let mut slots = slots::empty();
    for line in lines.split_inclusive(|b| *b == b'\n') {
        let c = scan::parse(two, line.strip_suffix(b"\n").unwrap_or(line));
        let reply = run(c, &mut slots, sheets);
        match c.kind {
            Kind::Sheets => print_sheets(sheets, rt, &mut out),
            _ => out.line(reply, part(c, sheets)),
        }
    }
    print_sheets(sheets, rt, &mut out);
}
