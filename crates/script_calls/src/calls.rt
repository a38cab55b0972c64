// What a line asks of the engine, and what is replied to what was performed.
ghost use Rattle.std.specs.Prelude.{◌≡◌, ◌+◌, ◌≤◌, OnOk, IfOk, IfErr};
ghost use Rattle.script.specs.Lines.{line_numbers};
ghost use Rattle.script.specs.declared.reply.Reply.TheVariants.{Made, Refused, Ranked};
ghost use Rattle.script_calls.specs.Parts.{key_from, columns_from, asks_line};
ghost use Rattle.script_calls.specs.Asking.{begun, on_slot, asked_for};
ghost use Rattle.script_calls.specs.Replied.{visited, reading, answered};

use answers::Performed;
use script::reply::Reply;
use script::scan::{Command, Kind, LINE_NUMBERS};
use types::{Columns, Key, Rank, Reading, Recovery, Refusal, Request};

// The key whose five numbers begin at `at`.
pub fn key_at(n: [u32; LINE_NUMBERS], at: usize) -> Key
    requires { at + 5 ≤ line_numbers }
    ensures { result ≡ key_from n at }
{
    Key {
        storage: n[at],
        namespace: n[at + 1],
        table: n[at + 2],
        partition: n[at + 3],
        clustering: n[at + 4],
    }
}

// The columns whose two numbers begin at `at`.
pub fn columns_at(n: [u32; LINE_NUMBERS], at: usize) -> Columns
    requires { at + 2 ≤ line_numbers }
    ensures { result ≡ columns_from n at }
{
    Columns {
        column1: n[at],
        column2: n[at + 1],
    }
}

// What is printed of a check, or of adding or removing a line.
pub fn made(done: Result<(), Refusal>) -> Reply
    ensures ok { OnOk done (result ≡ Made) }
    ensures refused { IfErr done (λ r. result ≡ Refused r) }
{
    match done {
        Ok(()) => Reply::Made,
        Err(r) => Reply::Refused(r),
    }
}

// What the look-up's companion tells.
pub fn rank(told: Result<Rank, Refusal>) -> Reply
    ensures ok { IfOk told (λ rank. result ≡ Ranked rank) }
    ensures refused { IfErr told (λ r. result ≡ Refused r) }
{
    match told {
        Ok(rank) => Reply::Ranked(rank),
        Err(r) => Reply::Refused(r),
    }
}

// Whether a part of a sheet is printed after the reply: the line that a look-up hands back.
pub fn asks_line(kind: Kind) -> bool
    ensures { result ≡ asks_line kind }
{
    matches!(kind, Kind::Line)
}

// A begin says 0 or 1 for checked.
fn begun(checked: u32) -> Option<Request>
    ensures { result ≡ begun checked }
{
    match checked {
        0 => Some(Request::Begin(false)),
        1 => Some(Request::Begin(true)),
        _ => None,
    }
}

// A call on a slot, which is one of sixteen.
fn on_slot(slot: u32, asked: Option<Request>) -> Option<Request>
    ensures { result ≡ on_slot slot asked }
{
    if slot < 16 { asked } else { None }
}

// The call that a line asks for, if it asks for one.
pub fn request(c: Command) -> Option<Request>
    ensures { result ≡ asked_for c.kind c.numbers }
{
    let n = c.numbers;
    match c.kind {
        Kind::Begin => on_slot(n[0], begun(n[1])),
        Kind::Read => on_slot(n[0], Some(Request::Read(key_at(n, 1), n[6]))),
        Kind::Second => on_slot(
            n[0],
            Some(Request::Second(key_at(n, 1), n[6], columns_at(n, 7))),
        ),
        Kind::Put => on_slot(n[0], Some(Request::Put(key_at(n, 1), columns_at(n, 6)))),
        Kind::Advance => on_slot(n[0], Some(Request::Advance(n[1]))),
        Kind::Close => on_slot(n[0], Some(Request::Close(n[1], n[2]))),
        Kind::Abort => on_slot(n[0], Some(Request::Abort)),
        Kind::Visit => Some(Request::Visit(key_at(n, 0), n[5])),
        _ => None,
    }
}

fn visited(came_to: Recovery) -> Reply
    ensures { result ≡ visited came_to }
{
    match came_to {
        Recovery::Stays => Reply::Stays,
        Recovery::Forward => Reply::Forward,
        Recovery::Back => Reply::Back,
        Recovery::Again | Recovery::Busy => Reply::Again,
    }
}

fn reading(value: Reading) -> Reply
    ensures { result ≡ reading value }
{
    match value {
        Reading::Absent => Reply::Absent,
        Reading::Value(columns) => Reply::Columns(columns),
        Reading::First(columns) => Reply::First(columns),
        Reading::Again => Reply::Again,
    }
}

// What is printed of a call that was performed.
pub fn answered(kind: Kind, performed: Performed) -> Reply
    ensures { result ≡ answered kind performed }
{
    let t = performed.transaction;
    match performed.reply {
        answers::Reply::Read(value) => reading(value),
        answers::Reply::Visited(came_to) => visited(came_to),
        answers::Reply::Writes(n) => Reply::Closed(n, t),
        answers::Reply::Nothing => match kind {
            Kind::Begin => Reply::Begun(t.number),
            Kind::Advance => Reply::Advanced(t),
            _ => Reply::Made,
        },
    }
}
