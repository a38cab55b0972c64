// What is printed for a line of a history.
use std::fmt;
use std::fmt::{Display, Formatter, Write};
use types::{Columns, Entry, Image, Key, Rank, Refusal, Transaction};

// The numbers of an entry, from its key to what was put.
pub const ENTRY_NUMBERS: usize = 13;

// A call that is refused has the number of its refusal; what else a line is answered by says what it did or read.
#[derive(Clone, Copy)]
pub enum Reply {
    BadLine,
    Refused(Refusal),
    Made,
    Begun(u32),
    Ranked(Rank),
    Advanced(Transaction),
    Closed(u32, Transaction),
    Absent,
    Columns(Columns),
    First(Columns),
    Again,
    Stays,
    Forward,
    Back,
    Shown(Transaction),
}

impl Display for Reply {
    fn fmt<W: Write>(&self, f: &mut Formatter<W>) -> fmt::Result {
        match *self {
            Reply::BadLine => f.write_str("bad line"),
            Reply::Refused(r) => write!(f, "refused {}", r as u32),
            Reply::Made => f.write_str("ok"),
            Reply::Begun(n) => write!(f, "ok {n}"),
            Reply::Ranked(r) => write!(f, "ok {} {}", r.below, r.present as u32),
            Reply::Advanced(t) => write!(f, "ok {} {} {}", t.phase, t.place, t.verdict),
            Reply::Closed(n, t) => write!(f, "ok {n} {} {} {}", t.phase, t.place, t.verdict),
            Reply::Absent => f.write_str("ok absent"),
            Reply::Columns(c) => write!(f, "ok columns {} {}", c.column1, c.column2),
            Reply::First(c) => write!(f, "ok first {} {}", c.column1, c.column2),
            Reply::Again => f.write_str("ok again"),
            Reply::Stays => f.write_str("ok stays"),
            Reply::Forward => f.write_str("ok forward"),
            Reply::Back => f.write_str("ok back"),
            Reply::Shown(t) => shown(f, &t),
        }
    }
}

// Six numbers of a transaction's own, and those of its first entries. A forged count may be any number.
fn shown<W: Write>(f: &mut Formatter<W>, t: &Transaction) -> fmt::Result {
    write!(
        f,
        "ok {} {} {} {} {} {}",
        t.number, t.serializable, t.phase, t.place, t.verdict, t.count
    )?;
    for e in t.entries.iter().take(t.count as usize) {
        shown_entry(f, e)?;
    }
    Ok(())
}

// The numbers of an entry, in the order of the line that sets one.
fn shown_entry<W: Write>(f: &mut Formatter<W>, e: &Entry) -> fmt::Result {
    let Key {
        storage,
        namespace,
        table,
        partition,
        clustering,
    } = e.key;
    write!(
        f,
        " {storage} {namespace} {table} {partition} {clustering} {}",
        e.absent
    )?;
    let Image {
        version,
        txid,
        column1,
        column2,
    } = e.seen;
    write!(f, " {version} {txid} {column1} {column2} {}", e.wrote)?;
    write!(f, " {} {}", e.put.column1, e.put.column2)
}
