// Lines that show a transaction or set it by hand, without a call.
ghost use Rattle.std.specs.Prelude.{◌≡◌};
ghost use Rattle.script.specs.declared.reply.Reply.TheVariants.{Made};
ghost use Rattle.script.specs.declared.scan.Kind.TheVariants as kinds;
ghost use Rattle.script_calls.specs.Replied.{renumbered, by_hand, left};

use crate::calls;
use script::reply::Reply;
use script::scan::{Kind, LINE_NUMBERS};
use types::{Columns, Entry, Image, Transaction};

// The transaction gets other numbers and keeps its entries.
fn set(n: [u32; LINE_NUMBERS], t: &mut Transaction) -> Reply
    ensures reply { result ≡ Made }
    ensures leaves { t.new ≡ renumbered n t.old }
{
    t.number = n[1];
    t.serializable = n[2];
    t.phase = n[3];
    t.place = n[4];
    t.verdict = n[5];
    t.count = n[6];
    Reply::Made
}

// The transaction gets another entry at an index, of which there are eight.
fn entry(n: [u32; LINE_NUMBERS], t: &mut Transaction) -> Reply
    ensures reply { result ≡ by_hand kinds.Entry n t.old }
    ensures leaves { t.new ≡ left kinds.Entry n t.old }
{
    let index = n[1];
    if 7 < index {
        return Reply::BadLine;
    }
    t.entries[index as usize] = Entry {
        key: calls::key_at(n, 2),
        seen: Image {
            version: n[8],
            txid: n[9],
            column1: n[10],
            column2: n[11],
        },
        absent: n[7],
        wrote: n[12],
        put: calls::columns_at(n, 13),
    };
    Reply::Made
}

// A line on a slot's transaction that makes no call. A bad line leaves the transaction.
pub fn on_transaction(kind: Kind, n: [u32; LINE_NUMBERS], t: &mut Transaction) -> Reply
    ensures reply { result ≡ by_hand kind n t.old }
    ensures leaves { t.new ≡ left kind n t.old }
{
    match kind {
        Kind::Show => Reply::Shown(*t),
        Kind::Set => set(n, t),
        Kind::Entry => entry(n, t),
        _ => Reply::BadLine,
    }
}
