// The sixteen transactions of a history, and what a line leaves of them. A line that asks for a call is performed on `taken`, and then `performed`;
// any other, but for a check, the look-up's companion, adding and removing, is `replied`.
ghost use Rattle.std.specs.Prelude.{◌≡◌, false, replicate, get_or, IfOk, IfErr};
ghost use Rattle.model.specs.Calls.{new_transaction};
ghost use Rattle.script.specs.declared.reply.Reply.TheVariants.{Refused};
ghost use Rattle.script_calls.specs.Asking.{taken_by};
ghost use Rattle.script_calls.specs.Replied.{answered, on_slot, replied, in_slot, left_on_slot, left_by};

use crate::{by_hand, calls};
use answers::Performed;
use script::reply::Reply;
use script::scan::{Command, Kind};
use types::{Refusal, Transaction};

// An unused slot is all zeros.
pub fn empty() -> [Transaction; 16]
    ensures { result ≡ replicate 16 (new_transaction 0 false) }
{
    let t = transactions::new_transaction(0, false);
    [t; 16]
}

// The transaction that a call is made on, that of the slot which its first number names. A visit names none: whichever it is handed comes back as it was.
pub fn taken(c: Command, slots: &[Transaction; 16]) -> Transaction
    ensures { result ≡ taken_by c.numbers slots.now }
{
    let n = c.numbers;
    let slot = n[0];
    if 16 <= slot {
        return transactions::new_transaction(0, false);
    }
    slots[slot as usize]
}

// A call that was performed: its slot holds the transaction that came back, and stays as it was where the call is refused.
pub fn performed(
    c: Command,
    slots: &mut [Transaction; 16],
    performed: Result<Performed, Refusal>,
) -> Reply
    ensures refused { IfErr performed (λ r. (result ≡ Refused r) × (slots.new ≡ slots.old)) }
    ensures ok { IfOk performed (λ p. (result ≡ answered c.kind p) × (slots.new ≡ in_slot (get_or c.numbers 0 0) p.transaction slots.old)) }
{
    match performed {
        Err(r) => Reply::Refused(r),
        Ok(p) => {
            let n = c.numbers;
            let slot = n[0];
            if slot < 16 {
                slots[slot as usize] = p.transaction;
            }
            calls::answered(c.kind, p)
        }
    }
}

// A line on a slot that makes no call.
fn on_slot(c: Command, slots: &mut [Transaction; 16]) -> Reply
    ensures reply { result ≡ on_slot c.kind c.numbers slots.old }
    ensures leaves { slots.new ≡ left_on_slot c.kind c.numbers slots.old }
{
    let n = c.numbers;
    let slot = n[0];
    if 16 <= slot {
        return Reply::BadLine;
    }
    by_hand::on_transaction(c.kind, n, &mut slots[slot as usize])
}

// A line that makes no call. For `sheets` the sheets alone are printed, and for `line` what is looked up.
pub fn replied(c: Command, slots: &mut [Transaction; 16]) -> Reply
    ensures reply { result ≡ replied c.kind c.numbers slots.old }
    ensures leaves { slots.new ≡ left_by c.kind c.numbers slots.old }
{
    match c.kind {
        Kind::Line | Kind::Sheets => Reply::Made,
        Kind::BadLine => Reply::BadLine,
        _ => on_slot(c, slots),
    }
}
