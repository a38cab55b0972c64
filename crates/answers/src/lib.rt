// What the calls answer where they aren't refused, and each as the one function for every call answers it. A refused call answers its refusal alone: its transaction was
// passed by value, so that the client still has it as it was.
#![tactic(auto)]

ghost use Rattle.std.specs.Prelude.{◌≡◌};
ghost use Rattle.answers.specs.declared.Reply.TheVariants.{Nothing, Read as WasRead, Writes};

use types::{Reading, Recovery, Transaction};

// What a read answers: what was read, and the transaction as it now is.
#[derive(Clone, Copy)]
pub struct Read {
    pub value: Reading,
    pub transaction: Transaction,
}

// What a close answers: how many writes it made, and the transaction as it stands.
#[derive(Clone, Copy)]
pub struct Closed {
    pub writes: u32,
    pub transaction: Transaction,
}

// What any call says besides its transaction: what a read or a visit came to, or how many writes a close made.
#[derive(Clone, Copy)]
pub enum Reply {
    Nothing,
    Read(Reading),
    Visited(Recovery),
    Writes(u32),
}

// What any call answers: its reply, and the transaction that its client has then.
#[derive(Clone, Copy)]
pub struct Performed {
    pub reply: Reply,
    pub transaction: Transaction,
}

// Begin, put, advance and abort answer a transaction alone.
impl From<Transaction> for Performed {
    ghost from_gives = { λ t p. p ≡ record { reply = Nothing; transaction = t } };

    fn from(transaction: Transaction) -> Performed {
        Performed {
            reply: Reply::Nothing,
            transaction,
        }
    }
}

impl From<Read> for Performed {
    ghost from_gives = { λ r p. p ≡ record { reply = WasRead r.value; transaction = r.transaction } };

    fn from(read: Read) -> Performed {
        Performed {
            reply: Reply::Read(read.value),
            transaction: read.transaction,
        }
    }
}

impl From<Closed> for Performed {
    ghost from_gives = { λ c p. p ≡ record { reply = Writes c.writes; transaction = c.transaction } };

    fn from(closed: Closed) -> Performed {
        Performed {
            reply: Reply::Writes(closed.writes),
            transaction: closed.transaction,
        }
    }
}
