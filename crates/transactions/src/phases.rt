// The phases and verdicts of a transaction. It keeps them as numbers, so that any bytes from a C program are a value; here they have names.
ghost use Rattle.std.specs.Prelude.{◌≡◌};
ghost use Rattle.transactions.specs.Numbers.{Decodes};

// In the order of the step table (document 01 says check for validate).
#[derive(Clone, Copy, PartialEq, Eq)]
pub enum Phase {
    Open,
    Prepare,
    Validate,
    Decide,
    Withdraw,
    Finish,
    Undo,
    Done,
}

#[derive(Clone, Copy, PartialEq, Eq)]
pub enum Verdict {
    None,
    Committed,
    Aborted,
}

// A number that no phase has.
#[derive(Clone, Copy, PartialEq, Eq)]
pub struct NoPhase(pub u32);

impl TryFrom<u32> for Phase {
    type Error = NoPhase;

    ghost try_from_gives = { Decodes };

    fn try_from(number: u32) -> Result<Self, NoPhase> {
        match number {
            0 => Ok(Phase::Open),
            1 => Ok(Phase::Prepare),
            2 => Ok(Phase::Validate),
            3 => Ok(Phase::Decide),
            4 => Ok(Phase::Withdraw),
            5 => Ok(Phase::Finish),
            6 => Ok(Phase::Undo),
            7 => Ok(Phase::Done),
            _ => Err(NoPhase(number)),
        }
    }
}
