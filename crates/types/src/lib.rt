// The structs and enums that code, contracts and theorems share. No logic, but for what a number stands for.
#![tactic(auto)]

ghost use Rattle.std.specs.Prelude.{◌≡◌};
ghost use Rattle.types.specs.Numbers.{state_of, before_of};

// The state word of a record line.
#[derive(Clone, Copy, PartialEq, Eq)]
pub enum State {
    Absent,
    Committed,
    Prepared,
}

// The state of its number.
impl From<u32> for State {
    ghost from_gives = { λ n s. s ≡ state_of n };

    fn from(n: u32) -> State {
        match n {
            0 => State::Absent,
            1 => State::Committed,
            _ => State::Prepared,
        }
    }
}

// The before state of a record line: the state word that its before image had. `-` is Nothing.
#[derive(Clone, Copy, PartialEq, Eq)]
pub enum Before {
    Nothing,
    Absent,
    Committed,
}

// The before state of its number.
impl From<u32> for Before {
    ghost from_gives = { λ n b. b ≡ before_of n };

    fn from(n: u32) -> Before {
        match n {
            0 => Before::Nothing,
            1 => Before::Absent,
            _ => Before::Committed,
        }
    }
}

// The state of a coordinator line; `-` is Undecided.
#[derive(Clone, Copy, PartialEq, Eq)]
pub enum Decision {
    Undecided,
    Committed,
    Aborted,
}

// The largest scope that a storage writes atomically (document 01: unit letters R, P, T, N, S).
#[derive(Clone, Copy, PartialEq, Eq)]
pub enum AtomicityUnit {
    Record,
    Partition,
    Table,
    Namespace,
    Storage,
}

#[repr(C)]
#[derive(Clone, Copy, PartialEq, Eq, PartialOrd, Ord)]
pub struct Key {
    pub storage: u32,
    pub namespace: u32,
    pub table: u32,
    pub partition: u32,
    pub clustering: u32,
}

pub const NO_KEY: Key = Key {
    storage: 0,
    namespace: 0,
    table: 0,
    partition: 0,
    clustering: 0,
};

// What a record holds: its columns, and the version and number of the transaction that wrote them.
#[repr(C)]
#[derive(Clone, Copy, PartialEq, Eq)]
pub struct Image {
    pub version: u32,
    pub txid: u32,
    pub column1: u32,
    pub column2: u32,
}

pub const NO_IMAGE: Image = Image {
    version: 0,
    txid: 0,
    column1: 0,
    column2: 0,
};

// A line of the record sheet. `prior` is document 02's before state, `before` document 01's before fields, `clock` its prepare clock.
#[derive(Clone, Copy)]
pub struct Record {
    pub key: Key,
    pub state: State,
    pub image: Image,
    pub prior: Before,
    pub before: Image,
    pub clock: u32,
}

// What the columns of a field hold: a figure, or one of a set of fixed words.
#[derive(Clone, Copy, PartialEq, Eq)]
pub enum Kind {
    Figure,
    StateWord,
    BeforeWord,
    DecisionWord,
    UnitLetter,
}

// A field of a line: its width in bytes, its kind and its range. A word counts by its index in its set, from 0.
#[derive(Clone, Copy)]
pub struct Column {
    pub width: usize,
    pub kind: Kind,
    pub low: u32,
    pub high: u32,
}

// Bytes of a record line and of a coordinator line, LF counted.
pub const RECORD_BYTES: usize = 108;

pub const COORDINATOR_BYTES: usize = 15;

// Bytes of the smallest coordinator sheet, a head and one line, and of the largest sheets: 500 record lines; a head and 999 coordinator lines.
pub const LEAST_COORDINATOR_BYTES: usize = COORDINATOR_BYTES * 2;

pub const MOST_RECORD_BYTES: usize = RECORD_BYTES * 500;

pub const MOST_COORDINATOR_BYTES: usize = COORDINATOR_BYTES * 1000;

// Where LF stands in a coordinator line.
pub const LINE_END: usize = COORDINATOR_BYTES - 1;

// Fields of a record line, and of a coordinator's head.
pub const RECORD_FIELDS: usize = 16;

pub const HEAD_FIELDS: usize = 10;

// Columns of a key's storage, of its namespace or table, and of its partition or clustering.
pub const STORAGE_BYTES: usize = 2;

pub const TABLE_BYTES: usize = 3;

pub const PARTITION_BYTES: usize = 6;

// Columns of a state word, a before state or a decision, of the number of a coordinator line, and of a record's version, TxID, column and clock.
pub const WORD_BYTES: usize = 10;

pub const NUMBER_BYTES: usize = 4;

pub const VERSION_BYTES: usize = 6;

pub const TXID_BYTES: usize = 4;

pub const COLUMN_BYTES: usize = 9;

pub const CLOCK_BYTES: usize = 11;

// Bytes of an image: version, TxID and both columns.
pub const IMAGE_BYTES: usize = VERSION_BYTES + TXID_BYTES + COLUMN_BYTES + COLUMN_BYTES;

// Where the fields of a record line begin: the key's, its state word, the image, the before state, the image before, the clock.
pub const NAMESPACE_AT: usize = STORAGE_BYTES;

pub const TABLE_AT: usize = NAMESPACE_AT + TABLE_BYTES;

pub const PARTITION_AT: usize = TABLE_AT + TABLE_BYTES;

pub const CLUSTERING_AT: usize = PARTITION_AT + PARTITION_BYTES;

pub const STATE_AT: usize = CLUSTERING_AT + PARTITION_BYTES;

pub const VERSION_AT: usize = STATE_AT + WORD_BYTES;

pub const TXID_AT: usize = VERSION_AT + VERSION_BYTES;

pub const COLUMN1_AT: usize = TXID_AT + TXID_BYTES;

pub const COLUMN2_AT: usize = COLUMN1_AT + COLUMN_BYTES;

pub const BEFORE_STATE_AT: usize = COLUMN2_AT + COLUMN_BYTES;

pub const BEFORE_AT: usize = BEFORE_STATE_AT + WORD_BYTES;

pub const BEFORE_TXID_AT: usize = BEFORE_AT + VERSION_BYTES;

pub const CLOCK_AT: usize = BEFORE_AT + IMAGE_BYTES;

// Where the decision of a coordinator line begins, behind its number.
pub const DECISION_AT: usize = NUMBER_BYTES;

// The kinds of line. A key line is the first five fields of a record line.
#[derive(Clone, Copy, PartialEq, Eq)]
pub enum Layout {
    RecordLine,
    KeyLine,
    CoordinatorHead,
    CoordinatorLine,
}

// Where a key stands on a sheet or would stand: how many lines have smaller keys, and whether the key has a line itself.
#[derive(Clone, Copy, PartialEq, Eq)]
pub struct Rank {
    pub below: usize,
    pub present: bool,
}

// The columns that a put brings, or a read answers.
#[repr(C)]
#[derive(Clone, Copy, PartialEq, Eq)]
pub struct Columns {
    pub column1: u32,
    pub column2: u32,
}

pub const NO_COLUMNS: Columns = Columns {
    column1: 0,
    column2: 0,
};

// A record that a transaction holds: what was read, whether it was absent (1 or 0), and what was put if `wrote` is 1.
#[repr(C)]
#[derive(Clone, Copy)]
pub struct Entry {
    pub key: Key,
    pub seen: Image,
    pub absent: u32,
    pub wrote: u32,
    pub put: Columns,
}

// A transaction as its client keeps it. Every field is a number, so that any bytes are a value. `serializable` (document 01: checked) is 0 or 1; phases
// are numbered from 0 in the order of the step table (open, prepare, validate, decide, withdraw, finish, undo, done; document 01 says check
// for validate); verdicts are 0 none, 1 committed, 2 aborted. Entries from `count` on mean nothing.
#[repr(C)]
#[derive(Clone, Copy)]
pub struct Transaction {
    pub number: u32,
    pub serializable: u32,
    pub phase: u32,
    pub place: u32,
    pub verdict: u32,
    pub count: u32,
    pub entries: [Entry; 8],
}

// What a visit comes to: the line stays, is rolled forward or back, its owner is aborted and the visit must come again, or the owner may still be at work.
#[derive(Clone, Copy, PartialEq, Eq)]
pub enum Recovery {
    Stays,
    Forward,
    Back,
    Again,
    Busy,
}

// What a read answers: First by the first of two calls, with the columns that the second takes.
#[derive(Clone, Copy)]
pub enum Reading {
    Absent,
    Value(Columns),
    Again,
    First(Columns),
}

// Why a call is refused, by the numbers of the table (document 01, "Numbered refusals").
#[derive(Clone, Copy, PartialEq, Eq)]
pub enum Refusal {
    BadRecords = 1,
    BadCoordinator,
    BadTransaction,
    WrongPhase,
    BadKey,
    NoSuchKey,
    BadColumns,
    NumbersSpent,
    EntriesSpent,
    NotHeld,
    VersionsSpent,
    Busy,
    SheetsDiffer,
    HasLine,
    NoSpare,
    NotBlank,
}

// What is asked of the engine, apart from the transaction and the sheets. A begin says whether the transaction is serializable; a number is the reading
// of the clock; a close has besides it the limit on its writes.
#[derive(Clone, Copy)]
pub enum Request {
    Begin(bool),
    Read(Key, u32),
    Second(Key, u32, Columns),
    Put(Key, Columns),
    Advance(u32),
    Abort,
    Visit(Key, u32),
    Close(u32, u32),
}
