// The layouts as code: the columns of each kind of line, and the words of each kind. Statics, so that no table is laid out anew for what is asked of it.
ghost use Rattle.std.specs.Prelude.{◌≡◌, ◌≤◌, ◌-◌, take, drop};
ghost use Rattle.model.specs.Layouts.{layout, words, word_at};
ghost use Rattle.codec.specs.Words.{all_words};

use std::ops::Range;
use types::{
    CLOCK_BYTES, COLUMN_BYTES, Column, HEAD_FIELDS, Kind, Layout, NUMBER_BYTES, RECORD_FIELDS,
    TXID_BYTES, VERSION_BYTES, WORD_BYTES,
};

// Columns by their fields. A table's column is like a namespace's, a clustering's like a partition's, and before fields like the fields.
pub const STORAGE: Column = Column {
    width: 2,
    kind: Kind::Figure,
    low: 1,
    high: 9,
};

pub const NAMESPACE: Column = Column {
    width: 3,
    kind: Kind::Figure,
    low: 1,
    high: 99,
};

pub const PARTITION: Column = Column {
    width: 6,
    kind: Kind::Figure,
    low: 0,
    high: 99999,
};

const STATE: Column = Column {
    width: WORD_BYTES,
    kind: Kind::StateWord,
    low: 0,
    high: 2,
};

const BEFORE_STATE: Column = Column {
    width: WORD_BYTES,
    kind: Kind::BeforeWord,
    low: 0,
    high: 2,
};

const VERSION: Column = Column {
    width: VERSION_BYTES,
    kind: Kind::Figure,
    low: 0,
    high: 99999,
};

const TXID: Column = Column {
    width: TXID_BYTES,
    kind: Kind::Figure,
    low: 0,
    high: 999,
};

const AMOUNT: Column = Column {
    width: COLUMN_BYTES,
    kind: Kind::Figure,
    low: 0,
    high: 99999999,
};

const CLOCK: Column = Column {
    width: CLOCK_BYTES,
    kind: Kind::Figure,
    low: 0,
    high: 4294967295,
};

const ISSUED: Column = Column {
    width: NUMBER_BYTES,
    kind: Kind::Figure,
    low: 0,
    high: 999,
};

const FIRST_UNIT: Column = Column {
    width: 2,
    kind: Kind::UnitLetter,
    low: 0,
    high: 9,
};

const UNIT: Column = Column {
    width: 1,
    kind: Kind::UnitLetter,
    low: 0,
    high: 9,
};

const NUMBER: Column = Column {
    width: NUMBER_BYTES,
    kind: Kind::Figure,
    low: 1,
    high: 999,
};

const DECISION: Column = Column {
    width: WORD_BYTES,
    kind: Kind::DecisionWord,
    low: 0,
    high: 2,
};

// The columns of a record line: its key, its state, its image, its before state, the image before and the clock.
static RECORD_LINE: [Column; RECORD_FIELDS] = [
    STORAGE,
    NAMESPACE,
    NAMESPACE,
    PARTITION,
    PARTITION,
    STATE,
    VERSION,
    TXID,
    AMOUNT,
    AMOUNT,
    BEFORE_STATE,
    VERSION,
    TXID,
    AMOUNT,
    AMOUNT,
    CLOCK,
];

// The columns of a key line, the first five of a record line.
static KEY_LINE: [Column; 5] = [STORAGE, NAMESPACE, NAMESPACE, PARTITION, PARTITION];

// The columns of the coordinator's head: the first unit letter has the space before it.
static COORDINATOR_HEAD: [Column; HEAD_FIELDS] = [
    ISSUED, FIRST_UNIT, UNIT, UNIT, UNIT, UNIT, UNIT, UNIT, UNIT, UNIT,
];

// The columns of a coordinator line.
static COORDINATOR_LINE: [Column; 2] = [NUMBER, DECISION];

// The words of all kinds one after another, right-justified in ten bytes: of a state, of a before state, of a decision and of a unit.
static WORDS: [[u8; WORD_BYTES]; 19] = [
    *b"    ABSENT",
    *b" COMMITTED",
    *b"  PREPARED",
    *b"         -",
    *b"    ABSENT",
    *b" COMMITTED",
    *b"         -",
    *b" COMMITTED",
    *b"   ABORTED",
    *b"         R",
    *b"         P",
    *b"         T",
    *b"         N",
    *b"         S",
    *b"         r",
    *b"         p",
    *b"         t",
    *b"         n",
    *b"         s",
];

const BLANK: [u8; WORD_BYTES] = [b' '; WORD_BYTES];

// The columns of a kind of line.
pub fn columns(l: Layout) -> &'static [Column]
    ensures { result.now ≡ layout l }
{
    match l {
        Layout::RecordLine => &RECORD_LINE,
        Layout::KeyLine => &KEY_LINE,
        Layout::CoordinatorHead => &COORDINATOR_HEAD,
        Layout::CoordinatorLine => &COORDINATOR_LINE,
    }
}

// Where the words of a kind stand among all. Numbers and no references: a table of these would be data, which has to be changed where the library is loaded.
fn place(kind: Kind) -> Range<usize>
    ensures in_order { result.start ≤ result.end }
    ensures within { result.end ≤ 19 }
    ensures words { take (result.end - result.start) (drop result.start all_words) ≡ words kind }
{
    match kind {
        Kind::Figure => 0..0,
        Kind::StateWord => 0..3,
        Kind::BeforeWord => 3..6,
        Kind::DecisionWord => 6..9,
        Kind::UnitLetter => 9..19,
    }
}

// The words of a kind.
pub fn words(kind: Kind) -> &'static [[u8; WORD_BYTES]]
    ensures { result.now ≡ words kind }
{
    &WORDS[place(kind)]
}

// Word n of a kind in ten bytes, blank where there is none.
pub fn word(kind: Kind, n: u32) -> [u8; WORD_BYTES]
    ensures { result ≡ word_at kind n }
{
    match words(kind).get(n as usize) {
        Some(word) => *word,
        None => BLANK,
    }
}
