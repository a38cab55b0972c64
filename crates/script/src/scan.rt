// A line of a history, taken apart: the call that it names, and its numbers.
ghost use Rattle.std.specs.Prelude.{◌≡◌, ◌+◌, ◌≤◌, length, drop, find, position, eqb};
ghost use Rattle.script.specs.Lines.{kind_of, name, asks, named};
ghost use Rattle.script.specs.Lines.{no_numbers, with_word, with_words, words_after, called, said, up_to};
ghost use Rattle.script.specs.Lines as model;

use crate::reply::ENTRY_NUMBERS;

// The calls of a history; Sheets asks for all sheets, and BadLine is a line of another form. Second is for two sheets only.
#[derive(Clone, Copy, PartialEq, Eq)]
pub enum Kind {
    Check,
    Begin,
    Read,
    Second,
    Put,
    Advance,
    Close,
    Abort,
    Visit,
    Lookup,
    Line,
    Add,
    Remove,
    Show,
    Set,
    Entry,
    Sheets,
    BadLine,
}

// The longest line sets an entry: its slot, its place and its numbers.
pub const LINE_NUMBERS: usize = 2 + ENTRY_NUMBERS;

// A call and its numbers in the order of the line, zeros after the last.
#[derive(Clone, Copy)]
pub struct Command {
    pub kind: Kind,
    pub numbers: [u32; LINE_NUMBERS],
}

// The numbers read so far.
#[derive(Clone, Copy)]
struct Numbers {
    count: usize,
    values: [u32; LINE_NUMBERS],
}

// The first byte that is `mark`.
fn mark_in(s: &[u8], mark: u8) -> Option<usize>
    ensures { result ≡ position (λ b. eqb b mark) s.now }
{
    s.iter().position(|b| *b == mark)
}

// The first column from `at` on that has the byte `mark`, or the end.
fn end_of(s: &[u8], at: usize, mark: u8) -> usize
    requires { at ≤ length s.now }
    ensures within { (at ≤ result) × (result ≤ length s.now) }
    ensures column { result ≡ at + length (up_to mark (drop at s.now)) }
{
    let rest = &s[at..];
    at + mark_in(rest, mark).unwrap_or(rest.len())
}

// All that a first word may ask for.
const NAMED: [Kind; 17] = [
    Kind::Sheets,
    Kind::Second,
    Kind::Check,
    Kind::Visit,
    Kind::Lookup,
    Kind::Line,
    Kind::Add,
    Kind::Remove,
    Kind::Begin,
    Kind::Read,
    Kind::Put,
    Kind::Advance,
    Kind::Abort,
    Kind::Show,
    Kind::Set,
    Kind::Entry,
    Kind::Close,
];

// The word that asks for it; none asks for a bad line.
#[tactic(auto, unfolding(crate::specs::Lines::name, lists::specs::Bytes::bytes))]
fn name(kind: Kind) -> &'static [u8]
    ensures { result.now ≡ name kind }
{
    match kind {
        Kind::Check => b"check",
        Kind::Begin => b"begin",
        Kind::Read => b"read",
        Kind::Second => b"second",
        Kind::Put => b"put",
        Kind::Advance => b"advance",
        Kind::Close => b"close",
        Kind::Abort => b"abort",
        Kind::Visit => b"visit",
        Kind::Lookup => b"lookup",
        Kind::Line => b"line",
        Kind::Add => b"add",
        Kind::Remove => b"remove",
        Kind::Show => b"show",
        Kind::Set => b"set",
        Kind::Entry => b"entry",
        Kind::Sheets => b"sheets",
        Kind::BadLine => b"",
    }
}

// Whether the word asks for this; the second call of a read is there for two sheets only.
fn asks(two: bool, word: &[u8], kind: Kind) -> bool
    ensures { result ≡ asks two word.now kind }
{
    (two || kind != Kind::Second) && word == name(kind)
}

// What a line with this first word asks for.
#[tactic(auto, using(crate::specs::Lines::kind_of_named))]
fn kind_of(two: bool, word: &[u8]) -> Kind
    ensures { result ≡ kind_of two word.now }
{
    named(two, word).unwrap_or(Kind::BadLine)
}

// The first of all that the word asks for.
fn named(two: bool, word: &[u8]) -> Option<Kind>
    ensures { result ≡ find (asks two word.now) named }
{
    NAMED.iter().copied().find(|kind| asks(two, word, *kind))
}

// How many numbers a call has. Where there are two sheets, a look-up says which one's line it asks for.
fn arity(two: bool, kind: Kind) -> usize
    ensures { result ≡ model.arity two kind }
{
    match kind {
        Kind::Check | Kind::Sheets | Kind::BadLine => 0,
        Kind::Abort | Kind::Show => 1,
        Kind::Begin | Kind::Advance => 2,
        Kind::Close => 3,
        Kind::Lookup | Kind::Add | Kind::Remove => 5,
        Kind::Line if two => 6,
        Kind::Line => 5,
        Kind::Visit => 6,
        Kind::Read | Kind::Set => 7,
        Kind::Put => 8,
        Kind::Second => 9,
        Kind::Entry => LINE_NUMBERS,
    }
}

// The numbers with a word more. A word holds no space, so that what is read is a number in figures alone.
#[tactic(auto, unfolding(crate::specs::Lines::with_word))]
fn with_word(numbers: Numbers, word: &[u8]) -> Option<Numbers>
    ensures { result ≡ with_word numbers word.now }
{
    let Numbers { count, mut values } = numbers;
    if LINE_NUMBERS <= count {
        return None;
    }
    values[count] = decimal::read(word, 0, u32::MAX)?;
    Some(Numbers {
        count: count + 1,
        values,
    })
}

// The numbers of the words after the one that ends at `from`, each after a single space.
fn numbers_after(line: &[u8], from: usize) -> Option<Numbers>
    requires { from ≤ length line.now }
    ensures { result ≡ with_words no_numbers (words_after (drop from line.now)) }
{
    let mut numbers = Numbers {
        count: 0,
        values: [0; LINE_NUMBERS],
    };
    let mut at = from;
    while at < line.len() {
        let start = at + 1;
        at = end_of(line, start, b' ');
        numbers = with_word(numbers, &line[start..at])?;
    }
    Some(numbers)
}

// A call with its numbers, if it has so many.
fn called(two: bool, kind: Kind, numbers: Option<Numbers>) -> Command
    ensures { result ≡ called two kind numbers }
{
    match numbers {
        Some(n) if n.count == arity(two, kind) => {
            let numbers = n.values;
            Command { kind, numbers }
        }
        _ => Command {
            kind: Kind::BadLine,
            numbers: [0; LINE_NUMBERS],
        },
    }
}

// A line of a history on the joined sheet, or on two.
pub fn parse(two: bool, line: &[u8]) -> Command
    ensures { result ≡ said two line.now }
{
    let end = end_of(line, 0, b' ');
    let kind = kind_of(two, &line[..end]);
    let numbers = numbers_after(line, end);
    called(two, kind, numbers)
}
