// The lines after the head: their numbers in turn, any decision up to the issued count, and none above it.
// A line is compared as two numbers of eight bytes, the first byte weighing least: LF before it, its number's four columns and three bytes of its
// word; the other seven and LF.
ghost use Rattle.std.specs.Prelude.{◌≡◌, true, ◌+◌, ◌-◌, ◌*◌, ◌^◌, ◌<◌, ◌≤◌, length, take, drop, Some};
ghost use Rattle.model.specs.Layouts.{coordinator_bytes, line_end};
ghost use Rattle.decimal.specs.Field.{figure};
ghost use Rattle.coordinator_check.specs.Numbers.{gained, following};
ghost use Rattle.coordinator_check.specs.Lines.{Table, line_made};
ghost use Rattle.coordinator_check.specs.Passes.{lines_made, Ready};
ghost use Rattle.coordinator_check.specs.Sheet.{whole_lines, decisions_made};

use line_bytes::load;
use types::{COORDINATOR_BYTES, LINE_END};

// What a column gains that takes a carry: a space (32) becomes `1`, a digit the next one.
fn gain(column: u64) -> u64
    ensures value { result ≡ gained column }
    ensures upper_bound { result ≤ 17 }
{
    if column == 32 { 17 } else { 1 }
}

// The columns of the next number, from those of `number` as one number: the last, which weighs most, rises by one, or each `9` (57) at the end becomes
// `0` and the column before takes the carry. Counting them up spares a table of 999 entries.
fn next(number: u64) -> u64
    requires { number < 2 ^ 32 }
    ensures { result ≡ following number }
{
    if number < 0x3900_0000 {
        return number + 0x0100_0000;
    }
    let tens = number / 0x0001_0000 % 256;
    if tens != 57 {
        return number - 0x0900_0000 + gain(tens) * 0x0001_0000;
    }
    number - 0x0909_0000 + gain(number / 256 % 256) * 256
}

// The words `-`, COMMITTED and ABORTED as such numbers: LF before a line, zeros where its number stands and the first three bytes of the word; then the other
// seven and LF. A word that is loaded where it was just built stalls the processor.
const UNDECIDED_FRONT: u64 = 0x2020_2000_0000_000a;

const UNDECIDED_BACK: u64 = 0x0a2d_2020_2020_2020;

const COMMITTED_FRONT: u64 = 0x4f43_2000_0000_000a;

const COMMITTED_BACK: u64 = 0x0a44_4554_5449_4d4d;

const ABORTED_FRONT: u64 = 0x2020_2000_0000_000a;

const ABORTED_BACK: u64 = 0x0a44_4554_524f_4241;

// The words that a line may say up to the issued count: fronts and then backs, each at the index that the word's fifth byte tells: ` `, `M` and `B` leave 0, 1
// and 2 by 4, and no word's leaves 3.
const ANY_DECISION: [u64; 8] = [
    UNDECIDED_FRONT,
    COMMITTED_FRONT,
    ABORTED_FRONT,
    UNDECIDED_FRONT,
    UNDECIDED_BACK,
    COMMITTED_BACK,
    ABORTED_BACK,
    UNDECIDED_BACK,
];

// The same where no decision may stand.
const NO_DECISION: [u64; 8] = [
    UNDECIDED_FRONT,
    UNDECIDED_FRONT,
    UNDECIDED_FRONT,
    UNDECIDED_FRONT,
    UNDECIDED_BACK,
    UNDECIDED_BACK,
    UNDECIDED_BACK,
    UNDECIDED_BACK,
];

// Whether LF stands at `start`, and after it the line with these columns and a word of the table.
fn line_ok(sheet: &[u8], start: usize, number: u64, words: &[u64]) -> bool
    requires start_in_bounds { start + 16 ≤ length sheet.now }
    requires number_bound { number < 2 ^ 32 }
    requires table { Table words.now }
    ensures { result ≡ line_made number words.now (drop start sheet.now) }
{
    let last = load::<8>(sheet, start + 8);
    let i = (last / 256 % 4) as usize;
    (load::<8>(sheet, start) == number * 256 + words[i]) & (last == words[i + 4])
}

// Whether the lines after number `after` up to number `to` pass, where `before` is the columns of `after`. Without an exit, so that no branch
// depends on what a line says. It goes by an index: a line is taken with the LF before it, 16 bytes for each 15, which chunks of a line don't give.
fn lines_ok(sheet: &[u8], after: usize, to: usize, before: u64, words: &[u64]) -> bool
    requires ready { Ready sheet.now after to before }
    requires table { Table words.now }
    ensures { result ≡ lines_made words.now after (to - after) (drop (after * coordinator_bytes + line_end) sheet.now) }
{
    let mut good = true;
    let mut number = before;
    for k in after..to {
        number = next(number);
        good &= line_ok(sheet, k * COORDINATOR_BYTES + LINE_END, number, words);
    }
    good
}

// Whether the lines pass, where the head has the count `issued`. The head's own columns are those before the first line above the count.
pub fn decisions_ok(sheet: &[u8], issued: usize) -> bool
    requires whole { whole_lines (length sheet.now) ≡ true }
    requires counted { figure 0 999 (take 4 sheet.now) ≡ Some issued }
    ensures { result ≡ decisions_made issued sheet.now }
{
    let count = sheet.len() / COORDINATOR_BYTES - 1;
    if issued > count {
        return false;
    }
    let any = ANY_DECISION;
    let none = NO_DECISION;
    let low = lines_ok(sheet, 0, issued, load::<4>(b"   0", 0), &any);
    low & lines_ok(sheet, issued, count, load::<4>(sheet, 0), &none)
}
