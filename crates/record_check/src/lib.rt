// The fast check of a record sheet: each line's two words compared with those of its kind, the line by a pass over the kind's tables, and the keys of
// neighbours as bytes.
#![tactic(auto)]

ghost use Rattle.std.specs.Prelude.{◌≡◌, true, ◌+◌, ◌-◌, ◌*◌, ◌<◌, ◌≤◌, length, drop};
ghost use Rattle.model.specs.Layouts.{record_bytes};
ghost use Rattle.model.specs.Records.{records_accepted};
ghost use Rattle.model.specs.Spares.{sized, filled_lines, sheet_accepted};
ghost use Rattle.line_bytes.specs.Parts.{parts_ok};
ghost use Rattle.record_check.specs.States.{kinds, kind_at, kind_parts, asked};
ghost use Rattle.record_check.specs.Relations.{highest_clock, follows};
ghost use Rattle.record_check.specs.Asked.{zero_up_to, zeros_agree};
ghost use Rattle.record_check.specs.Line.{line_good, kind_of, words_held};
ghost use Rattle.record_check.specs.Sheet.{key_before, lines_pass};
ghost use Rattle.record_check.specs.Tables.{row_bytes, tables, part_stands};

use types::{
    BEFORE_AT, BEFORE_STATE_AT, CLOCK_AT, RECORD_BYTES, STATE_AT, TXID_BYTES, VERSION_AT,
    VERSION_BYTES,
};

// The kinds of line: ABSENT, COMMITTED, PREPARED over ABSENT and PREPARED over COMMITTED. Each is a row of `kinds` (specs/States.antt), of which its tables
// are computed, and has a number in `kind`.
const KINDS: usize = 4;

// The kind whose own image is an absence, the first kind with an image before it, and the first of those over COMMITTED: by a kind's number it is known what
// is asked of it besides its tables. They stay numbers: a kind is counted and finds its tables by a product, and an enum would have to be made of the count by
// a choice and be turned back into a number.
const ABSENT: usize = 0;

const FOLLOWING: usize = 2;

const OVER_COMMITTED: usize = 3;

// The first eight bytes of the words COMMITTED and PREPARED, each as one number.
const COMMITTED_FRONT: u64 = 0x5454_494d_4d4f_4320;

const PREPARED_FRONT: u64 = 0x5241_5045_5250_2020;

// The column of a before state where COMMITTED has an M, and the other words a space.
const BEFORE_MARK: usize = BEFORE_STATE_AT + 3;

// The last column of before version, and the clock's second column.
const BEFORE_LAST: usize = BEFORE_AT + VERSION_BYTES - 1;

const CLOCK_HEAD: usize = CLOCK_AT + 1;

// Bytes of a row of the tables, one for each column of a line but LF, and of the three rows of a kind.
const ROW: usize = RECORD_BYTES - 1;

const TABLE: usize = 3 * ROW;

// A pass goes by 16 bytes at once, and by single bytes over what is left, which takes longer than all the rest. So it goes over a row in two parts, the 96
// columns after the first and the last 16, and judges six of them twice.
const FRONT: usize = 97;

const BACK: usize = ROW - 17;

// The tables of each kind of line, in three rows: for each column but LF the lowest byte, which may not follow a space, the highest, and one
// more that may follow a space. A fixed byte is all three, so zeros and blank columns are judged in the same pass as the figures, and the kind's two
// words stand in each row.
const TABLES: [u8; KINDS * TABLE] = *b"\
\x200 00 00 00000 00000    ABSENT 00000 000        0        0         -     0   0        0        0          0\
\x209 99 99 99999 99999    ABSENT 99999 999        0        0         -     0   0        0        0          0\
\x209  9  9     0     0    ABSENT     0   0        0        0         -     0   0        0        0          0\
\x200 00 00 00000 00000 COMMITTED 00000 000 00000000 00000000         -     0   0        0        0          0\
\x209 99 99 99999 99999 COMMITTED 99999 999 99999999 99999999         -     0   0        0        0          0\
\x209  9  9     0     0 COMMITTED     9   0        0        0         -     0   0        0        0          0\
\x200 00 00 00000 00000  PREPARED 00000 000 00000000 00000000    ABSENT 00000 000        0        0 0000000000\
\x209 99 99 99999 99999  PREPARED 99999 999 99999999 99999999    ABSENT 99999 999        0        0 9999999999\
\x209  9  9     0     0  PREPARED     0   9        0        0    ABSENT     0   0        0        0          0\
\x200 00 00 00000 00000  PREPARED 00000 000 00000000 00000000 COMMITTED 00000 000 00000000 00000000 0000000000\
\x209 99 99 99999 99999  PREPARED 99999 999 99999999 99999999 COMMITTED 99999 999 99999999 99999999 9999999999\
\x209  9  9     0     0  PREPARED     0   9        0        0 COMMITTED     9   0        0        0          0";

// The number of the line's kind, if it is good: the first eight bytes of its state word tell the words apart, and one byte of its before state. It is
// counted, so that the tables are found without a branch on what the line says. A line with any other two words gets the number of a kind that has not both
// of them.
fn kind(line: &[u8]) -> usize
    requires { length line.now ≡ record_bytes }
    ensures value { result ≡ kind_of line.now }
    ensures upper_bound { result < length kinds }
{
    let front = line_bytes::load::<8>(line, STATE_AT);
    let committed = usize::from(front == COMMITTED_FRONT);
    let prepared = usize::from(front == PREPARED_FRONT);
    let over_committed = usize::from(line[BEFORE_MARK] == b'M');
    committed + prepared * 2 + over_committed
}

// Whether the ten bytes of the line's state word and those of its before state are the words of its kind. They stand in the kind's tables.
#[tactic(auto, unfolding(crate::specs::States::kinds))]
fn words_equal(line: &[u8], lent: &[u8], kind: usize) -> bool
    requires line_len { length line.now ≡ record_bytes }
    requires lent_tables { lent.now ≡ tables }
    requires known_kind { kind < length kinds }
    ensures { result ≡ words_held kind line.now }
{
    let at = kind * TABLE;
    let state = line_bytes::ten_equal(line, STATE_AT, lent, at + STATE_AT);
    let before = line_bytes::ten_equal(line, BEFORE_STATE_AT, lent, at + BEFORE_STATE_AT);
    state & before
}

// Whether each byte of the line after `from` and before `end` may stand in its column by the tables of its kind.
#[tactic(auto, unfolding(crate::specs::States::kinds))]
fn part_stands(line: &[u8], lent: &[u8], kind: usize, from: usize, end: usize) -> bool
    requires line_len { length line.now ≡ record_bytes }
    requires lent_tables { lent.now ≡ tables }
    requires known_kind { kind < length kinds }
    requires from_le_end { from ≤ end }
    requires end_le_row_bytes { end ≤ row_bytes }
    ensures { result ≡ part_stands kind from (end - from) line.now }
{
    let low = kind * TABLE;
    let high = low + ROW;
    let also = high + ROW;
    line_bytes::line_ok(
        &line[from..end],
        &lent[low + from..low + end],
        &lent[high + from..high + end],
        &lent[also + from..also + end],
    )
}

// Whether each byte of the line may stand in its column by the tables of its kind.
fn stands(line: &[u8], lent: &[u8], kind: usize) -> bool
    requires line_len { length line.now ≡ record_bytes }
    requires lent_tables { lent.now ≡ tables }
    requires known_kind { kind < length kinds }
    ensures { result ≡ parts_ok (kind_parts (kind_at kind)) line.now }
{
    if !part_stands(line, lent, kind, 0, FRONT) {
        return false;
    }
    if !part_stands(line, lent, kind, BACK, ROW) {
        return false;
    }
    (line[0] == b' ') & (line[ROW] == b'\n')
}

// Whether version = before version + 1 in a line that stands by its tables. Unless before version ends in 9, only the last byte differs, by one.
fn version_follows(line: &[u8]) -> bool
    requires { length line.now ≡ record_bytes }
    ensures { result ≡ follows line.now }
{
    if line[BEFORE_LAST] == b'9' {
        return line_bytes::figure(line, VERSION_AT, VERSION_BYTES)
            == line_bytes::figure(line, BEFORE_AT, VERSION_BYTES) + 1;
    }
    line_bytes::load::<6>(line, VERSION_AT)
        == line_bytes::load::<6>(line, BEFORE_AT) + 0x0100_0000_0000
}

// Whether the figure whose columns end before byte `end` is 0: it ends in ` 0` then, and no other does.
fn is_zero(line: &[u8], end: usize) -> bool
    requires le_end { 2 ≤ end }
    requires end_in_bounds { end ≤ length line.now }
    ensures { result ≡ zero_up_to end line.now }
{
    line_bytes::load::<2>(line, end - 2) == 0x3020
}

// Whether version and TxID of the image at `at` are both 0, or neither is, in a line that stands by its tables.
fn zeros_agree(line: &[u8], at: usize) -> bool
    requires { at + 10 ≤ length line.now }
    ensures { result ≡ zeros_agree at line.now }
{
    let version = is_zero(line, at + VERSION_BYTES);
    let txid = is_zero(line, at + VERSION_BYTES + TXID_BYTES);
    version == txid
}

// Whether a line that stands by its tables keeps the relations that its kind asks for: its version follows the one before it, and the image of an absence
// has both version and TxID or neither. Zeros are compared in each line, since that takes less than another branch by kinds that come in any order.
fn related(line: &[u8], kind: usize) -> bool
    requires line_len { length line.now ≡ record_bytes }
    requires known_kind { kind < length kinds }
    ensures { result ≡ asked kind line.now }
{
    if kind < FOLLOWING {
        return (kind != ABSENT) | zeros_agree(line, VERSION_AT);
    }
    version_follows(line) & ((OVER_COMMITTED <= kind) | zeros_agree(line, BEFORE_AT))
}

// Whether the line can be read and its record is good alone. Its words are compared with those of its kind, so that a line without such words is refused.
// The tables say all else but the relations that the kind asks for, and that the clock is at most 4294967295. The end of the line, LF included, orders as the
// clock does.
fn line_good(line: &[u8], lent: &[u8], highest: &[u8]) -> bool
    requires line_len { length line.now ≡ record_bytes }
    requires lent_tables { lent.now ≡ tables }
    requires highest_clock { highest.now ≡ highest_clock }
    ensures { result ≡ line_good line.now }
{
    let kind = kind(line);
    if !words_equal(line, lent, kind) {
        return false;
    }
    if !stands(line, lent, kind) {
        return false;
    }
    if !related(line, kind) {
        return false;
    }
    // most clocks begin below the highest one
    if line[CLOCK_HEAD] < b'4' {
        return true;
    }
    !line_bytes::twelve_less(highest, 0, line, CLOCK_AT)
}

// Whether the key of line i comes before that of the next line, if there is one among the n lines.
fn key_rises(s: &[u8], i: usize, n: usize) -> bool
    requires s_len { length s.now ≡ n * record_bytes }
    requires i_lt_n { i < n }
    ensures { result ≡ key_before (n - (i + 1)) (drop (i * record_bytes) s.now) }
{
    if i + 1 == n {
        return true;
    }
    let at = i * RECORD_BYTES;
    let next = at + RECORD_BYTES;
    line_bytes::key_less(s, at, next)
}

// Whether each of the n lines is good, and keys rise.
fn lines_pass(s: &[u8], n: usize, lent: &[u8], highest: &[u8]) -> bool
    requires s_len { length s.now ≡ n * record_bytes }
    requires lent_tables { lent.now ≡ tables }
    requires highest_clock { highest.now ≡ highest_clock }
    ensures { result ≡ lines_pass n s.now }
{
    for i in 0..n {
        let at = i * RECORD_BYTES;
        if !line_good(&s[at..at + RECORD_BYTES], lent, highest) {
            return false;
        }
        if !key_rises(s, i, n) {
            return false;
        }
    }
    true
}

// Whether lines of records, without spares, break no rule.
pub fn records_ok(records: &[u8]) -> bool
    ensures { result ≡ records_accepted records.now }
{
    let n = records.len() / RECORD_BYTES;
    if n * RECORD_BYTES != records.len() {
        return false;
    }
    if n > 500 {
        return false;
    }
    // bound once for the sheet and lent: a constant is built anew wherever it is named
    let lent = TABLES;
    lines_pass(records, n, &lent, b" 4294967295\n")
}

// Whether a sheet has whole lines of so many bytes, 1 to 500 of them.
pub fn is_sized(s: &[u8], width: usize) -> bool
    requires le_width { 10 ≤ width }
    requires width_le_record_bytes { width ≤ record_bytes }
    ensures { result ≡ sized width s.now }
{
    let n = s.len() / width;
    (s.len() == n * width) & (1 <= n) & (n <= 500)
}

// Whether the record sheet is one that refusal 1 lets pass, spares at its end included.
pub fn sheet_ok(records: &[u8]) -> bool
    ensures { result ≡ sheet_accepted records.now }
{
    if !is_sized(records, RECORD_BYTES) {
        return false;
    }
    let end = shifting::front_end(records, RECORD_BYTES);
    records_ok(&records[..end])
}

// Where the spares of an accepted record sheet begin: its records stand before.
pub fn lines_end(records: &[u8]) -> usize
    requires { sheet_accepted records.now ≡ true }
    ensures is { result ≡ filled_lines record_bytes records.now * record_bytes }
    ensures within { result ≤ length records.now }
{
    shifting::front_end(records, RECORD_BYTES)
}
