// The one pass over a line that judges each byte by tables of its column, bytes as numbers, keys compared as such, and figures by their digits.
#![tactic(auto)]

ghost use Rattle.std.specs.Prelude.{◌≡◌, ◌+◌, ◌^◌, ◌<◌, ◌≤◌, length, get_or, take, drop};
ghost use Rattle.line_bytes.specs.Tables.{as_long, Room, judged_at, line_ok};
ghost use Rattle.lists.specs.Bytes.{eq_list};
ghost use Rattle.lists.specs.Each.{less};
ghost use Rattle.decimal.specs.Digits.{figure_at};
ghost use Rattle.line_bytes.specs.Order.{number_of};
ghost use Rattle.line_bytes.specs.Loads.{loaded};

// Whether each table has an entry for each byte of the line.
fn as_long(line: &[u8], low: &[u8], high: &[u8], also: &[u8]) -> bool
    ensures { result ≡ as_long line.now low.now high.now also.now }
{
    let n = line.len();
    (low.len() == n) & (high.len() == n) & (also.len() == n)
}

// Whether the byte at `i` may stand there, with `p` on its left. No branch, so that a loop over it goes by vectors; a byte in its range is one that
// drawing into the range leaves as it is, which takes fewer of their steps than two comparisons.
fn stands(p: u8, line: &[u8], low: &[u8], high: &[u8], also: &[u8], i: usize) -> bool
    requires in_line { i < length line.now }
    requires in_low { i < length low.now }
    requires in_high { i < length high.now }
    requires in_also { i < length also.now }
    requires room { get_or low.now i 0 < 255 }
    ensures { result ≡ judged_at i p low.now high.now also.now line.now }
{
    let b = line[i];
    let open = p == 32;
    let from = low[i] + u8::from(open);
    (b.max(from).min(high[i]) == b) | (open & (b == also[i]))
}

// Whether every byte of the line after the first may stand in its column by these tables: one pass without an exit. It goes by an index, since each turn takes
// a byte, the one on its left and an entry of three tables, which a chain of four zips says less plainly.
pub fn line_ok(line: &[u8], low: &[u8], high: &[u8], also: &[u8]) -> bool
    requires { Room low.now }
    ensures { result ≡ line_ok line.now low.now high.now also.now }
{
    if !as_long(line, low, high, also) {
        return false;
    }
    let n = line.len();
    let mut good = true;
    for i in 1..n {
        good = good & stands(line[i - 1], line, low, high, also, i);
    }
    good
}

// The number that the n bytes at `at` make as digits, of which a space counts 0: the figure of a field that is known to hold one.
pub fn figure(s: &[u8], at: usize, n: usize) -> u64
    requires n_in_bounds { at + n ≤ length s.now }
    requires n_bound { n ≤ 15 }
    ensures value { result ≡ figure_at at n s.now }
    ensures upper_bound { result < 2 ^ 60 }
{
    let mut v: u64 = 0;
    for b in &s[at..at + n] {
        v = v * 10 + u64::from(*b % 16);
    }
    v
}

// The N bytes at `at` as one number, the first byte weighing least. It compiles to one load.
pub fn load<const N: usize>(s: &[u8], at: usize) -> u64
    requires few { N ≤ 8 }
    requires in_bounds { at + N ≤ length s.now }
    ensures value { result ≡ loaded (take N (drop at s.now)) }
    ensures upper_bound { result < 256 ^ N }
{
    let mut bytes = [0; 8];
    bytes[..N].copy_from_slice(&s[at..at + N]);
    u64::from_le_bytes(bytes)
}

// The N bytes at `at` as one number, the first byte weighing most.
pub fn number<const N: usize>(s: &[u8], at: usize) -> u64
    requires few { N ≤ 8 }
    requires in_bounds { at + N ≤ length s.now }
    ensures value { result ≡ number_of (take N (drop at s.now)) }
    ensures upper_bound { result < 256 ^ N }
{
    let mut bytes = [0; 8];
    bytes[8 - N..].copy_from_slice(&s[at..at + N]);
    u64::from_be_bytes(bytes)
}

// Whether the ten bytes at `a` of `s` are those at `b` of `t`: eight of them as a number, and the last two. Compared as slices, they made the check of 500
// lines 15 to 20 % slower.
pub fn ten_equal(s: &[u8], a: usize, t: &[u8], b: usize) -> bool
    requires a_in_bounds { a + 10 ≤ length s.now }
    requires b_in_bounds { b + 10 ≤ length t.now }
    ensures { result ≡ eq_list (take 10 (drop a s.now)) (take 10 (drop b t.now)) }
{
    (load::<8>(s, a) == load::<8>(t, b)) & (load::<2>(s, a + 8) == load::<2>(t, b + 8))
}

// Whether the 12 bytes at `a` of `s` come before the 12 bytes at `b` of `t`: eight of them as a number, and four more where those are equal.
pub fn twelve_less(s: &[u8], a: usize, t: &[u8], b: usize) -> bool
    requires a_in_bounds { a + 12 ≤ length s.now }
    requires b_in_bounds { b + 12 ≤ length t.now }
    ensures { result ≡ less (take 12 (drop a s.now)) (take 12 (drop b t.now)) }
{
    let s0 = number::<8>(s, a);
    let t0 = number::<8>(t, b);
    if s0 != t0 {
        return s0 < t0;
    }
    number::<4>(s, a + 8) < number::<4>(t, b + 8)
}

// Whether the 20 bytes at `a` come before the 20 bytes at `b`: eight of them as a number, and twelve more where those are equal. Compared as slices, by `<`, they
// made the check of 500 lines take 2.3 times as long.
pub fn key_less(s: &[u8], a: usize, b: usize) -> bool
    requires a_in_bounds { a + 20 ≤ length s.now }
    requires b_in_bounds { b + 20 ≤ length s.now }
    ensures { result ≡ less (take 20 (drop a s.now)) (take 20 (drop b s.now)) }
{
    let a0 = number::<8>(s, a);
    let b0 = number::<8>(s, b);
    if a0 != b0 {
        return a0 < b0;
    }
    twelve_less(s, a + 8, s, b + 8)
}
