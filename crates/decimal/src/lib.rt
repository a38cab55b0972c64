// Decimal fields of any width, as document 01 sets them: right-justified, space-filled, without leading zeros, zero as `0`.
#![tactic(auto)]

ghost use Rattle.std.specs.Prelude.{◌≡◌, length};
ghost use Rattle.lists.specs.Bytes.{eq_list};
ghost use Rattle.decimal.specs.Field.{figure, column_byte, field_text};
ghost use Rattle.decimal.specs.Cut.{longer, digits_behind, digits_to, no_space};
ghost use Rattle.decimal.specs.Word.{put_word};

// The figure v with one digit more, up to the highest. It is made in 64 bits, which hold it whatever v is.
fn digit(v: u32, b: u8, high: u32) -> Option<u32>
    ensures { result ≡ longer high v b }
{
    if !b.is_ascii_digit() {
        return None;
    }
    let n = u64::from(v) * 10 + u64::from(b - b'0');
    if n > u64::from(high) {
        return None;
    }
    Some(n as u32)
}

// The figure of the digits s behind the figure `first`: nothing follows a leading `0`.
fn behind(first: u32, s: &[u8], high: u32) -> Option<u32>
    ensures { result ≡ digits_behind high first s.now }
{
    let mut v = first;
    for b in s {
        if v == 0 {
            return None;
        }
        v = digit(v, *b, high)?;
    }
    Some(v)
}

// The figure of the digits s.
fn digits(s: &[u8], high: u32) -> Option<u32>
    ensures { result ≡ digits_to high s.now }
{
    let (first, rest) = s.split_first()?;
    behind(digit(0, *first, high)?, rest, high)
}

// The first column that is no space.
fn no_space(s: &[u8]) -> Option<usize>
    ensures { result ≡ no_space s.now }
{
    s.iter().position(|b| *b != b' ')
}

// The figure that the field s holds, where one from low to high is wanted. Most columns are spaces, which are passed first.
pub fn read(s: &[u8], low: u32, high: u32) -> Option<u32>
    ensures { result ≡ figure low high s.now }
{
    let start = no_space(s)?;
    let v = digits(&s[start..], high)?;
    if v < low {
        return None;
    }
    Some(v)
}

// The last digit of what is left of a figure, or a space where nothing is left.
fn column(rest: u32) -> u8
    ensures { result ≡ column_byte rest }
{
    if rest == 0 {
        b' '
    } else {
        b'0' + (rest % 10) as u8
    }
}

// The figure v over the whole of s, from its last column, which is never blank.
pub fn write(s: &mut [u8], v: u32)
    ensures { s.new ≡ field_text (length s.old) v }
{
    if s.is_empty() {
        return;
    }
    let last = s.len() - 1;
    s[last] = b'0' + (v % 10) as u8;
    let mut rest = v / 10;
    for i in (0..last).rev() {
        s[i] = column(rest);
        rest /= 10;
    }
}

// The two hold the same bytes. Compared from the last, in which figures of one width differ most often.
pub fn same(s: &[u8], t: &[u8]) -> bool
    ensures { result ≡ eq_list s.now t.now }
{
    if s.len() != t.len() {
        return false;
    }
    for i in (0..s.len()).rev() {
        if s[i] != t[i] {
            return false;
        }
    }
    true
}

// The word t over s, where it has the length of s.
#[tactic(auto, unfolding(crate::specs::Word::put_word))]
pub fn put(s: &mut [u8], t: &[u8])
    ensures { s.new ≡ put_word s.old t.now }
{
    if s.len() == t.len() {
        s.copy_from_slice(t);
    }
}
