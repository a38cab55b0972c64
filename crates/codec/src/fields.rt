// A field of a line, read and written by its column of the layout.
ghost use Rattle.std.specs.Prelude.{◌≡◌, true, ◌+◌, ◌-◌, ◌≤◌, length, take, drop};
ghost use Rattle.std.specs.List.{position};
ghost use Rattle.lists.specs.Bytes.{eq_list};
ghost use Rattle.decimal.specs.Field.{number};
ghost use Rattle.decimal.specs.Word.{put_word};
ghost use Rattle.model.specs.Layouts.{words, word_at, word_bytes};
ghost use Rattle.model.specs.Lines.{field_value, field_bytes, in_range, last_bytes, word_from};
ghost use Rattle.sheet_laws.specs.Fields.{wide_enough};

use crate::layouts;
use types::{Column, Kind, WORD_BYTES};

// The part of a word that a field of w columns holds: its last bytes, all ten where the field has more.
fn last(word: &[u8; WORD_BYTES], w: usize) -> &[u8]
    ensures { result.now ≡ last_bytes w word.now }
{
    &word[WORD_BYTES.saturating_sub(w)..]
}

// The ten bytes at `at` are word n of a kind.
pub fn is_word_at(s: &[u8], at: usize, kind: Kind, n: u32) -> bool
    requires { at + word_bytes ≤ length s.now }
    ensures { result ≡ eq_list (take word_bytes (drop at s.now)) (word_at kind n) }
{
    let t = layouts::word(kind, n);
    line_bytes::ten_equal(s, at, &t, 0)
}

// The field s of w columns holds the word. One of ten columns, as most are, is compared as numbers: byte by byte a coordinator sheet took 1.4 times as many instructions to be read.
fn holds(s: &[u8], word: &[u8; WORD_BYTES], w: usize) -> bool
    ensures { result ≡ eq_list s.now (last_bytes w word.now) }
{
    if w == WORD_BYTES {
        if s.len() == WORD_BYTES {
            return line_bytes::ten_equal(s, 0, word, 0);
        }
    }
    decimal::same(s, last(word, w))
}

// The index of the first word of a kind that the field s of w columns holds.
fn word_index(kind: Kind, w: usize, s: &[u8]) -> Option<usize>
    ensures { result ≡ position (λ t. eq_list s.now (last_bytes w t)) (words kind) }
{
    layouts::words(kind)
        .iter()
        .position(|word| holds(s, word, w))
}

// The number of that word.
fn read_word(kind: Kind, w: usize, s: &[u8]) -> Option<u32>
    ensures { result ≡ word_from w (words kind) 0 s.now }
{
    let n = word_index(kind, w, s)?;
    Some(n as u32)
}

// The number of the field s, if it holds one.
pub fn read_field(c: Column, s: &[u8]) -> Option<u32>
    ensures { result ≡ field_value c s.now }
{
    match c.kind {
        Kind::Figure => decimal::read(s, c.low, c.high),
        kind => read_word(kind, c.width, s),
    }
}

// The number v over the field s, which is as wide as its column. A word of more bytes than the field is cut at its front.
pub fn write_field(c: Column, v: u32, s: &mut [u8])
    requires s_len { length s.old ≡ c.width }
    requires c_value { wide_enough c ≡ true }
    ensures { s.new ≡ field_bytes c v }
{
    match c.kind {
        Kind::Figure => decimal::write(s, v),
        kind => s.copy_from_slice(last(&layouts::word(kind, v), c.width)),
    }
}

// The field can hold the number v.
#[tactic(auto, unfolding(model::specs::Lines::in_range))]
pub fn in_range(c: Column, v: u32) -> bool
    ensures { result ≡ in_range c v }
{
    (c.low <= v) & (v <= c.high)
}
