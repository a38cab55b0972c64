// Parts of a record line, written over in place: the other bytes stay.
ghost use Rattle.std.specs.Prelude.{◌≡◌, ◌+◌, ◌≤◌, length, take, drop};
ghost use Rattle.lists.specs.Pieces.{over};
ghost use Rattle.decimal.specs.Field.{field_text};
ghost use Rattle.model.specs.Layouts.{record_bytes, image_bytes};
ghost use Rattle.sheet_laws.specs.Changed.{image_text, nothing_text, state_over, image_over, prior_over, settled_over};

use crate::layouts;
use types::{
    BEFORE_STATE_AT, Before, CLOCK_BYTES, COLUMN_BYTES, COLUMN1_AT, COLUMN2_AT, IMAGE_BYTES, Image,
    Kind, STATE_AT, State, TXID_AT, TXID_BYTES, VERSION_AT, VERSION_BYTES, WORD_BYTES,
};

// Bytes from the before state on: that word, the image before and the clock.
const REST_BYTES: usize = WORD_BYTES + IMAGE_BYTES + CLOCK_BYTES;

// Before state `-`, an image of zeros and a clock of 0.
const NOTHING: [u8; REST_BYTES] = *b"         -     0   0        0        0          0";

// A text over the line from `at` on.
pub fn put_at(line: &mut [u8], at: usize, text: &[u8])
    requires { at + length text.now ≤ length line.old }
    ensures { line.new ≡ over line.old at text.now }
{
    line[at..at + text.len()].copy_from_slice(text);
}

// A figure over the n columns of the line from `at` on.
pub fn write_at(line: &mut [u8], at: usize, n: usize, v: u32)
    requires { at + n ≤ length line.old }
    ensures { line.new ≡ over line.old at (field_text n v) }
{
    decimal::write(&mut line[at..at + n], v);
}

// The bytes of the image that begins at `at`.
pub fn image_bytes(line: &[u8], at: usize) -> [u8; IMAGE_BYTES]
    requires { at + image_bytes ≤ length line.now }
    ensures { result ≡ take image_bytes (drop at line.now) }
{
    let mut image = [0u8; IMAGE_BYTES];
    image.copy_from_slice(&line[at..at + IMAGE_BYTES]);
    image
}

// Another state word.
pub fn put_state(line: &mut [u8], state: State)
    requires { length line.old ≡ record_bytes }
    ensures { line.new ≡ state_over state line.old }
{
    let word = layouts::word(Kind::StateWord, state as u32);
    put_at(line, STATE_AT, &word);
}

// Another before state.
pub fn put_prior(line: &mut [u8], prior: Before)
    requires { length line.old ≡ record_bytes }
    ensures { line.new ≡ prior_over prior line.old }
{
    let word = layouts::word(Kind::BeforeWord, prior as u32);
    put_at(line, BEFORE_STATE_AT, &word);
}

// The figures of another image.
pub fn write_image(line: &mut [u8], m: Image)
    requires { length line.old ≡ record_bytes }
    ensures { line.new ≡ image_over (image_text m) line.old }
{
    write_at(line, VERSION_AT, VERSION_BYTES, m.version);
    write_at(line, TXID_AT, TXID_BYTES, m.txid);
    write_at(line, COLUMN1_AT, COLUMN_BYTES, m.column1);
    write_at(line, COLUMN2_AT, COLUMN_BYTES, m.column2);
}

// Nothing before, and a clock of 0.
pub fn put_nothing(line: &mut [u8])
    requires { length line.old ≡ record_bytes }
    ensures { line.new ≡ settled_over nothing_text line.old }
{
    put_at(line, BEFORE_STATE_AT, &NOTHING);
}
