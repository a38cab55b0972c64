// Where a key stands, and its line on the sheet that is named.
ghost use Rattle.std.specs.Prelude.{◌≡◌, true, ◌≤◌};
ghost use Rattle.model.specs.Refusals.{refusal_of, refusal_number, refused_with};
ghost use Rattle.model.specs.Told.{ranked_by};
ghost use Rattle.model.specs.Spares.{sized};
ghost use Rattle.model.specs.TwoSheets.{plain_bytes, bookkeeping_bytes};
ghost use Rattle.model.specs.TwoSpares.{plain_lines, bookkeeping_lines, rank_two, line_two, looked_up_two};
ghost use Rattle.two_engine.specs.Forms.{unequal_keys, KeyForms};
ghost use Rattle.two_engine.specs.Lookups.{Ranks};

use record_check::is_sized;
use shifting::front_end;
use two_join::{BOOKKEEPING_BYTES, PLAIN_BYTES};
use types::{Key, Rank, Refusal};

// The refusal of sheets with different numbers of lines: each is looked through beside the other without its lines, so that their keys aren't compared.
fn unequal(plain: &[u8], book: &[u8], key: Key) -> Refusal
    requires { (sized plain_bytes plain.now ≡ true) × (sized bookkeeping_bytes book.now ≡ true) }
    ensures { refusal_number result ≡ refusal_of (unequal_keys (plain_lines plain.now) (bookkeeping_lines book.now)) }
{
    let p = front_end(plain, PLAIN_BYTES);
    let first = two_sheets::lookup::rank_of(&plain[..p], &book[..0], key);
    if two_check::is_bad(&first) {
        return Refusal::BadRecords;
    }
    let b = front_end(book, BOOKKEEPING_BYTES);
    let second = two_sheets::lookup::rank_of(&plain[..0], &book[..b], key);
    if two_check::is_bad(&second) {
        return Refusal::BadRecords;
    }
    Refusal::SheetsDiffer
}

// Whether both sheets have their size and as many lines; else 1 or 13.
fn check_forms(plain: &[u8], book: &[u8], key: Key) -> Result<(), Refusal>
    ensures { KeyForms plain.now book.now (refused_with result) }
{
    if !is_sized(plain, PLAIN_BYTES) {
        return Err(Refusal::BadRecords);
    }
    if !is_sized(book, BOOKKEEPING_BYTES) {
        return Err(Refusal::BadRecords);
    }
    if plain.len() / PLAIN_BYTES == book.len() / BOOKKEEPING_BYTES {
        return Ok(());
    }
    Err(unequal(plain, book, key))
}

// The look-up's companion: how many lines have smaller keys, the same on both sheets, and whether the key has a line itself.
pub fn rank_of(plain: &[u8], book: &[u8], key: Key) -> Result<Rank, Refusal>
    ensures told { ranked_by result ≡ rank_two plain.now book.now key }
    ensures few { (ranked_by result).rank.below ≤ 500 }
{
    check_forms(plain, book, key)?;
    let p = front_end(plain, PLAIN_BYTES);
    let b = front_end(book, BOOKKEEPING_BYTES);
    two_sheets::lookup::rank_of(&plain[..p], &book[..b], key)
}

// Which line has the key, the same on both sheets: its index, or the look-up's refusal, 6 where no line has it.
fn line_told(plain: &[u8], book: &[u8], key: Key) -> Result<Rank, Refusal>
    ensures { Ranks plain.now book.now key (ranked_by result) }
{
    check_forms(plain, book, key)?;
    let p = front_end(plain, PLAIN_BYTES);
    let b = front_end(book, BOOKKEEPING_BYTES);
    two_sheets::lookup::line_of(&plain[..p], &book[..b], key)
}

pub fn line_of(plain: &[u8], book: &[u8], key: Key) -> Result<Rank, Refusal>
    ensures told { ranked_by result ≡ line_two plain.now book.now key }
    ensures few { (ranked_by result).rank.below ≤ 500 }
{
    line_told(plain, book, key)
}

// The line that has the key, as a part of the sheet that is named, 0 the plain sheet and 1 the bookkeeping sheet; an empty part where 1, 13, 5 or 6 applies, or no sheet has
// that name.
pub fn lookup<'a>(plain: &'a [u8], book: &'a [u8], named: u32, key: Key) -> &'a [u8]
    ensures { result.now ≡ looked_up_two plain.now book.now named key }
{
    match line_told(plain, book, key) {
        Ok(rank) => {
            if named == 0 {
                let at = rank.below * PLAIN_BYTES;
                let end = at + PLAIN_BYTES;
                return &plain[at..end];
            }
            if named == 1 {
                let at = rank.below * BOOKKEEPING_BYTES;
                let end = at + BOOKKEEPING_BYTES;
                return &book[at..end];
            }
            &plain[..0]
        }
        Err(_) => &plain[..0],
    }
}
