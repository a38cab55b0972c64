// Where a key stands on both sheets.
ghost use Rattle.std.specs.Prelude.{◌≡◌, true, false, ◌≤◌, length};
ghost use Rattle.model.specs.Told.{ranked_by};
ghost use Rattle.model.specs.TwoSheets.{rank_full};
ghost use Rattle.two_check.specs.Areas.{Rooms};
ghost use Rattle.two_sheets.specs.Lookups.{Ranks};

use codec::keys::key_in_range;
use two_join::PLAIN_BYTES;
use types::{Key, RECORD_BYTES, Rank, Refusal};

// Where the key stands on the sheet joined in the area.
fn rank_in(plain: &[u8], book: &[u8], key: Key, area: &mut [u8]) -> Result<Rank, Refusal>
    requires { Rooms plain.now book.now (length area.old) }
    ensures { Ranks false plain.now book.now key (ranked_by result) }
{
    two_check::join_lines(plain, book, area)?;
    if !key_in_range(key) {
        return Err(Refusal::BadKey);
    }
    let n = plain.len() / PLAIN_BYTES * RECORD_BYTES;
    Ok(sheets::lookup::rank(&area[..n], key))
}

// Which line of it has the key.
fn line_in(plain: &[u8], book: &[u8], key: Key, area: &mut [u8]) -> Result<Rank, Refusal>
    requires { Rooms plain.now book.now (length area.old) }
    ensures { Ranks true plain.now book.now key (ranked_by result) }
{
    two_check::join_lines(plain, book, area)?;
    if !key_in_range(key) {
        return Err(Refusal::BadKey);
    }
    let n = plain.len() / PLAIN_BYTES * RECORD_BYTES;
    sheets::lookup::line(&area[..n], key)
}

// The look-up's companion: how many lines have smaller keys, the same on both sheets, and whether the key has a line itself.
pub fn rank_of(plain: &[u8], book: &[u8], key: Key) -> Result<Rank, Refusal>
    ensures told { ranked_by result ≡ rank_full plain.now book.now key }
    ensures few { (ranked_by result).rank.below ≤ 500 }
{
    two_check::in_area(
        plain.len(),
        book.len(),
        &mut |area: &mut [u8]| { rank_in(plain, book, key, area) },
    )
}

// Which line has the key, the same on both sheets: its index, or the look-up's refusal, 6 where no line has it.
pub fn line_of(plain: &[u8], book: &[u8], key: Key) -> Result<Rank, Refusal>
    ensures { Ranks true plain.now book.now key (ranked_by result) }
{
    two_check::in_area(
        plain.len(),
        book.len(),
        &mut |area: &mut [u8]| { line_in(plain, book, key, area) },
    )
}
