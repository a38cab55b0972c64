// Well-formed transactions, as far as it can be told from the unit letters and the issued count.
#![tactic(auto)]

ghost use Rattle.std.specs.Prelude.{◌≡◌, true, cond, ◌≤◌, leb};
ghost use Rattle.lists.specs.Each.{all, any};
ghost use Rattle.model.specs.Records.{absence, same_key};
ghost use Rattle.model.specs.Transactions.{was_absent, held, puts};
ghost use Rattle.model.specs.Groups.{group_count};
ghost use Rattle.model.specs.WellFormed.{image_in_range, columns_in_range, put_fits, entry_formed, distinct_keys, place_formed, verdict_formed};
ghost use Rattle.model.specs.WellFormed as model;
ghost use Rattle.transactions.specs.Units.{units_in};
ghost use Rattle.well_formed.specs.Formed.{head_formed, decide_formed};

pub mod barred;

use transactions::phases::{Phase, Verdict};
use types::{Columns, Entry, Image, Key, Transaction};

const LAST_COLUMN: u32 = 99999999;

// Neither put column is too large.
pub fn columns_in_range(c: Columns) -> bool
    ensures { result ≡ columns_in_range c }
{
    (c.column1 <= LAST_COLUMN) & (c.column2 <= LAST_COLUMN)
}

fn image_in_range(m: Image) -> bool
    ensures { result ≡ image_in_range m }
{
    (m.version <= 99999) & (m.txid <= 999) & (m.column1 <= LAST_COLUMN) & (m.column2 <= LAST_COLUMN)
}

// What was read absent has the image of an absence, any other a version.
fn version_formed(e: Entry) -> bool
    ensures { result ≡ cond (was_absent e) (absence e.seen) (leb 1 e.seen.version) }
{
    if e.absent == 1 {
        return codec::records::is_absence(e.seen);
    }
    1 <= e.seen.version
}

// The put columns of an entry without put mean nothing.
#[tactic(auto, unfolding(model::specs::WellFormed::put_fits))]
fn put_fits(e: Entry) -> bool
    ensures { result ≡ put_fits e }
{
    (e.wrote != 1) | (e.seen.version <= 99998) & columns_in_range(e.put)
}

// An entry by itself.
fn entry_formed(issued: u32, e: Entry) -> bool
    ensures { result ≡ entry_formed issued e }
{
    (e.absent <= 1)
        & (e.wrote <= 1)
        & image_in_range(e.seen)
        & (e.seen.txid <= issued)
        & version_formed(e)
        & put_fits(e)
        & codec::keys::key_in_range(e.key)
}

fn entries_formed(issued: u32, t: Transaction) -> bool
    requires { t.count ≤ 8 }
    ensures { result ≡ all (entry_formed issued) (held t) }
{
    transactions::held(&t)
        .iter()
        .all(|e| entry_formed(issued, *e))
}

// Some entry has the key.
fn has_key(entries: &[Entry], key: Key) -> bool
    ensures { result ≡ any (λ e. same_key e.key key) entries.now }
{
    entries.iter().any(|e| e.key == key)
}

// No two entries have a key in common.
fn distinct_keys(t: Transaction) -> bool
    requires { t.count ≤ 8 }
    ensures { result ≡ distinct_keys (held t) }
{
    let entries = transactions::held(&t);
    for i in 0..entries.len() {
        if has_key(&entries[i + 1..], entries[i].key) {
            return false;
        }
    }
    true
}

// Number, whether serializable, and count of entries: asked before the entries are looked at, so that any bytes get an answer.
pub fn head_formed(issued: u32, t: Transaction) -> bool
    ensures { result ≡ head_formed issued t }
{
    (1 <= t.number) & (t.number <= issued) & (t.serializable <= 1) & (t.count <= 8)
}

// Decide has a put.
fn decide_formed(t: Transaction) -> bool
    requires { t.count ≤ 8 }
    ensures { result ≡ decide_formed t }
{
    (t.phase != Phase::Decide as u32) | transactions::has_puts(t)
}

// The place is below the number of groups or of entries to validate, else 0: a transaction in validate has a place only if it has an entry to validate, so that one
// that isn't serializable is there for entries of storages that can't be read consistently.
#[tactic(auto, unfolding(model::specs::WellFormed::place_formed))]
fn place_formed(letters: &[u8], groups: u32, t: Transaction) -> bool
    requires { (t.count ≤ 8) × (groups ≡ group_count (units_in letters.now) (puts t)) }
    ensures { result ≡ place_formed (units_in letters.now) t }
{
    let Ok(phase) = Phase::try_from(t.phase) else {
        return false;
    };
    match phase {
        Phase::Open | Phase::Decide | Phase::Withdraw | Phase::Done => t.place == 0,
        Phase::Prepare | Phase::Finish | Phase::Undo => t.place < groups,
        Phase::Validate => t.place < transactions::validate_count(letters, t),
    }
}

// Committed in finish, aborted in undo, either in done, none elsewhere.
#[tactic(auto, unfolding(model::specs::WellFormed::verdict_formed))]
fn verdict_formed(t: Transaction) -> bool
    ensures { result ≡ verdict_formed t }
{
    let Ok(phase) = Phase::try_from(t.phase) else {
        return false;
    };
    let committed = t.verdict == Verdict::Committed as u32;
    let aborted = t.verdict == Verdict::Aborted as u32;
    match phase {
        Phase::Open | Phase::Prepare | Phase::Validate | Phase::Decide | Phase::Withdraw => {
            t.verdict == Verdict::None as u32
        }
        Phase::Finish => committed,
        Phase::Undo => aborted,
        Phase::Done => committed | aborted,
    }
}

// The rest of a transaction whose head is well formed, and whose puts make this many groups.
pub fn formed(letters: &[u8], groups: u32, issued: u32, t: Transaction) -> bool
    requires head { head_formed issued t ≡ true }
    requires groups { groups ≡ group_count (units_in letters.now) (puts t) }
    ensures { result ≡ model.formed (units_in letters.now) issued t }
{
    entries_formed(issued, t)
        & distinct_keys(t)
        & decide_formed(t)
        & place_formed(letters, groups, t)
        & verdict_formed(t)
}
