// The scope of a key: what of it the unit of its storage compares.
ghost use Rattle.std.specs.Prelude.{◌≡◌};
ghost use Rattle.transactions.specs.Units.{unit_in, units_in};
ghost use Rattle.put_groups.specs.Scopes.{unit_of, scope_key, last_scope, before, place_in};

use types::{AtomicityUnit, Entry, Key};

// The unit of a letter: the five cases of the published listing (source document 000), RECORD to STORAGE, each by its capital and its small letter. The rest is for
// what is no letter of a sheet that keeps the rules.
#[tactic(auto, unfolding(transactions::specs::Units::unit_in))]
fn unit_of(letter: u8) -> AtomicityUnit
    ensures { result ≡ unit_in letter }
{
    match letter {
        b'R' | b'r' => AtomicityUnit::Record,
        b'P' | b'p' => AtomicityUnit::Partition,
        b'T' | b't' => AtomicityUnit::Table,
        b'N' | b'n' => AtomicityUnit::Namespace,
        b'S' | b's' => AtomicityUnit::Storage,
        _ => AtomicityUnit::Storage,
    }
}

// The unit of a storage; one without a letter counts as R.
#[tactic(auto, unfolding(transactions::specs::Units::letter_in))]
fn storage_unit(letters: &[u8], storage: u32) -> AtomicityUnit
    ensures { result ≡ unit_of (units_in letters.now) storage }
{
    match transactions::letter_of(letters, storage) {
        Some(letter) => unit_of(letter),
        None => AtomicityUnit::Record,
    }
}

// The key with 0 in the fields that the unit of its storage doesn't compare: two keys are of one scope where these are equal.
#[tactic(auto)]
fn scope(letters: &[u8], k: Key) -> Key
    ensures { result ≡ scope_key (units_in letters.now) k }
{
    let Key {
        storage,
        namespace,
        table,
        partition,
        clustering,
    } = k;
    let (namespace, table, partition, clustering) = match storage_unit(letters, storage) {
        AtomicityUnit::Record => (namespace, table, partition, clustering),
        AtomicityUnit::Partition => (namespace, table, partition, 0),
        AtomicityUnit::Table => (namespace, table, 0, 0),
        AtomicityUnit::Namespace => (namespace, 0, 0, 0),
        AtomicityUnit::Storage => (0, 0, 0, 0),
    };
    Key {
        storage,
        namespace,
        table,
        partition,
        clustering,
    }
}

// The scope of the first entry, if that is the last put of its scope: each group has one.
#[tactic(auto)]
pub fn last_scope(letters: &[u8], entries: &[Entry]) -> Option<Key>
    ensures { result ≡ last_scope (units_in letters.now) entries.now }
{
    let (e, later) = entries.split_first()?;
    if e.wrote != 1 {
        return None;
    }
    let own = scope(letters, e.key);
    let again = later
        .iter()
        .any(|f| f.wrote == 1 && own == scope(letters, f.key));
    (!again).then_some(own)
}

// The scope of a last put comes before another.
#[tactic(auto)]
fn is_before(last: Option<Key>, own: Key) -> bool
    ensures { result ≡ before own last }
{
    last.is_some_and(|scope| scope < own)
}

// The place of a put's group: how many scopes come before that of its key. Of an entry without put 8, which is no group's place.
#[tactic(auto)]
pub fn place_of(letters: &[u8], e: Entry, lasts: &[Option<Key>; 8]) -> u32
    ensures { result ≡ place_in (units_in letters.now) lasts.now e }
{
    if e.wrote != 1 {
        return 8;
    }
    let own = scope(letters, e.key);
    lasts.iter().filter(|last| is_before(**last, own)).count() as u32
}
