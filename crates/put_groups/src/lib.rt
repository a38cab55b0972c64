// Atomicity units and the groups of a transaction's puts. The units are the nine letters of the coordinator's head.
#![tactic(auto)]

ghost use Rattle.std.specs.Prelude.{◌≡◌, ◌++◌, ◌≤◌, drop, map};
ghost use Rattle.model.specs.Transactions.{held, puts};
ghost use Rattle.model.specs.Groups.{group_count};
ghost use Rattle.transactions.specs.Units.{units_in};
ghost use Rattle.put_groups.specs.GroupsIn.{groups_in};
ghost use Rattle.put_groups.specs.Scopes.{lasts_in};

mod scopes;

use types::{Key, Transaction};

// How many groups the puts make, and of each entry the place of its group: 8, which is no group's place, of an entry without put and behind the last entry. 8 and no
// Option, since the clause of `groups_of` (`groups_in`) says so.
#[derive(Clone, Copy)]
pub struct Groups {
    pub count: u32,
    pub of: [u32; 8],
}

const NO_GROUPS: [u32; 8] = [8, 8, 8, 8, 8, 8, 8, 8];

// Of each entry the scope of its put, where it's the last put of that scope: as many as there are groups. The loop counts an index, since each entry is looked at with
// those after it.
fn lasts_of(letters: &[u8], t: &Transaction) -> [Option<Key>; 8]
    requires { t.now.count ≤ 8 }
    ensures { result ≡ lasts_in (units_in letters.now) t.now }
{
    let entries = transactions::held(t);
    let mut lasts = [None; 8];
    for i in 0..entries.len() {
        lasts[i] = scopes::last_scope(letters, &entries[i..]);
    }
    lasts
}

// The groups of a transaction's puts, found once for all that a call does with them.
pub fn groups_of(letters: &[u8], t: Transaction) -> Groups
    requires { t.count ≤ 8 }
    ensures count { result.count ≡ group_count (units_in letters.now) (puts t) }
    ensures places { result.of ≡ groups_in (units_in letters.now) t }
{
    let lasts = lasts_of(letters, &t);
    let mut of = NO_GROUPS;
    for (i, e) in transactions::held(&t).iter().enumerate() {
        of[i] = scopes::place_of(letters, *e, &lasts);
    }
    Groups {
        count: lasts.iter().filter(|last| last.is_some()).count() as u32,
        of,
    }
}
