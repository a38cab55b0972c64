// What is asked of a transaction before a call looks into it, on sheets that the check has let pass: refusal 3, and 4 and 5 of read and put; and 8 of begin.
#![tactic(auto)]

ghost use Rattle.std.specs.Prelude.{◌≡◌, true, false, List, ℕ, ◌/◌, length, drop, eqb};
ghost use Rattle.model.specs.Layouts.{coordinator_bytes};
ghost use Rattle.model.specs.Coordinator.{coordinator_of, coordinator_readable};
ghost use Rattle.model.specs.Refusals.{refusal_of, refused_with};
ghost use Rattle.model.specs.Conditions.{not_open};
ghost use Rattle.model.specs.ByteCalls.{sheets_of};
ghost use Rattle.call_laws.specs.Accepted.{Accepted};
ghost use Rattle.admission.specs.Admission.{judged, admitted, admitting_open};

use held_lines::Located;
use put_groups::Groups;
use transactions::phases::Phase;
use types::{Key, Refusal, Transaction};

// The groups of the puts of a transaction, or refusal 3 of one that isn't well formed. The unit letters are bytes 5 to 13 of a readable coordinator sheet.
pub fn judge(t: Transaction, coordinator: &[u8]) -> Result<Groups, Refusal>
    requires { coordinator_readable coordinator.now ≡ true }
    ensures { result ≡ judged (coordinator_of coordinator.now) t }
{
    let issued = codec::coordinator::issued(coordinator);
    if !well_formed::head_formed(issued, t) {
        return Err(Refusal::BadTransaction);
    }
    let letters = &coordinator[5..14];
    let groups = put_groups::groups_of(letters, t);
    if !well_formed::formed(letters, groups.count, issued, t) {
        return Err(Refusal::BadTransaction);
    }
    Ok(groups)
}

// Where the lines of the entries of a transaction are, or refusal 3 of one that isn't well formed.
#[tactic(auto, unfolding(model::specs::WellFormed::well_formed))]
pub fn admit(t: Transaction, records: &[u8], coordinator: &[u8]) -> Result<Located, Refusal>
    requires { Accepted records.now coordinator.now }
    ensures { result ≡ admitted (sheets_of records.now coordinator.now) t }
{
    let groups = judge(t, coordinator)?;
    let indices = held_lines::lines_of(records, t);
    let of = groups.of;
    Ok(Located {
        indices,
        groups: groups.count,
        of,
    })
}

// Refusal 4 of read and put, which want phase open.
fn not_open(t: Transaction) -> bool
    ensures { result ≡ not_open t }
{
    t.phase != Phase::Open as u32
}

// What is asked of a call that wants an open transaction and names a key, beside any record sheet: no line is asked for.
pub fn open_refusal(t: Transaction, key: Key, coordinator: &[u8]) -> Result<(), Refusal>
    requires { coordinator_readable coordinator.now ≡ true }
    ensures { (rs : List ℕ) → refused_with result ≡ refusal_of (admitting_open t key (sheets_of rs coordinator.now)) }
{
    judge(t, coordinator)?;
    if not_open(t) {
        return Err(Refusal::WrongPhase);
    }
    if !codec::keys::key_in_range(key) {
        return Err(Refusal::BadKey);
    }
    Ok(())
}

// Refusal 8 of a begin: every line of the coordinator sheet has its number issued.
pub fn all_spent(coordinator: &[u8], issued: u32) -> bool
    ensures { result ≡ eqb issued (length (drop coordinator_bytes coordinator.now) / coordinator_bytes) }
{
    issued as usize == codec::coordinator::count(coordinator)
}
