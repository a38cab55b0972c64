// The conditions of a group's entries.
ghost use Rattle.std.specs.Prelude.{◌≡◌, true, ◌||◌, not, List, ℕ};
ghost use Rattle.lists.specs.Each.{all};
ghost use Rattle.model.specs.Records.{records_accepted};
ghost use Rattle.model.specs.Records as sheet;
ghost use Rattle.model.specs.Coordinator.{coordinator_of};
ghost use Rattle.model.specs.Steps.{holds, group_at};
ghost use Rattle.model.specs.ByteCalls.{sheets_of};
ghost use Rattle.sheet_laws.specs.Letters.{units_in};
ghost use Rattle.held_lines.specs.Located.{line_index};
ghost use Rattle.group_writes.specs.Ready.{Ready};

use held_lines::Located;
use types::Transaction;

// The conditions of all the group's entries hold. The coordinator sheet is lent for its letters, by which the groups were found.
// The chain goes over indices: the borrow checker does not cover one over the entries zipped with the two arrays of what was located.
pub fn group_holds(records: &[u8], coordinator: &[u8], t: Transaction, located: Located) -> bool
    requires { Ready records.now coordinator.now t located }
    ensures { result ≡ all (holds (sheets_of records.now coordinator.now)) (group_at t (sheets_of records.now coordinator.now)) }
{
    let letters = &coordinator[5..14];
    let n = t.count as usize;
    (0..n).all(|i| {
        let (e, index) = (t.entries[i], located.indices[i]);
        located.of[i] != t.place || held_lines::holds(records, letters, e, index)
    })
}
