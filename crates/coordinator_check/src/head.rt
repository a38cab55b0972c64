// The head of a coordinator sheet, after its count.
ghost use Rattle.std.specs.Prelude.{◌≡◌, length};
ghost use Rattle.lists.specs.Each.{all};
ghost use Rattle.model.specs.Layouts.{coordinator_bytes};
ghost use Rattle.model.specs.Coordinator.{all_capitals};
ghost use Rattle.sheet_laws.specs.Letters.{units_in};
ghost use Rattle.coordinator_check.specs.Head.{is_unit, letters_set};

use types::LINE_END;

// One of the unit letters, capital or small.
fn is_unit(b: u8) -> bool
    ensures { result ≡ is_unit b }
{
    matches!(
        b,
        b'R' | b'P' | b'T' | b'N' | b'S' | b'r' | b'p' | b't' | b'n' | b's'
    )
}

// Unit letters alone.
fn units(letters: &[u8]) -> bool
    ensures { result ≡ all is_unit letters.now }
{
    letters.iter().all(|b| is_unit(*b))
}

// A space, nine unit letters and LF.
#[tactic(auto, using(crate::specs::Head::units_here))]
pub fn letters_ok(head: &[u8]) -> bool
    requires { length head.now ≡ coordinator_bytes }
    ensures { result ≡ letters_set head.now }
{
    (head[4] == b' ') & units(&head[5..LINE_END]) & (head[LINE_END] == b'\n')
}

// None of the letters is a small one; these come after the capitals.
pub fn capitals(letters: &[u8]) -> bool
    ensures { result ≡ all_capitals (units_in letters.now) }
{
    letters.iter().all(|b| *b < b'a')
}
