// The list of transactions behind a call by place.
ghost use Rattle.std.specs.Prelude.{◌≡◌, ◌<◌, length};
ghost use Rattle.answers.specs.Answers.{in_numbers};
ghost use Rattle.c_api.specs.ByPlace.{list_with};

use answers::Performed;
use types::{Refusal, Transaction};

// What an accepted call returns is put back at its place; a refused one leaves the list.
pub fn put_back(list: &mut [Transaction], place: usize, performed: &Result<Performed, Refusal>)
    requires { place < length list.old }
    ensures { list.new ≡ list_with list.old place (in_numbers performed.now) }
{
    match performed {
        Ok(performed) => list[place] = performed.transaction,
        Err(_) => {}
    }
}
