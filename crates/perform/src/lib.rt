// Every call by one function: what is asked, of a transaction, on two lent sheets that the check has let pass. A call added later is one more case of it.
#![tactic(auto)]

ghost use Rattle.std.specs.Prelude.{◌≡◌};
ghost use Rattle.model.specs.Operations.{response, records_left, coordinator_left};
ghost use Rattle.model.specs.Requests.{operation_of};
ghost use Rattle.model.specs.ByteCalls.{sheets_of};
ghost use Rattle.call_laws.specs.Accepted.{Accepted};
ghost use Rattle.answers.specs.Answers.{in_numbers, to_performed};

use answers::{Performed, Reply};
use cores::{abort, advance, begin, close, put};
use types::{Refusal, Request, Transaction};

pub fn perform(
    request: Request,
    t: Transaction,
    records: &mut [u8],
    coordinator: &mut [u8],
) -> Result<Performed, Refusal>
    requires { Accepted records.old coordinator.old }
    ensures answer { in_numbers result ≡ to_performed t (response (operation_of request t) (sheets_of records.old coordinator.old)) }
    ensures lines { records.new ≡ records_left records.old (response (operation_of request t) (sheets_of records.old coordinator.old)) }
    ensures decisions { coordinator.new ≡ coordinator_left coordinator.old (response (operation_of request t) (sheets_of records.old coordinator.old)) }
{
    match request {
        Request::Begin(serializable) => {
            let number = begin::issue(coordinator)?;
            Ok(Performed::from(transactions::new_transaction(number, serializable)))
        }
        Request::Read(key, clock) => {
            reads::read(t, key, clock, records, coordinator).map(Performed::from)
        }
        Request::Second(key, clock, columns) => {
            reads::second(t, key, clock, columns, records, coordinator).map(Performed::from)
        }
        Request::Put(key, columns) => {
            put::put(t, key, columns, records, coordinator).map(Performed::from)
        }
        Request::Advance(clock) => {
            advance::advance(t, clock, records, coordinator).map(Performed::from)
        }
        Request::Abort => abort::abort(t, records, coordinator).map(Performed::from),
        Request::Visit(key, clock) => {
            let met = visits::visit(key, clock, records, coordinator)?;
            Ok(Performed {
                reply: Reply::Visited(met),
                transaction: t,
            })
        }
        Request::Close(clock, limit) => {
            close::close(t, clock, limit, records, coordinator).map(Performed::from)
        }
    }
}
