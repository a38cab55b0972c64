// The calls of a history on the record sheet and the coordinator sheet, each by the engine's.
use answers::Performed;
use history::Sheets;
use script::scan::LINE_NUMBERS;
use script_calls::calls;
use std::io::{Eprint, Print};
use types::{Key, Rank, Refusal, Request, Transaction};

#[derive(Drop)]
pub struct Joined<'a> {
    pub records: &'a mut [u8],
    pub coordinator: &'a mut [u8],
}

impl<'a> Sheets for Joined<'a> {
    ghost use Rattle.std.specs.Prelude.{◌≡◌};
    ghost use Rattle.model.specs.SheetCalls.{looked_up, check_conditions, rank_on};
    ghost use Rattle.model.specs.Refusals.{refusal_of, refused_with};
    ghost use Rattle.model.specs.Told.{ranked_by};
    ghost use Rattle.model.specs.Results.{refusal_in, answer_of};
    ghost use Rattle.model.specs.Results as calls_of;
    ghost use Rattle.model.specs.ByteCalls.{result_on, sheet_after};
    ghost use Rattle.model.specs.Operations.{response_on, sheet_left, coordinator_left};
    ghost use Rattle.model.specs.Requests.{operation_of};
    ghost use Rattle.answers.specs.Answers.{in_numbers, to_performed};
    ghost use Rattle.script_calls.specs.Parts.{key_from};

    ghost line = { λ s n. looked_up s.records.now (key_from n 0) };

    ghost checked = { λ s r. refused_with r ≡ refusal_of (check_conditions s.records.now s.coordinator.now) };

    ghost told = { λ s key r. ranked_by r ≡ rank_on s.records.now key };

    ghost added = { λ s key r after.
        (refused_with r ≡ refusal_in (answer_of (result_on (calls_of.add key) s.records.now s.coordinator.now)))
        × (after.records.now ≡ sheet_after s.records.now s.coordinator.now (result_on (calls_of.add key) s.records.now s.coordinator.now))
        × (after.coordinator.now ≡ s.coordinator.now) };

    ghost removed = { λ s key r after.
        (refused_with r ≡ refusal_in (answer_of (result_on (calls_of.remove key) s.records.now s.coordinator.now)))
        × (after.records.now ≡ sheet_after s.records.now s.coordinator.now (result_on (calls_of.remove key) s.records.now s.coordinator.now))
        × (after.coordinator.now ≡ s.coordinator.now) };

    ghost performed = { λ s request t r after.
        (in_numbers r ≡ to_performed t (response_on (operation_of request t) s.records.now s.coordinator.now))
        × (after.records.now ≡ sheet_left s.records.now (response_on (operation_of request t) s.records.now s.coordinator.now))
        × (after.coordinator.now ≡ coordinator_left s.coordinator.now (response_on (operation_of request t) s.records.now s.coordinator.now)) };

    fn check(&self) -> Result<(), Refusal> {
        sheets::check::check(self.records, self.coordinator)
    }

    fn rank(&self, key: Key) -> Result<Rank, Refusal> {
        sheets::lookup::rank_of(self.records, key)
    }

    fn add(&mut self, key: Key) -> Result<(), Refusal> {
        let coordinator = &mut *self.coordinator;
        adding::add(key, self.records, coordinator)
    }

    fn remove(&mut self, key: Key) -> Result<(), Refusal> {
        let coordinator = &mut *self.coordinator;
        adding::remove(key, self.records, coordinator)
    }

    fn perform(&mut self, request: Request, t: Transaction) -> Result<Performed, Refusal> {
        engine::perform(request, t, self.records, self.coordinator)
    }

    fn line(&self, n: [u32; LINE_NUMBERS]) -> &[u8] {
        sheets::lookup::lookup(self.records, calls::key_at(n, 0))
    }

    fn print<R: Print + Eprint>(&self, rt: &R) {
        streams::write(rt, self.coordinator);
        streams::write(rt, self.records);
    }
}
