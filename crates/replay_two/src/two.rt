// The calls of a history on the plain, the bookkeeping and the coordinator sheet.
use answers::Performed;
use history::Sheets;
use script::scan::LINE_NUMBERS;
use script_calls::calls;
use std::io::{Eprint, Print};
use types::{Key, Rank, Refusal, Request, Transaction};

#[derive(Drop)]
pub struct Two<'a> {
    pub plain: &'a mut [u8],
    pub book: &'a mut [u8],
    pub coordinator: &'a mut [u8],
}

impl<'a> Sheets for Two<'a> {
    ghost use Rattle.std.specs.Prelude.{◌≡◌, get_or};
    ghost use Rattle.model.specs.TwoSpares.{looked_up_two, two_conditions, rank_two};
    ghost use Rattle.model.specs.Refusals.{refusal_of, refused_with};
    ghost use Rattle.model.specs.Told.{ranked_by};
    ghost use Rattle.model.specs.Results.{refusal_in, answer_of};
    ghost use Rattle.model.specs.Results as calls_of;
    ghost use Rattle.model.specs.Operations.{once, coordinator_left};
    ghost use Rattle.model.specs.Requests.{operation_of};
    ghost use Rattle.model.specs.TwoCalls.{response_two, plain_left, bookkeeping_left};
    ghost use Rattle.answers.specs.Answers.{in_numbers, to_performed};
    ghost use Rattle.two_check.specs.Areas.{two};
    ghost use Rattle.script_calls.specs.Parts.{key_from};

    ghost line = { λ s n. looked_up_two s.plain.now s.book.now (get_or n 0 0) (key_from n 1) };

    ghost checked = { λ s r. refused_with r ≡ refusal_of (two_conditions s.plain.now s.book.now s.coordinator.now) };

    ghost told = { λ s key r. ranked_by r ≡ rank_two s.plain.now s.book.now key };

    ghost added = { λ s key r after.
        (refused_with r ≡ refusal_in (answer_of (response_two (once (calls_of.add key)) (two s.plain.now s.book.now s.coordinator.now))))
        × (after.plain.now ≡ plain_left s.plain.now (response_two (once (calls_of.add key)) (two s.plain.now s.book.now s.coordinator.now)))
        × (after.book.now ≡ bookkeeping_left s.book.now (response_two (once (calls_of.add key)) (two s.plain.now s.book.now s.coordinator.now)))
        × (after.coordinator.now ≡ s.coordinator.now) };

    ghost removed = { λ s key r after.
        (refused_with r ≡ refusal_in (answer_of (response_two (once (calls_of.remove key)) (two s.plain.now s.book.now s.coordinator.now))))
        × (after.plain.now ≡ plain_left s.plain.now (response_two (once (calls_of.remove key)) (two s.plain.now s.book.now s.coordinator.now)))
        × (after.book.now ≡ bookkeeping_left s.book.now (response_two (once (calls_of.remove key)) (two s.plain.now s.book.now s.coordinator.now)))
        × (after.coordinator.now ≡ s.coordinator.now) };

    ghost performed = { λ s request t r after.
        (in_numbers r ≡ to_performed t (response_two (operation_of request t) (two s.plain.now s.book.now s.coordinator.now)))
        × (after.plain.now ≡ plain_left s.plain.now (response_two (operation_of request t) (two s.plain.now s.book.now s.coordinator.now)))
        × (after.book.now ≡ bookkeeping_left s.book.now (response_two (operation_of request t) (two s.plain.now s.book.now s.coordinator.now)))
        × (after.coordinator.now ≡ coordinator_left s.coordinator.now (response_two (operation_of request t) (two s.plain.now s.book.now s.coordinator.now))) };

    fn check(&self) -> Result<(), Refusal> {
        two_engine::check(self.plain, self.book, self.coordinator)
    }

    fn rank(&self, key: Key) -> Result<Rank, Refusal> {
        two_engine::lookup::rank_of(self.plain, self.book, key)
    }

    fn add(&mut self, key: Key) -> Result<(), Refusal> {
        let coordinator = &mut *self.coordinator;
        two_adding::add(key, self.plain, self.book, coordinator)
    }

    fn remove(&mut self, key: Key) -> Result<(), Refusal> {
        let coordinator = &mut *self.coordinator;
        two_adding::remove(key, self.plain, self.book, coordinator)
    }

    fn perform(&mut self, request: Request, t: Transaction) -> Result<Performed, Refusal> {
        two_engine::perform(request, t, self.plain, self.book, self.coordinator)
    }

    fn line(&self, n: [u32; LINE_NUMBERS]) -> &[u8] {
        two_engine::lookup::lookup(self.plain, self.book, n[0], calls::key_at(n, 1))
    }

    fn print<R: Print + Eprint>(&self, rt: &R) {
        streams::write(rt, self.coordinator);
        streams::write(rt, self.plain);
        streams::write(rt, self.book);
    }
}
