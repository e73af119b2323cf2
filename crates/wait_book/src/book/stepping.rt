//! Any step of a book by its numbers, or its refusal.
ghost use Rattle.std.specs.Prelude.{ℕ};

use super::Book;
use crate::steps::{Next, Step, StepRefused};
use hoare_law::turn::Turn;

impl Book {
    ghost use Rattle.std.specs.Prelude.{◌≡◌, ◌<◌, ◌==◌, ℕ, MatchResult, IfOk, OnErr, Some, None, Option, false};
    ghost use Rattle.hoare_law.specs.declared.event.History.{History};
    ghost use Rattle.hoare_law.specs.declared.turn.Turn.TheVariants as turns;
    ghost use Rattle.wait_book.specs.declared.steps.StepRefused.{StepRefused};
    ghost use Rattle.wait_book.specs.Contents.{IsOf, SameSizes, next_of, times_in};
    ghost use Rattle.wait_book.specs.Stepping.{IsOfKind, IsSettled, act_refusal, after_step, condition_refusal};
    ghost use Rattle.wait_book.specs.Stepping.{after_signal_to, enter_refusal, kind_refusal, refusal_of, settled};
    ghost use Rattle.hoare_law.specs.Waiting.{wait_by};

    // Lets the place to which the monitor is owed resume, if there is one. Returns the turn after that. `try_step`
    // calls it at three places, and each is to have it inlined.
    #[inline(always)]
    fn settle(&mut self) -> Next
        ensures next { result ≡ next_of self.new.turn }
        ensures settled { IsSettled result }
        ensures of { (h : History (Unit {0})) → IsOf self.old h → IsOf self.new (settled h) }
        ensures sizes { SameSizes self.old self.new }
    {
        match self.now() {
            Next::For(place) => {
                self.claim(place);
                Next::Held(place)
            }
            Next::Held(place) => Next::Held(place),
            Next::Free => Next::Free,
        }
    }

    // Returns the place if it may enter. Refuses, in this order, with `NoPlace`, `NotFree` and `NotOutside`.
    fn entering(&self, place: u64) -> Result<usize, StepRefused>
        ensures ok { IfOk result (λ k. (k ≡ place) × (self.now.turn ≡ turns.Free)
            × (k < self.now.sizes.places) × (times_in k self.now ≡ 0)) }
        ensures of { (h : History (Unit {0})) → IsOf self.now h → MatchResult result
            (λ _. enter_refusal h place ≡ None)
            (λ r. enter_refusal h place ≡ Some r) }
    {
        if place >= self.sizes.places as u64 {
            return Err(StepRefused::NoPlace);
        }
        let place = place as usize;
        if self.turn != Turn::Free {
            return Err(StepRefused::NotFree);
        }
        if !self.outside(place) {
            return Err(StepRefused::NotOutside);
        }
        Ok(place)
    }

    // Returns the place if it is inside. Refuses, in this order, with `NoPlace` and `NotInside`.
    fn holder(&self, place: u64) -> Result<usize, StepRefused>
        ensures ok { IfOk result (λ k. (k ≡ place) × (self.now.turn ≡ turns.Held k)) }
        ensures of { (h : History (Unit {0})) (further : Option StepRefused) → IsOf self.now h
            → MatchResult result
            (λ _. act_refusal h place further ≡ further)
            (λ r. act_refusal h place further ≡ Some r) }
    {
        if place >= self.sizes.places as u64 {
            return Err(StepRefused::NoPlace);
        }
        match self.turn {
            Turn::Held(k) if k as u64 == place => Ok(k),
            _ => Err(StepRefused::NotInside),
        }
    }

    // Returns the condition if the book has one of this number. Refuses with `NoCondition`.
    fn condition(&self, condition: u64) -> Result<usize, StepRefused>
        ensures ok { IfOk result (λ c. (c ≡ condition) × (c < self.now.sizes.conditions)) }
        ensures of { (h : History (Unit {0})) → IsOf self.now h → MatchResult result
            (λ _. condition_refusal h condition ≡ None)
            (λ r. condition_refusal h condition ≡ Some r) }
    {
        if condition >= self.sizes.conditions as u64 {
            return Err(StepRefused::NoCondition);
        }
        Ok(condition as usize)
    }

    // Returns the condition if the book has one of this number and kind: a Mesa condition if `mesa`, else one of
    // Hoare's. Refuses, in this order, with `NoCondition` and `WrongKind`.
    fn condition_of(&self, condition: u64, mesa: bool) -> Result<usize, StepRefused>
        ensures ok { IfOk result (λ c. (c ≡ condition)
            × IsOfKind self.now.sizes.conditions self.now.sizes.mesa mesa c) }
        ensures of { (h : History (Unit {0})) → IsOf self.now h → MatchResult result
            (λ _. kind_refusal h mesa condition ≡ None)
            (λ r. kind_refusal h mesa condition ≡ Some r) }
    {
        let condition = self.condition(condition)?;
        let hoare = condition < self.sizes.conditions - self.sizes.mesa;
        if mesa {
            if hoare {
                return Err(StepRefused::WrongKind);
            }
        } else if !hoare {
            return Err(StepRefused::WrongKind);
        }
        Ok(condition)
    }

    // Returns the place if it is inside, with the condition if there is one of this number and kind. Refuses as
    // `holder` does, then as `condition_of` does.
    fn holder_of(
        &self,
        place: u64,
        condition: u64,
        mesa: bool,
    ) -> Result<(usize, usize), StepRefused>
        ensures ok { IfOk result (λ r. (r.0 ≡ place) × (self.now.turn ≡ turns.Held r.0)
            × (r.1 ≡ condition) × IsOfKind self.now.sizes.conditions self.now.sizes.mesa mesa r.1) }
        ensures of { (h : History (Unit {0})) → IsOf self.now h
            → let refusal = act_refusal h place (kind_refusal h mesa condition) in
            MatchResult result (λ _. refusal ≡ None) (λ r. refusal ≡ Some r) }
    {
        let place = self.holder(place)?;
        let condition = self.condition_of(condition, mesa)?;
        Ok((place, condition))
    }

    // Returns the place if it is inside, with the condition if there is one of this number. Refuses as `holder` does,
    // then as `condition` does.
    fn holder_on(&self, place: u64, condition: u64) -> Result<(usize, usize), StepRefused>
        ensures ok { IfOk result (λ r. (r.0 ≡ place) × (self.now.turn ≡ turns.Held r.0)
            × (r.1 ≡ condition) × (r.1 < self.now.sizes.conditions)) }
        ensures of { (h : History (Unit {0})) → IsOf self.now h
            → let refusal = act_refusal h place (condition_refusal h condition) in
            MatchResult result (λ _. refusal ≡ None) (λ r. refusal ≡ Some r) }
    {
        let place = self.holder(place)?;
        let condition = self.condition(condition)?;
        Ok((place, condition))
    }

    /// Lets `place` signal to the place `waiter` on `condition`, and then lets the place to which the monitor is owed
    /// resume. So it returns `Held` of the place inside: `waiter` if it waited there, else `place`. Any numbers are
    /// allowed; a place that the book doesn't have waits nowhere.
    ///
    /// Refuses with the first that applies: `NoPlace`, `NotInside`, `NoCondition`, `WrongKind`. A refusal changes
    /// nothing.
    pub fn try_signal_to(
        &mut self,
        place: u64,
        condition: u64,
        waiter: u64,
    ) -> Result<Next, StepRefused>
        ensures of { (h : History (Unit {0})) → IsOf self.old h
            → let refusal = act_refusal h place (kind_refusal h false condition) in MatchResult result
            (λ _. (refusal ≡ None) × IsOf self.new
            (settled (after_signal_to h place condition waiter (wait_by waiter condition h.events))))
            (λ r. refusal ≡ Some r) }
        ensures next { IfOk result (λ next. (next ≡ next_of self.new.turn) × IsSettled next) }
        ensures sizes { SameSizes self.old self.new }
        ensures err { OnErr result (self.new ≡ self.old) }
    {
        let (place, condition) = self.holder_of(place, condition, false)?;
        self.signal_to(place, condition, waiter as usize);
        Ok(self.settle())
    }

    /// Does `step`, and then lets the place to which the monitor is owed resume. So it returns `Held` of the place
    /// inside, or `Free`, and never `For`.
    ///
    /// Refuses with the first that applies. An `Enter`: `NoPlace`, `NotFree`, `NotOutside`. Any other step: `NoPlace`,
    /// `NotInside`, `NoCondition` (not a `Leave`), `WrongKind` (neither a `Leave` nor a `Wait`). A refusal changes
    /// nothing.
    pub fn try_step(&mut self, step: Step) -> Result<Next, StepRefused>
        ensures of { (h : History (Unit {0})) → IsOf self.old h → MatchResult result
            (λ _. (refusal_of h step ≡ None) × IsOf self.new (after_step h step))
            (λ r. refusal_of h step ≡ Some r) }
        ensures next { IfOk result (λ next. (next ≡ next_of self.new.turn) × IsSettled next) }
        ensures sizes { SameSizes self.old self.new }
        ensures err { OnErr result (self.new ≡ self.old) }
    {
        match step {
            Step::Enter(place) => {
                let place = self.entering(place)?;
                self.admit(place);
                return Ok(Next::Held(place));
            }
            Step::Wait(place, condition, priority) => {
                let (place, condition) = self.holder_on(place, condition)?;
                self.wait(place, condition, priority);
            }
            Step::Signal(place, condition) => {
                let (place, condition) = self.holder_of(place, condition, false)?;
                self.signal(place, condition);
                return Ok(self.settle());
            }
            Step::Pass(place, condition) => {
                let (place, condition) = self.holder_of(place, condition, false)?;
                self.pass(place, condition);
                return Ok(self.settle());
            }
            Step::Leave(place) => {
                let place = self.holder(place)?;
                self.leave(place);
            }
            Step::Notify(place, condition) => {
                let (place, condition) = self.holder_of(place, condition, true)?;
                self.notify(place, condition);
                return Ok(Next::Held(place));
            }
            Step::Broadcast(place, condition) => {
                let (place, condition) = self.holder_of(place, condition, true)?;
                self.broadcast(place, condition);
                return Ok(Next::Held(place));
            }
        }
        Ok(self.settle())
    }
}
