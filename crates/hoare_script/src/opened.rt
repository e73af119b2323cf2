//! The book that a header opened, and its answers to commands.
ghost use Rattle.std.specs.Prelude.{◌≡◌, ◌≤◌, MatchResult, None, Some, ◌⊎◌};
ghost use Rattle.hoare_law.specs.declared.event.History.{History};
ghost use Rattle.hoare_law.specs.Events.{opened};
ghost use Rattle.wait_book.specs.Contents.{IsOf, make_refusal};
ghost use Rattle.wait_book.specs.Numbers.{notified_position};
ghost use Rattle.hoare_script.specs.declared.lines.Command.TheVariants as commands;
ghost use Rattle.hoare_script.specs.Lines.{sizes_in};
ghost use Rattle.hoare_script.specs.Answers.{answer_to, history_after};

use crate::answers::{Answer, outcome_answer};
use crate::lines::{Command, Header};
use std::alloc::Global;
use std::marker::Model;
use wait_book::book::Book;
use wait_book::steps::{MakeRefused, Step, StepRefused};

/// The book of a script, with the number of its conditions. In a contract it is what the book holds.
#[derive(Drop)]
pub struct Opened {
    book: Book,
    conditions: u64,
}

impl Model for Opened {
    ghost use Rattle.std.specs.Prelude.{◌≡◌};
    ghost use Rattle.wait_book.specs.Contents.{Contents};

    ghost Value = { Contents };

    ghost view = { λ o. o.book };

    ghost invariant = { λ o. o.conditions ≡ o.book.sizes.conditions };
}

impl Opened {
    /// Creates a book with the numbers of places, conditions and Mesa conditions of `header`. Refuses, in this order:
    /// with `BadPlaces` if the places aren't 1 to 64; with `BadConditions` if the conditions aren't 1 to 8, or fewer
    /// than the Mesa conditions; and with `Memory` if an allocation fails.
    pub fn make(alloc: Global, header: Header) -> Result<Opened, MakeRefused>
        ensures { MatchResult result
            (λ b. (make_refusal (sizes_in header) ≡ None)
            × IsOf b (opened (sizes_in header) tt))
            (λ e. (make_refusal (sizes_in header) ≡ Some e)
            ⊎ ((make_refusal (sizes_in header) ≡ None)
            × (e ≡ MakeRefused.Memory))) }
    {
        let (places, conditions) = (header.places as usize, header.conditions as usize);
        match Book::make(alloc, places, conditions, header.mesa as usize) {
            Ok(book) => Ok(Opened {
                book,
                conditions: header.conditions,
            }),
            Err(refused) => Err(refused),
        }
    }

    /// Does what `command` asks for, and returns the answer. If the book refuses the step, or the queried condition
    /// doesn't exist, returns `Answer::Refused`, and changes nothing.
    pub fn answer(&mut self, command: Command) -> Answer
        ensures { (h : History (Unit {0})) → IsOf self.old h →
            (result ≡ answer_to h command) × IsOf self.new (history_after h command) }
    {
        match command {
            Command::Do(step) => self.step(step),
            Command::Queue(condition) => self.queue(condition),
            Command::First(condition) => self.first(condition),
        }
    }

    /// Returns the number of `place` among the notified places that haven't resumed yet, as `Book::notified_position`
    /// counts them: 1 for the place that resumes first, and 0 for a place that isn't among them. It is at most 64.
    pub fn notified_position(&self, place: usize) -> usize
        ensures of { (h : History (Unit {0})) → IsOf self.now h
            → result ≡ notified_position h.events place }
        ensures few { result ≤ 64 }
    {
        self.book.notified_position(place)
    }

    // Does a step, and returns its answer.
    fn step(&mut self, step: Step) -> Answer
        ensures { (h : History (Unit {0})) → IsOf self.old h →
            (result ≡ answer_to h (commands.Do step))
            × IsOf self.new (history_after h (commands.Do step)) }
    {
        let outcome = self.book.try_step(step);
        outcome_answer(outcome)
    }

    // Returns `Waiting`, with true if a process waits on the condition. Refuses if there is no such condition.
    fn queue(&self, condition: u64) -> Answer
        ensures { (h : History (Unit {0})) → IsOf self.now h →
            result ≡ answer_to h (commands.Queue condition) }
    {
        if condition >= self.conditions {
            return Answer::Refused(StepRefused::NoCondition);
        }
        Answer::Waiting(self.book.queue(condition as usize))
    }

    // Returns the priority of the chosen waiter on the condition, if there is one. Refuses if there is no such
    // condition.
    fn first(&self, condition: u64) -> Answer
        ensures { (h : History (Unit {0})) → IsOf self.now h →
            result ≡ answer_to h (commands.First condition) }
    {
        if condition >= self.conditions {
            return Answer::Refused(StepRefused::NoCondition);
        }
        match self.book.first(condition as usize) {
            Some(priority) => Answer::Priority(priority),
            None => Answer::Nobody,
        }
    }
}
