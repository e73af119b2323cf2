//! What the controller knows of one run, and whose turn it is.

ghost use Rattle.std.specs.Prelude.{◌≡◌, ◌↔◌, ◌<◌, ℕ, All, IsTrue, None, Some, length, slice_set};
ghost use Rattle.wait_book.specs.Contents.{next_of};
ghost use Rattle.order_explorer.specs.RunStates.{EndsAtRest, held_by};

use crate::choices::Choices;
use crate::event_log::Note;
use crate::schedule::{Ending, Limit, Schedule, ThreadState};
use std::alloc::{AllocError, Global};
use std::mem;
use wait_book::book::Book;
use wait_book::steps::{Next, Step};

/// An act of the process inside: it waits on a condition with a priority, signals or passes on one, or leaves.
#[derive(Clone, Copy)]
pub enum Act {
    /// It waits on this condition, with this priority.
    Wait(usize, u64),
    /// It signals on this condition, and is held up if a process waits there.
    Signal(usize),
    /// It signals on this condition as its last act.
    Pass(usize),
    /// It leaves the monitor.
    Leave,
}

/// The state under the controller's lock: the book of the queues, what each thread does, the steps and choices of the
/// run, and whose turn it is.
#[derive(Drop)]
pub struct RunState {
    book: Book,
    threads: usize,
    conditions: usize,
    mesa: usize,
    standings: Vec<ThreadState>,
    answers: Vec<u64>,
    steps: Vec<Step>,
    patience: usize,
    choices: Choices,
    turn: Option<usize>,
    ending: Option<Ending>,
    stopped: bool,
    run: u64,
}

// Returns the states of the threads before the first run: each has ended.
fn none_under_way(alloc: Global, threads: usize) -> Result<Vec<ThreadState>, AllocError> {
    let mut standings = Vec::with_capacity(alloc, threads)?;
    for _ in 0..threads {
        standings.push(ThreadState::Ended)?;
    }
    Ok(standings)
}

// Returns true if each thread has ended.
fn all_ended(standings: &[ThreadState]) -> bool
    ensures { IsTrue result ↔ All (λ s. s ≡ ThreadState.Ended) standings.now }
{
    standings
        .iter()
        .all(|standing| *standing == ThreadState::Ended)
}

// Returns how a run ends if no place is inside and none is to enter.
fn ending_at_rest(standings: &[ThreadState]) -> Ending
    ensures { EndsAtRest standings.now result }
{
    if all_ended(standings) {
        Ending::AllEnded
    } else {
        Ending::Stuck
    }
}

// Returns the answers before the first run: all are 0.
fn no_answers(alloc: Global, threads: usize) -> Result<Vec<u64>, AllocError> {
    let mut answers = Vec::with_capacity(alloc, threads)?;
    for _ in 0..threads {
        answers.push(0)?;
    }
    Ok(answers)
}

impl RunState {
    /// Creates the state before the first run. `kinds` are the number of conditions, and how many of them, the last
    /// ones, are Mesa conditions. `steps` is the maximum number of steps of a run, and `patience` that for which a
    /// place waits. Refuses if an allocation fails, or if the book refuses the number of threads or of conditions.
    pub fn make(
        alloc: Global,
        threads: usize,
        kinds: (usize, usize),
        steps: usize,
        patience: usize,
        choices: Choices,
    ) -> Result<RunState, AllocError> {
        let (conditions, mesa) = kinds;
        let Ok(book) = Book::make(alloc, threads, conditions, mesa) else {
            return Err(AllocError);
        };
        Ok(RunState {
            book,
            threads,
            conditions,
            mesa,
            standings: none_under_way(alloc, threads)?,
            answers: no_answers(alloc, threads)?,
            steps: Vec::with_capacity(alloc, steps)?,
            patience,
            choices,
            turn: None,
            ending: Some(Ending::AllEnded),
            stopped: false,
            run: 0,
        })
    }

    /// Begins a run. All threads have ended the previous run, so no process is inside and none waits.
    pub fn start(&mut self) {
        for place in 0..self.standings.len() {
            self.set(place, ThreadState::Ready);
        }
        self.steps.clear();
        self.run = self.run.saturating_add(1);
        self.turn = None;
        self.ending = None;
        self.go_on();
    }

    /// Prepares the choices of the next run. Returns false if all orders were tried.
    pub fn turn_choices(&mut self) -> bool {
        self.choices.turn()
    }

    /// Notes that there is no further run.
    pub fn stop(&mut self) {
        self.stopped = true;
    }

    /// Returns true if there is no further run.
    pub fn is_stopped(&self) -> bool {
        self.stopped
    }

    /// Returns the answers of the threads, in the order of their numbers.
    pub fn answers(&self) -> &[u64] {
        self.answers.as_slice()
    }

    /// Returns how the run ended, if it has.
    pub fn ending(&self) -> Option<Ending> {
        self.ending
    }

    /// Returns true if the run has ended.
    pub fn is_over(&self) -> bool {
        self.ending.is_some()
    }

    /// Returns the place whose thread runs, if there is one.
    pub fn turn(&self) -> Option<usize> {
        self.turn
    }

    /// Returns true if the run hasn't ended and it is the turn of `place`.
    pub fn is_turn_of(&self, place: usize) -> bool {
        self.ending.is_none() && self.turn == Some(place)
    }

    /// Returns the place that is inside, if there is one.
    pub fn inside(&self) -> Option<usize>
        ensures { result ≡ held_by (next_of self.now.book.turn) }
    {
        match self.book.now() {
            Next::Held(place) => Some(place),
            Next::For(_) => None,
            Next::Free => None,
        }
    }

    // Sets what the thread of `place` does. Ignores a place out of range.
    fn set(&mut self, place: usize, standing: ThreadState)
        ensures set { place < length self.old.standings.items
            → self.new.standings.items ≡ slice_set self.old.standings.items place standing }
        ensures book { self.new.book ≡ self.old.book }
    {
        if place < self.standings.len() {
            self.standings[place] = standing;
        }
    }

    // Ends the run, if it hasn't ended.
    fn end(&mut self, ending: Ending) {
        if self.ending.is_none() {
            self.ending = Some(ending);
        }
    }

    // Returns the first place whose thread does this.
    fn first_that(&self, standing: ThreadState) -> Option<usize> {
        for place in 0..self.standings.len() {
            if self.standings[place] == standing {
                return Some(place);
            }
        }
        None
    }

    // Returns the places that are to enter: bit k is place k.
    fn asking(&self) -> u64 {
        let mut asking = 0u64;
        for place in 0..self.standings.len().min(64) {
            if self.standings[place] == ThreadState::Asks {
                asking |= 1u64 << place;
            }
        }
        asking
    }

    // Returns the first place that has waited for more steps than the limit.
    fn starved(&self) -> Option<usize> {
        let count = self.steps.len();
        for place in 0..self.standings.len() {
            if let ThreadState::Waits(_, since) = self.standings[place] {
                if count.saturating_sub(since) > self.patience {
                    return Some(place);
                }
            }
        }
        None
    }

    // Does a step in the book and appends it to the steps. Ends the run if there is no room for it, the book refuses
    // it, or a place has waited for too long then.
    fn step(&mut self, step: Step) {
        if self.steps.len() >= self.steps.capacity() {
            return self.end(Ending::Limit(Limit::Steps));
        }
        match self.book.try_step(step) {
            Ok(next) => {
                self.steps.push_reserved(step);
                if let Next::Held(place) = next {
                    self.set(place, ThreadState::Inside);
                }
            }
            Err(_) => self.end(Ending::Refused),
        }
        if let Some(place) = self.starved() {
            self.end(Ending::Starved(place));
        }
    }

    // Chooses the place whose thread resumes: the place inside, or, if there is none, as `go_on_free` does. Changes
    // nothing if the run has ended.
    fn go_on(&mut self)
        ensures { self.old.ending ≡ None → (k : ℕ) → held_by (next_of self.old.book.turn) ≡ Some k
            → self.new.turn ≡ Some k }
    {
        if self.ending.is_some() {
            return;
        }
        match self.inside() {
            Some(place) => self.turn = Some(place),
            None => self.go_on_free(),
        }
    }

    // Chooses the place whose thread resumes if no place is inside: the first whose thread hasn't begun, or, if all
    // have, a place that is to enter, which it admits. If there is none either, the run ends.
    fn go_on_free(&mut self) {
        if let Some(place) = self.first_that(ThreadState::Ready) {
            self.set(place, ThreadState::Outside);
            self.turn = Some(place);
            return;
        }
        let asking = self.asking();
        if asking == 0 {
            let ending = ending_at_rest(self.standings.as_slice());
            return self.end(ending);
        }
        match self.choices.choose(asking) {
            Ok(place) => {
                self.step(Step::Enter(place as u64));
                self.turn = Some(place);
            }
            Err(ending) => self.end(ending),
        }
    }

    /// Notes that `place` is to enter, and chooses the place whose thread resumes.
    pub fn ask(&mut self, place: usize) {
        self.set(place, ThreadState::Asks);
        self.go_on();
    }

    /// Notes that the thread of `place` has ended with this answer, and chooses the place whose thread resumes.
    pub fn finish(&mut self, place: usize, answer: u64) {
        self.note_end(place, answer);
        self.go_on();
    }

    // Notes that the thread of `place` has ended with this answer.
    fn note_end(&mut self, place: usize, answer: u64)
        ensures { place < length self.old.standings.items
            → self.new.standings.items ≡ slice_set self.old.standings.items place ThreadState.Ended }
    {
        if place < self.answers.len() {
            self.answers[place] = answer;
        }
        self.set(place, ThreadState::Ended);
    }

    /// Does what was logged: a place entered by an attempt, or the process inside notified waiters. `None` means a
    /// note without room: the run ends with `Limit`.
    pub fn hear(&mut self, note: Option<Note>) {
        let Some(note) = note else {
            return self.end(Ending::Limit(Limit::Steps));
        };
        if let Note::Enter(place) = note {
            self.choices.came_by_try();
            return self.step(Step::Enter(place as u64));
        }
        let Some(place) = self.inside() else {
            return self.end(Ending::Refused);
        };
        let number = place as u64;
        match note {
            Note::Notify(condition) => self.step(Step::Notify(number, condition as u64)),
            Note::Broadcast(condition) => self.step(Step::Broadcast(number, condition as u64)),
            Note::Enter(_) => {}
        }
    }

    /// Does an act of the process inside. After a wait or a signal it chooses the place whose thread resumes; after a
    /// pass or a leave the same thread runs on, outside.
    pub fn act(&mut self, act: Act) {
        let Some(place) = self.inside() else {
            return self.end(Ending::Refused);
        };
        let number = place as u64;
        match act {
            Act::Wait(condition, priority) => {
                let since = self.steps.len();
                self.set(place, ThreadState::Waits(condition, since));
                self.step(Step::Wait(number, condition as u64, priority));
                self.go_on();
            }
            Act::Signal(condition) => {
                self.step(Step::Signal(number, condition as u64));
                self.go_on();
            }
            Act::Pass(condition) => {
                self.set(place, ThreadState::Outside);
                self.step(Step::Pass(number, condition as u64));
            }
            Act::Leave => {
                self.set(place, ThreadState::Outside);
                self.step(Step::Leave(number));
            }
        }
    }

    /// Takes out the record of the run, with the given ending.
    pub fn take_schedule(&mut self, alloc: Global, ending: Ending) -> Schedule {
        Schedule {
            run: self.run,
            threads: self.threads,
            conditions: self.conditions,
            mesa: self.mesa,
            inside: self.inside(),
            steps: mem::replace(&mut self.steps, Vec::new(alloc)),
            standings: mem::replace(&mut self.standings, Vec::new(alloc)),
            ending,
        }
    }
}
