//! The record of a run: how it ended, what each thread did at its end, and the script of its steps.

use std::alloc::{AllocError, Global};
use wait_book::steps::Step;

/// How a run ended.
#[derive(Clone, Copy, Debug, PartialEq, Eq)]
pub enum Ending {
    /// All threads ended.
    AllEnded,
    /// No process is inside and none is to enter, but a process waits.
    Stuck,
    /// This place waited on a condition for more steps than the limit.
    Starved(usize),
    /// The run has more steps or choices than the limit.
    Limit(Limit),
    /// After the same choices other places were to enter: the program depends on something besides the order of
    /// admissions. Or the order that was given isn't an order of the program.
    Differs,
    /// The book of the queues refused a step of the monitor, or a process acted that wasn't inside. (Neither happens.)
    Refused,
}

/// Which limit was met.
#[derive(Clone, Copy, Debug, PartialEq, Eq)]
pub enum Limit {
    /// The number of runs.
    Runs,
    /// The number of steps of a run.
    Steps,
    /// The number of choices of a run: one for each admission, except those by an attempt.
    Depth,
}

/// What a thread does.
#[derive(Clone, Copy, Debug, PartialEq, Eq)]
pub enum ThreadState {
    /// It hasn't begun.
    Ready,
    /// It runs outside the monitor.
    Outside,
    /// It is to enter.
    Asks,
    /// It is inside, or signalled and is held up.
    Inside,
    /// It waits on this condition, or was notified there and hasn't resumed yet. The second number is how many steps of
    /// the run came before its wait.
    Waits(usize, usize),
    /// Its program has ended.
    Ended,
}

/// What happened in a run, in order.
#[derive(Drop)]
pub struct Schedule {
    /// The number of the run, counted from 1.
    pub run: u64,
    /// The number of threads. Each has the place of its number.
    pub threads: usize,
    /// The number of conditions of the monitor.
    pub conditions: usize,
    /// How many of them, the last ones, are Mesa conditions.
    pub mesa: usize,
    /// The place that is inside at the end of the run, if there is one.
    pub inside: Option<usize>,
    /// The steps of the monitor.
    pub steps: Vec<Step>,
    /// What each thread does at the end of the run.
    pub standings: Vec<ThreadState>,
    /// How the run ended.
    pub ending: Ending,
}

// Adds the line of a step.
fn add_step(text: &mut String, step: Step) -> Result<(), AllocError> {
    match step {
        Step::Enter(place) => writeln!(text, "enter {place}"),
        Step::Wait(place, condition, priority) => writeln!(
            text,
            "wait {place} {condition} {priority}"
        ),
        Step::Signal(place, condition) => writeln!(text, "signal {place} {condition}"),
        Step::Pass(place, condition) => writeln!(text, "pass {place} {condition}"),
        Step::Leave(place) => writeln!(text, "leave {place}"),
        Step::Notify(place, condition) => writeln!(text, "notify {place} {condition}"),
        Step::Broadcast(place, condition) => writeln!(text, "broadcast {place} {condition}"),
    }
}

// Adds a line that says what a thread does that isn't inside, unless it has ended.
fn add_standing(text: &mut String, place: usize, standing: ThreadState) -> Result<(), AllocError> {
    match standing {
        ThreadState::Ready => writeln!(text, "thread {place} hasn't begun"),
        ThreadState::Outside => writeln!(text, "thread {place} is outside"),
        ThreadState::Asks => writeln!(text, "thread {place} wants in"),
        ThreadState::Inside => writeln!(text, "thread {place} is a signaller, and held up"),
        ThreadState::Waits(condition, step) => {
            writeln!(
                text,
                "thread {place} waits on condition {condition} since step {step}"
            )
        }
        ThreadState::Ended => Ok(()),
    }
}

impl Schedule {
    /// Returns the script of the run, which `hoare_script` answers and `picture_program` draws. Refuses if an allocation
    /// fails.
    pub fn script(&self, alloc: Global) -> Result<String, AllocError> {
        let threads = self.threads;
        let conditions = self.conditions;
        let mesa = self.mesa;
        let mut text = String::new(alloc);
        if mesa == 0 {
            writeln!(text, "monitor {threads} {conditions}")?;
        } else {
            writeln!(text, "monitor {threads} {conditions} {mesa}")?;
        }
        for step in self.steps.as_slice() {
            add_step(&mut text, *step)?;
        }
        Ok(text)
    }

    /// Returns a line for each thread that hasn't ended, with what it does. Refuses if an allocation fails.
    pub fn left(&self, alloc: Global) -> Result<String, AllocError> {
        let mut text = String::new(alloc);
        for place in 0..self.standings.len() {
            if self.inside == Some(place) {
                writeln!(text, "thread {place} is inside")?;
            } else {
                add_standing(&mut text, place, self.standings[place])?;
            }
        }
        Ok(text)
    }
}
