//! The outcome of an exploration: in words, and as the script of its last run.

use order_explorer::{Ending, Found, Limit, Schedule};
use std::alloc::{AllocError, Global};
use std::io;

/// What an exploration found, as it is printed.
#[derive(Drop)]
pub struct Outcome {
    /// A line in words; for a bad run also a line for each thread that hasn't ended.
    pub words: String,
    /// The script of the last run. It is empty if all orders ended right.
    pub script: String,
    /// How the last run ended, if it is a bad run.
    pub ending: Option<Ending>,
}

impl Outcome {
    /// Creates the outcome of an exploration that found `found`. Refuses if an allocation fails.
    pub fn of(alloc: Global, found: &Found) -> io::Result<Outcome> {
        let mut words = String::new(alloc);
        add_words(&mut words, found)?;
        let mut outcome = Outcome {
            words,
            script: String::new(alloc),
            ending: None,
        };
        if let Some(last) = found.schedule() {
            outcome.script = last.script(alloc)?;
            if !matches!(found, Found::Limit(..)) {
                outcome.ending = Some(last.ending);
                add_left(&mut outcome.words, alloc, last)?;
            }
        }
        Ok(outcome)
    }

    /// Returns true if the last runs of both explorations ended alike, with the same script.
    pub fn is_as(&self, other: &Outcome) -> bool {
        self.ending == other.ending && self.script.as_str() == other.script.as_str()
    }
}

// Adds the number of a bad run, and what its threads do.
fn add_left(words: &mut String, alloc: Global, bad: &Schedule) -> Result<(), AllocError> {
    let run = bad.run;
    writeln!(words, ", in run {run}")?;
    words.push_str(bad.left(alloc)?.as_str())
}

// Adds the outcome in words, without the run.
fn add_words(words: &mut String, found: &Found) -> Result<(), AllocError> {
    match found {
        Found::AllOrders(runs) => writeln!(words, "all {runs} orders end, and end right"),
        Found::Limit(limit, runs, _) => {
            let limit = name_of_limit(*limit);
            writeln!(
                words,
                "{runs} orders end, and end right; the limit of {limit} is met"
            )
        }
        Found::Stuck(_) => words.push_str("stuck"),
        Found::Starved(place, _) => write!(words, "thread {place} starves"),
        Found::Wrong(_) => words.push_str("wrong"),
        Found::Differs(_) => words.push_str("other threads want in than before"),
    }
}

fn name_of_limit(limit: Limit) -> &'static str {
    match limit {
        Limit::Runs => "runs",
        Limit::Steps => "steps",
        Limit::Depth => "choices",
    }
}
