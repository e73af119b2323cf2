//! Runs explorations, and prints their outcomes.

use crate::arguments::Arguments;
use crate::outcome::Outcome;
use hoare_law::data::MonitorData;
use order_explorer::{DoorKind, Explored, Limits, Program, explore, explore_again};
use std::alloc::Global;
use std::io;
use std::sync::Wait;
use std::thread::Threads;

// The program whose script is printed even if all programs are tried. It has priorities of two digits.
const WITH_SCRIPT: &str = "starving-6";

/// Tries programs and prints the outcome of each, until one can't be tried or printed.
#[derive(Drop)]
pub struct Teller<R> {
    rt: R,
    alloc: Global,
    asked: Arguments,
    told: io::Result<()>,
}

impl<R: Threads + Wait + Print + Eprint + Copy + Send + 'static> Teller<R> {
    /// Creates a teller that tries and prints what is asked for.
    pub fn of(rt: R, alloc: Global, asked: Arguments) -> Teller<R> {
        let told = Ok(());
        Teller {
            rt,
            alloc,
            asked,
            told,
        }
    }

    /// If all programs are asked for, tries the orders of this program on both doors, and prints the outcome. If this
    /// program alone is asked for, tries it on the door of the limits, and prints the outcome to standard error. To
    /// standard output it then prints the script of the bad order, or of the last run that met a limit. Else, or after a
    /// failure, does nothing.
    pub fn tell<
        D: MonitorData + Send + Drop + 'static,
        P: Program<D, Explored<D>> + Clone + 'static,
    >(&mut self, name: &str, limits: Limits, program: &P) {
        if self.told.is_err() {
            return;
        }
        if self.asked.asks(name) {
            self.told = self.tell_alone(limits, name, program);
        } else if self.asked.is_all() {
            self.told = self.tell_on_both(limits, name, program);
        }
    }

    /// Returns the first failure, if something couldn't be tried or printed.
    pub fn end(self) -> io::Result<()> {
        self.told
    }

    // Tries all orders of a program, or, if a script is given, that order alone. Returns the outcome.
    fn outcome_of<
        D: MonitorData + Send + Drop + 'static,
        P: Program<D, Explored<D>> + Clone + 'static,
    >(&self, limits: Limits, script: Option<&str>, program: &P) -> io::Result<Outcome> {
        let program = program.clone()?;
        let found = match script {
            None => explore(self.rt, self.alloc, program, limits)?,
            Some(script) => explore_again(self.rt, self.alloc, program, script, limits)?,
        };
        Outcome::of(self.alloc, &found)
    }

    // Tries a program. Prints the outcome to standard error, and to standard output the script of the bad order, or of
    // the last run that met a limit.
    fn tell_alone<
        D: MonitorData + Send + Drop + 'static,
        P: Program<D, Explored<D>> + Clone + 'static,
    >(&self, limits: Limits, name: &str, program: &P) -> io::Result<()> {
        let outcome = self.outcome_of(limits, None, program)?;
        let words = outcome.words.as_str();
        let script = outcome.script.as_str();
        eprint!(&self.rt; "{name}: {words}")?;
        print!(&self.rt; "{script}")
    }

    // Tries a program on both doors, and prints the outcomes, and the script of the bad order of `WITH_SCRIPT`. Then
    // runs the bad order again alone, and prints a line if it ends otherwise.
    fn tell_on_both<
        D: MonitorData + Send + Drop + 'static,
        P: Program<D, Explored<D>> + Clone + 'static,
    >(&self, limits: Limits, name: &str, program: &P) -> io::Result<()> {
        let baton = self.outcome_of(limits, None, program)?;
        let door = DoorKind::Ticket;
        let ticket = self.outcome_of(Limits { door, ..limits }, None, program)?;
        tell_both(&self.rt, name, baton.words.as_str(), ticket.words.as_str())?;
        let script = baton.script.as_str();
        if name == WITH_SCRIPT {
            print!(&self.rt; "{script}")?;
        }
        if baton.ending.is_some()
            && !self
                .outcome_of(limits, Some(script), program)?
                .is_as(&baton)
        {
            return println!(&self.rt; "    the order alone ends otherwise");
        }
        Ok(())
    }
}

// Prints the outcomes on both doors, or one of them if they are the same.
fn tell_both<R: Print>(rt: &R, name: &str, baton: &str, ticket: &str) -> io::Result<()> {
    if baton == ticket {
        return print!(rt; "{name}: {baton}");
    }
    print!(rt; "{name}, by a baton: {baton}")?;
    print!(rt; "{name}, by tickets: {ticket}")
}
