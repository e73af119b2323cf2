//! Tries the orders of small programs over monitors, and prints the outcome of each. If an argument names a program, it
//! prints only the script of that program's bad order, or of its last run if a limit is met, for `hoare_script` and
//! `picture_program`; the outcome goes to standard error.
#![tactic(auto)]

mod arguments;
mod clock;
mod digits;
mod hidden_state;
mod lost_wake;
mod outcome;
mod report;
mod starving;
mod table;
mod tally;
mod trying;
mod weak_barrier;

use crate::arguments::Arguments;
use crate::clock::Sleepers;
use crate::report::Teller;
use crate::table::Supper;
use crate::tally::{OfTally, Tallied};
use crate::weak_barrier::Weak;
use order_explorer::{Limits, Orders};
use std::io;
use std::sync::Wait;
use std::thread::Threads;

// Three threads of two visits. A run has 6 choices and 12 steps, and there are 90 orders.
const VISITS: OfTally = OfTally::Digits(3, 2, None);

// Tries the programs over a tally: two whose orders are all right, those that have a bad order, the visits with limits
// that are too low by one, six threads of `OfTally::Dance` with a limit of 4 steps that a process waits, and at most
// fifty drawn orders of the visits.
fn tell_tallies<R: Threads + Wait + Print + Eprint + Copy + Send + 'static>(
    teller: &mut Teller<R>,
    usual: Limits,
    drawn: Limits,
) {
    let starving = Limits {
        patience: 4,
        ..usual
    };
    for (name, acts, limits) in &[
        ("visits", VISITS, usual),
        ("all-called", OfTally::Called(true), usual),
        ("lost-wake", OfTally::Called(false), usual),
        ("starving", OfTally::Dance(3), usual),
        ("starving-6", OfTally::Dance(6), starving),
        ("late-wait", OfTally::Try, usual),
        ("wrong-last", OfTally::Digits(4, 2, None), usual),
        ("stuck-last", OfTally::Digits(5, 1, Some(5_432)), usual),
        ("hidden", OfTally::Hidden, usual),
        ("hidden-others", OfTally::HiddenOthers, usual),
        ("few-runs", VISITS, Limits { runs: 89, ..usual }),
        ("few-steps", VISITS, Limits { steps: 11, ..usual }),
        ("few-choices", VISITS, Limits { depth: 5, ..usual }),
        ("drawn", VISITS, drawn),
    ] {
        teller.tell(*name, *limits, &Tallied::of(*acts));
    }
}

fn main(rt: HostRuntime) -> io::Result<()> {
    let arguments = Arguments::of(&rt)?;
    let usual = arguments.limits;
    let hungry = Limits {
        patience: 16,
        ..usual
    };
    let drawn = Limits {
        runs: 50,
        orders: Orders::Drawn(1),
        ..usual
    };
    let mut teller = Teller::of(rt, rt.alloc(), arguments);
    tell_tallies(&mut teller, usual, drawn);
    teller.tell("weak-barrier", usual, &Weak);
    teller.tell("hungry", hungry, &Supper);
    teller.tell("late-alarm", usual, &Sleepers);
    teller.tell("drawn-alarm", drawn, &Sleepers); // (the first drawn order isn't bad)
    teller.end()
}
