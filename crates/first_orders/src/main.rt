//! Tries every order in which three workers may enter the first monitor: none may hang, starve or end wrong.
#![tactic(auto)]

ghost use Rattle.std.specs.Prelude.{◌≡◌};

use first_monitor::permits::{Class, Permits};
use hoare_law::monitor::Monitor;
use order_explorer::{Explored, Found, Limits, Place, Program, explore};
use std::alloc::Global;
use std::io;
use std::sync::Wait;

/// Three workers that share two permits. The first is express. Each takes a permit and gives it back.
#[derive(Clone, Copy)]
struct Workers;

// Runs the worker with this number. Returns its place and its answer: 1 if it could give its permit back, else 0.
fn work<R: Wait, M: Monitor<Permits>>(rt: &R, m: &M, out: M::Out, number: usize) -> (M::Out, u64)
    requires { M.is_of m.now out }
    ensures { M.is_of m.now result.0 }
{
    let class = if number == 0 {
        Class::Express
    } else {
        Class::Standard
    };
    let out = Permits::take(m, rt, out, class);
    let (out, given) = Permits::give(m, rt, out);
    (out, u64::from(given.is_ok()))
}

impl Program<Permits, Explored<Permits>> for Workers {
    // Returns the number of workers.
    fn threads(&self) -> usize {
        3
    }

    // Returns the data with which each order begins.
    fn open(&self, _alloc: Global) -> Option<Permits> {
        Some(Permits::new(2))
    }

    // Runs the worker with this number on its place `out`. Returns its place and its answer.
    fn act<R: Wait>(
        &self,
        rt: &R,
        m: &Explored<Permits>,
        out: Place<Permits>,
        number: usize,
    ) -> (Place<Permits>, u64)
        requires { ⟦<Explored<Permits> as Monitor<Permits>>⟧.is_of m.now out }
        ensures { ⟦<Explored<Permits> as Monitor<Permits>>⟧.is_of m.now result.0 }
    {
        work(rt, m, out, number)
    }

    // Returns true if each worker could give its permit back: then the order ended right. `_left` is the data at the
    // end.
    fn is_right(&self, _left: &Permits, answers: &[u64]) -> bool {
        answers.iter().all(|answer| *answer == 1)
    }
}

// Returns the verdict on what was found, in words.
fn verdict(found: &Found) -> &'static str {
    match found {
        Found::AllOrders(_) => "all orders end right",
        Found::Stuck(_) => "stuck",
        Found::Starved(..) => "a thread starves",
        Found::Wrong(_) => "wrong at the end",
        Found::Differs(_) => "other threads want in than before",
        Found::Limit(..) => "a limit is met",
    }
}

// Prints how many orders there are, if all end right. Else prints the first bad order, or the order of the last run if
// a limit is met, as a script for `hoare_script` and `picture_program`, and the verdict on standard error.
fn main(rt: HostRuntime) -> io::Result<()> {
    let alloc = rt.alloc();
    let found = explore(rt, alloc, Workers, Limits::USUAL)?;
    if let Found::AllOrders(orders) = &found {
        return println!(&rt; "permits: all {orders} orders end, and end right");
    }
    let Some(bad) = found.schedule() else {
        return Ok(());
    };
    let verdict = verdict(&found);
    let run = bad.run;
    let left = bad.left(alloc)?;
    eprint!(&rt; "{verdict}, in run {run}\n{left}")?;
    let script = bad.script(alloc)?;
    print!(&rt; "{script}")
}
