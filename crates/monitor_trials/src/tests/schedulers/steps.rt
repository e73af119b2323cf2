//! Rows as data: each place of a monitor takes its steps, one after the other, on a thread of its own. A step that
//! calls a scheduler has what the call must return.
ghost use Rattle.std.specs.Prelude.{◌≡◌};

use crate::tests::awaited::{Turns, count_waiting, watch};
use crate::tests::compared::expect_same;
use door_frame::place::Outside;
use hoare_law::data::MonitorData;
use hoare_law::monitor::Monitor;
use std::process::Abort;
use std::rt::Clock;
use std::sync::Wait;

/// A step of a place.
#[derive(Clone, Copy)]
pub enum Step<C> {
    /// Waits outside until this turn is given.
    Awaits(usize),
    /// Gives this turn.
    Gives(usize),
    /// Gives the turns from 1 to this number, each when as many processes wait as turns were given before. Ends when
    /// one process more waits.
    LinesUp(usize),
    /// Enters and leaves until this number of processes wait, on all conditions together.
    Watches(usize),
    /// Enters, and finds that this number of processes wait, on all conditions together.
    Finds(usize),
    /// Makes the call.
    Calls(C),
}

/// Gives the turns from 1 to `last`, each when the processes before it wait. Returns when all of them wait.
pub fn line_up<D: MonitorData, R: Wait + Abort, M: Monitor<D>>(
    rt: &R,
    m: &M,
    out: M::Out,
    turns: &Turns,
    last: usize,
) -> M::Out
    requires { M.is_of m.now out }
    ensures of { M.is_of m.now result }
    ensures place { M.place result ≡ M.place out }
{
    let mut out = out;
    for turn in 1..=last {
        turns.give(turn);
        out = m.leave(rt, watch(rt, m, out, turn));
    }
    out
}

/// A call of a scheduler whose data are `D`, with what it must return.
pub trait Call<D: MonitorData + Send>: Copy + Sync {
    /// Makes the call. Fails the test unless it returns what it must.
    fn make<R: Wait + Abort + AllocGlobal, M: Monitor<D, Out = Outside<D>>>(
        self,
        rt: &R,
        m: &M,
        out: Outside<D>,
        turns: &Turns,
    ) -> Outside<D>
        requires { M.is_of m.now out }
        ensures of { M.is_of m.now result }
        ensures place { M.place result ≡ M.place out };
}

// Takes one step.
fn takes_step<
    D: MonitorData + Send,
    C: Call<D>,
    R: Wait + Abort + AllocGlobal + Clock,
    M: Monitor<D, Out = Outside<D>>,
>(rt: &R, m: &M, out: Outside<D>, step: Step<C>, turns: &Turns) -> Outside<D>
    requires { M.is_of m.now out }
    ensures of { M.is_of m.now result }
    ensures place { M.place result ≡ M.place out }
{
    match step {
        Step::Awaits(turn) => {
            turns.await_turn(rt, turn);
            out
        }
        Step::Gives(turn) => {
            turns.give(turn);
            out
        }
        Step::LinesUp(last) => line_up(rt, m, out, turns, last),
        Step::Watches(wanted) => m.leave(rt, watch(rt, m, out, wanted)),
        Step::Finds(wanted) => {
            let inside = m.enter(rt, out);
            expect_same(rt, count_waiting(m, &inside), wanted);
            m.leave(rt, inside)
        }
        Step::Calls(call) => call.make(rt, m, out, turns),
    }
}

/// Takes the steps of this place of the row, one after the other.
pub fn takes_steps<
    D: MonitorData + Send,
    C: Call<D>,
    R: Wait + Abort + AllocGlobal + Clock,
    M: Monitor<D, Out = Outside<D>>,
>(rt: &R, m: &M, out: Outside<D>, row: &[&[Step<C>]], turns: &Turns) -> Outside<D>
    requires { M.is_of m.now out }
    ensures of { M.is_of m.now result }
    ensures place { M.place result ≡ M.place out }
{
    let Some(steps) = row.get(out.number()) else {
        panic!(rt; "the place has no steps")
    };
    let mut out = out;
    for step in *steps {
        out = takes_step(rt, m, out, *step, turns);
    }
    out
}

// Runs the row on a door of each kind, opened with `$state`: each place takes its steps.
macro_rules! take_steps {
    ($rt:ident, $state:expr, $row:ident) => {
        for kind in $crate::tests::row::DoorKind::BOTH {
            let given = $crate::tests::awaited::Turns::new();
            let turns = &given;
            let _left = $crate::tests::row::run!($rt, kind, $state, $row.len(), |m, out| {
                $crate::tests::schedulers::steps::takes_steps($rt, m, out, $row, turns)
            });
        }
    };
}

pub(crate) use take_steps;
