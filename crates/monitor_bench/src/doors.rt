//! What the places of a counter do, over any monitor, and how long that took.
ghost use Rattle.std.specs.Prelude.{All};

use crate::fairness::{Others, all_met, count_others};
use crate::mixed::{WORKERS, sweep, visit_many};
use crate::rows::no_memory;
use crate::tries::{try_free, try_held};
use crate::turns::{
    CONDITIONS, Counter, Link, add_many, drive_many, link_many, signal_many, wait_many,
};
use baton_door::door::Door;
use hoare_law::monitor::Monitor;
use std::rt::Clock;
use std::sync::Wait;
use std::sync::atomic::{AtomicU64, Ordering};
use std::thread::Threads;
use std::time::{Duration, Instant};
use std::{io, thread};
use ticket_door::door::TicketDoor;

/// A monitor of a counter, which threads share. (A closure that goes to a thread needs a bound without a parameter.)
pub trait SharedCounter: Monitor<Counter> + Sync {}

impl SharedCounter for Door<Counter> {}

impl SharedCounter for TicketDoor<Counter> {}

/// What the places of a counter do.
#[derive(Clone, Copy)]
pub enum Load {
    /// The calling thread does this.
    OneThread(Solo),
    /// Each place has a thread, which does this.
    Threads(Act),
}

/// What one thread does with a counter.
#[derive(Clone, Copy)]
pub enum Solo {
    /// It enters, adds one and leaves.
    Enter,
    /// It makes attempts to enter while no place is inside.
    TryFree,
    /// It makes attempts to enter at one place while another place is inside.
    TryHeld,
}

/// What the threads of a counter do, one at each place. They take their roles in the order in which they start.
#[derive(Clone, Copy)]
pub enum Act {
    /// All enter, add one and leave.
    Enter,
    /// All enter, count how many others entered since their last visit, and leave.
    CountOthers,
    /// One thread waits, and another signals it.
    HandOver,
    /// All but one wait with priorities. The driver waits until all of them wait, and then resumes all.
    Rounds,
    /// Eight are a chain of signallers. The driver waits until all of them wait, and then signals the first.
    Chain,
    /// Eight threads wait, signal, pass and leave, and a ninth resumes waiters.
    Mix,
}

// What the threads of a counter share beside the monitor.
#[derive(Drop)]
struct Team {
    act: Act,
    turns: u64,
    // How many threads there are but one, the driver.
    waiters: u64,
    // How many threads have taken a role.
    started: AtomicU64,
    // How many workers of `Mix` are done.
    done: AtomicU64,
}

impl Team {
    // Does the work of the next role. Returns what the place met with `CountOthers`, else nothing met.
    fn work<R: Wait, M: Monitor<Counter>>(&self, rt: &R, m: &M, out: M::Out) -> Others
        requires { M.is_of m.now out }
    {
        let role = self.started.fetch_add(1, Ordering::SeqCst);
        let turns = self.turns;
        match self.act {
            Act::Enter => add_many(rt, m, out, turns),
            Act::CountOthers => return count_others(rt, m, out, turns),
            Act::HandOver if role == 0 => wait_many(rt, m, out, turns),
            Act::HandOver => signal_many(rt, m, out, turns),
            Act::Rounds if role < self.waiters => {
                let link = Link {
                    condition: 0,
                    priority: role + 1,
                    next: CONDITIONS,
                };
                link_many(rt, m, out, turns, link, self.waiters);
            }
            Act::Chain if role < 8 => {
                let link = Link {
                    condition: role as usize,
                    priority: 1,
                    next: role as usize + 1,
                };
                link_many(rt, m, out, turns, link, self.waiters);
            }
            Act::Rounds | Act::Chain => drive_many(rt, m, out, turns, self.waiters),
            Act::Mix if role < WORKERS => visit_many(rt, m, out, role, turns, &self.done),
            Act::Mix => sweep(rt, m, out, &self.done),
        }
        Others::NONE
    }
}

// Lets a thread at each place do its part, `turns` times. Returns what all places met.
fn with_threads<R: Threads + Wait + Clock + Sync, M: SharedCounter>(
    rt: &R,
    m: &M,
    places: Vec<M::Out>,
    act: Act,
    turns: u64,
) -> io::Result<Others>
where
    M::Lists: Send,
    requires { All (M.is_of m.now) places.items }
{
    let team = Team {
        act,
        turns,
        waiters: places.len().saturating_sub(1) as u64,
        started: AtomicU64::new(0),
        done: AtomicU64::new(0),
    };
    let ended = thread::map_vec(
        rt,
        places,
        &|out| -> Others
            requires { M.is_of m.now out }
        { team.work(rt, m, out) },
    )?;
    Ok(all_met(ended))
}

// Does the work of one thread at the last place, or the last two, `turns` times. Returns an error if there are fewer
// places, or if an attempt has the wrong result.
fn with_one_thread<R: Wait, M: Monitor<Counter>>(
    rt: &R,
    m: &M,
    mut places: Vec<M::Out>,
    solo: Solo,
    turns: u64,
) -> anyhow::Result<()>
    requires { All (M.is_of m.now) places.items }
{
    let out = places.pop().ok_or(no_memory())?;
    let as_meant = match solo {
        Solo::Enter => {
            add_many(rt, m, out, turns);
            true
        }
        Solo::TryFree => try_free(rt, m, out, turns),
        Solo::TryHeld => try_held(rt, m, places.pop().ok_or(no_memory())?, out, turns),
    };
    anyhow::ensure!(as_meant, "an attempt to enter had the wrong result");
    Ok(())
}

/// Lets the places of a counter do their load, `turns` times each. Returns how long that took, and what all places met,
/// which only `CountOthers` counts. Returns an error if out of memory, if there is no place for `OneThread`, or one
/// alone for `TryHeld`, if the clock fails, or if an attempt has the wrong result. `HandOver` has to have two places,
/// `Chain` and `Mix` nine: else they may never end.
pub fn count_with<R: Threads + Wait + Clock + Sync, M: SharedCounter>(
    rt: &R,
    m: &M,
    places: Vec<M::Out>,
    load: Load,
    turns: u64,
) -> anyhow::Result<(Duration, Others)>
where
    M::Lists: Send,
    requires { All (M.is_of m.now) places.items }
{
    let start = Instant::now(rt)?;
    let others = match load {
        Load::Threads(act) => with_threads(rt, m, places, act, turns)?,
        Load::OneThread(solo) => {
            with_one_thread(rt, m, places, solo, turns)?;
            Others::NONE
        }
    };
    Ok((start.elapsed(rt)?, others))
}
