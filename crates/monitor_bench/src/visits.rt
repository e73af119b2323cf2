//! Visits of some length, over any monitor: how long they take, and how late the next thread enters.
ghost use Rattle.std.specs.Prelude.{All};

use crate::doors::SharedCounter;
use crate::tell;
use crate::turns::Counter;
use hoare_law::monitor::Monitor;
use std::alloc::Global;
use std::rt::Clock;
use std::sync::Wait;
use std::thread::Threads;
use std::time::{Duration, Instant};
use std::{io, thread};

/// Visits of some length: each thread works inside, leaves, and works outside as long. Work polls the clock.
#[derive(Clone, Copy)]
pub struct Visits {
    /// How long each work takes, in microseconds.
    pub micros: u64,
    /// Number of threads, each with a place of its own.
    pub threads: usize,
    /// Number of visits of each thread.
    pub each: u64,
}

// Returns the nanoseconds since `start`.
fn nanos_since<R: Clock>(rt: &R, start: Instant) -> io::Result<u64> {
    let nanos = start.elapsed(rt)?.as_nanos();
    Ok(u64::try_from(nanos).unwrap_or(u64::MAX))
}

// Polls the clock for `micros` microseconds.
fn work<R: Wait + Clock>(rt: &R, micros: u64) -> io::Result<()> {
    let start = Instant::now(rt)?;
    for _ in rt.forever() {
        if start.elapsed(rt)? >= Duration::from_micros(micros) {
            return Ok(());
        }
    }
    unreachable!()
}

// Works inside. The entry began at `asked`; `left` is when the place before left, and this place writes when it leaves.
// Returns how late the entry was, if it had to wait: the time since the place before left, in nanoseconds.
fn stay<R: Wait + Clock>(
    rt: &R,
    start: Instant,
    micros: u64,
    asked: u64,
    left: &mut u64,
) -> io::Result<Option<u64>> {
    let entered = nanos_since(rt, start)?;
    let before = *left;
    work(rt, micros)?;
    *left = nanos_since(rt, start)?;
    if before <= asked {
        return Ok(None);
    }
    Ok(Some(entered.saturating_sub(before)))
}

// Makes the visits of one thread. The data are the time of the last leave. Returns how late each entry was that had to
// wait.
fn visit_many<R: Wait + Clock, M: Monitor<Counter>>(
    rt: &R,
    alloc: Global,
    m: &M,
    out: M::Out,
    start: Instant,
    visits: Visits,
) -> io::Result<Vec<u64>>
    requires { M.is_of m.now out }
{
    let mut out = out;
    let mut lates = Vec::new(alloc);
    for _ in 0..visits.each {
        let asked = nanos_since(rt, start)?;
        let mut inside = m.enter(rt, out);
        let left = &mut M::state_mut(&mut inside, m).value;
        let stayed = stay(rt, start, visits.micros, asked, left);
        out = m.leave(rt, inside);
        if let Some(late) = stayed? {
            lates.push(late)?;
        }
        work(rt, visits.micros)?;
    }
    Ok(lates)
}

/// Makes these visits, with a thread at each place. Returns how long that took, and for each thread how late its entries
/// were that had to wait, in nanoseconds. Returns an error if out of memory or if the clock fails.
pub fn visited<R: Threads + Wait + Clock + Sync, M: SharedCounter>(
    rt: &R,
    m: &M,
    places: Vec<M::Out>,
    alloc: Global,
    visits: Visits,
) -> io::Result<(Duration, Vec<io::Result<Vec<u64>>>)>
where
    M::Lists: Send,
    requires { All (M.is_of m.now) places.items }
{
    let start = Instant::now(rt)?;
    let lates = thread::map_vec(
        rt,
        places,
        &|out| -> io::Result<Vec<u64>>
            requires { M.is_of m.now out }
        { visit_many(rt, alloc, m, out, start, visits) },
    )?;
    Ok((start.elapsed(rt)?, lates))
}

/// Prints a line for the time of a visit, of these visits, which took `spent` in all, and a line for the median of how
/// late threads entered (0 if none had to wait). Returns the first error of a thread, or an error if out of memory or if
/// printing fails.
pub fn show<R: Print>(
    rt: &R,
    alloc: Global,
    visits: Visits,
    spent: Duration,
    lates_of_each: Vec<io::Result<Vec<u64>>>,
) -> io::Result<()> {
    let mut lates = Vec::<u64>::new(alloc);
    for one in lates_of_each {
        lates.extend_from_slice(&one?)?;
    }
    lates.sort_unstable();
    let count = visits.each.saturating_mul(visits.threads as u64);
    tell(rt, "visit", "", spent, count)?;
    let middle = lates.len().saturating_sub(1) / 2;
    let median = lates.get(middle).copied().unwrap_or(0);
    println!(rt; "late_median {median} ns")
}
