//! Threads that share a word besides the monitor. Runs leave it changed, so the same choices lead to other visits.

use crate::tally::Tally;
use hoare_law::monitor::Monitor;
use std::sync::Wait;
use std::sync::atomic::{AtomicU64, Ordering};

/// Visits once; in each second run the first thread visits twice. `runs` counts the runs in which the first thread has
/// made its first visit; no run resets it.
pub fn visit_again<R: Wait, M: Monitor<Tally>>(
    rt: &R,
    m: &M,
    out: M::Out,
    number: usize,
    runs: &AtomicU64,
) -> M::Out
    requires { M.is_of m.now out }
    ensures { M.is_of m.now result }
{
    let out = m.leave(rt, m.enter(rt, out));
    if number == 0 && runs.fetch_add(1, Ordering::SeqCst) % 2 == 1 {
        return m.leave(rt, m.enter(rt, out));
    }
    out
}

/// Visits once; but one of the first two threads stays outside: the second in the first run, and from then on each of
/// the two in turn. So in each run the same number of threads enter, but not the same threads. The first thread begins
/// first in each run, and counts it in `runs`.
pub fn visit_by_turns<R: Wait, M: Monitor<Tally>>(
    rt: &R,
    m: &M,
    out: M::Out,
    number: usize,
    runs: &AtomicU64,
) -> M::Out
    requires { M.is_of m.now out }
    ensures { M.is_of m.now result }
{
    if number == 0 {
        runs.fetch_add(1, Ordering::SeqCst);
    }
    let is_odd = runs.load(Ordering::SeqCst) % 2 == 1;
    if number == usize::from(is_odd) {
        return out;
    }
    m.leave(rt, m.enter(rt, out))
}
