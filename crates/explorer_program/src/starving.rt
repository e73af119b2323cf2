//! Two threads that resume each other, and a third that waits with less urgency and is passed over.

use crate::tally::Tally;
use hoare_law::monitor::Monitor;
use std::sync::Wait;

// The priority with which the two partners wait for each other.
const PARTNER: u64 = 10;

// Visits once. If a partner waits, resumes it, and is held up until the partner leaves. Else waits with this priority.
fn turn<R: Wait, M: Monitor<Tally>>(rt: &R, m: &M, out: M::Out, priority: u64) -> M::Out
    requires { M.is_of m.now out }
    ensures { M.is_of m.now result }
{
    let mut inside = m.enter(rt, out);
    if m.first(&inside, 0) == Some(PARTNER) {
        let (back, _resumed) = m.signal(rt, inside, 0);
        inside = back;
    } else {
        inside = m.wait(rt, inside, 0, priority);
    }
    m.leave(rt, inside)
}

// Calls `turn` a hundred times.
fn turn_on<R: Wait, M: Monitor<Tally>>(rt: &R, m: &M, out: M::Out, priority: u64) -> M::Out
    requires { M.is_of m.now out }
    ensures { M.is_of m.now result }
{
    let mut out = out;
    for _ in 0..100u32 {
        out = turn(rt, m, out, priority);
    }
    out
}

/// Does the part of thread `number` of `threads`: the first two call `turn` a hundred times as partners, the last a
/// hundred times with less urgency, and the others visit once.
pub fn dance<R: Wait, M: Monitor<Tally>>(
    rt: &R,
    m: &M,
    out: M::Out,
    number: usize,
    threads: usize,
) -> M::Out
    requires { M.is_of m.now out }
    ensures { M.is_of m.now result }
{
    if number < 2 {
        return turn_on(rt, m, out, PARTNER);
    }
    if number.saturating_add(1) == threads {
        return turn_on(rt, m, out, PARTNER + 1);
    }
    m.leave(rt, m.enter(rt, out))
}
