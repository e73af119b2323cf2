//! Threads that attempt to enter, and call `enter` if the attempt fails.
//!
//! Place 0 waits at a gate. Each of the two others lets place 0 through if it waits. Then it enters once more: by an
//! attempt, or, if the attempt fails, by `enter`. An attempt is no choice. It fails only after a signal that resumed
//! place 0, which then has the monitor: at most one attempt fails.
//!
//! If place 0 enters first, either of the two others lets it through, fails in its attempt, and calls `enter`. Both
//! others are then to enter, and either may be first: these are the first 2 times 2 orders, and they end right. The
//! fifth order is 1, 2, 0: both attempts succeed, and then no place lets place 0 through.

use crate::tally::Tally;
use hoare_law::monitor::{Monitor, PLAIN};
use std::sync::Wait;

// Adds 1, and signals as it leaves. Then enters once more, and adds 10 if it entered by an attempt, and 100 if by
// `enter`.
fn open<R: Wait, M: Monitor<Tally>>(rt: &R, m: &M, out: M::Out) -> M::Out
    requires { M.is_of m.now out }
    ensures { M.is_of m.now result }
{
    let mut inside = m.enter(rt, out);
    let data = M::state_mut(&mut inside, m);
    data.value = data.value.wrapping_add(1);
    let (out, _resumed) = m.signal_leave(rt, inside, 0);
    let (mut inside, amount) = match m.try_enter(out) {
        Ok(inside) => (inside, 10),
        Err(out) => (m.enter(rt, out), 100),
    };
    let data = M::state_mut(&mut inside, m);
    data.value = data.value.wrapping_add(amount);
    m.leave(rt, inside)
}

/// Does the part of thread `number`: place 0 waits at the gate, and the others open it. If all end, one attempt
/// succeeded, and they leave 112.
pub fn try_or_ask<R: Wait, M: Monitor<Tally>>(rt: &R, m: &M, out: M::Out, number: usize) -> M::Out
    requires { M.is_of m.now out }
    ensures { M.is_of m.now result }
{
    if number > 0 {
        return open(rt, m, out);
    }
    let inside = m.enter(rt, out);
    let inside = m.wait(rt, inside, 0, PLAIN);
    m.leave(rt, inside)
}
