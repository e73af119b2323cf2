//! A gate on a Mesa condition. If its opener notifies one waiter, another may wait for ever; it has to notify all.

use crate::tally::{MESA, Tally};
use hoare_law::monitor::{Monitor, PLAIN};
use std::sync::Wait;

/// Does the part of thread `number`: places 0 and 1 pass the gate, and first wait if it is shut (0); place 2 opens it
/// (1), and notifies all waiters or, if not `all`, one.
pub fn pass_or_notify<R: Wait, M: Monitor<Tally>>(
    rt: &R,
    m: &M,
    out: M::Out,
    number: usize,
    all: bool,
) -> M::Out
    requires { M.is_of m.now out }
    ensures { M.is_of m.now result }
{
    let mut inside = m.enter(rt, out);
    if number < 2 {
        if m.state(&inside).value == 0 {
            inside = m.wait(rt, inside, MESA, PLAIN);
        }
        return m.leave(rt, inside);
    }
    M::state_mut(&mut inside, m).value = 1;
    if all {
        m.broadcast(&mut inside, MESA);
    } else {
        m.notify(&mut inside, MESA);
    }
    m.leave(rt, inside)
}
