//! Attempts to enter, over any monitor: while no place is inside, and while another place is.
use crate::turns::Counter;
use hoare_law::monitor::Monitor;
use std::sync::Wait;

// Makes `turns` attempts to enter. After each that succeeds, adds one and leaves.
fn try_many<R: Wait, M: Monitor<Counter>>(rt: &R, m: &M, out: M::Out, turns: u64) -> M::Out
    requires { M.is_of m.now out }
    ensures { M.is_of m.now result }
{
    let mut out = out;
    for _ in 0..turns {
        out = match m.try_enter(out) {
            Ok(mut inside) => {
                let counter = M::state_mut(&mut inside, m);
                counter.value = counter.value.wrapping_add(1);
                m.leave(rt, inside)
            }
            Err(again) => again,
        };
    }
    out
}

/// Makes `turns` attempts at `out` while no other place is inside. Returns true if all of them succeeded.
pub fn try_free<R: Wait, M: Monitor<Counter>>(rt: &R, m: &M, out: M::Out, turns: u64) -> bool
    requires { M.is_of m.now out }
{
    let out = try_many(rt, m, out, turns);
    let inside = m.enter(rt, out);
    let succeeded = m.state(&inside).value;
    m.leave(rt, inside);
    succeeded == turns
}

/// Makes `turns` attempts at `out` while `other` is inside. Returns true if all of them were refused.
pub fn try_held<R: Wait, M: Monitor<Counter>>(
    rt: &R,
    m: &M,
    other: M::Out,
    out: M::Out,
    turns: u64,
) -> bool
    requires other { M.is_of m.now other }
    requires of { M.is_of m.now out }
{
    let inside = m.enter(rt, other);
    try_many(rt, m, out, turns);
    let succeeded = m.state(&inside).value;
    m.leave(rt, inside);
    succeeded == 0
}
