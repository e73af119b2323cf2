//! What the threads of a counter do, over any monitor.
ghost use Rattle.std.specs.Prelude.{◌<◌};

use hoare_law::monitor::Monitor;
use hoare_law::unconstrained::Unconstrained;
use std::sync::Wait;

/// Number of conditions of a counter, and of links in a chain.
pub const CONDITIONS: usize = 8;

/// The data: a counter with eight conditions.
pub type Counter = Unconstrained<u64, 8>;

// The condition on which a driver waits. In a chain the last link waits there too, after the driver.
const DRIVER: usize = CONDITIONS - 1;

/// Enters, adds one and leaves, `turns` times.
pub fn add_many<R: Wait, M: Monitor<Counter>>(rt: &R, m: &M, out: M::Out, turns: u64)
    requires { M.is_of m.now out }
{
    let mut out = out;
    for _ in 0..turns {
        let mut inside = m.enter(rt, out);
        let counter = M::state_mut(&mut inside, m);
        counter.value = counter.value.wrapping_add(1);
        out = m.leave(rt, inside);
    }
}

/// Enters, waits on condition 0, `turns` times, and leaves.
pub fn wait_many<R: Wait, M: Monitor<Counter>>(rt: &R, m: &M, out: M::Out, turns: u64)
    requires { M.is_of m.now out }
{
    let mut inside = m.enter(rt, out);
    for _ in 0..turns {
        inside = m.wait(rt, inside, 0, 0);
    }
    m.leave(rt, inside);
}

/// Enters, signals condition 0 if a process waits on it, and leaves, until it has signalled `turns` times.
pub fn signal_many<R: Wait, M: Monitor<Counter>>(rt: &R, m: &M, out: M::Out, turns: u64)
    requires { M.is_of m.now out }
{
    let (mut out, mut signals) = (out, 0);
    for _ in rt.forever() {
        if signals >= turns {
            return;
        }
        let inside = m.enter(rt, out);
        let (inside, resumed) = m.signal(rt, inside, 0);
        out = m.leave(rt, inside);
        if resumed {
            signals += 1;
        }
    }
    unreachable!()
}

/// Adds one to the counter.
pub fn count<M: Monitor<Counter>>(m: &M, inside: M::In) -> M::In
    requires { M.is_of_in m.now inside }
    ensures { M.is_of_in m.now result }
{
    let mut inside = inside;
    let counter = M::state_mut(&mut inside, m);
    counter.value = counter.value.wrapping_add(1);
    inside
}

// Enters and counts this thread as arrived. If the driver and `waiters` threads have now arrived, signals the driver.
fn arrive<R: Wait, M: Monitor<Counter>>(rt: &R, m: &M, out: M::Out, waiters: u64) -> M::In
    requires { M.is_of m.now out }
    ensures { M.is_of_in m.now result }
{
    let inside = count(m, m.enter(rt, out));
    if m.state(&inside).value <= waiters {
        return inside;
    }
    let (inside, _resumed) = m.signal(rt, inside, DRIVER);
    inside
}

/// What a thread of a team with a driver does.
#[derive(Clone, Copy)]
pub struct Link {
    /// The condition on which it waits.
    pub condition: usize,
    /// Its priority there: at least 1, since the driver waits with 0.
    pub priority: u64,
    /// The condition that it signals then, or `CONDITIONS` if it signals none.
    pub next: usize,
}

/// Enters, waits, signals the next condition and leaves, `turns` times, as one of `waiters` threads that have a driver.
/// The last to arrive signals the driver before it waits.
pub fn link_many<R: Wait, M: Monitor<Counter>>(
    rt: &R,
    m: &M,
    out: M::Out,
    turns: u64,
    link: Link,
    waiters: u64,
)
    requires of { M.is_of m.now out }
    requires condition { link.condition < 8 }
{
    let mut out = out;
    for _ in 0..turns {
        let inside = arrive(rt, m, out, waiters);
        let inside = m.wait(rt, inside, link.condition, link.priority);
        if link.next < CONDITIONS {
            let (inside, _resumed) = m.signal(rt, inside, link.next);
            out = m.leave(rt, inside);
        } else {
            out = m.leave(rt, inside);
        }
    }
}

// Enters, waits until `waiters` other threads have arrived, and leaves. The last of them has signalled this thread, and
// waits before this thread can enter again.
fn await_all<R: Wait, M: Monitor<Counter>>(rt: &R, m: &M, out: M::Out, waiters: u64) -> M::Out
    requires { M.is_of m.now out }
    ensures { M.is_of m.now result }
{
    let mut inside = count(m, m.enter(rt, out));
    if m.state(&inside).value <= waiters {
        inside = m.wait(rt, inside, DRIVER, 0);
    }
    M::state_mut(&mut inside, m).value = 0;
    m.leave(rt, inside)
}

// Signals condition 0 until no process waits there.
fn resume_all<R: Wait, M: Monitor<Counter>>(rt: &R, m: &M, inside: M::In) -> M::In
    requires { M.is_of_in m.now inside }
    ensures { M.is_of_in m.now result }
{
    let mut inside = inside;
    for _ in rt.forever() {
        if !m.queue(&inside, 0) {
            return inside;
        }
        let (again, _resumed) = m.signal(rt, inside, 0);
        inside = again;
    }
    unreachable!()
}

/// Waits until `waiters` other threads wait, and then signals condition 0 until none waits there, `turns` times.
pub fn drive_many<R: Wait, M: Monitor<Counter>>(
    rt: &R,
    m: &M,
    out: M::Out,
    turns: u64,
    waiters: u64,
)
    requires { M.is_of m.now out }
{
    let mut out = out;
    for _ in 0..turns {
        let waited = await_all(rt, m, out, waiters);
        let inside = m.enter(rt, waited);
        out = m.leave(rt, resume_all(rt, m, inside));
    }
}
