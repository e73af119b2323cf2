//! Nine threads that mix their calls. Eight wait with priorities, signal, pass and leave on three conditions, each by a
//! fixed row of numbers. The ninth resumes waiters, by passes, until the eight are done.
ghost use Rattle.std.specs.Prelude.{◌<◌};

use crate::turns::{Counter, count};
use hoare_law::monitor::Monitor;
use hoare_law::waits::Waits;
use std::sync::Wait;
use std::sync::atomic::{AtomicU64, Ordering};
use std::thread;

/// Number of workers: the threads that wait, signal, pass and leave.
pub const WORKERS: u64 = 8;

// Returns the number after `seed` in a row of numbers without a visible pattern.
fn draw(seed: u64) -> u64 {
    seed.wrapping_mul(6364136223846793005)
        .wrapping_add(1442695040888963407)
}

// Returns true if fewer than half of the workers wait.
fn may_wait<M: Monitor<Counter>>(m: &M, inside: &M::In) -> bool
    requires { M.is_of_in m.now inside.now }
{
    let lists = m.lists(inside);
    let waiting = lists
        .count(0)
        .saturating_add(lists.count(1))
        .saturating_add(lists.count(2));
    (waiting as u64) < WORKERS / 2
}

// Makes one visit of a worker, by the number `lot`: it waits, signals, passes or just leaves.
fn visit<R: Wait, M: Monitor<Counter>>(rt: &R, m: &M, out: M::Out, lot: u64) -> M::Out
    requires { M.is_of m.now out }
    ensures { M.is_of m.now result }
{
    let condition = (lot / 8 % 3) as usize;
    let inside = count(m, m.enter(rt, out));
    if lot % 8 < 3 && may_wait(m, &inside) {
        let inside = m.wait(rt, inside, condition, lot / 32 % 4);
        return m.leave(rt, count(m, inside));
    }
    if lot % 8 < 6 && m.queue(&inside, condition) {
        let (inside, _resumed) = m.signal(rt, inside, condition);
        return m.leave(rt, count(m, inside));
    }
    let (out, _resumed) = m.signal_leave(rt, inside, condition);
    out
}

/// Makes `turns` visits, by numbers that begin with `me`, and then counts this worker as done.
pub fn visit_many<R: Wait, M: Monitor<Counter>>(
    rt: &R,
    m: &M,
    out: M::Out,
    me: u64,
    turns: u64,
    done: &AtomicU64,
)
    requires { M.is_of m.now out }
{
    let (mut out, mut lot) = (out, draw(me));
    for _ in 0..turns {
        lot = draw(lot);
        out = visit(rt, m, out, lot / 65536);
    }
    done.fetch_add(1, Ordering::SeqCst);
}

/// Resumes waiters, by passes on each condition in turn, until all workers are done.
pub fn sweep<R: Wait, M: Monitor<Counter>>(rt: &R, m: &M, out: M::Out, done: &AtomicU64)
    requires { M.is_of m.now out }
{
    let (mut out, mut condition) = (out, 0usize);
    for _ in rt.forever() {
        if done.load(Ordering::SeqCst) >= WORKERS {
            return;
        }
        let inside = m.enter(rt, out);
        let (again, _resumed) = m.signal_leave(rt, inside, condition % 3);
        out = again;
        condition = condition.wrapping_add(1);
        thread::yield_now();
    }
    unreachable!()
}
