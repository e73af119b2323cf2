//! A bounded buffer with Mesa conditions, over any monitor: what its threads do, and how long that took.
ghost use Rattle.std.specs.Prelude.{All};

use crate::buffers::test_sums;
use baton_door::door::Door;
use hoare_law::monitor::Monitor;
use plain_schedulers::buffer::mesa::MesaBuffer;
use std::rt::Clock;
use std::sync::Wait;
use std::sync::atomic::{AtomicU64, Ordering};
use std::thread;
use std::thread::Threads;
use std::time::{Duration, Instant};
use ticket_door::door::TicketDoor;

/// A monitor of a buffer with Mesa conditions, which threads share.
pub trait SharedMesaBuffer: Monitor<MesaBuffer<u64>> + Sync {}

impl SharedMesaBuffer for Door<MesaBuffer<u64>> {}

impl SharedMesaBuffer for TicketDoor<MesaBuffer<u64>> {}

// Appends the numbers below `turns`.
fn append_many<R: Wait, M: Monitor<MesaBuffer<u64>>>(rt: &R, m: &M, out: M::Out, turns: u64)
    requires { M.is_of m.now out }
{
    let mut out = out;
    for item in 0..turns {
        out = MesaBuffer::append(m, rt, out, item);
    }
}

// Removes `turns` items, and returns their sum, modulo 2^64.
fn remove_many<R: Wait, M: Monitor<MesaBuffer<u64>>>(rt: &R, m: &M, out: M::Out, turns: u64) -> u64
    requires { M.is_of m.now out }
{
    let mut out = out;
    let mut sum = 0u64;
    for _ in 0..turns {
        let (again, item) = MesaBuffer::remove(m, rt, out);
        out = again;
        sum = sum.wrapping_add(item);
    }
    sum
}

/// Half of the threads append, and the others remove, `turns` times each. Returns how long that took, or an error if
/// out of memory, if the clock fails, or if the sum of the removed items is wrong.
pub fn mesa_buffered<R: Threads + Wait + Clock + Sync, M: SharedMesaBuffer>(
    rt: &R,
    m: &M,
    places: Vec<M::Out>,
    turns: u64,
) -> anyhow::Result<Duration>
where
    M::Lists: Send,
    requires { All (M.is_of m.now) places.items }
{
    let start = Instant::now(rt)?;
    let roles = AtomicU64::new(0);
    let sums = thread::map_vec(
        rt,
        places,
        &|out| -> u64
            requires { M.is_of m.now out }
        {
            if roles.fetch_add(1, Ordering::SeqCst) % 2 == 0 {
                append_many(rt, m, out, turns);
                0
            } else {
                remove_many(rt, m, out, turns)
            }
        },
    )?;
    let spent = start.elapsed(rt)?;
    test_sums(&sums, turns)?;
    Ok(spent)
}
