//! A bounded buffer with Hoare's conditions, over any monitor: what its threads do, and how long that took.
ghost use Rattle.std.specs.Prelude.{All};

use baton_door::door::Door;
use hoare_law::monitor::Monitor;
use plain_schedulers::buffer::Buffer;
use std::rt::Clock;
use std::sync::Wait;
use std::sync::atomic::{AtomicU64, Ordering};
use std::thread;
use std::thread::Threads;
use std::time::{Duration, Instant};
use ticket_door::door::TicketDoor;

/// A monitor of a buffer with Hoare's conditions, which threads share.
pub trait SharedBuffer: Monitor<Buffer<u64>> + Sync {}

impl SharedBuffer for Door<Buffer<u64>> {}

impl SharedBuffer for TicketDoor<Buffer<u64>> {}

// Appends the numbers below `turns`.
fn append_many<R: Wait, M: Monitor<Buffer<u64>>>(rt: &R, m: &M, out: M::Out, turns: u64)
    requires { M.is_of m.now out }
{
    let mut out = out;
    for item in 0..turns {
        out = Buffer::append(m, rt, out, item);
    }
}

// Removes `turns` items, and returns their sum, modulo 2^64.
fn remove_many<R: Wait, M: Monitor<Buffer<u64>>>(rt: &R, m: &M, out: M::Out, turns: u64) -> u64
    requires { M.is_of m.now out }
{
    let mut out = out;
    let mut sum = 0u64;
    for _ in 0..turns {
        let (again, item) = Buffer::remove(m, rt, out);
        out = again;
        sum = sum.wrapping_add(item);
    }
    sum
}

/// Tests what was removed from a buffer to which half of the threads appended the numbers below `turns`. `sums` has the
/// sum of what each thread removed. Returns an error if all together isn't the sum of what was appended, modulo 2^64.
pub fn test_sums(sums: &[u64], turns: u64) -> anyhow::Result<()> {
    let removed = sums.iter().fold(0u64, |all, sum| all.wrapping_add(*sum));
    let each = (0..turns).fold(0u64, |all, item| all.wrapping_add(item));
    let appended = each.wrapping_mul(sums.len() as u64 / 2);
    anyhow::ensure!(removed == appended, "the removed items have the wrong sum");
    Ok(())
}

/// Half of the threads append, and the others remove, `turns` times each. Returns how long that took, or an error if
/// out of memory, if the clock fails, or if the sum of the removed items is wrong. There has to be an even number of
/// places: else it may never end.
pub fn buffered<R: Threads + Wait + Clock + Sync, M: SharedBuffer>(
    rt: &R,
    m: &M,
    places: Vec<M::Out>,
    turns: u64,
) -> anyhow::Result<Duration>
where
    M::Lists: Send,
    requires { All (M.is_of m.now) places.items }
{
    let start = Instant::now(rt)?;
    let roles = AtomicU64::new(0);
    let sums = thread::map_vec(
        rt,
        places,
        &|out| -> u64
            requires { M.is_of m.now out }
        {
            if roles.fetch_add(1, Ordering::SeqCst) % 2 == 0 {
                append_many(rt, m, out, turns);
                0
            } else {
                remove_many(rt, m, out, turns)
            }
        },
    )?;
    let spent = start.elapsed(rt)?;
    test_sums(&sums, turns)?;
    Ok(spent)
}
