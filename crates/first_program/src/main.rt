//! The first monitor on threads: a pool of permits, its workers, and a desk that reads how many are free at the end.
#![tactic(auto)]

ghost use Rattle.std.specs.Prelude.{All};

use baton_door::door::Door;
use first_monitor::permits::{Class, Permits};
use hoare_law::monitor::Monitor;
use std::alloc::{AllocError, Global};
use std::sync::Wait;
use std::sync::atomic::{AtomicU32, Ordering};
use std::thread::Threads;
use std::{io, thread};

const WORKERS: u32 = 4;

const PERMITS: u32 = 2;

// Number of jobs of each worker.
const JOBS: u32 = 1000;

// Runs one worker, on its own place: `JOBS` jobs, each with a permit. Returns how many permits it gave back. The place
// is passed in, since no two threads may use one place; the monitor is shared.
fn work<R: Wait, M: Monitor<Permits>>(rt: &R, m: &M, out: M::Out, class: Class) -> u32
    requires { M.is_of m.now out }
{
    let mut out = out;
    let mut done = 0u32;
    for _ in 0..JOBS {
        out = Permits::take(m, rt, out, class);
        // (here the worker does its job, outside the monitor and with a permit)
        let (again, given) = Permits::give(m, rt, out);
        out = again;
        if given.is_ok() {
            done = done.saturating_add(1);
        }
    }
    done
}

// A monitor of permits that threads share. (A closure that is passed to a thread needs a bound without a parameter of
// its own.)
trait SharedPermits: Monitor<Permits> + Sync {}

impl SharedPermits for Door<Permits> {}

// Runs one thread for each place, and returns how many jobs all did. The closure states what it requires of the place
// that it receives: that it is a place of the monitor.
fn work_all<R: Threads + Wait + Sync, M: SharedPermits>(
    rt: &R,
    m: &M,
    places: Vec<M::Out>,
) -> io::Result<u32>
where
    M::Lists: Send,
    requires { All (M.is_of m.now) places.items }
{
    let number = AtomicU32::new(0);
    let done = thread::map_vec(
        rt,
        places,
        &|out| -> u32
            requires { M.is_of m.now out }
        {
            let class = if number.fetch_add(1, Ordering::SeqCst) % 2 == 0 {
                Class::Express
            } else {
                Class::Standard
            };
            work(rt, m, out, class)
        },
    )?;
    let mut sum = 0u32;
    for jobs in done.iter() {
        sum = sum.saturating_add(*jobs);
    }
    Ok(sum)
}

// Lets the workers work, each on its own place, and prints what they did and how many permits are free. The last place
// is the desk's. (This is over any monitor: the checker takes ten times as long for a body that holds a `Door`.)
fn report<R: Threads + Wait + Print + Sync, M: SharedPermits>(
    rt: &R,
    m: &M,
    places: Vec<M::Out>,
) -> io::Result<()>
where
    M::Lists: Send,
    requires { All (M.is_of m.now) places.items }
{
    let mut places = places;
    let Some(desk) = places.pop() else {
        return Err(io::Error::from(AllocError));
    };
    let done = work_all(rt, m, places)?;
    let (_desk, free) = Permits::free(m, rt, desk);
    println!(rt; "{WORKERS} workers did {done} jobs with {PERMITS} permits; {free} are free")
}

fn run<R: Threads + Wait + Print + Sync>(rt: &R, alloc: Global) -> io::Result<()> {
    // One place for each worker, and one for the desk. (`make` can be refused: out of memory, or a number out of
    // range.)
    match Door::make(alloc, Permits::new(PERMITS), WORKERS as usize + 1) {
        Ok((door, places)) => report(rt, &door, places),
        Err(_refused) => Err(io::Error::from(AllocError)),
    }
}

fn main(rt: HostRuntime) -> io::Result<()> {
    run(&rt, rt.alloc())
}
