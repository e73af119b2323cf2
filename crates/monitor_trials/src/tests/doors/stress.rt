//! Eight processes enter, attempt to enter, wait with priorities, signal, pass, notify and broadcast. A ninth resumes or
//! notifies the processes that still wait.
//!
//! No clause says that all of them end. The words through which the data pass, and what wakes threads, are trusted. So
//! each process compares the stamp in the data with the last one, which is also in a word apart from the monitor, and
//! the visits are counted twice.
ghost use Rattle.std.specs.Prelude.{◌≡◌, ◌<◌};

use crate::tests::awaited::count_waiting;
use crate::tests::compared::expect_same;
use crate::tests::row::{DoorKind, run};
use door_frame::place::Outside;
use hoare_law::data::MonitorData;
use hoare_law::monitor::Monitor;
use hoare_law::waits::Waits;
use std::process::Abort;
use std::rt::Clock;
use std::sync::Wait;
use std::sync::atomic::{AtomicU64, Ordering};
use std::thread::Threads;
use std::time::Duration;
use std::{hint, thread};

/// Number of workers. One more place sweeps.
const WORKERS: usize = 8;

/// Number of times that the whole test is done, each time with other numbers. (`tests/soak --visits` sets this constant
/// to more, and the next two to 250.)
const DAYS: u64 = 1;

/// Number of visits of each worker on a baton door.
const ROUNDS: u64 = 300;

/// Number of visits of each worker on a ticket door. If threads outnumber processors, an admission by ticket takes
/// longer.
const TICKET_ROUNDS: u64 = 60;

/// The most attempts of a place before it blocks in `enter`.
const TRIES: u64 = 20;

/// For how many spin hints a process stays inside now and then: longer than a thread polls, so that others sleep.
const STAY: u32 = 10_000;

/// What the processes leave in the monitor: data without assertions. Of the eight conditions the last two are Mesa
/// conditions.
#[derive(Drop)]
struct Stamps {
    /// The number that the last process left.
    stamp: u64,
    /// How often a process found another stamp than the last one left.
    torn: u64,
    /// How often a process had the data, after it entered, resumed or was back.
    visits: u64,
    /// How many waiters signals resumed, without those of passes.
    resumed: u64,
    /// How many waiters were notified.
    notified: u64,
    /// Number of workers that have finished.
    finished: usize,
}

impl MonitorData for Stamps {
    ghost use Rattle.std.specs.Prelude.{⊤};

    const CONDITIONS: usize = 8;

    ghost CONDITIONS = { 8 };

    const MESA: usize = 2;

    ghost MESA = { 2 };

    ghost inv = { λ s. ⊤ };

    ghost rest = { λ s q. ⊤ };

    ghost ready = { λ c p s q. ⊤ };

    fn rest_holds<W: Waits>(&self, _lists: &W) -> bool {
        true
    }

    fn ready_holds<W: Waits>(&self, _condition: usize, _priority: u64, _lists: &W) -> bool {
        true
    }

    ghost rest_inv = { λ s q h. tt };

    ghost ready_inv = { λ c p s q h. tt };
}

/// A day: its visits are drawn from its number. `last` is the stamp that the last process left, and `visits` is how
/// often the processes had the data, as they count it.
#[derive(Drop)]
struct Day {
    number: u64,
    rounds: u64,
    last: AtomicU64,
    visits: AtomicU64,
}

/// What a place takes along: the seed of its numbers, the last drawn number, and how often it had the data.
#[derive(Clone, Copy)]
struct Mine {
    seed: u64,
    lot: u64,
    visits: u64,
}

// Returns the pseudo-random number that follows `seed`, and is the seed of the next.
fn draw(seed: u64) -> u64 {
    seed.wrapping_mul(6364136223846793005)
        .wrapping_add(1442695040888963407)
}

// Lets the time of `hints` spin hints pass.
fn stay(hints: u32) {
    for _ in 0..hints {
        hint::spin_loop();
    }
}

// The process has the data: compares the stamp with what the last process left, and leaves the next drawn number. One
// of 32 times it stays for long.
fn has_data<M: Monitor<Stamps>>(m: &M, inside: M::In, day: &Day, mine: &mut Mine) -> M::In
    requires { M.is_of_in m.now inside }
    ensures of { M.is_of_in m.now result }
    ensures place { M.place_in result ≡ M.place_in inside }
{
    mine.seed = draw(mine.seed);
    mine.lot = mine.seed / 65536;
    mine.visits = mine.visits.wrapping_add(1);
    let mut inside = inside;
    let data = M::state_mut(&mut inside, m);
    let last = day.last.swap(mine.seed, Ordering::Relaxed);
    data.torn = data.torn.wrapping_add(u64::from(data.stamp != last));
    data.stamp = mine.seed;
    data.visits = data.visits.wrapping_add(1);
    if mine.lot % 32 == 0 {
        stay(STAY);
    }
    inside
}

// Enters by one of at most `TRIES` attempts, and otherwise by `enter`.
fn enter<R: Wait, M: Monitor<Stamps>>(
    rt: &R,
    m: &M,
    out: M::Out,
    day: &Day,
    mine: &mut Mine,
) -> M::In
    requires { M.is_of m.now out }
    ensures of { M.is_of_in m.now result }
    ensures place { M.place_in result ≡ M.place out }
{
    let mut out = out;
    for _ in 0..mine.lot / 65536 % TRIES {
        match m.try_enter(out) {
            Ok(inside) => return has_data(m, inside, day, mine),
            Err(back) => out = back,
        }
    }
    let inside = m.enter(rt, out);
    has_data(m, inside, day, mine)
}

// Signals a condition, one of Hoare's, and is back.
fn signal<R: Wait, M: Monitor<Stamps>>(
    rt: &R,
    m: &M,
    inside: M::In,
    condition: usize,
    day: &Day,
    mine: &mut Mine,
) -> M::In
    requires of { M.is_of_in m.now inside }
    requires condition { condition < 6 }
    ensures of { M.is_of_in m.now result }
    ensures place { M.place_in result ≡ M.place_in inside }
{
    let (inside, resumed) = m.signal(rt, inside, condition);
    if !resumed {
        return inside;
    }
    let mut inside = has_data(m, inside, day, mine);
    let data = M::state_mut(&mut inside, m);
    data.resumed = data.resumed.wrapping_add(1);
    inside
}

// Notifies the first waiter on a Mesa condition, or all its waiters.
fn notify<M: Monitor<Stamps>>(m: &M, inside: M::In, condition: usize, all: bool) -> M::In
    requires of { M.is_of_in m.now inside }
    requires in_range { condition < 8 }
    requires mesa { 5 < condition }
    ensures of { M.is_of_in m.now result }
    ensures place { M.place_in result ≡ M.place_in inside }
{
    let mut inside = inside;
    let notified = if all {
        m.broadcast(&mut inside, condition) as u64
    } else {
        u64::from(m.notify(&mut inside, condition))
    };
    let data = M::state_mut(&mut inside, m);
    data.notified = data.notified.wrapping_add(notified);
    inside
}

// Rouses waiters on one of the four conditions that are used: signals, notifies or broadcasts.
fn rouse<R: Wait, M: Monitor<Stamps>>(
    rt: &R,
    m: &M,
    inside: M::In,
    day: &Day,
    mine: &mut Mine,
) -> M::In
    requires { M.is_of_in m.now inside }
    ensures of { M.is_of_in m.now result }
    ensures place { M.place_in result ≡ M.place_in inside }
{
    let condition = (mine.lot / 2048 % 2) as usize;
    if mine.lot / 8192 % 2 == 0 {
        return signal(rt, m, inside, condition, day, mine);
    }
    notify(m, inside, 6 + condition, mine.lot / 16384 % 2 == 0)
}

// Waits on one of the four conditions that are used, with a priority from 0 to 2 or the greatest.
fn wait<R: Wait, M: Monitor<Stamps>>(
    rt: &R,
    m: &M,
    inside: M::In,
    day: &Day,
    mine: &mut Mine,
) -> M::In
    requires { M.is_of_in m.now inside }
    ensures of { M.is_of_in m.now result }
    ensures place { M.place_in result ≡ M.place_in inside }
{
    let condition = (mine.lot / 1024 % 2 * 6 + mine.lot / 4096 % 2) as usize;
    let priority = match mine.lot / 32 % 4 {
        3 => u64::MAX,
        least => least,
    };
    let inside = m.wait(rt, inside, condition, priority);
    has_data(m, inside, day, mine)
}

// Makes one visit of a worker: it waits, if fewer than six processes wait then, so that at least two workers don't;
// it rouses waiters; and it leaves or passes.
fn visit<R: Wait, M: Monitor<Stamps>>(
    rt: &R,
    m: &M,
    out: M::Out,
    day: &Day,
    mine: &mut Mine,
) -> M::Out
    requires { M.is_of m.now out }
    ensures of { M.is_of m.now result }
    ensures place { M.place result ≡ M.place out }
{
    let mut inside = enter(rt, m, out, day, mine);
    if mine.lot / 256 % 2 == 0 && count_waiting(m, &inside) < WORKERS - 2 {
        inside = wait(rt, m, inside, day, mine);
    }
    if mine.lot / 512 % 4 > 0 {
        // The signaller that resumed this worker may still be held up: then two signallers are.
        inside = rouse(rt, m, inside, day, mine);
    }
    if mine.lot / 128 % 2 == 0 {
        return m.leave(rt, inside);
    }
    let (out, _resumed) = m.signal_leave(rt, inside, (mine.lot / 64 % 2) as usize);
    out
}

// Makes the visits of a worker, and counts it as finished.
fn work<R: Wait, M: Monitor<Stamps>>(
    rt: &R,
    m: &M,
    out: M::Out,
    day: &Day,
    mine: &mut Mine,
) -> M::Out
    requires { M.is_of m.now out }
    ensures of { M.is_of m.now result }
    ensures place { M.place result ≡ M.place out }
{
    let mut out = out;
    for _ in 0..day.rounds {
        out = visit(rt, m, out, day, mine);
    }
    let mut inside = enter(rt, m, out, day, mine);
    let data = M::state_mut(&mut inside, m);
    data.finished = data.finished.saturating_add(1);
    m.leave(rt, inside)
}

// Resumes or notifies waiters until all workers have finished, in at most 100,000 visits, a millisecond apart.
fn sweep<R: Wait + Clock, M: Monitor<Stamps>>(
    rt: &R,
    m: &M,
    out: M::Out,
    day: &Day,
    mine: &mut Mine,
) -> M::Out
    requires { M.is_of m.now out }
    ensures of { M.is_of m.now result }
    ensures place { M.place result ≡ M.place out }
{
    let mut out = out;
    for turn in 0..100_000usize {
        let inside = enter(rt, m, out, day, mine);
        if m.state(&inside).finished >= WORKERS {
            return m.leave(rt, inside);
        }
        let inside = notify(m, inside, 6 + turn / 2 % 2, true);
        let (back, _resumed) = m.signal_leave(rt, inside, turn % 2);
        out = back;
        thread::sleep(rt, Duration::from_millis(1));
    }
    out
}

// Makes the visits of a worker, or of the last place, which sweeps, and counts how often the place had the data.
fn works_or_sweeps<R: Wait + Clock, M: Monitor<Stamps, Out = Outside<Stamps>>>(
    rt: &R,
    m: &M,
    out: M::Out,
    day: &Day,
) -> M::Out
    requires { M.is_of m.now out }
    ensures of { M.is_of m.now result }
    ensures place { M.place result ≡ M.place out }
{
    let place = out.number();
    let mut mine = Mine {
        seed: draw(draw(day.number).wrapping_add(place as u64)),
        lot: 0,
        visits: 0,
    };
    let out = if place < WORKERS {
        work(rt, m, out, day, &mut mine)
    } else {
        sweep(rt, m, out, day, &mut mine)
    };
    day.visits.fetch_add(mine.visits, Ordering::SeqCst);
    out
}

// Runs a day on a door of this kind. Fails the test if a process didn't find what the last one left, a visit was lost,
// a worker didn't finish, or too few waiters were resumed or notified to test anything.
fn lives<R: Threads + Wait + Abort + Clock + AllocGlobal + Sync>(
    rt: &R,
    kind: DoorKind,
    rounds: u64,
    number: u64,
) {
    let whole_day = Day {
        number,
        rounds,
        last: AtomicU64::new(0),
        visits: AtomicU64::new(0),
    };
    let day = &whole_day;
    let data = Stamps {
        stamp: 0,
        torn: 0,
        visits: 0,
        resumed: 0,
        notified: 0,
        finished: 0,
    };
    let left = run!(rt, kind, data, WORKERS + 1, works_or_sweeps, day);
    let visits = day.visits.load(Ordering::SeqCst);
    expect_same(rt, (kind, left.torn, left.finished), (kind, 0, WORKERS));
    expect_same(rt, (kind, left.visits), (kind, visits));
    let had_waiters = left.resumed.min(left.notified) >= rounds / 4;
    expect_same(rt, (kind, had_waiters), (kind, true));
}

#[test]
fn nine_find_what_the_last_one_left(host: HostRuntime) {
    for number in 0..DAYS {
        lives(&host, DoorKind::Baton, ROUNDS, number);
        lives(&host, DoorKind::Ticket, TICKET_ROUNDS, number);
    }
}
