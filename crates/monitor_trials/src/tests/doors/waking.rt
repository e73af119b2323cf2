//! Tested only, since no contract says so: that a resumed waiter wakes, that it slept until then, as does a signaller
//! until it is back; and that the thread that leaves wakes the entering threads that sleep. On threads, on each door.
ghost use Rattle.std.specs.Prelude.{◌≡◌};

use crate::tests::awaited::{Turns, watch};
use crate::tests::compared::{expect_same, good};
use crate::tests::doors::tally::{add_on, tally_on};
use crate::tests::row::DoorKind;
use door_frame::place::Outside;
use hoare_law::monitor::Monitor;
use std::process::Abort;
use std::rt::Clock;
use std::sync::Wait;
use std::time::{CpuClock, Duration, Instant};
use std::{hint, thread};
use test_support::tally::{Tally, add_one, write_digit};

/// CPU time in microseconds: a place that sleeps in a call uses less than this for it.
const AWAKE: u64 = 30_000;

/// How long each place keeps the other in its call, in milliseconds.
const ASLEEP: u64 = 300;

// Returns the CPU time that this thread has used, in microseconds. Fails the test if there is no clock.
fn spent<R: Abort + CpuClock>(rt: &R) -> u64 {
    let time = good(rt, rt.thread_cpu_time());
    u64::try_from(time.as_micros()).unwrap_or(u64::MAX)
}

// Fails the test unless this thread slept since it had used `before` microseconds of CPU time: it used less than `most`
// since then.
fn expect_asleep<R: Abort + CpuClock>(rt: &R, before: u64, most: u64) {
    let took = spent(rt).saturating_sub(before);
    expect_same(rt, if took < most { 0 } else { took }, 0);
}

fn pause<R: Clock>(rt: &R, millis: u64) {
    thread::sleep(rt, Duration::from_millis(millis));
}

// Place 0 waits, then stays inside for `ASLEEP` milliseconds and writes 1. Place 1 lets it wait for as long, signals,
// and writes 2 when it is back. Fails the test unless each slept in its call.
fn waits_long<R: Wait + Abort + Clock + CpuClock, M: Monitor<Tally, Out = Outside<Tally>>>(
    rt: &R,
    m: &M,
    out: M::Out,
) -> M::Out
    requires { M.is_of m.now out }
    ensures of { M.is_of m.now result }
    ensures place { M.place result ≡ M.place out }
{
    if out.number() > 0 {
        let out = m.leave(rt, watch(rt, m, out, 1));
        pause(rt, ASLEEP);
        let inside = m.enter(rt, out);
        let before = spent(rt);
        let (inside, _resumed) = m.signal(rt, inside, 0);
        expect_asleep(rt, before, AWAKE);
        return m.leave(rt, write_digit(m, inside, 2));
    }
    let inside = m.enter(rt, out);
    let before = spent(rt);
    let inside = m.wait(rt, inside, 0, 0);
    expect_asleep(rt, before, AWAKE);
    pause(rt, ASLEEP);
    m.leave(rt, write_digit(m, inside, 1))
}

#[test]
fn who_waits_and_who_signals_sleep(host: HostRuntime) {
    let rt = &host;
    for kind in DoorKind::BOTH {
        tally_on!(rt, kind, 2, 12, waits_long);
    }
}

/// CPU time in microseconds: an entering thread that sleeps until it is woken uses less than this for its call. One
/// that sleeps by a timer of a tenth of a millisecond uses more: it wakes some 2,000 times in `ASLEEP` milliseconds.
const ENTERING: u64 = 2000;

/// How long after the leave the entering thread is inside at most, in milliseconds.
const LATE: u128 = 1000;

// Place 0 enters, gives turn 1, stays inside for `ASLEEP` milliseconds and writes 1. Place 1 enters at that turn, and
// writes 2. Fails the test unless it slept until it was woken, and was inside in time.
fn enters_late<R: Wait + Abort + Clock + CpuClock, M: Monitor<Tally, Out = Outside<Tally>>>(
    rt: &R,
    m: &M,
    out: M::Out,
    turns: &Turns,
) -> M::Out
    requires { M.is_of m.now out }
    ensures of { M.is_of m.now result }
    ensures place { M.place result ≡ M.place out }
{
    if out.number() > 0 {
        turns.await_turn(rt, 1);
        let before = spent(rt);
        let start = good(rt, Instant::now(rt));
        let inside = m.enter(rt, out);
        expect_asleep(rt, before, ENTERING);
        let took = good(rt, start.elapsed(rt));
        expect_same(rt, took.as_millis() < ASLEEP as u128 + LATE, true);
        return m.leave(rt, write_digit(m, inside, 2));
    }
    let inside = m.enter(rt, out);
    turns.give(1);
    pause(rt, ASLEEP);
    m.leave(rt, write_digit(m, inside, 1))
}

#[test]
fn who_enters_sleeps_until_the_leave(host: HostRuntime) {
    let rt = &host;
    for kind in DoorKind::BOTH {
        let given = Turns::new();
        let turns = &given;
        tally_on!(rt, kind, 2, 12, enters_late, turns);
    }
}

/// The number of times that places 1 and 2 enter while place 0 is inside. The row's limit of 25 seconds allows an
/// eighth of a second for each. A thread that isn't woken would sleep for ever.
const ROUNDS: usize = 200;

/// How long place 0 stays inside, in milliseconds. An entering thread polls for less than a tenth of a millisecond, and
/// then sleeps.
const STAY: u64 = 3;

// Enters and gives the next turn, stays inside, adds one and leaves; then does so again without the turn. Returns once
// the two other places were inside in this round.
fn stays<R: Wait + Abort + Clock, M: Monitor<Tally>>(
    rt: &R,
    m: &M,
    out: M::Out,
    round: usize,
    turns: &[Turns; 2],
) -> M::Out
    requires { M.is_of m.now out }
    ensures of { M.is_of m.now result }
    ensures place { M.place result ≡ M.place out }
{
    let inside = m.enter(rt, out);
    turns[0].give_next();
    pause(rt, STAY);
    let inside = m.enter(rt, m.leave(rt, add_one(m, inside)));
    pause(rt, STAY);
    let out = m.leave(rt, add_one(m, inside));
    turns[1].await_turn(rt, round.saturating_mul(2));
    out
}

// Place 0 stays inside until the two other places sleep, leaves, and at once enters and stays once more, in each round.
// The others enter at its turn, while it is inside, add one, leave, and give a turn. On the baton door the place that
// the first leave wakes comes too late, mostly, and sleeps again. The second leave wakes a place, whose leave wakes the
// other.
fn stays_or_enters<R: Wait + Abort + Clock, M: Monitor<Tally, Out = Outside<Tally>>>(
    rt: &R,
    m: &M,
    out: M::Out,
    turns: &[Turns; 2],
) -> M::Out
    requires { M.is_of m.now out }
    ensures of { M.is_of m.now result }
    ensures place { M.place result ≡ M.place out }
{
    let place = out.number();
    let mut out = out;
    for round in 1..=ROUNDS {
        if place == 0 {
            out = stays(rt, m, out, round, turns);
        } else {
            turns[0].await_turn(rt, round);
            out = add_on(rt, m, out, 1);
            turns[1].give_next();
        }
    }
    out
}

#[test]
fn a_parked_thread_enters(host: HostRuntime) {
    let rt = &host;
    for kind in DoorKind::BOTH {
        let given = [Turns::new(), Turns::new()];
        let turns = &given;
        let value = 4 * ROUNDS as u64;
        tally_on!(rt, kind, 3, value, stays_or_enters, turns);
    }
}

/// The number of places that visit. As many other places keep a processor busy each.
const VISITORS: usize = 8;

/// The number of visits of each place that visits.
const VISITS: u64 = 500;

// Keeps a processor busy until all places that visit have given their turns.
fn spin_until_gone(gone: &Turns) {
    for _ in 0..u64::MAX {
        if gone.has_come(VISITORS) {
            return;
        }
        hint::spin_loop();
    }
}

// The first `VISITORS` places make `VISITS` visits each, and each gives a turn when it is done. The others keep a
// processor busy until then.
fn visits_or_spins<R: Wait, M: Monitor<Tally, Out = Outside<Tally>>>(
    rt: &R,
    m: &M,
    out: M::Out,
    gone: &Turns,
) -> M::Out
    requires { M.is_of m.now out }
    ensures of { M.is_of m.now result }
    ensures place { M.place result ≡ M.place out }
{
    if out.number() >= VISITORS {
        spin_until_gone(gone);
        return out;
    }
    let out = add_on(rt, m, out, VISITS);
    gone.give_next();
    out
}

#[test]
fn eight_enter_beside_eight_busy_threads(host: HostRuntime) {
    let rt = &host;
    let value = VISITORS as u64 * VISITS;
    for kind in DoorKind::BOTH {
        let turns = Turns::new();
        let gone = &turns;
        tally_on!(rt, kind, 2 * VISITORS, value, visits_or_spins, gone);
    }
}
