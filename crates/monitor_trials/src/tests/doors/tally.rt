//! Rows of a tally on threads, on each door: what is written is found, no addition is lost, signallers return in order,
//! and a signal to a given place wakes it, and returns.
ghost use Rattle.std.specs.Prelude.{◌≡◌};

use crate::tests::awaited::watch;
use crate::tests::compared::expect_same;
use crate::tests::row::{DoorKind, run};
use any_door::AnyDoor;
use door_frame::place::Outside;
use hoare_law::monitor::Monitor;
use std::process::Abort;
use std::sync::Wait;
use test_support::tally::{Tally, add_one, write_digit};

// Runs a row of a tally on a door of this kind, with this number of places. Fails the test unless it leaves `value`.
macro_rules! tally_on {
    ($rt:ident, $kind:ident, $count:expr, $value:expr, $act:ident $(, $more:expr)*) => {
        let state = test_support::tally::Tally { value: 0 };
        let left = $crate::tests::row::run!($rt, $kind, state, $count, $act $(, $more)*);
        $crate::tests::compared::expect_same($rt, ($kind, left.value), ($kind, $value));
    };
}

pub(crate) use tally_on;

// Place 0 writes 5, reads it at its next visit, waits and reads again. Place 1 adds one when place 0 waits, and resumes
// it.
fn writes_or_adds<R: Wait + Abort, M: Monitor<Tally, Out = Outside<Tally>>>(
    rt: &R,
    m: &M,
    out: M::Out,
) -> M::Out
    requires { M.is_of m.now out }
    ensures of { M.is_of m.now result }
    ensures place { M.place result ≡ M.place out }
{
    if out.number() > 0 {
        let inside = add_one(m, watch(rt, m, out, 1));
        let (inside, resumed) = m.signal(rt, inside, 0);
        expect_same(rt, resumed, true);
        return m.leave(rt, inside);
    }
    let inside = write_digit(m, m.enter(rt, out), 5);
    let inside = m.enter(rt, m.leave(rt, inside));
    expect_same(rt, m.state(&inside).value, 5);
    let inside = m.wait(rt, inside, 0, 0);
    expect_same(rt, m.state(&inside).value, 6);
    m.leave(rt, inside)
}

#[test]
fn what_is_written_is_found(host: HostRuntime) {
    let rt = &host;
    for kind in DoorKind::BOTH {
        tally_on!(rt, kind, 2, 6, writes_or_adds);
    }
}

/// Enters, adds one and leaves, `times` times.
pub fn add_on<R: Wait, M: Monitor<Tally>>(rt: &R, m: &M, out: M::Out, times: u64) -> M::Out
    requires { M.is_of m.now out }
    ensures of { M.is_of m.now result }
    ensures place { M.place result ≡ M.place out }
{
    let mut out = out;
    for _ in 0..times {
        let inside = add_one(m, m.enter(rt, out));
        out = m.leave(rt, inside);
    }
    out
}

#[test]
fn two_thousand_additions(host: HostRuntime) {
    let rt = &host;
    for kind in DoorKind::BOTH {
        tally_on!(rt, kind, 2, 2000, add_on, 1000);
    }
}

// Places 0 and 1 wait, and place 2 signals: place 0 resumes, writes 1 and signals place 1, which writes 2. Then place 2
// returns and writes 3, and then place 0 returns and writes 4.
fn signals_on<R: Wait + Abort, M: Monitor<Tally, Out = Outside<Tally>>>(
    rt: &R,
    m: &M,
    out: M::Out,
) -> M::Out
    requires { M.is_of m.now out }
    ensures of { M.is_of m.now result }
    ensures place { M.place result ≡ M.place out }
{
    let place = out.number();
    let mut inside = watch(rt, m, out, place);
    if place < 2 {
        inside = m.wait(rt, inside, 0, 0);
        inside = write_digit(m, inside, if place == 0 { 1 } else { 2 });
    }
    if place != 1 {
        let (back, _resumed) = m.signal(rt, inside, 0);
        inside = write_digit(m, back, if place == 0 { 4 } else { 3 });
    }
    m.leave(rt, inside)
}

#[test]
fn signallers_return_in_order(host: HostRuntime) {
    let rt = &host;
    for kind in DoorKind::BOTH {
        tally_on!(rt, kind, 3, 1234, signals_on);
    }
}

// Each of three places waits with its number as priority. When all of them wait, the last signals to place 1, although
// place 0 waits with a lesser priority, and then signals twice. Which place is resumed is proved: tested is that it
// wakes, and that the signaller returns.
fn signals_to<R: Wait + Abort>(rt: &R, m: &AnyDoor<Tally>, out: Outside<Tally>) -> Outside<Tally>
    requires { ⟦<AnyDoor<Tally> as Monitor<Tally>>⟧.is_of m.now out }
    ensures of { ⟦<AnyDoor<Tally> as Monitor<Tally>>⟧.is_of m.now result }
    ensures place { result.place ≡ out.place }
{
    let place = out.number();
    if place < 3 {
        let inside = m.enter(rt, out);
        let inside = m.wait(rt, inside, 0, place as u64);
        return m.leave(rt, inside);
    }
    let inside = watch(rt, m, out, 3);
    let (inside, _named) = m.signal_to(rt, inside, 0, 1);
    let (inside, _first) = m.signal(rt, inside, 0);
    let (inside, _second) = m.signal(rt, inside, 0);
    m.leave(rt, inside)
}

#[test]
fn a_named_waiter_resumes(host: HostRuntime) {
    let rt = &host;
    for kind in DoorKind::BOTH {
        tally_on!(rt, kind, 4, 0, signals_to);
    }
}
