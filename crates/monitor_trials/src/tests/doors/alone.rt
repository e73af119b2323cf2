//! Each door on one thread: what `make` refuses, a place's calls beside 63 others, what the words of a door say, and
//! which polls a place leaves out.
ghost use Rattle.std.specs.Prelude.{◌≡◌};

use crate::tests::compared::{expect_same, reads_as, refused};
use any_door::{AnyDoor, DoorKind};
use baton_door::door::Door;
use baton_door::step_door::StepDoor;
use door_frame::calls::{begin_signal_to, begin_wait};
use door_frame::patience::Patience;
use door_frame::place::Outside;
use door_frame::status::{Holder, Status};
use hoare_law::event::Sizes;
use hoare_law::monitor::Monitor;
use hoare_law::unconstrained::Unconstrained;
use std::alloc::Global;
use std::process::Abort;
use std::sync::Wait;
use test_support::tally::{Tally, calls_all, tries_once};
use ticket_door::door::TicketDoor;
use wait_book::steps::MakeRefused;

// Fails the test unless both doors of `N` conditions refuse this number of places with `wanted`, and return the data.
fn both_refuse<const N: usize, R: Abort>(
    rt: &R,
    alloc: Global,
    places: usize,
    wanted: MakeRefused,
) {
    let data = Unconstrained::<u64, N> { value: 7 };
    let (left, why) = refused(rt, Door::make(alloc, data, places));
    expect_same(rt, (left.value, why), (7, wanted));
    let (left, why) = refused(rt, TicketDoor::make(alloc, data, places));
    expect_same(rt, (left.value, why), (7, wanted));
}

#[test]
fn make_refuses_bad_numbers(rt: HostRuntime) {
    let alloc = rt.alloc();
    both_refuse::<1, _>(&rt, alloc, 0, MakeRefused::BadPlaces);
    both_refuse::<1, _>(&rt, alloc, 65, MakeRefused::BadPlaces);
    both_refuse::<9, _>(&rt, alloc, 1, MakeRefused::BadConditions);
}

/// Number of attempts of one place. An attempt that keeps the monitor for long fails the test by the limit of a minute.
const ATTEMPTS: u64 = 1000;

// Makes the calls of `calls_all`, and then attempts to enter, and leaves each time. Fails the test unless each call
// returned what it should, and each attempt entered.
fn calls_and_tries<R: Wait + Abort, M: Monitor<Tally>>(rt: &R, m: &M, out: M::Out) -> M::Out
    requires { M.is_of m.now out }
    ensures of { M.is_of m.now result }
    ensures place { M.place result ≡ M.place out }
{
    let (mut out, answer) = calls_all(rt, m, out);
    expect_same(rt, answer, 1);
    for _ in 0..ATTEMPTS {
        let (back, has_entered) = tries_once(rt, m, out);
        expect_same(rt, has_entered, true);
        out = back;
    }
    out
}

// `last` makes the calls of `calls_and_tries`, enters and begins to wait, and `other` begins to signal to it. Fails the
// test unless the door's words say so before `last` enters, while it is inside, and before it resumes.
fn has_statuses<R: Wait + Abort>(
    rt: &R,
    door: &AnyDoor<Tally>,
    last: Outside<Tally>,
    other: Outside<Tally>,
)
    requires last { ⟦<AnyDoor<Tally> as Monitor<Tally>>⟧.is_of door.now last }
    requires other { ⟦<AnyDoor<Tally> as Monitor<Tally>>⟧.is_of door.now other }
{
    let number = last.number();
    let last = calls_and_tries(rt, door, last);
    expect_same(rt, door.status().holder, Holder::Nobody);
    let inside = door.enter(rt, last);
    expect_same(rt, door.status().holder, Holder::Somebody);
    let (_away, _next) = begin_wait(&**door, inside, 0, 0);
    let inside = door.enter(rt, other);
    let _waits = inside.has_waiter(0, number);
    match begin_signal_to(&**door, inside, 0, number) {
        Ok(_resumes) => {}
        Err(inside) => {
            let _out = door.leave(rt, inside);
        }
    }
    expect_same(rt, door.status().holder, Holder::Owed(number));
}

// Tests the statuses of a door of this kind, whose last place makes the calls.
fn statuses_of<R: Wait + Abort>(rt: &R, alloc: Global, kind: DoorKind, places: usize) {
    let Ok((door, mut outs)) = kind.make(alloc, Tally { value: 0 }, places) else {
        panic!(rt; "no memory")
    };
    let Some(last) = outs.pop() else {
        panic!(rt; "no place")
    };
    let Some(other) = outs.pop() else {
        panic!(rt; "one place")
    };
    has_statuses(rt, &door, last, other);
}

#[test]
fn a_status_of_each_door(host: HostRuntime) {
    let (rt, alloc) = (&host, host.alloc());
    expect_same(rt, DoorKind::BOTH, [DoorKind::Baton, DoorKind::Ticket]);
    for places in [2, 64] {
        statuses_of(rt, alloc, DoorKind::Baton, places);
        statuses_of(rt, alloc, DoorKind::Ticket, places);
    }
    for (holder, wanted) in &[
        (Holder::Nobody, "nobody inside, 2 waiting to enter"),
        (Holder::Somebody, "a place inside, 2 waiting to enter"),
        (Holder::Owed(63), "handed to place 63, 2 waiting to enter"),
    ] {
        let status = Status {
            holder: *holder,
            entering: 2,
        };
        reads_as(rt, alloc, &status, *wanted);
    }
}

// Returns how many polls a place leaves out before its next one.
fn skips(patience: &Patience) -> u16 {
    for skips in 0..u16::MAX {
        if patience.may_poll() {
            return skips;
        }
    }
    u16::MAX
}

#[test]
fn polls_in_vain_are_left_out(host: HostRuntime) {
    let patience = Patience::new();
    for wanted in [0, 1, 3, 7, 15, 31, 63, 127, 255, 255] {
        expect_same(&host, skips(&patience), wanted);
        patience.has_polled(false);
    }
    for wanted in [255, 0, 0] {
        expect_same(&host, skips(&patience), wanted);
        patience.has_polled(true);
    }
    patience.has_polled(false);
    expect_same(&host, skips(&patience), 1);
}

/// Lets the two places of a door that was just made meet, and expects 5 of the door that is closed with them.
macro_rules! expect_meeting {
    ($rt:expr, $made:expr) => {{
        let Ok((door, mut outs)) = $made else {
            panic!($rt; "no memory")
        };
        let (b, a) = (outs.pop().unwrap(), outs.pop().unwrap());
        let (a, b) = door.meet(a, b);
        outs.push_reserved(a);
        outs.push_reserved(b);
        expect_same(&$rt, door.close(outs).value, 5);
    }};
}

#[test]
fn two_places_meet(rt: HostRuntime) {
    expect_meeting!(rt, Door::make(rt.alloc(), Tally { value: 5 }, 2));
}

#[test]
fn two_places_of_a_step_door_meet(rt: HostRuntime) {
    let sizes = Sizes {
        places: 2,
        conditions: 1,
        mesa: 0,
    };
    expect_meeting!(rt, StepDoor::make(rt.alloc(), Tally { value: 5 }, sizes));
}
