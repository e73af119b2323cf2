//! Tested only, since no contract says so: that an entering thread is woken if it went to sleep while another place
//! tried to enter. On threads, on each door.
ghost use Rattle.std.specs.Prelude.{◌≡◌};

use crate::tests::awaited::Turns;
use crate::tests::doors::tally::tally_on;
use crate::tests::row::DoorKind;
use door_frame::place::Outside;
use hoare_law::monitor::Monitor;
use std::rt::Clock;
use std::sync::Wait;
use std::thread;
use std::time::Duration;
use test_support::tally::{Tally, add_one, tries_once};

/// The number of places that enter.
const ENTERING: usize = 2;

/// The number of places that only try.
const TRYING: usize = 8;

/// The number of visits of each place that enters, a millisecond apart.
const VISITS: u64 = 100;

// Makes `VISITS` visits and adds one in each.
fn enters<R: Wait + Clock, M: Monitor<Tally>>(rt: &R, m: &M, out: M::Out) -> M::Out
    requires { M.is_of m.now out }
    ensures of { M.is_of m.now result }
    ensures place { M.place result ≡ M.place out }
{
    let mut out = out;
    for _ in 0..VISITS {
        thread::sleep(rt, Duration::from_millis(1));
        let inside = add_one(m, m.enter(rt, out));
        out = m.leave(rt, inside);
    }
    out
}

// Tries until the places that enter have given their turns.
fn tries<R: Wait, M: Monitor<Tally>>(rt: &R, m: &M, out: M::Out, done: &Turns) -> M::Out
    requires { M.is_of m.now out }
    ensures of { M.is_of m.now result }
    ensures place { M.place result ≡ M.place out }
{
    let mut out = out;
    for _ in 0..u64::MAX {
        if done.has_come(ENTERING) {
            break;
        }
        let (back, _has_entered) = tries_once(rt, m, out);
        out = back;
    }
    out
}

// The first `ENTERING` places enter, and each gives a turn when it is done. The others try until then. On a ticket door
// the thread that enters goes to sleep if the thread of a place that tries loses its processor while the gate is shut.
// It loses it most often to the thread that enters, which has just slept: so enough places try that a machine of up to
// eight processors has none idle.
fn enters_or_tries<R: Wait + Clock, M: Monitor<Tally, Out = Outside<Tally>>>(
    rt: &R,
    m: &M,
    out: M::Out,
    done: &Turns,
) -> M::Out
    requires { M.is_of m.now out }
    ensures of { M.is_of m.now result }
    ensures place { M.place result ≡ M.place out }
{
    if out.number() >= ENTERING {
        return tries(rt, m, out, done);
    }
    let out = enters(rt, m, out);
    done.give_next();
    out
}

#[test]
fn two_enter_beside_eight_that_try(host: HostRuntime) {
    let rt = &host;
    let value = ENTERING as u64 * VISITS;
    for kind in DoorKind::BOTH {
        let turns = Turns::new();
        let done = &turns;
        tally_on!(rt, kind, ENTERING + TRYING, value, enters_or_tries, done);
    }
}
