//! How a place parks until the monitor is owed to it, on any door, and why no wake-up is lost.
//!
//! Each place that waits or has signalled has one word that says whether the monitor is owed to it. Only the thread
//! that releases the monitor sets it; only the place itself clears it.
//!
//! - The place tests its word before each park (`claim`).
//! - The releasing thread first writes the word, then unparks the place (`RawMonitor::release`, `Waker::wake`).
//! - A parker holds one permit: if the place is awake when it is unparked, its next park returns at once.
//!
//! A test after the write finds the monitor owed. If the test comes before the write, the unpark comes after the test:
//! it ends the park that follows, or is the permit with which that park returns at once; the next test then succeeds. A
//! stale permit of an earlier wait costs one extra test: the word is unchanged, and the place parks again.
ghost use Rattle.std.specs.Prelude.{◌≡◌, ◌<◌};
ghost use Rattle.hoare_law.specs.declared.event.History.{History};
ghost use Rattle.door_frame.specs.Places.{sleeper_at};
ghost use Rattle.door_frame.specs.Steps.{due};
ghost use Rattle.door_frame.specs.Seats.{IsEmptyHanded, EntersWith};

use crate::guarded::GuardedBox;
use crate::patience::Patience;
use crate::polling::{POLLS, pause};
use crate::raw_monitor::Wakes;
use crate::seat_steps::DoorSeat;
use crate::waking::Sleeper;
use hoare_law::data::MonitorData;
use std::sync::Wait;

/// Polls until the monitor is owed to `place`, for at most `POLLS` spin hints. Returns true if it is owed.
fn poll_for_turn<D: MonitorData, T: Wakes<D>>(door: &T, place: usize) -> bool
    requires { place < (T.id door.now).places }
{
    let hints = door.hints_between_polls();
    for _ in 0..POLLS / hints {
        pause(hints);
        if door.is_owed(place) {
            return true;
        }
    }
    false
}

/// Polls until the monitor is owed to `place`, for at most `POLLS` spin hints, unless `patience` leaves that out. If
/// the monitor is owed before the first poll, this is neither a hit nor a miss.
fn poll_or_skip<D: MonitorData, T: Wakes<D>>(door: &T, place: usize, patience: &Patience)
    requires { place < (T.id door.now).places }
{
    if !door.is_owed(place) && patience.may_poll() {
        patience.has_polled(poll_for_turn(door, place));
    }
}

/// Blocks until the monitor is owed to `place`, enters and takes the guarded box. Polls for a while, unless the place
/// leaves that out, then tests and parks in turn.
pub fn claim<D: MonitorData, T: Wakes<D>, R: Wait>(
    door: &T,
    rt: &R,
    seat: &mut DoorSeat<D>,
    place: usize,
    sleeper: &Sleeper,
) -> GuardedBox<D>
    requires table { seat.old.table_id ≡ (T.id door.now).table }
    requires small { place < (T.id door.now).places }
    requires sleeper { sleeper.now ≡ sleeper_at (T.id door.now) place }
    requires away { (f : History D) × IsEmptyHanded place f seat.old.me }
    ensures table { seat.new.table_id ≡ seat.old.table_id }
    ensures enters_with { EntersWith D.rest D.ready place (due place) seat.old.me result seat.new.me }
{
    poll_or_skip(door, place, &sleeper.to_resume);
    for _ in rt.forever() {
        if let Some(guarded) = door.try_claim(seat, place) {
            return guarded;
        }
        sleeper.sleep(rt);
    }
    unreachable!()
}
