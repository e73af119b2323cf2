//! A place of a door: outside, inside, or away, if it waits or has signalled and is to return.
ghost use Rattle.std.specs.Prelude.{◌≡◌, true};
ghost use Rattle.door_frame.specs.Views.{is_alone};

use crate::guarded::GuardedBox;
use crate::seat_steps::DoorSeat;
use crate::waking::{Parking, Sleeper};
use std::marker::Model;
use wait_book::book::Book;

/// A place outside, which may enter. It moves between threads and can't be copied. A place that is dropped is lost, and
/// its door can't be closed any more. A contract sees its place id (the door's table, and what the place parks on), its
/// number and its front.
#[derive(Drop)]
pub struct Outside<D, S: Parking = Sleeper> {
    seat: DoorSeat<D>,
    place: usize,
    sleeper: S,
    ghost alone: { is_alone seat.me.0 ≡ true },
}

impl<D, S: Parking> Model for Outside<D, S> {
    ghost use Rattle.door_frame.specs.Places.{PlaceOut, place_id, place_out};
    ghost use Rattle.door_frame.specs.Views.{front_of};
    ghost use Rattle.door_frame.specs.Seats.{IsEmptyHanded};

    ghost Value = { PlaceOut D };

    ghost view = { λ o. place_out (place_id o.seat.table_id (S.at o.seat.table_id o.sleeper)) o.place
        (front_of o.seat.me.0 o.alone) };

    ghost invariant = { λ o. IsEmptyHanded o.place (front_of o.seat.me.0 o.alone) o.seat.me };
}

impl<D, S: Parking> Outside<D, S> {
    ghost use Rattle.hoare_law.specs.declared.event.History.{History};
    ghost use Rattle.std.specs.Prelude.{◌≡◌, true};
    ghost use Rattle.door_frame.specs.Places.{place_id, place_out};
    ghost use Rattle.door_frame.specs.Seats.{IsEmptyHanded};
    ghost use Rattle.door_frame.specs.Views.{is_alone, front_of};

    /// Creates a place outside from its parts. Only a door on this frame can call it: nothing else has a seat.
    #[inline]
    pub fn of_parts(seat: DoorSeat<D>, place: usize, sleeper: S) -> Outside<D, S>
        requires { (f : History D) × IsEmptyHanded place f seat.me }
        ensures { (f : History D) → IsEmptyHanded place f seat.me
            → result ≡ place_out (place_id seat.table_id (S.at seat.table_id sleeper)) place f }
    {
        Outside {
            seat,
            place,
            sleeper,
        }
    }

    /// Returns the place's number.
    pub fn number(&self) -> usize
        ensures { result ≡ self.now.place }
    {
        self.place
    }

    /// Takes the place apart: its seat, its number, and what it parks on.
    #[inline]
    pub fn into_parts(self) -> (DoorSeat<D>, usize, S)
        ensures { (place_id result.0.table_id (S.at result.0.table_id result.2) ≡ self.place_id)
            × (result.1 ≡ self.place) × IsEmptyHanded self.place self.front result.0.me }
    {
        let Outside {
            seat,
            place,
            sleeper,
        } = self;
        (seat, place, sleeper)
    }
}

/// A place that waits on a condition or has signalled: it released the monitor, and returns once the monitor is owed to
/// it. A contract sees its place id (the door's table, and what the place parks on), its number and its front.
#[derive(Drop)]
pub struct Away<D, S: Parking = Sleeper> {
    spot: Outside<D, S>,
}

impl<D, S: Parking> Model for Away<D, S> {
    ghost use Rattle.door_frame.specs.Places.{PlaceOut};

    ghost Value = { PlaceOut D };

    ghost view = { λ g. g.spot };
}

impl<D, S: Parking> Away<D, S> {
    ghost use Rattle.hoare_law.specs.declared.event.History.{History};
    ghost use Rattle.std.specs.Prelude.{◌≡◌};
    ghost use Rattle.door_frame.specs.Places.{place_id, place_out};
    ghost use Rattle.door_frame.specs.Seats.{IsEmptyHanded};

    /// Creates a place that waits or has signalled, from its parts.
    #[inline]
    pub(crate) fn of_parts(seat: DoorSeat<D>, place: usize, sleeper: S) -> Away<D, S>
        requires { (f : History D) × IsEmptyHanded place f seat.me }
        ensures { (f : History D) → IsEmptyHanded place f seat.me
            → result ≡ place_out (place_id seat.table_id (S.at seat.table_id sleeper)) place f }
    {
        Away {
            spot: Outside::of_parts(seat, place, sleeper),
        }
    }

    /// Takes the place apart: its seat, its number, and what it parks on.
    #[inline]
    pub(crate) fn into_parts(self) -> (DoorSeat<D>, usize, S)
        ensures { (place_id result.0.table_id (S.at result.0.table_id result.2) ≡ self.place_id)
            × (result.1 ≡ self.place) × IsEmptyHanded self.place self.front result.0.me }
    {
        let Away { spot } = self;
        spot.into_parts()
    }
}

/// A place inside, with the data in hand. It can't be dropped: it has to leave. A contract sees its place id (the
/// door's table, and what the place parks on), its number, its front and the data.
pub struct Inside<D, S: Parking = Sleeper> {
    pub(crate) seat: DoorSeat<D>,
    pub(crate) place: usize,
    sleeper: S,
    /// The data and the queues. Public so that a door on this frame can lend the data. Code that changes the queues by
    /// hand isn't proved: the place's invariant then fails.
    pub guarded: GuardedBox<D>,
    ghost alone: { is_alone seat.me.0 ≡ true },
}

impl<D, S: Parking> Model for Inside<D, S> {
    ghost use Rattle.door_frame.specs.Places.{PlaceIn, place_id, place_in};
    ghost use Rattle.door_frame.specs.Views.{front_of};
    ghost use Rattle.door_frame.specs.Seats.{IsInside};

    ghost Value = { PlaceIn D };

    ghost view = { λ i. place_in (place_id i.seat.table_id (S.at i.seat.table_id i.sleeper)) i.place
        (front_of i.seat.me.0 i.alone) i.guarded.state };

    ghost invariant = { λ i. IsInside i.place
        (front_of i.seat.me.0 i.alone) i.seat.me i.guarded.book };
}

impl<D, S: Parking> Inside<D, S> {
    ghost use Rattle.std.specs.Prelude.{◌≡◌, ◌≢◌, ◌<◌, ◌↔◌, ℕ, [], IsTrue, slice_index, MatchOption};
    ghost use Rattle.std.specs.Option.{option_map};
    ghost use Rattle.hoare_law.specs.declared.event.History.{History};
    ghost use Rattle.hoare_law.specs.Priorities.{priorities};
    ghost use Rattle.hoare_law.specs.Waiting.{waiting, chosen, priority_of, IsWaiting};
    ghost use Rattle.wait_book.specs.Contents.{priorities_on};
    ghost use Rattle.door_frame.specs.Places.{place_id, place_in};
    ghost use Rattle.door_frame.specs.Seats.{IsInside};

    /// Creates a place inside from its parts.
    #[inline]
    pub(crate) fn of_parts(
        seat: DoorSeat<D>,
        place: usize,
        sleeper: S,
        guarded: GuardedBox<D>,
    ) -> Inside<D, S>
        requires { (f : History D) × IsInside place f seat.me guarded.book }
        ensures { (f : History D) → IsInside place f seat.me guarded.book
            → result ≡ place_in (place_id seat.table_id (S.at seat.table_id sleeper)) place f guarded.state }
    {
        Inside {
            seat,
            place,
            sleeper,
            guarded,
        }
    }

    /// Takes the place apart: its seat, its number, what it parks on, and the guarded box.
    #[inline]
    pub(crate) fn into_parts(self) -> (DoorSeat<D>, usize, S, GuardedBox<D>)
        ensures parts { place_in (place_id result.0.table_id (S.at result.0.table_id result.2))
            result.1 self.front result.3.state
            ≡ self }
        ensures seat { IsInside result.1 self.front result.0.me result.3.book }
    {
        let Inside {
            seat,
            place,
            sleeper,
            guarded,
        } = self;
        (seat, place, sleeper, guarded)
    }

    /// Implements `Monitor::lists`: returns the queues.
    pub fn lists(&self) -> &Book
        ensures { priorities_on result.now ≡ priorities self.now.front.events }
    {
        self.guarded.book()
    }

    /// Implements `Monitor::queue`.
    pub fn queue(&self, condition: usize) -> bool
        requires { condition < self.now.front.sizes.conditions }
        ensures lists { IsTrue result ↔ (priorities self.now.front.events condition ≢ []) }
        ensures front { IsTrue result ↔ (waiting condition self.now.front.events ≢ []) }
    {
        self.guarded.book().queue(condition)
    }

    /// Returns true if `place` waits on `condition`.
    pub fn has_waiter(&self, condition: usize, place: usize) -> bool
        requires { condition < self.now.front.sizes.conditions }
        ensures { IsTrue result ↔ IsWaiting condition self.now.front.events place }
    {
        self.guarded.book().has_waiter(condition, place)
    }

    /// Implements `Monitor::first`.
    pub fn first(&self, condition: usize) -> Option<u64>
        requires { condition < self.now.front.sizes.conditions }
        ensures lists { MatchOption result (priorities self.now.front.events condition ≡ [])
            (λ p. (priorities self.now.front.events condition ≢ [])
            × (p ≡ slice_index (priorities self.now.front.events condition) 0)) }
        ensures front { result ≡ option_map priority_of (chosen condition self.now.front.events) }
    {
        self.guarded.book().first(condition)
    }

    /// Returns the data in hand.
    pub fn state(&self) -> &D
        ensures { result.now ≡ self.now.state }
    {
        &self.guarded.held.contents.state
    }
}
