//! The raw monitor of a door of either kind.
ghost use Rattle.std.specs.Prelude.{◌≡◌, ◌<◌, ℕ, All};
ghost use Rattle.hoare_law.specs.Priorities.{nobody};
ghost use Rattle.hoare_law.specs.Sizes.{kinds_of};
ghost use Rattle.wait_book.specs.Contents.{IsPlaceBelow};
ghost use Rattle.door_frame.specs.Steps.{MayGive, MayNote};
ghost use Rattle.door_frame.specs.Places.{Closes, Entered, HasPlace, IsOut, IsWoken};
ghost use Rattle.door_frame.specs.Seats.{GoesOut, StaysIn};
ghost use Rattle.door_frame.specs.Releases.{event_of};
ghost use Rattle.door_frame.specs.Notifications.{event_of_notification};
ghost use Rattle.any_door.specs.Doors.{id_of, refuses_at};

use crate::door::RawAnyDoor;
use door_frame::guarded::GuardedBox;
use door_frame::notification::Notification;
use door_frame::place::{Inside, Outside};
use door_frame::raw_monitor::{RawMonitor, Runs, Wakes};
use door_frame::release::Release;
use door_frame::seat_steps::DoorSeat;
use door_frame::waking::Woken;
use hoare_law::data::MonitorData;
use std::sync::Wait;
use wait_book::steps::Next;

impl<D: MonitorData> RawMonitor<D> for RawAnyDoor<D> {
    ghost id = { λ d. id_of d };

    ghost kinds = { λ d. kinds_of D.CONDITIONS D.MESA };

    ghost refuses = { λ d k f h. refuses_at d k f h };

    type Shown = Option<Woken>;

    ghost is_woken = { IsWoken };

    #[inline]
    fn try_admit(&self, seat: &mut DoorSeat<D>, place: usize) -> Option<GuardedBox<D>> {
        match self {
            RawAnyDoor::Baton(door) => door.try_admit(seat, place),
            RawAnyDoor::Ticket(door) => door.try_admit(seat, place),
        }
    }

    #[inline]
    fn try_claim(&self, seat: &mut DoorSeat<D>, place: usize) -> Option<GuardedBox<D>> {
        match self {
            RawAnyDoor::Baton(door) => door.try_claim(seat, place),
            RawAnyDoor::Ticket(door) => door.try_claim(seat, place),
        }
    }

    #[inline]
    fn release(
        &self,
        seat: &mut DoorSeat<D>,
        guarded: GuardedBox<D>,
        place: usize,
        how: Release,
        next: Next,
    ) -> Option<Woken>
        requires table { seat.old.table_id ≡ (id_of self.now).table }
        requires next { IsPlaceBelow (id_of self.now).places next }
        requires event { MayGive D.rest D.ready (event_of place how next) place
            seat.old.me guarded next }
        ensures table { seat.new.table_id ≡ seat.old.table_id }
        ensures away { GoesOut place (event_of place how next)
            seat.old.me guarded.state seat.new.me }
        ensures woken { IsWoken (id_of self.now) next result }
    {
        match self {
            RawAnyDoor::Baton(door) => door.release(seat, guarded, place, how, next),
            RawAnyDoor::Ticket(door) => door.release(seat, guarded, place, how, next),
        }
    }

    #[inline]
    fn note(
        &self,
        seat: &mut DoorSeat<D>,
        guarded: &GuardedBox<D>,
        place: usize,
        notification: Notification,
    )
        requires table { seat.old.table_id ≡ (id_of self.now).table }
        requires event { MayNote D.rest D.ready (event_of_notification place notification guarded.now.state)
            place seat.old.me }
        ensures table { seat.new.table_id ≡ seat.old.table_id }
        ensures stays { StaysIn place (event_of_notification place notification guarded.now.state)
            seat.old.me seat.new.me }
    {
        match self {
            RawAnyDoor::Baton(door) => door.note(seat, guarded, place, notification),
            RawAnyDoor::Ticket(door) => door.note(seat, guarded, place, notification),
        }
    }
}

impl<D: MonitorData> Wakes<D> for RawAnyDoor<D> {
    ghost woken = { λ w. w };

    #[inline]
    fn is_owed(&self, place: usize) -> bool {
        match self {
            RawAnyDoor::Baton(door) => door.is_owed(place),
            RawAnyDoor::Ticket(door) => door.is_owed(place),
        }
    }

    #[inline]
    fn hints_between_polls(&self) -> u32 {
        match self {
            RawAnyDoor::Baton(door) => door.hints_between_polls(),
            RawAnyDoor::Ticket(door) => door.hints_between_polls(),
        }
    }

    ghost wakes = { λ d next w is. is };
}

impl<D: MonitorData> Runs<D> for RawAnyDoor<D> {
    ghost use Rattle.std.specs.Prelude.{refl};

    #[inline]
    fn enter<R: Wait>(&self, rt: &R, out: Outside<D>) -> Inside<D>
        requires { IsOut D.rest D.ready (kinds_of D.CONDITIONS D.MESA) (id_of self.now) out }
        ensures { Entered D.rest D.ready (kinds_of D.CONDITIONS D.MESA) (id_of self.now) out result }
    {
        match self {
            RawAnyDoor::Baton(door) => door.enter(rt, out),
            RawAnyDoor::Ticket(door) => door.enter(rt, out),
        }
    }

    fn close(self, outs: Vec<Outside<D>>) -> D
        requires of { All (IsOut D.rest D.ready (kinds_of D.CONDITIONS D.MESA) (id_of self)) outs.items }
        requires places { (k : ℕ) → k < (id_of self).places → HasPlace k outs.items }
        ensures closes { Closes D.rest D.ready (kinds_of D.CONDITIONS D.MESA) (id_of self) outs.items result }
        ensures rest { D.rest result nobody }
    {
        match self {
            RawAnyDoor::Baton(door) => door.close(outs),
            RawAnyDoor::Ticket(door) => door.close(outs),
        }
    }

    ghost kinds_are = { λ d. refl };
}
