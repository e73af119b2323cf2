//! The raw monitor of a ticket door.
ghost use Rattle.std.specs.Prelude.{◌≡◌, ◌<◌, ℕ, IfOk, IfErr, All};
ghost use Rattle.hoare_law.specs.Priorities.{nobody};
ghost use Rattle.hoare_law.specs.Sizes.{kinds_of};
ghost use Rattle.wait_book.specs.Contents.{IsPlaceBelow};
ghost use Rattle.door_frame.specs.Making.{AreParts, IsMadeOf};
ghost use Rattle.door_frame.specs.Steps.{MayGive, MayNote};
ghost use Rattle.door_frame.specs.Refusals.{WasBarred};
ghost use Rattle.door_frame.specs.Places.{Closes, Entered, HasPlace, IsOut, IsWoken};
ghost use Rattle.door_frame.specs.Seats.{GoesOut, StaysIn};
ghost use Rattle.door_frame.specs.Releases.{event_of};
ghost use Rattle.door_frame.specs.Notifications.{event_of_notification};

use crate::door::RawTicketDoor;
use crate::laws::open_at;
use crate::place::{TicketIn, TicketOut};
use crate::rule::TakeBell;
use crate::words::{RUNG, SILENT, bell_of};
use door_frame::guarded::GuardedBox;
use door_frame::making::{Parts, closed};
use door_frame::notification::Notification;
use door_frame::raw_monitor::{Opens, RawMonitor, Runs, Wakes};
use door_frame::release::Release;
use door_frame::seat_steps::DoorSeat;
use door_frame::slot::take_guarded;
use door_frame::waking::Woken;
use hoare_law::data::MonitorData;
use std::alloc::Global;
use std::marker::Brand;
use std::sync::Wait;
use wait_book::steps::Next;

impl<D: MonitorData> RawMonitor<D> for RawTicketDoor<D> {
    ghost id = { λ d. d.door };

    ghost kinds = { λ d. kinds_of D.CONDITIONS D.MESA };

    /// At some moment of the attempt it is a place's turn, or another place is outside. No history says which places
    /// have tickets, or attempt to enter: such a place is outside in it.
    ghost refuses = { λ d k f h. WasBarred k f h };

    type Shown = Option<Woken>;

    ghost is_woken = { IsWoken };

    /// Attempts once, by `attempt`.
    fn try_admit(&self, seat: &mut DoorSeat<D>, place: usize) -> Option<GuardedBox<D>> {
        self.attempt::<Brand>(seat, place)
    }

    /// Swaps the bell of `place` to `SILENT`, once. Returns `None` if it wasn't rung: by the swap the place learns the
    /// history at that moment.
    #[inline]
    fn try_claim(&self, seat: &mut DoorSeat<D>, place: usize) -> Option<GuardedBox<D>> {
        let table = &self.table;
        let bell = bell_of(place);
        if table.shared.swap::<TakeBell>(seat, bell, SILENT) == RUNG {
            return Some(take_guarded(table, seat));
        }
        None
    }

    #[inline(always)] // as `give` is, which it calls
    fn release(
        &self,
        seat: &mut DoorSeat<D>,
        guarded: GuardedBox<D>,
        place: usize,
        how: Release,
        next: Next,
    ) -> Option<Woken>
        requires table { seat.old.table_id ≡ self.now.door.table }
        requires next { IsPlaceBelow self.now.door.places next }
        requires event { MayGive D.rest D.ready (event_of place how next) place
            seat.old.me guarded next }
        ensures table { seat.new.table_id ≡ seat.old.table_id }
        ensures away { GoesOut place (event_of place how next)
            seat.old.me guarded.state seat.new.me }
        ensures woken { IsWoken self.now.door next result }
    {
        self.give::<Brand>(seat, guarded, place, how, next)
    }

    #[inline]
    fn note(
        &self,
        seat: &mut DoorSeat<D>,
        guarded: &GuardedBox<D>,
        place: usize,
        notification: Notification,
    )
        requires table { seat.old.table_id ≡ self.now.door.table }
        requires event { MayNote D.rest D.ready (event_of_notification place notification guarded.now.state)
            place seat.old.me }
        ensures table { seat.new.table_id ≡ seat.old.table_id }
        ensures stays { StaysIn place (event_of_notification place notification guarded.now.state)
            seat.old.me seat.new.me }
    {
        self.tell::<Brand>(seat, guarded, place, notification);
    }
}

impl<D: MonitorData> Wakes<D> for RawTicketDoor<D> {
    ghost woken = { λ w. w };

    #[inline]
    fn is_owed(&self, place: usize) -> bool {
        self.table.shared.peek(bell_of(place)) == RUNG
    }

    #[inline]
    fn hints_between_polls(&self) -> u32 {
        1
    }

    ghost wakes = { λ d next w is. is };
}

impl<D: MonitorData> Runs<D> for RawTicketDoor<D> {
    ghost use Rattle.std.specs.Prelude.{refl};

    #[inline]
    fn enter<R: Wait>(&self, rt: &R, out: TicketOut<D>) -> TicketIn<D>
        requires { IsOut D.rest D.ready (kinds_of D.CONDITIONS D.MESA) self.now.door out }
        ensures { Entered D.rest D.ready (kinds_of D.CONDITIONS D.MESA) self.now.door out result }
    {
        let asked = self.ask(out);
        self.come_in(rt, asked)
    }

    fn close(self, outs: Vec<TicketOut<D>>) -> D
        requires of { All (IsOut D.rest D.ready (kinds_of D.CONDITIONS D.MESA) self.door) outs.items }
        requires places { (k : ℕ) → k < self.door.places → HasPlace k outs.items }
        ensures closes { Closes D.rest D.ready (kinds_of D.CONDITIONS D.MESA) self.door outs.items result }
        ensures rest { D.rest result nobody }
    {
        let RawTicketDoor {
            table,
            wakers,
            waiting_room: _,
        } = self;
        closed(table, wakers, outs)
    }

    ghost kinds_are = { λ d. refl };
}

impl<D: MonitorData> Opens<D> for RawTicketDoor<D> {
    ghost use Rattle.std.specs.Prelude.{◌≡◌};

    /// The first ticket is 0.
    ghost is_new = { λ d. d.first ≡ 0 };

    fn open(alloc: Global, parts: Parts<D>) -> Result<(RawTicketDoor<D>, Vec<TicketOut<D>>), D>
        requires { AreParts D.rest (kinds_of D.CONDITIONS D.MESA) parts }
        ensures made { IfOk result (λ r. IsMadeOf D.rest D.ready (kinds_of D.CONDITIONS D.MESA)
            parts r.0.door r.1.items) }
        ensures new { IfOk result (λ r. r.0.first ≡ 0) }
        ensures returned { IfErr result (λ s. s ≡ parts.state) }
    {
        open_at(alloc, parts, 0)
    }
}
