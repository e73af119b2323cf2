//! The raw monitor of a `Door`: what it does with its words. `RunningMonitor` builds the calls of `Monitor` on it.
ghost use Rattle.std.specs.Prelude.{◌≡◌, ◌<◌, ℕ, IfOk, IfErr, All};
ghost use Rattle.hoare_law.specs.Priorities.{nobody};
ghost use Rattle.hoare_law.specs.Sizes.{kinds_of};
ghost use Rattle.wait_book.specs.Contents.{IsPlaceBelow};
ghost use Rattle.door_frame.specs.Making.{AreParts, IsMadeOf};
ghost use Rattle.door_frame.specs.Steps.{MayGive, MayNote};
ghost use Rattle.door_frame.specs.Places.{Closes, Entered, HasPlace, IsOut, IsWoken};
ghost use Rattle.door_frame.specs.Refusals.{NotFree};
ghost use Rattle.door_frame.specs.Seats.{GoesOut, StaysIn};
ghost use Rattle.door_frame.specs.Releases.{event_of};
ghost use Rattle.door_frame.specs.Notifications.{event_of_notification};

use crate::door::{RawBatonDoor, open};
use crate::entrance::Entrance;
use crate::place::{DoorIn, DoorOut};
use crate::rule::BatonWords;
use crate::table_steps;
use crate::word::{DOOR, FREE, owed};
use door_frame::calls;
use door_frame::guarded::GuardedBox;
use door_frame::making::{Parts, closed, deal, vacant};
use door_frame::notification::Notification;
use door_frame::raw_monitor::{Opens, RawMonitor, Runs, Wakes};
use door_frame::release::Release;
use door_frame::seat_steps::{DoorSeat, KindsOf};
use door_frame::waking::Woken;
use hoare_law::data::MonitorData;
use std::alloc::Global;
use std::marker::Brand;
use std::sync::Wait;
use wait_book::steps::Next;

/// The number of spin hints between two polls of the state word, which all places share: a poll takes the word's cache
/// line from the next thread that changes the word.
const PAUSE: u32 = 16;

impl<D: MonitorData> RawMonitor<D> for RawBatonDoor<D> {
    ghost id = { λ d. d };

    ghost kinds = { λ d. kinds_of D.CONDITIONS D.MESA };

    ghost refuses = { λ d k f. NotFree };

    type Shown = Option<Woken>;

    ghost is_woken = { IsWoken };

    /// Tries once to enter. Returns `None` if the compare-exchange doesn't find `FREE`.
    #[inline]
    fn try_admit(&self, seat: &mut DoorSeat<D>, place: usize) -> Option<GuardedBox<D>> {
        table_steps::try_admit(&self.table, seat, place)
    }

    /// Takes the monitor for a place that waited or signalled, if it is owed to that place. Returns `None` if the
    /// compare-exchange finds that it isn't.
    #[inline]
    fn try_claim(&self, seat: &mut DoorSeat<D>, place: usize) -> Option<GuardedBox<D>> {
        table_steps::try_claim(&self.table, seat, place)
    }

    #[inline(always)] // as `give`, which it calls, is
    fn release(
        &self,
        seat: &mut DoorSeat<D>,
        guarded: GuardedBox<D>,
        place: usize,
        how: Release,
        next: Next,
    ) -> Option<Woken>
        requires table { seat.old.table_id ≡ self.now.table }
        requires next { IsPlaceBelow self.now.places next }
        requires event { MayGive D.rest D.ready (event_of place how next) place
            seat.old.me guarded next }
        ensures table { seat.new.table_id ≡ seat.old.table_id }
        ensures away { GoesOut place (event_of place how next)
            seat.old.me guarded.state seat.new.me }
        ensures woken { IsWoken self.now next result }
    {
        self.give::<Brand>(seat, guarded, place, how, next)
    }

    #[inline]
    fn note(
        &self,
        seat: &mut DoorSeat<D>,
        guarded: &GuardedBox<D>,
        place: usize,
        notification: Notification,
    )
        requires table { seat.old.table_id ≡ self.now.table }
        requires event { MayNote D.rest D.ready (event_of_notification place notification guarded.now.state)
            place seat.old.me }
        ensures table { seat.new.table_id ≡ seat.old.table_id }
        ensures stays { StaysIn place (event_of_notification place notification guarded.now.state)
            seat.old.me seat.new.me }
    {
        table_steps::tell::<D, usize, Brand>(&self.table, seat, guarded, place, notification);
    }
}

impl<D: MonitorData> Wakes<D> for RawBatonDoor<D> {
    ghost woken = { λ w. w };

    #[inline]
    fn is_owed(&self, place: usize) -> bool {
        self.table.shared.peek(DOOR) == owed(place)
    }

    #[inline]
    fn hints_between_polls(&self) -> u32 {
        PAUSE
    }

    ghost wakes = { λ d next w is. is };
}

impl<D: MonitorData> Runs<D> for RawBatonDoor<D> {
    ghost use Rattle.std.specs.Prelude.{refl};

    /// Enters. Tries once to enter, as `try_enter` does, and keeps trying if that fails. The first attempt is made here
    /// and not in `enter_later`, which may block: after a call of such a function the compiler tests if it returned. If
    /// the first attempt succeeds, no such test is made.
    #[inline]
    fn enter<R: Wait>(&self, rt: &R, out: DoorOut<D>) -> DoorIn<D>
        requires { IsOut D.rest D.ready (kinds_of D.CONDITIONS D.MESA) self.now out }
        ensures { Entered D.rest D.ready (kinds_of D.CONDITIONS D.MESA) self.now out result }
    {
        match calls::try_enter(self, out) {
            Ok(inside) => inside,
            Err(out) => self.enter_later(rt, out),
        }
    }

    fn close(self, outs: Vec<DoorOut<D>>) -> D
        requires of { All (IsOut D.rest D.ready (kinds_of D.CONDITIONS D.MESA) self) outs.items }
        requires places { (k : ℕ) → k < self.places → HasPlace k outs.items }
        ensures closes { Closes D.rest D.ready (kinds_of D.CONDITIONS D.MESA) self outs.items result }
        ensures rest { D.rest result nobody }
    {
        let RawBatonDoor {
            table,
            wakers,
            entrance: _,
        } = self;
        closed(table, wakers, outs)
    }

    ghost kinds_are = { λ d. refl };
}

impl<D: MonitorData> Opens<D> for RawBatonDoor<D> {
    fn open(alloc: Global, parts: Parts<D>) -> Result<(RawBatonDoor<D>, Vec<DoorOut<D>>), D>
        requires { AreParts D.rest (kinds_of D.CONDITIONS D.MESA) parts }
        ensures made { IfOk result (λ r. IsMadeOf D.rest D.ready (kinds_of D.CONDITIONS D.MESA)
            parts r.0 r.1.items) }
        ensures new { IfOk result (λ r. Unit {0}) }
        ensures returned { IfErr result (λ s. s ≡ parts.state) }
    {
        let Parts {
            places,
            state,
            book,
            sleepers,
            wakers,
            outs,
        } = parts;
        let (table, mut seat, guarded) = vacant::<D, usize, BatonWords>(
            alloc, state, book, &[FREE; 8], &places,
        )?;
        open::<D, usize, KindsOf<D>>(&table, &mut seat, guarded);
        let outs = deal(&table, seat, sleepers, outs, places);
        let raw_monitor = RawBatonDoor {
            table,
            wakers,
            entrance: Entrance::new(),
        };
        Ok((raw_monitor, outs))
    }
}
