//! What a door does with its words: admit a place by one attempt, let a place return to which the monitor is owed, hand
//! the monitor off, and record a notification; and, at a door that wakes its places, how a place polls.
ghost use Rattle.std.specs.Prelude.{◌≡◌, ◌<◌, ℕ, IfSome, IfNone, IfOk, IfErr, All};
ghost use Rattle.hoare_law.specs.declared.event.History.{History};
ghost use Rattle.hoare_law.specs.declared.event.Event.TheVariants as event;
ghost use Rattle.hoare_law.specs.Priorities.{nobody};
ghost use Rattle.hoare_law.specs.Sizes.{kinds_of};
ghost use Rattle.wait_book.specs.Contents.{IsPlaceBelow};
ghost use Rattle.door_frame.specs.Making.{AreParts, IsMadeOf};
ghost use Rattle.door_frame.specs.Places.{DoorId, Entered, IsOut, HasPlace, Closes};
ghost use Rattle.door_frame.specs.Steps.{MayGive, MayNote, due};
ghost use Rattle.door_frame.specs.Refusals.{NotOwed};
ghost use Rattle.door_frame.specs.Seats.{IsEmptyHanded, IsEntering, EntersWith, GoesOut, IsRefused, StaysIn};
ghost use Rattle.door_frame.specs.Releases.{event_of};
ghost use Rattle.door_frame.specs.Notifications.{event_of_notification};

use crate::guarded::GuardedBox;
use crate::making::Parts;
use crate::notification::Notification;
use crate::place::{Inside, Outside};
use crate::release::Release;
use crate::seat_steps::DoorSeat;
use hoare_law::data::MonitorData;
use std::alloc::Global;
use std::sync::Wait;
use wait_book::steps::Next;

/// What a door does with its words. How an entering thread waits until it is admitted is each door's own.
pub trait RawMonitor<D: MonitorData> {
    ghost use Rattle.hoare_law.specs.Sizes.{Kinds};
    ghost use Rattle.wait_book.specs.declared.steps.Next.{Next};
    ghost use Rattle.hoare_law.specs.declared.event.History.{History};

    /// The table that the door's seats belong to, how many places it has, and what each parks on.
    ghost id: { Self → DoorId };

    /// How many conditions the door has, and how many of them are Mesa conditions.
    ghost kinds: { Self → Kinds };

    /// Why an attempt doesn't admit the place with this number, by the history that the place knew before it and the one
    /// that it knows after it.
    ghost refuses: { Self → ℕ → History D → History D → Type 0 };

    /// The type of what `release` returns.
    type Shown: Drop;

    /// What a value that `release` returned shows about the place that resumes next. A door that wakes its places
    /// implements `Wakes` too.
    ghost is_woken: { DoorId → Next → Self.Shown → Type 0 };

    /// Admits the place if it may enter at this moment, and takes the guarded box. Else the place learns the history at
    /// some moment of this call, and `refuses` says why it isn't admitted. Never blocks.
    fn try_admit(&self, seat: &mut DoorSeat<D>, place: usize) -> Option<GuardedBox<D>>
        requires table { seat.old.table_id ≡ (id self.now).table }
        requires outside { IsEntering place seat.old.me }
        ensures table { seat.new.table_id ≡ seat.old.table_id }
        ensures enters_with { IfSome result (λ guarded. EntersWith D.rest D.ready place (λ f. event.Admit place)
            seat.old.me guarded seat.new.me) }
        ensures refused { IfNone result (IsRefused D.rest D.ready (refuses self.now place) place
            seat.old.me seat.new.me) };

    /// Lets the place return if the monitor is owed to it at this moment, and takes the guarded box. Else the place
    /// learns the history at some moment of this call at which the monitor wasn't owed to it. Never blocks.
    fn try_claim(&self, seat: &mut DoorSeat<D>, place: usize) -> Option<GuardedBox<D>>
        requires table { seat.old.table_id ≡ (id self.now).table }
        requires small { place < (id self.now).places }
        requires away { (f : History D) × IsEmptyHanded place f seat.old.me }
        ensures table { seat.new.table_id ≡ seat.old.table_id }
        ensures enters_with { IfSome result (λ guarded. EntersWith D.rest D.ready place (due place)
            seat.old.me guarded seat.new.me) }
        ensures refused { IfNone result (IsRefused D.rest D.ready (λ f. NotOwed place) place seat.old.me seat.new.me) };

    /// Releases the monitor as `how` says: puts the guarded box back, and then writes that `next` resumes. A door that
    /// wakes its places then wakes that place, and the result shows it.
    fn release(
        &self,
        seat: &mut DoorSeat<D>,
        guarded: GuardedBox<D>,
        place: usize,
        how: Release,
        next: Next,
    ) -> Self::Shown
        requires table { seat.old.table_id ≡ (id self.now).table }
        requires next { IsPlaceBelow (id self.now).places next }
        requires event { MayGive D.rest D.ready (event_of place how next) place
            seat.old.me guarded next }
        ensures table { seat.new.table_id ≡ seat.old.table_id }
        ensures away { GoesOut place (event_of place how next)
            seat.old.me guarded.state seat.new.me }
        ensures woken { is_woken (id self.now) next result };

    /// Adds the event of `notification` to the door's history, by one load of a word. The value found isn't used, and
    /// no word changes. `guarded` only names the data in the event.
    fn note(
        &self,
        seat: &mut DoorSeat<D>,
        guarded: &GuardedBox<D>,
        place: usize,
        notification: Notification,
    )
        requires table { seat.old.table_id ≡ (id self.now).table }
        requires event { MayNote D.rest D.ready (event_of_notification place notification guarded.now.state)
            place seat.old.me }
        ensures table { seat.new.table_id ≡ seat.old.table_id }
        ensures stays { StaysIn place (event_of_notification place notification guarded.now.state)
            seat.old.me seat.new.me };
}

/// A door that wakes its places. A call that parks requires it: at a door that wakes nobody a parked place would never
/// resume.
pub trait Wakes<D: MonitorData>: RawMonitor<D> {
    ghost use Rattle.std.specs.Prelude.{Option};
    ghost use Rattle.atomic_table.specs.Seated.{TableId};
    ghost use Rattle.wait_book.specs.declared.steps.Next.{Next};
    ghost use Rattle.door_frame.specs.Places.{DoorId, IsWoken};

    /// The sleeper that was woken, if any, as the value that `release` returned shows.
    ghost woken: { Self.Shown → Option TableId };

    /// Polls the place's word once. Returns true if the monitor is owed to the place. The result is not specified: a
    /// `try_claim` follows.
    fn is_owed(&self, place: usize) -> bool
        requires { place < (Self.id self.now).places };

    /// Returns the number of spin hints between two polls of the place's word: more than 1 if all places share it.
    fn hints_between_polls(&self) -> u32
        ensures { 0 < result };

    /// The sleeper that was woken is that of the place that resumes next.
    ghost wakes: { (d : DoorId) (next : Next) (shown : Self.Shown) → Self.is_woken d next shown
        → IsWoken d next (woken shown) };
}

/// A door that running threads share: how an entering thread waits until it is admitted, and how the door is taken
/// apart. A `RunningMonitor` requires it.
pub trait Runs<D: MonitorData>: Wakes<D> {
    /// Implements `Monitor::enter`.
    fn enter<R: Wait>(&self, rt: &R, out: Outside<D>) -> Inside<D>
        requires { IsOut D.rest D.ready (Self.kinds self.now) (Self.id self.now) out }
        ensures { Entered D.rest D.ready (Self.kinds self.now) (Self.id self.now) out result };

    /// Implements `RunningMonitor::close`: takes the door apart, and returns the data.
    fn close(self, outs: Vec<Outside<D>>) -> D
        requires of { All (IsOut D.rest D.ready (Self.kinds self) (Self.id self)) outs.items }
        requires places { (k : ℕ) → k < (Self.id self).places → HasPlace k outs.items }
        ensures closes { Closes D.rest D.ready (Self.kinds self) (Self.id self) outs.items result }
        ensures rest { D.rest result nobody };

    /// The data's type fixes the conditions.
    ghost kinds_are: { (d : Self) → Self.kinds d ≡ kinds_of D.CONDITIONS D.MESA };
}

/// A door that its data and a number of places determine. `RunningMonitor::make` requires it.
pub trait Opens<D: MonitorData>: Runs<D> {
    /// What else holds of a new door.
    ghost is_new: { Self → Type 0 } = { λ _. Unit {0} };

    /// Creates a door from its parts, opened with the data, and its places, in order. Returns the data if an allocation
    /// failed.
    fn open(alloc: Global, parts: Parts<D>) -> Result<(Self, Vec<Outside<D>>), D>
        requires { AreParts D.rest (kinds_of D.CONDITIONS D.MESA) parts }
        ensures made { IfOk result (λ r. IsMadeOf D.rest D.ready (kinds_of D.CONDITIONS D.MESA)
            parts (Self.id r.0) r.1.items) }
        ensures new { IfOk result (λ r. is_new r.0) }
        ensures returned { IfErr result (λ s. s ≡ parts.state) };
}
