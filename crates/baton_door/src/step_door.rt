//! A door whose calls are steps: no call blocks, and none wakes a thread.
//!
//! A call that releases the monitor returns which place resumes next. The caller wakes the process of that place by its
//! own means, and that process then calls `try_return` to get inside again. The calls are those of `door_frame::calls`:
//! `try_enter`, `leave_to`, `begin_wait`, `begin_signal`, `signal_leave_to`, `try_return`, `notify` and `broadcast`.
ghost use Rattle.std.specs.Prelude.{◌≡◌, ◌<◌, ◌≤◌, ◌⊎◌, ℕ, ⊤, IfOk, IfErr, Some, None, All};
ghost use Rattle.hoare_law.specs.Events.{opened};
ghost use Rattle.hoare_law.specs.Sizes.{kinds_of};
ghost use Rattle.hoare_law.specs.Priorities.{nobody};
ghost use Rattle.wait_book.specs.Contents.{IsPlaceBelow, make_refusal};
ghost use Rattle.door_frame.specs.Meeting.{Meets};
ghost use Rattle.door_frame.specs.Places.{Closes, HasPlace, IsOut, places_from};
ghost use Rattle.door_frame.specs.Steps.{MayGive, MayNote};
ghost use Rattle.door_frame.specs.Refusals.{NotFree};
ghost use Rattle.door_frame.specs.Seats.{GoesOut, StaysIn};
ghost use Rattle.door_frame.specs.Releases.{event_of};
ghost use Rattle.door_frame.specs.Notifications.{event_of_notification};

use crate::door::open;
use crate::rule::{BatonWords, DoorTable};
use crate::table_steps;
use crate::word::FREE;
use door_frame::guarded::GuardedBox;
use door_frame::making::{closed_as, deal_by_caller, vacant};
use door_frame::meeting;
use door_frame::notification::Notification;
use door_frame::place::Outside;
use door_frame::raw_monitor::RawMonitor;
use door_frame::release::Release;
use door_frame::seat_steps::{DoorSeat, PickedEvent};
use door_frame::waking::ByCaller;
use hoare_law::data::MonitorData;
use hoare_law::event::Sizes;
use std::alloc::Global;
use std::marker::{Brand, Model};
use wait_book::book::Book;
use wait_book::steps::{MakeRefused, Next};

/// A door whose calls are steps: no call blocks, and none wakes a thread. After `make` no call allocates.
#[derive(Drop)]
pub struct StepDoor<D: MonitorData> {
    /// Eight words, of which the state word is in use, and the slot. Its key has the numbers of places and of
    /// conditions.
    table: DoorTable<D, Sizes>,
    sizes: Sizes,
}

impl<D: MonitorData> Model for StepDoor<D> {
    ghost use Rattle.hoare_law.specs.Sizes.{kinds_of};
    ghost use Rattle.door_frame.specs.Places.{door_of};
    ghost use Rattle.std.specs.Prelude.{◌≡◌, []};
    ghost use Rattle.baton_door.specs.Rule.{Sized};
    ghost use Rattle.baton_door.specs.StepDoors.{StepId, step_id, AreSizes};

    ghost Value = { StepId };

    ghost view = { λ d. step_id (door_of d.table.shared.table_id d.table.shared.key.places [])
        (kinds_of d.table.shared.key.conditions d.table.shared.key.mesa) };

    ghost invariant = { λ d. Sized d.table.shared.table_id.words d.table.shared.table_id.slots
        d.table.shared.key.places d.table.shared.key.places
        × (d.sizes ≡ d.table.shared.key) × AreSizes d.table.shared.key };
}

impl<D: MonitorData> StepDoor<D> {
    /// Creates a door that is opened with the data, and returns it with its places, in the order of their numbers. The
    /// last `sizes.mesa` conditions are Mesa conditions; `D::CONDITIONS` and `D::MESA` are ignored. The caller must
    /// prove that `MonitorData::rest` holds of the data and of empty queues, since no process waits yet.
    ///
    /// Returns the first of these refusals that applies, with the data: `BadPlaces` if the places aren't 1 to 64;
    /// `BadConditions` if the conditions aren't 1 to 8, or `mesa` is over `conditions`; `Memory` if an allocation
    /// failed.
    pub fn make(
        alloc: Global,
        state: D,
        sizes: Sizes,
    ) -> Result<(StepDoor<D>, Vec<Outside<D, ByCaller>>), (D, MakeRefused)>
        requires rest { D.rest state nobody }
        ensures made { IfOk result (λ r. (make_refusal sizes ≡ None)
            × (r.0.door.places ≡ sizes.places) × (r.0.kinds ≡ kinds_of sizes.conditions sizes.mesa)) }
        ensures of { IfOk result (λ r. All (IsOut D.rest D.ready r.0.kinds r.0.door) r.1.items) }
        ensures places { IfOk result (λ r. r.1.items ≡ places_from r.0.door 0 sizes.places (opened sizes state)) }
        ensures returned { IfErr result (λ e. e.0 ≡ state) }
        ensures refused { IfErr result (λ e. (make_refusal sizes ≡ Some e.1)
            ⊎ ((make_refusal sizes ≡ None) × (e.1 ≡ MakeRefused.Memory))) }
    {
        let book = match Book::make(alloc, sizes.places, sizes.conditions, sizes.mesa) {
            Ok(book) => book,
            Err(refused) => return Err((state, refused)),
        };
        let Ok(outs) = Vec::with_capacity(alloc, sizes.places) else {
            return Err((state, MakeRefused::Memory));
        };
        let (table, mut seat, guarded) = match vacant::<D, Sizes, BatonWords>(
            alloc, state, book, &[FREE; 8], &sizes,
        ) {
            Ok(made) => made,
            Err(state) => return Err((state, MakeRefused::Memory)),
        };
        open::<D, Sizes, Brand>(&table, &mut seat, guarded);
        let outs = deal_by_caller(&table, seat, outs, sizes.places);
        Ok((StepDoor { table, sizes }, outs))
    }

    /// Returns the numbers of places, conditions and Mesa conditions.
    #[inline]
    pub fn sizes(&self) -> Sizes
        ensures places { result.places ≡ self.now.door.places }
        ensures kinds { (result.conditions ≡ self.now.kinds.conditions) × (result.mesa ≡ self.now.kinds.mesa) }
        ensures few { (result.places ≤ 64) × (result.conditions ≤ 8) × (result.mesa ≤ result.conditions) }
    {
        self.sizes
    }

    /// Lets `a` and `b`, two places outside, meet, and returns them in this order. Afterwards both know one history. It
    /// begins with what each of them knew, and has no further event of either.
    pub fn meet(
        &self,
        a: Outside<D, ByCaller>,
        b: Outside<D, ByCaller>,
    ) -> (Outside<D, ByCaller>, Outside<D, ByCaller>)
        requires a { IsOut D.rest D.ready self.now.kinds self.now.door a }
        requires b { IsOut D.rest D.ready self.now.kinds self.now.door b }
        ensures a { IsOut D.rest D.ready self.now.kinds self.now.door result.0 }
        ensures b { IsOut D.rest D.ready self.now.kinds self.now.door result.1 }
        ensures places { (result.0.place ≡ a.place) × (result.1.place ≡ b.place) }
        ensures met { Meets a b result.0 result.1 }
    {
        meeting::meet(&self.table, a, b)
    }

    /// Takes the door apart and returns the data. `outs` are all of its places, in any order.
    ///
    /// There is a history of the door whose last data are the returned ones. It is legal and lawful
    /// (docs/DEFINITIONS.md): each event is allowed, and `rest` and `ready` hold when they must. At its end `rest`
    /// holds, and no process waits. The front of each place (the history that the place knows) is a prefix of it, and
    /// has all events of the place.
    pub fn close(self, outs: Vec<Outside<D, ByCaller>>) -> D
        requires of { All (IsOut D.rest D.ready self.kinds self.door) outs.items }
        requires places { (k : ℕ) → k < self.door.places → HasPlace k outs.items }
        ensures closes { Closes D.rest D.ready self.kinds self.door outs.items result }
        ensures rest { D.rest result nobody }
    {
        let StepDoor { table, sizes: _ } = self;
        closed_as::<D, Sizes, BatonWords, ByCaller, (), Brand>(table, (), outs)
    }

    /// Puts `guarded` into the slot, and then stores `word_of_next(next)` in the state word. Only the proofs use
    /// `how`: in them the store adds the event `J.event`, which the caller chooses, to the history.
    #[inline(always)] // as `table_steps::put_and_write` is
    fn give<J: PickedEvent<D>>(
        &self,
        seat: &mut DoorSeat<D>,
        guarded: GuardedBox<D>,
        place: usize,
        how: Release,
        next: Next,
    )
        requires table { seat.old.table_id ≡ self.now.door.table }
        requires next { IsPlaceBelow self.now.door.places next }
        requires event { MayGive D.rest D.ready J.event place seat.old.me guarded next }
        ensures table { seat.new.table_id ≡ seat.old.table_id }
        ensures away { GoesOut place J.event seat.old.me guarded.state seat.new.me }
    {
        table_steps::put_and_write::<D, Sizes, J>(&self.table, seat, guarded, place, false, next)
    }
}

impl<D: MonitorData> RawMonitor<D> for StepDoor<D> {
    ghost id = { λ d. d.door };

    ghost kinds = { λ d. d.kinds };

    ghost refuses = { λ d k f. NotFree };

    type Shown = ();

    /// `release` returns no evidence of a wake-up, since this door wakes no place.
    ghost is_woken = { λ d next shown. ⊤ };

    #[inline]
    fn try_admit(&self, seat: &mut DoorSeat<D>, place: usize) -> Option<GuardedBox<D>> {
        table_steps::try_admit(&self.table, seat, place)
    }

    #[inline]
    fn try_claim(&self, seat: &mut DoorSeat<D>, place: usize) -> Option<GuardedBox<D>> {
        table_steps::try_claim(&self.table, seat, place)
    }

    #[inline(always)] // as `give`, which it calls, is
    fn release(
        &self,
        seat: &mut DoorSeat<D>,
        guarded: GuardedBox<D>,
        place: usize,
        how: Release,
        next: Next,
    )
        requires table { seat.old.table_id ≡ self.now.door.table }
        requires next { IsPlaceBelow self.now.door.places next }
        requires event { MayGive D.rest D.ready (event_of place how next) place
            seat.old.me guarded next }
        ensures table { seat.new.table_id ≡ seat.old.table_id }
        ensures away { GoesOut place (event_of place how next)
            seat.old.me guarded.state seat.new.me }
        ensures woken { ⊤ }
    {
        self.give::<Brand>(seat, guarded, place, how, next)
    }

    #[inline]
    fn note(
        &self,
        seat: &mut DoorSeat<D>,
        guarded: &GuardedBox<D>,
        place: usize,
        notification: Notification,
    )
        requires table { seat.old.table_id ≡ self.now.door.table }
        requires event { MayNote D.rest D.ready (event_of_notification place notification guarded.now.state)
            place seat.old.me }
        ensures table { seat.new.table_id ≡ seat.old.table_id }
        ensures stays { StaysIn place (event_of_notification place notification guarded.now.state)
            seat.old.me seat.new.me }
    {
        table_steps::tell::<D, Sizes, Brand>(&self.table, seat, guarded, place, notification)
    }
}
