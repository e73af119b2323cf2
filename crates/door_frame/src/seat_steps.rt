//! The contracts of the steps that every door has.
ghost use Rattle.door_frame.specs.Views.{places_behind, first_place, both_places, no_places};
ghost use Rattle.door_frame.specs.Steps.{begins, opens, gives_as, notes_as, learns};

use crate::guarded::GuardedBox;
use crate::view::SeatView;
use atomic_table::{Join, Play, Seat, Split};
use hoare_law::data::MonitorData;
use std::marker::{Brand, PhantomData};

/// The seat by which a thread does steps on a door's table.
pub type DoorSeat<D> = Seat<Option<GuardedBox<D>>, SeatView<D>>;

/// The first seat takes the empty slot.
pub struct Begin;

impl<D> Play<Option<GuardedBox<D>>, SeatView<D>> for Begin {
    ghost then = { begins };
}

/// The kinds of conditions that a door opens with. A step can't read them from the table, so each call picks them.
pub trait PickedKinds {
    ghost use Rattle.hoare_law.specs.Sizes.{Kinds};

    /// How many conditions there are, and how many of them are Mesa conditions.
    ghost kinds: { Kinds };
}

impl PickedKinds for Brand {
    ghost use Rattle.hoare_law.specs.Sizes.{kinds_of};

    ghost kinds = { kinds_of 1 0 };
}

/// Picks the kinds that the data's type fixes.
pub struct KindsOf<D> {
    of: PhantomData<D>,
}

impl<D: MonitorData> PickedKinds for KindsOf<D> {
    ghost use Rattle.hoare_law.specs.Sizes.{kinds_of};

    ghost kinds = { kinds_of D.CONDITIONS D.MESA };
}

/// The first seat puts the slot back with the data: the door is open.
pub struct Open<J> {
    of: PhantomData<J>,
}

impl<D: MonitorData, J: PickedKinds> Play<Option<GuardedBox<D>>, SeatView<D>> for Open<J> {
    ghost then = { opens J.kinds };
}

/// The event of a step that puts the slot back, as a function of the data in the slot. Each call picks it.
pub trait PickedEvent<D> {
    ghost use Rattle.hoare_law.specs.declared.event.Event.{Event};

    /// Maps the data in the slot to the event.
    ghost event: { D → Event D };
}

impl<D> PickedEvent<D> for Brand {
    ghost use Rattle.hoare_law.specs.declared.event.Event.TheVariants.{Leave};

    ghost event = { λ s. Leave 0 s };
}

/// The place inside puts the slot back.
pub struct Give<J> {
    of: PhantomData<J>,
}

impl<D, J: PickedEvent<D>> Play<Option<GuardedBox<D>>, SeatView<D>> for Give<J> {
    ghost then = { gives_as J.event };
}

/// The event of a step by which a place stays inside, as a function of the history that it knew. Each call picks it.
pub trait PickedNotification<D> {
    ghost use Rattle.hoare_law.specs.declared.event.Event.{Event};
    ghost use Rattle.hoare_law.specs.declared.event.History.{History};

    /// Maps the history that the place knew to the event.
    ghost event: { History D → Event D };
}

impl<D> PickedNotification<D> for Brand {
    ghost use Rattle.hoare_law.specs.declared.event.Event.TheVariants.{Leave};

    ghost event = { λ f. Leave 0 f.opening };
}

/// The place inside notifies waiters, and stays inside.
pub struct Note<J> {
    of: PhantomData<J>,
}

impl<D, J: PickedNotification<D>> Play<Option<GuardedBox<D>>, SeatView<D>> for Note<J> {
    ghost then = { notes_as J.event };
}

/// The places of a seat learn the whole history.
pub struct Learn;

impl<D: MonitorData> Play<Option<GuardedBox<D>>, SeatView<D>> for Learn {
    ghost then = { learns D.rest D.ready };
}

/// Splits off the first place of a seat.
pub struct SplitFirst;

impl<D> Split<SeatView<D>> for SplitFirst {
    ghost left = { places_behind };

    ghost right = { first_place };
}

/// Merges the places of two seats into one of them.
pub struct MergePlaces;

impl<D> Join<SeatView<D>> for MergePlaces {
    ghost both = { both_places };

    ghost spent = { no_places };
}
