//! What all places of a door share: the door, and the shelf for the places that are given back.
ghost use Rattle.std.specs.Prelude.{◌≡◌, ◌<◌, [], IfOk, IfSome, IfNone};
ghost use Rattle.door_frame.specs.Places.{IsOut};
ghost use Rattle.shelf.specs.Shelves.{WasAbsent, WasTaken, collector_of};
ghost use Rattle.shelf.specs.Views.{AreNumbers, numbers_below};
ghost use Rattle.door_place.specs.Returns.{returned};
ghost use Rattle.door_place.specs.States.{any, calm};

use crate::state::{Door, Out};
use shelf::rule::Shelved;
use shelf::shelf::{Collector, Shelf, Slip};
use std::alloc::{AllocError, Global};
use std::marker::Model;

/// A place that was given back.
#[derive(Drop)]
pub struct Returned {
    out: Out,
}

impl Shelved for Returned {
    ghost use Rattle.std.specs.Prelude.{◌≡◌};

    type Tag = Door;

    ghost spots = { λ d. d.door.places };

    ghost fits = { λ d k r. IsOut calm any d.kinds d.door r.out × (r.out.place ≡ k) };
}

/// The door, and the shelf for its places. All places and the keeper share it. A contract sees the shelf, whose tag is
/// the door.
#[derive(Drop)]
pub struct Shared {
    door: Door,
    shelf: Shelf<Returned>,
    ghost same: { shelf.tag ≡ door },
}

impl Model for Shared {
    ghost use Rattle.baton_door.specs.StepDoors.{StepId};
    ghost use Rattle.shelf.specs.Shelves.{ShelfId};

    ghost Value = { ShelfId StepId };

    ghost view = { λ s. s.shelf };
}

impl Shared {
    /// Creates an empty shelf for the places of the door, and its collector, which has all of them in hand. Fails if an
    /// allocation fails.
    pub(crate) fn new(
        alloc: Global,
        door: Door,
        places: usize,
    ) -> Result<(Shared, Collector<Returned>), AllocError>
        requires { places ≡ door.door.places }
        ensures { IfOk result (λ r. (r.0.tag ≡ door) × (r.1 ≡ collector_of r.0 [] (numbers_below places))) }
    {
        let (shelf, collector) = Shelf::new(alloc, places, &door)?;
        Ok((Shared { door, shelf }, collector))
    }

    /// Returns the door.
    #[inline(always)]
    pub(crate) fn door(&self) -> &Door
        ensures { result.now ≡ self.now.tag }
    {
        &self.door
    }

    /// Returns the shelf.
    #[inline(always)]
    pub(crate) fn shelf(&self) -> &Shelf<Returned>
        ensures { result.now ≡ self.now }
    {
        &self.shelf
    }

    /// Takes the door out. The shelf is dropped.
    pub(crate) fn into_door(self) -> Door
        ensures { result ≡ self.tag }
    {
        let Shared { door, shelf: _ } = self;
        door
    }

    /// Puts a place on the shelf.
    pub(crate) fn put(&self, slip: Slip<Returned>, out: Out)
        requires shelf { slip.shelf ≡ self.now }
        requires number { slip.number ≡ out.place }
        requires of { IsOut calm any self.now.tag.kinds self.now.tag.door out }
    {
        let number = out.number();
        self.shelf.put(slip, number, Returned { out });
    }

    /// Takes the place with this number from the shelf. Returns `None` if it isn't there at some moment of this call,
    /// up to which the collector learns the log.
    pub(crate) fn take(&self, collector: &mut Collector<Returned>, number: usize) -> Option<Out>
        requires shelf { collector.old.shelf ≡ self.now }
        requires number { number < self.now.tag.door.places }
        ensures shelf { collector.new.shelf ≡ self.now }
        ensures numbers { AreNumbers self.now.tag.door.places collector.new.in_hand }
        ensures of { IfSome result (λ o. IsOut calm any self.now.tag.kinds self.now.tag.door o × (o.place ≡ number)) }
        ensures taken { IfSome result (λ o. WasTaken number (returned o) collector.old collector.new) }
        ensures absent { IfNone result (WasAbsent number collector.old collector.new) }
    {
        let Returned { out } = self.shelf.take(collector, number)?;
        Some(out)
    }
}
