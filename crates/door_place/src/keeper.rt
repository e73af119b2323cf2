//! A door with its places that are in hand: those that no thread has taken.
ghost use Rattle.std.specs.Prelude.{◌≡◌, ◌<◌, ℕ, IfOk, IfErr, true, false};
ghost use Rattle.std.specs.Arc.{arc_value};
ghost use Rattle.door_frame.specs.Places.{Closes, HasPlace};
ghost use Rattle.door_place.specs.Places.{GaveNone, GaveOut, IsNew, LacksPlace, MadeNot, NotClosed, place_at};
ghost use Rattle.door_place.specs.Returns.{Collects, Refills, Tries};
ghost use Rattle.door_place.specs.States.{IsState, any, calm};
ghost use Rattle.door_place.specs.declared.state.State.TheVariants.{Nowhere};

use crate::codes::{BAD_CONDITIONS, BAD_PLACES, IN_USE, NO_MEMORY, NONE_LEFT, NOT_NOW};
use crate::moves::may_move;
use crate::place::Place;
use crate::shared::{Returned, Shared};
use crate::state::{Carried, Out};
use baton_door::step_door::StepDoor;
use hoare_law::event::Sizes;
use shelf::shelf::Collector;
use std::alloc::{AllocError, Global};
use std::marker::Model;
use std::sync::Arc;
use wait_book::steps::MakeRefused;

/// A door with those of its places that are in hand: they weren't given out, or they were given back and collected. A
/// contract sees the log of the shelf too, on which a place is between these two, as far as the keeper knows it.
#[derive(Drop)]
pub struct Keeper {
    shared: Arc<Shared>,
    outs: Vec<Out>,
    collector: Collector<Returned>,
}

impl Model for Keeper {
    ghost use Rattle.std.specs.Prelude.{All};
    ghost use Rattle.std.specs.Arc.{arc_value};
    ghost use Rattle.door_frame.specs.Places.{IsOut};
    ghost use Rattle.door_place.specs.Returns.{KeeperOf, keeper_of, numbers_onto};
    ghost use Rattle.door_place.specs.States.{any, calm};
    ghost use Rattle.std.specs.Prelude.{◌≡◌, ◌≤◌, [], vec_capacity};

    ghost Value = { KeeperOf };

    ghost view = { λ k. keeper_of (arc_value k.shared).tag k.outs.items k.collector.log };

    ghost invariant = { λ k. All (IsOut calm any (arc_value k.shared).tag.kinds (arc_value k.shared).tag.door) k.outs.items
        × (k.collector.shelf ≡ arc_value k.shared) × (k.collector.in_hand ≡ numbers_onto [] k.outs.items)
        × ((arc_value k.shared).tag.door.places ≤ vec_capacity k.outs) };
}

/// Returns true if a place with this number is among `outs`.
fn has(outs: &[Out], number: usize) -> bool
    ensures has { result ≡ true → HasPlace number outs.now }
    ensures lacks { result ≡ false → HasPlace number outs.now → ⊥ }
{
    for i in 0..outs.len() {
        if outs[i].number() == number {
            return true;
        }
    }
    false
}

/// Returns true if all places with numbers below `places` are among `outs`.
fn has_all(outs: &[Out], places: usize) -> bool
    ensures all { result ≡ true → (k : ℕ) → k < places → HasPlace k outs.now }
    ensures lacks { result ≡ false → LacksPlace places outs.now }
{
    for number in 0..places {
        if !has(outs, number) {
            return false;
        }
    }
    true
}

/// Returns an empty place of the shared door in a box. Fails if an allocation fails.
fn boxed(alloc: Global, shared: &Arc<Shared>) -> Result<Box<Place>, AllocError>
    ensures { IfOk result (λ p. p.value ≡ place_at (arc_value shared.now) Nowhere) }
{
    let shared = Arc::try_clone(shared)?;
    match Box::new(alloc, Place::empty(shared)) {
        Ok(place) => Ok(place),
        Err(_) => Err(AllocError),
    }
}

impl Keeper {
    /// Creates a door of these sizes, with all of its places in hand: 1 to 64 places and 1 to 8 conditions, the last
    /// `sizes.mesa` of which are Mesa conditions. The caller's word `value` is in it. Refused, in this order:
    /// `BAD_PLACES`, `BAD_CONDITIONS`, `NO_MEMORY`.
    pub fn make(alloc: Global, sizes: Sizes, value: u64) -> Result<Keeper, u64>
        ensures made { IfOk result (λ k. IsNew sizes value k) }
        ensures refused { IfErr result (λ code. MadeNot sizes code) }
    {
        let (door, outs) = match StepDoor::make(alloc, Carried { value }, sizes) {
            Ok(made) => made,
            Err((_, MakeRefused::BadPlaces)) => return Err(BAD_PLACES),
            Err((_, MakeRefused::BadConditions)) => return Err(BAD_CONDITIONS),
            Err((_, MakeRefused::Memory)) => return Err(NO_MEMORY),
        };
        let Ok((shared, collector)) = Shared::new(alloc, door, sizes.places) else {
            return Err(NO_MEMORY);
        };
        match Arc::new(alloc, shared) {
            Ok(shared) => Ok(may_move(Keeper {
                shared,
                outs,
                collector,
            })),
            Err(_) => Err(NO_MEMORY),
        }
    }

    /// Takes the place with this number in hand, if it was given back.
    fn collect_one(&mut self, number: usize)
        requires { number < self.old.door.door.places }
        ensures { Tries number self.old self.new }
    {
        let Some(out) = self.shared.take(&mut self.collector, number) else {
            return;
        };
        self.outs.push_reserved(out);
    }

    /// Takes the places in hand that were given back. A place that isn't in hand then was not given back at some moment
    /// of this call.
    pub fn collect(&mut self)
        ensures { Collects self.old.door.door.places self.old self.new }
    {
        let places = self.shared.door().sizes().places;
        for number in 0..places {
            self.collect_one(number);
        }
    }

    /// Collects, if no place is in hand.
    fn refill(&mut self)
        ensures { Refills self.old self.new }
    {
        if self.outs.is_empty() {
            self.collect();
        }
    }

    /// Gives a place out, in a box, for a thread of its own. If no place is in hand, it collects first. Refused, in this
    /// order: `NONE_LEFT` if no place is in hand then, and `NO_MEMORY` if an allocation failed: the place is still in
    /// hand then.
    pub fn give_out(&mut self, alloc: Global) -> Result<Box<Place>, u64>
        ensures door { self.new.door ≡ self.old.door }
        ensures given_out { IfOk result (λ p. (p.value.door ≡ self.old.door)
            × GaveOut self.old self.new p.value.state) }
        ensures of { IfOk result (λ p. IsState p.value.door p.value.state) }
        ensures refused { IfErr result (λ code. GaveNone self.old self.new code) }
    {
        self.refill();
        if self.outs.is_empty() {
            return Err(NONE_LEFT);
        }
        let Ok(mut place) = boxed(alloc, &self.shared) else {
            return Err(NO_MEMORY);
        };
        let Some(out) = self.outs.pop() else {
            unreachable!()
        };
        let slip = self.shared.shelf().lend(&mut self.collector);
        place.fill(out, slip);
        Ok(place)
    }

    /// Closes the door if all of its places are in hand, and returns its word. One legal history left that word; it
    /// begins with what each place knows, and no place did anything else in it. Else returns the keeper as it was, and
    /// why: `IN_USE` exactly if a place isn't in hand; `NOT_NOW` if all are, but a `Place` of this door still exists.
    pub fn close(self) -> Result<u64, (Keeper, u64)>
        ensures all { IfOk result (λ v. (k : ℕ) → k < self.door.door.places → HasPlace k self.outs) }
        ensures closes { IfOk result (λ v. Closes calm any self.door.kinds self.door.door self.outs
            (record { value = v })) }
        ensures same { IfErr result (λ e. e.0 ≡ self) }
        ensures refused { IfErr result (λ e. NotClosed self.door.door.places self.outs e.1) }
    {
        let places = self.shared.door().sizes().places;
        if !has_all(&self.outs, places) {
            return Err((self, IN_USE));
        }
        let Keeper {
            shared,
            outs,
            collector,
        } = self;
        match Arc::try_unwrap(shared) {
            Ok(shared) => Ok(shared.into_door().close(outs).value),
            Err(shared) => Err((
                Keeper {
                    shared,
                    outs,
                    collector,
                },
                NOT_NOW,
            )),
        }
    }
}
