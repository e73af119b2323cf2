//! A place with its door.
ghost use Rattle.std.specs.Prelude.{◌≡◌};
ghost use Rattle.baton_door.specs.StepDoors.{StepId};
ghost use Rattle.std.specs.Arc.{arc_value};
ghost use Rattle.shelf.specs.Shelves.{shelf_id, slip_of};
ghost use Rattle.door_place.specs.Deeds as deeds;
ghost use Rattle.door_place.specs.Places.{Acts, GivesBack, NumberIs, place_at};
ghost use Rattle.door_place.specs.States.{IsOutside, IsState, Gets, Counts, AsksQueue, AsksFirst, where_is};
ghost use Rattle.door_place.specs.declared.state.State.TheVariants.{Nowhere, Outside};

use crate::act::{self, Act};
use crate::codes::{DONE, NOBODY, NOT_OUTSIDE};
use crate::moves::may_move;
use crate::shared::{Returned, Shared};
use crate::state::{self, Out, State};
use core::mem;
use door_frame::calls;
use shelf::shelf::Slip;
use std::marker::Model;
use std::sync::Arc;

/// A place of a door, with its door. If it is dropped while it is inside, it leaves first, and no caller learns which
/// place to wake: give it back instead.
pub struct Place {
    shared: Arc<Shared>,
    state: State,
    /// The right to put this place on the shelf, if it is here.
    slip: Option<Slip<Returned>>,
}

impl Model for Place {
    ghost use Rattle.std.specs.Arc.{arc_value};
    ghost use Rattle.door_place.specs.Places.{PlaceAt, place_at};
    ghost use Rattle.std.specs.Prelude.{◌≡◌};
    ghost use Rattle.std.specs.Option.{option_map};
    ghost use Rattle.shelf.specs.Shelves.{slip_of};
    ghost use Rattle.door_place.specs.States.{IsState, place_of};

    ghost Value = { PlaceAt };

    ghost view = { λ p. place_at (arc_value p.shared) p.state };

    ghost invariant = { λ p. IsState (arc_value p.shared).tag p.state
        × (p.slip ≡ option_map (slip_of (arc_value p.shared)) (place_of p.state)) };
}

impl Drop for Place {
    fn drop(self) {
        let Place {
            shared,
            state,
            slip: _,
        } = self;
        match state {
            State::Inside(inside) => {
                calls::leave_to(shared.door(), inside);
            }
            State::Outside(_) | State::Away(_) | State::Nowhere => {}
        }
    }
}

/// Takes the place out, which is outside.
fn into_outside(state: State) -> Out
    requires { IsOutside state }
    ensures { state ≡ Outside result }
{
    let State::Outside(out) = state else {
        unreachable!()
    };
    out
}

impl Place {
    /// Creates an empty place, of the shared door.
    pub(crate) fn empty(shared: Arc<Shared>) -> Place
        ensures { result ≡ place_at (arc_value shared) Nowhere }
    {
        may_move(Place {
            shared,
            state: State::Nowhere,
            slip: None,
        })
    }

    /// Fills an empty place with a place that is outside, and the right to put it on the shelf.
    pub(crate) fn fill(&mut self, out: Out, slip: Slip<Returned>)
        requires empty { self.old.state ≡ Nowhere }
        requires of { IsState self.old.door (Outside out) }
        requires slip { slip ≡ slip_of (shelf_id self.old.shelf self.old.door) out.place }
        ensures { self.new ≡ place_at (shelf_id self.old.shelf self.old.door) (Outside out) }
    {
        let old = mem::replace(&mut self.state, State::Outside(out));
        let State::Nowhere = old else { unreachable!() };
        self.slip = Some(slip);
    }

    /// Does `act`, or refuses it, and returns the code.
    pub fn act<A: Act>(&mut self, act: A) -> u64
        ensures door { self.new.door ≡ self.old.door }
        ensures acts { Acts self.old.door (A.deed act) self.old.state self.new.state result }
    {
        let door = self.shared.door();
        mem::replace_with(&mut self.state, (act, door), |state, (act, door)| {
            act.perform(door, state)
        })
    }

    /// Signals `condition`, one of Hoare's, as the last act, and writes 1 to `resumed` if a place waited on it, else 0:
    /// the place is outside then. Returns the place to wake, which is the place that waited if there is one, or
    /// `NOBODY`. Refused, in this order: `NOT_INSIDE`, `NO_CONDITION`, `WRONG_KIND`; then `resumed` stays as it is.
    pub fn signal_leave(&mut self, condition: u64, resumed: &mut u64) -> u64
        ensures door { self.new.door ≡ self.old.door }
        ensures acts { Acts self.old.door (deeds.SignalLeave condition resumed.old resumed.new)
            self.old.state self.new.state result }
    {
        let asked = (self.shared.door(), condition, *resumed);
        let (code, after) = mem::replace_with(&mut self.state, asked, act::signal_leave);
        *resumed = after;
        code
    }

    /// Gives the place back to its door, and returns `DONE`: it isn't here then. Refused: `NOT_OUTSIDE`; that changes
    /// nothing.
    pub fn give_back(&mut self) -> u64
        ensures door { self.new.door ≡ self.old.door }
        ensures shelf { self.new.shelf ≡ self.old.shelf }
        ensures gives { GivesBack self.old.state self.new.state result }
    {
        let State::Outside(_) = &self.state else {
            return NOT_OUTSIDE;
        };
        let out = into_outside(mem::replace(&mut self.state, State::Nowhere));
        let Some(slip) = self.slip.take() else {
            unreachable!()
        };
        self.shared.put(slip, out);
        DONE
    }

    /// Returns the place's number, below 64, if it is outside, else `NOBODY`.
    pub fn number(&self) -> u64
        ensures { NumberIs self.now.state result }
    {
        let sizes = self.shared.door().sizes(); // at most 64 places
        match &self.state {
            State::Outside(out) => out.number() as u64,
            State::Inside(_) | State::Away(_) | State::Nowhere => NOBODY,
        }
    }

    /// Returns the state of the place: 0 outside, 1 inside, 2 away, `NOTHING_HELD` if it isn't here.
    pub fn where_is(&self) -> u64
        ensures { result ≡ where_is self.now.state }
    {
        state::where_is(&self.state)
    }

    /// Writes the word that the place has in hand to `value`, and returns `DONE`. Refused: `NOT_INSIDE`; then `value`
    /// stays as it is.
    pub fn get(&self, value: &mut u64) -> u64
        ensures { Gets self.now.state value.old value.new result }
    {
        state::get(&self.state, value)
    }

    /// Returns the number of places that wait on `condition`. Refused, in this order: `NOT_INSIDE`, `NO_CONDITION`.
    pub fn count(&self, condition: u64) -> u64
        ensures { Counts self.now.door self.now.state condition result }
    {
        state::count(self.shared.door(), &self.state, condition)
    }

    /// Returns 1 if a place waits on `condition`, else 0. Refused, in this order: `NOT_INSIDE`, `NO_CONDITION`.
    pub fn queue(&self, condition: u64) -> u64
        ensures { AsksQueue self.now.door self.now.state condition result }
    {
        state::queue(self.shared.door(), &self.state, condition)
    }

    /// Returns 1 if a place waits on `condition`, and writes the priority of the place that a signal would resume to
    /// `priority`. Else returns 0. Refused, in this order: `NOT_INSIDE`, `NO_CONDITION`. If it doesn't return 1,
    /// `priority` stays as it is.
    pub fn first(&self, condition: u64, priority: &mut u64) -> u64
        ensures { AsksFirst self.now.door self.now.state condition priority.old priority.new result }
    {
        state::first(self.shared.door(), &self.state, condition, priority)
    }
}
