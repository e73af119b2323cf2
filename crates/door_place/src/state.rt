//! The state of a place of a door, and the questions about it.
ghost use Rattle.std.specs.Prelude.{◌≡◌, ◌+◌};
ghost use Rattle.baton_door.specs.StepDoors.{StepId};
ghost use Rattle.door_place.specs.States.{IsState, Gets, Counts, AsksQueue, AsksFirst, where_is};

use crate::codes::{DONE, NO_CONDITION, NOT_INSIDE, NOTHING_HELD};
use baton_door::step_door::StepDoor;
use door_frame::place;
use door_frame::waking::ByCaller;
use hoare_law::unconstrained::Unconstrained;
use hoare_law::waits::Waits;

/// The data of the monitor: one word of the caller's, as a rule a pointer to its own data. `rest` and `ready` ask
/// nothing of it.
pub type Carried = Unconstrained<u64, 1>;

/// A door whose calls are steps, with one word of the caller's in it.
pub type Door = StepDoor<Carried>;

/// A place that is outside.
pub type Out = place::Outside<Carried, ByCaller>;

/// A place that is inside.
pub type In = place::Inside<Carried, ByCaller>;

/// A place that is away: it waits, or has signalled and is to return.
pub type Away = place::Away<Carried, ByCaller>;

/// The state of a place. It can't be dropped: a place that is inside has to leave.
pub enum State {
    /// The place is outside, and may enter.
    Outside(Out),
    /// The place is inside, and has the monitor.
    Inside(In),
    /// The place is away: it waits, or has signalled and is to return.
    Away(Away),
    /// The place isn't here: it was given back.
    Nowhere,
}

/// The number of all conditions of a door, and of those of Hoare's, which are the first.
#[derive(Clone, Copy)]
pub(crate) struct Limits {
    pub(crate) conditions: u64,
    pub(crate) hoare: u64,
}

impl Limits {
    #[inline(always)]
    pub(crate) fn of(door: &Door) -> Limits
        ensures conditions { result.conditions ≡ door.now.kinds.conditions }
        ensures hoare { result.hoare + door.now.kinds.mesa ≡ door.now.kinds.conditions }
    {
        let sizes = door.sizes();
        Limits {
            conditions: sizes.conditions as u64,
            hoare: (sizes.conditions - sizes.mesa) as u64,
        }
    }
}

/// Returns the state of the place: 0 outside, 1 inside, 2 away, `NOTHING_HELD` if it isn't here.
pub fn where_is(state: &State) -> u64
    ensures { result ≡ where_is state.now }
{
    match state {
        State::Outside(_) => 0,
        State::Inside(_) => 1,
        State::Away(_) => 2,
        State::Nowhere => NOTHING_HELD,
    }
}

/// Writes the word that the place has in hand to `value`, and returns `DONE`. Refused: `NOT_INSIDE`; then `value` stays
/// as it is.
pub fn get(state: &State, value: &mut u64) -> u64
    ensures { Gets state.now value.old value.new result }
{
    match state {
        State::Inside(inside) => {
            *value = inside.state().value;
            DONE
        }
        State::Outside(_) | State::Away(_) | State::Nowhere => NOT_INSIDE,
    }
}

/// Returns the number of places that wait on `condition`. Refused, in this order: `NOT_INSIDE`, `NO_CONDITION`.
pub fn count(door: &Door, state: &State, condition: u64) -> u64
    requires { IsState door.now state.now }
    ensures { Counts door.now state.now condition result }
{
    match state {
        State::Inside(inside) => {
            if condition >= Limits::of(door).conditions {
                return NO_CONDITION;
            }
            inside.lists().count(condition as usize) as u64
        }
        State::Outside(_) | State::Away(_) | State::Nowhere => NOT_INSIDE,
    }
}

/// Returns 1 if a place waits on `condition`, else 0. Refused, in this order: `NOT_INSIDE`, `NO_CONDITION`.
pub fn queue(door: &Door, state: &State, condition: u64) -> u64
    requires { IsState door.now state.now }
    ensures { AsksQueue door.now state.now condition result }
{
    match state {
        State::Inside(inside) => {
            if condition >= Limits::of(door).conditions {
                return NO_CONDITION;
            }
            if inside.queue(condition as usize) {
                1
            } else {
                0
            }
        }
        State::Outside(_) | State::Away(_) | State::Nowhere => NOT_INSIDE,
    }
}

/// Returns 1 if a place waits on `condition`, and writes the priority of the place that a signal would resume to
/// `priority`. Else returns 0. Refused, in this order: `NOT_INSIDE`, `NO_CONDITION`. If it doesn't return 1, `priority`
/// stays as it is.
pub fn first(door: &Door, state: &State, condition: u64, priority: &mut u64) -> u64
    requires { IsState door.now state.now }
    ensures { AsksFirst door.now state.now condition priority.old priority.new result }
{
    match state {
        State::Inside(inside) => {
            if condition >= Limits::of(door).conditions {
                return NO_CONDITION;
            }
            match inside.first(condition as usize) {
                Some(least) => {
                    *priority = least;
                    1
                }
                None => 0,
            }
        }
        State::Outside(_) | State::Away(_) | State::Nowhere => NOT_INSIDE,
    }
}
