//! The acts of a place. Each act is a type of its own, or a function if it has two results, so that the code for an act
//! holds that act alone.
ghost use Rattle.std.specs.Prelude.{◌≡◌, ◌≤◌};
ghost use Rattle.baton_door.specs.StepDoors.{StepId};
ghost use Rattle.hoare_law.specs.Growth.{Begins};
ghost use Rattle.door_place.specs.Codes.{code_of};
ghost use Rattle.door_place.specs.Deeds as deeds;
ghost use Rattle.door_place.specs.States.{IsState, front_of, place_of};

use crate::codes::{
    self, DONE, NO_CONDITION, NOBODY, NOT_AWAY, NOT_INSIDE, NOT_NOW, NOT_OUTSIDE, WRONG_KIND,
};
use crate::state::{Door, Limits, State};
use door_frame::calls;
use wait_book::steps::Next;

/// An act of a place, which is done or refused by a code. The refusals are tested in this order: the place's state, the
/// number of the condition, the kind of the condition. A refusal changes nothing, but by `NOT_NOW` a place learns events
/// of other places.
pub trait Act: Copy {
    ghost use Rattle.std.specs.Prelude.{◌≡◌};
    ghost use Rattle.hoare_law.specs.Growth.{Begins};
    ghost use Rattle.door_place.specs.Deeds.{Deed};
    ghost use Rattle.door_place.specs.States.{IsState, front_of, place_of};

    /// The relation of the door, the old state, the new state and the code: what the act makes of a place's state.
    ghost deed: { Self → Deed };

    /// Does the act, or refuses it. Returns the new state, and the code.
    fn perform(self, door: &Door, state: State) -> (State, u64)
        requires { IsState door.now state }
        ensures made { deed self door.now state result.0 result.1 }
        ensures of { IsState door.now result.0 }
        ensures place { place_of result.0 ≡ place_of state }
        ensures front { Begins (front_of state) (front_of result.0) };
}

/// An attempt to enter. Returns `NOBODY` if the place is inside then, or `NOT_NOW` if the monitor wasn't free at some
/// moment of this call: the place has learned the history at that moment. Refused: `NOT_OUTSIDE`.
#[derive(Clone, Copy)]
pub struct TryEnter;

/// An attempt to return from a wait or a signal. Returns `NOBODY` if the place is inside then, or `NOT_NOW` if the
/// monitor wasn't owed to it at some moment of this call: the place has learned the history at that moment. Refused:
/// `NOT_AWAY`.
#[derive(Clone, Copy)]
pub struct TryReturn;

/// A leave: the place is outside then. Returns the place to wake, or `NOBODY`. Refused: `NOT_INSIDE`.
#[derive(Clone, Copy)]
pub struct Leave;

/// A wait on a condition, `.0`, with a priority, `.1`: the place is away then. Returns the place to wake, or `NOBODY`.
/// Refused: `NOT_INSIDE`, `NO_CONDITION`.
#[derive(Clone, Copy)]
pub struct Wait(pub u64, pub u64);

/// A signal on one of Hoare's conditions, `.0`. Returns the place to wake: the signaller is away then. If no place
/// waits on the condition, it returns `NOBODY`, and the signaller is still inside. Refused: `NOT_INSIDE`,
/// `NO_CONDITION`, `WRONG_KIND`.
#[derive(Clone, Copy)]
pub struct Signal(pub u64);

/// A signal to the place with the number `.1`, on one of Hoare's conditions, `.0`. If that place waits there, returns
/// its number: it has the monitor next, whoever else waits, and the signaller is away. If it doesn't wait there,
/// returns `NOBODY`, and the signaller is still inside. Refused: `NOT_INSIDE`, `NO_CONDITION`, `WRONG_KIND`.
#[derive(Clone, Copy)]
pub struct SignalTo(pub u64, pub u64);

/// A notify of the place that a signal on a Mesa condition, `.0`, would resume. Returns the number of notified places,
/// 1 or 0. Refused: `NOT_INSIDE`, `NO_CONDITION`, `WRONG_KIND`.
#[derive(Clone, Copy)]
pub struct Notify(pub u64);

/// A notify of all places that wait on a Mesa condition, `.0`. Returns their number. Refused: `NOT_INSIDE`,
/// `NO_CONDITION`, `WRONG_KIND`.
#[derive(Clone, Copy)]
pub struct Broadcast(pub u64);

/// A write of a value, `.0`, as the word in the monitor. Returns `DONE`. Refused: `NOT_INSIDE`.
#[derive(Clone, Copy)]
pub struct Set(pub u64);

/// Returns the number of the place that resumes next, below 64, or `NOBODY`.
#[inline(always)]
fn code_of(door: &Door, next: Next) -> u64
    ensures is { result ≡ code_of next }
    ensures few { door.now.door.places ≤ 64 }
{
    let _ = door.sizes();
    codes::code_of(next)
}

impl Act for TryEnter {
    ghost deed = { λ _. deeds.TryEnter };

    fn perform(self, door: &Door, state: State) -> (State, u64) {
        let State::Outside(out) = state else {
            return (state, NOT_OUTSIDE);
        };
        match calls::try_enter(door, out) {
            Ok(inside) => (State::Inside(inside), NOBODY),
            Err(out) => (State::Outside(out), NOT_NOW),
        }
    }
}

impl Act for TryReturn {
    ghost deed = { λ _. deeds.TryReturn };

    fn perform(self, door: &Door, state: State) -> (State, u64) {
        let State::Away(away) = state else {
            return (state, NOT_AWAY);
        };
        match calls::try_return(door, away) {
            Ok(inside) => (State::Inside(inside), NOBODY),
            Err(away) => (State::Away(away), NOT_NOW),
        }
    }
}

impl Act for Leave {
    ghost deed = { λ _. deeds.Leave };

    fn perform(self, door: &Door, state: State) -> (State, u64) {
        let State::Inside(inside) = state else {
            return (state, NOT_INSIDE);
        };
        let (out, next) = calls::leave_to(door, inside);
        (State::Outside(out), code_of(door, next))
    }
}

impl Act for Wait {
    ghost deed = { λ w. deeds.Wait w.0 w.1 };

    fn perform(self, door: &Door, state: State) -> (State, u64) {
        let Wait(condition, priority) = self;
        let State::Inside(inside) = state else {
            return (state, NOT_INSIDE);
        };
        let limits = Limits::of(door);
        if condition >= limits.conditions {
            return (State::Inside(inside), NO_CONDITION);
        }
        let (away, next) = calls::begin_wait(door, inside, condition as usize, priority);
        (State::Away(away), code_of(door, next))
    }
}

impl Act for Signal {
    ghost deed = { λ s. deeds.Signal s.0 };

    fn perform(self, door: &Door, state: State) -> (State, u64) {
        let Signal(condition) = self;
        let State::Inside(inside) = state else {
            return (state, NOT_INSIDE);
        };
        let limits = Limits::of(door);
        if condition >= limits.conditions {
            return (State::Inside(inside), NO_CONDITION);
        }
        if condition >= limits.hoare {
            return (State::Inside(inside), WRONG_KIND);
        }
        match calls::begin_signal(door, inside, condition as usize) {
            Ok((away, next)) => (State::Away(away), code_of(door, next)),
            Err(inside) => (State::Inside(inside), NOBODY),
        }
    }
}

impl Act for SignalTo {
    ghost deed = { λ s. deeds.SignalTo s.0 s.1 };

    fn perform(self, door: &Door, state: State) -> (State, u64) {
        let SignalTo(condition, waiter) = self;
        let State::Inside(inside) = state else {
            return (state, NOT_INSIDE);
        };
        let limits = Limits::of(door);
        if condition >= limits.conditions {
            return (State::Inside(inside), NO_CONDITION);
        }
        if condition >= limits.hoare {
            return (State::Inside(inside), WRONG_KIND);
        }
        match calls::begin_signal_to(door, inside, condition as usize, waiter as usize) {
            Ok((away, next)) => (State::Away(away), code_of(door, next)),
            Err(inside) => (State::Inside(inside), NOBODY),
        }
    }
}

impl Act for Notify {
    ghost deed = { λ n. deeds.Notify n.0 };

    fn perform(self, door: &Door, state: State) -> (State, u64) {
        let Notify(condition) = self;
        let State::Inside(mut inside) = state else {
            return (state, NOT_INSIDE);
        };
        let limits = Limits::of(door);
        if condition >= limits.conditions {
            return (State::Inside(inside), NO_CONDITION);
        }
        if condition < limits.hoare {
            return (State::Inside(inside), WRONG_KIND);
        }
        let notified = calls::notify(door, &mut inside, condition as usize);
        (State::Inside(inside), u64::from(notified))
    }
}

impl Act for Broadcast {
    ghost deed = { λ b. deeds.Broadcast b.0 };

    fn perform(self, door: &Door, state: State) -> (State, u64) {
        let Broadcast(condition) = self;
        let State::Inside(mut inside) = state else {
            return (state, NOT_INSIDE);
        };
        let limits = Limits::of(door);
        if condition >= limits.conditions {
            return (State::Inside(inside), NO_CONDITION);
        }
        if condition < limits.hoare {
            return (State::Inside(inside), WRONG_KIND);
        }
        let notified = calls::broadcast(door, &mut inside, condition as usize);
        (State::Inside(inside), notified as u64)
    }
}

impl Act for Set {
    ghost deed = { λ s. deeds.Set s.0 };

    fn perform(self, door: &Door, state: State) -> (State, u64) {
        let Set(value) = self;
        let State::Inside(mut inside) = state else {
            return (state, NOT_INSIDE);
        };
        let guarded = &mut inside.guarded;
        guarded.held.contents.state.value = value;
        (State::Inside(inside), DONE)
    }
}

/// A signal on one of Hoare's conditions as the last act: the place is outside then. It has a second result, and so it
/// isn't an `Act`. Asked: the door, the condition, and the second result of a refusal. Returns the new state, with the
/// place to wake, or `NOBODY`, and 1 if a place waited on the condition, else 0. Refused: `NOT_INSIDE`, `NO_CONDITION`,
/// `WRONG_KIND`.
pub(crate) fn signal_leave(state: State, asked: (&Door, u64, u64)) -> (State, (u64, u64))
    requires { IsState asked.0.now state }
    ensures made { deeds.SignalLeave asked.entry.1 asked.entry.2 result.1.1
        asked.entry.0.now state result.0 result.1.0 }
    ensures of { IsState asked.entry.0.now result.0 }
    ensures place { place_of result.0 ≡ place_of state }
    ensures front { Begins (front_of state) (front_of result.0) }
{
    let (door, condition, before) = asked;
    let State::Inside(inside) = state else {
        return (state, (NOT_INSIDE, before));
    };
    let limits = Limits::of(door);
    if condition >= limits.conditions {
        return (State::Inside(inside), (NO_CONDITION, before));
    }
    if condition >= limits.hoare {
        return (State::Inside(inside), (WRONG_KIND, before));
    }
    let (out, resumed, next) = calls::signal_leave_to(door, inside, condition as usize);
    (
        State::Outside(out),
        (code_of(door, next), u64::from(resumed)),
    )
}
