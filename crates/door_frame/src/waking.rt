//! What a place parks on, what wakes it, and what shows that it was woken.
ghost use Rattle.std.specs.Prelude.{◌≡◌, true, IfOk};
ghost use Rattle.crossbeam_utils.specs.Token.{parker_view};
ghost use Rattle.door_frame.specs.Seats.{HasReleased};

use crate::patience::Patience;
use crate::seat_steps::DoorSeat;
use crossbeam_utils::rule::{Outcome, Protocol};
use crossbeam_utils::sync::parker::{Pass, RuledParker, RuledUnparker};
use std::alloc::{AllocError, Global};
use std::marker::Model;
use std::sync::Wait;

/// The protocol of a parker's token, which requires nothing. The thread that has a pass to the token knows whether it
/// gave a token.
pub struct Waking;

impl Protocol<bool, bool> for Waking {
    ghost use Rattle.std.specs.Prelude.{false};

    ghost holds = { λ _ _. Unit {0} };

    ghost first = { false };
}

struct Gives;

impl Outcome<bool, bool> for Gives {
    ghost use Rattle.std.specs.Prelude.{◌≡◌, true};

    ghost then = { λ _ _ _ after. after ≡ true };
}

struct Takes;

impl Outcome<bool, bool> for Takes {
    ghost then = { λ _ _ _ _. Unit {0} };
}

/// What a place parks on: a `Sleeper` if its door wakes it, `ByCaller` if the caller does.
pub trait Parking {
    ghost use Rattle.atomic_table.specs.Seated.{TableId};

    /// Identifies what a place of the door with this table parks on. If no door wakes the place, it is the table
    /// itself, on which no thread parks.
    ghost at: { TableId → Self → TableId };
}

/// What one place parks on. A contract sees which sleeper it is.
#[derive(Drop)]
pub struct Sleeper {
    parker: RuledParker<bool, Waking>,
    /// Which polls the place leaves out when it enters.
    pub to_enter: Patience,
    /// Which polls the place leaves out when it waits, or returns from a signal.
    pub to_resume: Patience,
}

impl Model for Sleeper {
    ghost use Rattle.std.specs.Arc.{arc_value};
    ghost use Rattle.atomic_table.specs.Seated.{TableId};

    ghost Value = { TableId };

    ghost view = { λ s. (arc_value s.parker.unparker.state).shared.table_id };
}

impl Parking for Sleeper {
    ghost at = { λ _ s. s };
}

/// What a place parks on if its caller does the parking and the waking: nothing.
#[derive(Clone, Copy)]
pub struct ByCaller;

impl Parking for ByCaller {
    ghost at = { λ z _. z };
}

/// What wakes the place that parks on one sleeper. A contract sees which sleeper.
#[derive(Drop)]
pub struct Waker {
    unparker: RuledUnparker<bool, Waking>,
}

impl Model for Waker {
    ghost use Rattle.std.specs.Arc.{arc_value};
    ghost use Rattle.atomic_table.specs.Seated.{TableId};

    ghost Value = { TableId };

    ghost view = { λ w. (arc_value w.unparker.state).shared.table_id };
}

/// Shows that the place that parks on one sleeper was woken. A contract sees which sleeper.
#[derive(Drop)]
pub struct Woken {
    pass: Pass<bool>,
    ghost given: { parker_view pass ≡ true },
}

impl Model for Woken {
    ghost use Rattle.atomic_table.specs.Seated.{TableId};

    ghost Value = { TableId };

    ghost view = { λ w. w.pass.table_id };
}

impl Sleeper {
    /// Creates a sleeper, and what wakes the place that parks on it. Fails if an allocation failed.
    pub fn new(alloc: Global) -> Result<(Sleeper, Waker), AllocError>
        ensures { IfOk result (λ r. r.1 ≡ r.0) }
    {
        let (parker, _) = RuledParker::ruled(alloc)?;
        let unparker = parker.unparker().clone()?;
        let sleeper = Sleeper {
            parker,
            to_enter: Patience::new(),
            to_resume: Patience::new(),
        };
        Ok((sleeper, Waker { unparker }))
    }

    /// Parks the caller until the place is woken. Returns at once if the place was woken since its last park.
    #[inline]
    pub fn sleep<R: Wait>(&self, rt: &R) {
        let mut pass = self.parker.unparker().pass();
        self.parker.park_as::<Takes, R>(rt, &mut pass);
    }
}

impl Waker {
    /// Wakes the place, or lets its next park return at once. The caller has released the monitor: a place that is
    /// woken before that finds nothing, and parks again.
    #[inline]
    pub fn wake<D>(&self, seat: &DoorSeat<D>) -> Woken
        requires given_up { HasReleased seat.now.me }
        ensures { result ≡ self.now }
    {
        let mut pass = self.unparker.pass();
        self.unparker.unpark_as::<Gives>(&mut pass);
        Woken { pass }
    }
}
