//! The monitor of a run: a door whose admissions the controller chooses.
ghost use Rattle.std.specs.Prelude.{◌≡◌, All, IfOk};
ghost use Rattle.hoare_law.specs.Priorities.{nobody};

use crate::controller::Controller;
use any_door::{AnyDoor, DoorKind};
use door_frame::place::Outside;
use hoare_law::data::MonitorData;
use hoare_law::monitor::Monitor;
use std::alloc::{AllocError, Global};

/// A door whose admissions the controller of a run chooses. It implements `Monitor`.
#[derive(Drop)]
pub struct Explored<D: MonitorData> {
    /// The door that does the calls.
    pub(crate) door: AnyDoor<D>,
    /// The controller that chooses the admissions.
    pub(crate) controller: Controller,
}

impl<D: MonitorData + Send + Drop> Explored<D> {
    /// Creates a monitor on a door of this kind, with the data `state`, and its places, in order. The caller must prove
    /// `rest` of the data with no process waiting. Refuses, and drops the data, if the door refuses.
    pub(crate) fn make(
        alloc: Global,
        kind: DoorKind,
        controller: Controller,
        state: D,
        places: usize,
    ) -> Result<(Explored<D>, Vec<Outside<D>>), AllocError>
        requires { D.rest state nobody }
        ensures { IfOk result (λ r. All (⟦<Explored<D> as Monitor<D>>⟧.is_of r.0) r.1.items) }
    {
        let Ok((door, outs)) = kind.make(alloc, state, places) else {
            return Err(AllocError);
        };
        Ok((Explored { door, controller }, outs))
    }
}

/// A place of an `Explored` monitor, while it is outside.
pub type Place<D> = Outside<D>;

/// Returns the place unchanged, and its number.
pub(crate) fn number_of<D>(out: Outside<D>) -> (Outside<D>, usize)
    ensures same { result.0 ≡ out }
    ensures number { result.1 ≡ out.place }
{
    let (seat, place, sleeper) = out.into_parts();
    (Outside::of_parts(seat, place, sleeper), place)
}
