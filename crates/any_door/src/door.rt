//! A door of either kind, its raw monitor, and how it is made.
ghost use Rattle.std.specs.Prelude.{◌≡◌, ◌⊎◌, IfOk, IfErr, None, Some, All};
ghost use Rattle.hoare_law.specs.Events.{opened};
ghost use Rattle.hoare_law.specs.Sizes.{sizes_of};
ghost use Rattle.hoare_law.specs.Priorities.{nobody};
ghost use Rattle.wait_book.specs.Contents.{make_refusal};
ghost use Rattle.door_frame.specs.Places.{places_from};
ghost use Rattle.any_door.specs.Doors.{id_of, kind_behind};

use crate::kind::DoorKind;
use baton_door::door::{Door, RawBatonDoor};
use door_frame::place::Outside;
use door_frame::running::RunningMonitor;
use hoare_law::data::MonitorData;
use hoare_law::monitor::Monitor;
use std::alloc::Global;
use ticket_door::door::{RawTicketDoor, TicketDoor};
use wait_book::steps::MakeRefused;

/// A monitor for running threads, on a door of either kind: it implements `Monitor`. If the kind is known, `Door` or
/// `TicketDoor` does the same with one test less in each call.
///
/// ```rust
/// let data = Unconstrained::<u64, 1> { value: 41 };
/// let (door, mut outs) = kind.make(alloc, data, 2).map_err(|(_, refused)| refused)?;
/// let mut inside = door.enter(&rt, outs.pop().unwrap());
/// AnyDoor::state_mut(&mut inside, &door).value = 42;
/// outs.push_reserved(door.leave(&rt, inside));
/// assert_eq!(rt; door.close(outs).value, 42);
/// ```
pub type AnyDoor<D> = RunningMonitor<RawAnyDoor<D>>;

/// The raw monitor of an `AnyDoor`.
#[derive(Drop)]
pub enum RawAnyDoor<D: MonitorData> {
    /// The raw monitor of a baton door, which has one state word.
    Baton(RawBatonDoor<D>),
    /// The raw monitor of a ticket door, which has tickets and bells.
    Ticket(RawTicketDoor<D>),
}

impl DoorKind {
    /// Creates a door of this kind, of 1 to 64 places and `D::CONDITIONS` conditions, 1 to 8, opened with the data, and
    /// its places, in order. The last `D::MESA` conditions are Mesa conditions. The caller must prove `rest` of the
    /// data with nobody waiting. Refuses, in this order, with `BadPlaces`, `BadConditions`, and `Memory` if an
    /// allocation of what the door will ever need failed. Each refusal returns the data.
    pub fn make<D: MonitorData + Send>(
        self,
        alloc: Global,
        state: D,
        places: usize,
    ) -> Result<(AnyDoor<D>, Vec<Outside<D>>), (D, MakeRefused)>
        requires rest { D.rest state nobody }
        ensures made { IfOk result (λ r. (make_refusal (sizes_of D.CONDITIONS D.MESA places) ≡ None)
            × ((id_of r.0).places ≡ places)) }
        ensures kind { IfOk result (λ r. kind_behind r.0 ≡ self) }
        ensures of { IfOk result (λ r. All (⟦<AnyDoor<D> as Monitor<D>>⟧.is_of r.0) r.1.items) }
        ensures places { IfOk result (λ r. r.1.items ≡ places_from (id_of r.0) 0 places
            (opened (sizes_of D.CONDITIONS D.MESA places) state)) }
        ensures returned { IfErr result (λ e. e.0 ≡ state) }
        ensures refused { IfErr result (λ e. (make_refusal (sizes_of D.CONDITIONS D.MESA places) ≡ Some e.1)
            ⊎ ((make_refusal (sizes_of D.CONDITIONS D.MESA places) ≡ None) × (e.1 ≡ MakeRefused.Memory))) }
    {
        match self {
            DoorKind::Baton => {
                let (door, outs) = Door::make(alloc, state, places)?;
                let raw_monitor = RawAnyDoor::Baton(door.into_raw());
                Ok((RunningMonitor::new(raw_monitor), outs))
            }
            DoorKind::Ticket => {
                let (door, outs) = TicketDoor::make(alloc, state, places)?;
                let raw_monitor = RawAnyDoor::Ticket(door.into_raw());
                Ok((RunningMonitor::new(raw_monitor), outs))
            }
        }
    }
}
