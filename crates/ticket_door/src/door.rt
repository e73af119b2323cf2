//! The ticket door for running threads, and its raw monitor.

use crate::rule::TicketTable;
use crate::waiting_room::WaitingRoom;
use crossbeam_utils::CachePadded;
use door_frame::running::RunningMonitor;
use door_frame::waking::Waker;
use hoare_law::data::MonitorData;
use std::marker::Model;

/// A monitor for running threads, which enter in the order of their tickets. It implements `Monitor`. Threads share it
/// by reference, each with its own place.
///
/// No call after `make` allocates memory. A door can be dropped if its data can; the data are then dropped too. `close`
/// returns them.
///
/// ```rust
/// let data = Unconstrained::<u64, 1> { value: 41 };
/// let (door, mut outs) = TicketDoor::make(alloc, data, 2).map_err(|(_, refused)| refused)?;
/// let asked = door.ask(outs.pop().unwrap()); // non-blocking
/// let mut inside = door.come_in(&rt, asked);
/// TicketDoor::state_mut(&mut inside, &door).value = 42;
/// outs.push_reserved(door.give_up(inside)); // non-blocking
/// assert_eq!(rt; door.close(outs).value, 42);
/// ```
pub type TicketDoor<D> = RunningMonitor<RawTicketDoor<D>>;

/// The raw monitor of a `TicketDoor`: its words, its slot, and what wakes its places. A `TicketDoor` has its calls too.
#[derive(Drop)]
pub struct RawTicketDoor<D: MonitorData> {
    /// The words and the slot. The crate's README has a table of what each word says, and which thread changes it to
    /// what. Each of these words has a cache line of its own.
    pub(crate) table: TicketTable<D>,
    /// What wakes each place, in the order of the places.
    pub(crate) wakers: Vec<Waker>,
    /// Where entering threads sleep, on cache lines of its own.
    pub(crate) waiting_room: CachePadded<WaitingRoom>,
}

impl<D: MonitorData> Model for RawTicketDoor<D> {
    ghost use Rattle.std.specs.Prelude.{vec_len};
    ghost use Rattle.ticket_door.specs.Asked.{TicketDoorId, ticket_door};
    ghost use Rattle.ticket_door.specs.Rule.{Sized};

    ghost Value = { TicketDoorId };

    ghost view = { λ d. ticket_door d.table.shared.table_id d.table.shared.key d.wakers.items };

    ghost invariant = { λ d. Sized d.table.shared.table_id.words d.table.shared.table_id.slots
        d.table.shared.key.places (vec_len d.wakers) };
}
