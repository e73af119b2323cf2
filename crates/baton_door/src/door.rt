//! A door whose calls block, its raw monitor, and how a baton door is opened.
ghost use Rattle.std.specs.Prelude.{◌≡◌, ◌<◌, []};
ghost use Rattle.hoare_law.specs.Events.{opened};
ghost use Rattle.hoare_law.specs.Sizes.{sizes_at};
ghost use Rattle.hoare_law.specs.Priorities.{nobody};
ghost use Rattle.wait_book.specs.Contents.{IsOf};
ghost use Rattle.door_frame.specs.declared.view.SeatView.TheVariants.{Unopened, Places};
ghost use Rattle.door_frame.specs.Views.{all_know};

use crate::entrance::Entrance;
use crate::rule::{DoorKey, DoorTable};
use crate::word::{DOOR, FREE, HELD};
use crossbeam_utils::CachePadded;
use door_frame::guarded::GuardedBox;
use door_frame::running::RunningMonitor;
use door_frame::seat_steps::{Begin, DoorSeat, Open, PickedKinds};
use door_frame::slot::put_guarded;
use door_frame::waking::Waker;
use hoare_law::data::MonitorData;
use std::marker::Model;

/// A monitor whose calls block the calling thread if they must: it implements `Monitor`. (The calls of a `StepDoor`
/// never block.) Threads share it by reference, each with its own place.
///
/// After `make` no call allocates. One state word says whether the monitor is free, held, or owed to a place, which
/// alone may take it then. One slot keeps the data, and the queues of waiters and signallers. If the type of the data
/// has `Drop`, so has the door, and the data are dropped with it. `close` returns the data instead.
///
/// In the example the data are a `u64`, and there is one condition. `rest` and `ready` of an `Unconstrained` always
/// hold, so the caller has nothing to prove.
///
/// ```rust
/// let data = Unconstrained::<u64, 1> { value: 41 };
/// let (door, mut outs) = Door::make(alloc, data, 2).map_err(|(_, refused)| refused)?;
/// let mut inside = door.enter(&rt, outs.pop().unwrap());
/// Door::state_mut(&mut inside, &door).value = 42;
/// outs.push_reserved(door.leave(&rt, inside));
/// assert_eq!(rt; door.close(outs).value, 42);
/// ```
pub type Door<D> = RunningMonitor<RawBatonDoor<D>>;

/// The raw monitor of a `Door`: its words, its slot, and what wakes its places.
#[derive(Drop)]
pub struct RawBatonDoor<D: MonitorData> {
    /// Eight words, of which the state word is in use, and the slot. The crate's README has a table of the state word's
    /// values and of the threads that change it. The other seven words are padding against false sharing.
    pub(crate) table: DoorTable<D>,
    /// What wakes each place: that of place k is at index k.
    pub(crate) wakers: Vec<Waker>,
    /// What entering threads sleep on, on a cache line of its own.
    pub(crate) entrance: CachePadded<Entrance>,
}

impl<D: MonitorData> Model for RawBatonDoor<D> {
    ghost use Rattle.door_frame.specs.Places.{DoorId, door_of};
    ghost use Rattle.std.specs.Prelude.{vec_len};
    ghost use Rattle.baton_door.specs.Rule.{Sized};

    ghost Value = { DoorId };

    ghost view = { λ d. door_of d.table.shared.table_id d.table.shared.key d.wakers.items };

    ghost invariant = { λ d. Sized d.table.shared.table_id.words d.table.shared.table_id.slots
        d.table.shared.key (vec_len d.wakers) };
}

/// Opens the door of `table` by a step with `seat`, the first seat of the table: changes the state word from `FREE` to
/// `HELD`, which gives `seat` access to the slot, still empty; puts `guarded` into the slot; and stores `FREE`. `seat`
/// then stands for all places together: `deal` makes the places from it. In the proofs the history of each place begins
/// with the opening data.
pub(crate) fn open<D: MonitorData, K: DoorKey<D>, J: PickedKinds>(
    table: &DoorTable<D, K>,
    seat: &mut DoorSeat<D>,
    guarded: GuardedBox<D>,
)
    requires table { (seat.old.table_id ≡ table.now.shared.table_id)
        × (0 < table.now.shared.table_id.words) }
    requires kinds { J.kinds ≡ K.kinds table.now.shared.key }
    requires seat { seat.old.me ≡ (Unopened (K.places table.now.shared.key), []) }
    requires rest { D.rest guarded.state nobody }
    requires book { IsOf guarded.book (opened (sizes_at J.kinds (K.places table.now.shared.key)) tt) }
    ensures table { seat.new.table_id ≡ seat.old.table_id }
    ensures opened { seat.new.me ≡ (
      Places (all_know 0 (K.places table.now.shared.key)
          (opened (sizes_at J.kinds (K.places table.now.shared.key)) guarded.state)),
      [],
    ) }
{
    table
        .shared
        .compare_exchange::<Begin>(seat, DOOR, FREE, HELD);
    put_guarded(table, seat, guarded);
    table.shared.store::<Open<J>>(seat, DOOR, FREE);
}
