//! How a seat that has the slot in hand, as that of the place inside, takes the guarded box from it and puts it back.
ghost use Rattle.std.specs.Prelude.{◌≡◌, [], ◌∷◌, None, Some};
ghost use Rattle.door_frame.specs.declared.view.SeatView.{SeatView};
ghost use Rattle.door_frame.specs.declared.guarded.Guarded.{Guarded};

use crate::guarded::GuardedBox;
use crate::rule::{DoorTable, Words};
use crate::seat_steps::DoorSeat;
use hoare_law::data::MonitorData;

/// Takes the guarded box from the slot, which `seat` has in hand. The caller has just entered.
#[inline]
pub fn take_guarded<D: MonitorData, K, W: Words<D, K>>(
    table: &DoorTable<D, K, W>,
    seat: &mut DoorSeat<D>,
) -> GuardedBox<D>
    requires table { seat.old.table_id ≡ table.now.shared.table_id }
    requires full { (v : SeatView D) × (x : Guarded D) × (seat.old.me ≡ (v, (0, Some x) ∷ [])) }
    ensures table { seat.new.table_id ≡ seat.old.table_id }
    ensures taken { seat.old.me ≡ (seat.old.me.0, (0, Some result) ∷ []) }
    ensures empty { seat.new.me ≡ (seat.old.me.0, (0, None) ∷ []) }
{
    table.shared.exchange(seat, 0, None).unwrap()
}

/// Puts `guarded` into the empty slot, which `seat` has in hand, before the caller releases the monitor or opens the
/// door.
#[inline]
pub fn put_guarded<D: MonitorData, K, W: Words<D, K>>(
    table: &DoorTable<D, K, W>,
    seat: &mut DoorSeat<D>,
    guarded: GuardedBox<D>,
)
    requires table { seat.old.table_id ≡ table.now.shared.table_id }
    requires empty { (v : SeatView D) × (seat.old.me ≡ (v, (0, None) ∷ [])) }
    ensures table { seat.new.table_id ≡ seat.old.table_id }
    ensures in_slot { seat.new.me ≡ (seat.old.me.0, (0, Some guarded) ∷ []) }
{
    let old = table.shared.exchange(seat, 0, Some(guarded));
    let None = old else { unreachable!() };
}
