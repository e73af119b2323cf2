//! A meeting of two places outside, on any door.
ghost use Rattle.std.specs.Prelude.{◌≡◌, ◌<◌};
ghost use Rattle.hoare_law.specs.Lawful.{Stands};
ghost use Rattle.door_frame.specs.Meeting.{Meets};

use crate::place::Outside;
use crate::rule::{DoorTable, Words};
use crate::seat_steps::{Learn, MergePlaces, SplitFirst};
use crate::waking::Parking;
use hoare_law::data::MonitorData;

/// Lets `a` and `b`, two places outside of the door of `table`, meet, and returns them in this order. Afterwards both
/// know one history. It begins with what each of them knew, and has no further event of either.
pub fn meet<D: MonitorData, K, W: Words<D, K>, S: Parking>(
    table: &DoorTable<D, K, W>,
    a: Outside<D, S>,
    b: Outside<D, S>,
) -> (Outside<D, S>, Outside<D, S>)
    requires table { 0 < table.now.shared.table_id.words }
    requires a { a.place_id.table ≡ table.now.shared.table_id }
    requires b { b.place_id.table ≡ table.now.shared.table_id }
    ensures of { (result.0.place_id ≡ a.place_id) × (result.1.place_id ≡ b.place_id) }
    ensures places { (result.0.place ≡ a.place) × (result.1.place ≡ b.place) }
    ensures stands { Stands D.rest D.ready result.1.front }
    ensures met { Meets a b result.0 result.1 }
{
    let (mut seat, place, sleeper) = a.into_parts();
    let (other, other_place, other_sleeper) = b.into_parts();
    table.shared.join_seat::<MergePlaces>(&mut seat, other);
    table.shared.load::<Learn>(&mut seat, 0);
    let cut = table.shared.split_seat::<SplitFirst>(&mut seat);
    (
        Outside::of_parts(seat, place, sleeper),
        Outside::of_parts(cut, other_place, other_sleeper),
    )
}
