//! Opening and closing one door of the service.
ghost use Rattle.std.specs.Prelude.{◌≡◌, IfOk, IfErr};
ghost use Rattle.hoare_law.specs.Priorities.{nobody};
ghost use Rattle.hoare_law.specs.Sizes.{kinds_of};
ghost use Rattle.any_door.specs.Doors.{id_of, kind_behind};
ghost use Rattle.disk_service.specs.Doors.{AreFirst, terms};
ghost use Rattle.disk_service.specs.Made.{AreNew, door_kind};
ghost use Rattle.disk_service.specs.ServedJobs.{ClosesWith};

use any_door::{AnyDoor, DoorKind};
use disk_jobs::fault::ServiceFault;
use disk_jobs::kind::Kind;
use door_frame::place::Outside;
use hoare_law::data::MonitorData;
use std::alloc::Global;

/// A door and its places, in order.
pub(crate) type DoorWithPlaces<D> = (AnyDoor<D>, Vec<Outside<D>>);

// Returns the kind of door that this kind of service uses.
fn door_kind(kind: Kind) -> DoorKind
    ensures { result ≡ door_kind kind }
{
    match kind {
        Kind::Baton => DoorKind::Baton,
        Kind::Ticket => DoorKind::Ticket,
    }
}

/// Opens a door of this kind with the data `state` and this number of places. Returns it and the places, in order, or
/// `Memory` if it can't be made.
pub(crate) fn opened<D: MonitorData + Send + Drop>(
    alloc: Global,
    kind: Kind,
    state: D,
    places: usize,
) -> Result<DoorWithPlaces<D>, ServiceFault>
    requires { D.rest state nobody }
    ensures kind { IfOk result (λ r. kind_behind r.0 ≡ door_kind kind) }
    ensures size { IfOk result (λ r. (id_of r.0).places ≡ places) }
    ensures places { IfOk result (λ r. AreFirst (terms D.rest D.ready (kinds_of D.CONDITIONS D.MESA))
        (id_of r.0) places r.1.items) }
    ensures opening { IfOk result (λ r. AreNew state places r.1.items) }
    ensures fault { IfErr result (λ f. f ≡ ServiceFault.Memory) }
{
    match door_kind(kind).make(alloc, state, places) {
        Ok(made) => Ok(made),
        Err(_) => Err(ServiceFault::Memory),
    }
}

/// Closes the door, given all of its places. Returns the data that the places left.
pub(crate) fn closed<D: MonitorData + Send>(door: AnyDoor<D>, places: Vec<Outside<D>>) -> D
    requires { AreFirst (terms D.rest D.ready (kinds_of D.CONDITIONS D.MESA)) (id_of door) (id_of door).places
        places.items }
    ensures { ClosesWith (terms D.rest D.ready (kinds_of D.CONDITIONS D.MESA)) (id_of door) places.items result }
{
    door.close(places)
}
