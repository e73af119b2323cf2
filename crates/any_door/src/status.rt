//! What the words of a door of either kind say now.
use crate::door::RawAnyDoor;
use door_frame::status::Status;
use hoare_law::data::MonitorData;

impl<D: MonitorData> RawAnyDoor<D> {
    /// Returns what the door's words say now, by `status` of the door's kind: to find out why a program hangs. The
    /// words are loaded one after the other, not as an atomic snapshot, and other threads may have changed them by the
    /// time that it returns. It needs no place, never blocks, and changes nothing.
    pub fn status(&self) -> Status {
        match self {
            RawAnyDoor::Baton(door) => door.status(),
            RawAnyDoor::Ticket(door) => door.status(),
        }
    }
}
