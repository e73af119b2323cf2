//! What the state word of a door says now.
use crate::door::RawBatonDoor;
use crate::word::{DOOR, FREE, HELD};
use door_frame::status::{Holder, Status};
use hoare_law::data::MonitorData;

impl<D: MonitorData> RawBatonDoor<D> {
    /// Returns what the state word says now, and how many entering threads sleep: to find out why a program hangs.
    /// The two are loaded one after the other, not as an atomic snapshot, and other threads may have changed them by
    /// the time that it returns. It needs no place, never blocks, and changes nothing.
    pub fn status(&self) -> Status {
        let holder = match self.table.shared.peek(DOOR) {
            FREE => Holder::Nobody,
            HELD => Holder::Somebody,
            owed => Holder::Owed((owed - 2) as usize),
        };
        let entering = self.entrance.count();
        Status { holder, entering }
    }
}
