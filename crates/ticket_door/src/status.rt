//! What the door's words say now.
use crate::door::RawTicketDoor;
use crate::words::{NEXT, RUNG, SERVING, TURN, bell_of};
use door_frame::status::{Holder, Status};
use hoare_law::data::MonitorData;

impl<D: MonitorData> RawTicketDoor<D> {
    /// Returns what the words say now, to find out why a program hangs. The words are loaded one after the other, so
    /// the result is no atomic snapshot: if two bells ring one after the other, it may report the first. It may be out
    /// of date when it is returned. Needs no place, never blocks, and changes nothing.
    pub fn status(&self) -> Status {
        let serving = self.table.shared.peek(SERVING);
        let next = self.table.shared.peek(NEXT).wrapping_mul(TURN);
        let unserved = next.wrapping_sub(serving).wrapping_add(1) / TURN;
        let holder = match self.first_rung() {
            Some(place) => Holder::Owed(place),
            None if unserved == 0 => Holder::Nobody,
            None => Holder::Somebody,
        };
        let entering = unserved.saturating_sub(1);
        Status { holder, entering }
    }

    /// Returns the first place whose bell is rung, or `None`.
    fn first_rung(&self) -> Option<usize> {
        for place in 0..self.wakers.len() {
            if self.table.shared.peek(bell_of(place)) == RUNG {
                return Some(place);
            }
        }
        None
    }
}
