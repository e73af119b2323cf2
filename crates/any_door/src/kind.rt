//! The kinds of doors.

/// The kind of a door: how it admits entering threads.
#[derive(Clone, Copy, Debug, PartialEq, Eq)]
pub enum DoorKind {
    /// The kind of `baton_door`, with one state word: the order among entering threads is not specified.
    Baton,
    /// The kind of `ticket_door`: entering threads are admitted in ticket order.
    Ticket,
}

impl DoorKind {
    /// Both kinds, each once.
    pub const BOTH: [DoorKind; 2] = [DoorKind::Baton, DoorKind::Ticket];
}
