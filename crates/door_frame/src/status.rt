//! What a door's words show of its state: to find out why a program hangs.
use std::fmt::{self, Display, Formatter, Write};

/// Which place has the monitor, as far as a door's words show.
#[derive(Clone, Copy, Debug, PartialEq, Eq)]
pub enum Holder {
    /// No place is inside, and the monitor is owed to none.
    Nobody,
    /// A place is inside, or is just entering. The words don't show which of the two.
    Somebody,
    /// The monitor was handed off to this place, which hasn't resumed yet.
    Owed(usize),
}

/// What a door's words showed. They are loaded one after the other while other threads may change them, so this is no
/// atomic snapshot, and it may be out of date when it is returned. Not specified.
#[derive(Clone, Copy, Debug, PartialEq, Eq)]
pub struct Status {
    /// Which place has the monitor.
    pub holder: Holder,
    /// The number of entering threads that were seen: on a ticket door those with a ticket that isn't served yet, on a
    /// baton door those that sleep.
    pub entering: u64,
}

impl Display for Holder {
    fn fmt<W: Write>(&self, f: &mut Formatter<W>) -> fmt::Result {
        match self {
            Holder::Nobody => f.write_str("nobody inside"),
            Holder::Somebody => f.write_str("a place inside"),
            Holder::Owed(place) => write!(f, "handed to place {place}"),
        }
    }
}

impl Display for Status {
    fn fmt<W: Write>(&self, f: &mut Formatter<W>) -> fmt::Result {
        write!(f, "{}, {} waiting to enter", self.holder, self.entering)
    }
}
