//! What a seat of a door's table knows. No value of these types is ever created.
use hoare_law::event::History;
use std::collections::LinkedList;

/// What an entering place has of the door before it is inside.
pub enum Token {
    /// The ticket that the place took: it is queued, and isn't inside yet. The list has the places that took the
    /// tickets before it, in order, since the door was opened.
    Ticket(LinkedList<usize>),
    /// The gate, which the place shut when the word had this value: it attempts to enter.
    Gate(u64),
}

/// A place, with its front (the history that it knows) and its token, if it has one.
pub struct PlaceView<D> {
    /// The place's number.
    pub place: usize,
    /// The history that the place knows: a beginning of the log.
    pub front: History<D>,
    /// What the place has of the door, as long as it is queued or attempts to enter and isn't inside.
    pub token: Option<Token>,
}

/// What a seat knows.
pub enum SeatView<D> {
    /// The first seat, before it takes the empty slot. The door is to have this number of places.
    Unopened(usize),
    /// The first seat, with the slot in hand. The door is to have this number of places.
    Opening(usize),
    /// The places that a seat represents.
    Places(LinkedList<PlaceView<D>>),
}
