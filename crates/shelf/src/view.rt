//! What a seat of a shelf's table knows. No value of these types is ever created.
use std::collections::LinkedList;

/// A change of the shelf.
pub enum Change<T> {
    /// The thing with this number was put on the shelf.
    Put(usize, T),
    /// The thing with this number was taken from the shelf.
    Take(usize),
}

/// What a seat is for.
pub enum Role<T> {
    /// The collector: the log as far as the collector knows it, and the numbers of the things that it has in hand, the
    /// last first.
    Keeps(LinkedList<Change<T>>, LinkedList<usize>),
    /// The collector, with the slot of one more thing in hand, whose number comes last here.
    Fetches(LinkedList<Change<T>>, LinkedList<usize>, usize),
    /// The right to put the thing with this number on the shelf, once.
    Lent(usize),
    /// The same, with the slot of that thing in hand.
    Puts(usize),
    /// The thing was put on the shelf.
    Done,
}

/// What a seat knows: the tag of the shelf, and what the seat is for.
pub struct View<T, G> {
    /// The tag of the shelf.
    pub tag: G,
    /// What the seat is for.
    pub role: Role<T>,
}
