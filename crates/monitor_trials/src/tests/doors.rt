//! Tests of the doors: on one thread, by ticket, and rows on threads on each door.

mod alone;
mod stress;
mod tally;
mod tickets;
mod tries;
mod waking;
