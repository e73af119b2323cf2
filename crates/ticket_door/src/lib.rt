//! A monitor for running threads: they enter by ticket, and return when their bell rings. Its history is ghost: it
//! exists only in proofs.
#![tactic(auto)]

mod bells;
pub mod door;
pub mod laws;
mod meeting;
pub mod place;
mod raw_monitor;
mod rule;
mod status;
mod tickets;
mod tries;
mod waiting_room;
mod words;
