//! Schedulers that sweep, over any monitor: a disk head, and readers and writers.
#![tactic(auto)]

pub mod direction;
pub mod head;
pub mod laws;
pub mod not_out;
pub mod readers_writers;
mod waiting;
