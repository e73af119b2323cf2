//! Answers scripts. A script is a text that takes one monitor through steps; the book of its queues answers each line.
#![tactic(auto)]

pub mod answers;
pub mod fault;
pub mod lines;
pub mod opened;
pub mod runs;

pub use fault::ScriptFault;
pub use runs::{run, run_watched};
