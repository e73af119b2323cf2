//! Tries the orders in which a monitor can admit entering processes. The threads of a small program run again and again
//! over a monitor whose admissions are chosen, until all orders were tried, or one was found that hangs or ends wrong.
#![tactic(auto)]

mod choices;
mod controller;
mod event_log;
mod explored;
mod explorer;
mod monitor;
mod parsed;
mod program;
mod run_state;
mod schedule;

pub use any_door::DoorKind;
pub use choices::{Choice, Orders};
pub use explored::{Explored, Place};
pub use explorer::{Found, Limits, explore, explore_again};
pub use program::Program;
pub use schedule::{Ending, Limit, Schedule, ThreadState};
