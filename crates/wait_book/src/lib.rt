//! The queues of one monitor as Hoare defined it, for one thread: entry, waiting signallers, conditions and notified
//! processes. It holds no data and no lock.
#![tactic(auto)]

pub mod book;
mod chains;
mod queues;
pub mod steps;
pub mod waiter;
