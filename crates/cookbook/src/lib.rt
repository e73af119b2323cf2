//! A cookbook of seven monitors, each over any `Monitor`: a cyclic barrier, a drain, a latch, a mailbox by priority, a
//! rendezvous of pairs, the table of the dining philosophers, and a work queue.
#![tactic(auto)]

pub mod barrier;
pub mod drain;
pub mod latch;
pub mod mailbox;
pub mod rendezvous;
pub mod table;
pub mod work_queue;
