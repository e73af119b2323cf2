//! Schedulers over any monitor: a single item, and a bounded buffer.
#![tactic(auto)]

pub mod buffer;
pub mod single;
