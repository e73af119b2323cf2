//! Schedulers whose processes wait with priorities, over any monitor: an alarm clock, and a pool of buffers.
#![tactic(auto)]

pub mod alarm;
pub mod pool;
