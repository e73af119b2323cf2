//! What all running doors are built on: one history, the places' fronts, and the slot with data and queues. Which words
//! a door has, and what they mean, is each door's own.
#![tactic(auto)]

pub mod calls;
pub mod guarded;
pub mod making;
pub mod meeting;
pub mod notification;
pub mod parking;
pub mod patience;
pub mod place;
pub mod polling;
pub mod raw_monitor;
pub mod release;
pub mod rule;
pub mod running;
pub mod seat_steps;
pub mod slot;
pub mod status;
pub mod view;
pub mod waking;
