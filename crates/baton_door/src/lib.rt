//! The baton doors, each with one state word and one slot: `Door`, whose threads park, and `StepDoor`, whose calls
//! never block. The history of a door, its opening data and its events, is ghost: it exists only in proofs.
#![tactic(auto)]

pub mod door;
mod entering;
mod entrance;
mod handing;
mod leaving;
mod meeting;
pub mod place;
mod raw_monitor;
mod rule;
mod status;
pub mod step_door;
mod table_steps;
mod word;
