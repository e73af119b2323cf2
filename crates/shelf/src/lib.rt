//! A shelf for numbered things: any thread puts one there, and a collector takes it. What is on the shelf is a matter of
//! one log, so that the collector knows of each thing that it doesn't find that it wasn't there.
#![tactic(auto)]

pub mod rule;
pub mod shelf;
pub mod view;
