//! The law of Hoare's monitors: what happens at a monitor, which histories are legal, and what each call of a monitor
//! requires and ensures.
//!
//! Source: C. A. R. Hoare, "Monitors: An Operating System Structuring Concept", CACM 17(10), 1974, cited as "Hoare
//! 1974" with the name of the section.
#![tactic(auto)]

pub mod data;
pub mod event;
pub mod laws;
pub mod monitor;
pub mod turn;
pub mod unconstrained;
pub mod waits;
