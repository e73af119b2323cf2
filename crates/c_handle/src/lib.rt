//! A value that C holds by a pointer.
#![tactic(auto)]

pub mod handle;
pub mod held;
mod loose;
