//! The places of a running door for callers that can't hold them by types, as C can't: each place is a value with a
//! state, and each act is done or refused. No call here blocks, and none wakes a thread.
#![tactic(auto)]

pub mod act;
pub mod codes;
pub mod keeper;
mod moves;
pub mod place;
pub mod shared;
pub mod state;
