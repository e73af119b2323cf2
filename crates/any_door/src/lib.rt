//! A door of either kind. The kind is chosen when the door is made.
#![tactic(auto)]

pub mod door;
pub mod kind;
mod raw_monitor;
mod status;

pub use door::{AnyDoor, RawAnyDoor};
pub use kind::DoorKind;
