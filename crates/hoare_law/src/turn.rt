//! The turn of a monitor.

/// Whose turn it is at a monitor.
#[derive(Clone, Copy, Debug, PartialEq, Eq)]
pub enum Turn {
    /// The monitor is free: a process that is outside may enter.
    Free,
    /// The place with this number is inside.
    Held(usize),
    /// The place with the first number is to resume: it waited on the condition with the second number, and was resumed
    /// or notified.
    Owed(usize, usize),
    /// The place with this number is to return: it signalled.
    Return(usize),
}
