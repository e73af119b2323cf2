//! A waiter, as contracts see it.

/// A process that waits on a condition. Contracts alone use this type, to say what a book contains; no code creates a
/// value of it.
#[derive(Clone, Copy)]
pub struct Waiter {
    /// The place of the waiter.
    pub place: usize,
    /// The condition on which it waits.
    pub condition: usize,
    /// The priority of its wait. The waiter of least priority is resumed first.
    pub priority: u64,
}
