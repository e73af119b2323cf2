//! How a place inside notifies the waiters on a Mesa condition.

/// Which waiters a place inside notifies. That place stays inside.
#[derive(Clone, Copy)]
pub enum Notification {
    /// The waiter that a signal on this condition would resume.
    One(usize),
    /// All waiters on this condition.
    All(usize),
}
