//! How a place releases the monitor.

/// The act by which a place inside releases the monitor.
#[derive(Clone, Copy)]
pub enum Release {
    /// Waits on this condition, with this priority.
    Wait(usize, u64),
    /// Signals this condition, on which a place waits, and returns later.
    Signal(usize),
    /// Signals this condition, to this place, which waits there, and returns later.
    SignalTo(usize, usize),
    /// Signals this condition, on which a place waits, and leaves.
    Pass(usize),
    /// Leaves, and signals no condition.
    Leave,
}
