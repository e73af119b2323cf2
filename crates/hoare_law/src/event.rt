//! Events at a monitor, and histories of them. Contracts and proofs alone use them.
use std::collections::LinkedList;

/// One step of one process at a monitor. Ghost: histories exist only in contracts and proofs, and no program makes a
/// value of this type.
///
/// `place` is the number of the process's place, `condition` the number of a condition; `resumed` and `called` are the
/// place of the waiter that the event takes from the condition. `data` is the monitor's data: as the process left them
/// (`Wait`, `Signal`, `Pass`, `SignalTo`, `Leave`), as it found them (`Admit`, `Resume`, `Back`), or as they are in
/// hand then (`Notify`, `Broadcast`).
pub enum Event<S> {
    /// The process enters from outside.
    Admit {
        place: usize,
        data: S,
    },
    /// The process, which is inside, releases the monitor and waits on a condition with a priority.
    Wait {
        place: usize,
        condition: usize,
        priority: u64,
        data: S,
    },
    /// The process, which is inside, hands off the monitor to a waiter, and is held up as a signaller.
    Signal {
        place: usize,
        condition: usize,
        resumed: usize,
        data: S,
    },
    /// The process, which is inside, hands off the monitor to a waiter, and is outside: a signal as the last act.
    Pass {
        place: usize,
        condition: usize,
        resumed: usize,
        data: S,
    },
    /// The process, which is inside, hands off the monitor to the waiter that it names, and is held up as a signaller.
    SignalTo {
        place: usize,
        condition: usize,
        resumed: usize,
        data: S,
    },
    /// The process, which is inside, leaves the monitor.
    Leave {
        place: usize,
        data: S,
    },
    /// The process, which waited on a condition and was resumed or notified, resumes.
    Resume {
        place: usize,
        condition: usize,
        data: S,
    },
    /// The process, which signalled, returns.
    Back {
        place: usize,
        data: S,
    },
    /// The process, which is inside, notifies a waiter on a Mesa condition, and stays inside.
    Notify {
        place: usize,
        condition: usize,
        called: usize,
        data: S,
    },
    /// The process, which is inside, notifies all waiters on a Mesa condition, and stays inside.
    Broadcast {
        place: usize,
        condition: usize,
        data: S,
    },
}

/// The sizes of a monitor: how many places and conditions it has, and how many of the conditions are Mesa conditions.
#[derive(Clone, Copy, Debug, PartialEq, Eq)]
pub struct Sizes {
    /// Number of places, which are numbered from 0.
    pub places: usize,
    /// Number of conditions, Mesa conditions included. They are numbered from 0.
    pub conditions: usize,
    /// Number of Mesa conditions: the last of the conditions.
    pub mesa: usize,
}

/// What happened at a monitor: its sizes, the data that it was opened with, and its events. Ghost: no program makes a
/// value of this type.
pub struct History<S> {
    /// The sizes of the monitor.
    pub sizes: Sizes,
    /// The data that the monitor was opened with.
    pub opening: S,
    /// The events since the opening, the oldest first.
    pub events: LinkedList<Event<S>>,
}
