//! Steps of a book, with their results and refusals.

/// Which place is inside, or resumes next.
#[derive(Clone, Copy, Debug, PartialEq, Eq)]
pub enum Next {
    /// No place is inside, and the monitor is owed to no place: a place that is outside may enter.
    Free,
    /// The monitor is owed to this place, which hasn't resumed yet.
    For(usize),
    /// This place is inside.
    Held(usize),
}

/// Why `Book::make` created no book. The first variant that applies, in this order, is returned.
#[derive(Clone, Copy, Debug, PartialEq, Eq, thiserror::Error)]
pub enum MakeRefused {
    /// `places` is 0 or over 64.
    #[error("a monitor has 1 to 64 places")]
    BadPlaces,
    /// `conditions` is 0 or over 8, or `mesa` is over `conditions`.
    #[error("a monitor has 1 to 8 conditions, and no more Mesa conditions")]
    BadConditions,
    /// The memory for a node of each place couldn't be allocated, or came with room for more than 256 nodes.
    #[error("out of memory")]
    Memory,
}

/// A step of a place, as a script spells it. Any numbers are allowed: `Book::try_step` refuses a step out of range. The
/// first number is the place, the second the condition.
#[derive(Clone, Copy, Debug, PartialEq, Eq)]
pub enum Step {
    /// A place enters.
    Enter(u64),
    /// The place inside waits on a condition, with a priority (the third number).
    Wait(u64, u64, u64),
    /// The place inside signals one of Hoare's conditions. It is held up as a signaller if a process waits there.
    Signal(u64, u64),
    /// The place inside signals one of Hoare's conditions as its last act, and is then outside.
    Pass(u64, u64),
    /// The place inside leaves.
    Leave(u64),
    /// The place inside notifies the first waiter on a Mesa condition (least priority, then longest wait), if there is
    /// one.
    Notify(u64, u64),
    /// The place inside notifies all waiters on a Mesa condition.
    Broadcast(u64, u64),
}

/// Why `Book::try_step` refused a step. The first variant that applies, in this order, is returned, and nothing
/// changes.
#[derive(Clone, Copy, Debug, PartialEq, Eq, thiserror::Error)]
pub enum StepRefused {
    /// The book has no place of this number.
    #[error("there is no such place")]
    NoPlace,
    /// An `Enter` while a place is inside, or while the monitor is owed to a place.
    #[error("the monitor isn't free")]
    NotFree,
    /// An `Enter` of a place that waits on a condition.
    #[error("the place waits on a condition")]
    NotOutside,
    /// Any other step, of a place that isn't inside.
    #[error("the place isn't inside")]
    NotInside,
    /// The book has no condition of this number.
    #[error("there is no such condition")]
    NoCondition,
    /// A `Signal` or a `Pass` on a Mesa condition, or a `Notify` or a `Broadcast` on one of Hoare's conditions.
    #[error("the condition is of the other kind")]
    WrongKind,
}
