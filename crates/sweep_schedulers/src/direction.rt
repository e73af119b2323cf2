//! The direction in which the head of a disk sweeps.
ghost use Rattle.std.specs.Prelude.{◌≡◌};
ghost use Rattle.sweep_schedulers.specs.Heads.{sweep, opposite};

/// The condition *upsweep* of a disk head: a request waits on it for a cylinder on the way up.
pub const UPSWEEP: usize = 0;

/// The condition *downsweep* of a disk head: a request waits on it for a cylinder on the way down.
pub const DOWNSWEEP: usize = 1;

/// The direction in which a disk head sweeps.
#[derive(Clone, Copy, Debug, PartialEq, Eq)]
pub enum Direction {
    /// To higher cylinders.
    Up,
    /// To lower cylinders.
    Down,
}

impl Direction {
    // Returns the condition of the sweep in this direction.
    pub(crate) fn sweep(self) -> usize
        ensures { result ≡ sweep self }
    {
        match self {
            Direction::Up => UPSWEEP,
            Direction::Down => DOWNSWEEP,
        }
    }

    // Returns the other direction.
    pub(crate) fn opposite(self) -> Direction
        ensures { result ≡ opposite self }
    {
        match self {
            Direction::Up => Direction::Down,
            Direction::Down => Direction::Up,
        }
    }
}
