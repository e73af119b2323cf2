//! The data of the service's monitors.
ghost use Rattle.std.specs.Prelude.{◌≡◌, ◌&&◌, IfSome};
ghost use Rattle.disk_jobs.specs.Services.{served};
ghost use Rattle.disk_service.specs.JobsDone.{noted, with_job};

use disk_jobs::done::Done;

/// Returns true if both are true. A call of it has one result, where the proofs lose what `&&` between two calls knows.
pub(crate) fn both(first: bool, second: bool) -> bool
    ensures { result ≡ (first && second) }
{
    first && second
}

/// What a worker removes from the buffer.
#[derive(Clone, Copy, Debug, PartialEq, Eq)]
pub enum Item {
    /// A job to do, by its number.
    Job(u32),
    /// There are no more jobs for this worker.
    Stop,
}

/// The drive of the simulated disk.
#[derive(Drop)]
pub struct Drive;

impl Drive {
    /// Reads the block on the cylinder under the head, for a job.
    pub(crate) fn read(&self, job: u32, cylinder: u16) -> Done
        ensures { result ≡ served job cylinder }
    {
        Done::of(job, cylinder)
    }
}

/// How many jobs were done, and the sum of their blocks.
#[derive(Clone, Copy, Debug, PartialEq, Eq)]
pub struct Totals {
    /// How many jobs were done.
    pub jobs: u64,
    /// The sum of the blocks of these jobs.
    pub sum: u64,
}

impl Totals {
    /// The totals while no job is done.
    pub(crate) const NONE: Totals = Totals { jobs: 0, sum: 0 };

    /// Returns the totals with one more job, or `None` if a number overflows its type.
    pub(crate) fn with(self, done: Done) -> Option<Totals>
        ensures { IfSome result (λ t. t ≡ with_job self done) }
    {
        let jobs = self.jobs.checked_add(1)?;
        let sum = self.sum.checked_add(u64::from(done.block()))?;
        Some(Totals { jobs, sum })
    }
}

/// What every thread may read: how many jobs were done, and if no more will be.
#[derive(Clone, Copy, Debug, PartialEq, Eq)]
pub struct Board {
    /// How many jobs were done.
    pub done: u32,
    /// True if no more jobs will be done.
    pub closed: bool,
}

impl Board {
    /// Returns the board with `more` jobs done, closed if it was or if `last`. Returns `None` if a number overflows its
    /// type.
    pub(crate) fn with(self, more: u32, last: bool) -> Option<Board>
        ensures { IfSome result (λ b. b ≡ noted self more last) }
    {
        let done = self.done.checked_add(more)?;
        Some(Board {
            done,
            closed: self.closed || last,
        })
    }
}
