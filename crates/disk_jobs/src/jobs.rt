//! The jobs that a service does.
ghost use Rattle.std.specs.Prelude.{◌≡◌, ◌<◌, ◌≤◌, ◌++◌, ◌∷◌, [], length, None, Some, IfOk, IfErr, MatchResult};
ghost use Rattle.disk_jobs.specs.JobLists.{job_list, off_disk, refusal_of, with_job};

use std::alloc::{AllocError, Global};
use std::marker::Model;

/// The most workers that a service may have.
pub const MOST_WORKERS: u32 = 16;

/// The most jobs that a service may have.
pub const MOST_JOBS: usize = 4096;

/// The jobs of a service: the cylinder that each reads, the last cylinder of the disk, and how many workers do them.
#[derive(Drop)]
pub struct Jobs {
    cylmax: u16,
    workers: u32,
    cylinders: Vec<u16>,
}

impl Model for Jobs {
    ghost use Rattle.disk_jobs.specs.JobLists.{JobList, IsInLimits};

    ghost Value = { JobList };

    ghost view = { λ j. record {
      cylmax = j.cylmax;
      workers = j.workers;
      cylinders = j.cylinders.items;
    } };

    ghost invariant = { λ j. IsInLimits
        (record { cylmax = j.cylmax; workers = j.workers; cylinders = j.cylinders.items }) };
}

/// Why no jobs were made: the first of these reasons that applies.
#[derive(Clone, Copy, Debug, PartialEq, Eq, thiserror::Error)]
pub enum BadJobs {
    /// There is no worker, or there are over 16.
    #[error("a service has 1 to 16 workers")]
    BadWorkers,
    /// There are over 4,096 jobs.
    #[error("a service has at most 4096 jobs")]
    TooMany,
    /// A job's cylinder is past the last one. The value is the number of the first such job, counted from 0.
    #[error("job {0} is off the disk")]
    OffDisk(usize),
}

// Returns the number of the first job whose cylinder is past the last one, counted from 0, or `None` if there is none.
fn off_disk(cylmax: u16, cylinders: &[u16]) -> Option<usize>
    ensures { result ≡ off_disk cylmax 0 cylinders.now }
{
    for (i, cylinder) in cylinders.iter().enumerate() {
        if *cylinder > cylmax {
            return Some(i);
        }
    }
    None
}

// Returns why there can't be such jobs, or `None` if there can.
#[tactic(auto, unfolding(crate::specs::JobLists::refusal_of))]
fn refusal(cylmax: u16, workers: u32, cylinders: &[u16]) -> Option<BadJobs>
    ensures { result ≡ refusal_of (job_list cylmax workers cylinders.now) }
{
    if workers == 0 || workers > MOST_WORKERS {
        return Some(BadJobs::BadWorkers);
    }
    if cylinders.len() > MOST_JOBS {
        return Some(BadJobs::TooMany);
    }
    match off_disk(cylmax, cylinders) {
        Some(job) => Some(BadJobs::OffDisk(job)),
        None => None,
    }
}

impl Jobs {
    /// Creates jobs that read these cylinders, each up to `cylmax`, for this number of workers. Returns one of these
    /// refusals, the first that applies, together with the cylinders: `BadWorkers` if there aren't 1 to 16 workers,
    /// `TooMany` if there are over 4,096 jobs, `OffDisk` with the first job whose cylinder is past `cylmax`.
    pub fn make(cylmax: u16, workers: u32, cylinders: Vec<u16>) -> Result<Jobs, (Vec<u16>, BadJobs)>
        ensures made { IfOk result (λ j. j ≡ job_list cylmax workers cylinders.items) }
        ensures returned { IfErr result (λ e. e.0 ≡ cylinders) }
        ensures refused { let r = refusal_of (job_list cylmax workers cylinders.items) in
            MatchResult result (λ _. r ≡ None) (λ e. r ≡ Some e.1) }
    {
        match refusal(cylmax, workers, cylinders.as_slice()) {
            Some(bad) => Err((cylinders, bad)),
            None => Ok(Jobs {
                cylmax,
                workers,
                cylinders,
            }),
        }
    }

    /// Returns the cylinders of the jobs, in order.
    pub fn cylinders(&self) -> &[u16]
        ensures { result.now ≡ self.now.cylinders }
    {
        self.cylinders.as_slice()
    }

    /// Returns the last cylinder of the disk.
    pub fn cylmax(&self) -> u16
        ensures { result ≡ self.now.cylmax }
    {
        self.cylmax
    }

    /// Returns how many workers do the jobs: 1 to 16.
    pub fn workers(&self) -> u32
        ensures value { result ≡ self.now.workers }
        ensures some { 0 < result }
        ensures limit { result ≤ 16 }
    {
        self.workers
    }

    /// Returns how many jobs there are: at most 4,096.
    pub fn len(&self) -> usize
        ensures value { result ≡ length self.now.cylinders }
        ensures limit { result ≤ 4096 }
    {
        self.cylinders.len()
    }

    // Creates a list with no jobs yet.
    pub(crate) fn none(alloc: Global, cylmax: u16, workers: u32) -> Jobs
        requires some { 0 < workers }
        requires limit { workers ≤ 16 }
        ensures { result ≡ job_list cylmax workers [] }
    {
        Jobs {
            cylmax,
            workers,
            cylinders: Vec::new(alloc),
        }
    }

    // Appends a job. Returns an error if there is no memory for it.
    pub(crate) fn push(&mut self, cylinder: u16) -> Result<(), AllocError>
        requires room { length self.old.cylinders < 4096 }
        requires on_disk { cylinder ≤ self.old.cylmax }
        ensures { IfOk result (λ _. self.new ≡ with_job self.old cylinder) }
    {
        self.cylinders.push(cylinder)?;
        Ok(())
    }
}
