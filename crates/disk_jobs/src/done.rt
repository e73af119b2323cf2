//! The result of a job.
ghost use Rattle.std.specs.Prelude.{◌≡◌};
ghost use Rattle.disk_jobs.specs.Services.{block_of, served};

use std::marker::Model;

/// A job that is done: its number, its cylinder C, and the block on that cylinder, (C * C + 17) mod 65536. In contracts
/// it is the number and the cylinder, which determine the block.
#[derive(Clone, Copy, Debug, PartialEq, Eq)]
pub struct Done {
    job: u32,
    cylinder: u16,
    block: u16,
}

impl Model for Done {
    ghost use Rattle.std.specs.Prelude.{◌≡◌};
    ghost use Rattle.disk_jobs.specs.Services.{Served, block_of};

    ghost Value = { Served };

    ghost view = { λ d. record { job = d.job; cylinder = d.cylinder } };

    ghost invariant = { λ d. d.block ≡ block_of d.cylinder };

    ghost inverse = { λ v. record {
      job = v.job;
      cylinder = v.cylinder;
      block = block_of v.cylinder;
    } };
}

impl Done {
    /// Creates the result of the job with this number, done on this cylinder.
    pub fn of(job: u32, cylinder: u16) -> Done
        ensures { result ≡ served job cylinder }
    {
        let wide = u32::from(cylinder);
        let block = (wide * wide + 17) % 65_536;
        Done {
            job,
            cylinder,
            block: block as u16,
        }
    }

    /// Returns the number of the job.
    pub fn job(&self) -> u32
        ensures { result ≡ self.now.job }
    {
        self.job
    }

    /// Returns the cylinder that was read.
    pub fn cylinder(&self) -> u16
        ensures { result ≡ self.now.cylinder }
    {
        self.cylinder
    }

    /// Returns the block on the cylinder.
    pub fn block(&self) -> u16
        ensures { result ≡ block_of self.now.cylinder }
    {
        self.block
    }
}
