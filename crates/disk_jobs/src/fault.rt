//! What can go wrong with a job file or a service.
ghost use Rattle.std.specs.Prelude.{◌≡◌, ◌↔◌, IsNone};
ghost use Rattle.disk_jobs.specs.Faults.{status_of};

use thiserror::Error;

/// Why the service gives no report. Lines are counted from 1, which is the header.
#[derive(Clone, Copy, Debug, PartialEq, Eq, Error)]
pub enum ServiceFault {
    /// Out of memory for the jobs or for the service.
    #[error("fault 1 Memory")]
    Memory,
    /// The first line isn't `disk M W` with M up to 65535 and 1 to 16 workers. Or a later line isn't `read C` with C up
    /// to M, or is one job too many. Or a line has over 256 bytes. The value is the number of the line.
    #[error("fault 2 BadLine line {0}")]
    BadLine(u64),
    /// The input has no line.
    #[error("fault 3 NoHeader")]
    NoHeader,
    /// A thread can't be started.
    #[error("fault 4 Spawn")]
    Spawn,
    /// The results aren't those of the jobs, or the totals or the board don't agree with them.
    #[error("fault 5 Torn")]
    Torn,
    /// A read failed.
    #[error("fault 6 ReadFault")]
    ReadFault,
    /// A write failed, or took no bytes.
    #[error("fault 7 WriteFault")]
    WriteFault,
}

impl ServiceFault {
    /// Returns the exit status of a program that ends by the fault: 2 if the input is at fault, else 3.
    pub fn status(&self) -> u8
        ensures { result ≡ status_of self.now }
    {
        match self {
            ServiceFault::BadLine(_) | ServiceFault::NoHeader => 2,
            _ => 3,
        }
    }

    /// Returns what was expected instead, to show it beside the line at fault. Returns `None` if the input isn't at
    /// fault.
    pub fn expected(&self) -> Option<&'static str>
        ensures { IsNone result ↔ (status_of self.now ≡ 3) }
    {
        match self {
            ServiceFault::NoHeader => Some("'disk M W' in the first line; there is none"),
            ServiceFault::BadLine(1) => {
                Some("'disk M W': M 0 to 65535, W 1 to 16, in a line of at most 256 bytes")
            }
            ServiceFault::BadLine(2..=4_097) => {
                Some("'read C': C 0 to the M of the first line (one space between, no leading 0)")
            }
            ServiceFault::BadLine(_) => Some("at most 4096 jobs"),
            _ => None,
        }
    }
}
