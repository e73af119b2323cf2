//! The jobs of a disk service: job files, results, and the report that is made of the results. Nothing in this crate
//! starts a thread.
#![tactic(auto)]

pub mod done;
pub mod fault;
pub mod gathering;
pub mod jobs;
pub mod kind;
pub mod reading;
pub mod report;

pub use done::Done;
pub use fault::ServiceFault;
pub use gathering::gather;
pub use jobs::{BadJobs, Jobs};
pub use kind::{Kind, kind_of};
pub use reading::{read_jobs, read_jobs_watched};
pub use report::{Report, write_report, write_report_watched};
