//! A simulated disk service: jobs that read blocks, workers that do them, and a report.
#![tactic(auto)]

mod board;
mod door;
pub mod gate;
pub mod running;
pub mod serving;
mod threads;

// The parts of the service. They are public for its tests, which are in `program_trials`.
pub mod caller;
pub mod clock;
pub mod data;
pub mod doors;
pub mod places;
pub mod thread_places;
pub mod worker;

pub use disk_jobs::{
    BadJobs, Done, Jobs, Kind, Report, ServiceFault, gather, kind_of, read_jobs, read_jobs_watched,
    write_report, write_report_watched,
};
pub use gate::{Gate, NoGate};
pub use running::{run, run_watched};
pub use serving::{serve, serve_tickets};
