//! Calls of job files and of the disk service.

use crate::answer::Answer;
use disk_service::{Jobs, Kind, NoGate, ServiceFault, read_jobs, run, serve, serve_tickets};
use std::alloc::{AllocError, Global};
use std::sync::Wait;
use std::thread::Threads;

const FILE: &[u8] = b"disk 400 2\nread 0\nread 3\nread 300\n";

/// Reads a job file.
pub fn reads_jobs(alloc: Global) -> Answer {
    let mut reader = FILE;
    ended(read_jobs(alloc, &mut reader), true)
}

// Returns the answer to a call that ended so. `clean` says that nothing was written.
fn ended<T: Drop>(ended: Result<T, ServiceFault>, clean: bool) -> Answer {
    match ended {
        Ok(_done) => Answer::Made,
        Err(ServiceFault::Spawn) if clean => Answer::Spawn,
        Err(fault) => Answer::memory_if(fault == ServiceFault::Memory && clean),
    }
}

// Returns the jobs of the file, or `None` if they are refused.
fn jobs(alloc: Global) -> Result<Option<Jobs>, AllocError> {
    let cylinders = Vec::from_array(alloc, [0u16, 3, 300])?;
    Ok(Jobs::make(400, 2, cylinders).ok())
}

/// Does the jobs of the file, on doors of this kind.
pub fn serves<R: Threads + Wait + Sync>(rt: &R, alloc: Global, kind: Kind) -> Answer {
    let Ok(Some(jobs)) = jobs(alloc) else {
        return Answer::Unprepared;
    };
    match kind {
        Kind::Baton => ended(serve(rt, alloc, &jobs, &NoGate), true),
        Kind::Ticket => ended(serve_tickets(rt, alloc, &jobs, &NoGate), true),
    }
}

/// Runs the service from the job file to its report, on doors of this kind.
pub fn runs<R: Threads + Wait + Sync>(rt: &R, alloc: Global, kind: Kind) -> Answer {
    let mut reader = FILE;
    let mut room = [0u8; 128];
    let mut writer = room.as_mut_slice();
    let done = run(rt, alloc, kind, &mut reader, &mut writer);
    ended(done, writer.len() == 128)
}
