//! The service: from the jobs to their report.
ghost use Rattle.std.specs.Prelude.{◌≡◌, ◌+◌, [], vec_len, All, IfOk, IfErr};
ghost use Rattle.disk_jobs.specs.Faults.{IsOfService};
ghost use Rattle.disk_jobs.specs.Reports.{account_of};
ghost use Rattle.disk_jobs.specs.Services.{service};
ghost use Rattle.disk_service.specs.CallerStates.{HaveDone, IsReady};
ghost use Rattle.disk_service.specs.Doors.{AreSized, AreThere};
ghost use Rattle.disk_service.specs.ServedJobs.{IsServed};

use crate::doors::Doors;
use crate::gate::Gate;
use crate::threads::{CallerState, run_threads};
use disk_jobs::done::Done;
use disk_jobs::fault::ServiceFault;
use disk_jobs::gathering::gather;
use disk_jobs::jobs::Jobs;
use disk_jobs::kind::Kind;
use disk_jobs::report::Report;
use std::alloc::{AllocError, Global};
use std::sync::Wait;
use std::thread::Threads;

/// Does the jobs on baton doors, with as many workers as `jobs` says, and reports them. Returns `Memory` if there is no
/// memory for the service, and `Spawn` if a thread can't be started. Returns `Torn` if the results aren't those of the
/// jobs, or the counts don't agree with them. All memory is allocated before the first thread is started.
pub fn serve<R: Threads + Wait + Sync, G: Gate + Sync>(
    rt: &R,
    alloc: Global,
    jobs: &Jobs,
    gate: &G,
) -> Result<Report, ServiceFault>
    ensures report { IfOk result (λ r. account_of r ≡ service jobs.now.cylinders) }
    ensures served { IfOk result (λ r. IsServed jobs.now (account_of r)) }
    ensures fault { IfErr result IsOfService }
{
    serve_on(rt, alloc, Kind::Baton, jobs, gate)
}

/// Does the jobs on ticket doors, with as many workers as `jobs` says, and reports them. Returns the same faults as
/// `serve`.
pub fn serve_tickets<R: Threads + Wait + Sync, G: Gate + Sync>(
    rt: &R,
    alloc: Global,
    jobs: &Jobs,
    gate: &G,
) -> Result<Report, ServiceFault>
    ensures report { IfOk result (λ r. account_of r ≡ service jobs.now.cylinders) }
    ensures served { IfOk result (λ r. IsServed jobs.now (account_of r)) }
    ensures fault { IfErr result IsOfService }
{
    serve_on(rt, alloc, Kind::Ticket, jobs, gate)
}

// Allocates room for the results of each worker: any worker may do all jobs.
fn rooms(alloc: Global, workers: u32, jobs: usize) -> Result<Vec<Vec<Done>>, AllocError>
    ensures length { IfOk result (λ rooms. vec_len rooms ≡ workers) }
    ensures empty { IfOk result (λ rooms. All (λ room. room.items ≡ []) rooms.items) }
{
    let mut rooms = Vec::with_capacity(alloc, workers as usize)?;
    for _ in 0..workers {
        let room = Vec::with_capacity(alloc, jobs)?;
        rooms.push(room)?;
    }
    Ok(rooms)
}

// Allocates room for the results of each worker, and for all results: any worker may do all jobs.
fn room_for(alloc: Global, jobs: &Jobs) -> Result<(Vec<Vec<Done>>, Vec<Done>), AllocError>
    ensures length { IfOk result (λ r. vec_len r.0 ≡ jobs.now.workers) }
    ensures empty { IfOk result (λ r. All (λ room. room.items ≡ []) r.0.items) }
    ensures none { IfOk result (λ r. r.1.items ≡ []) }
{
    let (workers, count) = (jobs.workers(), jobs.len());
    let rooms = rooms(alloc, workers, count)?;
    let results = Vec::with_capacity(alloc, count)?;
    Ok((rooms, results))
}

/// Does the jobs on doors of this kind, and reports them.
pub(crate) fn serve_on<R: Threads + Wait + Sync, G: Gate + Sync>(
    rt: &R,
    alloc: Global,
    kind: Kind,
    jobs: &Jobs,
    gate: &G,
) -> Result<Report, ServiceFault>
    ensures report { IfOk result (λ r. account_of r ≡ service jobs.now.cylinders) }
    ensures served { IfOk result (λ r. IsServed jobs.now (account_of r)) }
    ensures fault { IfErr result IsOfService }
{
    let Ok((rooms, results)) = room_for(alloc, jobs) else {
        return Err(ServiceFault::Memory);
    };
    let threads = jobs.workers() as usize + 2;
    let (doors, places) = Doors::open(alloc, kind, jobs, threads)?;
    let state = CallerState {
        places,
        rooms,
        results,
        did_all: true,
    };
    run_and_report(rt, jobs, gate, doors, state)
}

// Does the jobs on these doors, and reports them.
fn run_and_report<R: Threads + Wait + Sync, G: Gate + Sync>(
    rt: &R,
    jobs: &Jobs,
    gate: &G,
    doors: Doors,
    state: CallerState,
) -> Result<Report, ServiceFault>
    requires size { AreSized doors (jobs.now.workers + 2) }
    requires state { IsReady doors jobs.now.workers state }
    ensures report { IfOk result (λ r. account_of r ≡ service jobs.now.cylinders) }
    ensures served { IfOk result (λ r. IsServed jobs.now (account_of r)) }
    ensures fault { IfErr result IsOfService }
{
    match run_threads(rt, gate, jobs, &doors, state) {
        Ok(state) => close_and_report(jobs, doors, state),
        Err(fault) => {
            doors.let_go();
            Err(fault)
        }
    }
}

// Closes the doors, given all of their places, and reports the jobs that were done.
fn close_and_report(jobs: &Jobs, doors: Doors, state: CallerState) -> Result<Report, ServiceFault>
    requires size { AreSized doors (jobs.now.workers + 2) }
    requires places { AreThere doors (jobs.now.workers + 2) state.places }
    requires done { HaveDone jobs.now.workers state }
    ensures report { IfOk result (λ r. account_of r ≡ service jobs.now.cylinders) }
    ensures served { IfOk result (λ r. IsServed jobs.now (account_of r)) }
    ensures fault { IfErr result IsOfService }
{
    let CallerState {
        places,
        results,
        did_all,
        ..
    } = state;
    let (totals, board) = doors.close(places, jobs.workers() as usize + 2);
    let Some(totals) = totals else {
        return Err(ServiceFault::Torn);
    };
    if !did_all {
        return Err(ServiceFault::Torn);
    }
    gather(jobs, results, totals.jobs, totals.sum, board.done)
}
