//! Which lists of jobs are refused, and what is gathered of results.
use crate::tests::compared::expect_same;
use disk_service::{BadJobs, Done, Jobs, Report, ServiceFault, gather};
use std::alloc::Global;
use std::process::Abort;

// Returns the cylinders that come back and the refusal, or `None` if these jobs are made or there is no memory.
fn refused(alloc: Global, workers: u32, cylinders: &[u16]) -> Option<(Vec<u16>, BadJobs)> {
    let given = Vec::from_slice(alloc, cylinders).ok()?;
    Jobs::make(100, workers, given).err()
}

// Fails the test unless these jobs are refused so, and their cylinders come back.
fn check_refused<R: Abort + AllocGlobal>(rt: &R, workers: u32, cylinders: &[u16], wanted: BadJobs) {
    let refused = refused(rt.alloc(), workers, cylinders);
    let found = match &refused {
        Some((back, bad)) => Some((back.as_slice(), *bad)),
        None => None,
    };
    expect_same(rt, found, Some((cylinders, wanted)));
}

#[test]
fn lists_are_refused(rt: HostRuntime) {
    check_refused(&rt, 0, &[101], BadJobs::BadWorkers);
    check_refused(&rt, 1, &[0; 4097], BadJobs::TooMany);
    check_refused(&rt, 1, &[5, 101], BadJobs::OffDisk(1));
}

// Gathers results with two jobs, on the cylinders 5 and 6. Returns `Memory` also if there is none for the arguments.
fn gathered(alloc: Global, results: &[Done], sum: u64, done: u32) -> Result<Report, ServiceFault> {
    let (Ok(cylinders), Ok(results)) = (
        Vec::from_slice(alloc, &[5, 6]),
        Vec::from_slice(alloc, results),
    ) else {
        return Err(ServiceFault::Memory);
    };
    match Jobs::make(100, 1, cylinders) {
        Ok(jobs) => gather(&jobs, results, 2, sum, done),
        Err(_) => Err(ServiceFault::Memory),
    }
}

#[test]
fn results_are_gathered(rt: HostRuntime) {
    let (first, second) = (Done::of(0, 5), Done::of(1, 6));
    let report = gathered(rt.alloc(), &[second, first], 95, 2);
    let found = match &report {
        Ok(report) => Ok((report.lines.as_slice(), report.jobs, report.sum)),
        Err(fault) => Err(*fault),
    };
    let lines = [first, second];
    expect_same(&rt, found, Ok((lines.as_slice(), 2, 95)));
    expect_same(&rt, (first.block(), second.block()), (42, 53));
}

// Fails the test unless the result for these arguments is `Torn`.
fn check_torn<R: Abort + AllocGlobal>(rt: &R, results: &[Done], sum: u64, done: u32) {
    let report = gathered(rt.alloc(), results, sum, done);
    expect_same(rt, report.err(), Some(ServiceFault::Torn));
}

#[test]
fn results_are_torn(rt: HostRuntime) {
    let (first, second) = (Done::of(1, 6), Done::of(0, 5));
    check_torn(&rt, &[first, first], 95, 2);
    check_torn(&rt, &[first], 95, 2);
    check_torn(&rt, &[Done::of(1, 7), second], 95, 2);
    check_torn(&rt, &[first, second], 94, 2);
    check_torn(&rt, &[first, second], 95, 1);
}
