//! Workers that wait for each other in the gate, on both kinds of doors. A service that does its jobs one after another
//! fails these tests, and so does one with fewer workers at work than its jobs say, or one that never ends.
use crate::tests::compared::expect_same;
use disk_service::{Gate, Jobs, Kind, Report, serve, serve_tickets};
use std::alloc::{AllocError, Global};
use std::process::Abort;
use std::sync::Wait;
use std::sync::atomic::{AtomicU32, AtomicUsize, Ordering};
use std::test::Fail;
use std::thread;
use std::thread::Threads;

// The most polls of a job for what it waits for, with a yield after each.
const TURNS: u32 = 10_000_000;

// What jobs wait for in the gate.
#[derive(Clone, Copy)]
enum Awaits {
    // Each job begins once its whole group has begun. The numbers of a group differ in these bits alone.
    Group(usize),
    // The first job begins once this number of jobs have ended.
    BeginsAfter(usize),
    // The first job ends once this number of other jobs have ended.
    EndsAfter(usize),
}

// Jobs on cylinder 3, whose block is 26, and the number of workers. `at_once` is how many jobs have to be at work at
// once, at least.
#[derive(Clone, Copy)]
struct Row {
    workers: u32,
    jobs: usize,
    awaits: Awaits,
    at_once: usize,
}

// What the gate sees of the jobs.
#[derive(Drop)]
struct Watch {
    row: Row,
    // How many calls of the gate each job has had.
    calls: Vec<AtomicU32>,
    begun: AtomicUsize,
    ended: AtomicUsize,
    // The greatest number of jobs so far that had begun and not ended.
    most_at_once: AtomicUsize,
    // The sum of what went wrong: `OUT_OF_TURN`, `TOO_LONG`.
    faults: AtomicU32,
}

// A job began or ended twice, or ended before it began.
const OUT_OF_TURN: u32 = 1;

// A job stopped polling too early.
const TOO_LONG: u32 = 2;

impl Watch {
    fn of(alloc: Global, row: Row) -> Result<Watch, AllocError> {
        let mut calls = Vec::new(alloc);
        for _ in 0..row.jobs {
            calls.push(AtomicU32::new(0))?;
        }
        Ok(Watch {
            row,
            calls,
            begun: AtomicUsize::new(0),
            ended: AtomicUsize::new(0),
            most_at_once: AtomicUsize::new(0),
            faults: AtomicU32::new(0),
        })
    }

    fn fail(&self, fault: u32) {
        self.faults.fetch_or(fault, Ordering::SeqCst);
    }

    // Counts a call for this job, which has to have had `before` calls.
    fn count(&self, job: usize, before: u32) {
        match self.calls.get(job) {
            Some(calls) if calls.fetch_add(1, Ordering::SeqCst) == before => {}
            _ => self.fail(OUT_OF_TURN),
        }
    }

    // Polls until this number is at least `wanted`, or something went wrong.
    fn wait_for(&self, number: &AtomicUsize, wanted: usize) {
        for _ in 0..TURNS {
            if number.load(Ordering::SeqCst) >= wanted || self.faults.load(Ordering::SeqCst) > 0 {
                return;
            }
            thread::yield_now();
        }
        self.fail(TOO_LONG);
    }

    // Returns how many jobs have begun, how many have ended, and what went wrong.
    fn seen(&self) -> (usize, usize, u32) {
        (
            self.begun.load(Ordering::SeqCst),
            self.ended.load(Ordering::SeqCst),
            self.faults.load(Ordering::SeqCst),
        )
    }
}

impl Gate for Watch {
    fn begin(&self, job: usize) {
        self.count(job, 0);
        let begun = self.begun.fetch_add(1, Ordering::SeqCst).wrapping_add(1);
        let at_once = begun.wrapping_sub(self.ended.load(Ordering::SeqCst));
        self.most_at_once.fetch_max(at_once, Ordering::SeqCst);
        match self.row.awaits {
            Awaits::Group(bits) => self.wait_for(&self.begun, (job | bits).wrapping_add(1)),
            Awaits::BeginsAfter(ends) if job == 0 => self.wait_for(&self.ended, ends),
            _ => {}
        }
    }

    fn end(&self, job: usize) {
        self.count(job, 1);
        match self.row.awaits {
            Awaits::EndsAfter(ends) if job == 0 => self.wait_for(&self.ended, ends),
            _ => {}
        }
        self.ended.fetch_add(1, Ordering::SeqCst);
    }
}

// Returns the jobs of a row.
fn jobs_of(alloc: Global, row: Row) -> Result<Jobs, Fail> {
    match Jobs::make(100, row.workers, vec![in alloc; 3u16; row.jobs]?) {
        Ok(jobs) => Ok(jobs),
        Err(_) => Err(Fail::from("no jobs")),
    }
}

// Fails the test unless the report has the jobs of the row, in order.
fn expect_report<R: Abort>(rt: &R, row: Row, report: &Report) {
    let counts = (report.lines.len(), report.jobs, report.sum);
    let jobs = row.jobs as u64;
    expect_same(rt, counts, (row.jobs, jobs, jobs.wrapping_mul(26)));
    for (job, done) in report.lines.iter().enumerate() {
        let found = (done.job() as usize, done.cylinder(), done.block());
        expect_same(rt, found, (job, 3, 26));
    }
}

// Does the jobs of a row on doors of this kind. Fails the test unless they are reported, each has begun once and has
// ended once after that, each has seen what it waits for, and no more were at work than there are workers.
fn serve_row<R: Threads + Wait + Abort + AllocGlobal + Sync>(
    rt: &R,
    kind: Kind,
    row: Row,
) -> Result<(), Fail> {
    let jobs = jobs_of(rt.alloc(), row)?;
    let watch = Watch::of(rt.alloc(), row)?;
    let answer = match kind {
        Kind::Baton => serve(rt, rt.alloc(), &jobs, &watch),
        Kind::Ticket => serve_tickets(rt, rt.alloc(), &jobs, &watch),
    };
    expect_same(rt, (kind, watch.seen()), (kind, (row.jobs, row.jobs, 0)));
    let most = watch.most_at_once.load(Ordering::SeqCst);
    let wanted = most.max(row.at_once).min(row.workers as usize);
    expect_same(rt, (kind, most), (kind, wanted));
    match answer {
        Ok(report) => expect_report(rt, row, &report),
        Err(fault) => expect_same(rt, (kind, Some(fault)), (kind, None)),
    }
    Ok(())
}

// Does this number of jobs with this number of workers, on doors of either kind.
fn serve_both<R: Threads + Wait + Abort + AllocGlobal + Sync>(
    rt: &R,
    workers: u32,
    jobs: usize,
    awaits: Awaits,
    at_once: usize,
) -> Result<(), Fail> {
    let row = Row {
        workers,
        jobs,
        awaits,
        at_once,
    };
    serve_row(rt, Kind::Baton, row)?;
    serve_row(rt, Kind::Ticket, row)
}

// Each of two workers begins its job only once the other has.
#[test]
fn two_workers_meet(rt: HostRuntime) -> Result<(), Fail> {
    serve_both(&rt, 2, 2, Awaits::Group(1), 2)
}

// The first job is held up until the other workers have done all others.
#[test]
fn first_job_last(rt: HostRuntime) -> Result<(), Fail> {
    serve_both(&rt, 4, 16, Awaits::BeginsAfter(15), 2)
}

// The worker of the first job is held up in `end`. It has neither the one buffer nor the drive there.
#[test]
fn first_job_ends_last(rt: HostRuntime) -> Result<(), Fail> {
    serve_both(&rt, 2, 16, Awaits::EndsAfter(15), 2)
}

// The greatest number of workers is at work at once, 16 times.
#[test]
fn sixteen_at_once(rt: HostRuntime) -> Result<(), Fail> {
    serve_both(&rt, 16, 256, Awaits::Group(15), 16)
}

// The greatest number of jobs, and a gate that never waits. One job has the drive at a time, so most workers wait for
// it between `begin` and `end`. If `end` came before the job, hardly two would be there at once.
#[test]
fn many_jobs(rt: HostRuntime) -> Result<(), Fail> {
    serve_both(&rt, 16, 4096, Awaits::BeginsAfter(0), 8)
}
