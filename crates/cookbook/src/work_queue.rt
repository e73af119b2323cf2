//! A queue of jobs for a fixed number of workers. When it is shut down, one broadcast notifies all waiting workers.
ghost use Rattle.std.specs.Prelude.{◌≡◌, ◌<◌, ◌↔◌, ◌∷◌, IsTrue, length, true, false};
ghost use Rattle.hoare_law.specs.Priorities.{nobody};
ghost use Rattle.cookbook.specs.WorkQueues.{WorkHolds, WorkRests, IsIdle, IsOver, begun, with_job, with_jobs};
ghost use Rattle.cookbook.specs.WorkQueues.{shut, one_gone};
ghost use Rattle.cookbook.specs.WorkTraces.{ComesToWork, Puts, Takes, ShutsDown};

use arrayvec::ArrayVec;
use hoare_law::data::MonitorData;
use hoare_law::monitor::{Monitor, PLAIN};
use hoare_law::waits::Waits;
use std::marker::Model;
use std::sync::Wait;

/// Number of jobs that a `WorkQueue` has room for.
pub const ROOM: usize = 8;

/// The condition *all are gone* of a `WorkQueue`, one of Hoare's. A process that shuts the queue down waits there until
/// the last worker has gone.
pub const ALL_ARE_GONE: usize = 0;

/// The condition *a job, or closed* of a `WorkQueue`, a Mesa condition. Workers wait there, and test again when they
/// resume.
pub const JOB_OR_CLOSED: usize = 1;

/// Refusal of `WorkQueue::put`. It contains the job that was refused.
#[derive(Clone, Copy, Debug, PartialEq, Eq, thiserror::Error)]
pub enum PutRefused {
    /// The queue was shut down.
    #[error("the queue was shut down")]
    Closed(u64),
    /// The queue is open and has no room.
    #[error("the queue is full")]
    Full(u64),
}

/// The data of the monitor: the jobs that no worker has taken, each a number, in the order in which they were put in;
/// if the queue was shut down; and how many workers have not gone. A worker has gone if `take` returned `None` to it.
///
/// Condition 0 is *all are gone* (`ALL_ARE_GONE`), one of Hoare's. Condition 1 is *a job, or closed* (`JOB_OR_CLOSED`),
/// a Mesa condition.
#[derive(Drop)]
pub struct WorkQueue {
    jobs: ArrayVec<u64, ROOM>,
    closed: bool,
    workers: u32,
}

impl Model for WorkQueue {
    ghost use Rattle.cookbook.specs.WorkQueues.{Workload};

    ghost Value = { Workload };

    ghost view = { λ w. record { jobs = w.jobs.items; closed = w.closed; workers = w.workers } };
}

impl MonitorData for WorkQueue {
    ghost use Rattle.cookbook.specs.WorkQueues.{WorkHolds, WorkRests, WorkReady};

    const CONDITIONS: usize = 2;

    ghost CONDITIONS = { 2 };

    const MESA: usize = 1;

    ghost MESA = { 1 };

    ghost inv = { λ s. WorkHolds s };

    ghost rest = { λ s q. WorkRests s (q 0) (q 1) };

    ghost ready = { λ c p s q. WorkReady s (q 1) };

    fn rest_holds<W: Waits>(&self, lists: &W) -> bool {
        self.holds()
            && (lists.count(ALL_ARE_GONE) == 0 || self.closed)
            && (lists.count(ALL_ARE_GONE) == 0 || self.workers > 0)
            && (!self.closed || lists.count(JOB_OR_CLOSED) == 0)
    }

    fn ready_holds<W: Waits>(&self, condition: usize, priority: u64, lists: &W) -> bool {
        self.holds() && self.is_over() && lists.count(JOB_OR_CLOSED) == 0
    }

    ghost rest_inv = { λ s q h. h.inv };

    ghost ready_inv = { λ c p s q h. h.inv };
}

impl WorkQueue {
    /// Creates an open queue without jobs for `workers` workers, at least 1. Each worker is to call `take` until it
    /// returns `None`, and not after that.
    pub fn new(workers: u32) -> WorkQueue
        requires { 0 < workers }
        ensures made { result ≡ begun workers }
        ensures rest { WorkRests result (nobody 0) (nobody 1) }
    {
        WorkQueue {
            jobs: ArrayVec::new(),
            closed: false,
            workers,
        }
    }

    // Returns true if the queue was shut down, no job is left, and every worker has gone.
    fn is_over(&self) -> bool
        ensures { IsTrue result ↔ IsOver self.now }
    {
        self.closed && self.jobs.is_empty() && self.workers == 0
    }

    // Returns true if a worker has not gone, or all work is over.
    #[tactic(auto, using(crate::proofs::WorkQueues::work_steps))]
    fn holds(&self) -> bool
        ensures { IsTrue result ↔ WorkHolds self.now }
    {
        let _count = self.jobs.len(); // no more than there is room for
        self.workers > 0 || self.is_over()
    }

    // Returns true if a worker has to wait: there is no job, and the queue is open.
    fn is_idle(&self) -> bool
        ensures { IsTrue result ↔ IsIdle self.now }
    {
        self.jobs.is_empty() && !self.closed
    }

    // Returns true if there is a job.
    fn has_jobs(&self) -> bool
        ensures { IsTrue result ↔ (0 < length self.now.jobs) }
    {
        self.jobs.len() > 0
    }

    // Returns true if there is no room.
    fn is_full(&self) -> bool
        ensures { IsTrue result ↔ (length self.now.jobs ≡ ROOM) }
    {
        self.jobs.len() == ROOM
    }

    // Returns true if the queue was shut down.
    fn is_closed(&self) -> bool
        ensures { IsTrue result ↔ (self.now.closed ≡ true) }
    {
        self.closed
    }

    // Returns true if a worker has not gone.
    fn has_workers(&self) -> bool
        ensures { IsTrue result ↔ (0 < self.now.workers) }
    {
        self.workers > 0
    }

    // Adds a job as the latest.
    fn push(&mut self, job: u64)
        requires { length self.old.jobs < ROOM }
        ensures { self.new ≡ with_job job self.old }
    {
        self.jobs.push(job);
    }

    // Removes the oldest job and returns it.
    fn pop(&mut self) -> u64
        requires { 0 < length self.old.jobs }
        ensures oldest { self.old.jobs ≡ result ∷ self.new.jobs }
        ensures others { self.new ≡ with_jobs self.new.jobs self.old }
    {
        self.jobs.remove(0)
    }

    // Shuts the queue: no job can be put in after that.
    fn close(&mut self)
        ensures { self.new ≡ shut self.old }
    {
        self.closed = true;
    }

    // Counts one more worker as gone.
    fn go(&mut self)
        ensures { self.new ≡ one_gone self.old }
    {
        self.workers = self.workers.saturating_sub(1);
    }

    // Enters, and waits as often as it finds no job and the queue open.
    fn come_to_work<R: Wait, M: Monitor<WorkQueue>>(m: &M, rt: &R, out: M::Out) -> M::In
        requires { M.is_of m.now out }
        ensures of { M.is_of_in m.now result }
        ensures place { M.place_in result ≡ M.place out }
        ensures rest { WorkRests (M.data_in result) (M.lists_in result 0) (M.lists_in result 1) }
        ensures not_idle { IsIdle (M.data_in result) → ⊥ }
        ensures comes { ComesToWork (M.place out) (M.front out) (M.front_in result)
            (M.data_in result) }
    {
        let mut inside = m.enter(rt, out);
        'rounds: for _ in rt.forever() {
            if !m.state(&inside).is_idle() {
                return inside;
            }
            inside = m.wait(rt, inside, JOB_OR_CLOSED, PLAIN);
        }
        unreachable!()
    }

    /// Puts in `job` as the latest, and notifies a waiting worker if there is one.
    ///
    /// Returns `Err(Closed(job))` if the queue was shut down, else `Err(Full(job))` if it has no room. Then nothing has
    /// changed.
    pub fn put<R: Wait, M: Monitor<WorkQueue>>(
        m: &M,
        rt: &R,
        out: M::Out,
        job: u64,
    ) -> (M::Out, Result<(), PutRefused>)
        requires { M.is_of m.now out }
        ensures of { M.is_of m.now result.0 }
        ensures place { M.place result.0 ≡ M.place out }
        ensures trace { Puts (M.place out) job (M.front out) (M.front result.0) result.1 }
    {
        let mut inside = m.enter(rt, out);
        if m.state(&inside).is_closed() {
            return (m.leave(rt, inside), Err(PutRefused::Closed(job)));
        }
        if m.state(&inside).is_full() {
            return (m.leave(rt, inside), Err(PutRefused::Full(job)));
        }
        M::state_mut(&mut inside, m).push(job);
        m.notify(&mut inside, JOB_OR_CLOSED);
        (m.leave(rt, inside), Ok(()))
    }

    /// Takes the oldest job. Waits while there is no job and the queue is open.
    ///
    /// Returns `None` if the queue was shut down and no job is left: the calling worker has then gone. The last worker
    /// to go resumes a process that waits in `shut_down`. A worker that calls again after `None` counts as one more
    /// that has gone, so that `shut_down` may return too early.
    pub fn take<R: Wait, M: Monitor<WorkQueue>>(m: &M, rt: &R, out: M::Out) -> (M::Out, Option<u64>)
        requires { M.is_of m.now out }
        ensures of { M.is_of m.now result.0 }
        ensures place { M.place result.0 ≡ M.place out }
        ensures trace { Takes (M.place out) (M.front out) (M.front result.0) result.1 }
    {
        let mut inside = WorkQueue::come_to_work(m, rt, out);
        if m.state(&inside).has_jobs() {
            let job = M::state_mut(&mut inside, m).pop();
            return (m.leave(rt, inside), Some(job));
        }
        M::state_mut(&mut inside, m).go();
        if m.state(&inside).has_workers() {
            return (m.leave(rt, inside), None);
        }
        let (out, _resumed) = m.signal_leave(rt, inside, ALL_ARE_GONE);
        (out, None)
    }

    /// Shuts the queue, notifies all waiting workers, and waits until every worker has gone. The jobs that were put in
    /// earlier are taken by then. Several processes may call it, and it may be called again: each call resumes the
    /// next process that waits in it.
    pub fn shut_down<R: Wait, M: Monitor<WorkQueue>>(m: &M, rt: &R, out: M::Out) -> M::Out
        requires { M.is_of m.now out }
        ensures of { M.is_of m.now result }
        ensures place { M.place result ≡ M.place out }
        ensures trace { ShutsDown (M.place out) (M.front out) (M.front result) }
    {
        let mut inside = m.enter(rt, out);
        M::state_mut(&mut inside, m).close();
        m.broadcast(&mut inside, JOB_OR_CLOSED);
        if m.state(&inside).has_workers() {
            inside = m.wait(rt, inside, ALL_ARE_GONE, PLAIN);
        }
        let (out, _resumed) = m.signal_leave(rt, inside, ALL_ARE_GONE);
        out
    }
}
