//! A pool of worker permits that two classes of callers share. Express callers go before standard ones, and within a
//! class the longest waiting goes first.
ghost use Rattle.std.specs.Prelude.{◌≡◌, ◌<◌, ◌≤◌, ◌+◌, ◌-◌, ◌↔◌, IsTrue};
ghost use Rattle.first_monitor.specs.Traces.{priority_of, Takes, Gives, Looks};

use hoare_law::data::MonitorData;
use hoare_law::monitor::Monitor;
use hoare_law::waits::Waits;
use std::sync::Wait;

/// The condition *a permit is free*: callers of `take` wait there.
pub const PERMIT_IS_FREE: usize = 0;

/// How urgent a caller is. The class is the priority of its wait: the least goes first.
#[derive(Clone, Copy, Debug, PartialEq, Eq)]
pub enum Class {
    /// The caller goes before all standard callers that wait. Priority 0.
    Express,
    /// The caller goes after all express callers that wait. Priority 1.
    Standard,
}

impl Class {
    // Returns the priority of a wait of this class.
    fn priority(self) -> u64
        ensures { result ≡ priority_of self }
    {
        match self {
            Class::Express => 0,
            Class::Standard => 1,
        }
    }
}

/// Refusal of `Permits::give`: no permit is taken, so none can be given back.
#[derive(Clone, Copy, Debug, PartialEq, Eq, thiserror::Error)]
#[error("no permit is taken")]
pub struct NoneTaken;

/// The data of the monitor: how many permits there are, and how many of them are free.
#[derive(Drop)]
pub struct Permits {
    total: u32,
    free: u32,
}

// What holds of the data. `q` has the priorities of the waiters on each condition: `q 0` those on `PERMIT_IS_FREE`, the
// only condition.
impl MonitorData for Permits {
    ghost use Rattle.std.specs.Prelude.{◌≤◌};
    ghost use Rattle.first_monitor.specs.Rests.{PermitsRest, PermitsReady};

    const CONDITIONS: usize = 1;

    ghost CONDITIONS = { 1 };

    const MESA: usize = 0;

    ghost MESA = { 0 };

    // At each wait and leave, and when a waiter is resumed: no more permits are free than there are.
    ghost inv = { λ s. s.free ≤ s.total };

    // At each wait and leave: if a process waits it has a cause, namely that no permit is free.
    ghost rest = { λ s q. PermitsRest s.total s.free (q 0) };

    // What a waiter finds when it is resumed: a permit is free. If others still wait it is the only one: this process
    // takes it, and then the others have their cause again.
    ghost ready = { λ c p s q. PermitsReady s.total s.free (q 0) };

    fn rest_holds<W: Waits>(&self, lists: &W) -> bool {
        self.free <= self.total && (lists.count(PERMIT_IS_FREE) == 0 || self.free == 0)
    }

    fn ready_holds<W: Waits>(&self, condition: usize, priority: u64, lists: &W) -> bool {
        self.free <= self.total
            && self.free > 0
            && (lists.count(PERMIT_IS_FREE) == 0 || self.free == 1)
    }

    ghost rest_inv = { λ s q h. h.within };

    ghost ready_inv = { λ c p s q h. h.within };
}

impl Permits {
    /// Creates a pool of `total` permits, all free.
    pub fn new(total: u32) -> Permits
        ensures { (result.total ≡ total) × (result.free ≡ total) }
    {
        Permits { total, free: total }
    }

    // The small changes of the data, so that a procedure reads like Hoare's.
    fn is_none_free(&self) -> bool
        ensures { IsTrue result ↔ (self.now.free ≡ 0) }
    {
        self.free == 0
    }

    fn is_all_free(&self) -> bool
        ensures { IsTrue result ↔ (self.now.free ≡ self.now.total) }
    {
        self.free == self.total
    }

    fn take_one(&mut self)
        requires { 0 < self.old.free }
        ensures { self.new ≡ record self.old { free = self.old.free - 1 } }
    {
        self.free -= 1;
    }

    fn put_one(&mut self)
        requires { self.old.free < self.old.total }
        ensures { self.new ≡ record self.old { free = self.old.free + 1 } }
    {
        let _total = self.total; // a number of 32 bits, so that one more free permit fits
        self.free += 1;
    }

    /// Takes a permit. Waits if none is free, with the priority of `class`.
    pub fn take<R: Wait, M: Monitor<Permits>>(m: &M, rt: &R, out: M::Out, class: Class) -> M::Out
        requires { M.is_of m.now out }
        ensures of { M.is_of m.now result }
        ensures place { M.place result ≡ M.place out }
        ensures trace { Takes (M.place out) class (M.front out) (M.front result) }
    {
        let mut inside = m.enter(rt, out);
        if m.state(&inside).is_none_free() {
            // Owed here: rest, with this process among the waiters. It has its cause: no permit is free.
            inside = m.wait(rt, inside, PERMIT_IS_FREE, class.priority());
            // Found here: ready, so a permit is free, without a second test.
        }
        M::state_mut(&mut inside, m).take_one();
        m.leave(rt, inside)
    }

    /// Gives a permit back, and resumes a waiter if there is one. Returns `Err(NoneTaken)` if no permit is taken: then
    /// nothing has changed.
    pub fn give<R: Wait, M: Monitor<Permits>>(
        m: &M,
        rt: &R,
        out: M::Out,
    ) -> (M::Out, Result<(), NoneTaken>)
        requires { M.is_of m.now out }
        ensures of { M.is_of m.now result.0 }
        ensures place { M.place result.0 ≡ M.place out }
        ensures trace { Gives (M.place out) (M.front out) (M.front result.0) result.1 }
    {
        let mut inside = m.enter(rt, out);
        if m.state(&inside).is_all_free() {
            return (m.leave(rt, inside), Err(NoneTaken));
        }
        M::state_mut(&mut inside, m).put_one();
        // Owed here: ready if a process waits (then no permit was free before, so exactly one is free at this point),
        // else rest.
        let (out, _resumed) = m.signal_leave(rt, inside, PERMIT_IS_FREE);
        (out, Ok(()))
    }

    /// Returns how many permits are free while the caller is inside.
    pub fn free<R: Wait, M: Monitor<Permits>>(m: &M, rt: &R, out: M::Out) -> (M::Out, u32)
        requires { M.is_of m.now out }
        ensures of { M.is_of m.now result.0 }
        ensures place { M.place result.0 ≡ M.place out }
        ensures trace { Looks (M.place out) (M.front out) (M.front result.0) result.1 }
    {
        let inside = m.enter(rt, out);
        let free = m.state(&inside).free;
        (m.leave(rt, inside), free)
    }
}
