//! A drain: pieces of work begin and end, and waiters resume when none is under way. Unlike a latch it may fill again.
ghost use Rattle.std.specs.Prelude.{◌≡◌, ◌<◌, ◌≤◌, ◌-◌, ◌+◌, ◌↔◌, IsTrue};
ghost use Rattle.hoare_law.specs.Priorities.{nobody};
ghost use Rattle.cookbook.specs.Drains.{DrainRests};
ghost use Rattle.cookbook.specs.DrainTraces.{Begins, Ends, Drains};

use hoare_law::data::MonitorData;
use hoare_law::monitor::{Monitor, PLAIN};
use hoare_law::waits::Waits;
use std::marker::Model;
use std::sync::Wait;

/// The condition *all is done* of a `Drain`: processes wait there until no work is under way.
pub const ALL_IS_DONE: usize = 0;

/// Upper bound on the number of pieces of work under way.
pub const MOST_WORK: u32 = 1_000_000;

/// Refusal of `Drain::begin`: `MOST_WORK` pieces of work are under way.
#[derive(Clone, Copy, Debug, PartialEq, Eq, thiserror::Error)]
#[error("too much work is under way")]
pub struct TooMuchWork;

/// The data of the monitor: the number of pieces of work under way. The only condition is 0, *all is done*
/// (`ALL_IS_DONE`).
#[derive(Drop)]
pub struct Drain {
    under_way: u32,
}

impl Model for Drain {
    ghost use Rattle.std.specs.Prelude.{ℕ};

    ghost Value = { ℕ };

    ghost view = { λ s. s.under_way };
}

impl MonitorData for Drain {
    ghost use Rattle.std.specs.Prelude.{⊤};
    ghost use Rattle.cookbook.specs.Drains.{DrainRests, DrainReady};

    const CONDITIONS: usize = 1;

    ghost CONDITIONS = { 1 };

    const MESA: usize = 0;

    ghost MESA = { 0 };

    ghost inv = { λ under_way. ⊤ };

    ghost rest = { λ under_way q. DrainRests under_way (q 0) };

    ghost ready = { λ c p under_way q. DrainReady under_way };

    fn rest_holds<W: Waits>(&self, lists: &W) -> bool {
        lists.count(ALL_IS_DONE) == 0 || self.under_way > 0
    }

    fn ready_holds<W: Waits>(&self, condition: usize, priority: u64, lists: &W) -> bool {
        self.under_way == 0
    }

    ghost rest_inv = { λ under_way q h. tt };

    ghost ready_inv = { λ c p under_way q h. tt };
}

impl Drain {
    /// Creates a drain with no work under way.
    pub fn new() -> Drain
        ensures made { result ≡ 0 }
        ensures rest { DrainRests result (nobody 0) }
    {
        Drain { under_way: 0 }
    }

    // Returns true if no work is under way.
    fn is_dry(&self) -> bool
        ensures { IsTrue result ↔ (self.now ≡ 0) }
    {
        self.under_way == 0
    }

    // Returns true if no more work may begin.
    fn is_full(&self) -> bool
        ensures { IsTrue result ↔ (MOST_WORK ≤ self.now) }
    {
        self.under_way >= MOST_WORK
    }

    fn add_one(&mut self)
        requires { self.old < MOST_WORK }
        ensures { self.new ≡ self.old + 1 }
    {
        self.under_way += 1;
    }

    // Counts one piece of work less, if one is under way.
    fn take_one(&mut self)
        ensures { self.new ≡ self.old - 1 }
    {
        self.under_way = self.under_way.saturating_sub(1);
    }

    /// Begins a piece of work. Returns `Err(TooMuchWork)` if `MOST_WORK` pieces are under way: then nothing has
    /// changed.
    pub fn begin<R: Wait, M: Monitor<Drain>>(
        m: &M,
        rt: &R,
        out: M::Out,
    ) -> (M::Out, Result<(), TooMuchWork>)
        requires { M.is_of m.now out }
        ensures of { M.is_of m.now result.0 }
        ensures place { M.place result.0 ≡ M.place out }
        ensures trace { Begins (M.place out) (M.front out) (M.front result.0) result.1 }
    {
        let mut inside = m.enter(rt, out);
        if m.state(&inside).is_full() {
            return (m.leave(rt, inside), Err(TooMuchWork));
        }
        M::state_mut(&mut inside, m).add_one();
        (m.leave(rt, inside), Ok(()))
    }

    /// Ends a piece of work, if one is under way. If none is under way then, this resumes a waiter if there is one.
    pub fn end<R: Wait, M: Monitor<Drain>>(m: &M, rt: &R, out: M::Out) -> M::Out
        requires { M.is_of m.now out }
        ensures of { M.is_of m.now result }
        ensures place { M.place result ≡ M.place out }
        ensures trace { Ends (M.place out) (M.front out) (M.front result) }
    {
        let mut inside = m.enter(rt, out);
        M::state_mut(&mut inside, m).take_one();
        if !m.state(&inside).is_dry() {
            return m.leave(rt, inside);
        }
        let (out, _resumed) = m.signal_leave(rt, inside, ALL_IS_DONE);
        out
    }

    /// Waits until no work is under way. Each process that continues resumes the next, so all waiters resume before any
    /// entering process begins new work.
    pub fn drain<R: Wait, M: Monitor<Drain>>(m: &M, rt: &R, out: M::Out) -> M::Out
        requires { M.is_of m.now out }
        ensures of { M.is_of m.now result }
        ensures place { M.place result ≡ M.place out }
        ensures trace { Drains (M.place out) (M.front out) (M.front result) }
    {
        let mut inside = m.enter(rt, out);
        if !m.state(&inside).is_dry() {
            inside = m.wait(rt, inside, ALL_IS_DONE, PLAIN);
        }
        let (out, _resumed) = m.signal_leave(rt, inside, ALL_IS_DONE);
        out
    }
}
