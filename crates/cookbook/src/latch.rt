//! A latch that opens once. It is counted down, and its waiters resume when nothing is left to count. An open latch is
//! never shut again.
ghost use Rattle.std.specs.Prelude.{◌≡◌, ◌-◌, ◌↔◌, IsTrue};
ghost use Rattle.hoare_law.specs.Priorities.{nobody};
ghost use Rattle.cookbook.specs.Latches.{LatchRests};
ghost use Rattle.cookbook.specs.LatchTraces.{CountsDown, Passes};

use hoare_law::data::MonitorData;
use hoare_law::monitor::{Monitor, PLAIN};
use hoare_law::waits::Waits;
use std::marker::Model;
use std::sync::Wait;

/// The condition *the latch is open* of a `Latch`: processes wait there for the last count.
pub const LATCH_IS_OPEN: usize = 0;

/// The data of the monitor: how many counts are left until the latch opens. It is open at 0.
///
/// The only condition is 0, *the latch is open* (`LATCH_IS_OPEN`).
#[derive(Drop)]
pub struct Latch {
    left: u32,
}

impl Model for Latch {
    ghost use Rattle.std.specs.Prelude.{ℕ};

    ghost Value = { ℕ };

    ghost view = { λ s. s.left };
}

impl MonitorData for Latch {
    ghost use Rattle.std.specs.Prelude.{⊤};
    ghost use Rattle.cookbook.specs.Latches.{LatchRests, LatchReady};

    const CONDITIONS: usize = 1;

    ghost CONDITIONS = { 1 };

    const MESA: usize = 0;

    ghost MESA = { 0 };

    ghost inv = { λ left. ⊤ };

    ghost rest = { λ left q. LatchRests left (q 0) };

    ghost ready = { λ c p left q. LatchReady left };

    fn rest_holds<W: Waits>(&self, lists: &W) -> bool {
        lists.count(LATCH_IS_OPEN) == 0 || self.left > 0
    }

    fn ready_holds<W: Waits>(&self, condition: usize, priority: u64, lists: &W) -> bool {
        self.left == 0
    }

    ghost rest_inv = { λ left q h. tt };

    ghost ready_inv = { λ c p left q h. tt };
}

impl Latch {
    /// Creates a latch that opens when it has been counted down `left` times. If `left` is 0, it is open.
    pub fn new(left: u32) -> Latch
        ensures made { result ≡ left }
        ensures rest { LatchRests result (nobody 0) }
    {
        Latch { left }
    }

    // Returns true if nothing is left to count.
    fn is_open(&self) -> bool
        ensures { IsTrue result ↔ (self.now ≡ 0) }
    {
        self.left == 0
    }

    // Counts down, if something is left to count.
    fn lower(&mut self)
        ensures { self.new ≡ self.old - 1 }
    {
        self.left = self.left.saturating_sub(1);
    }

    /// Counts the latch down. If it is open then, this resumes a waiter if there is one. An open latch stays open.
    pub fn count_down<R: Wait, M: Monitor<Latch>>(m: &M, rt: &R, out: M::Out) -> M::Out
        requires { M.is_of m.now out }
        ensures of { M.is_of m.now result }
        ensures place { M.place result ≡ M.place out }
        ensures trace { CountsDown (M.place out) (M.front out) (M.front result) }
    {
        let mut inside = m.enter(rt, out);
        M::state_mut(&mut inside, m).lower();
        if !m.state(&inside).is_open() {
            return m.leave(rt, inside);
        }
        let (out, _resumed) = m.signal_leave(rt, inside, LATCH_IS_OPEN);
        out
    }

    /// Waits until the latch is open. Each process that passes resumes the next waiter.
    pub fn pass<R: Wait, M: Monitor<Latch>>(m: &M, rt: &R, out: M::Out) -> M::Out
        requires { M.is_of m.now out }
        ensures of { M.is_of m.now result }
        ensures place { M.place result ≡ M.place out }
        ensures trace { Passes (M.place out) (M.front out) (M.front result) }
    {
        let mut inside = m.enter(rt, out);
        if !m.state(&inside).is_open() {
            inside = m.wait(rt, inside, LATCH_IS_OPEN, PLAIN);
        }
        let (out, _resumed) = m.signal_leave(rt, inside, LATCH_IS_OPEN);
        out
    }
}
