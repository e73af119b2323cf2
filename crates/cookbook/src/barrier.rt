//! A cyclic barrier: its parties meet, all continue, and meet again.
ghost use Rattle.std.specs.Prelude.{◌≡◌, ◌<◌, ◌+◌, ◌↔◌, ℕ, All, IsTrue};
ghost use Rattle.hoare_law.specs.Priorities.{nobody};
ghost use Rattle.cookbook.specs.Barriers.{BarrierRests, fresh, one_more, one_less, opened};
ghost use Rattle.cookbook.specs.BarrierTraces.{Arrives};

use hoare_law::data::MonitorData;
use hoare_law::monitor::Monitor;
use hoare_law::waits::Waits;
use std::marker::Model;
use std::sync::Wait;

/// The condition *all have come* of a `Barrier`: parties that have arrived wait there for the last.
pub const ALL_HAVE_COME: usize = 0;

/// The data of a barrier for a fixed number of parties: `parties`; `arrived`, how many of them have arrived and not
/// continued; and `generation`, how often the parties have met, modulo 2^64.
///
/// The only condition is 0, *all have come* (`ALL_HAVE_COME`). A party waits there with the generation as its priority.
#[derive(Drop)]
pub struct Barrier {
    parties: u32,
    arrived: u32,
    generation: u64,
}

impl Model for Barrier {
    ghost use Rattle.cookbook.specs.Barriers.{Gathering};

    ghost Value = { Gathering };

    ghost view = { λ b. record { parties = b.parties; arrived = b.arrived; generation = b.generation } };
}

/// How an arrival ended. The number is the generation that it was of: how often the parties had met before, modulo
/// 2^64.
#[derive(Clone, Copy, Debug, PartialEq, Eq)]
pub enum Arrival {
    /// The caller arrived last: the waiting parties resume.
    Last(u64),
    /// The caller waited for the others.
    Waited(u64),
}

// Returns true if all waiters on condition 0 have this priority.
fn all_wait_with<W: Waits>(lists: &W, priority: u64) -> bool
    ensures { IsTrue result ↔ All (λ p. p ≡ priority) (W.waiting_priorities lists.now 0) }
{
    for i in 0..lists.count(ALL_HAVE_COME) {
        if lists.priority(ALL_HAVE_COME, i) != priority {
            return false;
        }
    }
    true
}

impl MonitorData for Barrier {
    ghost use Rattle.std.specs.Prelude.{◌<◌};
    ghost use Rattle.cookbook.specs.Barriers.{BarrierRests, BarrierReady};

    const CONDITIONS: usize = 1;

    ghost CONDITIONS = { 1 };

    const MESA: usize = 0;

    ghost MESA = { 0 };

    ghost inv = { λ b. b.arrived < b.parties };

    ghost rest = { λ b q. BarrierRests b (q 0) };

    ghost ready = { λ c p b q. BarrierReady p b (q 0) };

    fn rest_holds<W: Waits>(&self, lists: &W) -> bool {
        self.arrived < self.parties
            && lists.count(ALL_HAVE_COME) == self.arrived as usize
            && all_wait_with(lists, self.generation)
    }

    fn ready_holds<W: Waits>(&self, condition: usize, priority: u64, lists: &W) -> bool {
        self.arrived < self.parties
            && self.arrived > 0
            && lists.count(ALL_HAVE_COME) == self.arrived as usize - 1
            && self.generation == priority.wrapping_add(1)
            && all_wait_with(lists, priority)
    }

    ghost rest_inv = { λ b q h. h.within };

    ghost ready_inv = { λ c p b q h. h.within };
}

impl Barrier {
    /// Creates a barrier for `parties` parties, at least 1. None has arrived, and they have met 0 times.
    pub fn new(parties: u32) -> Barrier
        requires { 0 < parties }
        ensures made { result ≡ fresh parties }
        ensures rest { BarrierRests result (nobody 0) }
    {
        Barrier {
            parties,
            arrived: 0,
            generation: 0,
        }
    }

    // Returns how often the parties have met, modulo 2^64.
    fn generation(&self) -> u64
        ensures { result ≡ self.now.generation }
    {
        self.generation
    }

    // Returns true if all parties but one have arrived.
    fn lacks_one(&self) -> bool
        requires { self.now.arrived < self.now.parties }
        ensures { IsTrue result ↔ (self.now.arrived + 1 ≡ self.now.parties) }
    {
        self.parties - self.arrived == 1
    }

    // Counts the arrival of a party that is not the last.
    fn come(&mut self)
        requires { self.old.arrived < self.old.parties }
        ensures { self.new ≡ one_more self.old }
    {
        let _parties = self.parties; // a number of 32 bits, so that one more fits
        self.arrived += 1;
    }

    // Begins the next generation, when the last party has arrived. The waiting parties then resume one after another.
    fn open(&mut self)
        ensures { self.new ≡ opened self.old }
    {
        self.generation = self.generation.wrapping_add(1);
    }

    // Counts a party that waited as resumed.
    fn go(&mut self)
        requires { 0 < self.old.arrived }
        ensures { self.new ≡ one_less self.old }
    {
        self.arrived -= 1;
    }

    /// Waits until all parties have arrived. Returns the generation of this arrival, as `Last` if the caller arrived
    /// last, else as `Waited`.
    ///
    /// The last party resumes a waiting party, and each of these the next: no process enters in between.
    pub fn arrive<R: Wait, M: Monitor<Barrier>>(m: &M, rt: &R, out: M::Out) -> (M::Out, Arrival)
        requires { M.is_of m.now out }
        ensures of { M.is_of m.now result.0 }
        ensures place { M.place result.0 ≡ M.place out }
        ensures trace { Arrives (M.place out) (M.front out) (M.front result.0) result.1 }
    {
        let mut inside = m.enter(rt, out);
        let generation = m.state(&inside).generation();
        if m.state(&inside).lacks_one() {
            M::state_mut(&mut inside, m).open();
            let (out, _resumed) = m.signal_leave(rt, inside, ALL_HAVE_COME);
            return (out, Arrival::Last(generation));
        }
        M::state_mut(&mut inside, m).come();
        inside = m.wait(rt, inside, ALL_HAVE_COME, generation);
        M::state_mut(&mut inside, m).go();
        let (out, _resumed) = m.signal_leave(rt, inside, ALL_HAVE_COME);
        (out, Arrival::Waited(generation))
    }
}
