//! A barrier from which a party can withdraw, with a `rest` that is too weak: the party that withdraws forgets that the
//! others may then be complete.
ghost use Rattle.std.specs.Prelude.{◌≡◌, ◌<◌, ◌≤◌};

use hoare_law::data::MonitorData;
use hoare_law::monitor::{Monitor, PLAIN};
use hoare_law::waits::Waits;
use order_explorer::{Explored, Place, Program};
use std::alloc::Global;
use std::sync::Wait;

const ALL_HAVE_COME: usize = 0;

/// A barrier for a number of parties, of which some have arrived.
#[derive(Drop)]
pub struct WeakBarrier {
    parties: u32,
    arrived: u32,
}

// Nothing is required, so `rest` doesn't say why a process waits.
impl MonitorData for WeakBarrier {
    ghost use Rattle.std.specs.Prelude.{⊤};

    const CONDITIONS: usize = 1;

    ghost CONDITIONS = { 1 };

    const MESA: usize = 0;

    ghost MESA = { 0 };

    ghost inv = { λ b. ⊤ };

    ghost rest = { λ b q. ⊤ };

    ghost ready = { λ c p b q. ⊤ };

    fn rest_holds<W: Waits>(&self, _lists: &W) -> bool {
        true
    }

    fn ready_holds<W: Waits>(&self, _condition: usize, _priority: u64, _lists: &W) -> bool {
        true
    }

    ghost rest_inv = { λ b q h. tt };

    ghost ready_inv = { λ c p b q h. tt };
}

impl WeakBarrier {
    /// Arrives, and waits until all parties have arrived. The last party resumes a waiter as it leaves, and each waiter
    /// then resumes the next.
    pub fn arrive<R: Wait, M: Monitor<WeakBarrier>>(m: &M, rt: &R, out: M::Out) -> M::Out
        requires { M.is_of m.now out }
        ensures { M.is_of m.now result }
    {
        let mut inside = m.enter(rt, out);
        let data = M::state_mut(&mut inside, m);
        data.arrived = data.arrived.saturating_add(1);
        let lacks = data.arrived < data.parties;
        if lacks {
            inside = m.wait(rt, inside, ALL_HAVE_COME, PLAIN);
        }
        let (out, _resumed) = m.signal_leave(rt, inside, ALL_HAVE_COME);
        out
    }

    /// Withdraws a party: one party fewer is awaited. (Those that have arrived may then be all, and no process resumes
    /// them.)
    pub fn withdraw<R: Wait, M: Monitor<WeakBarrier>>(m: &M, rt: &R, out: M::Out) -> M::Out
        requires { M.is_of m.now out }
        ensures { M.is_of m.now result }
    {
        let mut inside = m.enter(rt, out);
        let data = M::state_mut(&mut inside, m);
        data.parties = data.parties.saturating_sub(1);
        m.leave(rt, inside)
    }
}

/// Three parties: the first withdraws, the others arrive.
#[derive(Clone, Copy)]
pub struct Weak;

impl Program<WeakBarrier, Explored<WeakBarrier>> for Weak {
    fn threads(&self) -> usize {
        3
    }

    fn open(&self, _alloc: Global) -> Option<WeakBarrier> {
        Some(WeakBarrier {
            parties: 3,
            arrived: 0,
        })
    }

    fn act<R: Wait>(
        &self,
        rt: &R,
        m: &Explored<WeakBarrier>,
        out: Place<WeakBarrier>,
        number: usize,
    ) -> (Place<WeakBarrier>, u64)
        requires { ⟦<Explored<WeakBarrier> as Monitor<WeakBarrier>>⟧.is_of m.now out }
        ensures { ⟦<Explored<WeakBarrier> as Monitor<WeakBarrier>>⟧.is_of m.now result.0 }
    {
        match number {
            0 => (WeakBarrier::withdraw(m, rt, out), 0),
            _ => (WeakBarrier::arrive(m, rt, out), 0),
        }
    }

    fn is_right(&self, _left: &WeakBarrier, _answers: &[u64]) -> bool {
        true
    }
}
