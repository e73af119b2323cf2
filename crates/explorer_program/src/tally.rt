//! Programs over a number of which nothing is required. What the threads of each program do is in its own file.

use crate::digits::{LAST_OF_FOUR, write_digits};
use crate::hidden_state::{visit_again, visit_by_turns};
use crate::lost_wake::pass_or_notify;
use crate::starving::dance;
use crate::trying::try_or_ask;
use hoare_law::data::MonitorData;
use hoare_law::monitor::Monitor;
use hoare_law::waits::Waits;
use order_explorer::{Explored, Place, Program};
use std::alloc::{AllocError, Global};
use std::sync::Wait;
use std::sync::atomic::AtomicU64;

/// The Mesa condition of a tally. Condition 0 is Hoare's.
pub const MESA: usize = 1;

/// A number of which nothing is required, with a condition of each kind.
#[derive(Drop)]
pub struct Tally {
    /// The number.
    pub value: u64,
}

impl MonitorData for Tally {
    ghost use Rattle.std.specs.Prelude.{⊤};

    const CONDITIONS: usize = 2;

    ghost CONDITIONS = { 2 };

    const MESA: usize = 1;

    ghost MESA = { 1 };

    ghost inv = { λ t. ⊤ };

    ghost rest = { λ t q. ⊤ };

    ghost ready = { λ c p t q. ⊤ };

    fn rest_holds<W: Waits>(&self, _lists: &W) -> bool {
        true
    }

    fn ready_holds<W: Waits>(&self, _condition: usize, _priority: u64, _lists: &W) -> bool {
        true
    }

    ghost rest_inv = { λ t q h. tt };

    ghost ready_inv = { λ c p t q h. tt };
}

/// What the threads do over a tally.
#[derive(Clone, Copy)]
pub enum OfTally {
    /// This many threads visit this many times each, and append their digits. If a thread finds this number, it waits.
    /// The last order of four threads of two visits is wrong.
    Digits(usize, u32, Option<u64>),
    /// Places 0 and 1 pass a gate that place 2 opens: it notifies all waiters if this is true, else one.
    Called(bool),
    /// Of this many threads the first two resume each other, the last waits to be resumed, and the others visit once.
    Dance(usize),
    /// Three threads visit once, but the first visits twice in each second run.
    Hidden,
    /// Two of three threads visit, and in each second run another two.
    HiddenOthers,
    /// Place 0 waits at a gate. Places 1 and 2 open it, and then attempt to enter.
    Try,
}

/// A program over a tally: what its threads do, and the number of runs in which its first thread has run. Only
/// `OfTally::Hidden` and `OfTally::HiddenOthers` count these.
#[derive(Drop)]
pub struct Tallied {
    acts: OfTally,
    runs: AtomicU64,
}

impl Tallied {
    /// Creates the program in which the threads do this, with no run counted.
    pub fn of(acts: OfTally) -> Tallied {
        Tallied {
            acts,
            runs: AtomicU64::new(0),
        }
    }
}

impl Clone for Tallied {
    fn clone(&self) -> Result<Tallied, AllocError> {
        Ok(Tallied::of(self.acts))
    }
}

// Does the part of the thread with this number.
fn acts<R: Wait, M: Monitor<Tally>>(
    rt: &R,
    m: &M,
    out: M::Out,
    number: usize,
    program: &Tallied,
) -> M::Out
    requires { M.is_of m.now out }
    ensures { M.is_of m.now result }
{
    match program.acts {
        OfTally::Digits(_, visits, bad) => write_digits(rt, m, out, visits, number, bad),
        OfTally::Called(all) => pass_or_notify(rt, m, out, number, all),
        OfTally::Dance(threads) => dance(rt, m, out, number, threads),
        OfTally::Hidden => visit_again(rt, m, out, number, &program.runs),
        OfTally::HiddenOthers => visit_by_turns(rt, m, out, number, &program.runs),
        OfTally::Try => try_or_ask(rt, m, out, number),
    }
}

impl Program<Tally, Explored<Tally>> for Tallied {
    fn threads(&self) -> usize {
        match self.acts {
            OfTally::Digits(threads, ..) | OfTally::Dance(threads) => threads,
            _ => 3,
        }
    }

    fn open(&self, _alloc: Global) -> Option<Tally> {
        Some(Tally { value: 0 })
    }

    fn act<R: Wait>(
        &self,
        rt: &R,
        m: &Explored<Tally>,
        out: Place<Tally>,
        number: usize,
    ) -> (Place<Tally>, u64)
        requires { ⟦<Explored<Tally> as Monitor<Tally>>⟧.is_of m.now out }
        ensures { ⟦<Explored<Tally> as Monitor<Tally>>⟧.is_of m.now result.0 }
    {
        (acts(rt, m, out, number, self), 0)
    }

    fn is_right(&self, left: &Tally, _answers: &[u64]) -> bool {
        match self.acts {
            OfTally::Digits(..) => left.value != LAST_OF_FOUR,
            OfTally::Try => left.value == 112,
            _ => true,
        }
    }
}
