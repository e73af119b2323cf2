//! A rendezvous of pairs: two processes meet and exchange values.
ghost use Rattle.std.specs.Prelude.{◌≡◌, ◌↔◌, IsTrue};
ghost use Rattle.hoare_law.specs.Priorities.{nobody};
ghost use Rattle.cookbook.specs.declared.rendezvous.Rendezvous.TheVariants as variant;
ghost use Rattle.cookbook.specs.Meetings.{IsOffered, IsAnswered, MeetingRests};
ghost use Rattle.cookbook.specs.MeetingTraces.{Exchanges};

use hoare_law::data::MonitorData;
use hoare_law::monitor::{Monitor, PLAIN};
use hoare_law::waits::Waits;
use std::mem;
use std::sync::Wait;

/// The condition *my partner has come* of a `Rendezvous`: a process that has offered a value waits there for the value
/// of its partner.
pub const PARTNER_HAS_COME: usize = 0;

/// The data of the monitor: how far a pair is in its exchange. The only condition is 0, *my partner has come*
/// (`PARTNER_HAS_COME`).
#[derive(Drop)]
pub enum Rendezvous<T> {
    /// No process waits for a partner.
    Empty,
    /// A process has offered this value, and waits for its partner.
    Offered(T),
    /// The partner has come, has taken the offered value, and has left this value for the waiting process.
    Answered(T),
}

impl<T: Drop> MonitorData for Rendezvous<T> {
    ghost use Rattle.std.specs.Prelude.{⊤};
    ghost use Rattle.cookbook.specs.Meetings.{MeetingRests, MeetingReady};

    const CONDITIONS: usize = 1;

    ghost CONDITIONS = { 1 };

    const MESA: usize = 0;

    ghost MESA = { 0 };

    ghost inv = { λ s. ⊤ };

    ghost rest = { λ s q. MeetingRests s (q 0) };

    ghost ready = { λ c p s q. MeetingReady s (q 0) };

    fn rest_holds<W: Waits>(&self, lists: &W) -> bool {
        match self {
            Rendezvous::Empty => lists.count(PARTNER_HAS_COME) == 0,
            Rendezvous::Offered(_) => lists.count(PARTNER_HAS_COME) == 1,
            Rendezvous::Answered(_) => false,
        }
    }

    fn ready_holds<W: Waits>(&self, condition: usize, priority: u64, lists: &W) -> bool {
        match self {
            Rendezvous::Answered(_) => lists.count(PARTNER_HAS_COME) == 0,
            _ => false,
        }
    }

    ghost rest_inv = { λ s q h. tt };

    ghost ready_inv = { λ c p s q h. tt };
}

impl<T: Drop> Rendezvous<T> {
    /// Creates a rendezvous at which no process waits.
    pub fn new() -> Rendezvous<T>
        ensures made { result ≡ variant.Empty }
        ensures rest { MeetingRests result (nobody 0) }
    {
        Rendezvous::Empty
    }

    // Returns true if a process waits for its partner.
    fn is_offered(&self) -> bool
        ensures { IsTrue result ↔ IsOffered self.now }
    {
        matches!(self, Rendezvous::Offered(_))
    }

    // Leaves the value of the first of a pair.
    fn offer(&mut self, value: T)
        requires { self.old ≡ variant.Empty }
        ensures { self.new ≡ variant.Offered value }
    {
        *self = Rendezvous::Offered(value);
    }

    // Takes the value of the first of a pair and returns it. Leaves that of the second.
    fn answer(&mut self, value: T) -> T
        requires { IsOffered self.old }
        ensures value { self.old ≡ variant.Offered result }
        ensures after { self.new ≡ variant.Answered value }
    {
        match mem::replace(self, Rendezvous::Answered(value)) {
            Rendezvous::Offered(first) => first,
            _ => unreachable!(),
        }
    }

    // Takes the value of the second of a pair and returns it. The next pair may come after that.
    fn collect(&mut self) -> T
        requires { IsAnswered self.old }
        ensures value { self.old ≡ variant.Answered result }
        ensures after { self.new ≡ variant.Empty }
    {
        match mem::replace(self, Rendezvous::Empty) {
            Rendezvous::Answered(second) => second,
            _ => unreachable!(),
        }
    }

    /// Exchanges `value` with a partner, and returns the value of the partner. If a process waits with an offer, it is
    /// the partner; else the caller waits until a partner comes. No third process enters between the two.
    pub fn meet<R: Wait, M: Monitor<Rendezvous<T>>>(
        m: &M,
        rt: &R,
        out: M::Out,
        value: T,
    ) -> (M::Out, T)
        requires { M.is_of m.now out }
        ensures of { M.is_of m.now result.0 }
        ensures place { M.place result.0 ≡ M.place out }
        ensures trace { Exchanges (M.place out) value (M.front out) (M.front result.0) result.1 }
    {
        let mut inside = m.enter(rt, out);
        if m.state(&inside).is_offered() {
            let first = M::state_mut(&mut inside, m).answer(value);
            let (out, _resumed) = m.signal_leave(rt, inside, PARTNER_HAS_COME);
            return (out, first);
        }
        M::state_mut(&mut inside, m).offer(value);
        inside = m.wait(rt, inside, PARTNER_HAS_COME, PLAIN);
        let second = M::state_mut(&mut inside, m).collect();
        (m.leave(rt, inside), second)
    }
}
