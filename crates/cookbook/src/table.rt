//! The table of the dining philosophers: five seats, and a fork between each two neighbouring seats. A philosopher
//! needs both forks beside its seat to eat.
ghost use Rattle.std.specs.Prelude.{◌≡◌, ◌≢◌, ◌<◌, ◌↔◌, ℕ, [], IsTrue, MatchOption};
ghost use Rattle.hoare_law.specs.Priorities.{nobody};
ghost use Rattle.hoare_law.specs.Waiting.{waiting};
ghost use Rattle.cookbook.specs.Tables.{TableHolds, TableRests, IsEating, CanEat, all_up, seated, risen};
ghost use Rattle.cookbook.specs.TableTraces.{HandsOn, SitsDown, GetsUp};

use hoare_law::data::MonitorData;
use hoare_law::monitor::{Monitor, PLAIN};
use hoare_law::waits::Waits;
use std::marker::Model;
use std::sync::Wait;

/// Number of seats of a `Table`. They are numbered from 0, round the table.
pub const SEATS: usize = 5;

/// The data of the monitor: for each seat, true if its philosopher eats. Condition k is *the philosopher at seat k can
/// eat*: there is one condition for each seat, and each is one of Hoare's.
#[derive(Drop)]
pub struct Table {
    eats: [bool; SEATS],
}

impl Model for Table {
    ghost use Rattle.std.specs.Prelude.{List, Bool};

    ghost Value = { List Bool };

    ghost view = { λ t. t.eats };
}

/// Refusal of `Table::get_up`: no philosopher eats at the seat.
#[derive(Clone, Copy, Debug, PartialEq, Eq, thiserror::Error)]
#[error("nobody eats at the seat")]
pub struct NotEating;

impl MonitorData for Table {
    ghost use Rattle.cookbook.specs.Tables.{TableHolds, TableRests, TableReady};

    const CONDITIONS: usize = SEATS;

    ghost CONDITIONS = { 5 };

    const MESA: usize = 0;

    ghost MESA = { 0 };

    ghost inv = { λ t. TableHolds t };

    ghost rest = { λ t q. TableRests t q };

    ghost ready = { λ c p t q. TableReady c t };

    fn rest_holds<W: Waits>(&self, lists: &W) -> bool {
        self.is_apart() && self.is_nobody_kept(lists)
    }

    fn ready_holds<W: Waits>(&self, condition: usize, priority: u64, lists: &W) -> bool {
        self.is_apart() && self.can_eat(condition)
    }

    ghost rest_inv = { λ t q h. h.inv };

    ghost ready_inv = { λ c p t q h. h.inv };
}

impl Table {
    /// Creates a table at which no philosopher eats.
    pub fn new() -> Table
        ensures made { result ≡ all_up }
        ensures rest { TableRests result nobody }
    {
        Table {
            eats: [false; SEATS],
        }
    }

    // Returns true if no two neighbours eat.
    fn is_apart(&self) -> bool
        ensures { IsTrue result ↔ TableHolds self.now }
    {
        for seat in 0..SEATS {
            if self.eats[seat] && self.eats[(seat + 1) % SEATS] {
                return false;
            }
        }
        true
    }

    // Returns true if the philosopher at `seat` eats.
    fn is_eating(&self, seat: usize) -> bool
        requires { seat < SEATS }
        ensures { IsTrue result ↔ IsEating self.now seat }
    {
        self.eats[seat]
    }

    // Returns true if no philosopher eats at `seat` or beside it.
    fn can_eat(&self, seat: usize) -> bool
        requires { seat < SEATS }
        ensures { IsTrue result ↔ CanEat self.now seat }
    {
        !self.eats[seat] && !self.eats[(seat + 1) % SEATS] && !self.eats[(seat + SEATS - 1) % SEATS]
    }

    // Returns true if no waiter can eat.
    #[tactic(auto, using(hoare_law::proofs::Joined::waiting_steps))]
    fn is_nobody_kept<W: Waits>(&self, lists: &W) -> bool
        ensures { IsTrue result ↔ ((c : ℕ) → c < SEATS → W.waiting_priorities lists.now c ≢ []
            → CanEat self.now c → ⊥) }
    {
        for seat in 0..SEATS {
            if lists.count(seat) > 0 && self.can_eat(seat) {
                return false;
            }
        }
        true
    }

    // Marks the philosopher at `seat` as eating.
    fn start(&mut self, seat: usize)
        requires { seat < SEATS }
        ensures { self.new ≡ seated self.old seat }
    {
        self.eats[seat] = true;
    }

    // Marks the philosopher at `seat` as not eating.
    fn stop(&mut self, seat: usize)
        requires { seat < SEATS }
        ensures { self.new ≡ risen self.old seat }
    {
        self.eats[seat] = false;
    }

    // Returns the first seat at which a philosopher waits and can eat, or `None` if there is none.
    fn next_seat<M: Monitor<Table>>(m: &M, inside: &M::In) -> Option<usize>
        requires { M.is_of_in m.now inside.now }
        ensures lists { MatchOption result ((c : ℕ) → c < SEATS → M.lists_in inside.now c ≢ []
            → CanEat (M.data_in inside.now) c → ⊥)
            (λ c. (c < SEATS) × (M.lists_in inside.now c ≢ []) × CanEat (M.data_in inside.now) c) }
        ensures front { MatchOption result ((c : ℕ) → c < SEATS
            → waiting c (M.front_in inside.now).events ≢ [] → CanEat (M.data_in inside.now) c → ⊥)
            (λ c. waiting c (M.front_in inside.now).events ≢ []) }
    {
        for seat in 0..SEATS {
            if m.queue(inside, seat) && m.state(inside).can_eat(seat) {
                return Some(seat);
            }
        }
        None
    }

    // Releases the monitor as the last act of a procedure. Of the waiters that can eat, the one with the first seat is
    // resumed; if there is none, this is a plain leave.
    fn hand_on<R: Wait, M: Monitor<Table>>(m: &M, rt: &R, inside: M::In) -> M::Out
        requires of { M.is_of_in m.now inside }
        requires inv { TableHolds (M.data_in inside) }
        ensures of { M.is_of m.now result }
        ensures place { M.place result ≡ M.place_in inside }
        ensures trace { HandsOn (M.place_in inside) (M.data_in inside) (M.front_in inside)
            (M.front result) }
    {
        let Some(seat) = Table::next_seat(m, &inside) else {
            return m.leave(rt, inside);
        };
        let (out, _resumed) = m.signal_leave(rt, inside, seat);
        out
    }

    /// Takes both forks beside `seat`. Waits until no philosopher eats at `seat` or beside it.
    ///
    /// If a waiter can eat then, it is resumed; which of several is not specified.
    pub fn sit_down<R: Wait, M: Monitor<Table>>(m: &M, rt: &R, out: M::Out, seat: usize) -> M::Out
        requires of { M.is_of m.now out }
        requires seat { seat < SEATS }
        ensures of { M.is_of m.now result }
        ensures place { M.place result ≡ M.place out }
        ensures trace { SitsDown (M.place out) seat (M.front out) (M.front result) }
    {
        let mut inside = m.enter(rt, out);
        if !m.state(&inside).can_eat(seat) {
            inside = m.wait(rt, inside, seat, PLAIN);
        }
        M::state_mut(&mut inside, m).start(seat);
        Table::hand_on(m, rt, inside)
    }

    /// Puts down both forks beside `seat`, so that its neighbours may eat. If a waiter can eat then, it is resumed;
    /// which of several is not specified.
    ///
    /// Returns `Err(NotEating)` exactly if no philosopher eats at `seat`. Then nothing has changed.
    pub fn get_up<R: Wait, M: Monitor<Table>>(
        m: &M,
        rt: &R,
        out: M::Out,
        seat: usize,
    ) -> (M::Out, Result<(), NotEating>)
        requires of { M.is_of m.now out }
        requires seat { seat < SEATS }
        ensures of { M.is_of m.now result.0 }
        ensures place { M.place result.0 ≡ M.place out }
        ensures trace { GetsUp (M.place out) seat (M.front out) (M.front result.0) result.1 }
    {
        let mut inside = m.enter(rt, out);
        if !m.state(&inside).is_eating(seat) {
            return (m.leave(rt, inside), Err(NotEating));
        }
        M::state_mut(&mut inside, m).stop(seat);
        (Table::hand_on(m, rt, inside), Ok(()))
    }
}
