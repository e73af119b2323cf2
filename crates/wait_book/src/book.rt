//! The book of one monitor: the place inside, the waiters, the waiting signallers and the notified processes.
mod stepping;
mod waits;

use crate::chains::{Chains, SIGNALLERS};
use crate::queues::{chain_of, first_priority, is_in_hand, notified_position, turn_given_up};
use crate::steps::{MakeRefused, Next};
use hoare_law::event::Sizes;
use hoare_law::turn::Turn;
use std::alloc::Global;
use std::marker::Model;

/// The largest number of places that a book may have.
pub const MOST_PLACES: usize = 64;

/// The largest number of conditions that a book may have, Mesa conditions included.
pub const MOST_CONDITIONS: usize = 8;

/// The queues of one monitor: the waiters on each condition, the waiting signallers, the notified processes (names say
/// *called*), and whose turn it is (Hoare 1974, Introduction, Interpretation and Scheduled Waits). It is for one
/// thread, and holds no data.
///
/// Clause `of` of a call that changes the book reads: for every history that the book was of, it is afterwards of that
/// history with the call's event. Clause `sizes` says that the call kept the numbers of places and conditions, and the
/// memory that `make` took. What a call requires, its caller must prove.
///
/// ```rust
/// let mut book = Book::make(alloc, 2, 1, 0)?; // 2 places, 1 condition, none of it a Mesa condition
/// book.admit(0);
/// assert_eq!(rt; book.wait(0, 0, 7), Next::Free); // on condition 0, with priority 7
/// book.admit(1);
/// assert_eq!(rt; book.signal(1, 0), Next::For(0));
/// book.claim(0);
/// assert_eq!(rt; book.leave(0), Next::For(1)); // the signaller is back
/// ```
#[derive(Drop)]
pub struct Book {
    turn: Turn,
    chains: Chains,
    sizes: Sizes,
}

impl Model for Book {
    ghost use Rattle.wait_book.specs.Contents.{Contents};

    ghost Value = { Contents };

    ghost use Rattle.wait_book.specs.Insides.{view_of, IsGood};

    ghost view = { view_of };

    ghost invariant = { IsGood };
}

impl Book {
    ghost use Rattle.std.specs.Prelude.{◌≡◌, ◌≢◌, ◌<◌, ◌≤◌, ◌==◌, ◌↔◌, ℕ, [], length, IsTrue, MatchResult, MatchOption};
    ghost use Rattle.std.specs.Prelude.{IfOk, OnErr, ◌⊎◌, Some, None, slice_index, map};
    ghost use Rattle.std.specs.Option.{option_map};
    ghost use Rattle.hoare_law.specs.declared.event.History.{History};
    ghost use Rattle.hoare_law.specs.declared.event.Event.TheVariants as event;
    ghost use Rattle.hoare_law.specs.declared.turn.Turn.TheVariants as turns;
    ghost use Rattle.hoare_law.specs.Events.{opened, with_event};
    ghost use Rattle.hoare_law.specs.Waiting.{waiting, chosen, priority_of, wait_by, IsWaiting};
    ghost use Rattle.hoare_law.specs.Turns.{turn, outside};
    ghost use Rattle.hoare_law.specs.Sizes.{IsHoare, IsMesa, sizes_of};
    ghost use Rattle.hoare_law.specs.Priorities.{joined, taken, emptied};
    ghost use Rattle.wait_book.specs.Contents.{IsOf, IsPlaceBelow, SameSizes, make_refusal, next_of, priorities_on};
    ghost use Rattle.wait_book.specs.Contents.{waits_of};
    ghost use Rattle.wait_book.specs.Contents.{times, times_in};
    ghost use Rattle.wait_book.specs.Numbers.{notified_position};
    ghost use Rattle.wait_book.specs.Stepping.{IsSettled, after_broadcast, after_notify, after_pass, after_signal};
    ghost use Rattle.wait_book.specs.Stepping.{after_signal_to};
    ghost use Rattle.wait_book.specs.Stepping.{after_step, refusal_of, settled};

    /// Creates a book of 1 to 64 places and 1 to 8 conditions, of which the last `mesa` are Mesa conditions. Its
    /// history has no event. Allocates a node for each place, so that all can wait, be signallers or be notified.
    ///
    /// Refuses, in this order, with `BadPlaces`, `BadConditions` (also if `mesa` is over `conditions`), and `Memory` if
    /// the allocation failed or came with room for more than 256 nodes.
    pub fn make(
        alloc: Global,
        places: usize,
        conditions: usize,
        mesa: usize,
    ) -> Result<Book, MakeRefused>
        ensures made { MatchResult result
            (λ b. (make_refusal (sizes_of conditions mesa places) ≡ None)
            × IsOf b (opened (sizes_of conditions mesa places) tt))
            (λ e. (make_refusal (sizes_of conditions mesa places) ≡ Some e)
            ⊎ ((make_refusal (sizes_of conditions mesa places) ≡ None)
            × (e ≡ MakeRefused.Memory))) }
        ensures room { IfOk result
            (λ b. (places ≤ b.room_to_wait) × (places ≤ b.room_to_signal)) }
    {
        if places == 0 || places > MOST_PLACES {
            return Err(MakeRefused::BadPlaces);
        }
        if conditions == 0 || conditions > MOST_CONDITIONS || mesa > conditions {
            return Err(MakeRefused::BadConditions);
        }
        let Ok(chains) = Chains::make(alloc, places) else {
            return Err(MakeRefused::Memory);
        };
        Ok(Book {
            sizes: Sizes {
                places,
                conditions,
                mesa,
            },
            chains,
            turn: Turn::Free,
        })
    }

    /// Returns the number of places: 1 to 64.
    pub fn places(&self) -> usize
        ensures is { result ≡ self.now.sizes.places }
        ensures some { 1 ≤ result }
        ensures few { result ≤ 64 }
    {
        self.sizes.places
    }

    /// Returns the number of conditions, Mesa conditions included: 1 to 8.
    pub fn conditions(&self) -> usize
        ensures is { result ≡ self.now.sizes.conditions }
        ensures some { 1 ≤ result }
        ensures few { result ≤ 8 }
    {
        self.sizes.conditions
    }

    /// Returns whose turn it is: `Held` of the place inside, `For` of the place to which the monitor is owed (a waiter
    /// that was resumed or notified, or a signaller that returns), or `Free`.
    pub fn now(&self) -> Next
        ensures turn { result ≡ next_of self.now.turn }
        ensures of { (h : History (Unit {0})) → IsOf self.now h
            → result ≡ next_of (turn h.events) }
        ensures place { IsPlaceBelow self.now.sizes.places result }
    {
        match self.turn {
            Turn::Free => Next::Free,
            Turn::Held(k) => Next::Held(k),
            Turn::Owed(k, _) => Next::For(k),
            Turn::Return(k) => Next::For(k),
        }
    }

    /// Returns true if `place` is outside: not inside, not waiting on a condition, not a waiting signaller, not
    /// notified, and not owed the monitor.
    pub fn outside(&self, place: usize) -> bool
        requires { place < self.now.sizes.places }
        ensures nowhere { result ≡ (times_in place self.now == 0) }
        ensures of { (h : History (Unit {0})) → IsOf self.now h
            → result ≡ outside place h.events }
    {
        if self.chains.holds(place) {
            return false;
        }
        !is_in_hand(self.turn, self.sizes.conditions - self.sizes.mesa, place)
    }

    /// Returns true if a process waits on `condition` (Hoare's `queue`).
    pub fn queue(&self, condition: usize) -> bool
        requires { condition < self.now.sizes.conditions }
        ensures lists { IsTrue result ↔ (priorities_on self.now condition ≢ []) }
        ensures of { (h : History (Unit {0})) → IsOf self.now h
            → (IsTrue result ↔ (waiting condition h.events ≢ [])) }
    {
        self.first(condition).is_some()
    }

    /// Returns the priority of the first waiter on `condition` (least priority, then longest wait), which a signal
    /// would resume. Returns `None` if no process waits there.
    pub fn first(&self, condition: usize) -> Option<u64>
        requires { condition < self.now.sizes.conditions }
        ensures lists { MatchOption result
            (priorities_on self.now condition ≡ [])
            (λ p. (priorities_on self.now condition ≢ [])
            × (p ≡ slice_index (priorities_on self.now condition) 0)) }
        ensures of { (h : History (Unit {0})) → IsOf self.now h
            → result ≡ option_map priority_of (chosen condition h.events) }
    {
        first_priority(&self.chains, condition)
    }

    /// Returns true if `place` waits on `condition`.
    pub fn has_waiter(&self, condition: usize, place: usize) -> bool
        requires { condition < self.now.sizes.conditions }
        ensures lists { IsTrue result ↔ (waits_of place condition self.now ≢ []) }
        ensures of { (h : History (Unit {0})) → IsOf self.now h
            → (IsTrue result ↔ IsWaiting condition h.events place) }
    {
        self.chains.has(condition, place)
    }

    /// Returns the number of `place` among the processes that were notified and haven't resumed yet: 1 if it resumes
    /// first, 0 if it isn't among them.
    pub fn notified_position(&self, place: usize) -> usize
        ensures of { (h : History (Unit {0})) → IsOf self.now h
            → result ≡ notified_position h.events place }
        ensures few { result ≤ 64 }
    {
        notified_position(&self.chains, place)
    }

    /// Admits `place`, which is then inside. Requires that the monitor is free and the place is outside.
    pub fn admit(&mut self, place: usize)
        requires free { self.old.turn ≡ turns.Free }
        requires place { place < self.old.sizes.places }
        requires outside { times_in place self.old ≡ 0 }
        ensures inside { self.new.turn ≡ turns.Held place }
        ensures of { (h : History (Unit {0})) → IsOf self.old h
            → IsOf self.new (with_event h (event.Admit place tt)) }
        ensures priorities { (c : ℕ) → priorities_on self.new c ≡ priorities_on self.old c }
        ensures sizes { SameSizes self.old self.new }
    {
        self.turn = Turn::Held(place); // free before
    }

    /// Lets `place` resume, which is then inside: it returns from a wait, after a signal or a notification, or from its
    /// own signal. Requires that the monitor is owed to the place.
    #[inline(always)] // as `settle`, which calls it, is
    pub fn claim(&mut self, place: usize)
        requires { next_of self.old.turn ≡ Next.For place }
        ensures inside { self.new.turn ≡ turns.Held place }
        ensures of { (h : History (Unit {0})) → IsOf self.old h
            → IsOf self.new (settled h) }
        ensures priorities { (c : ℕ) → priorities_on self.new c ≡ priorities_on self.old c }
        ensures sizes { SameSizes self.old self.new }
    {
        if let Some(chain) = chain_of(self.turn, self.sizes.conditions - self.sizes.mesa) {
            self.chains.take_first(chain);
        }
        self.turn = Turn::Held(place); // owed before
    }

    /// Lets `place`, which is inside, wait on `condition`. Among waiters the least `priority` is resumed first, and of
    /// equal priorities the longest wait. Returns which place resumes next: `For` of the longest waiting signaller,
    /// else `For` of the first notified process, else `Free`.
    pub fn wait(&mut self, place: usize, condition: usize, priority: u64) -> Next
        requires inside { self.old.turn ≡ turns.Held place }
        requires condition { condition < self.old.sizes.conditions }
        ensures of { (h : History (Unit {0})) → IsOf self.old h
            → IsOf self.new (with_event h (event.Wait place condition priority tt)) }
        ensures next { result ≡ next_of self.new.turn }
        ensures answered { IsPlaceBelow self.new.sizes.places result }
        ensures apart { times place (map (λ w. w.place) self.old.waiters) ≡ 0 }
        ensures priorities { (c : ℕ)
            → priorities_on self.new c ≡ joined (priorities_on self.old) condition priority c }
        ensures sizes { SameSizes self.old self.new }
    {
        self.chains.insert(condition, place, priority);
        self.turn = turn_given_up(&self.chains); // the place waits
        self.now()
    }

    /// Lets `place`, which is inside, leave. Returns which place resumes next: `For` of the longest waiting signaller,
    /// else `For` of the first notified process, else `Free`.
    pub fn leave(&mut self, place: usize) -> Next
        requires { self.old.turn ≡ turns.Held place }
        ensures of { (h : History (Unit {0})) → IsOf self.old h
            → IsOf self.new (with_event h (event.Leave place tt)) }
        ensures next { result ≡ next_of self.new.turn }
        ensures answered { IsPlaceBelow self.new.sizes.places result }
        ensures apart { times place (map (λ w. w.place) self.old.waiters) ≡ 0 }
        ensures priorities { (c : ℕ) → priorities_on self.new c ≡ priorities_on self.old c }
        ensures sizes { SameSizes self.old self.new }
    {
        self.turn = turn_given_up(&self.chains); // the place is out
        self.now()
    }

    /// Lets `place`, which is inside, signal `condition`, one of Hoare's. The monitor is handed to the first waiter
    /// (least priority, then longest wait), and `place` is held up as a signaller. Returns `For` of that waiter. If no
    /// process waits there, changes nothing and returns `Held(place)`.
    pub fn signal(&mut self, place: usize, condition: usize) -> Next
        requires inside { self.old.turn ≡ turns.Held place }
        requires hoare { IsHoare self.old.sizes.conditions self.old.sizes.mesa condition }
        ensures of { (h : History (Unit {0})) → IsOf self.old h
            → IsOf self.new (after_signal h place condition (chosen condition h.events)) }
        ensures next { result ≡ next_of self.new.turn }
        ensures nobody { priorities_on self.old condition ≡ [] → self.new ≡ self.old }
        ensures somebody { priorities_on self.old condition ≢ []
            → (w : ℕ) × (self.new.turn ≡ turns.Owed w condition) }
        ensures answered { IsPlaceBelow self.new.sizes.places result }
        ensures apart { times place (map (λ w. w.place) self.old.waiters) ≡ 0 }
        ensures priorities { (c : ℕ)
            → priorities_on self.new c ≡ taken (priorities_on self.old) condition c }
        ensures sizes { SameSizes self.old self.new }
    {
        let Some(resumed) = self.chains.take_first(condition) else {
            return self.now();
        };
        self.chains.append(SIGNALLERS, place, condition, 0);
        self.turn = Turn::Owed(resumed, condition);
        self.now()
    }

    /// Lets `place`, which is inside, signal to the place `waiter` on `condition`, one of Hoare's. If that place waits
    /// there, whoever else waits, the monitor is handed to it, and `place` is held up as a signaller. Returns `For` of
    /// `waiter`. If it doesn't wait there, changes nothing and returns `Held(place)`.
    #[inline(never)] // apart, so that the other steps stay small
    pub fn signal_to(&mut self, place: usize, condition: usize, waiter: usize) -> Next
        requires inside { self.old.turn ≡ turns.Held place }
        requires hoare { IsHoare self.old.sizes.conditions self.old.sizes.mesa condition }
        ensures of { (h : History (Unit {0})) → IsOf self.old h
            → IsOf self.new (after_signal_to h place condition waiter (wait_by waiter condition h.events)) }
        ensures next { result ≡ next_of self.new.turn }
        ensures none { waits_of waiter condition self.old ≡ [] → self.new ≡ self.old }
        ensures some { waits_of waiter condition self.old ≢ [] → self.new.turn ≡ turns.Owed waiter condition }
        ensures answered { IsPlaceBelow self.new.sizes.places result }
        ensures sizes { SameSizes self.old self.new }
    {
        if !self.chains.take(condition, waiter) {
            return self.now();
        }
        self.chains.append(SIGNALLERS, place, condition, 0);
        self.turn = Turn::Owed(waiter, condition);
        self.now()
    }

    /// Lets `place`, which is inside, signal `condition`, one of Hoare's, as its last act. The monitor is handed to the
    /// first waiter (least priority, then longest wait), and `place` is outside. Returns `For` of that waiter. If no
    /// process waits there, does what `leave` does.
    pub fn pass(&mut self, place: usize, condition: usize) -> Next
        requires inside { self.old.turn ≡ turns.Held place }
        requires hoare { IsHoare self.old.sizes.conditions self.old.sizes.mesa condition }
        ensures of { (h : History (Unit {0})) → IsOf self.old h
            → IsOf self.new (after_pass h place condition (chosen condition h.events)) }
        ensures next { result ≡ next_of self.new.turn }
        ensures somebody { priorities_on self.old condition ≢ []
            → (w : ℕ) × (self.new.turn ≡ turns.Owed w condition) }
        ensures answered { IsPlaceBelow self.new.sizes.places result }
        ensures apart { times place (map (λ w. w.place) self.old.waiters) ≡ 0 }
        ensures priorities { (c : ℕ)
            → priorities_on self.new c ≡ taken (priorities_on self.old) condition c }
        ensures sizes { SameSizes self.old self.new }
    {
        let Some(successor) = self.chains.take_first(condition) else {
            return self.leave(place);
        };
        self.turn = Turn::Owed(successor, condition);
        self.now()
    }

    /// Notifies the first waiter (least priority, then longest wait) on `condition`, a Mesa condition. `place` stays
    /// inside. Returns true if a process waits there; else changes nothing and returns false.
    #[inline(never)] // apart, so that `try_step` stays small
    pub fn notify(&mut self, place: usize, condition: usize) -> bool
        requires inside { self.old.turn ≡ turns.Held place }
        requires mesa { IsMesa self.old.sizes.conditions self.old.sizes.mesa condition }
        ensures of { (h : History (Unit {0})) → IsOf self.old h
            → IsOf self.new (after_notify h place condition (chosen condition h.events)) }
        ensures answer { IsTrue result ↔ (priorities_on self.old condition ≢ []) }
        ensures nobody { priorities_on self.old condition ≡ [] → self.new ≡ self.old }
        ensures inside { self.new.turn ≡ turns.Held place }
        ensures priorities { (c : ℕ)
            → priorities_on self.new c ≡ taken (priorities_on self.old) condition c }
        ensures sizes { SameSizes self.old self.new }
    {
        self.chains.call_first(condition)
    }

    /// Notifies all waiters on `condition`, a Mesa condition, in the order in which signals would resume them. `place`
    /// stays inside. Returns the number of these waiters.
    #[inline(never)] // apart, so that `try_step` stays small
    pub fn broadcast(&mut self, place: usize, condition: usize) -> usize
        requires inside { self.old.turn ≡ turns.Held place }
        requires mesa { IsMesa self.old.sizes.conditions self.old.sizes.mesa condition }
        ensures of { (h : History (Unit {0})) → IsOf self.old h
            → IsOf self.new (after_broadcast h place condition (waiting condition h.events)) }
        ensures answer { result ≡ length (priorities_on self.old condition) }
        ensures inside { self.new.turn ≡ turns.Held place }
        ensures priorities { (c : ℕ)
            → priorities_on self.new c ≡ emptied (priorities_on self.old) condition c }
        ensures sizes { SameSizes self.old self.new }
    {
        let called = self.chains.on(condition).count();
        self.chains.call_all(condition);
        called
    }
}
