//! The choices of a run: which of the entering places is admitted next.
ghost use Rattle.std.specs.Prelude.{◌≡◌, ◌<◌, ◌≤◌, ◌++◌, ◌∷◌, [], IfOk, None, MatchBool, length, slice_index_or};
ghost use Rattle.order_explorer.specs.Turns.{AreLast, IsNew, IsTurned};

use crate::schedule::{Ending, Limit};
use std::alloc::{AllocError, Global};

/// One choice: which places were to enter, and which of them was admitted.
#[derive(Clone, Copy, Debug, PartialEq, Eq)]
pub struct Choice {
    /// The places that were to enter: bit k is place k.
    pub asking: u64,
    /// The place after which these places are counted, round the row of 64 places.
    pub behind: usize,
    /// The number of these places.
    pub count: u64,
    /// Which of them was admitted, counted from 0.
    pub taken: u64,
}

/// The choices of a run: first those that are given at its start, then those that it makes. The room for all of them is
/// allocated before the first run.
#[derive(Drop)]
pub struct Choices {
    all: Vec<Choice>,
    next: usize,
    latest: usize,
    drawn: Option<u64>,
    given: Option<Vec<usize>>,
}

/// Which orders are tried.
#[derive(Clone, Copy, Debug, PartialEq, Eq)]
pub enum Orders {
    /// All orders, one after the other.
    All,
    /// Orders that are drawn from this seed. An order may be drawn twice.
    Drawn(u64),
}

// Returns the place that the choice admits: after `behind`, round the row of 64 places, the entering place number
// `taken`, counted from 0. Returns `None` if there are fewer.
fn place_of(choice: Choice) -> Option<usize> {
    let mut others = choice.taken;
    for i in 1..65usize {
        let place = choice.behind.wrapping_add(i) % 64;
        if choice.asking >> place & 1 == 1 {
            if others == 0 {
                return Some(place);
            }
            others = others.saturating_sub(1);
        }
    }
    None
}

// Changes the last choice that has a place left to its next place, and removes the choices after it. Returns false if
// no choice has a place left.
fn turn_last(all: &mut Vec<Choice>) -> bool
    ensures { MatchBool result (IsTurned all.old.items all.new.items) (AreLast 0 all.old.items) }
{
    let mut left = all.len();
    while left > 0 {
        left -= 1;
        let choice = all[left];
        if choice.taken < choice.count.saturating_sub(1) {
            all[left] = Choice {
                taken: choice.taken + 1,
                ..choice
            };
            all.truncate(left + 1);
            return true;
        }
    }
    false
}

impl Choices {
    /// Creates the record without choices, with room for `most` of them. Places are admitted in the order of `given`,
    /// if there is one. Else, by `orders`, they are drawn from a seed, or each new choice admits the first place that
    /// is to enter, counted from the latest one. Refuses if an allocation fails.
    pub fn none(
        alloc: Global,
        most: usize,
        orders: Orders,
        given: Option<Vec<usize>>,
    ) -> Result<Choices, AllocError> {
        let drawn = match orders {
            Orders::All => None,
            Orders::Drawn(seed) => Some(seed),
        };
        Ok(Choices {
            all: Vec::with_capacity(alloc, most)?,
            next: 0,
            latest: 63,
            drawn,
            given,
        })
    }

    // Returns which of `count` places a new choice admits, counted from 0: the first, so that the first order is a fair
    // one; or a drawn one, if orders are drawn.
    fn pick(&mut self, count: u64) -> u64
        ensures first { self.old.drawn ≡ None → result ≡ 0 }
        ensures all { self.new.all ≡ self.old.all }
    {
        let Some(state) = self.drawn else {
            return 0;
        };
        let state = state
            .wrapping_mul(6_364_136_223_846_793_005)
            .wrapping_add(1_442_695_040_888_963_407);
        self.drawn = Some(state);
        (state >> 33) % count.max(1)
    }

    // Returns the next choice: the one that `turn` kept, or, after the last of these, a new one, which it appends.
    // Refuses with `Differs` if other places were to enter when the kept choice was made, and with `Limit` if there is
    // no room for a new one.
    fn at_hand(&mut self, asking: u64) -> Result<Choice, Ending>
        ensures same { IfOk result (λ c. c.asking ≡ asking) }
        ensures given { self.old.next < length self.old.all.items
            → IfOk result (λ c. c ≡ slice_index_or self.old.all.items self.old.next c) }
        ensures made { length self.old.all.items ≤ self.old.next → IfOk result (IsNew asking self.old.drawn) }
        ensures kept { length self.old.all.items ≤ self.old.next
            → IfOk result (λ c. self.new.all.items ≡ self.old.all.items ++ c ∷ []) }
    {
        if let Some(given) = self.all.get(self.next) {
            if given.asking != asking {
                return Err(Ending::Differs);
            }
            return Ok(*given);
        }
        let count = u64::from(asking.count_ones());
        let taken = self.pick(count);
        if self.all.len() >= self.all.capacity() {
            return Err(Ending::Limit(Limit::Depth));
        }
        let made = Choice {
            asking,
            behind: self.latest,
            count,
            taken,
        };
        self.all.push_reserved(made);
        Ok(made)
    }

    // Returns the place that the order `given` admits next. Refuses with `Differs` if that place isn't to enter, or if
    // the order has ended.
    fn given_place(&self, given: &[usize], asking: u64) -> Result<usize, Ending> {
        match given.get(self.next) {
            Some(place) if *place < 64 && asking >> *place & 1 == 1 => Ok(*place),
            _ => Err(Ending::Differs),
        }
    }

    /// Notes that a place entered by an attempt. That is no choice, but a given order lists the place: it is skipped
    /// there.
    pub fn came_by_try(&mut self) {
        if self.given.is_some() {
            self.next = self.next.saturating_add(1);
        }
    }

    /// Returns the place that is admitted next, of those that are to enter (bit k of `asking` is place k): the given
    /// one, or else a picked one. Refuses with `Limit` if there is no room for a new choice. Refuses with `Differs` if
    /// other places were to enter when the choice was made: then the program depends on something besides the choices.
    /// Refuses with `Differs` also if a given order has ended, or its next place isn't to enter, or no place is.
    pub fn choose(&mut self, asking: u64) -> Result<usize, Ending> {
        if let Some(given) = &self.given {
            let place = self.given_place(given.as_slice(), asking)?;
            self.next = self.next.saturating_add(1);
            return Ok(place);
        }
        let choice = self.at_hand(asking)?;
        let Some(place) = place_of(choice) else {
            return Err(Ending::Differs);
        };
        self.next = self.next.saturating_add(1);
        self.latest = place;
        Ok(place)
    }

    /// Prepares the choices of the next run: the last choice that has a place left admits its next place, and the
    /// choices after it are removed. Drawn choices are all removed; a given order begins again. Returns false if all
    /// orders were tried. If orders are drawn, or one is given, it always returns true.
    pub fn turn(&mut self) -> bool
        ensures { self.old.drawn ≡ None → self.old.given ≡ None
            → MatchBool result (IsTurned self.old.all.items self.new.all.items)
            (AreLast 0 self.old.all.items) }
    {
        self.next = 0;
        self.latest = 63;
        if self.given.is_some() {
            return true;
        }
        if self.drawn.is_some() {
            self.all.clear();
            return true;
        }
        turn_last(&mut self.all)
    }
}
