//! A shelf, its collector, and the right to put a thing there.
ghost use Rattle.std.specs.Prelude.{◌≡◌, ◌<◌, ℕ, List, [], ◌∷◌, ◌++◌, IfOk, IfSome, IfNone, None, replicate};
ghost use Rattle.std.specs.Prelude.{vec_capacity, vec_len};
ghost use Rattle.shelf.specs.Shelves.{WasAbsent, WasTaken, collector_of};
ghost use Rattle.shelf.specs.Views.{AreNumbers, numbers_below};

use crate::rule::{Put, Reserve, Restore, ShelfSeat, ShelfTable, Shelved, SplitFirst, Take};
use atomic_table::Table;
use std::alloc::{AllocError, Global};
use std::marker::Model;

/// The word of a thing that isn't on the shelf. It isn't 0, since else the loop that writes all words would become a
/// call of memset, which a kernel may not have.
const ABSENT: u64 = 1;

/// The word of a thing that is on the shelf.
const PRESENT: u64 = 2;

/// A shelf: a word and a slot for each number.
#[derive(Drop)]
pub struct Shelf<T: Shelved> {
    table: ShelfTable<T>,
}

impl<T: Shelved> Model for Shelf<T> {
    ghost use Rattle.std.specs.Prelude.{◌≡◌};
    ghost use Rattle.shelf.specs.Shelves.{ShelfId, shelf_id};

    ghost Value = { ShelfId T.Tag };

    ghost view = { λ s. shelf_id s.table.shared.table_id s.table.shared.key };

    ghost invariant = { λ s. (s.table.shared.table_id.words ≡ T.spots s.table.shared.key)
        × (s.table.shared.table_id.slots ≡ T.spots s.table.shared.key) };
}

/// Takes things from a shelf. A contract sees the shelf, the log as far as the collector knows it, and the numbers of
/// the things that it has in hand.
#[derive(Drop)]
pub struct Collector<T: Shelved> {
    seat: ShelfSeat<T>,
}

impl<T: Shelved> Model for Collector<T> {
    ghost use Rattle.shelf.specs.Shelves.{CollectorOf, collector_of, shelf_id};
    ghost use Rattle.shelf.specs.Steps.{IsCollecting};
    ghost use Rattle.shelf.specs.Views.{AreNumbers, log_of, in_hand};

    ghost Value = { CollectorOf T T.Tag };

    ghost view = { λ c. collector_of (shelf_id c.seat.table_id c.seat.me.0.tag)
        (log_of c.seat.me.0.role) (in_hand c.seat.me.0.role) };

    ghost invariant = { λ c. IsCollecting c.seat.me
        × AreNumbers c.seat.table_id.slots (in_hand c.seat.me.0.role) };
}

/// The right to put the thing with a number on a shelf, once.
#[derive(Drop)]
pub struct Slip<T: Shelved> {
    seat: ShelfSeat<T>,
}

impl<T: Shelved> Model for Slip<T> {
    ghost use Rattle.std.specs.Prelude.{◌<◌};
    ghost use Rattle.shelf.specs.Shelves.{SlipOf, shelf_id, slip_of};
    ghost use Rattle.shelf.specs.Steps.{IsLent};
    ghost use Rattle.shelf.specs.Views.{number_of};

    ghost Value = { SlipOf T.Tag };

    ghost view = { λ s. slip_of (shelf_id s.seat.table_id s.seat.me.0.tag) (number_of s.seat.me.0.role) };

    ghost invariant = { λ s. IsLent s.seat.me × (number_of s.seat.me.0.role < s.seat.table_id.slots) };
}

/// Returns the words of an empty shelf. Fails if the allocation fails.
fn words(alloc: Global, spots: usize) -> Result<Vec<u64>, AllocError>
    ensures { IfOk result (λ v. v.items ≡ replicate spots 1) }
{
    let mut words = Vec::with_capacity(alloc, spots)?;
    for made in 0..spots {
        words.push_reserved(ABSENT);
    }
    Ok(words)
}

/// Adds an empty slot.
#[inline(never)] // else the loop that makes all slots becomes a call of memset, which a kernel may not have
fn add_empty<T>(slots: &mut Vec<Option<T>>)
    requires { vec_len slots.old < vec_capacity slots.old }
    ensures items { slots.new.items ≡ slots.old.items ++ None ∷ [] }
    ensures capacity { vec_capacity slots.new ≡ vec_capacity slots.old }
{
    slots.push_reserved(None);
}

/// Returns the empty slots of a shelf. Fails if the allocation fails.
fn slots<T>(alloc: Global, spots: usize) -> Result<Vec<Option<T>>, AllocError>
    ensures { IfOk result (λ v. v.items ≡ replicate spots None) }
{
    let mut slots = Vec::with_capacity(alloc, spots)?;
    for made in 0..spots {
        add_empty(&mut slots);
    }
    Ok(slots)
}

impl<T: Shelved + Drop> Shelf<T> {
    /// Creates an empty shelf with `spots` numbers, and its collector, which has all things in hand. Fails if an
    /// allocation fails.
    pub fn new(
        alloc: Global,
        spots: usize,
        tag: &T::Tag,
    ) -> Result<(Shelf<T>, Collector<T>), AllocError>
        requires { spots ≡ T.spots tag.now }
        ensures { IfOk result (λ r. (r.0.tag ≡ tag.now) × (r.1 ≡ collector_of r.0 [] (numbers_below spots))) }
    {
        let words = words(alloc, spots)?;
        let slots = slots(alloc, spots)?;
        match Table::new(alloc, words.as_slice(), slots, tag) {
            Ok((table, seat)) => Ok((Shelf { table }, Collector { seat })),
            Err(_) => Err(AllocError),
        }
    }

    /// Lends out the first thing that the collector has in hand: returns the right to put it on the shelf.
    pub fn lend(&self, collector: &mut Collector<T>) -> Slip<T>
        requires shelf { collector.old.shelf ≡ self.now }
        requires some { (k : ℕ) × (ks : List ℕ) × (collector.old.in_hand ≡ k ∷ ks) }
        ensures shelf { (collector.new.shelf ≡ self.now) × (result.shelf ≡ self.now) }
        ensures log { collector.new.log ≡ collector.old.log }
        ensures lent { collector.old.in_hand ≡ result.number ∷ collector.new.in_hand }
    {
        let seat = self
            .table
            .shared
            .split_seat::<SplitFirst>(&mut collector.seat);
        Slip { seat }
    }

    /// Puts a thing on the shelf.
    pub fn put(&self, slip: Slip<T>, number: usize, thing: T)
        requires shelf { slip.shelf ≡ self.now }
        requires number { slip.number ≡ number }
        requires fits { T.fits self.now.tag number thing }
    {
        let Slip { mut seat } = slip;
        let shared = &self.table.shared;
        shared.load::<Reserve>(&mut seat, number);
        let old = shared.exchange(&mut seat, number, Some(thing));
        let None = old else { unreachable!() };
        shared.store::<Put>(&mut seat, number, PRESENT);
    }

    /// Takes the thing with this number from the shelf, and the collector then has it in hand. Returns `None` if it
    /// isn't there at some moment of this call, up to which the collector learns the log.
    pub fn take(&self, collector: &mut Collector<T>, number: usize) -> Option<T>
        requires shelf { collector.old.shelf ≡ self.now }
        requires number { number < T.spots self.now.tag }
        ensures shelf { collector.new.shelf ≡ self.now }
        ensures numbers { AreNumbers (T.spots self.now.tag) collector.new.in_hand }
        ensures fits { IfSome result (λ x. T.fits self.now.tag number x) }
        ensures taken { IfSome result (λ x. WasTaken number x collector.old collector.new) }
        ensures absent { IfNone result (WasAbsent number collector.old collector.new) }
    {
        let shared = &self.table.shared;
        let seat = &mut collector.seat;
        if shared.swap::<Take>(seat, number, ABSENT) == ABSENT {
            return None;
        }
        let thing = shared.exchange(seat, number, None).unwrap();
        shared.load::<Restore>(seat, number);
        Some(thing)
    }
}
