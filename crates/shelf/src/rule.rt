//! The rule of a shelf's table, and its steps.
ghost use Rattle.shelf.specs.Rule.{ShelfInvariant, all_in_hand};
ghost use Rattle.shelf.specs.Steps.{reserves, puts, takes, restores};
ghost use Rattle.shelf.specs.Views.{behind_first, first_lent};

use crate::view::View;
use atomic_table::{Play, Seat, Split, Table, TableRule};
use std::alloc::Global;
use std::marker::PhantomData;

/// What a shelf may hold.
pub trait Shelved {
    ghost use Rattle.std.specs.Prelude.{ℕ};

    /// What is fixed when a shelf is made.
    type Tag;

    /// How many numbers the shelf has.
    ghost spots: { Self.Tag → ℕ };

    /// A fact about each thing on the shelf, by the shelf's tag and the number of the thing.
    ghost fits: { Self.Tag → ℕ → Self → Type 0 };
}

/// The rule over the words, the slots and what all seats know.
pub struct ShelfRule<T> {
    of: PhantomData<T>,
}

impl<T: Shelved> TableRule<Option<T>, View<T, T::Tag>, T::Tag> for ShelfRule<T> {
    ghost holds = { λ tag. ShelfInvariant tag (T.spots tag) (T.fits tag) };

    ghost first = { λ tag. all_in_hand tag (T.spots tag) };
}

/// The table of a shelf: one word and one slot for each number.
pub(crate) type ShelfTable<T> = Table<
    Option<T>,
    View<T, <T as Shelved>::Tag>,
    <T as Shelved>::Tag,
    ShelfRule<T>,
    Global,
>;

/// A seat of that table.
pub(crate) type ShelfSeat<T> = Seat<Option<T>, View<T, <T as Shelved>::Tag>>;

/// A seat that may put a thing takes the slot of that thing, which is empty.
pub(crate) struct Reserve;

impl<T: Shelved> Play<Option<T>, View<T, T::Tag>> for Reserve {
    ghost then = { reserves };
}

/// It puts the slot back with the thing: the thing is on the shelf.
pub(crate) struct Put;

impl<T: Shelved> Play<Option<T>, View<T, T::Tag>> for Put {
    ghost then = { puts };
}

/// The collector takes the slot of a thing, if the thing is on the shelf, and learns the log.
pub(crate) struct Take;

impl<T: Shelved> Play<Option<T>, View<T, T::Tag>> for Take {
    ghost then = { takes T.fits };
}

/// The collector puts the slot back, which is empty.
pub(crate) struct Restore;

impl<T: Shelved> Play<Option<T>, View<T, T::Tag>> for Restore {
    ghost then = { restores };
}

/// Splits off the right to put the first thing that the collector has in hand.
pub(crate) struct SplitFirst;

impl<T: Shelved> Split<View<T, T::Tag>> for SplitFirst {
    ghost left = { behind_first };

    ghost right = { first_lent };
}
