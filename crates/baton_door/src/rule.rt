//! What the words of a baton door mean (`BatonWords`), and what proofs learn from its steps `Admit` and `Claim`.
ghost use Rattle.baton_door.specs.Rule.{Initial, WordsFit};
ghost use Rattle.baton_door.specs.Steps.{admits, claims};

use atomic_table::Play;
use door_frame::guarded::GuardedBox;
use door_frame::rule;
use door_frame::rule::Words;
use door_frame::view::SeatView;
use hoare_law::data::MonitorData;
use hoare_law::event::Sizes;

/// A constant value that a door's table stores, its key. From it proofs read the door's numbers of places and
/// conditions.
pub trait DoorKey<D> {
    ghost use Rattle.std.specs.Prelude.{ℕ};
    ghost use Rattle.hoare_law.specs.Sizes.{Kinds};

    /// The number of places of the door.
    ghost places: { Self → ℕ };

    /// The number of conditions of the door, and the number of Mesa conditions among them.
    ghost kinds: { Self → Kinds };
}

/// The number of places as the key: the data's type fixes the conditions.
impl<D: MonitorData> DoorKey<D> for usize {
    ghost use Rattle.hoare_law.specs.Sizes.{kinds_of};

    ghost places = { λ n. n };

    ghost kinds = { λ n. kinds_of D.CONDITIONS D.MESA };
}

/// All sizes as the key: the caller of `make` gives the conditions too.
impl<D> DoorKey<D> for Sizes {
    ghost use Rattle.hoare_law.specs.Sizes.{kinds_of};

    ghost places = { λ s. s.places };

    ghost kinds = { λ s. kinds_of s.conditions s.mesa };
}

/// The meaning of the words of a baton door: the state word says that the monitor is free, that a place holds it, or to
/// which place it is owed.
pub struct BatonWords;

impl<D, K: DoorKey<D>> Words<D, K> for BatonWords {
    ghost places = { λ k. K.places k };

    ghost kinds = { λ k. K.kinds k };

    ghost initial = { λ k. Initial };

    ghost words_fit = { λ k. WordsFit };
}

/// The table of a door: one word in use, the state word, and one slot.
pub(crate) type DoorTable<D, K = usize> = rule::DoorTable<D, K, BatonWords>;

/// The step by which a place enters if the state word is `FREE`.
pub(crate) struct Admit;

impl<D: MonitorData> Play<Option<GuardedBox<D>>, SeatView<D>> for Admit {
    ghost then = { admits D.rest D.ready };
}

/// The step by which a place that waited or signalled gets inside again, if the monitor is owed to it.
pub(crate) struct Claim;

impl<D: MonitorData> Play<Option<GuardedBox<D>>, SeatView<D>> for Claim {
    ghost then = { claims D.rest D.ready };
}
