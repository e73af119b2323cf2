//! The rule of a door's table.
ghost use Rattle.door_frame.specs.Rule.{TableInvariant};
ghost use Rattle.door_frame.specs.Views.{unopened};

use crate::guarded::GuardedBox;
use crate::view::SeatView;
use atomic_table::{Table, TableRule};
use hoare_law::data::MonitorData;
use std::alloc::Global;
use std::marker::PhantomData;

/// What the words of a door mean, as its key determines.
pub trait Words<D, K> {
    ghost use Rattle.std.specs.Prelude.{ℕ, Bool, List};
    ghost use Rattle.hoare_law.specs.declared.event.History.{History};
    ghost use Rattle.hoare_law.specs.Sizes.{Kinds};
    ghost use Rattle.door_frame.specs.Rule.{Tokens};

    /// How many places the door has.
    ghost places: { K → ℕ };

    /// How many conditions the door has, of each kind.
    ghost kinds: { K → Kinds };

    /// Holds of the words before the door opens. The flag is true if the first seat has the slot by then.
    ghost initial: { K → Bool → List ℕ → Type 0 };

    /// Holds if the words of an open door fit the log, and which place has which token.
    ghost words_fit: { K → History D → Tokens → List ℕ → Type 0 };
}

/// The rule over the words, the slot and what all places know.
pub struct Rule<W> {
    of: PhantomData<W>,
}

impl<D: MonitorData, K, W: Words<D, K>> TableRule<Option<GuardedBox<D>>, SeatView<D>, K>
    for Rule<W> {
    ghost holds = { λ key. TableInvariant (W.initial key) (W.words_fit key)
        D.rest D.ready (W.kinds key) (W.places key) };

    ghost first = { λ key. unopened (W.places key) };
}

/// The table of a door. It has one slot.
pub type DoorTable<D, K, W> = Table<Option<GuardedBox<D>>, SeatView<D>, K, Rule<W>, Global>;
