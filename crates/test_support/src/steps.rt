//! The steps of the monitor for tests, as loads of its word.
ghost use Rattle.std.specs.Prelude.{◌≡◌};
ghost use Rattle.hoare_law.specs.Events.{with_event};
ghost use Rattle.test_support.specs.Stage.{opened, event_of};

use crate::fake::Fake;
use atomic_table::{Play, Seat, TableRule};
use hoare_law::data::MonitorData;
use hoare_law::event::History;
use std::marker::{Brand, PhantomData};

/// The rule of the monitor's table: a seat begins with the history at the opening. Nothing is asked of the table: each
/// place's facts are about what it knows.
pub(crate) struct Opening;

impl<D: MonitorData> TableRule<(), History<D>, D> for Opening {
    ghost holds = { λ s table. Unit {0} };

    ghost first = { λ s. opened D.CONDITIONS D.MESA s };
}

/// What a place does.
#[derive(Clone, Copy)]
pub(crate) enum Deed {
    Enters,
    Waits { condition: usize, priority: u64 },
    /// Resumes place 0, which waits on the condition, and leaves.
    Passes { condition: usize },
    /// Notifies place 0, which waits on the Mesa condition, and stays inside.
    Calls { condition: usize },
    /// Resumes after a wait on the condition.
    GoesOn { condition: usize },
    Leaves,
}

/// What a step makes of the history that a seat knows. Each call picks it.
pub(crate) trait Telling<D> {
    ghost use Rattle.hoare_law.specs.declared.event.History.{History};

    ghost after: { History D → History D };
}

impl<D> Telling<D> for Brand {
    ghost after = { λ h. h };
}

/// A step after which a seat knows more of the history.
pub(crate) struct Tell<J> {
    of: PhantomData<J>,
}

impl<D, J: Telling<D>> Play<(), History<D>> for Tell<J> {
    ghost then = { λ step me found new. new.0 ≡ J.after me.0 };
}

impl<D: MonitorData> Fake<D> {
    // Takes a step with the `J` of this call, which reads the other arguments.
    fn step<J: Telling<D>>(
        &self,
        seat: &mut Seat<(), History<D>>,
        place: usize,
        deed: Deed,
        state: &D,
    )
        requires { seat.old.table_id ≡ self.now.table.shared.table_id }
        ensures table { seat.new.table_id ≡ seat.old.table_id }
        ensures front { seat.new.me.0 ≡ J.after seat.old.me.0 }
    {
        self.table.shared.load::<Tell<J>>(seat, 0);
    }

    // Adds to what the seat knows the event of `place`: its deed, with the state that it found or left.
    pub(crate) fn tell(&self, seat: &mut Seat<(), History<D>>, place: usize, deed: Deed, state: &D)
        requires { seat.old.table_id ≡ self.now.table.shared.table_id }
        ensures table { seat.new.table_id ≡ seat.old.table_id }
        ensures front { seat.new.me.0 ≡ with_event seat.old.me.0 (event_of place deed state.now) }
    {
        self.step::<Brand>(seat, place, deed, state);
    }
}
