//! The monitor for tests, of one thread.
ghost use Rattle.std.specs.Prelude.{◌≡◌, ◌<◌, ◌≤◌, IfOk, IfSome};
ghost use Rattle.hoare_law.specs.Priorities.{nobody};
ghost use Rattle.test_support.specs.Stage.{opened};
ghost use Rattle.test_support.specs.Answers.{FirstReady};

use crate::steps::{Deed, Opening};
use atomic_table::{Seat, Table};
use hoare_law::data::MonitorData;
use hoare_law::event::History;
use hoare_law::monitor::Monitor;
use hoare_law::waits::Nobody;
use std::alloc::{AllocError, Global};
use std::collections::VecDeque;
use std::snapshot::Snapshot;
use std::sync::Wait;

/// A monitor for tests, of two places. Place 0 is that of the one thread. No process has place 1: the given answers
/// come in its name.
///
/// A wait on one of Hoare's conditions takes the first of the given answers that is ready for it, and resumes as if
/// place 1 had entered, left the data so and passed. A wait on a Mesa condition takes the first answer that is at rest
/// with no process waiting, and resumes as if place 1 had entered, notified the waiter, left the data so and left. If
/// there is no such answer, the wait never returns.
#[derive(Drop)]
pub struct Fake<D: MonitorData> {
    pub(crate) table: Table<(), History<D>, D, Opening, Global>,
    given: Snapshot<VecDeque<D>>,
    ghost sized: { table.shared.table_id.words ≡ 1 },
}

/// Place 0 outside, with the data and the answers that are left.
#[derive(Drop)]
pub struct FakeOut<D: Drop + Send> {
    state: D,
    answers: VecDeque<D>,
    seat: Seat<(), History<D>>,
}

/// Place 0 inside, with the data and the answers that are left.
pub struct FakeIn<D> {
    state: D,
    answers: VecDeque<D>,
    seat: Seat<(), History<D>>,
    lists: Nobody,
}

// Removes and returns the first answer that is ready for a wait on `condition` with `priority`, or `None` if there is
// none. Drops the answers before it.
fn next_ready<D: MonitorData + Drop>(
    answers: &mut VecDeque<D>,
    condition: usize,
    priority: u64,
) -> Option<D>
    requires { condition < D.CONDITIONS }
    ensures { IfSome result
        (λ a. FirstReady (λ d. D.ready condition priority d nobody) answers.old.items a
        answers.new.items) }
{
    while let Some(answer) = answers.pop_front() {
        if answer.ready_holds(condition, priority, &Nobody) {
            return Some(answer);
        }
    }
    None
}

// Removes and returns the first answer that is at rest with no process waiting, or `None` if there is none. Drops the
// answers before it.
fn next_at_rest<D: MonitorData + Drop>(answers: &mut VecDeque<D>) -> Option<D>
    ensures { IfSome result
        (λ a. FirstReady (λ d. D.rest d nobody) answers.old.items a answers.new.items) }
{
    while let Some(answer) = answers.pop_front() {
        if answer.rest_holds(&Nobody) {
            return Some(answer);
        }
    }
    None
}

impl<D: MonitorData + Drop + Send> Fake<D> {
    /// Creates a monitor with the data `state` and the given `answers`. Returns it with its place 0, which is outside.
    /// The data must be at rest with no process waiting, and have 1 to 8 conditions, any number of them Mesa
    /// conditions. Refused with `AllocError` if out of memory.
    pub fn of(
        alloc: Global,
        state: D,
        answers: VecDeque<D>,
    ) -> Result<(Fake<D>, FakeOut<D>), AllocError>
        requires rest { D.rest state nobody }
        requires conditions { (1 ≤ D.CONDITIONS) × (D.CONDITIONS ≤ 8) }
        requires mesa { D.MESA ≤ D.CONDITIONS }
        ensures of { IfOk result (λ r. ⟦<Fake<D> as Monitor<D>>⟧.is_of r.0 r.1) }
        ensures given { IfOk result (λ r. r.0.given.value.items ≡ answers.items) }
        ensures place { IfOk result (λ r. ⟦<Fake<D> as Monitor<D>>⟧.place r.1 ≡ 0) }
        ensures front { IfOk result
            (λ r. ⟦<Fake<D> as Monitor<D>>⟧.front r.1 ≡ opened D.CONDITIONS D.MESA state) }
    {
        let (table, seat) = Table::of_words(alloc, &[0], &state)?;
        let given = Snapshot::of(&answers);
        let out = FakeOut {
            state,
            answers,
            seat,
        };
        Ok((Fake { table, given }, out))
    }
}

impl<D: MonitorData + Drop + Send> Monitor<D> for Fake<D> {
    ghost use Rattle.std.specs.Prelude.{◌≡◌, ◌≢◌, ◌<◌, ℕ, [], refl};
    ghost use Rattle.hoare_law.specs.Priorities.{nobody};
    ghost use Rattle.test_support.specs.Stage.{IsOutside, IsInside};
    ghost use Rattle.test_support.specs.Answers.{IsLeft};
    ghost use Rattle.test_support.specs.Facts.{outside_stands, inside_stands, lists_are, rise};

    type Out = FakeOut<D>;

    type In = FakeIn<D>;

    type Lists = Nobody;

    ghost is_of = { λ m o. (o.seat.table_id ≡ m.table.shared.table_id)
        × IsOutside D.rest D.ready D.CONDITIONS D.MESA o.state o.seat.me.0
        × IsLeft D.rest D.ready m.given.value.items o.seat.me.0.events o.answers.items };

    ghost is_of_in = { λ m i. (i.seat.table_id ≡ m.table.shared.table_id)
        × IsInside D.rest D.ready D.CONDITIONS D.MESA i.seat.me.0
        × IsLeft D.rest D.ready m.given.value.items i.seat.me.0.events i.answers.items };

    ghost place = { λ o. 0 };

    ghost place_in = { λ i. 0 };

    ghost data_in = { λ i. i.state };

    ghost lists_in = { λ i. nobody };

    ghost front = { λ o. o.seat.me.0 };

    ghost front_in = { λ i. i.seat.me.0 };

    ghost refuses = { λ m k f h. ⊥ };

    ghost with_data = { λ i d. record i { state = d } };

    fn enter<R: Wait>(&self, _rt: &R, out: FakeOut<D>) -> FakeIn<D> {
        let FakeOut {
            state,
            answers,
            mut seat,
        } = out;
        self.tell(&mut seat, 0, Deed::Enters, &state);
        FakeIn {
            state,
            answers,
            seat,
            lists: Nobody,
        }
    }

    /// Always enters: the monitor is free whenever place 0 is outside.
    fn try_enter(&self, out: FakeOut<D>) -> Result<FakeIn<D>, FakeOut<D>> {
        let FakeOut {
            state: found,
            answers,
            mut seat,
        } = out;
        self.tell(&mut seat, 0, Deed::Enters, &found);
        Ok(FakeIn {
            state: found,
            answers,
            seat,
            lists: Nobody,
        })
    }

    fn leave<R: Wait>(&self, _rt: &R, inside: FakeIn<D>) -> FakeOut<D> {
        let FakeIn {
            state,
            answers,
            mut seat,
            lists: _,
        } = inside;
        self.tell(&mut seat, 0, Deed::Leaves, &state);
        FakeOut {
            state,
            answers,
            seat,
        }
    }

    fn wait<R: Wait>(
        &self,
        rt: &R,
        inside: FakeIn<D>,
        condition: usize,
        priority: u64,
    ) -> FakeIn<D> {
        let mut inside = inside;
        let waits = Deed::Waits {
            condition,
            priority,
        };
        self.tell(&mut inside.seat, 0, waits, &inside.state);
        if D::CONDITIONS - condition <= D::MESA {
            let Some(state) = next_at_rest(&mut inside.answers) else {
                for _ in rt.forever() {}
                unreachable!()
            };
            self.tell(&mut inside.seat, 1, Deed::Enters, &inside.state);
            self.tell(&mut inside.seat, 1, Deed::Calls { condition }, &state);
            self.tell(&mut inside.seat, 1, Deed::Leaves, &state);
            self.tell(&mut inside.seat, 0, Deed::GoesOn { condition }, &state);
            inside.state = state;
            return inside;
        }
        let Some(state) = next_ready(&mut inside.answers, condition, priority) else {
            for _ in rt.forever() {}
            unreachable!()
        };
        self.tell(&mut inside.seat, 1, Deed::Enters, &inside.state);
        self.tell(&mut inside.seat, 1, Deed::Passes { condition }, &state);
        self.tell(&mut inside.seat, 0, Deed::GoesOn { condition }, &state);
        inside.state = state;
        inside
    }

    fn signal<R: Wait>(&self, _rt: &R, inside: FakeIn<D>, _condition: usize) -> (FakeIn<D>, bool) {
        (inside, false)
    }

    fn signal_leave<R: Wait>(
        &self,
        rt: &R,
        inside: FakeIn<D>,
        _condition: usize,
    ) -> (FakeOut<D>, bool) {
        (self.leave(rt, inside), false)
    }

    fn notify(&self, _inside: &mut FakeIn<D>, _condition: usize) -> bool {
        false
    }

    fn broadcast(&self, _inside: &mut FakeIn<D>, _condition: usize) -> usize {
        0
    }

    fn state<'a>(&self, inside: &'a FakeIn<D>) -> &'a D {
        &inside.state
    }

    fn state_mut<'a>(inside: &'a mut FakeIn<D>, _monitor: &Self) -> &'a mut D {
        &mut inside.state
    }

    fn lists<'a>(&self, inside: &'a FakeIn<D>) -> &'a Nobody {
        &inside.lists
    }

    fn queue(&self, _inside: &FakeIn<D>, _condition: usize) -> bool {
        false
    }

    fn first(&self, _inside: &FakeIn<D>, _condition: usize) -> Option<u64> {
        None
    }

    ghost stands = { λ m o h. outside_stands h.1 };

    ghost stands_in = { λ m i h. inside_stands h.1 };

    ghost lists_are = { λ m i h. lists_are h.1 };

    ghost rise = { λ m i c h. rise c };

    ghost takes_data = { λ i d. refl };

    ghost keeps_of = { λ m i d h. h };

    ghost keeps_place = { λ i d. refl };

    ghost keeps_lists = { λ i d. refl };

    ghost keeps_front = { λ i d. refl };
}
