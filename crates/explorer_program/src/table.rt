//! The philosophers' table of the cookbook: three neighbours eat. The two outer philosophers may take turns, so that the
//! philosopher between them waits.
ghost use Rattle.std.specs.Prelude.{◌<◌};

use cookbook::table::Table;
use hoare_law::monitor::Monitor;
use order_explorer::{Explored, Place, Program};
use std::alloc::Global;
use std::sync::Wait;

/// The philosophers at the seats 0, 1 and 2. The philosopher at seat 1 eats once, and the two others three times.
#[derive(Clone, Copy)]
pub struct Supper;

// Eats `meals` times. The answer is 1, or 0 if the last `get_up` was refused or `meals` is 0.
fn eat<R: Wait, M: Monitor<Table>>(
    rt: &R,
    m: &M,
    out: M::Out,
    seat: usize,
    meals: u32,
) -> (M::Out, u64)
    requires of { M.is_of m.now out }
    requires seat { seat < 5 }
    ensures { M.is_of m.now result.0 }
{
    let mut out = out;
    let mut answer = 0u64;
    for _ in 0..meals {
        out = Table::sit_down(m, rt, out, seat);
        let (again, got_up) = Table::get_up(m, rt, out, seat);
        out = again;
        answer = u64::from(got_up.is_ok());
    }
    (out, answer)
}

impl Program<Table, Explored<Table>> for Supper {
    fn threads(&self) -> usize {
        3
    }

    fn open(&self, _alloc: Global) -> Option<Table> {
        Some(Table::new())
    }

    fn act<R: Wait>(
        &self,
        rt: &R,
        m: &Explored<Table>,
        out: Place<Table>,
        number: usize,
    ) -> (Place<Table>, u64)
        requires { ⟦<Explored<Table> as Monitor<Table>>⟧.is_of m.now out }
        ensures { ⟦<Explored<Table> as Monitor<Table>>⟧.is_of m.now result.0 }
    {
        let meals = if number == 1 { 1 } else { 3 };
        eat(rt, m, out, number % 5, meals)
    }

    fn is_right(&self, _left: &Table, answers: &[u64]) -> bool {
        !answers.contains(&0)
    }
}
