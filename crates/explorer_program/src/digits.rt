//! Threads that append their digits to a number, so that the number left shows the order. Of two programs the last order
//! is bad.
//!
//! The first order goes round the places, and each next order changes the last choice that has a place left. So in the
//! last order each choice admits the last place of the row that begins after the latest place: the latest place itself,
//! if it is to enter, and else the place before it. With four threads of two visits that is 3, 3, 2, 2, 1, 1, 0, 0, and
//! there are 8! / 2^4 = 2520 orders. With five threads of one visit it is 4, 3, 2, 1, 0, and there are 5! = 120 orders:
//! the last thread finds 5432. Three threads of two visits have 6! / 2^3 = 90 orders, none of them bad.

use crate::tally::Tally;
use hoare_law::monitor::{Monitor, PLAIN};
use std::sync::Wait;

/// The number that four threads of two visits leave in their last order.
pub const LAST_OF_FOUR: u64 = 44_332_211;

/// Makes `visits` visits, and in each appends the digit `number` + 1 to the digits that it finds. If it finds the
/// digits `bad`, it waits first, and no process signals it.
pub fn write_digits<R: Wait, M: Monitor<Tally>>(
    rt: &R,
    m: &M,
    out: M::Out,
    visits: u32,
    number: usize,
    bad: Option<u64>,
) -> M::Out
    requires { M.is_of m.now out }
    ensures { M.is_of m.now result }
{
    let digit = (number as u64).wrapping_add(1);
    let mut out = out;
    for _ in 0..visits {
        let mut inside = m.enter(rt, out);
        if bad == Some(m.state(&inside).value) {
            inside = m.wait(rt, inside, 0, PLAIN);
        }
        let data = M::state_mut(&mut inside, m);
        data.value = data.value.wrapping_mul(10).wrapping_add(digit);
        out = m.leave(rt, inside);
    }
    out
}
