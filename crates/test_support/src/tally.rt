//! A number as data for tests, without assertions, and what one place does with it.
ghost use Rattle.std.specs.Prelude.{◌≡◌};

use hoare_law::monitor::Monitor;
use hoare_law::unconstrained::Unconstrained;
use hoare_law::waits::Waits;
use std::sync::Wait;

/// A number without assertions, and one condition.
pub type Tally = Unconstrained<u64, 1>;

/// Appends a decimal digit to the tally, modulo 2^64.
pub fn write_digit<M: Monitor<Tally>>(m: &M, inside: M::In, digit: u64) -> M::In
    requires { M.is_of_in m.now inside }
    ensures of { M.is_of_in m.now result }
    ensures place { M.place_in result ≡ M.place_in inside }
{
    let mut inside = inside;
    let tally = M::state_mut(&mut inside, m);
    tally.value = tally.value.wrapping_mul(10).wrapping_add(digit);
    inside
}

/// Adds one to the tally, modulo 2^64.
pub fn add_one<M: Monitor<Tally>>(m: &M, inside: M::In) -> M::In
    requires { M.is_of_in m.now inside }
    ensures of { M.is_of_in m.now result }
    ensures place { M.place_in result ≡ M.place_in inside }
{
    let mut inside = inside;
    let tally = M::state_mut(&mut inside, m);
    tally.value = tally.value.wrapping_add(1);
    inside
}

// Returns true if a place inside finds 0 and no process waits.
fn finds_nobody<M: Monitor<Tally>>(m: &M, inside: &M::In) -> bool
    requires { M.is_of_in m.now inside.now }
{
    let found = m.state(inside).value == 0 && m.lists(inside).count(0) == 0;
    found && !m.queue(inside, 0) && m.first(inside, 0).is_none()
}

/// Makes one attempt to enter, and leaves if it succeeded. Returns the place, and true if it had entered.
pub fn tries_once<R: Wait, M: Monitor<Tally>>(rt: &R, m: &M, out: M::Out) -> (M::Out, bool)
    requires { M.is_of m.now out }
    ensures of { M.is_of m.now result.0 }
    ensures place { M.place result.0 ≡ M.place out }
{
    match m.try_enter(out) {
        Ok(inside) => (m.leave(rt, inside), true),
        Err(out) => (out, false),
    }
}

/// Makes each call that one place can make alone: all but `wait`, `notify` and `broadcast`. No process waits, so
/// nothing is resumed. Returns 1 if each call returned what it should, and leaves 42.
pub fn calls_all<R: Wait, M: Monitor<Tally>>(rt: &R, m: &M, out: M::Out) -> (M::Out, u64)
    requires { M.is_of m.now out }
    ensures of { M.is_of m.now result.0 }
    ensures place { M.place result.0 ≡ M.place out }
{
    let mut inside = m.enter(rt, out);
    let nobody = finds_nobody(m, &inside);
    let tally = M::state_mut(&mut inside, m);
    tally.value = 42;
    let (inside, told) = m.signal(rt, inside, 0);
    let (out, told_leaving) = m.signal_leave(rt, inside, 0);
    let out = m.leave(rt, m.enter(rt, out));
    let (out, came) = tries_once(rt, m, out);
    (out, u64::from(nobody && !told && !told_leaving && came))
}
