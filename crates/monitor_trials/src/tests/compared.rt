//! What fails a test: values that differ, a value that is shown otherwise, a call that is refused, or isn't.

ghost use Rattle.std.specs.Prelude.{◌≡◌, Ok};

use std::alloc::Global;
use std::fmt::{Debug, Display};
use std::process::Abort;

/// Fails the test if `found` isn't `wanted`. (The checker takes some two seconds for each `assert_eq!` that is written
/// out, and half a second for a call of this function.)
pub fn expect_same<T: Copy + Debug + PartialEq, R: Abort>(rt: &R, found: T, wanted: T) {
    assert_eq!(rt; found, wanted);
}

/// Returns what a call gave. Fails the test if the call was refused. (A `panic!` at a door's type takes the checker some
/// seconds.)
pub fn good<T, E: Drop, R: Abort>(rt: &R, answer: Result<T, E>) -> T
    ensures { answer ≡ Ok result }
{
    let Ok(given) = answer else {
        panic!(rt; "a call was refused")
    };
    given
}

/// Returns why a call was refused. Fails the test if it wasn't.
pub fn refused<T: Drop, E, R: Abort>(rt: &R, answer: Result<T, E>) -> E {
    let Err(why) = answer else {
        panic!(rt; "a call was not refused")
    };
    why
}

/// Fails the test if `value` isn't shown as `wanted`, or if out of memory.
pub fn reads_as<T: Display, R: Abort>(rt: &R, alloc: Global, value: &T, wanted: &str) {
    let Ok(shown) = format!(in alloc; "{value}") else {
        panic!(rt; "no memory")
    };
    expect_same(rt, shown.as_str(), wanted);
}
