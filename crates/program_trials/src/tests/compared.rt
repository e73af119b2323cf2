//! The comparisons that the tests use.

use std::fmt::{Debug, Display};
use std::panic::Expect;
use std::process::Abort;

/// Fails the test if `found` isn't `wanted`. (The checker takes some two seconds for each `assert_eq!` in a body, and
/// half a second for a call of this function.)
pub fn expect_same<T: Copy + Debug + PartialEq, R: Abort>(rt: &R, found: T, wanted: T) {
    assert_eq!(rt; found, wanted);
}

/// Fails the test if the `Display` text of `shown` isn't `text`.
pub fn expect_text<R: Abort + AllocGlobal, T: Display>(rt: &R, shown: &T, text: &str) {
    let found = format!(in rt.alloc(); "{shown}").expect(rt, "memory for a text");
    expect_same(rt, found.as_str(), text);
}
