//! What the tests of monitors share: a monitor of one thread (`fake`), on which the procedures of any monitor run, and a
//! number as data (`tally`). What the other processes leave in the monitor of one thread is given beforehand. No
//! function here fails a test: it returns what was refused.
#![tactic(auto)]

pub mod fake;
mod steps;
pub mod tally;
