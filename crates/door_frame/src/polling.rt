//! How long a thread polls before it sleeps.
//!
//! A sleep and its wake-up take some microseconds and a system call each, so a hand-off that arrives while the thread
//! still polls is much cheaper. But a thread that polls occupies a core, which the thread that it waits for may need.
use std::hint;

/// The number of spin hints for which a thread polls before it sleeps: longer than a wake-up takes, which is some 8
/// microseconds. With shorter polls one thread that is woken late sends all threads that wait for it to sleep, and each
/// of these is then late too.
pub const POLLS: u32 = 2000;

/// Lets the time of `hints` spin hints pass.
pub fn pause(hints: u32) {
    for _ in 0..hints {
        hint::spin_loop();
    }
}
