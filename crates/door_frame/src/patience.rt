//! Which polls a place leaves out: the next ones after a miss. The thread that the place waits for then sleeps or has no
//! core, and a poll only takes time. To poll is here to do so for `POLLS` spin hints; a poll missed if the place sleeps
//! after it.
use std::sync::atomic::{AtomicU16, Ordering};

/// A place leaves out at most this many polls one after another, so that a place whose polls would be hits again finds
/// this out.
const MOST: u16 = 255;

/// What a place knows of its last polls. Performance only; not part of any contract. Only the thread that has the place
/// uses it.
#[derive(Drop)]
pub struct Patience {
    /// The number of polls that are left out after the last one: after n misses in a row 2^n - 1, at most `MOST`. After
    /// a hit it is 0.
    misses: AtomicU16,
    /// The number of polls that are still to be left out.
    skips: AtomicU16,
}

impl Patience {
    /// Creates the record of a place that hasn't polled yet: it leaves out no poll.
    pub fn new() -> Patience {
        Patience {
            misses: AtomicU16::new(0),
            skips: AtomicU16::new(0),
        }
    }

    /// Returns true if the place is to poll, and false if it leaves out this poll.
    pub fn may_poll(&self) -> bool {
        let skips = self.skips.load(Ordering::Relaxed);
        if skips == 0 {
            return true;
        }
        self.skips.store(skips - 1, Ordering::Relaxed);
        false
    }

    /// Records that the place polled, and whether that was a hit or a miss.
    pub fn has_polled(&self, is_hit: bool) {
        let last = self.misses.load(Ordering::Relaxed);
        let misses = if is_hit {
            0
        } else if last < MOST {
            2 * last + 1
        } else {
            MOST
        };
        self.misses.store(misses, Ordering::Relaxed);
        self.skips.store(misses, Ordering::Relaxed);
    }
}
