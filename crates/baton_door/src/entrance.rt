//! How entering threads sleep, and what wakes them.
//!
//! The entrance has one word, apart from the state word: `ASLEEP` if an entering thread may sleep, else `AWAKE`. No
//! contract depends on it. docs/WAKING.md has the steps, and why no wake-up is lost. Between the swap of `AWAKE` and the
//! next `ASLEEP` no thread is woken, so at most one wake-up is under way, however many threads free the monitor.
use crossbeam_utils::CachePadded;
use std::sync::Wait;
use std::sync::atomic::{AtomicU64, Ordering};

/// The word of the entrance if no thread sleeps there, or if one was woken and hasn't attempted yet.
const AWAKE: u64 = 0;

/// The word of the entrance if an entering thread may sleep.
const ASLEEP: u64 = 1;

/// What the entering threads of a door sleep on. Not part of any contract.
#[derive(Drop)]
pub(crate) struct Entrance {
    /// `AWAKE` or `ASLEEP`.
    word: AtomicU64,
    /// The number of sleepers: of the entering threads that have attempted for a while and aren't in. Each of them
    /// sleeps, is about to sleep, or was woken.
    sleepers: AtomicU64,
}

impl Entrance {
    /// Creates the entrance without a sleeper, on a cache line of its own.
    pub(crate) fn new() -> CachePadded<Entrance> {
        CachePadded::new(Entrance {
            word: AtomicU64::new(AWAKE),
            sleepers: AtomicU64::new(0),
        })
    }

    /// Counts the caller among the sleepers.
    pub(crate) fn arrive(&self) {
        self.sleepers.fetch_add(1, Ordering::SeqCst);
    }

    /// Says that the caller, a sleeper, may sleep. It is to attempt to enter before it sleeps.
    pub(crate) fn announce(&self) {
        self.word.store(ASLEEP, Ordering::SeqCst);
    }

    /// Sleeps until a thread frees the monitor, unless one has since the caller's `announce`. May return early.
    pub(crate) fn sleep<R: Wait>(&self, rt: &R) {
        self.word.park(rt, ASLEEP as u32);
    }

    /// The caller is in, and no longer a sleeper. If there are other sleepers, the thread that frees the monitor is to
    /// wake one.
    pub(crate) fn depart(&self) {
        if self.sleepers.fetch_sub(1, Ordering::SeqCst) > 1 {
            self.announce();
        }
    }

    /// Returns the number of sleepers.
    pub(crate) fn count(&self) -> u64 {
        self.sleepers.load(Ordering::Relaxed)
    }

    /// Returns true if an entering thread may sleep. A thread that frees the monitor calls it after it stored `FREE`.
    #[inline]
    pub(crate) fn may_sleep(&self) -> bool {
        self.word.load(Ordering::SeqCst) == ASLEEP
    }

    /// Wakes one entering thread, if one may sleep.
    pub(crate) fn wake_one(&self) {
        if self.may_sleep() && self.word.swap(AWAKE, Ordering::SeqCst) == ASLEEP {
            self.word.wake_one();
        }
    }
}
