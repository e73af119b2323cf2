//! How an entering thread waits until its ticket is served, and what wakes it.
//!
//! A thread whose turn is near polls for a while, and then sleeps. All others sleep at once. No sleep has a time limit.
//! Each ticket that is waited for has a word of its own: `ASLEEP` if its thread may sleep, else `AWAKE`. No contract
//! depends on these words. docs/WAKING.md has the steps, and why no wake-up is lost.
//!
//! A thread that serves a ticket also wakes the thread that is then next, if it sleeps: that wake-up lasts while the
//! served thread visits. Nothing depends on it. If its turn hasn't come when it has polled, the thread sleeps again, and
//! is woken when it is served.
use crate::door::RawTicketDoor;
use crate::words::{SERVING, SHUT, TURN};
use crossbeam_utils::CachePadded;
use door_frame::patience::Patience;
use door_frame::polling::POLLS;
use hoare_law::data::MonitorData;
use std::sync::Wait;
use std::sync::atomic::{AtomicU64, Ordering};
use std::{array, hint};

/// The number of turns before its own at which a thread begins to poll. As many threads may poll at once, beside the
/// thread inside.
const AHEAD: u64 = 3;

/// The number of turns after which a thread sleeps at once, if it isn't next, and no thread slept meanwhile. Threads
/// that only poll keep their cores. A thread that has left, and loses its core to one of them, would get none for its
/// next ticket until a time slice ends, and others would visit tens of thousands of times.
const ALL_AWAKE: u64 = 64;

/// The number of words. The tickets that are waited for are at most 64 in a row, one for each place, so no two of them
/// have the same word. That holds also if their numbers wrap, since 64 divides 2^63, the number of turns.
const WORDS: usize = 64;

/// The word of a ticket whose thread doesn't sleep, or was woken; or that no thread has.
const AWAKE: u64 = 0;

/// The word of a ticket whose thread may sleep.
const ASLEEP: u64 = 1;

/// The words of the tickets that are waited for. Not part of any contract.
#[derive(Drop)]
pub(crate) struct WaitingRoom {
    /// The number of threads that sleep, are about to sleep, or were woken. A thread that releases the monitor reads
    /// only this if it is 0.
    sleepers: AtomicU64,
    /// What SERVING was when a thread last went to sleep.
    slept: AtomicU64,
    /// The word of a ticket is at its number modulo `WORDS`.
    words: [AtomicU64; WORDS],
}

impl WaitingRoom {
    /// Creates the words, on cache lines of their own.
    pub(crate) fn new() -> CachePadded<WaitingRoom> {
        CachePadded::new(WaitingRoom {
            sleepers: AtomicU64::new(0),
            slept: AtomicU64::new(0),
            words: array::from_fn(|_| AtomicU64::new(AWAKE)),
        })
    }

    /// Returns the word of `turn`. The gate may be shut.
    fn word(&self, turn: u64) -> &AtomicU64 {
        &self.words[(turn / TURN % WORDS as u64) as usize]
    }

    /// Says that the thread with `turn`, which is the caller, may sleep. The caller is to read SERVING before it
    /// sleeps, and to call `depart` then.
    fn announce(&self, turn: u64) {
        self.sleepers.fetch_add(1, Ordering::SeqCst);
        self.word(turn).store(ASLEEP, Ordering::SeqCst);
    }

    /// Says that the thread with `turn`, which is the caller, doesn't sleep any more.
    fn depart(&self, turn: u64) {
        self.word(turn).store(AWAKE, Ordering::SeqCst);
        self.sleepers.fetch_sub(1, Ordering::SeqCst);
    }

    /// Returns true if no thread may sleep.
    #[inline]
    fn is_empty(&self) -> bool {
        self.sleepers.load(Ordering::SeqCst) == 0
    }

    /// Sleeps until the thread with `turn`, which is the caller, is woken, unless it was since `announce`. SERVING was
    /// `serving` since. May return early.
    fn sleep<R: Wait>(&self, rt: &R, turn: u64, serving: u64) {
        self.slept.store(serving, Ordering::Relaxed);
        self.word(turn).park(rt, ASLEEP as u32);
    }

    /// Returns true if the thread with `turn` is to poll, since it is next, or near and a thread slept recently.
    /// SERVING is `serving`.
    fn is_to_poll(&self, turn: u64, serving: u64) -> bool {
        let ahead = turn.wrapping_add(SHUT).wrapping_sub(serving) / TURN;
        let awake = turn.wrapping_sub(self.slept.load(Ordering::Relaxed)) / TURN;
        ahead <= 1 || ahead <= AHEAD && awake <= ALL_AWAKE
    }

    /// Wakes the thread with `turn`, if it may sleep.
    fn wake(&self, turn: u64) {
        let word = self.word(turn);
        if word.load(Ordering::SeqCst) == ASLEEP && word.swap(AWAKE, Ordering::SeqCst) == ASLEEP {
            word.wake_one();
        }
    }
}

impl<D: MonitorData> RawTicketDoor<D> {
    /// Polls for a while whether `turn` has come, if it is near, unless `patience` leaves that out; then sleeps. May
    /// return before the turn has come.
    pub(crate) fn wait_for<R: Wait>(&self, rt: &R, turn: u64, patience: &Patience) {
        let serving = self.table.shared.peek(SERVING);
        if self.waiting_room.is_to_poll(turn, serving) && self.poll_or_skip(turn, patience) {
            return;
        }
        self.waiting_room.announce(turn);
        let serving = self.table.shared.peek(SERVING);
        if serving != turn {
            self.waiting_room.sleep(rt, turn, serving);
        }
        self.waiting_room.depart(turn);
    }

    /// Polls SERVING for a while, unless `patience` leaves that out. Returns true if it reached `turn`.
    fn poll_or_skip(&self, turn: u64, patience: &Patience) -> bool {
        if !patience.may_poll() {
            return false;
        }
        let is_hit = self.poll_for(turn);
        patience.has_polled(is_hit);
        is_hit
    }

    /// Polls SERVING, for longer than a wake-up takes. Returns true if it reached `turn`.
    fn poll_for(&self, turn: u64) -> bool {
        for _ in 0..POLLS {
            if self.table.shared.peek(SERVING) == turn {
                return true;
            }
            hint::spin_loop();
        }
        false
    }

    /// Wakes the thread whose ticket is served now, which is `turn`, and the one that is next, if they may sleep.
    #[inline]
    pub(crate) fn wake_next(&self, turn: u64) {
        if !self.waiting_room.is_empty() {
            self.wake_both(turn);
        }
    }

    /// Wakes the threads with `turn` and with the turn after it, if they may sleep.
    #[inline(never)] // apart, so that a plain leave stays small
    fn wake_both(&self, turn: u64) {
        self.waiting_room.wake(turn);
        self.waiting_room.wake(turn.wrapping_add(TURN));
    }

    /// Wakes the thread whose ticket is served now, if it may sleep. The caller has opened the gate.
    pub(crate) fn wake_served(&self) {
        let turn = self.table.shared.peek(SERVING);
        self.waiting_room.wake(turn);
    }
}
