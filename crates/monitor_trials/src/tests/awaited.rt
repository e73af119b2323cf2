//! What a test awaits: turns that other places give, and processes that wait. If that doesn't happen in time, the test
//! fails.
ghost use Rattle.std.specs.Prelude.{◌≡◌};

use hoare_law::data::MonitorData;
use hoare_law::monitor::Monitor;
use hoare_law::waits::Waits;
use std::process::Abort;
use std::rt::Clock;
use std::sync::Wait;
use std::sync::atomic::{AtomicUsize, Ordering};
use std::thread;
use std::time::{Duration, Instant};

/// The time that a test waits for its threads, in seconds.
const LIMIT: u64 = 25;

/// The most visits by which a place polls whether others wait. Alone these take some fifteen seconds; on an
/// oversubscribed machine `LIMIT` comes first. (A million was too few: with three busy threads every third run of the
/// pool's rows reached it.)
const VISITS: u32 = 40_000_000;

/// The most polls of a turn, a millisecond apart.
const POLLS: u32 = 1_000_000;

/// The turn that was given last, or 0 if none was.
#[derive(Drop)]
pub struct Turns(AtomicUsize);

impl Turns {
    /// Creates the turns of a row, of which none is given yet.
    pub fn new() -> Turns {
        Turns(AtomicUsize::new(0))
    }

    /// Gives the turn, and with it all turns before.
    pub fn give(&self, turn: usize) {
        self.0.store(turn, Ordering::SeqCst);
    }

    /// Gives the turn after the last one.
    pub fn give_next(&self) {
        self.0.fetch_add(1, Ordering::SeqCst);
    }

    /// Returns true if the turn was given.
    pub fn has_come(&self, turn: usize) -> bool {
        self.0.load(Ordering::SeqCst) >= turn
    }

    /// Sleeps until the turn is given. Fails the test if that isn't so in `LIMIT` seconds, or if there is no clock.
    pub fn await_turn<R: Abort + Clock>(&self, rt: &R, turn: usize) {
        if let Ok(start) = Instant::now(rt) {
            for _ in 0..POLLS {
                if self.has_come(turn) {
                    return;
                }
                let Ok(spent) = start.elapsed(rt) else { break };
                if spent.as_secs() >= LIMIT {
                    break;
                }
                thread::sleep(rt, Duration::from_millis(1));
            }
        }
        panic!(rt; "a turn was not given within the limit")
    }
}

/// Returns the number of waiters on all conditions together.
pub fn count_waiting<D: MonitorData, M: Monitor<D>>(m: &M, inside: &M::In) -> usize
    requires { M.is_of_in m.now inside.now }
{
    let lists = m.lists(inside);
    (0..D::CONDITIONS).fold(0usize, |sum, c| sum.saturating_add(lists.count(c)))
}

/// Enters and leaves until `waiting` processes wait, on all conditions together, and then returns the place inside.
/// Fails the test if that isn't so within `VISITS` visits. Yields after each visit.
pub fn watch<D: MonitorData, R: Wait + Abort, M: Monitor<D>>(
    rt: &R,
    m: &M,
    out: M::Out,
    waiting: usize,
) -> M::In
    requires { M.is_of m.now out }
    ensures of { M.is_of_in m.now result }
    ensures place { M.place_in result ≡ M.place out }
    ensures rest { D.rest (M.data_in result) (M.lists_in result) }
{
    let mut out = out;
    for _ in 0..VISITS {
        let inside = m.enter(rt, out);
        if count_waiting(m, &inside) == waiting {
            return inside;
        }
        out = m.leave(rt, inside);
        thread::yield_now();
    }
    panic!(rt; "the others don't wait")
}
