//! The names that the program prints, and what its arguments ask for.
use crate::rows::DoorKind;
use crate::visits::Visits;
use std::io;

/// How the program is called.
pub const USAGE: &str =
    "usage: monitor_bench [[--ticket | --book] TURNS | [--ticket] MICROS THREADS VISITS]";

const NAMES: &str = "\
enter_leave: one thread enters, adds one and leaves
enter_leave_2, _4, _8: 2, 4, 8 threads at once
hand_over: a wait, a signal and the signaller's return, between two threads
buffer_1_1, buffer_4_4: a bounded buffer of 16 cells, 1 or 4 appenders and as many removers
waiting_16: an enter, a wait, a signal and a leave, with 16 processes that wait with priorities. A driver waits until
       all of them wait, and then resumes all
chain_8: one link of a chain of signallers eight deep. A driver waits until all links wait, and then signals the first
mixed_9: a visit of eight threads that wait with priorities, signal, pass and leave, and a ninth that resumes waiters
mesa_buffer_1_1, mesa_buffer_4_4: as buffer_1_1 and buffer_4_4, with Mesa conditions: a waiter that resumes tests again,
       and a process that puts in or takes out an item notifies one waiter and continues
try_enter: as enter_leave, by an attempt. try_enter_no: an attempt while another place is inside
others_largest, _mean, _none: how many others entered between two visits of a place, with eight threads that leave and
       enter again at once: the most, the mean, and how often no other did, of a hundred (the mean is about 7 at most,
       in whatever order they enter)
turns: TURNS for one thread; a tenth for each of several; a hundredth for hand-overs and buffers;
       a thousandth for waiting_16, chain_8 and mixed_9; at least one
with MICROS THREADS VISITS, visits of so many microseconds: each thread polls the clock inside, leaves, and polls it
       as long outside, VISITS times:
visit: the whole time over all visits
late_median: how late a thread entered that had to wait: the time since the thread before it wrote, just before its
       leave, that it leaves; the median, or 0 if none had to wait
with --book, the steps of a book of queues alone, on one thread. Each figure is a mean: of book_broadcast_N,
       book_count_N and clock over TURNS / 63 calls, of all others over TURNS, less an incomplete last round:
book_enter_leave: a place enters and leaves, and no place waits (64 places, 8 conditions)
book_enter_wait: a place enters and waits on the next of eight conditions, with up to 62 others waiting
book_signal_leave: a signal resumes a place, which leaves, with up to 62 others waiting
book_enter_wait_ORDER_N, book_signal_leave_ORDER_N: 1, 8 or 63 wait on one condition, with priorities that are equal,
       rising or falling
clock: one read of the clock. Of its time 1 / N is in each wait and signal, 1 / 63 in book_notify, and all in
       book_broadcast_N and book_count_N
size: the bytes of a book, without those on the heap
book_notify: 63 waiters on a Mesa condition are notified one by one; the mean of a notify with 63, 62, .. 1 waiters
book_broadcast_N: all N waiters on a Mesa condition are notified at once, 1, 8 or 63; these calls alone are measured
book_count_N: N waiters are counted along the chain, as a broadcast does that returns how many it notified
bench/run compares the doors with other monitors";

/// Prints the names of the figures, and how the program is called. Returns an error if printing fails.
pub fn show(rt: &impl Print) -> io::Result<()> {
    println!(rt; "{NAMES}")?;
    println!(rt; "{USAGE}")
}

/// What the arguments ask for.
#[derive(Clone, Copy)]
pub enum Asked {
    /// The names of the figures.
    Names,
    /// The figures of a door of this kind, with this number of turns.
    Door(DoorKind, u64),
    /// The figures of visits on a door of this kind.
    Visits(DoorKind, Visits),
    /// The figures of a book, with this number of turns.
    Book(u64),
    /// The arguments aren't as in `USAGE`.
    Usage,
}

/// Returns what the words after the program's name ask for.
pub fn asked_by(words: &[String]) -> Asked {
    let (flag, numbers) = match words {
        [] => return Asked::Names,
        [flag, numbers @ ..] if flag.as_str().starts_with("--") => (flag.as_str(), numbers),
        numbers => ("", numbers),
    };
    let kind = if flag == "--ticket" {
        DoorKind::Ticket
    } else {
        DoorKind::Baton
    };
    match (flag, numbers) {
        ("--book", [turns]) => turns.parse().map_or(Asked::Usage, Asked::Book),
        ("" | "--ticket", [turns]) => turns.parse().map_or(Asked::Usage, |t| Asked::Door(kind, t)),
        ("" | "--ticket", [micros, threads, each]) => visits_of(micros, threads, each).map_or(
            Asked::Usage,
            |visits| Asked::Visits(kind, visits),
        ),
        _ => Asked::Usage,
    }
}

// Returns the visits that these words ask for, if they are numbers.
fn visits_of(micros: &str, threads: &str, each: &str) -> Option<Visits> {
    Some(Visits {
        micros: micros.parse().ok()?,
        threads: threads.parse().ok()?,
        each: each.parse().ok()?,
    })
}
