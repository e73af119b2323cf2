//! Measures what the steps of a book of queues cost, on one thread: places wait, and signals resume them, or a notify
//! or a broadcast notifies them.
use crate::tell;
use hoare_law::waits::Waits;
use std::alloc::{AllocError, Global};
use std::io;
use std::rt::Clock;
use std::time::{Duration, Instant};
use wait_book::book::{Book, MOST_CONDITIONS, MOST_PLACES};
use wait_book::steps::{Next, Step};

// The last place, which signals or notifies the others.
const SIGNALLER: u64 = 63;

// The order of the priorities of the waiters, one after the other.
#[derive(Clone, Copy)]
enum Order {
    Equal,
    Rising,
    Falling,
}

impl Order {
    // Returns the priority of place 0 to 62.
    fn priority(self, place: u64) -> u64 {
        match self {
            Order::Equal => 0,
            Order::Rising => place,
            Order::Falling => SIGNALLER.saturating_sub(place),
        }
    }
}

// Which places wait, with priorities in this order.
#[derive(Clone, Copy)]
struct Load {
    // What the names of its two figures end with.
    suffix: &'static str,
    // Number of places that wait: 1 to 63.
    waiters: u64,
    // Number of conditions on which they wait in turn: 1 to 8.
    conditions: u64,
    order: Order,
}

macro_rules! load {
    ($suffix:literal, $waiters:literal, $conditions:literal, $order:ident) => {
        Load {
            suffix: $suffix,
            waiters: $waiters,
            conditions: $conditions,
            order: Order::$order,
        }
    };
}

const LOADS: &[Load] = &[
    load!("", 63, 8, Falling),
    load!("_equal_1", 1, 1, Equal),
    load!("_equal_8", 8, 1, Equal),
    load!("_equal_63", 63, 1, Equal),
    load!("_rising_1", 1, 1, Rising),
    load!("_rising_8", 8, 1, Rising),
    load!("_rising_63", 63, 1, Rising),
    load!("_falling_1", 1, 1, Falling),
    load!("_falling_8", 8, 1, Falling),
    load!("_falling_63", 63, 1, Falling),
];

impl Load {
    // Returns the condition of a place.
    fn condition(self, place: u64) -> u64 {
        place % self.conditions.max(1)
    }

    // Each place enters and waits.
    fn enter_and_wait(self, book: &mut Book) {
        for place in 0..self.waiters {
            let _entered = book.try_step(Step::Enter(place));
            let priority = self.order.priority(place);
            let _waits = book.try_step(Step::Wait(place, self.condition(place), priority));
        }
    }

    // The last place enters, signals `waiters` times, each condition in turn, so that no place waits in the end, and
    // leaves. Each resumed place leaves at once. Returns how many were resumed.
    fn signal_and_leave(self, book: &mut Book) -> u64 {
        let mut resumed = 0u64;
        let _entered = book.try_step(Step::Enter(SIGNALLER));
        for turn in 0..self.waiters {
            let signalled = book.try_step(Step::Signal(SIGNALLER, self.condition(turn)));
            if let Ok(Next::Held(place)) = signalled {
                if place as u64 != SIGNALLER {
                    resumed = resumed.wrapping_add(1);
                    let _left = book.try_step(Step::Leave(place as u64));
                }
            }
        }
        let _left = book.try_step(Step::Leave(SIGNALLER));
        resumed
    }
}

// Measures 63 places that enter and leave, one after another, and prints the figure.
fn measure_visits<R: Print + Clock>(rt: &R, book: &mut Book, rounds: u64) -> io::Result<()> {
    let visits = rounds.saturating_mul(SIGNALLER);
    let start = Instant::now(rt)?;
    for visit in 0..visits {
        let place = visit % SIGNALLER;
        let _entered = book.try_step(Step::Enter(place));
        let _left = book.try_step(Step::Leave(place));
    }
    let spent = start.elapsed(rt)?;
    tell(rt, "book_enter_leave", "", spent, visits)
}

// Lets all places of the load wait and be resumed, some `turns` places in all. Prints what a wait took, and what a
// signal and the leave of the resumed place took.
fn measure_load<R: Print + Clock>(
    rt: &R,
    book: &mut Book,
    load: Load,
    turns: u64,
) -> io::Result<()> {
    let (mut waits, mut signals, mut resumed) = (Duration::ZERO, Duration::ZERO, 0u64);
    for _ in 0..turns / load.waiters.max(1) {
        let start = Instant::now(rt)?;
        load.enter_and_wait(book);
        waits = waits.saturating_add(start.elapsed(rt)?);
        let start = Instant::now(rt)?;
        resumed = resumed.wrapping_add(load.signal_and_leave(book));
        signals = signals.saturating_add(start.elapsed(rt)?);
    }
    tell(rt, "book_enter_wait", load.suffix, waits, resumed)?;
    tell(rt, "book_signal_leave", load.suffix, signals, resumed)
}

// Reads the clock twice in each round, as for each figure of a load, and does nothing between. Prints what a read took.
fn measure_clock<R: Print + Clock>(rt: &R, rounds: u64) -> io::Result<()> {
    let mut spent = Duration::ZERO;
    for _ in 0..rounds {
        let start = Instant::now(rt)?;
        spent = spent.saturating_add(start.elapsed(rt)?);
    }
    tell(rt, "clock", "", spent, rounds)
}

// What the last place does with the waiters.
#[derive(Clone, Copy)]
enum Call {
    // Notifies them one by one.
    Notify,
    // Notifies all of them at once.
    Broadcast,
    // Counts them, and notifies none.
    Count,
}

const CALLS: &[(&str, Call, u64)] = &[
    ("book_notify", Call::Notify, 63),
    ("book_broadcast_1", Call::Broadcast, 1),
    ("book_broadcast_8", Call::Broadcast, 8),
    ("book_broadcast_63", Call::Broadcast, 63),
    ("book_count_1", Call::Count, 1),
    ("book_count_8", Call::Count, 8),
    ("book_count_63", Call::Count, 63),
];

impl Call {
    // The last place, which is inside, does this with the waiters on condition 0. Returns how many calls it made, but 0
    // for a count that finds no waiter.
    fn make(self, book: &mut Book, waiters: u64) -> u64 {
        match self {
            Call::Notify => {
                for _ in 0..waiters {
                    let _called = book.try_step(Step::Notify(SIGNALLER, 0));
                }
                waiters
            }
            Call::Broadcast => {
                let _called = book.try_step(Step::Broadcast(SIGNALLER, 0));
                1
            }
            Call::Count => (book.count(0) as u64).min(1),
        }
    }
}

// The process inside leaves, and so does each process that resumes after it, until the monitor is free.
fn leave_all(book: &mut Book) {
    for _ in 0..=SIGNALLER {
        let Next::Held(place) = book.now() else {
            return;
        };
        let _left = book.try_step(Step::Leave(place as u64));
    }
}

// Measures calls on `waiters` places that wait on condition 0, a Mesa condition, and prints what a call took. The time
// of each round, which has one broadcast, one count, or a notify for each waiter, includes one read of the clock.
fn measure_call<R: Print + Clock>(
    rt: &R,
    book: &mut Book,
    (name, call, waiters): (&str, Call, u64),
    rounds: u64,
) -> io::Result<()> {
    let load = Load {
        waiters,
        ..load!("", 63, 1, Equal)
    };
    let (mut spent, mut calls) = (Duration::ZERO, 0u64);
    for _ in 0..rounds {
        load.enter_and_wait(book);
        let _entered = book.try_step(Step::Enter(SIGNALLER));
        let start = Instant::now(rt)?;
        let made = call.make(book, waiters);
        spent = spent.saturating_add(start.elapsed(rt)?);
        calls = calls.wrapping_add(made);
        let _called = book.try_step(Step::Broadcast(SIGNALLER, 0));
        leave_all(book);
    }
    tell(rt, name, "", spent, calls)
}

// Creates a book of 64 places and 8 conditions. The last `mesa` conditions are Mesa conditions.
fn full_book(alloc: Global, mesa: usize) -> io::Result<Book> {
    match Book::make(alloc, MOST_PLACES, MOST_CONDITIONS, mesa) {
        Ok(book) => Ok(book),
        Err(_) => Err(io::Error::from(AllocError)),
    }
}

// Measures the figures of a book whose conditions are Hoare's, and prints them.
fn measure_hoare<R: Print + Clock>(rt: &R, alloc: Global, turns: u64) -> io::Result<()> {
    let mut book = full_book(alloc, 0)?;
    measure_visits(rt, &mut book, turns / SIGNALLER)?;
    for load in LOADS {
        measure_load(rt, &mut book, *load, turns)?;
    }
    Ok(())
}

// Measures notifies, broadcasts and counts on a book whose conditions are Mesa conditions, and prints the figures.
fn measure_mesa<R: Print + Clock>(rt: &R, alloc: Global, turns: u64) -> io::Result<()> {
    let mut book = full_book(alloc, MOST_CONDITIONS)?;
    for call in CALLS {
        measure_call(rt, &mut book, *call, turns / SIGNALLER)?;
    }
    Ok(())
}

/// Measures all figures of the book and the clock, and prints a line for each, and one with the size of a book. Returns
/// an error if out of memory, if the clock fails or if printing fails.
pub fn measure<R: Print + Clock>(rt: &R, alloc: Global, turns: u64) -> io::Result<()> {
    measure_hoare(rt, alloc, turns)?;
    measure_clock(rt, turns / SIGNALLER)?;
    println!(rt; "size {} bytes", size_of::<Book>())?;
    measure_mesa(rt, alloc, turns)
}
