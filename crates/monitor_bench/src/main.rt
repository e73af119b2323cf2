//! Measures what the calls of a monitor cost, on either kind of door, and what the steps of a book cost.
//!
//! - `monitor_bench` without arguments prints the names of its figures, and how it is called.
//! - `monitor_bench TURNS` measures the baton door, and prints a line `NAME VALUE ns` for each figure, with other units
//!   for how many others enter. With `--ticket` before TURNS it measures the ticket door.
//! - `monitor_bench MICROS THREADS VISITS` measures visits of so many microseconds by so many threads, each of which
//!   makes so many, on the baton door; with `--ticket` before MICROS on the ticket door.
//! - `monitor_bench --book TURNS` measures the book of queues alone, with the clock, and the size of a book in bytes.
//!
//! If the arguments are others, the program prints on standard error how it is called, and ends with status 2.
#![tactic(auto)]

mod asked;
mod book;
mod buffers;
mod doors;
mod fairness;
mod mesa;
mod mixed;
mod rows;
mod tries;
mod turns;
mod visits;

use crate::asked::{Asked, USAGE, asked_by, show};
use std::process::ExitCode;
use std::time::Duration;
use std::{env, io};

// Prints the line of a figure, whose name is in two parts: the time of each of `count` acts, to hundredths of a
// nanosecond.
fn tell<R: Print>(rt: &R, name: &str, suffix: &str, spent: Duration, count: u64) -> io::Result<()> {
    let count = u128::from(count.max(1));
    let hundredths = spent.as_nanos().saturating_mul(100);
    let one = hundredths.saturating_add(count / 2) / count;
    println!(rt; "{name}{suffix} {}.{:02} ns", one / 100, one % 100)
}

fn main(rt: HostRuntime) -> anyhow::Result<ExitCode> {
    let alloc = rt.alloc();
    let words = env::args(&rt)?.collect::<Vec<String>>(alloc)?;
    match asked_by(words.get(1..).unwrap_or_default()) {
        Asked::Names => show(&rt)?,
        Asked::Door(kind, turns) => rows::measure(&rt, alloc, kind, turns)?,
        Asked::Visits(kind, visits) => rows::measure_visits(&rt, alloc, kind, visits)?,
        Asked::Book(turns) => book::measure(&rt, alloc, turns)?,
        Asked::Usage => {
            eprintln!(rt; "{USAGE}")?;
            return Ok(ExitCode::from(2));
        }
    }
    Ok(ExitCode::SUCCESS)
}
