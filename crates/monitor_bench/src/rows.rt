//! The rows of the doors as data, and the door of each row, made with its data and of the kind that is measured.
ghost use Rattle.std.specs.Prelude.{All, IfOk};
ghost use Rattle.hoare_law.specs.Priorities.{nobody};

use crate::buffers::buffered;
use crate::doors::{Act, Load, Solo, count_with};
use crate::fairness::Others;
use crate::mesa::mesa_buffered;
use crate::mixed::WORKERS;
use crate::tell;
use crate::turns::Counter;
use crate::visits::{Visits, show, visited};
use anyhow::Context;
use baton_door::door::Door;
use baton_door::place::DoorOut;
use hoare_law::data::MonitorData;
use hoare_law::monitor::Monitor;
use hoare_law::unconstrained::Unconstrained;
use plain_schedulers::buffer::Buffer;
use plain_schedulers::buffer::mesa::MesaBuffer;
use std::alloc::{AllocError, Global};
use std::io;
use std::rt::Clock;
use std::sync::Wait;
use std::thread::Threads;
use std::time::Duration;
use ticket_door::door::TicketDoor;
use ticket_door::place::TicketOut;

/// The kind of door that is measured.
#[derive(Clone, Copy)]
pub enum DoorKind {
    /// The baton door.
    Baton,
    /// The ticket door, which admits entering threads in the order of their tickets.
    Ticket,
}

// What is measured.
#[derive(Clone, Copy)]
enum Data {
    // A counter.
    Counter(Load),
    // A buffer with Hoare's conditions.
    Buffer,
    // A buffer with Mesa conditions.
    MesaBuffer,
}

// A row of the measurements.
#[derive(Clone, Copy)]
struct Row {
    // Its name in the output.
    name: &'static str,
    // Number of places of its door.
    places: usize,
    // What is measured there.
    data: Data,
    // Divisor of TURNS: the load is done TURNS / `part` times, at least once.
    part: u64,
    // Number of acts each time that the load is done. The figure is the time of one act.
    acts: u64,
}

macro_rules! row {
    ($name:literal, $places:literal, $data:expr, $part:literal, $acts:expr) => {
        Row {
            name: $name,
            places: $places,
            data: $data,
            part: $part,
            acts: $acts,
        }
    };
}

// A counter with which one thread does this.
macro_rules! one_thread {
    ($solo:expr) => {
        Data::Counter(Load::OneThread($solo))
    };
}

// A counter whose threads do this.
macro_rules! threads {
    ($act:expr) => {
        Data::Counter(Load::Threads($act))
    };
}

// Number of cells of a buffer.
const RING: usize = 16;

const ROWS: &[Row] = &[
    row!("enter_leave", 1, one_thread!(Solo::Enter), 1, 1),
    row!("enter_leave_2", 2, threads!(Act::Enter), 10, 2),
    row!("enter_leave_4", 4, threads!(Act::Enter), 10, 4),
    row!("enter_leave_8", 8, threads!(Act::Enter), 10, 8),
    row!("hand_over", 2, threads!(Act::HandOver), 100, 1),
    row!("buffer_1_1", 2, Data::Buffer, 100, 1),
    row!("buffer_4_4", 8, Data::Buffer, 100, 4),
    row!("waiting_16", 17, threads!(Act::Rounds), 1000, 16),
    row!("chain_8", 9, threads!(Act::Chain), 1000, 8),
    row!("mixed_9", 9, threads!(Act::Mix), 1000, WORKERS),
    row!("mesa_buffer_1_1", 2, Data::MesaBuffer, 100, 1),
    row!("mesa_buffer_4_4", 8, Data::MesaBuffer, 100, 4),
    row!("try_enter", 1, one_thread!(Solo::TryFree), 1, 1),
    row!("try_enter_no", 2, one_thread!(Solo::TryHeld), 1, 1),
];

/// Returns the error that reports out of memory. It also reports a refused door or buffer, and a missing place.
pub fn no_memory() -> io::Error {
    io::Error::from(AllocError)
}

// Creates a baton door with the data `state`. Returns it with its places. Every refusal is reported as `no_memory`.
fn baton<D: MonitorData + Send + Drop>(
    alloc: Global,
    state: D,
    places: usize,
) -> io::Result<(Door<D>, Vec<DoorOut<D>>)>
    requires { D.rest state nobody }
    ensures { IfOk result (λ r. All (⟦<Door<D> as Monitor<D>>⟧.is_of r.0) r.1.items) }
{
    match Door::make(alloc, state, places) {
        Ok(made) => Ok(made),
        Err(_refused) => Err(no_memory()),
    }
}

// Creates a ticket door with the data `state`. Returns it with its places. Every refusal is reported as `no_memory`.
fn ticket<D: MonitorData + Send + Drop>(
    alloc: Global,
    state: D,
    places: usize,
) -> io::Result<(TicketDoor<D>, Vec<TicketOut<D>>)>
    requires { D.rest state nobody }
    ensures { IfOk result (λ r. All (⟦<TicketDoor<D> as Monitor<D>>⟧.is_of r.0) r.1.items) }
{
    match TicketDoor::make(alloc, state, places) {
        Ok(made) => Ok(made),
        Err(_refused) => Err(no_memory()),
    }
}

// Makes a door of this kind with these data and this number of places, and does the work there. Returns what the work
// returns.
macro_rules! on_places {
    ($kind:ident, $rt:ident, $alloc:ident, $data:expr, $places:expr, $work:ident($($more:expr),*)) => {{
        let data = $data;
        match $kind {
            DoorKind::Baton => {
                let (door, places) = baton($alloc, data, $places)?;
                $work($rt, &door, places, $($more),*)
            }
            DoorKind::Ticket => {
                let (door, places) = ticket($alloc, data, $places)?;
                $work($rt, &door, places, $($more),*)
            }
        }
    }};
}

// Measures a counter.
fn counter_row<R: Clock + Threads + Wait + Sync>(
    rt: &R,
    alloc: Global,
    kind: DoorKind,
    places: usize,
    load: Load,
    turns: u64,
) -> anyhow::Result<(Duration, Others)> {
    let counter: Counter = Unconstrained { value: 0 };
    on_places!(kind, rt, alloc, counter, places, count_with(load, turns))
}

fn ring(alloc: Global) -> io::Result<Buffer<u64>>
    ensures { IfOk result (λ b. ⟦<Buffer<u64> as MonitorData>⟧.rest b nobody) }
{
    match Buffer::make(alloc, RING) {
        Ok(buffer) => Ok(buffer),
        Err(_refusal) => Err(no_memory()),
    }
}

// Measures a buffer with Hoare's conditions.
fn buffer_row<R: Clock + Threads + Wait + Sync>(
    rt: &R,
    alloc: Global,
    kind: DoorKind,
    places: usize,
    turns: u64,
) -> anyhow::Result<Duration> {
    on_places!(kind, rt, alloc, ring(alloc)?, places, buffered(turns))
}

fn mesa_ring(alloc: Global) -> io::Result<MesaBuffer<u64>>
    ensures { IfOk result (λ b. ⟦<MesaBuffer<u64> as MonitorData>⟧.rest b nobody) }
{
    match MesaBuffer::make(alloc, RING) {
        Ok(buffer) => Ok(buffer),
        Err(_refusal) => Err(no_memory()),
    }
}

// Measures a buffer with Mesa conditions.
fn mesa_row<R: Clock + Threads + Wait + Sync>(
    rt: &R,
    alloc: Global,
    kind: DoorKind,
    places: usize,
    turns: u64,
) -> anyhow::Result<Duration> {
    on_places!(
        kind,
        rt,
        alloc,
        mesa_ring(alloc)?,
        places,
        mesa_buffered(turns)
    )
}

// Returns how long the row's load takes, done `turns` times.
fn time_of<R: Clock + Threads + Wait + Sync>(
    rt: &R,
    alloc: Global,
    kind: DoorKind,
    row: Row,
    turns: u64,
) -> anyhow::Result<Duration> {
    let places = row.places;
    match row.data {
        Data::Counter(load) => Ok(counter_row(rt, alloc, kind, places, load, turns)?.0),
        Data::Buffer => buffer_row(rt, alloc, kind, places, turns),
        Data::MesaBuffer => mesa_row(rt, alloc, kind, places, turns),
    }
}

/// Measures all rows on a door of this kind, and prints a line for each, with the time of one act; then how many others
/// enter between two visits of a place, with eight places. Returns an error, with the row's name, if a row can't be
/// measured, or if printing fails.
pub fn measure<R: Print + Clock + Threads + Wait + Sync>(
    rt: &R,
    alloc: Global,
    kind: DoorKind,
    turns: u64,
) -> anyhow::Result<()> {
    for row in ROWS {
        let turns = (turns / row.part).max(1);
        let spent = time_of(rt, alloc, kind, *row, turns).context(row.name)?;
        tell(rt, row.name, "", spent, turns.saturating_mul(row.acts))?;
    }
    let load = Load::Threads(Act::CountOthers);
    let (_spent, others) = counter_row(rt, alloc, kind, 8, load, turns / 10)?;
    Ok(others.show(rt)?)
}

/// Measures visits of some length on a door of this kind, and prints a line for each figure. Returns an error if the
/// visits can't be made, or if printing fails.
pub fn measure_visits<R: Print + Clock + Threads + Wait + Sync>(
    rt: &R,
    alloc: Global,
    kind: DoorKind,
    visits: Visits,
) -> io::Result<()> {
    let counter: Counter = Unconstrained { value: 0 };
    let (spent, met) = on_places!(
        kind,
        rt,
        alloc,
        counter,
        visits.threads,
        visited(alloc, visits)
    )?;
    show(rt, alloc, visits, spent, met)
}
