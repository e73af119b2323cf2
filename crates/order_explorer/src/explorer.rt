//! The exploration: one run for each order, until all orders were tried, or a run doesn't end as it should.
ghost use Rattle.std.specs.Prelude.{◌≡◌, All, IfSome};
ghost use Rattle.std.specs.Arc.{arc_value};
ghost use Rattle.hoare_law.specs.Sizes.{kinds_of};
ghost use Rattle.door_frame.specs.Places.{IsOut};
ghost use Rattle.any_door.specs.Doors.{id_of};

use crate::choices::{Choices, Orders};
use crate::controller::Controller;
use crate::explored::{Explored, number_of};
use crate::parsed::order_of;
use crate::program::Program;
use crate::run_state::RunState;
use crate::schedule::{Ending, Limit, Schedule};
use any_door::{AnyDoor, DoorKind};
use door_frame::place::Outside;
use hoare_law::data::MonitorData;
use hoare_law::monitor::Monitor;
use std::alloc::{AllocError, Global};
use std::sync::{Arc, Wait};
use std::thread;
use std::thread::Threads;

/// The limits of an exploration, which orders it tries, and on which door.
#[derive(Clone, Copy, Debug, PartialEq, Eq)]
pub struct Limits {
    /// The maximum number of runs.
    pub runs: u64,
    /// The maximum number of steps of a run: admissions, waits, signals, passes, leaves, notifies and broadcasts.
    pub steps: usize,
    /// The maximum number of choices of a run.
    pub depth: usize,
    /// The maximum number of steps for which a process waits on a condition, until it resumes.
    pub patience: usize,
    /// All orders, or orders that are drawn.
    pub orders: Orders,
    /// The door under the monitor.
    pub door: DoorKind,
}

impl Limits {
    /// The limits for small programs: all orders on a baton door, as many runs, steps and choices as such programs
    /// need, and waits of at most 40 steps.
    pub const USUAL: Limits = Limits {
        runs: 100_000,
        steps: 300,
        depth: 300,
        patience: 40,
        orders: Orders::All,
        door: DoorKind::Baton,
    };
}

/// The result of an exploration. Each variant but `AllOrders` has the last run. If that run was cut off, its threads
/// sleep until the process ends.
#[derive(Drop)]
pub enum Found {
    /// All orders were tried, in this many runs. In each of them all threads ended, and all was right.
    AllOrders(u64),
    /// In the last run no process is inside and none is to enter, but a process waits.
    Stuck(Schedule),
    /// This place waited on a condition for more steps than the limit.
    Starved(usize, Schedule),
    /// In the last run all threads ended, but the data that they left, or their answers, are wrong.
    Wrong(Schedule),
    /// After the same choices other places were to enter: the program depends on something besides the order of
    /// admissions. Or the order that was given isn't an order of the program.
    Differs(Schedule),
    /// This limit was met after this many whole runs, in which all was right: there may be more orders. The schedule is
    /// that of the last run.
    Limit(Limit, u64, Schedule),
}

impl Found {
    /// Returns the last run: the bad one, or the one at which a limit was met. Returns `None` if all orders ended
    /// right.
    pub fn schedule(&self) -> Option<&Schedule> {
        match self {
            Found::AllOrders(_) => None,
            Found::Stuck(schedule) => Some(schedule),
            Found::Starved(_, schedule) => Some(schedule),
            Found::Wrong(schedule) => Some(schedule),
            Found::Differs(schedule) => Some(schedule),
            Found::Limit(_, _, schedule) => Some(schedule),
        }
    }
}

// What the threads of an exploration share: the program, and the monitor over which it runs.
#[derive(Drop)]
struct Shared<D: MonitorData, P> {
    program: P,
    explored: Explored<D>,
}

// Does the part of one thread in each run, until there is no further run.
fn serve<R: Wait, D: MonitorData + Send + Drop, P: Program<D, Explored<D>>>(
    rt: &R,
    program: &P,
    explored: &Explored<D>,
    out: Outside<D>,
)
    requires { IsOut D.rest D.ready (kinds_of D.CONDITIONS D.MESA) (id_of explored.now.door) out }
{
    let (mut out, number) = number_of(out);
    for _ in rt.forever() {
        if !explored.controller.begin(rt, number) {
            return;
        }
        let (again, answer) = program.act(rt, explored, out, number);
        out = again;
        explored.controller.finish(rt, number, answer);
    }
}

// Starts a thread for one place. Refuses if the thread can't be started.
fn start_one<
    R: Threads + Wait + Copy + Send + 'static,
    D: MonitorData + Send + Drop + 'static,
    P: Program<D, Explored<D>> + 'static,
>(rt: R, shared: Arc<Shared<D, P>>, out: Outside<D>) -> Result<(), AllocError>
    requires { IsOut D.rest D.ready (kinds_of D.CONDITIONS D.MESA) (id_of (arc_value shared).explored.door) out }
{
    let started = thread::spawn(
        &rt,
        move || -> ()
            requires { IsOut D.rest D.ready (kinds_of D.CONDITIONS D.MESA)
                (id_of (arc_value shared).explored.door) out }
        { serve(&rt, &shared.program, &shared.explored, out) },
    );
    match started {
        Ok(_handle) => Ok(()),
        Err(_) => Err(AllocError),
    }
}

// Starts a thread for each place. Refuses if an allocation fails or a thread can't be started.
fn start_all<
    R: Threads + Wait + Copy + Send + 'static,
    D: MonitorData + Send + Drop + 'static,
    P: Program<D, Explored<D>> + 'static,
>(rt: R, shared: &Arc<Shared<D, P>>, outs: Vec<Outside<D>>) -> Result<(), AllocError>
    requires { All (IsOut D.rest D.ready (kinds_of D.CONDITIONS D.MESA) (id_of (arc_value shared.now).explored.door))
        outs.items }
{
    for out in outs {
        start_one(rt, Arc::try_clone(shared)?, out)?;
    }
    Ok(())
}

// Returns true if the data that a whole run left and the answers of its threads are right, and puts in the data of the
// next run. It enters by `spare`, a place that no thread has. Returns `None` if there are no such data, or if `rest`
// doesn't hold of them.
fn look<R: Wait, D: MonitorData + Send + Drop, P: Program<D, Explored<D>>>(
    rt: &R,
    alloc: Global,
    program: &P,
    explored: &Explored<D>,
    spare: Outside<D>,
) -> (Outside<D>, Option<bool>)
    requires { IsOut D.rest D.ready (kinds_of D.CONDITIONS D.MESA) (id_of explored.now.door) spare }
    ensures { IsOut D.rest D.ready (kinds_of D.CONDITIONS D.MESA) (id_of explored.now.door) result.0 }
{
    let door = &explored.door;
    let mut inside = door.enter(rt, spare);
    let right = {
        let state = explored.controller.state.lock(rt);
        program.is_right(door.state(&inside), state.answers())
    };
    let Some(fresh) = program.open(alloc) else {
        return (door.leave(rt, inside), None);
    };
    if !fresh.rest_holds(door.lists(&inside)) {
        return (door.leave(rt, inside), None);
    }
    *AnyDoor::state_mut(&mut inside, door) = fresh;
    (door.leave(rt, inside), Some(right))
}

// Returns what is found if a run was cut off with this ending, after `whole` whole runs.
fn found_cut(ending: Ending, whole: u64, schedule: Schedule) -> Found {
    match ending {
        Ending::Stuck => Found::Stuck(schedule),
        Ending::Starved(place) => Found::Starved(place, schedule),
        Ending::Limit(limit) => Found::Limit(limit, whole, schedule),
        _ => Found::Differs(schedule),
    }
}

// Makes at most `runs` runs, until one is cut off or ends wrong, or until all orders were tried. Refuses if there are
// no data for the next run.
fn run_all<R: Wait, D: MonitorData + Send + Drop, P: Program<D, Explored<D>>>(
    rt: &R,
    alloc: Global,
    program: &P,
    explored: &Explored<D>,
    spare: Outside<D>,
    runs: u64,
) -> Result<Found, AllocError>
    requires { IsOut D.rest D.ready (kinds_of D.CONDITIONS D.MESA) (id_of explored.now.door) spare }
{
    let controller = &explored.controller;
    let mut spare = spare;
    for run in 0..runs {
        controller.start(rt);
        let ending = controller.await_ending(rt);
        if ending != Ending::AllEnded {
            let schedule = controller.take_schedule(rt, alloc, ending);
            return Ok(found_cut(ending, run, schedule));
        }
        let (again, right) = look(rt, alloc, program, explored, spare);
        spare = again;
        match right {
            Some(true) => {}
            Some(false) => return Ok(Found::Wrong(controller.take_schedule(rt, alloc, ending))),
            None => return Err(AllocError),
        }
        if !controller.turn_choices(rt) {
            return Ok(Found::AllOrders(run + 1));
        }
    }
    let schedule = controller.take_schedule(rt, alloc, Ending::AllEnded);
    Ok(Found::Limit(Limit::Runs, runs, schedule))
}

// Creates a controller for these limits, with the order `given`, if there is one. Refuses if an allocation fails, or if
// the number of threads or of conditions is out of range.
fn controller_of<D: MonitorData>(
    alloc: Global,
    threads: usize,
    limits: Limits,
    given: Option<Vec<usize>>,
) -> Result<Controller, AllocError> {
    let choices = Choices::none(alloc, limits.depth, limits.orders, given)?;
    let kinds = (D::CONDITIONS, D::MESA);
    let state = RunState::make(
        alloc,
        threads,
        kinds,
        limits.steps,
        limits.patience,
        choices,
    )?;
    Controller::make(alloc, threads, limits.steps, state)
}

// Returns the place for `look`, and those for the threads.
fn with_spare<D: MonitorData + Send + Drop>(
    explored: &Explored<D>,
    outs: Vec<Outside<D>>,
) -> Option<(Outside<D>, Vec<Outside<D>>)>
    requires { All (IsOut D.rest D.ready (kinds_of D.CONDITIONS D.MESA) (id_of explored.now.door)) outs.items }
    ensures spare { IfSome result
        (λ r. IsOut D.rest D.ready (kinds_of D.CONDITIONS D.MESA) (id_of explored.now.door) r.0) }
    ensures outs { IfSome result
        (λ r. All (IsOut D.rest D.ready (kinds_of D.CONDITIONS D.MESA) (id_of explored.now.door)) r.1.items) }
{
    let mut outs = outs;
    let spare = outs.pop()?;
    Some((spare, outs))
}

// Makes the runs of a program by threads that share it.
fn explore_shared<
    R: Threads + Wait + Copy + Send + 'static,
    D: MonitorData + Send + Drop + 'static,
    P: Program<D, Explored<D>> + 'static,
>(
    rt: R,
    alloc: Global,
    shared: Arc<Shared<D, P>>,
    places: (Outside<D>, Vec<Outside<D>>),
    runs: u64,
) -> Result<Found, AllocError>
    requires spare { IsOut D.rest D.ready (kinds_of D.CONDITIONS D.MESA)
        (id_of (arc_value shared).explored.door) places.0 }
    requires outs { All (IsOut D.rest D.ready (kinds_of D.CONDITIONS D.MESA) (id_of (arc_value shared).explored.door))
        places.1.items }
{
    let (spare, outs) = places;
    start_all(rt, &shared, outs)?;
    let found = run_all(&rt, alloc, &shared.program, &shared.explored, spare, runs)?;
    shared.explored.controller.stop(&rt);
    Ok(found)
}

// Makes the runs of a program under this controller.
fn explore_with<
    R: Threads + Wait + Copy + Send + 'static,
    D: MonitorData + Send + Drop + 'static,
    P: Program<D, Explored<D>> + 'static,
>(
    rt: R,
    alloc: Global,
    program: P,
    controller: Controller,
    limits: Limits,
) -> Result<Found, AllocError> {
    let count = program.threads().saturating_add(1);
    let Some(state) = program.open(alloc) else {
        return Err(AllocError);
    };
    let (explored, outs) = Explored::make(alloc, limits.door, controller, state, count)?;
    let Some(places) = with_spare(&explored, outs) else {
        return Err(AllocError);
    };
    let Ok(shared) = Arc::new(alloc, Shared { program, explored }) else {
        return Err(AllocError);
    };
    explore_shared(rt, alloc, shared, places, limits.runs)
}

/// Tries the orders in which the program's threads, 1 to 63, can be admitted, each in its own run, until a limit is
/// met, or an order ends wrong.
///
/// Refuses with `AllocError` if the number of threads isn't 1 to 63, or the number of conditions isn't 1 to 8 or is
/// below that of Mesa conditions. It also refuses if an allocation fails, a thread can't be started, or `Program::open`
/// returns no data, or data of which `rest` doesn't hold.
pub fn explore<
    R: Threads + Wait + Copy + Send + 'static,
    D: MonitorData + Send + Drop + 'static,
    P: Program<D, Explored<D>> + 'static,
>(rt: R, alloc: Global, program: P, limits: Limits) -> Result<Found, AllocError> {
    let controller = controller_of::<D>(alloc, program.threads(), limits, None)?;
    explore_with(rt, alloc, program, controller, limits)
}

/// Makes one run alone, in the order of a script that `Schedule::script` returned: its lines `enter K` name the places
/// to admit. Returns `Limit(Limit::Runs, 1, ..)` if that run ends right, and `Differs` if the program has no such
/// order. `limits.runs` and `limits.orders` aren't used. Refuses in the same cases as `explore`.
pub fn explore_again<
    R: Threads + Wait + Copy + Send + 'static,
    D: MonitorData + Send + Drop + 'static,
    P: Program<D, Explored<D>> + 'static,
>(rt: R, alloc: Global, program: P, script: &str, limits: Limits) -> Result<Found, AllocError> {
    let given = order_of(alloc, script)?;
    let controller = controller_of::<D>(alloc, program.threads(), limits, Some(given))?;
    let once = Limits { runs: 1, ..limits };
    explore_with(rt, alloc, program, controller, once)
}
