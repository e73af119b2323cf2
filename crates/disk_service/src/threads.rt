//! The threads of the service: the clock, the workers, and the caller's own.
ghost use Rattle.std.specs.Prelude.{◌≡◌, ◌+◌, ◌≤◌, ◌++◌, [], length, true, IfOk, IfErr, IfSome};
ghost use Rattle.disk_service.specs.Doors.{AreThere, AreThreadPlaces};
ghost use Rattle.disk_service.specs.CallerStates.{HasForWorkers, HaveDone, IsReady};
ghost use Rattle.disk_service.specs.Handing.{HandsBy, StartsBy};
ghost use Rattle.disk_service.specs.ServedJobs.{ArePut, HasWorked, IsFreshThread};
ghost use Rattle.disk_jobs.specs.Faults.{IsOfService};
ghost use Rattle.disk_service.specs.declared.doors.Doors.{Doors};

use crate::caller::{close_board, hand_out, stop_workers};
use crate::clock::tick_on;
use crate::data::both;
use crate::doors::Doors;
use crate::gate::Gate;
use crate::places::Places;
use crate::thread_places::{ReturnsPlaces, ThreadPlaces};
use crate::worker::work;
use disk_jobs::done::Done;
use disk_jobs::fault::ServiceFault;
use disk_jobs::jobs::Jobs;
use std::sync::Wait;
use std::thread;
use std::thread::{PromisedHandle, Scope, Threads};

/// What the caller's thread keeps for the others: the places that no thread has, the rooms of the workers, and the
/// results.
#[derive(Drop)]
pub(crate) struct CallerState {
    /// The places that no thread has.
    pub places: Places,
    /// For each worker that hasn't started yet, in order: the room for its results.
    pub rooms: Vec<Vec<Done>>,
    /// The results of the workers that are joined.
    pub results: Vec<Done>,
    /// True if each worker that is joined did each job that it got.
    pub did_all: bool,
}

impl CallerState {
    // Takes out a worker's places and its room.
    fn take_out(&mut self, number: u32) -> (ThreadPlaces, Vec<Done>)
        requires { (d : Doors) × HasForWorkers d (number + 1) self.old }
        ensures number { result.0.number ≡ number }
        ensures own { (d : Doors) → HasForWorkers d (number + 1) self.old → AreThreadPlaces d result.0 }
        ensures left { (d : Doors) → HasForWorkers d (number + 1) self.old → HasForWorkers d number self.new }
        ensures fresh { (d : Doors) → HasForWorkers d (number + 1) self.old → IsFreshThread result.0 }
        ensures empty { (d : Doors) → HasForWorkers d (number + 1) self.old → result.1.items ≡ [] }
    {
        let own = self.places.take_places(number);
        match self.rooms.pop() {
            Some(room) => (own, room),
            None => unreachable!(),
        }
    }

    // Puts back a worker's places, and adds its results; `did` says that it did each job that it got. The memory for
    // both is there.
    fn take_back(
        &mut self,
        own: ThreadPlaces,
        kept: Vec<Done>,
        did: bool,
    ) -> Result<(), ServiceFault>
        ensures places { IfOk result (λ _. (d : Doors) → AreThere d own.number self.old.places
            → AreThreadPlaces d own → AreThere d (own.number + 1) self.new.places) }
        ensures rooms { self.new.rooms ≡ self.old.rooms }
        ensures done { IfOk result (λ _. (did ≡ true → HasWorked own.number kept.items own)
            → HaveDone own.number self.old → HaveDone (own.number + 1) self.new) }
        ensures fault { IfErr result (λ f. f ≡ ServiceFault.Memory) }
    {
        self.did_all = both(self.did_all, did);
        let added = add_results(&mut self.results, kept);
        added.and(put_back(&mut self.places, own))
    }
}

// Adds a worker's results to all results. The memory for them is there.
fn add_results(results: &mut Vec<Done>, kept: Vec<Done>) -> Result<(), ServiceFault>
    ensures added { IfOk result (λ _. results.new.items ≡ results.old.items ++ kept.items) }
    ensures fault { IfErr result (λ f. f ≡ ServiceFault.Memory) }
{
    match results.extend_from_slice(kept.as_slice()) {
        Ok(()) => Ok(()),
        Err(_) => Err(ServiceFault::Memory),
    }
}

// Puts back a thread's places. Their number has to be the next. The memory for them is there.
fn put_back(places: &mut Places, own: ThreadPlaces) -> Result<(), ServiceFault>
    ensures places { IfOk result (λ _. (d : Doors) → AreThere d own.number places.old
        → AreThreadPlaces d own → AreThere d (own.number + 1) places.new) }
    ensures put { IfOk result (λ _. ArePut own places.old places.new) }
    ensures fault { IfErr result (λ f. f ≡ ServiceFault.Memory) }
{
    match places.put_places(own) {
        Ok(()) => Ok(()),
        Err(_) => Err(ServiceFault::Memory),
    }
}

/// Runs the service: a clock and the workers, each on a thread of its own with places of its own. The caller's thread
/// hands out the jobs. All threads are joined and return their places.
pub(crate) fn run_threads<R: Threads + Wait + Sync, G: Gate + Sync>(
    rt: &R,
    gate: &G,
    jobs: &Jobs,
    doors: &Doors,
    state: CallerState,
) -> Result<CallerState, ServiceFault>
    requires { IsReady doors.now jobs.now.workers state }
    ensures places { IfOk result (λ s. AreThere doors.now (jobs.now.workers + 2) s.places) }
    ensures done { IfOk result (λ s. HaveDone jobs.now.workers s) }
    ensures fault { IfErr result IsOfService }
{
    thread::scope(
        thread::scope_env(),
        rt,
        move |scope| -> Result<CallerState, ServiceFault>
            requires { IsReady doors.now jobs.now.workers state }
            ensures places { IfOk result (λ s.
                AreThere doors.entry.now (jobs.entry.now.workers + 2) s.places) }
            ensures done { IfOk result (λ s. HaveDone jobs.entry.now.workers s) }
            ensures fault { IfErr result IsOfService }
        { run_in_scope(scope, rt, gate, jobs, doors, state) },
    )
}

// Calls `with_clock` with the state, and returns the state.
fn run_in_scope<'s, 'e, R: Threads + Wait + Sync, G: Gate + Sync>(
    scope: &Scope<'s, &'e ()>,
    rt: &'e R,
    gate: &'e G,
    jobs: &'e Jobs,
    doors: &'e Doors,
    state: CallerState,
) -> Result<CallerState, ServiceFault>
    requires { IsReady doors.now jobs.now.workers state }
    ensures places { IfOk result (λ s. AreThere doors.now (jobs.now.workers + 2) s.places) }
    ensures done { IfOk result (λ s. HaveDone jobs.now.workers s) }
    ensures fault { IfErr result IsOfService }
{
    let mut state = state;
    match with_clock(scope, rt, gate, jobs, doors, &mut state) {
        Ok(()) => Ok(state),
        Err(fault) => Err(fault),
    }
}

// Starts the clock and the workers, closes the board after the workers are done, and joins the clock.
fn with_clock<'s, 'e, R: Threads + Wait + Sync, G: Gate + Sync>(
    scope: &Scope<'s, &'e ()>,
    rt: &'e R,
    gate: &'e G,
    jobs: &'e Jobs,
    doors: &'e Doors,
    state: &mut CallerState,
) -> Result<(), ServiceFault>
    requires { IsReady doors.now jobs.now.workers state.old }
    ensures places { IfOk result (λ _. AreThere doors.now (jobs.now.workers + 2) state.new.places) }
    ensures done { IfOk result (λ _. HaveDone jobs.now.workers state.new) }
    ensures fault { IfErr result IsOfService }
    ensures started { StartsBy (length state.new.rooms.items) result }
{
    let workers = jobs.workers();
    let mine = state.places.take_places(workers + 1);
    let given = state.places.take_places(workers);
    let promise = ReturnsPlaces {
        doors,
        number: workers,
    };
    let Some(clock) = start_clock(scope, rt, promise, given) else {
        mine.let_go();
        return Err(ServiceFault::Spawn);
    };
    let (mine, outcome) = with_workers(scope, rt, gate, jobs, doors, state, mine, workers);
    let mine = close_board(rt, doors, mine);
    let returned: ThreadPlaces = clock.join(rt);
    let back = put_back(&mut state.places, returned);
    outcome.and(back).and(put_back(&mut state.places, mine))
}

// Starts the clock with these places, on a thread of its own that promises to return them.
fn start_clock<'s, 'e, R: Threads + Wait + Sync>(
    scope: &Scope<'s, &'e ()>,
    rt: &'e R,
    promise: ReturnsPlaces<'e>,
    own: ThreadPlaces,
) -> Option<PromisedHandle<ThreadPlaces, ReturnsPlaces<'e>>>
    requires own { AreThreadPlaces promise.doors.now own }
    requires number { own.number ≡ promise.number }
    ensures { IfSome result (λ h. h.promise ≡ promise.entry) }
{
    let doors = promise.doors;
    scope
        .spawn_with(promise, move || tick_on(rt, doors, own))
        .ok()
}

// Starts a worker with these places and this room, which is empty, on a thread of its own that promises to return the
// places, and what it did since they were made.
fn start_worker<'s, 'e, R: Threads + Wait + Sync, G: Gate + Sync>(
    scope: &Scope<'s, &'e ()>,
    rt: &'e R,
    gate: &'e G,
    jobs: &'e Jobs,
    promise: ReturnsPlaces<'e>,
    own: ThreadPlaces,
    room: Vec<Done>,
) -> Option<PromisedHandle<(ThreadPlaces, Vec<Done>, bool), ReturnsPlaces<'e>>>
    requires own { AreThreadPlaces promise.doors.now own }
    requires number { own.number ≡ promise.number }
    requires fresh { IsFreshThread own }
    requires empty { room.items ≡ [] }
    ensures { IfSome result (λ h. h.promise ≡ promise.entry) }
{
    let doors = promise.doors;
    let started = scope.spawn_with(promise, move || work(rt, gate, jobs, doors, own, room));
    started.ok()
}

// Starts the `left` workers that aren't started yet, has all workers stopped, and joins those that it started.
fn with_workers<'s, 'e, R: Threads + Wait + Sync, G: Gate + Sync>(
    scope: &Scope<'s, &'e ()>,
    rt: &'e R,
    gate: &'e G,
    jobs: &'e Jobs,
    doors: &'e Doors,
    state: &mut CallerState,
    mine: ThreadPlaces,
    left: u32,
) -> (ThreadPlaces, Result<(), ServiceFault>)
    requires state { HasForWorkers doors.now left state.old }
    requires mine { AreThreadPlaces doors.now mine }
    requires few { left ≤ jobs.now.workers }
    ensures of { AreThreadPlaces doors.now result.0 }
    ensures number { result.0.number ≡ mine.number }
    ensures places { IfOk result.1 (λ _. AreThere doors.now left state.new.places) }
    ensures done { IfOk result.1 (λ _. HaveDone left state.new) }
    ensures fault { IfErr result.1 IsOfService }
    ensures handed { HandsBy jobs.now (length state.new.rooms.items) mine.number mine.items.front
        result.0.items.front result.1 }
{
    if left == 0 {
        return (hand_out(rt, doors, jobs, mine), Ok(()));
    }
    let number = left - 1;
    let (given, room) = state.take_out(number);
    let promise = ReturnsPlaces { doors, number };
    let Some(worker) = start_worker(scope, rt, gate, jobs, promise, given, room) else {
        let mine = stop_workers(rt, doors, mine, jobs.workers() - left);
        return (mine, Err(ServiceFault::Spawn));
    };
    let (mine, outcome) = with_workers(scope, rt, gate, jobs, doors, state, mine, number);
    let (returned, kept, did) = worker.join(rt);
    let back = state.take_back(returned, kept, did);
    (mine, outcome.and(back))
}
