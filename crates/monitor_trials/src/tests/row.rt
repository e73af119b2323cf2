//! A row of tests on a door of either kind: the door is made, each place acts on a thread of its own, and the door is
//! closed.
ghost use Rattle.std.specs.Prelude.{◌≡◌, IfOk, All, vec_len};
ghost use Rattle.std.specs.Fork.{AcceptsJobs, GivesJobs};
ghost use Rattle.any_door.specs.Doors.{id_of};
ghost use Rattle.hoare_law.specs.Priorities.{nobody};
ghost use Rattle.monitor_trials.specs.Numbered.{IsNumbered};

use crate::tests::awaited::Turns;
use crate::tests::compared::good;
pub use any_door::DoorKind;
use any_door::{AnyDoor, RawAnyDoor};
use door_frame::place::Outside;
use door_frame::raw_monitor::Runs;
use door_frame::running::RunningMonitor;
use hoare_law::data::MonitorData;
use hoare_law::monitor::Monitor;
use std::alloc::{AllocError, Global};
use std::process::Abort;
use std::rt::Clock;
use std::thread;
use std::thread::Threads;
use ticket_door::door::TicketDoor;
use ticket_door::laws::make_at;

/// The first ticket of a row's ticket door: the third ticket after it is 0.
const FIRST_TICKET: u64 = u64::MAX - 2;

/// Creates a ticket door with the first ticket `first` and the data `state`. Returns it with its `count` places, in
/// order. Fails the test if the door is refused.
pub fn ticket<D: MonitorData + Send + Drop, R: Abort>(
    rt: &R,
    alloc: Global,
    first: u64,
    state: D,
    count: usize,
) -> (TicketDoor<D>, Vec<Outside<D>>)
    requires { D.rest state nobody }
    ensures count { vec_len result.1 ≡ result.0.door.places }
    ensures of { All (⟦<TicketDoor<D> as Monitor<D>>⟧.is_of result.0) result.1.items }
    ensures numbered { IsNumbered (⟦<TicketDoor<D> as Monitor<D>>⟧.place) result.1.items }
{
    let Ok(made) = make_at(alloc, state, count, first) else {
        panic!(rt; "no door was made")
    };
    made
}

/// Creates a door of this kind with the data `state`. Returns it with its `count` places, in order. Fails the test if
/// the door is refused.
pub fn made<D: MonitorData + Send + Drop, R: Abort>(
    rt: &R,
    alloc: Global,
    kind: DoorKind,
    state: D,
    count: usize,
) -> (AnyDoor<D>, Vec<Outside<D>>)
    requires { D.rest state nobody }
    ensures count { vec_len result.1 ≡ (id_of result.0).places }
    ensures of { All (⟦<AnyDoor<D> as Monitor<D>>⟧.is_of result.0) result.1.items }
    ensures numbered { IsNumbered (⟦<AnyDoor<D> as Monitor<D>>⟧.place) result.1.items }
{
    match kind {
        DoorKind::Baton => {
            let Ok(made) = kind.make(alloc, state, count) else {
                panic!(rt; "no door was made")
            };
            made
        }
        DoorKind::Ticket => {
            let (door, outs) = ticket(rt, alloc, FIRST_TICKET, state, count);
            let raw_monitor = RawAnyDoor::Ticket(door.into_raw());
            (RunningMonitor::new(raw_monitor), outs)
        }
    }
}

// Makes the calls of `act` at these places, each on a thread of its own, while this thread watches the time. Returns
// what the calls returned, in order. Fails the test if they don't end in time, or if out of memory.
fn act_each<O: Send + Drop, F: Fn(O) -> O + Sync, R: Threads + Abort + Clock + Sync>(
    rt: &R,
    outs: Vec<O>,
    act: &F,
) -> Vec<O>
    requires { AcceptsJobs F.Fn act.now outs.items }
    ensures count { vec_len result ≡ vec_len outs }
    ensures each { GivesJobs F.Fn act.now outs.items result.items }
{
    let ended = Turns::new();
    let turns = &ended;
    let (done, ()) = thread::join(
        rt,
        || -> Result<Vec<O>, AllocError>
            requires { AcceptsJobs F.Fn act.now outs.items }
            ensures count { IfOk result (λ v. vec_len v ≡ vec_len outs) }
            ensures each { IfOk result (λ v. GivesJobs F.Fn act.entry.now outs.items v.items) }
        {
            let done = thread::map_vec(rt, outs, act);
            turns.give(1);
            done
        },
        || -> () { turns.await_turn(rt, 1) },
    );
    good(rt, done)
}

/// Lets each place of a monitor act on a thread of its own. Returns the places in order. Fails the test if the threads
/// don't end in time, or if out of memory.
pub fn act_all<
    D: MonitorData,
    M: Monitor<D>,
    F: Fn(M::Out) -> M::Out + Sync,
    R: Threads + Abort + Clock + Sync,
>(rt: &R, m: &M, outs: Vec<M::Out>, act: &F) -> Vec<M::Out>
    requires of { All (M.is_of m.now) outs.items }
    requires numbered { IsNumbered M.place outs.items }
    requires acts { (o : M.Out) → M.is_of m.now o → F.pre act.now o }
    requires keeps { (o : M.Out) (r : _) → M.is_of m.now o → F.post act.now o r
        → M.is_of m.now r × (M.place r ≡ M.place o) }
    ensures count { vec_len result ≡ vec_len outs }
    ensures of { All (M.is_of m.now) result.items }
    ensures numbered { IsNumbered M.place result.items }
{
    act_each(rt, outs, act)
}

/// Closes the door, given all its places in order. Returns the data that they left.
pub fn closed<D: MonitorData + Send, T: Runs<D>>(
    door: RunningMonitor<T>,
    outs: Vec<Outside<D>>,
) -> D
    requires count { vec_len outs ≡ (T.id door).places }
    requires of { All (⟦<RunningMonitor<T> as Monitor<D>>⟧.is_of door) outs.items }
    requires numbered { IsNumbered (⟦<RunningMonitor<T> as Monitor<D>>⟧.place) outs.items }
{
    door.close(outs)
}

// Runs a row on a door of this kind, made with this number of places: each place acts on a thread of its own, and the
// door is closed. Gives the data that were left. (No function can take what a place does on any door: the checker can't
// state a bound with a reference to a door of any data.)
macro_rules! run {
    ($rt:ident, $kind:expr, $state:expr, $count:expr, |$m:ident, $out:ident| $act:expr) => {{
        let (door, outs) = $crate::tests::row::made($rt, $rt.alloc(), $kind, $state, $count);
        let $m = &door;
        let outs = $crate::tests::row::act_all($rt, $m, outs, &|$out| { $act });
        $crate::tests::row::closed(door, outs)
    }};
    ($rt:ident, $kind:expr, $state:expr, $count:expr, $act:ident $(, $more:expr)*) => {
        $crate::tests::row::run!($rt, $kind, $state, $count, |m, out| $act($rt, m, out $(, $more)*))
    };
}

pub(crate) use run;
