//! The recipes of the cookbook, each on a baton door, the mailbox on both. What a call returns, what it leaves, and
//! whom it resumes is proved, over any monitor. Tested is what no clause says: that the calls return, also of places
//! that had to wait, and which of two philosophers that can eat resumes first.
ghost use Rattle.std.specs.Prelude.{◌≡◌};

use crate::tests::awaited::{Turns, count_waiting, watch};
use crate::tests::compared::expect_same;
use crate::tests::row::{DoorKind, run};
use crate::tests::schedulers::steps::Step::{Calls, Watches};
use crate::tests::schedulers::steps::{Call, Step, take_steps};
use cookbook::barrier::Barrier;
use cookbook::drain::Drain;
use cookbook::latch::Latch;
use cookbook::mailbox::{Letter, Mailbox};
use cookbook::rendezvous::Rendezvous;
use cookbook::table::Table;
use cookbook::work_queue::WorkQueue;
use door_frame::place::Outside;
use hoare_law::monitor::Monitor;
use std::process::Abort;
use std::rt::Clock;
use std::sync::Wait;

// Each party meets the others twice.
fn arrives<R: Wait, M: Monitor<Barrier>>(rt: &R, m: &M, out: M::Out) -> M::Out
    requires { M.is_of m.now out }
    ensures of { M.is_of m.now result }
    ensures place { M.place result ≡ M.place out }
{
    let (out, _first) = Barrier::arrive(m, rt, out);
    let (out, _second) = Barrier::arrive(m, rt, out);
    out
}

// Two places wait for the latch, which place 0 counts down until it is open.
fn passes<R: Wait + Abort, M: Monitor<Latch, Out = Outside<Latch>>>(
    rt: &R,
    m: &M,
    out: M::Out,
) -> M::Out
    requires { M.is_of m.now out }
    ensures of { M.is_of m.now result }
    ensures place { M.place result ≡ M.place out }
{
    if out.number() > 0 {
        return Latch::pass(m, rt, out);
    }
    let out = m.leave(rt, watch(rt, m, out, 2));
    let out = Latch::count_down(m, rt, out);
    Latch::count_down(m, rt, out)
}

// Two places begin a piece of work each, and wait until none is under way. Place 0 ends both.
fn drains<R: Wait + Abort, M: Monitor<Drain, Out = Outside<Drain>>>(
    rt: &R,
    m: &M,
    out: M::Out,
) -> M::Out
    requires { M.is_of m.now out }
    ensures of { M.is_of m.now result }
    ensures place { M.place result ≡ M.place out }
{
    if out.number() > 0 {
        let (out, _begun) = Drain::begin(m, rt, out);
        return Drain::drain(m, rt, out);
    }
    let out = m.leave(rt, watch(rt, m, out, 2));
    let out = Drain::end(m, rt, out);
    Drain::end(m, rt, out)
}

// Two places meet twice.
fn meets<R: Wait, M: Monitor<Rendezvous<u64>>>(rt: &R, m: &M, out: M::Out) -> M::Out
    requires { M.is_of m.now out }
    ensures of { M.is_of m.now result }
    ensures place { M.place result ≡ M.place out }
{
    let (out, _first) = Rendezvous::meet(m, rt, out, 1);
    let (out, _second) = Rendezvous::meet(m, rt, out, 2);
    out
}

// Two workers wait for a job, do one each, and wait again until place 0 shuts the queue down.
fn works<R: Wait + Abort, M: Monitor<WorkQueue, Out = Outside<WorkQueue>>>(
    rt: &R,
    m: &M,
    out: M::Out,
) -> M::Out
    requires { M.is_of m.now out }
    ensures of { M.is_of m.now result }
    ensures place { M.place result ≡ M.place out }
{
    if out.number() > 0 {
        let (out, _job) = WorkQueue::take(m, rt, out);
        let (out, _none) = WorkQueue::take(m, rt, out);
        return out;
    }
    let out = m.leave(rt, watch(rt, m, out, 2));
    let (out, _first) = WorkQueue::put(m, rt, out, 5);
    let (out, _second) = WorkQueue::put(m, rt, out, 6);
    let out = m.leave(rt, watch(rt, m, out, 2));
    WorkQueue::shut_down(m, rt, out)
}

#[test]
fn processes_meet_by_a_baton(host: HostRuntime) {
    let rt = &host;
    let kind = DoorKind::Baton;
    let _left = run!(rt, kind, Barrier::new(3), 3, arrives);
    let _left = run!(rt, kind, Latch::new(2), 3, passes);
    let _left = run!(rt, kind, Drain::new(), 3, drains);
    let _left = run!(rt, kind, Rendezvous::new(), 2, meets);
    let _left = run!(rt, kind, WorkQueue::new(2), 3, works);
}

/// A call of a mailbox.
#[derive(Clone, Copy)]
enum MailCall {
    Sends,
    Receives,
}

impl Call<Mailbox> for MailCall {
    fn make<R: Wait + Abort + AllocGlobal, M: Monitor<Mailbox, Out = Outside<Mailbox>>>(
        self,
        rt: &R,
        m: &M,
        out: Outside<Mailbox>,
        _turns: &Turns,
    ) -> Outside<Mailbox>
        requires { M.is_of m.now out }
        ensures of { M.is_of m.now result }
        ensures place { M.place result ≡ M.place out }
    {
        match self {
            MailCall::Sends => Mailbox::send(m, rt, out, Letter::default()),
            MailCall::Receives => {
                let (out, _letter) = Mailbox::receive(m, rt, out);
                out
            }
        }
    }
}

const S: Step<MailCall> = Calls(MailCall::Sends);

const R: Step<MailCall> = Calls(MailCall::Receives);

// Of nine letters the last waits for room, until the other place receives all. The tenth is awaited.
#[test]
fn letters_come(host: HostRuntime) {
    let rt = &host;
    let places: &[&[Step<MailCall>]] = &[
        &[S, S, S, S, S, S, S, S, S, Watches(1), S],
        &[Watches(1), R, R, R, R, R, R, R, R, R, R],
    ];
    take_steps!(rt, Mailbox::new(), places);
}

// Place 0 eats at seat 0 and gives turn 1. Then place 1 begins to wait for seat 1, and after that place 2 for seat 0.
// When place 0 gets up either can eat, but not both. Fails the test unless two wait while place 0 eats, none while place
// 1 does, and one while place 2 does.
fn eats<R: Wait + Abort + Clock, M: Monitor<Table, Out = Outside<Table>>>(
    rt: &R,
    m: &M,
    out: M::Out,
    turns: &Turns,
) -> M::Out
    requires { M.is_of m.now out }
    ensures of { M.is_of m.now result }
    ensures place { M.place result ≡ M.place out }
{
    let place = out.number();
    let seat = place % 2;
    let mut out = out;
    if place == 1 {
        turns.await_turn(rt, 1);
    }
    if place == 2 {
        out = m.leave(rt, watch(rt, m, out, 1));
    }
    out = Table::sit_down(m, rt, out, seat);
    if place == 0 {
        turns.give(1);
        out = m.leave(rt, watch(rt, m, out, 2));
    }
    let inside = m.enter(rt, out);
    let wanted = match place {
        0 => 2,
        1 => 0,
        _ => 1,
    };
    expect_same(rt, count_waiting(m, &inside), wanted);
    let (out, _got_up) = Table::get_up(m, rt, m.leave(rt, inside), seat);
    out
}

// Place 2 resumes first, since its seat has the lesser number.
#[test]
fn the_first_seat_comes_first_by_a_baton(host: HostRuntime) {
    let rt = &host;
    let given = Turns::new();
    let turns = &given;
    let _left = run!(rt, DoorKind::Baton, Table::new(), 3, eats, turns);
}
