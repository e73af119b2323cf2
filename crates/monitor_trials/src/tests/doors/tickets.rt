//! What only a ticket door has: tickets in turn and past the last number, places that meet, and `hand_up`.
ghost use Rattle.std.specs.Prelude.{◌≡◌, ◌≤◌, ℕ, [], All, map, vec_len, vec_capacity};
ghost use Rattle.std.specs.VecDeque.{deque_len, deque_capacity};
ghost use Rattle.door_frame.specs.Places.{HasPlace};
ghost use Rattle.hoare_law.specs.Sizes.{kinds_of};
ghost use Rattle.ticket_door.specs.Asked.{IsAsked, as_out};

use crate::tests::awaited::watch;
use crate::tests::compared::{expect_same, good};
use crate::tests::row::{act_all, closed, ticket};
use door_frame::status::{Holder, Status};
use hoare_law::data::MonitorData;
use hoare_law::monitor::Monitor;
use std::alloc::Global;
use std::collections::VecDeque;
use std::process::Abort;
use std::sync::Wait;
use test_support::tally::{Tally, add_one, write_digit};
use ticket_door::door::TicketDoor;
use ticket_door::laws::make_at;
use ticket_door::place::{Asked, TicketOut};

/// All places take tickets.
fn all_ask(door: &TicketDoor<Tally>, outs: Vec<TicketOut<Tally>>, asks: &mut VecDeque<Asked<Tally>>)
    requires of { All (⟦<TicketDoor<Tally> as Monitor<Tally>>⟧.is_of door.now) outs.items }
    requires none { asks.old.items ≡ [] }
    requires room { vec_len outs ≤ deque_capacity asks.old }
    ensures of { All (IsAsked ⟦<Tally as MonitorData>⟧.rest ⟦<Tally as MonitorData>⟧.ready
        (kinds_of 1 0) door.now) asks.new.items }
    ensures count { deque_len asks.new ≡ vec_len outs }
    ensures places { (k : ℕ) → HasPlace k outs.items → HasPlace k (map as_out asks.new.items) }
{
    let mut outs = outs;
    while let Some(out) = outs.pop() {
        asks.push_back_reserved(door.ask(out));
    }
}

/// All places enter in the order of their tickets, add one and leave. Each notes its ticket.
fn all_enter<R: Wait>(
    rt: &R,
    door: &TicketDoor<Tally>,
    asks: VecDeque<Asked<Tally>>,
    outs: &mut Vec<TicketOut<Tally>>,
    tickets: &mut Vec<u64>,
)
    requires of { All (IsAsked ⟦<Tally as MonitorData>⟧.rest ⟦<Tally as MonitorData>⟧.ready
        (kinds_of 1 0) door.now) asks.items }
    requires none { outs.old.items ≡ [] }
    requires room { deque_len asks ≤ vec_capacity outs.old }
    requires space { (tickets.old.items ≡ []) × (deque_len asks ≤ vec_capacity tickets.old) }
    ensures of { All (⟦<TicketDoor<Tally> as Monitor<Tally>>⟧.is_of door.now) outs.new.items }
    ensures places { (k : ℕ) → HasPlace k (map as_out asks.items) → HasPlace k outs.new.items }
{
    let mut asks = asks;
    while let Some(asked) = asks.pop_front() {
        tickets.push_reserved(asked.ticket());
        let inside = add_one(door, door.come_in(rt, asked));
        outs.push_reserved(door.give_up(inside));
    }
    asks.destroy_empty();
}

// On a door of `places` places, with the first ticket `first`, all take tickets, and then all enter and leave. Returns
// the number that is left, and the tickets in the order of the entries.
fn tickets_from<R: Wait + Abort>(
    rt: &R,
    alloc: Global,
    first: u64,
    places: usize,
) -> (u64, Vec<u64>)
    requires { places ≤ 64 }
{
    let mut tickets = good(rt, Vec::with_capacity(alloc, 64));
    let mut back = good(rt, Vec::with_capacity(alloc, 64));
    let mut asks = good(rt, VecDeque::with_capacity(alloc, 64));
    let (door, outs) = ticket(rt, alloc, first, Tally { value: 0 }, places);
    all_ask(&door, outs, &mut asks);
    all_enter(rt, &door, asks, &mut back, &mut tickets);
    (door.close(back).value, tickets)
}

// Fails the test unless the tickets are `first` and the next ones, modulo 2^64, and each place has added one.
fn take_turns<R: Wait + Abort>(rt: &R, alloc: Global, first: u64, places: usize)
    requires { places ≤ 64 }
{
    let (left, tickets) = tickets_from(rt, alloc, first, places);
    for (i, ticket) in tickets.iter().enumerate() {
        expect_same(rt, *ticket, first.wrapping_add(i as u64));
    }
    expect_same(rt, (left, tickets.len()), (places as u64, places));
}

#[test]
fn tickets_in_turn(host: HostRuntime) {
    let (rt, alloc) = (&host, host.alloc());
    take_turns(rt, alloc, 0, 3);
    take_turns(rt, alloc, u64::MAX, 3);
    take_turns(rt, alloc, u64::MAX - 2, 64);
}

// Places a and b take tickets, enter by them and leave. Then a enters again, leaves with a signal on a condition
// without waiters, and the two meet. Fails the test unless the status shows b as an entering thread while a's ticket is
// served, and the signal resumed no waiter.
fn two_meet<R: Wait + Abort>(
    rt: &R,
    door: &TicketDoor<Tally>,
    a: TicketOut<Tally>,
    b: TicketOut<Tally>,
) -> (TicketOut<Tally>, TicketOut<Tally>)
    requires a { ⟦<TicketDoor<Tally> as Monitor<Tally>>⟧.is_of door.now a }
    requires b { ⟦<TicketDoor<Tally> as Monitor<Tally>>⟧.is_of door.now b }
    ensures a { ⟦<TicketDoor<Tally> as Monitor<Tally>>⟧.is_of door.now result.0 }
    ensures b { ⟦<TicketDoor<Tally> as Monitor<Tally>>⟧.is_of door.now result.1 }
    ensures places { (result.0.place ≡ a.place) × (result.1.place ≡ b.place) }
{
    let (a, b) = (door.ask(a), door.ask(b));
    let status = Status {
        holder: Holder::Somebody,
        entering: 1,
    };
    expect_same(rt, door.status(), status);
    let a = door.give_up(door.come_in(rt, a));
    let b = door.give_up(door.come_in(rt, b));
    let (a, resumed) = door.hand_up(door.enter(rt, a), 0);
    expect_same(rt, resumed, false);
    door.meet(a, b)
}

#[test]
fn two_places_meet(rt: HostRuntime) {
    let Ok((door, mut outs)) = make_at(rt.alloc(), Tally { value: 5 }, 2, u64::MAX) else {
        panic!(rt; "no memory")
    };
    let (b, a) = (outs.pop().unwrap(), outs.pop().unwrap());
    let (a, b) = two_meet(&rt, &door, a, b);
    outs.push_reserved(a);
    outs.push_reserved(b);
    expect_same(&rt, door.close(outs).value, 5);
}

// Place 0 waits, and writes 2. Place 1 writes 1 when place 0 waits, and resumes it by `hand_up`, which is non-blocking.
fn waits_or_hands_up<R: Wait + Abort>(
    rt: &R,
    door: &TicketDoor<Tally>,
    out: TicketOut<Tally>,
) -> TicketOut<Tally>
    requires { ⟦<TicketDoor<Tally> as Monitor<Tally>>⟧.is_of door.now out }
    ensures of { ⟦<TicketDoor<Tally> as Monitor<Tally>>⟧.is_of door.now result }
    ensures place { result.place ≡ out.place }
{
    if out.number() == 0 {
        let inside = door.wait(rt, door.enter(rt, out), 0, 0);
        return door.give_up(write_digit(door, inside, 2));
    }
    let inside = write_digit(door, watch(rt, door, out, 1), 1);
    let (out, resumed) = door.hand_up(inside, 0);
    expect_same(rt, resumed, true);
    out
}

#[test]
fn hand_up_resumes_a_waiter(host: HostRuntime) {
    let (rt, alloc) = (&host, host.alloc());
    let (door, outs) = ticket(rt, alloc, u64::MAX, Tally { value: 0 }, 2);
    let outs = act_all(
        rt,
        &door,
        outs,
        &|out| { waits_or_hands_up(rt, &door, out) },
    );
    expect_same(rt, closed(door, outs).value, 12);
}
