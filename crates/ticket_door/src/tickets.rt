//! Entering by ticket. A thread takes the next ticket, and enters when it is served.
ghost use Rattle.std.specs.Prelude.{◌≡◌, ◌≢◌, ◌<◌, ◌↔◌, ℕ, ◌+◌, ◌%◌, ◌^◌, List, [], length, true, false, IsTrue, None};
ghost use Rattle.hoare_law.specs.Events.{with_event};
ghost use Rattle.hoare_law.specs.declared.event.History.{History};
ghost use Rattle.hoare_law.specs.declared.event.Event.TheVariants as event;
ghost use Rattle.hoare_law.specs.Growth.{AddsLast, Exits};
ghost use Rattle.hoare_law.specs.Sizes.{IsHoare, kinds_of};
ghost use Rattle.hoare_law.specs.Priorities.{priorities};
ghost use Rattle.hoare_law.specs.Turns.{outside};
ghost use Rattle.door_frame.specs.Places.{IsOut, IsIn, IsInHistory, Handed};
ghost use Rattle.door_frame.specs.Seats.{IsEmptyHanded, IsEntering};
ghost use Rattle.door_frame.specs.Steps.{EnteredBy};
ghost use Rattle.ticket_door.specs.Asked.{IsAsking, IsServed, IsAsked, EntersBy, WaitsBehind};
ghost use Rattle.ticket_door.specs.Steps.{TakesTicket};
ghost use Rattle.hoare_law.specs.Admissions.{admitted};

use crate::door::RawTicketDoor;
use crate::place::{Asked, TicketIn, TicketOut};
use crate::rule::{Counting, PollTicket, TakeTicket};
use crate::words::{NEXT, SERVING, served_as};
use door_frame::calls::{self, enter_with};
use door_frame::guarded::GuardedBox;
use door_frame::patience::Patience;
use door_frame::seat_steps::DoorSeat;
use door_frame::slot::take_guarded;
use hoare_law::data::MonitorData;
use std::marker::Brand;
use std::sync::Wait;

impl<D: MonitorData> RawTicketDoor<D> {
    /// Takes the next ticket and returns it. The seat learns all that happened so far.
    #[inline]
    pub(crate) fn draw<J: Counting>(&self, seat: &mut DoorSeat<D>, place: usize) -> u64
        requires table { seat.old.table_id ≡ self.now.door.table }
        requires first { self.now.first ≡ J.first }
        requires places { self.now.door.places ≡ J.places }
        requires entering { IsEntering place seat.old.me }
        ensures table { seat.new.table_id ≡ seat.old.table_id }
        ensures drawn { (f : History D) → IsEmptyHanded place f seat.old.me → (g : History D) × (before : List ℕ)
            × TakesTicket D.rest D.ready self.now.door.places place f g before seat.new.me
            × (result ≡ (self.now.first + length before) % 2 ^ 64) }
    {
        self.table.shared.fetch_add::<TakeTicket<J>>(seat, NEXT, 1)
    }

    /// Loads SERVING once. Returns true if `ticket` is served: the place is then admitted.
    #[inline]
    fn is_served<J: Counting>(&self, seat: &mut DoorSeat<D>, place: usize, ticket: u64) -> bool
        requires table { seat.old.table_id ≡ self.now.door.table }
        requires first { self.now.first ≡ J.first }
        requires asked { (f : History D) × (before : List ℕ) × IsAsking place f before seat.old.me × (ticket
            ≡ (self.now.first + length before) % 2 ^ 64) × (outside place f.events ≡ true) }
        ensures table { seat.new.table_id ≡ seat.old.table_id }
        ensures missed { result ≡ false → seat.new.me ≡ seat.old.me }
        ensures let_in { result ≡ true → IsServed D.rest D.ready place seat.old.me seat.new.me }
    {
        self.table.shared.load::<PollTicket<J>>(seat, SERVING) == served_as(ticket)
    }

    /// Polls until `ticket` is served: the place is then admitted. Sleeps between polls.
    #[inline(never)]
    fn keep_polling<J: Counting, R: Wait>(
        &self,
        rt: &R,
        seat: &mut DoorSeat<D>,
        place: usize,
        ticket: u64,
        patience: &Patience,
    )
        requires table { seat.old.table_id ≡ self.now.door.table }
        requires first { self.now.first ≡ J.first }
        requires asked { (f : History D) × (before : List ℕ) × IsAsking place f before seat.old.me × (ticket
            ≡ (self.now.first + length before) % 2 ^ 64) × (outside place f.events ≡ true) }
        ensures table { seat.new.table_id ≡ seat.old.table_id }
        ensures let_in { IsServed D.rest D.ready place seat.old.me seat.new.me }
    {
        let turn = served_as(ticket);
        for _ in rt.forever() {
            if self.is_served::<J>(seat, place, ticket) {
                return;
            }
            self.wait_for(rt, turn, patience);
        }
        unreachable!()
    }

    /// Waits until `ticket` is served, then takes the guarded box. The first poll is kept apart: it is short enough to
    /// inline.
    #[inline]
    pub(crate) fn served<J: Counting, R: Wait>(
        &self,
        rt: &R,
        seat: &mut DoorSeat<D>,
        place: usize,
        ticket: u64,
        patience: &Patience,
    ) -> GuardedBox<D>
        requires table { seat.old.table_id ≡ self.now.door.table }
        requires first { self.now.first ≡ J.first }
        requires asked { (f : History D) × (before : List ℕ) × IsAsking place f before seat.old.me × (ticket
            ≡ (self.now.first + length before) % 2 ^ 64) × (outside place f.events ≡ true) }
        ensures table { seat.new.table_id ≡ seat.old.table_id }
        ensures enters_with { (f : History D) (before : List ℕ) → IsAsking place f before seat.old.me
            → (c : EnteredBy D.rest D.ready place f (event.Admit place) result None seat.new.me)
            × (admitted c.log.events ≡ before) }
    {
        if self.is_served::<J>(seat, place, ticket) {
            return take_guarded(&self.table, seat);
        }
        self.keep_polling::<J, R>(rt, seat, place, ticket, patience);
        take_guarded(&self.table, seat)
    }

    /// Takes the next ticket. The place learns all that happened so far. `come_in` enters with the ticket, after the
    /// places with the tickets before it that are not served yet. They are other places, each once, and so fewer than
    /// the door has places.
    #[inline]
    pub fn ask(&self, out: TicketOut<D>) -> Asked<D>
        requires { IsOut D.rest D.ready (kinds_of D.CONDITIONS D.MESA) self.now.door out }
        ensures of { IsAsked D.rest D.ready (kinds_of D.CONDITIONS D.MESA) self.now result }
        ensures place { result.place ≡ out.place }
        ensures front { IsInHistory result.front out }
    {
        let (mut seat, place, sleeper) = out.into_parts();
        let ticket = self.draw::<Brand>(&mut seat, place);
        Asked {
            seat,
            place,
            sleeper,
            ticket,
        }
    }

    /// Enters once the ticket is served. Since it was taken, exactly the places were admitted whose tickets were
    /// before it then and not served yet: each once, in the order of their tickets. So no place overtakes a ticket
    /// twice.
    #[inline]
    pub fn come_in<R: Wait>(&self, rt: &R, asked: Asked<D>) -> TicketIn<D>
        requires { IsAsked D.rest D.ready (kinds_of D.CONDITIONS D.MESA) self.now asked }
        ensures of { IsIn D.rest D.ready (kinds_of D.CONDITIONS D.MESA) self.now.door result }
        ensures place { result.place ≡ asked.place }
        ensures rest { D.rest result.state (priorities result.front.events) }
        ensures front { AddsLast asked.front (event.Admit asked.place result.state) result.front }
        ensures in_turn { EntersBy self.now.first asked.ticket result.front }
        ensures admissions_before { WaitsBehind self.now.door.places asked result }
    {
        let Asked {
            mut seat,
            place,
            sleeper,
            ticket,
        } = asked;
        let guarded = self.served::<Brand, R>(rt, &mut seat, place, ticket, &sleeper.to_enter);
        enter_with(seat, place, sleeper, guarded)
    }

    /// Leaves the monitor, as `leave` does. Non-blocking; needs no `Wait`.
    pub fn give_up(&self, inside: TicketIn<D>) -> TicketOut<D>
        requires of { IsIn D.rest D.ready (kinds_of D.CONDITIONS D.MESA) self.now.door inside }
        requires rest { D.rest inside.state (priorities inside.front.events) }
        ensures of { IsOut D.rest D.ready (kinds_of D.CONDITIONS D.MESA) self.now.door result }
        ensures place { result.place ≡ inside.place }
        ensures front { result.front ≡ with_event inside.front
            (event.Leave inside.place inside.state) }
    {
        calls::leave(self, inside)
    }

    /// Signals `condition` and leaves, as `signal_leave` does. Returns true if a waiter was resumed. Non-blocking;
    /// needs no `Wait`.
    pub fn hand_up(&self, inside: TicketIn<D>, condition: usize) -> (TicketOut<D>, bool)
        requires of { IsIn D.rest D.ready (kinds_of D.CONDITIONS D.MESA) self.now.door inside }
        requires hoare { IsHoare D.CONDITIONS D.MESA condition }
        requires ready { priorities inside.front.events condition ≢ []
            → Handed D.ready condition inside }
        requires rest { priorities inside.front.events condition ≡ []
            → D.rest inside.state (priorities inside.front.events) }
        ensures of { IsOut D.rest D.ready (kinds_of D.CONDITIONS D.MESA) self.now.door result.0 }
        ensures place { result.0.place ≡ inside.place }
        ensures answer { IsTrue result.1 ↔ (priorities inside.front.events condition ≢ []) }
        ensures front { Exits inside.place condition inside.state inside.front
            result.0.front result.1 }
    {
        calls::signal_leave(self, inside, condition)
    }
}
