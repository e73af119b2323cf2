//! One attempt to enter: the place shuts the gate, is admitted if no place has a ticket or the monitor, and opens the
//! gate again. By each step the place learns the history, so that it knows why it isn't admitted.
//!
//! NEXT and SERVING are two words, and any number of turns may pass between a poll of one and a step on the other. So
//! the place shuts the gate first: while SERVING is odd, no poll admits an entering thread, and no other place can shut
//! the gate. From then on at most one turn ends, and at most as many tickets are taken as there are places. So if NEXT
//! is still the ticket that was served when the gate was shut, no place has a ticket, and no turn has begun since. No
//! ticket is passed over: the admitted place has taken that ticket.
ghost use Rattle.std.specs.Prelude.{◌≡◌, ◌*◌, ◌%◌, ◌^◌, [], ◌∷◌, true, false, Some, IfNone, IfSome};
ghost use Rattle.hoare_law.specs.declared.event.History.{History};
ghost use Rattle.hoare_law.specs.declared.event.Event.TheVariants as event;
ghost use Rattle.hoare_law.specs.Turns.{outside};
ghost use Rattle.door_frame.specs.Refusals.{WasBarred};
ghost use Rattle.door_frame.specs.Seats.{EntersWith, IsEmptyHanded, IsEntering, IsRefused, StaysAway};
ghost use Rattle.door_frame.specs.Steps.{Learns, Refused};
ghost use Rattle.door_frame.specs.Views.{knows};
ghost use Rattle.door_frame.specs.declared.view.Token.TheVariants.{Gate};
ghost use Rattle.ticket_door.specs.Tries.{IsTrying, HasGate, IsAdmitted, IsPassed, MissesTicket, NextTells, Reopened};

use crate::door::RawTicketDoor;
use crate::rule::{AdmitTry, CloseGate, Counting, OpenGate, ReadNext, ReadServing};
use crate::words::{NEXT, SERVING, SHUT, served_as};
use door_frame::guarded::GuardedBox;
use door_frame::seat_steps::DoorSeat;
use door_frame::slot::take_guarded;
use hoare_law::data::MonitorData;

impl<D: MonitorData> RawTicketDoor<D> {
    /// Loads NEXT.
    #[inline]
    fn read_next<J: Counting>(&self, seat: &mut DoorSeat<D>, place: usize) -> u64
        requires table { seat.old.table_id ≡ self.now.door.table }
        requires first { self.now.first ≡ J.first }
        requires away { (f : History D) × IsEmptyHanded place f seat.old.me }
        ensures table { seat.new.table_id ≡ seat.old.table_id }
        ensures read { (f : History D) → IsEmptyHanded place f seat.old.me
            → Refused D.rest D.ready (NextTells J.first place result) place f seat.new.me }
    {
        self.table.shared.load::<ReadNext<J>>(seat, NEXT)
    }

    /// Loads SERVING. Returns true if the gate is open and `ticket` is served.
    #[inline]
    fn finds_served<J: Counting>(&self, seat: &mut DoorSeat<D>, place: usize, ticket: u64) -> bool
        requires table { seat.old.table_id ≡ self.now.door.table }
        requires first { self.now.first ≡ J.first }
        requires away { (f : History D) × IsEmptyHanded place f seat.old.me }
        ensures table { seat.new.table_id ≡ seat.old.table_id }
        ensures missed { result ≡ false
            → IsRefused D.rest D.ready (λ f. IsPassed J.first ticket place) place seat.old.me seat.new.me }
        ensures found { result ≡ true → StaysAway place seat.old.me seat.new.me }
    {
        self.table.shared.load::<ReadServing<J>>(seat, SERVING) == served_as(ticket)
    }

    /// Shuts the gate if it is open and `ticket` is served. Returns true on success.
    #[inline]
    fn shut<J: Counting>(&self, seat: &mut DoorSeat<D>, place: usize, ticket: u64) -> bool
        requires table { seat.old.table_id ≡ self.now.door.table }
        requires first { self.now.first ≡ J.first }
        requires entering { IsEntering place seat.old.me }
        ensures table { seat.new.table_id ≡ seat.old.table_id }
        ensures missed { result ≡ false
            → IsRefused D.rest D.ready (λ f. IsPassed J.first ticket place) place seat.old.me seat.new.me }
        ensures shut { result ≡ true → (f : History D) → IsEmptyHanded place f seat.old.me → (g : History D)
            × Learns D.rest D.ready g (knows place f (Some (Gate ((2 * ticket) % 2 ^ 64))) ∷ []) seat.new.me }
    {
        let turn = served_as(ticket);
        self.table
            .shared
            .compare_exchange::<CloseGate<J>>(seat, SERVING, turn, turn + SHUT)
            == turn
    }

    /// Admits the place, which shut the gate while `ticket` was served, if `ticket` is the next to be taken. Returns
    /// true on success.
    #[inline]
    fn try_in<J: Counting>(&self, seat: &mut DoorSeat<D>, place: usize, ticket: u64) -> bool
        requires table { seat.old.table_id ≡ self.now.door.table }
        requires first { self.now.first ≡ J.first }
        requires trying { (f : History D) × IsTrying place f ((2 * ticket) % 2 ^ 64) seat.old.me
            × (outside place f.events ≡ true) }
        ensures table { seat.new.table_id ≡ seat.old.table_id }
        ensures missed { result ≡ false → (f : History D) → IsTrying place f ((2 * ticket) % 2 ^ 64) seat.old.me
            → MissesTicket J.first D.rest D.ready ticket place f ((2 * ticket) % 2 ^ 64) seat.new.me }
        ensures let_in { result ≡ true
            → IsAdmitted D.rest D.ready place ((2 * ticket) % 2 ^ 64) seat.old.me seat.new.me }
    {
        self.table
            .shared
            .compare_exchange::<AdmitTry<J>>(seat, NEXT, ticket, ticket.wrapping_add(1))
            == ticket
    }

    /// Opens the gate again.
    #[inline]
    fn reopen(&self, seat: &mut DoorSeat<D>)
        requires table { seat.old.table_id ≡ self.now.door.table }
        requires shut { HasGate seat.old.me }
        ensures table { seat.new.table_id ≡ seat.old.table_id }
        ensures opened { Reopened seat.old.me seat.new.me }
    {
        self.table.shared.fetch_sub::<OpenGate>(seat, SERVING, SHUT);
    }

    /// Shuts the gate if NEXT and SERVING have the same ticket, tries to take that ticket, and opens the gate again.
    /// Returns `None` if a place has the monitor or a ticket, and also if another place tries, or a word changes
    /// between the steps. If the place isn't let in, it wakes the thread whose ticket is served, which may have gone to
    /// sleep while the gate was shut.
    pub(crate) fn attempt<J: Counting>(
        &self,
        seat: &mut DoorSeat<D>,
        place: usize,
    ) -> Option<GuardedBox<D>>
        requires table { seat.old.table_id ≡ self.now.door.table }
        requires first { self.now.first ≡ J.first }
        requires outside { IsEntering place seat.old.me }
        ensures table { seat.new.table_id ≡ seat.old.table_id }
        ensures enters_with { IfSome result (λ guarded. EntersWith D.rest D.ready place (λ f. event.Admit place)
            seat.old.me guarded seat.new.me) }
        ensures refused { IfNone result (IsRefused D.rest D.ready (WasBarred place) place
            seat.old.me seat.new.me) }
    {
        let ticket = self.read_next::<J>(seat, place);
        if !self.finds_served::<J>(seat, place, ticket) || !self.shut::<J>(seat, place, ticket) {
            return None;
        }
        let let_in = self.try_in::<J>(seat, place, ticket);
        self.reopen(seat);
        if !let_in {
            self.wake_served();
            return None;
        }
        Some(take_guarded(&self.table, seat))
    }
}
