//! How a thread enters if the monitor isn't free at once. It attempts for a while, sleeps at the entrance until a
//! thread frees the monitor, and begins again.
ghost use Rattle.std.specs.Prelude.{◌≡◌, true, false};
ghost use Rattle.hoare_law.specs.declared.event.Event.TheVariants as event;
ghost use Rattle.hoare_law.specs.Growth.{AddsLast};
ghost use Rattle.hoare_law.specs.Priorities.{priorities};
ghost use Rattle.hoare_law.specs.Sizes.{kinds_of};
ghost use Rattle.door_frame.specs.Places.{IsIn, IsOut};
ghost use Rattle.baton_door.specs.Entering.{IsOutside, IsAdmitted, StaysOut};

use crate::door::RawBatonDoor;
use crate::place::{DoorIn, DoorOut};
use crate::table_steps::try_in;
use crate::word::{DOOR, FREE};
use door_frame::calls::enter_with;
use door_frame::patience::Patience;
use door_frame::polling::{POLLS, pause};
use door_frame::seat_steps::DoorSeat;
use door_frame::slot::take_guarded;
use hoare_law::data::MonitorData;
use std::sync::Wait;

impl<D: MonitorData> RawBatonDoor<D> {
    /// Attempts to enter after pauses of 1, 2, 4 .. spin hints, up to `POLLS` in one pause, each time the state word is
    /// seen to be `FREE`. Returns true if the place is in.
    fn try_a_while(&self, seat: &mut DoorSeat<D>) -> bool
        requires table { seat.old.table_id ≡ self.now.table }
        requires outside { IsOutside seat.old.me }
        ensures table { seat.new.table_id ≡ seat.old.table_id }
        ensures turned_away { result ≡ false → StaysOut seat.old.me seat.new.me }
        ensures let_in { result ≡ true → IsAdmitted D.rest D.ready seat.old.me seat.new.me }
    {
        for doublings in 0..u32::BITS {
            let hints = 1 << doublings;
            if hints > POLLS {
                return false;
            }
            pause(hints);
            if self.table.shared.peek(DOOR) == FREE && try_in(&self.table, seat) {
                return true;
            }
        }
        false
    }

    /// Attempts to enter for a while, or once if `patience` leaves the others out. Returns true if the place is in.
    fn try_or_skip(&self, seat: &mut DoorSeat<D>, patience: &Patience) -> bool
        requires table { seat.old.table_id ≡ self.now.table }
        requires outside { IsOutside seat.old.me }
        ensures table { seat.new.table_id ≡ seat.old.table_id }
        ensures turned_away { result ≡ false → StaysOut seat.old.me seat.new.me }
        ensures let_in { result ≡ true → IsAdmitted D.rest D.ready seat.old.me seat.new.me }
    {
        if !patience.may_poll() {
            return try_in(&self.table, seat);
        }
        let is_in = self.try_a_while(seat);
        patience.has_polled(is_in);
        is_in
    }

    /// Attempts to enter until the place is in. Sleeps at the entrance after attempts for a while, or one, that failed.
    #[inline(never)] // apart, so that an enter stays small
    fn keep_trying<R: Wait>(&self, rt: &R, seat: &mut DoorSeat<D>, patience: &Patience)
        requires table { seat.old.table_id ≡ self.now.table }
        requires outside { IsOutside seat.old.me }
        ensures table { seat.new.table_id ≡ seat.old.table_id }
        ensures let_in { IsAdmitted D.rest D.ready seat.old.me seat.new.me }
    {
        if self.try_or_skip(seat, patience) {
            return;
        }
        self.entrance.arrive();
        self.sleep_and_try(rt, seat, patience);
        self.entrance.depart();
    }

    /// Says that the thread may sleep, attempts to enter, and sleeps, until the place is in. After each sleep the
    /// thread attempts for a while, or once.
    fn sleep_and_try<R: Wait>(&self, rt: &R, seat: &mut DoorSeat<D>, patience: &Patience)
        requires table { seat.old.table_id ≡ self.now.table }
        requires outside { IsOutside seat.old.me }
        ensures table { seat.new.table_id ≡ seat.old.table_id }
        ensures let_in { IsAdmitted D.rest D.ready seat.old.me seat.new.me }
    {
        for _ in rt.forever() {
            self.entrance.announce();
            if try_in(&self.table, seat) {
                return;
            }
            self.entrance.sleep(rt);
            if self.try_or_skip(seat, patience) {
                return;
            }
        }
        unreachable!()
    }

    /// Enters, once an attempt succeeds.
    #[inline] // else the place is returned through memory, which the code of each `enter` clears first
    pub(crate) fn enter_later<R: Wait>(&self, rt: &R, out: DoorOut<D>) -> DoorIn<D>
        requires { IsOut D.rest D.ready (kinds_of D.CONDITIONS D.MESA) self.now out }
        ensures of { IsIn D.rest D.ready (kinds_of D.CONDITIONS D.MESA) self.now result }
        ensures place { result.place ≡ out.place }
        ensures rest { D.rest result.state (priorities result.front.events) }
        ensures front { AddsLast out.front (event.Admit out.place result.state) result.front }
    {
        let (mut seat, place, sleeper) = out.into_parts();
        self.keep_trying(rt, &mut seat, &sleeper.to_enter);
        let guarded = take_guarded(&self.table, &mut seat);
        enter_with(seat, place, sleeper, guarded)
    }
}
