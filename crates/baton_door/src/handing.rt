//! How the monitor of a `Door` is released. The releasing thread puts the guarded box into the slot, then writes the
//! state word. If a place resumes, the thread then wakes it.
//!
//! `door_frame::parking` argues for any door why no wake-up is lost. What it calls the word of a place is here the
//! state word, which all places share.
ghost use Rattle.std.specs.Prelude.{◌≡◌, ◌<◌};
ghost use Rattle.wait_book.specs.Contents.{IsPlaceBelow};
ghost use Rattle.wait_book.specs.declared.steps.Next.TheVariants.{For};
ghost use Rattle.door_frame.specs.Steps.{MayGive};
ghost use Rattle.door_frame.specs.Places.{IsWoken, sleeper_at};
ghost use Rattle.door_frame.specs.Seats.{GoesOut};

use crate::door::RawBatonDoor;
use crate::leaving::{is_leaving, is_wait};
use crate::table_steps::put_and_write;
use door_frame::guarded::GuardedBox;
use door_frame::release::Release;
use door_frame::seat_steps::{DoorSeat, PickedEvent};
use door_frame::waking::Woken;
use hoare_law::data::MonitorData;
use wait_book::steps::Next;

impl<D: MonitorData> RawBatonDoor<D> {
    /// Puts `guarded` into the slot, and then stores `word_of_next(next)` in the state word. In the proofs the store
    /// adds the event `J.event`, which the caller chooses, to the history.
    ///
    /// After the store: if `next` is a place that resumes, wakes that place, and returns a `Woken`, which shows that
    /// the place was woken. Else calls `help_others`, if an entering thread may sleep or the caller is to back off, and
    /// then returns `None`.
    #[inline(always)] // if the compiler can tell that `next` is `Next::Free`, it leaves out the call of `give_to`
    pub(crate) fn give<J: PickedEvent<D>>(
        &self,
        seat: &mut DoorSeat<D>,
        guarded: GuardedBox<D>,
        place: usize,
        how: Release,
        next: Next,
    ) -> Option<Woken>
        requires table { seat.old.table_id ≡ self.now.table }
        requires next { IsPlaceBelow self.now.places next }
        requires event { MayGive D.rest D.ready J.event place seat.old.me guarded next }
        ensures table { seat.new.table_id ≡ seat.old.table_id }
        ensures away { GoesOut place J.event seat.old.me guarded.state seat.new.me }
        ensures woken { IsWoken self.now next result }
    {
        match next {
            Next::For(resumed) => {
                Some(self.give_to::<J>(seat, guarded, place, is_leaving(how), resumed))
            }
            Next::Free | Next::Held(_) => {
                let backs_off = guarded.held.backs_off && !is_wait(how);
                put_and_write::<D, usize, J>(&self.table, seat, guarded, place, false, next);
                if backs_off || self.entrance.may_sleep() {
                    self.help_others(backs_off);
                }
                None
            }
        }
    }

    /// Hands the monitor off to the place `resumed`, with `guarded` back in the slot, and wakes that place. `leaves` is
    /// true if the place that hands off is outside afterwards: it leaves or passes, and doesn't wait or signal.
    #[inline(never)] // apart, so that a plain leave stays small
    fn give_to<J: PickedEvent<D>>(
        &self,
        seat: &mut DoorSeat<D>,
        guarded: GuardedBox<D>,
        place: usize,
        leaves: bool,
        resumed: usize,
    ) -> Woken
        requires table { seat.old.table_id ≡ self.now.table }
        requires below { resumed < self.now.places }
        requires event { MayGive D.rest D.ready J.event place seat.old.me guarded (For resumed) }
        ensures table { seat.new.table_id ≡ seat.old.table_id }
        ensures away { GoesOut place J.event seat.old.me guarded.state seat.new.me }
        ensures woken { result ≡ sleeper_at self.now resumed }
    {
        let (table, next) = (&self.table, Next::For(resumed));
        put_and_write::<D, usize, J>(table, seat, guarded, place, leaves, next);
        self.wakers[resumed].wake(seat)
    }
}
