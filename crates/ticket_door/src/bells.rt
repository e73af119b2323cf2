//! Releasing the monitor. The releasing thread serves the next ticket; or it rings the bell of the place that resumes,
//! and wakes that place. `door_frame::parking` has the reason why no wake-up of a place is lost: the word of each place
//! is its bell. `waiting_room` has it for the thread whose ticket is served.
ghost use Rattle.std.specs.Prelude.{◌≡◌, ◌<◌};
ghost use Rattle.wait_book.specs.Contents.{IsPlaceBelow};
ghost use Rattle.wait_book.specs.declared.steps.Next.TheVariants.{For, Free};
ghost use Rattle.door_frame.specs.Steps.{MayGive, MayNote};
ghost use Rattle.door_frame.specs.Places.{IsWoken, sleeper_at};
ghost use Rattle.door_frame.specs.Seats.{GoesOut, StaysIn};

use crate::door::RawTicketDoor;
use crate::words::{RUNG, SERVING, TURN, bell_of};
use door_frame::guarded::GuardedBox;
use door_frame::notification::Notification;
use door_frame::release::Release;
use door_frame::seat_steps::{DoorSeat, Give, Note, PickedEvent, PickedNotification};
use door_frame::slot::put_guarded;
use door_frame::waking::Woken;
use hoare_law::data::MonitorData;
use wait_book::steps::Next;

impl<D: MonitorData> RawTicketDoor<D> {
    /// Puts the guarded box back and releases the monitor, by the event that `J` picks: to the next ticket if `next` is
    /// `Free`, else to the place that resumes. The result shows which place was woken, if any. Only the pick uses `how`.
    #[inline(always)] // a plain leave is short if the compiler sees that no place resumes
    pub(crate) fn give<J: PickedEvent<D>>(
        &self,
        seat: &mut DoorSeat<D>,
        guarded: GuardedBox<D>,
        place: usize,
        how: Release,
        next: Next,
    ) -> Option<Woken>
        requires table { seat.old.table_id ≡ self.now.door.table }
        requires next { IsPlaceBelow self.now.door.places next }
        requires event { MayGive D.rest D.ready J.event place seat.old.me guarded next }
        ensures table { seat.new.table_id ≡ seat.old.table_id }
        ensures away { GoesOut place J.event seat.old.me guarded.state seat.new.me }
        ensures woken { IsWoken self.now.door next result }
    {
        match next {
            Next::Free => {
                self.open::<J>(seat, guarded, place);
                None
            }
            Next::For(resumed) => Some(self.ring::<J>(seat, guarded, place, resumed)),
            Next::Held(_) => unreachable!(),
        }
    }

    /// Puts the guarded box back if no place resumes: the next ticket is served, and its thread is woken if it
    /// sleeps.
    #[inline(always)] // as `give` is, which calls it
    fn open<J: PickedEvent<D>>(&self, seat: &mut DoorSeat<D>, guarded: GuardedBox<D>, place: usize)
        requires table { seat.old.table_id ≡ self.now.door.table }
        requires event { MayGive D.rest D.ready J.event place seat.old.me guarded Free }
        ensures table { seat.new.table_id ≡ seat.old.table_id }
        ensures away { GoesOut place J.event seat.old.me guarded.state seat.new.me }
    {
        put_guarded(&self.table, seat, guarded);
        let ended = self.table.shared.fetch_add::<Give<J>>(seat, SERVING, TURN);
        self.wake_next(ended.wrapping_add(TURN));
    }

    /// Puts the guarded box back for the place `resumed`, rings that place's bell, and wakes it.
    #[inline(never)] // apart, so that a plain leave stays small
    fn ring<J: PickedEvent<D>>(
        &self,
        seat: &mut DoorSeat<D>,
        guarded: GuardedBox<D>,
        place: usize,
        resumed: usize,
    ) -> Woken
        requires table { seat.old.table_id ≡ self.now.door.table }
        requires below { resumed < self.now.door.places }
        requires event { MayGive D.rest D.ready J.event place seat.old.me guarded (For resumed) }
        ensures table { seat.new.table_id ≡ seat.old.table_id }
        ensures away { GoesOut place J.event seat.old.me guarded.state seat.new.me }
        ensures woken { result ≡ sleeper_at self.now.door resumed }
    {
        put_guarded(&self.table, seat, guarded);
        self.table
            .shared
            .store::<Give<J>>(seat, bell_of(resumed), RUNG);
        self.wakers[resumed].wake(seat)
    }

    /// Adds the event that `J` picks to the door's history, by one load of SERVING, for the place inside. The value
    /// found isn't used. `guarded` and `notification` are there only for the pick.
    #[inline]
    pub(crate) fn tell<J: PickedNotification<D>>(
        &self,
        seat: &mut DoorSeat<D>,
        guarded: &GuardedBox<D>,
        place: usize,
        notification: Notification,
    )
        requires table { seat.old.table_id ≡ self.now.door.table }
        requires event { MayNote D.rest D.ready J.event place seat.old.me }
        ensures table { seat.new.table_id ≡ seat.old.table_id }
        ensures stays { StaysIn place J.event seat.old.me seat.new.me }
    {
        self.table.shared.load::<Note<J>>(seat, SERVING);
    }
}
