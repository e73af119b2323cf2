//! The steps on the state word of a baton door, which need its table alone. No function here blocks or wakes a thread.
ghost use Rattle.std.specs.Prelude.{◌≡◌, ◌<◌, ℕ, true, false, IfSome, IfNone};
ghost use Rattle.hoare_law.specs.declared.event.History.{History};
ghost use Rattle.hoare_law.specs.declared.event.Event.TheVariants as event;
ghost use Rattle.wait_book.specs.Contents.{IsPlaceBelow};
ghost use Rattle.door_frame.specs.Steps.{MayGive, MayNote, due};
ghost use Rattle.door_frame.specs.Refusals.{NotFree, NotOwed};
ghost use Rattle.door_frame.specs.Seats.{IsEmptyHanded, HasReleased, IsEntering, IsRefused, EntersWith, GoesOut};
ghost use Rattle.door_frame.specs.Seats.{StaysIn};
ghost use Rattle.baton_door.specs.Entering.{IsOutside, IsAdmitted};

use crate::rule::{Admit, Claim, DoorKey, DoorTable};
use crate::word::{DOOR, FREE, HELD, owed, word_of_next};
use door_frame::guarded::GuardedBox;
use door_frame::notification::Notification;
use door_frame::seat_steps::{DoorSeat, Give, Note, PickedEvent, PickedNotification};
use door_frame::slot::{put_guarded, take_guarded};
use hoare_law::data::MonitorData;
use wait_book::steps::Next;

/// Tries once to enter. Returns true if the monitor was free; the place is then inside. Else the place learns the
/// history at that moment.
#[inline]
pub(crate) fn try_in<D: MonitorData, K: DoorKey<D>>(
    table: &DoorTable<D, K>,
    seat: &mut DoorSeat<D>,
) -> bool
    requires table { seat.old.table_id ≡ table.now.shared.table_id }
    requires wide { table.now.shared.table_id.words ≡ 8 }
    requires outside { IsOutside seat.old.me }
    ensures table { seat.new.table_id ≡ seat.old.table_id }
    ensures refused { result ≡ false → (k : ℕ) → IsRefused D.rest D.ready (λ f. NotFree) k seat.old.me seat.new.me }
    ensures let_in { result ≡ true → IsAdmitted D.rest D.ready seat.old.me seat.new.me }
{
    table
        .shared
        .compare_exchange::<Admit>(seat, DOOR, FREE, HELD)
        == FREE
}

/// Tries once to enter, and takes the guarded box. Returns `None` if the compare-exchange doesn't find `FREE`: by it the
/// place learns the history at that moment.
#[inline]
pub(crate) fn try_admit<D: MonitorData, K: DoorKey<D>>(
    table: &DoorTable<D, K>,
    seat: &mut DoorSeat<D>,
    place: usize,
) -> Option<GuardedBox<D>>
    requires table { seat.old.table_id ≡ table.now.shared.table_id }
    requires wide { table.now.shared.table_id.words ≡ 8 }
    requires outside { IsEntering place seat.old.me }
    ensures table { seat.new.table_id ≡ seat.old.table_id }
    ensures enters_with { IfSome result (λ guarded. EntersWith D.rest D.ready place (λ f. event.Admit place)
        seat.old.me guarded seat.new.me) }
    ensures refused { IfNone result (IsRefused D.rest D.ready (λ f. NotFree) place seat.old.me seat.new.me) }
{
    if !try_in(table, seat) {
        return None;
    }
    Some(take_guarded(table, seat))
}

/// Tries once to get `place`, which waited or signalled, inside again, and takes the guarded box. Returns `None` if the
/// compare-exchange doesn't find the monitor owed to `place`: by it the place learns the history at that moment.
#[inline]
pub(crate) fn try_claim<D: MonitorData, K: DoorKey<D>>(
    table: &DoorTable<D, K>,
    seat: &mut DoorSeat<D>,
    place: usize,
) -> Option<GuardedBox<D>>
    requires table { seat.old.table_id ≡ table.now.shared.table_id }
    requires wide { table.now.shared.table_id.words ≡ 8 }
    requires small { place < 64 }
    requires away { (f : History D) × IsEmptyHanded place f seat.old.me }
    ensures table { seat.new.table_id ≡ seat.old.table_id }
    ensures enters_with { IfSome result (λ guarded. EntersWith D.rest D.ready place (due place)
        seat.old.me guarded seat.new.me) }
    ensures refused { IfNone result (IsRefused D.rest D.ready (λ f. NotOwed place) place seat.old.me seat.new.me) }
{
    let mine = owed(place);
    if table
        .shared
        .compare_exchange::<Claim>(seat, DOOR, mine, HELD)
        == mine
    {
        return Some(take_guarded(table, seat));
    }
    None
}

/// Puts `guarded`, with `backs_off` in it, into the slot, and then stores `word_of_next(next)` in the state word. In
/// the proofs the store adds the event `J.event`, which the caller chooses, to the history.
#[inline(always)] // if the compiler knows `next`, it computes the word
pub(crate) fn put_and_write<D: MonitorData, K: DoorKey<D>, J: PickedEvent<D>>(
    table: &DoorTable<D, K>,
    seat: &mut DoorSeat<D>,
    mut guarded: GuardedBox<D>,
    place: usize,
    backs_off: bool,
    next: Next,
)
    requires table { seat.old.table_id ≡ table.now.shared.table_id }
    requires wide { table.now.shared.table_id.words ≡ 8 }
    requires next { IsPlaceBelow 64 next }
    requires event { MayGive D.rest D.ready J.event place seat.old.me guarded next }
    ensures table { seat.new.table_id ≡ seat.old.table_id }
    ensures away { GoesOut place J.event seat.old.me guarded.state seat.new.me }
    ensures released { HasReleased seat.new.me }
{
    guarded.held.backs_off = backs_off;
    put_guarded(table, seat, guarded);
    table
        .shared
        .store::<Give<J>>(seat, DOOR, word_of_next(next));
}

/// Loads the state word once, and ignores the value. Only the proofs use `guarded` and `notification`: in them this
/// load adds the event `J.event`, which the caller chooses, to the history.
#[inline]
pub(crate) fn tell<D: MonitorData, K: DoorKey<D>, J: PickedNotification<D>>(
    table: &DoorTable<D, K>,
    seat: &mut DoorSeat<D>,
    guarded: &GuardedBox<D>,
    place: usize,
    notification: Notification,
)
    requires table { seat.old.table_id ≡ table.now.shared.table_id }
    requires wide { table.now.shared.table_id.words ≡ 8 }
    requires event { MayNote D.rest D.ready J.event place seat.old.me }
    ensures table { seat.new.table_id ≡ seat.old.table_id }
    ensures stays { StaysIn place J.event seat.old.me seat.new.me }
{
    table.shared.load::<Note<J>>(seat, DOOR);
}
