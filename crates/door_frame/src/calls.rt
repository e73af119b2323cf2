//! The calls of a monitor, on any door, and the halves that they are made of.
ghost use Rattle.std.specs.Prelude.{◌≡◌, ◌≢◌, ◌<◌, ◌↔◌, ℕ, [], length, true, false, IsTrue, None, IfOk, IfErr};
ghost use Rattle.hoare_law.specs.declared.event.History.{History};
ghost use Rattle.hoare_law.specs.declared.event.Event.TheVariants as event;
ghost use Rattle.hoare_law.specs.Events.{with_event};
ghost use Rattle.hoare_law.specs.Growth.{AddsLast, AddsTwo, Broadcasts, Exits, Grows, Notifies, Signals, SignalsTo};
ghost use Rattle.hoare_law.specs.Waiting.{IsWaiting};
ghost use Rattle.hoare_law.specs.Sizes.{IsHoare, IsMesa};
ghost use Rattle.hoare_law.specs.Priorities.{emptied, joined, priorities, taken};
ghost use Rattle.hoare_law.specs.declared.turn.Turn.TheVariants as turns;
ghost use Rattle.hoare_law.specs.Turns.{turn};
ghost use Rattle.wait_book.specs.Contents.{IsOf, next_of, priorities_on};
ghost use Rattle.door_frame.specs.Notifications.{IsCounted, Noted, after_notification, called_on};
ghost use Rattle.door_frame.specs.Places.{IsOut, IsIn, IsAway, IsBack, IsStillAway, Handed, HandedTo, HandsTo};
ghost use Rattle.door_frame.specs.Places.{place_id, place_in};
ghost use Rattle.door_frame.specs.Steps.{EnteredBy, due};

use crate::guarded::GuardedBox;
use crate::notification::Notification;
use crate::parking::claim;
use crate::place::{Away, Inside, Outside};
use crate::raw_monitor::{RawMonitor, Wakes};
use crate::release::Release;
use crate::seat_steps::DoorSeat;
use crate::waking::Parking;
use hoare_law::data::MonitorData;
use std::sync::Wait;
use wait_book::book::Book;
use wait_book::steps::Next;

/// Creates a place inside from the parts of a place that the door just admitted, and records the admission in the queue
/// book.
#[inline]
pub fn enter_with<D: MonitorData, S: Parking>(
    seat: DoorSeat<D>,
    place: usize,
    sleeper: S,
    mut guarded: GuardedBox<D>,
) -> Inside<D, S>
    requires entered_by { (f : History D)
        × EnteredBy D.rest D.ready place f (event.Admit place) guarded None seat.me }
    ensures { (f : History D)
        (c : EnteredBy D.rest D.ready place f (event.Admit place) guarded None seat.me)
        → result ≡ place_in (place_id seat.table_id (S.at seat.table_id sleeper)) place
        (with_event c.log (event.Admit place guarded.state)) guarded.state }
{
    guarded.held.contents.book.admit(place);
    Inside::of_parts(seat, place, sleeper, guarded)
}

/// Creates a place inside from the parts of a place that just returned from a wait or a signal, and records the return
/// in the queue book.
#[inline]
fn return_with<D: MonitorData, S: Parking>(
    seat: DoorSeat<D>,
    place: usize,
    sleeper: S,
    mut guarded: GuardedBox<D>,
) -> Inside<D, S>
    requires entered_by { (f : History D)
        × EnteredBy D.rest D.ready place f (due place f) guarded None seat.me }
    ensures { (f : History D) (c : EnteredBy D.rest D.ready place f (due place f) guarded None seat.me)
        → result ≡ place_in (place_id seat.table_id (S.at seat.table_id sleeper)) place
        (with_event c.log (due place f guarded.state)) guarded.state }
{
    guarded.held.contents.book.claim(place);
    Inside::of_parts(seat, place, sleeper, guarded)
}

/// Implements `Monitor::try_enter`: enters if the door admits the place at this moment, else returns the place, still
/// outside: it has learned the history at some moment of this call, and `refuses` says why it isn't inside.
#[inline]
pub fn try_enter<D: MonitorData, T: RawMonitor<D>, S: Parking>(
    door: &T,
    out: Outside<D, S>,
) -> Result<Inside<D, S>, Outside<D, S>>
    requires { IsOut D.rest D.ready (T.kinds door.now) (T.id door.now) out }
    ensures of { IfOk result
        (λ i. IsIn D.rest D.ready (T.kinds door.now) (T.id door.now) i) }
    ensures place { IfOk result (λ i. i.place ≡ out.place) }
    ensures rest { IfOk result (λ i. D.rest i.state (priorities i.front.events)) }
    ensures front { IfOk result
        (λ i. AddsLast out.front (event.Admit out.place i.state) i.front) }
    ensures still_of { IfErr result (λ o. IsOut D.rest D.ready (T.kinds door.now) (T.id door.now) o) }
    ensures still_place { IfErr result (λ o. o.place ≡ out.place) }
    ensures learned { IfErr result (λ o. Grows out.place [] out.front o.front) }
    ensures refused { IfErr result (λ o. T.refuses door.now out.place out.front o.front) }
{
    let (mut seat, place, sleeper) = out.into_parts();
    match door.try_admit(&mut seat, place) {
        Some(guarded) => Ok(enter_with(seat, place, sleeper, guarded)),
        None => Err(Outside::of_parts(seat, place, sleeper)),
    }
}

/// Leaves as `Monitor::leave` does, and also returns which place resumes next. If the door doesn't wake its places, the
/// caller wakes that place.
#[inline(always)] // as `leave` is
pub fn leave_to<D: MonitorData, T: RawMonitor<D>, S: Parking>(
    door: &T,
    inside: Inside<D, S>,
) -> (Outside<D, S>, Next)
    requires of { IsIn D.rest D.ready (T.kinds door.now) (T.id door.now) inside }
    requires rest { D.rest inside.state (priorities inside.front.events) }
    ensures of { IsOut D.rest D.ready (T.kinds door.now) (T.id door.now) result.0 }
    ensures place { result.0.place ≡ inside.place }
    ensures front { result.0.front
        ≡ with_event inside.front (event.Leave inside.place inside.state) }
    ensures next { result.1 ≡ next_of (turn result.0.front.events) }
{
    let (mut seat, place, sleeper, mut guarded) = inside.into_parts();
    let next = guarded.held.contents.book.leave(place);
    door.release(&mut seat, guarded, place, Release::Leave, next);
    (Outside::of_parts(seat, place, sleeper), next)
}

/// Implements `Monitor::leave`.
#[inline(always)] // else a call remains, although the door's `release` is inlined
pub fn leave<D: MonitorData, T: RawMonitor<D>, S: Parking>(
    door: &T,
    inside: Inside<D, S>,
) -> Outside<D, S>
    requires of { IsIn D.rest D.ready (T.kinds door.now) (T.id door.now) inside }
    requires rest { D.rest inside.state (priorities inside.front.events) }
    ensures of { IsOut D.rest D.ready (T.kinds door.now) (T.id door.now) result }
    ensures place { result.place ≡ inside.place }
    ensures front { result.front ≡ with_event inside.front (event.Leave inside.place inside.state) }
{
    let (out, _) = leave_to(door, inside);
    out
}

/// Does the first half of `Monitor::wait`: releases the monitor. The place is then away, and returns by `try_return`.
/// Also returns which place resumes next. If the door doesn't wake its places, the caller wakes that place.
#[inline]
pub fn begin_wait<D: MonitorData, T: RawMonitor<D>, S: Parking>(
    door: &T,
    inside: Inside<D, S>,
    condition: usize,
    priority: u64,
) -> (Away<D, S>, Next)
    requires of { IsIn D.rest D.ready (T.kinds door.now) (T.id door.now) inside }
    requires in_range { condition < (T.kinds door.now).conditions }
    requires rest { D.rest inside.state
        (joined (priorities inside.front.events) condition priority) }
    ensures of { IsAway D.rest D.ready (T.kinds door.now) (T.id door.now) result.0 }
    ensures place { result.0.place ≡ inside.place }
    ensures front { result.0.front
        ≡ with_event inside.front (event.Wait inside.place condition priority inside.state) }
    ensures next { result.1 ≡ next_of (turn result.0.front.events) }
{
    let (mut seat, place, sleeper, mut guarded) = inside.into_parts();
    let next = guarded.held.contents.book.wait(place, condition, priority);
    door.release(
        &mut seat,
        guarded,
        place,
        Release::Wait(condition, priority),
        next,
    );
    (Away::of_parts(seat, place, sleeper), next)
}

/// Does the first half of `Monitor::signal`. If a place waits on `condition`, hands the monitor off to it: the
/// signalling place is then away, and returns by `try_return`; the result also shows which place resumes next. If the
/// door doesn't wake its places, the caller wakes that place. If no place waits there, returns `inside` unchanged.
#[inline]
pub fn begin_signal<D: MonitorData, T: RawMonitor<D>, S: Parking>(
    door: &T,
    inside: Inside<D, S>,
    condition: usize,
) -> Result<(Away<D, S>, Next), Inside<D, S>>
    requires of { IsIn D.rest D.ready (T.kinds door.now) (T.id door.now) inside }
    requires hoare { IsHoare (T.kinds door.now).conditions (T.kinds door.now).mesa condition }
    requires ready { priorities inside.front.events condition ≢ []
        → Handed D.ready condition inside }
    ensures of { IfOk result
        (λ r. IsAway D.rest D.ready (T.kinds door.now) (T.id door.now) r.0) }
    ensures place { IfOk result (λ r. r.0.place ≡ inside.place) }
    ensures some { IfOk result (λ r. priorities inside.front.events condition ≢ []) }
    ensures front { IfOk result (λ r. HandsTo condition inside r.0.front) }
    ensures next { IfOk result (λ r. r.1 ≡ next_of (turn r.0.front.events)) }
    ensures nobody { IfErr result (λ i. priorities inside.front.events condition ≡ []) }
    ensures same { IfErr result (λ i. i ≡ inside) }
{
    if !inside.queue(condition) {
        return Err(inside);
    }
    let (mut seat, place, sleeper, mut guarded) = inside.into_parts();
    let next = guarded.held.contents.book.signal(place, condition);
    door.release(&mut seat, guarded, place, Release::Signal(condition), next);
    Ok((Away::of_parts(seat, place, sleeper), next))
}

/// Does the first half of a signal to the place `waiter`. If that place waits on `condition`, hands the monitor off to
/// it, whoever else waits: the signalling place is then away, and returns by `try_return`; the result also shows which
/// place resumes next. If the door doesn't wake its places, the caller wakes that place. If `waiter` doesn't wait
/// there, returns `inside` unchanged.
#[inline]
pub fn begin_signal_to<D: MonitorData, T: RawMonitor<D>, S: Parking>(
    door: &T,
    inside: Inside<D, S>,
    condition: usize,
    waiter: usize,
) -> Result<(Away<D, S>, Next), Inside<D, S>>
    requires of { IsIn D.rest D.ready (T.kinds door.now) (T.id door.now) inside }
    requires hoare { IsHoare (T.kinds door.now).conditions (T.kinds door.now).mesa condition }
    requires ready { HandedTo D.ready condition waiter inside }
    ensures of { IfOk result
        (λ r. IsAway D.rest D.ready (T.kinds door.now) (T.id door.now) r.0) }
    ensures place { IfOk result (λ r. r.0.place ≡ inside.place) }
    ensures some { IfOk result (λ r. IsWaiting condition inside.front.events waiter) }
    ensures front { IfOk result (λ r. r.0.front
        ≡ with_event inside.front (event.SignalTo inside.place condition waiter inside.state)) }
    ensures next { IfOk result (λ r. r.1 ≡ next_of (turn r.0.front.events)) }
    ensures no_waiter { IfErr result (λ i. IsWaiting condition inside.front.events waiter → ⊥) }
    ensures same { IfErr result (λ i. i ≡ inside) }
{
    if !inside.has_waiter(condition, waiter) {
        return Err(inside);
    }
    let (mut seat, place, sleeper, mut guarded) = inside.into_parts();
    let next = guarded
        .held
        .contents
        .book
        .signal_to(place, condition, waiter);
    door.release(
        &mut seat,
        guarded,
        place,
        Release::SignalTo(condition, waiter),
        next,
    );
    Ok((Away::of_parts(seat, place, sleeper), next))
}

/// Does the second half of `Monitor::wait` and of `Monitor::signal` if the monitor is owed to the place at this moment:
/// the place is inside again. Else returns the place, still away: it has learned the history at some moment of this call
/// at which the monitor wasn't owed to it. Never blocks.
#[inline]
pub fn try_return<D: MonitorData, T: RawMonitor<D>, S: Parking>(
    door: &T,
    away: Away<D, S>,
) -> Result<Inside<D, S>, Away<D, S>>
    requires { IsAway D.rest D.ready (T.kinds door.now) (T.id door.now) away }
    ensures back { IfOk result
        (λ i. IsBack D.rest D.ready (T.kinds door.now) (T.id door.now) away i) }
    ensures refused { IfErr result
        (λ g. IsStillAway D.rest D.ready (T.kinds door.now) (T.id door.now) away g) }
{
    let (mut seat, place, sleeper) = away.into_parts();
    match door.try_claim(&mut seat, place) {
        Some(guarded) => Ok(return_with(seat, place, sleeper, guarded)),
        None => Err(Away::of_parts(seat, place, sleeper)),
    }
}

/// Does the second half of `Monitor::wait` and of `Monitor::signal` at a door that wakes its places: polls for a while,
/// then parks until the monitor is owed to the place.
#[inline]
fn come_back<D: MonitorData, T: Wakes<D>, R: Wait>(door: &T, rt: &R, away: Away<D>) -> Inside<D>
    requires { IsAway D.rest D.ready (T.kinds door.now) (T.id door.now) away }
    ensures { IsBack D.rest D.ready (T.kinds door.now) (T.id door.now) away result }
{
    let (mut seat, place, sleeper) = away.into_parts();
    let guarded = claim(door, rt, &mut seat, place, &sleeper);
    return_with(seat, place, sleeper, guarded)
}

/// Implements `Monitor::wait`, at a door that wakes its places.
pub fn wait<D: MonitorData, T: Wakes<D>, R: Wait>(
    door: &T,
    rt: &R,
    inside: Inside<D>,
    condition: usize,
    priority: u64,
) -> Inside<D>
    requires of { IsIn D.rest D.ready (T.kinds door.now) (T.id door.now) inside }
    requires in_range { condition < (T.kinds door.now).conditions }
    requires rest { D.rest inside.state
        (joined (priorities inside.front.events) condition priority) }
    ensures of { IsIn D.rest D.ready (T.kinds door.now) (T.id door.now) result }
    ensures place { result.place ≡ inside.place }
    ensures ready { IsHoare (T.kinds door.now).conditions (T.kinds door.now).mesa condition
        → D.ready condition priority result.state (priorities result.front.events) }
    ensures rest { IsMesa (T.kinds door.now).conditions (T.kinds door.now).mesa condition
        → D.rest result.state (priorities result.front.events) }
    ensures front { AddsTwo inside.front (event.Wait inside.place condition priority inside.state)
        (event.Resume inside.place condition result.state) result.front }
{
    let (away, _) = begin_wait(door, inside, condition, priority);
    come_back(door, rt, away)
}

/// Implements `Monitor::signal`, at a door that wakes its places.
pub fn signal<D: MonitorData, T: Wakes<D>, R: Wait>(
    door: &T,
    rt: &R,
    inside: Inside<D>,
    condition: usize,
) -> (Inside<D>, bool)
    requires of { IsIn D.rest D.ready (T.kinds door.now) (T.id door.now) inside }
    requires hoare { IsHoare (T.kinds door.now).conditions (T.kinds door.now).mesa condition }
    requires ready { priorities inside.front.events condition ≢ []
        → Handed D.ready condition inside }
    ensures of { IsIn D.rest D.ready (T.kinds door.now) (T.id door.now) result.0 }
    ensures place { result.0.place ≡ inside.place }
    ensures answer { IsTrue result.1 ↔ (priorities inside.front.events condition ≢ []) }
    ensures rest { result.1 ≡ true → D.rest result.0.state (priorities result.0.front.events) }
    ensures same { result.1 ≡ false → result.0 ≡ inside }
    ensures front { Signals inside.place condition inside.state result.0.state
        inside.front result.0.front result.1 }
{
    match begin_signal(door, inside, condition) {
        Ok((away, _)) => (come_back(door, rt, away), true),
        Err(inside) => (inside, false),
    }
}

/// Signals to the place `waiter` on `condition`, at a door that wakes its places: if that place waits there, whoever
/// else waits, it resumes, and this call returns once the monitor is given up after that. Returns true if so. If
/// `waiter` doesn't wait there, changes nothing and returns false.
pub fn signal_to<D: MonitorData, T: Wakes<D>, R: Wait>(
    door: &T,
    rt: &R,
    inside: Inside<D>,
    condition: usize,
    waiter: usize,
) -> (Inside<D>, bool)
    requires of { IsIn D.rest D.ready (T.kinds door.now) (T.id door.now) inside }
    requires hoare { IsHoare (T.kinds door.now).conditions (T.kinds door.now).mesa condition }
    requires ready { HandedTo D.ready condition waiter inside }
    ensures of { IsIn D.rest D.ready (T.kinds door.now) (T.id door.now) result.0 }
    ensures place { result.0.place ≡ inside.place }
    ensures answer { IsTrue result.1 ↔ IsWaiting condition inside.front.events waiter }
    ensures rest { result.1 ≡ true → D.rest result.0.state (priorities result.0.front.events) }
    ensures same { result.1 ≡ false → result.0 ≡ inside }
    ensures front { SignalsTo inside.place condition waiter inside.state result.0.state
        inside.front result.0.front result.1 }
{
    match begin_signal_to(door, inside, condition, waiter) {
        Ok((away, _)) => (come_back(door, rt, away), true),
        Err(inside) => (inside, false),
    }
}

/// Signals and leaves as `Monitor::signal_leave` does, and also returns which place resumes next. If the door doesn't
/// wake its places, the caller wakes that place.
#[inline(always)] // as `signal_leave` is
pub fn signal_leave_to<D: MonitorData, T: RawMonitor<D>, S: Parking>(
    door: &T,
    inside: Inside<D, S>,
    condition: usize,
) -> (Outside<D, S>, bool, Next)
    requires of { IsIn D.rest D.ready (T.kinds door.now) (T.id door.now) inside }
    requires hoare { IsHoare (T.kinds door.now).conditions (T.kinds door.now).mesa condition }
    requires ready { priorities inside.front.events condition ≢ []
        → Handed D.ready condition inside }
    requires rest { priorities inside.front.events condition ≡ []
        → D.rest inside.state (priorities inside.front.events) }
    ensures of { IsOut D.rest D.ready (T.kinds door.now) (T.id door.now) result.0 }
    ensures place { result.0.place ≡ inside.place }
    ensures answer { IsTrue result.1 ↔ (priorities inside.front.events condition ≢ []) }
    ensures front { Exits inside.place condition inside.state inside.front result.0.front result.1 }
    ensures next { result.2 ≡ next_of (turn result.0.front.events) }
{
    if !inside.queue(condition) {
        let (out, next) = leave_to(door, inside);
        return (out, false, next);
    }
    let (mut seat, place, sleeper, mut guarded) = inside.into_parts();
    let next = guarded.held.contents.book.pass(place, condition);
    door.release(&mut seat, guarded, place, Release::Pass(condition), next);
    (Outside::of_parts(seat, place, sleeper), true, next)
}

/// Implements `Monitor::signal_leave`.
#[inline(always)] // as `leave` is: if nobody waits this is a plain leave
pub fn signal_leave<D: MonitorData, T: RawMonitor<D>, S: Parking>(
    door: &T,
    inside: Inside<D, S>,
    condition: usize,
) -> (Outside<D, S>, bool)
    requires of { IsIn D.rest D.ready (T.kinds door.now) (T.id door.now) inside }
    requires hoare { IsHoare (T.kinds door.now).conditions (T.kinds door.now).mesa condition }
    requires ready { priorities inside.front.events condition ≢ []
        → Handed D.ready condition inside }
    requires rest { priorities inside.front.events condition ≡ []
        → D.rest inside.state (priorities inside.front.events) }
    ensures of { IsOut D.rest D.ready (T.kinds door.now) (T.id door.now) result.0 }
    ensures place { result.0.place ≡ inside.place }
    ensures answer { IsTrue result.1 ↔ (priorities inside.front.events condition ≢ []) }
    ensures front { Exits inside.place condition inside.state inside.front result.0.front result.1 }
{
    let (out, told, _) = signal_leave_to(door, inside, condition);
    (out, told)
}

/// Records `notification` of `place` in the queue book. Returns how many waiters it notified (specified for a broadcast
/// only).
#[inline]
fn book_calls(book: &mut Book, place: usize, notification: Notification) -> usize
    requires inside { book.old.turn ≡ turns.Held place }
    requires mesa { IsMesa book.old.sizes.conditions book.old.sizes.mesa (called_on notification) }
    ensures of { (h : History (Unit {0})) → IsOf book.old h
        → IsOf book.new (after_notification h place notification) }
    ensures answer { IsCounted notification (priorities_on book.old (called_on notification)) result }
{
    match notification {
        Notification::One(condition) => usize::from(book.notify(place, condition)),
        Notification::All(condition) => book.broadcast(place, condition),
    }
}

/// Notifies the waiters that `notification` names; there is at least one. Returns how many it notified (specified for a
/// broadcast only).
#[inline]
fn call<D: MonitorData, T: RawMonitor<D>, S: Parking>(
    door: &T,
    inside: &mut Inside<D, S>,
    notification: Notification,
) -> usize
    requires of { IsIn D.rest D.ready (T.kinds door.now) (T.id door.now) inside.old }
    requires mesa { IsMesa (T.kinds door.now).conditions (T.kinds door.now).mesa (called_on notification) }
    requires some { priorities inside.old.front.events (called_on notification) ≢ [] }
    ensures noted { Noted D.rest D.ready (T.kinds door.now) (T.id door.now)
        inside.old notification inside.new }
    ensures answer { IsCounted notification (priorities inside.old.front.events (called_on notification)) result }
{
    let place = inside.place;
    door.note(&mut inside.seat, &inside.guarded, place, notification);
    let guarded = &mut inside.guarded;
    book_calls(&mut guarded.held.contents.book, place, notification)
}

/// Implements `Monitor::notify`.
pub fn notify<D: MonitorData, T: RawMonitor<D>, S: Parking>(
    door: &T,
    inside: &mut Inside<D, S>,
    condition: usize,
) -> bool
    requires of { IsIn D.rest D.ready (T.kinds door.now) (T.id door.now) inside.old }
    requires mesa { IsMesa (T.kinds door.now).conditions (T.kinds door.now).mesa condition }
    ensures of { IsIn D.rest D.ready (T.kinds door.now) (T.id door.now) inside.new }
    ensures place { inside.new.place ≡ inside.old.place }
    ensures data { inside.new.state ≡ inside.old.state }
    ensures lists { priorities inside.new.front.events
        ≡ taken (priorities inside.old.front.events) condition }
    ensures answer { IsTrue result ↔ (priorities inside.old.front.events condition ≢ []) }
    ensures front { Notifies inside.old.place condition inside.old.state
        inside.old.front inside.new.front result }
{
    if !inside.queue(condition) {
        return false;
    }
    call(door, inside, Notification::One(condition));
    true
}

/// Implements `Monitor::broadcast`.
pub fn broadcast<D: MonitorData, T: RawMonitor<D>, S: Parking>(
    door: &T,
    inside: &mut Inside<D, S>,
    condition: usize,
) -> usize
    requires of { IsIn D.rest D.ready (T.kinds door.now) (T.id door.now) inside.old }
    requires mesa { IsMesa (T.kinds door.now).conditions (T.kinds door.now).mesa condition }
    ensures of { IsIn D.rest D.ready (T.kinds door.now) (T.id door.now) inside.new }
    ensures place { inside.new.place ≡ inside.old.place }
    ensures data { inside.new.state ≡ inside.old.state }
    ensures lists { priorities inside.new.front.events
        ≡ emptied (priorities inside.old.front.events) condition }
    ensures answer { result ≡ length (priorities inside.old.front.events condition) }
    ensures front { Broadcasts inside.old.place condition inside.old.state
        inside.old.front inside.new.front }
{
    if !inside.queue(condition) {
        return 0;
    }
    call(door, inside, Notification::All(condition))
}
