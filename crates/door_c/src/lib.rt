//! A running door and its places for C: each function that C calls. `bindings/c/zaulinte_door.h` declares them.
//!
//! A door and a place are each a word and two pointers of C's, all 0 at first; a `Global` is nothing to C. No function
//! has a premise: each returns for every number, and if nothing is held. No function blocks, and none wakes a thread: an
//! act that releases the monitor returns the place to wake, below 64, or 64 if none is to be woken.
#![tactic(auto)]

ghost use Rattle.std.specs.Prelude.{◌≡◌, ◌≢◌, ◌<◌, ◌≤◌};
ghost use Rattle.hoare_law.specs.Sizes.{sizes_of};
ghost use Rattle.door_place.specs.States.{AsksFirst, AsksQueue, Counts, Gets, where_is};
ghost use Rattle.door_place.specs.Deeds as act;
ghost use Rattle.door_c.specs.KeeperSlots.{Collected, WasClosed, WasNotClosed};
ghost use Rattle.door_c.specs.Held.{Acted, GaveHeld, GaveNothing, GivenBack, IsSame, Made};

pub mod door;
pub mod handle;
pub mod keeper_slot;
pub mod place;

use door::HeldDoor;
use door_place::act::{Broadcast, Leave, Notify, Set, Signal, SignalTo, TryEnter, TryReturn, Wait};
use door_place::codes::{DONE, IS_HELD, NO_MEMORY, NOTHING_HELD};
use door_place::keeper::Keeper;
use hoare_law::event::Sizes;
use keeper_slot::KeeperSlot;
use place::HeldPlace;
use std::alloc::Global;

/// Makes a door of 1 to 64 places and 1 to 8 conditions, the last `mesa` of which are Mesa conditions, with the word
/// `value` in it, and returns 0. Refused, in this order: 108 a door is held already, 109 bad places, 110 bad
/// conditions, 111 an allocation failed.
#[unsafe(no_mangle)]
pub extern "C" fn zaulinte_door_make(
    alloc: Global,
    door: &mut HeldDoor,
    places: u64,
    conditions: u64,
    mesa: u64,
    value: u64,
) -> u64
    ensures held { door.old.live ≡ 1 → (result ≡ 108) × (door.new ≡ door.old) }
    ensures made { door.old.live ≡ 0 → Made (sizes_of conditions mesa places) value
        door.new.live door.new.handle.value.keeper result }
{
    if door.live != 0 {
        return IS_HELD;
    }
    let sizes = Sizes {
        places: places as usize,
        conditions: conditions as usize,
        mesa: mesa as usize,
    };
    let keeper = match Keeper::make(alloc, sizes, value) {
        Ok(keeper) => keeper,
        Err(code) => return code,
    };
    let slot = KeeperSlot {
        keeper: Some(keeper),
    };
    match door.held().keep(alloc, slot) {
        Ok(()) => DONE,
        Err(_) => NO_MEMORY,
    }
}

/// Gives a place out, for a thread of its own, and returns its number, below 64. Refused, in this order: 108 `place`
/// holds one already, 107 no door is held, 114 all places are taken, 111 an allocation failed: then the place is still
/// in hand. A refusal leaves `place` as it was.
#[unsafe(no_mangle)]
pub extern "C" fn zaulinte_door_give_out(
    alloc: Global,
    door: &mut HeldDoor,
    place: &mut HeldPlace,
) -> u64
    ensures held { place.old.live ≡ 1 → (result ≡ 108) × (door.new ≡ door.old) × (place.new ≡ place.old) }
    ensures none { place.old.live ≡ 0 → door.old.live ≡ 0
        → (result ≡ 107) × (door.new ≡ door.old) × (place.new ≡ place.old) }
    ensures live { door.new.live ≡ door.old.live }
    ensures given_out { result < 64 → (place.new.live ≡ 1)
        × GaveHeld door.old.handle.value.keeper door.new.handle.value.keeper place.new.handle.value result }
    ensures refused { 64 ≤ result → place.new ≡ place.old }
    ensures nothing { place.old.live ≡ 0 → door.old.live ≡ 1 → 64 ≤ result
        → GaveNothing door.old.handle.value.keeper door.new.handle.value.keeper result }
{
    if place.live != 0 {
        return IS_HELD;
    }
    let Some(slot) = door.held().get_mut() else {
        return NOTHING_HELD;
    };
    let Some(keeper) = &mut slot.keeper else {
        return NOTHING_HELD;
    };
    let given = match keeper.give_out(alloc) {
        Ok(given) => given,
        Err(code) => return code,
    };
    let number = given.number();
    place.held().put(given);
    number
}

/// Gives a place back to its door, and returns 0: `place` then holds none. Refused, in this order: 107 none is held,
/// 103 it isn't outside: then the place is held as it was.
#[unsafe(no_mangle)]
pub extern "C" fn zaulinte_door_give_back(alloc: Global, place: &mut HeldPlace) -> u64
    ensures given { place.old.live ≡ 1
        → GivenBack place.old.handle.value place.new.live place.new.handle.value result }
    ensures none { place.old.live ≡ 0 → (result ≡ 107) × (place.new ≡ place.old) }
{
    let Some(lent) = place.held().get_mut() else {
        return NOTHING_HELD;
    };
    let code = lent.give_back();
    if code != DONE {
        return code;
    }
    if let Some(given) = place.held().take(alloc) {
        drop(given);
    }
    DONE
}

/// Takes the places in hand that were given back, and returns 0. A place that isn't in hand then was not given back at
/// some moment of this call. Refused: 107 no door is held.
#[unsafe(no_mangle)]
pub extern "C" fn zaulinte_door_collect(door: &mut HeldDoor) -> u64
    ensures collected { door.old.live ≡ 1 → (result ≡ 0) × (door.new.live ≡ 1)
        × Collected door.old.handle.value.keeper door.new.handle.value.keeper }
    ensures none { door.old.live ≡ 0 → (result ≡ 107) × (door.new ≡ door.old) }
{
    let Some(slot) = door.held().get_mut() else {
        return NOTHING_HELD;
    };
    slot.collect();
    DONE
}

/// Closes the door if all of its places are in hand, writes its word to `value`, and returns 0. Refused, in this order:
/// 107 no door is held, 112 a place isn't in hand (it was given out, and not given back and collected), 102 all are, but
/// a `zaulinte_door_give_back` in another thread hasn't returned; then the door is held as it was, and `value` stays as
/// it is.
#[unsafe(no_mangle)]
pub extern "C" fn zaulinte_door_close(alloc: Global, door: &mut HeldDoor, value: &mut u64) -> u64
    ensures closed { door.old.live ≡ 1 → result ≡ 0
        → (door.new.live ≡ 0) × WasClosed door.old.handle.value.keeper value.new }
    ensures kept { door.old.live ≡ 1 → result ≢ 0 → (door.new.live ≡ 1)
        × (door.new.handle.value.keeper ≡ door.old.handle.value.keeper) × (value.new ≡ value.old) }
    ensures refused { door.old.live ≡ 1 → result ≢ 0 → WasNotClosed door.old.handle.value.keeper result }
    ensures none { door.old.live ≡ 0 → (result ≡ 107) × (door.new ≡ door.old) × (value.new ≡ value.old) }
{
    let Some(slot) = door.held().get_mut() else {
        return NOTHING_HELD;
    };
    let word = match slot.close() {
        Ok(word) => word,
        Err(code) => return code,
    };
    *value = word;
    if let Some(slot) = door.held().take(alloc) {
        drop(slot);
    }
    DONE
}

/// Attempts to let the place enter. Returns 64 if it is inside then, or 102 if the monitor wasn't free at some moment of
/// this call. Refused, in this order: 107 no place is held, 103 not outside.
#[unsafe(no_mangle)]
pub extern "C" fn zaulinte_door_try_enter(place: &mut HeldPlace) -> u64
    ensures acted { place.old.live ≡ 1
        → Acted act.TryEnter place.old.handle.value place.new.live place.new.handle.value result }
    ensures none { place.old.live ≡ 0 → (result ≡ 107) × (place.new ≡ place.old) }
{
    place.act(TryEnter)
}

/// Attempts to let the place return from its wait or its signal. Returns 64 if it is inside then, or 102 if the monitor
/// wasn't owed to it at some moment of this call. Refused, in this order: 107 no place is held, 113 not away.
#[unsafe(no_mangle)]
pub extern "C" fn zaulinte_door_try_return(place: &mut HeldPlace) -> u64
    ensures acted { place.old.live ≡ 1
        → Acted act.TryReturn place.old.handle.value place.new.live place.new.handle.value result }
    ensures none { place.old.live ≡ 0 → (result ≡ 107) × (place.new ≡ place.old) }
{
    place.act(TryReturn)
}

/// Lets the place leave. Returns the place to wake, or 64. Refused, in this order: 107 no place is held, 104 not
/// inside.
#[unsafe(no_mangle)]
pub extern "C" fn zaulinte_door_leave(place: &mut HeldPlace) -> u64
    ensures acted { place.old.live ≡ 1
        → Acted act.Leave place.old.handle.value place.new.live place.new.handle.value result }
    ensures none { place.old.live ≡ 0 → (result ≡ 107) × (place.new ≡ place.old) }
{
    place.act(Leave)
}

/// Lets the place wait on `condition` with `priority`: it is away then. Returns the place to wake, or 64. Once this
/// place is woken, it attempts to return. Refused, in this order: 107 no place is held, 104 not inside, 105 no such
/// condition.
#[unsafe(no_mangle)]
pub extern "C" fn zaulinte_door_wait(place: &mut HeldPlace, condition: u64, priority: u64) -> u64
    ensures acted { place.old.live ≡ 1
        → Acted (act.Wait condition priority) place.old.handle.value place.new.live place.new.handle.value result }
    ensures none { place.old.live ≡ 0 → (result ≡ 107) × (place.new ≡ place.old) }
{
    place.act(Wait(condition, priority))
}

/// Lets the place signal `condition`, one of Hoare's. Returns the place to wake: then this place is away, and attempts
/// to return once it is woken. Returns 64 if no place waits on the condition: this place is still inside. Refused, in
/// this order: 107 no place is held, 104 not inside, 105 no such condition, 106 a Mesa condition.
#[unsafe(no_mangle)]
pub extern "C" fn zaulinte_door_signal(place: &mut HeldPlace, condition: u64) -> u64
    ensures acted { place.old.live ≡ 1
        → Acted (act.Signal condition) place.old.handle.value place.new.live place.new.handle.value result }
    ensures none { place.old.live ≡ 0 → (result ≡ 107) × (place.new ≡ place.old) }
{
    place.act(Signal(condition))
}

/// Lets the place signal to the place `waiter` on `condition`, one of Hoare's. If that place waits there, whoever else
/// waits, returns its number, and it is to be woken: then this place is away, and attempts to return once it is woken.
/// Returns 64 if it doesn't wait there (also if no place has that number): this place is still inside. Refused, in this
/// order: 107 no place is held, 104 not inside, 105 no such condition, 106 a Mesa condition.
#[unsafe(no_mangle)]
pub extern "C" fn zaulinte_door_signal_to(place: &mut HeldPlace, condition: u64, waiter: u64) -> u64
    ensures acted { place.old.live ≡ 1
        → Acted (act.SignalTo condition waiter) place.old.handle.value place.new.live place.new.handle.value result }
    ensures none { place.old.live ≡ 0 → (result ≡ 107) × (place.new ≡ place.old) }
{
    place.act(SignalTo(condition, waiter))
}

/// Lets the place signal `condition`, one of Hoare's, as its last act, and writes 1 to `resumed` if a place waited on
/// the condition, else 0. Returns the place to wake, or 64: if a place waited, it is the place that the signal resumed.
/// Refused, in this order: 107 no place is held, 104 not inside, 105 no such condition, 106 a Mesa condition; then
/// `resumed` stays as it is.
#[unsafe(no_mangle)]
pub extern "C" fn zaulinte_door_signal_leave(
    place: &mut HeldPlace,
    condition: u64,
    resumed: &mut u64,
) -> u64
    ensures acted { place.old.live ≡ 1 → Acted (act.SignalLeave condition resumed.old resumed.new)
        place.old.handle.value place.new.live place.new.handle.value result }
    ensures none { place.old.live ≡ 0 → (result ≡ 107) × (place.new ≡ place.old) × (resumed.new ≡ resumed.old) }
{
    let Some(place) = place.held().get_mut() else {
        return NOTHING_HELD;
    };
    place.signal_leave(condition, resumed)
}

/// Lets the place notify the waiter on the Mesa condition `condition` that a signal would resume. Returns the number of
/// notified places, 1 or 0. Refused, in this order: 107 no place is held, 104 not inside, 105 no such condition, 106
/// one of Hoare's.
#[unsafe(no_mangle)]
pub extern "C" fn zaulinte_door_notify(place: &mut HeldPlace, condition: u64) -> u64
    ensures acted { place.old.live ≡ 1
        → Acted (act.Notify condition) place.old.handle.value place.new.live place.new.handle.value result }
    ensures none { place.old.live ≡ 0 → (result ≡ 107) × (place.new ≡ place.old) }
{
    place.act(Notify(condition))
}

/// Lets the place notify all waiters on the Mesa condition `condition`, and returns their number. Refused, in this
/// order: 107 no place is held, 104 not inside, 105 no such condition, 106 one of Hoare's.
#[unsafe(no_mangle)]
pub extern "C" fn zaulinte_door_broadcast(place: &mut HeldPlace, condition: u64) -> u64
    ensures acted { place.old.live ≡ 1
        → Acted (act.Broadcast condition) place.old.handle.value place.new.live place.new.handle.value result }
    ensures none { place.old.live ≡ 0 → (result ≡ 107) × (place.new ≡ place.old) }
{
    place.act(Broadcast(condition))
}

/// Lets the place write `value` as the word in the monitor, and returns 0. Refused, in this order: 107 no place is
/// held, 104 not inside.
#[unsafe(no_mangle)]
pub extern "C" fn zaulinte_door_set(place: &mut HeldPlace, value: u64) -> u64
    ensures acted { place.old.live ≡ 1
        → Acted (act.Set value) place.old.handle.value place.new.live place.new.handle.value result }
    ensures none { place.old.live ≡ 0 → (result ≡ 107) × (place.new ≡ place.old) }
{
    place.act(Set(value))
}

/// Writes the word in the monitor to `value`, and returns 0. Refused, in this order: 107 no place is held, 104 not
/// inside; then `value` stays as it is.
#[unsafe(no_mangle)]
pub extern "C" fn zaulinte_door_get(place: &mut HeldPlace, value: &mut u64) -> u64
    ensures asked { place.old.live ≡ 1 → IsSame place.old.handle.value place.new.live place.new.handle.value
        × Gets place.old.handle.value.state value.old value.new result }
    ensures none { place.old.live ≡ 0 → (result ≡ 107) × (place.new ≡ place.old) × (value.new ≡ value.old) }
{
    let Some(place) = place.held().get_mut() else {
        return NOTHING_HELD;
    };
    place.get(value)
}

/// Returns the number of places that wait on `condition`. Refused, in this order: 107 no place is held, 104 not inside,
/// 105 no such condition.
#[unsafe(no_mangle)]
pub extern "C" fn zaulinte_door_count(place: &mut HeldPlace, condition: u64) -> u64
    ensures asked { place.old.live ≡ 1 → IsSame place.old.handle.value place.new.live place.new.handle.value
        × Counts place.old.handle.value.door place.old.handle.value.state condition result }
    ensures none { place.old.live ≡ 0 → (result ≡ 107) × (place.new ≡ place.old) }
{
    let Some(place) = place.held().get_mut() else {
        return NOTHING_HELD;
    };
    place.count(condition)
}

/// Returns 1 if a place waits on `condition`, else 0. Refused, in this order: 107 no place is held, 104 not inside, 105
/// no such condition.
#[unsafe(no_mangle)]
pub extern "C" fn zaulinte_door_queue(place: &mut HeldPlace, condition: u64) -> u64
    ensures asked { place.old.live ≡ 1 → IsSame place.old.handle.value place.new.live place.new.handle.value
        × AsksQueue place.old.handle.value.door place.old.handle.value.state condition result }
    ensures none { place.old.live ≡ 0 → (result ≡ 107) × (place.new ≡ place.old) }
{
    let Some(place) = place.held().get_mut() else {
        return NOTHING_HELD;
    };
    place.queue(condition)
}

/// Returns 1 if a place waits on `condition`, and writes the priority of the place that a signal would resume to
/// `priority`. Else returns 0. Refused, in this order: 107 no place is held, 104 not inside, 105 no such condition. If
/// it doesn't return 1, `priority` stays as it is.
#[unsafe(no_mangle)]
pub extern "C" fn zaulinte_door_first(
    place: &mut HeldPlace,
    condition: u64,
    priority: &mut u64,
) -> u64
    ensures asked { place.old.live ≡ 1 → IsSame place.old.handle.value place.new.live place.new.handle.value
        × AsksFirst place.old.handle.value.door place.old.handle.value.state condition
        priority.old priority.new result }
    ensures none { place.old.live ≡ 0 → (result ≡ 107) × (place.new ≡ place.old) × (priority.new ≡ priority.old) }
{
    let Some(place) = place.held().get_mut() else {
        return NOTHING_HELD;
    };
    place.first(condition, priority)
}

/// Returns the state of the place: 0 outside, 1 inside, 2 away. Refused: 107 no place is held.
#[unsafe(no_mangle)]
pub extern "C" fn zaulinte_door_state(place: &mut HeldPlace) -> u64
    ensures asked { place.old.live ≡ 1 → IsSame place.old.handle.value place.new.live place.new.handle.value
        × (result ≡ where_is place.old.handle.value.state) }
    ensures none { place.old.live ≡ 0 → (result ≡ 107) × (place.new ≡ place.old) }
{
    let Some(place) = place.held().get_mut() else {
        return NOTHING_HELD;
    };
    place.where_is()
}
