//! The pointers in C's words. They are those of `c_handle` without a type argument, since no type with arguments
//! crosses to C.
ghost use Rattle.std.specs.Prelude.{◌≡◌, ℕ};
ghost use Rattle.std_alloc.specs.Box.Ownership.{box_owns};
ghost use Rattle.c_handle.specs.Owned.{owned};
ghost use Rattle.door_c.specs.contracts.keeper_slot.KeeperSlot as slots;
ghost use Rattle.door_c.specs.declared.keeper_slot.KeeperSlot.{KeeperSlot};
ghost use Rattle.door_place.specs.Places.{PlaceAt};
ghost use Rattle.door_place.specs.contracts.place.Place as places;

use std::alloc::{Allocator, Global};
use std::marker::Model;

/// A pointer that owns the slot of a door if the ghost field `live` is 1; `value` is then that slot.
#[repr(C)]
pub struct DoorHandle {
    at: *mut u8,
    alloc: Global,
    pub ghost live: { ℕ },
    pub ghost value: { KeeperSlot } by { slots.the_row.coded },
}

impl Model for DoorHandle {
    ghost also_owns = { λ h. owned h.live
        (box_owns (⟦<Global as Allocator>⟧.dealloc_token h.alloc) slots.the_row h.at h.value) };
}

/// A pointer that owns a place if the ghost field `live` is 1; `value` is then that place.
#[repr(C)]
pub struct PlaceHandle {
    at: *mut u8,
    alloc: Global,
    pub ghost live: { ℕ },
    pub ghost value: { PlaceAt } by { places.the_row.coded },
}

impl Model for PlaceHandle {
    ghost also_owns = { λ h. owned h.live
        (box_owns (⟦<Global as Allocator>⟧.dealloc_token h.alloc) places.the_row h.at h.value) };
}
