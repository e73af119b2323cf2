//! The pointer of a value that C holds.
ghost use Rattle.std.specs.Prelude.{◌≡◌, ℕ};
ghost use Rattle.std_alloc.specs.Box.Ownership.{box_owns};
ghost use Rattle.c_handle.specs.Owned.{owned};

use crate::loose::Loose;
use std::alloc::{Allocator, Global};
use std::marker::Model;

/// A pointer that owns a value if the ghost field `live` is 1; `value` is then that value.
#[repr(C)]
pub struct Handle<T> {
    at: *mut T,
    alloc: Global,
    pub ghost live: { ℕ },
    pub ghost value: { T },
}

impl<T> Model for Handle<T> {
    ghost also_owns = { λ h. owned h.live
        (box_owns (⟦<Global as Allocator>⟧.dealloc_token h.alloc) T.row h.at h.value) };
}

impl<T> Handle<T> {
    ghost use Rattle.std.specs.Borrow.{sem};
    ghost use Rattle.c_handle.specs.Lending.{LendsValue};

    // Lends the value in place.
    #[inline(always)]
    pub(crate) fn lend(&mut self) -> &mut T
        requires { self.old.live ≡ 1 }
        ensures* writes_back { sem 𝓛 (LendsValue T.row self.entry result) }
        ensures value { result.now ≡ self.old.value }
    {
        unsafe { &mut *self.at }
    }

    // Takes the value out, and leaves `blank` as the pointer.
    pub(crate) fn empty(&mut self, alloc: Global, blank: *mut T) -> Loose<T, Global>
        requires { self.old.live ≡ 1 }
        ensures value { result.value ≡ self.old.value }
        ensures live { self.new.live ≡ 0 }
    {
        let at = self.at;
        self.at = blank;
        Loose { at, alloc }
    }

    // Keeps `value`.
    pub(crate) fn fill(&mut self, value: Loose<T, Global>)
        requires { self.old.live ≡ 0 }
        ensures live { self.new.live ≡ 1 }
        ensures value { self.new.value ≡ value.value }
    {
        let Loose { at, alloc: _ } = value;
        self.at = at;
    }
}
