//! The words in which C keeps a value, with the calls.
ghost use Rattle.std.specs.Prelude.{◌≡◌, ◌≤◌, IsTrue, ◌↔◌, MatchOption, MatchResult, IfNone};

use crate::handle::Handle;
use crate::loose::Loose;
use std::alloc::Global;

/// Three words of C's: `live`, which is 1 while there is a value, and two pointers. If all bytes are 0, there is no
/// value. It isn't `Drop`: a value has to be taken out.
#[repr(C)]
pub struct Held<T> {
    live: u64,
    spare: *mut T,
    handle: Handle<T>,
    ghost same: { live ≡ handle.live },
    ghost few: { live ≤ 1 },
}

impl<T> Held<T> {
    ghost use Rattle.std.specs.Borrow.{sem};
    ghost use Rattle.c_handle.specs.Lending.{LendsHeld};

    /// Returns true if there is a value.
    #[inline(always)]
    pub fn is_live(&self) -> bool
        ensures { IsTrue result ↔ (self.now.live ≡ 1) }
    {
        self.live != 0
    }

    /// Lends the value in place. Returns `None` if there is no value. Writes no word of C's.
    #[inline(always)]
    pub fn get_mut(&mut self) -> Option<&mut T>
        ensures* writes_back { sem 𝓛 (LendsHeld T.row self.entry result) }
        ensures value { MatchOption result (self.old.live ≡ 0)
            (λ r. (self.old.live ≡ 1) × (r.now ≡ self.old.handle.value)) }
    {
        if self.live == 0 {
            return None;
        }
        Some(self.handle.lend())
    }
}

impl<T: Drop> Held<T> {
    /// Takes the value out and returns it. Returns `None`, with nothing changed, if there is no value.
    pub fn take(&mut self, alloc: Global) -> Option<Box<T>>
        ensures taken { MatchOption result (self.old.live ≡ 0)
            (λ b. (self.old.live ≡ 1) × (b.value ≡ self.old.handle.value)) }
        ensures same { IfNone result (self.new ≡ self.old) }
        ensures empty { self.new.live ≡ 0 }
    {
        if !self.is_live() {
            return None;
        }
        let value = self.handle.empty(alloc, self.spare);
        self.live = 0;
        Some(value.into_box())
    }

    /// Keeps the boxed `value`. The caller makes sure that there is no value.
    pub fn put(&mut self, value: Box<T>)
        requires empty { self.old.live ≡ 0 }
        ensures { (self.new.live ≡ 1) × (self.new.handle.value ≡ value.value) }
    {
        self.handle.fill(Loose::of(value));
        self.live = 1;
    }

    /// Keeps `value` in a new box. The caller makes sure that there is no value. If the allocation fails, it returns
    /// `value`, and nothing has changed.
    pub fn keep(&mut self, alloc: Global, value: T) -> Result<(), T>
        requires empty { self.old.live ≡ 0 }
        ensures { MatchResult result
            (λ _. (self.new.live ≡ 1) × (self.new.handle.value ≡ value))
            (λ v. (v ≡ value) × (self.new ≡ self.old)) }
    {
        match Box::new(alloc, value) {
            Ok(value) => {
                self.put(value);
                Ok(())
            }
            Err(failed) => Err(failed.value),
        }
    }
}
