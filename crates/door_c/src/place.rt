//! The words in which C keeps a place, and an act of the place in them.
ghost use Rattle.std.specs.Prelude.{◌≡◌, ◌≤◌};
ghost use Rattle.door_c.specs.Held.{Acted};

use crate::handle::PlaceHandle;
use c_handle::held;
use door_place::act::Act;
use door_place::codes::NOTHING_HELD;
use door_place::place::Place;

/// The words in which C keeps a place, all bytes 0 at first. `live` is 1 while there is a place. It isn't `Drop`: a
/// place in it has to be given back.
#[repr(C)]
pub struct HeldPlace {
    pub(crate) live: u64,
    spare: *mut u8,
    pub(crate) handle: PlaceHandle,
    ghost same: { live ≡ handle.live },
    ghost few: { live ≤ 1 },
}

impl HeldPlace {
    ghost use Rattle.std.specs.Borrow.{sem};
    ghost use Rattle.door_c.specs.PlaceWords.{of_c, LendsWords};

    // Returns the same words as those of a generic handle.
    #[inline(always)]
    pub(crate) fn held(&mut self) -> &mut held::Held<Place>
        ensures* writes_back { sem 𝓛 (LendsWords self.entry result) }
        ensures value { result.now ≡ of_c self.old }
    {
        unsafe { &mut *(self as *mut HeldPlace as *mut held::Held<Place>) }
    }

    /// Does `act`, or refuses it, and returns the code. Refused: `NOTHING_HELD`, else as the act.
    pub(crate) fn act<A: Act>(&mut self, act: A) -> u64
        ensures acted { self.old.live ≡ 1
            → Acted (A.deed act) self.old.handle.value self.new.live self.new.handle.value result }
        ensures none { self.old.live ≡ 0 → (result ≡ 107) × (self.new ≡ self.old) }
    {
        let Some(place) = self.held().get_mut() else {
            return NOTHING_HELD;
        };
        place.act(act)
    }
}
