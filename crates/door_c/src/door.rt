//! The words in which C keeps a door.
ghost use Rattle.std.specs.Prelude.{◌≡◌, ◌≤◌};

use crate::handle::DoorHandle;
use crate::keeper_slot::KeeperSlot;
use c_handle::held;

/// The words in which C keeps a door, all bytes 0 at first. `live` is 1 while there is a door. It isn't `Drop`: a door
/// in it has to be closed.
#[repr(C)]
pub struct HeldDoor {
    pub(crate) live: u64,
    spare: *mut u8,
    pub(crate) handle: DoorHandle,
    ghost same: { live ≡ handle.live },
    ghost few: { live ≤ 1 },
}

impl HeldDoor {
    ghost use Rattle.std.specs.Borrow.{sem};
    ghost use Rattle.door_c.specs.DoorWords.{of_c, LendsWords};

    // Returns the same words as those of a generic handle.
    #[inline(always)]
    pub(crate) fn held(&mut self) -> &mut held::Held<KeeperSlot>
        ensures* writes_back { sem 𝓛 (LendsWords self.entry result) }
        ensures value { result.now ≡ of_c self.old }
    {
        unsafe { &mut *(self as *mut HeldDoor as *mut held::Held<KeeperSlot>) }
    }
}
