//! The keeper of a door, as a value that can be closed in place.
ghost use Rattle.std.specs.Prelude.{◌≡◌, IfErr, IfOk, None, OnErr};
ghost use Rattle.door_c.specs.KeeperSlots.{Collected, WasClosed, WasNotClosed};

use door_place::codes::NOTHING_HELD;
use door_place::keeper::Keeper;

/// A keeper, until its door is closed.
#[derive(Drop)]
pub struct KeeperSlot {
    /// The keeper, or `None` after the door was closed.
    pub keeper: Option<Keeper>,
}

impl KeeperSlot {
    /// Takes the places in hand that were given back. A place that isn't in hand then was not given back at some moment
    /// of this call.
    pub fn collect(&mut self)
        ensures { Collected self.old.keeper self.new.keeper }
    {
        if let Some(keeper) = &mut self.keeper {
            keeper.collect();
        }
    }

    /// Closes the door if all of its places are in hand, and returns its word. Else the keeper is as it was. Refused:
    /// `NOTHING_HELD` after the door was closed, else as `Keeper::close`.
    pub fn close(&mut self) -> Result<u64, u64>
        ensures closed { IfOk result (λ v. (self.new.keeper ≡ None) × WasClosed self.old.keeper v) }
        ensures kept { OnErr result (self.new.keeper ≡ self.old.keeper) }
        ensures refused { IfErr result (λ code. WasNotClosed self.old.keeper code) }
    {
        let Some(keeper) = self.keeper.take() else {
            return Err(NOTHING_HELD);
        };
        match keeper.close() {
            Ok(value) => Ok(value),
            Err((keeper, code)) => {
                self.keeper = Some(keeper);
                Err(code)
            }
        }
    }
}
