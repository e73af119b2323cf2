//! A meeting of two places outside.
ghost use Rattle.std.specs.Prelude.{◌≡◌};
ghost use Rattle.door_frame.specs.Meeting.{Meets};
ghost use Rattle.door_frame.specs.Places.{IsOut};
ghost use Rattle.hoare_law.specs.Sizes.{kinds_of};

use crate::door::RawBatonDoor;
use crate::place::DoorOut;
use door_frame::meeting;
use hoare_law::data::MonitorData;

impl<D: MonitorData> RawBatonDoor<D> {
    /// Lets `a` and `b`, two places outside, meet, and returns them in this order. Afterwards both know one history. It
    /// begins with what each of them knew, and has no further event of either.
    pub fn meet(&self, a: DoorOut<D>, b: DoorOut<D>) -> (DoorOut<D>, DoorOut<D>)
        requires a { IsOut D.rest D.ready (kinds_of D.CONDITIONS D.MESA) self.now a }
        requires b { IsOut D.rest D.ready (kinds_of D.CONDITIONS D.MESA) self.now b }
        ensures a { IsOut D.rest D.ready (kinds_of D.CONDITIONS D.MESA) self.now result.0 }
        ensures b { IsOut D.rest D.ready (kinds_of D.CONDITIONS D.MESA) self.now result.1 }
        ensures places { (result.0.place ≡ a.place) × (result.1.place ≡ b.place) }
        ensures met { Meets a b result.0 result.1 }
    {
        meeting::meet(&self.table, a, b)
    }
}
