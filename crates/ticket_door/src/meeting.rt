//! A meeting of two places outside.
ghost use Rattle.std.specs.Prelude.{◌≡◌};
ghost use Rattle.door_frame.specs.Meeting.{Meets};
ghost use Rattle.door_frame.specs.Places.{IsOut};
ghost use Rattle.hoare_law.specs.Sizes.{kinds_of};

use crate::door::RawTicketDoor;
use crate::place::TicketOut;
use door_frame::meeting;
use hoare_law::data::MonitorData;

impl<D: MonitorData> RawTicketDoor<D> {
    /// Lets `a` and `b`, two places outside, meet, and returns them in this order. Afterwards both know one history. It
    /// begins with what each of them knew, and has no further event of either.
    pub fn meet(&self, a: TicketOut<D>, b: TicketOut<D>) -> (TicketOut<D>, TicketOut<D>)
        requires a { IsOut D.rest D.ready (kinds_of D.CONDITIONS D.MESA) self.now.door a }
        requires b { IsOut D.rest D.ready (kinds_of D.CONDITIONS D.MESA) self.now.door b }
        ensures a { IsOut D.rest D.ready (kinds_of D.CONDITIONS D.MESA) self.now.door result.0 }
        ensures b { IsOut D.rest D.ready (kinds_of D.CONDITIONS D.MESA) self.now.door result.1 }
        ensures places { (result.0.place ≡ a.place) × (result.1.place ≡ b.place) }
        ensures met { Meets a b result.0 result.1 }
    {
        meeting::meet(&self.table, a, b)
    }
}
