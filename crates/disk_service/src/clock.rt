//! What the clock's thread does.
ghost use Rattle.std.specs.Prelude.{◌≡◌};
ghost use Rattle.disk_service.specs.Doors.{AreThreadPlaces};

use crate::board::is_closed;
use crate::doors::Doors;
use crate::thread_places::ThreadPlaces;
use std::sync::Wait;
use timed_schedulers::alarm::Alarm;

/// Ticks until the board is closed. Returns the clock's places.
pub fn tick_on<R: Wait>(rt: &R, doors: &Doors, own: ThreadPlaces) -> ThreadPlaces
    requires { AreThreadPlaces doors.now own }
    ensures of { AreThreadPlaces doors.now result }
    ensures number { result.number ≡ own.number }
{
    let mut own = own;
    for _ in rt.forever() {
        let (back, closed) = is_closed(rt, doors, own);
        own = back;
        if closed {
            return own;
        }
        let (clock, _ticked) = Alarm::tick(&doors.clock, rt, own.clock);
        own.clock = clock;
    }
    unreachable!()
}
