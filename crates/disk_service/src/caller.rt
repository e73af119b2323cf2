//! What the caller's thread does while the others run.
ghost use Rattle.std.specs.Prelude.{◌≡◌, length};
ghost use Rattle.plain_schedulers.specs.BufferTraces.{Appends};
ghost use Rattle.disk_service.specs.Doors.{AreThreadPlaces};
ghost use Rattle.disk_service.specs.Handing.{HandsOut, first_jobs, stops, whole};

use crate::board::write;
use crate::data::Item;
use crate::doors::Doors;
use crate::thread_places::ThreadPlaces;
use disk_jobs::jobs::Jobs;
use plain_schedulers::buffer::Buffer;
use std::sync::Wait;

/// Hands out the numbers of the jobs, in order, and then a stop item for each worker. Returns the caller's places.
pub fn hand_out<R: Wait>(rt: &R, doors: &Doors, jobs: &Jobs, own: ThreadPlaces) -> ThreadPlaces
    requires { AreThreadPlaces doors.now own }
    ensures of { AreThreadPlaces doors.now result }
    ensures number { result.number ≡ own.number }
    ensures handed { HandsOut own.number own.items.front (whole jobs.now) result.items.front }
{
    let own = hand_on_jobs(rt, doors, jobs, own);
    stop_workers(rt, doors, own, jobs.workers())
}

// Hands out the numbers of the jobs, in order. Returns the caller's places.
fn hand_on_jobs<R: Wait>(rt: &R, doors: &Doors, jobs: &Jobs, own: ThreadPlaces) -> ThreadPlaces
    requires { AreThreadPlaces doors.now own }
    ensures of { AreThreadPlaces doors.now result }
    ensures number { result.number ≡ own.number }
    ensures handed { HandsOut own.number own.items.front
        (first_jobs (length jobs.now.cylinders)) result.items.front }
{
    let mut own = own;
    for job in 0..jobs.len() {
        own = append(rt, doors, own, Item::Job(job as u32));
    }
    own
}

/// Hands out a stop item for each of this number of workers. Returns the caller's places.
pub(crate) fn stop_workers<R: Wait>(
    rt: &R,
    doors: &Doors,
    own: ThreadPlaces,
    workers: u32,
) -> ThreadPlaces
    requires { AreThreadPlaces doors.now own }
    ensures of { AreThreadPlaces doors.now result }
    ensures number { result.number ≡ own.number }
    ensures handed { HandsOut own.number own.items.front (stops workers) result.items.front }
{
    let mut own = own;
    for _ in 0..workers {
        own = append(rt, doors, own, Item::Stop);
    }
    own
}

// Appends an item to those that wait for a worker. Blocks while the buffer is full. Returns the caller's places.
fn append<R: Wait>(rt: &R, doors: &Doors, own: ThreadPlaces, item: Item) -> ThreadPlaces
    requires { AreThreadPlaces doors.now own }
    ensures of { AreThreadPlaces doors.now result }
    ensures number { result.number ≡ own.number }
    ensures appended { Appends own.number item own.items.front result.items.front }
{
    let mut own = own;
    own.items = Buffer::append(&doors.items, rt, own.items, item);
    own
}

/// Closes the board, and tries again if that is refused. Returns the caller's places.
pub fn close_board<R: Wait>(rt: &R, doors: &Doors, own: ThreadPlaces) -> ThreadPlaces
    requires { AreThreadPlaces doors.now own }
    ensures of { AreThreadPlaces doors.now result }
    ensures number { result.number ≡ own.number }
{
    let mut own = own;
    for _ in rt.forever() {
        let (back, closed) = write(rt, doors, own, 0, true);
        own = back;
        if closed {
            return own;
        }
    }
    unreachable!()
}
