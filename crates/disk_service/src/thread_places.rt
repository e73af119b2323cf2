//! The places of one thread of the service.
ghost use Rattle.std.specs.Prelude.{◌≡◌, true};
ghost use Rattle.disk_service.specs.Doors.{AreThreadPlaces};
ghost use Rattle.disk_service.specs.ServedJobs.{HasWorked};
ghost use Rattle.disk_service.specs.declared.doors.Doors.{Doors};

use crate::data::{Board, Drive, Item, Totals};
use crate::doors::Doors;
use disk_jobs::done::Done;
use door_frame::place::Outside;
use plain_schedulers::buffer::Buffer;
use plain_schedulers::single::Single;
use std::thread::Promise;
use sweep_schedulers::head::Head;
use sweep_schedulers::readers_writers::ReadersWriters;
use timed_schedulers::alarm::Alarm;
use timed_schedulers::pool::Pool;

/// A thread's places: one at each door, all with one number. The stream for which the thread takes buffers has that
/// number too.
#[derive(Drop)]
pub struct ThreadPlaces {
    /// The number of each place. The workers have the numbers from 0; then come the clock and the caller.
    pub number: u32,
    /// The place at the door of the items that wait for a worker.
    pub items: Outside<Buffer<Item>>,
    /// The place at the door of the time.
    pub clock: Outside<Alarm>,
    /// The place at the door of the buffers.
    pub pool: Outside<Pool>,
    /// The place at the door of the disk.
    pub head: Outside<Head<Drive>>,
    /// The place at the door of the totals.
    pub totals: Outside<Single<Totals>>,
    /// The place at the door of the board.
    pub board: Outside<ReadersWriters<Board>>,
}

impl ThreadPlaces {
    /// Drops the places.
    pub(crate) fn let_go(self) {}
}

/// The promise of a thread to return its places, which are those with this number at these doors.
#[derive(Clone, Copy)]
pub(crate) struct ReturnsPlaces<'a> {
    /// The doors of the places.
    pub doors: &'a Doors,
    /// The number of the places.
    pub number: u32,
}

impl<'a> Promise<ThreadPlaces> for ReturnsPlaces<'a> {
    ghost kept_by = { λ p own. AreThreadPlaces p.doors.now own × (own.number ≡ p.number) };
}

impl<'a> Promise<(ThreadPlaces, Vec<Done>, bool)> for ReturnsPlaces<'a> {
    ghost kept_by = { λ p r. AreThreadPlaces p.doors.now r.0 × (r.0.number ≡ p.number)
        × (r.2 ≡ true → HasWorked p.number r.1.items r.0) };
}
