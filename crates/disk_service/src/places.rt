//! The places that no thread has.
ghost use Rattle.std.specs.Prelude.{◌≡◌, ◌+◌, ◌<◌, ◌++◌, ◌∷◌, [], ℕ, length, All, IfOk};
ghost use Rattle.door_frame.specs.Places.{DoorId};
ghost use Rattle.disk_service.specs.Doors.{AreFirst, AreThere, AreThreadPlaces, IsAt, terms};
ghost use Rattle.disk_service.specs.declared.doors.Doors.{Doors};
ghost use Rattle.disk_service.specs.ServedJobs.{AreFresh, ArePut, IsFresh, IsFreshThread};
ghost use Rattle.hoare_law.specs.Sizes.{kinds_of};

use crate::data::{Board, Drive, Item, Totals};
use crate::thread_places::ThreadPlaces;
use door_frame::place::Outside;
use hoare_law::data::MonitorData;
use plain_schedulers::buffer::Buffer;
use plain_schedulers::single::Single;
use std::alloc::AllocError;
use sweep_schedulers::head::Head;
use sweep_schedulers::readers_writers::ReadersWriters;
use timed_schedulers::alarm::Alarm;
use timed_schedulers::pool::Pool;

/// The places of each door that no thread has: place 0, 1, and so on, in order.
#[derive(Drop)]
pub struct Places {
    /// The places at the door of the items that wait for a worker.
    pub items: Vec<Outside<Buffer<Item>>>,
    /// The places at the door of the time.
    pub clock: Vec<Outside<Alarm>>,
    /// The places at the door of the buffers.
    pub pool: Vec<Outside<Pool>>,
    /// The places at the door of the disk.
    pub head: Vec<Outside<Head<Drive>>>,
    /// The places at the door of the totals.
    pub totals: Vec<Outside<Single<Totals>>>,
    /// The places at the door of the board.
    pub board: Vec<Outside<ReadersWriters<Board>>>,
}

// Takes the last of the places, of which there has to be at least one.
fn take_last<D: MonitorData>(places: &mut Vec<Outside<D>>) -> Outside<D>
    requires { 0 < length places.old.items }
    ensures fresh { All IsFresh places.old.items → IsFresh result × All IsFresh places.new.items }
    ensures places { (door : DoorId) (n : ℕ)
        → AreFirst (terms D.rest D.ready (kinds_of D.CONDITIONS D.MESA)) door (n + 1) places.old.items
        → IsAt (terms D.rest D.ready (kinds_of D.CONDITIONS D.MESA)) door n result
        × AreFirst (terms D.rest D.ready (kinds_of D.CONDITIONS D.MESA)) door n places.new.items }
{
    match places.pop() {
        Some(place) => place,
        None => unreachable!(),
    }
}

// Appends the place. There is memory for it.
fn put_last<D: MonitorData>(
    places: &mut Vec<Outside<D>>,
    place: Outside<D>,
) -> Result<(), AllocError>
    ensures put { IfOk result (λ _. places.new.items ≡ places.old.items ++ place ∷ []) }
    ensures places { IfOk result (λ _. (door : DoorId) (n : ℕ)
        → AreFirst (terms D.rest D.ready (kinds_of D.CONDITIONS D.MESA)) door n places.old.items
        → IsAt (terms D.rest D.ready (kinds_of D.CONDITIONS D.MESA)) door n place
        → AreFirst (terms D.rest D.ready (kinds_of D.CONDITIONS D.MESA)) door (n + 1) places.new.items) }
{
    places.push(place)?;
    Ok(())
}

impl Places {
    /// Takes the last place of each door. There has to be at least one. `number` is the number of these places, and
    /// also how many places of each door are left.
    pub fn take_places(&mut self, number: u32) -> ThreadPlaces
        requires { (d : Doors) × AreThere d (number + 1) self.old }
        ensures number { result.number ≡ number }
        ensures own { (d : Doors) → AreThere d (number + 1) self.old → AreThreadPlaces d result }
        ensures left { (d : Doors) → AreThere d (number + 1) self.old → AreThere d number self.new }
        ensures fresh { AreFresh self.old → IsFreshThread result × AreFresh self.new }
    {
        let items = take_last(&mut self.items);
        let clock = take_last(&mut self.clock);
        let pool = take_last(&mut self.pool);
        let head = take_last(&mut self.head);
        let totals = take_last(&mut self.totals);
        let board = take_last(&mut self.board);
        ThreadPlaces {
            number,
            items,
            clock,
            pool,
            head,
            totals,
            board,
        }
    }

    /// Puts a thread's places back. Their number has to be the next. The memory for them is still there.
    pub(crate) fn put_places(&mut self, own: ThreadPlaces) -> Result<(), AllocError>
        ensures places { IfOk result (λ _. (d : Doors) → AreThere d own.number self.old → AreThreadPlaces d own
            → AreThere d (own.number + 1) self.new) }
        ensures put { IfOk result (λ _. ArePut own self.old self.new) }
    {
        let ThreadPlaces {
            number: _,
            items,
            clock,
            pool,
            head,
            totals,
            board,
        } = own;
        let items = put_last(&mut self.items, items);
        let clock = put_last(&mut self.clock, clock);
        let pool = put_last(&mut self.pool, pool);
        let head = put_last(&mut self.head, head);
        let totals = put_last(&mut self.totals, totals);
        let board = put_last(&mut self.board, board);
        items.and(clock).and(pool).and(head).and(totals).and(board)
    }
}
