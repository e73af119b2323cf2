//! The six doors of the service.
ghost use Rattle.std.specs.Prelude.{◌≡◌, ◌+◌, ◌≤◌, IfOk, IfErr};
ghost use Rattle.disk_service.specs.Made.{AreOf, AreOpened, IsMade, blank_board, free_buffers, idle_disk, no_items};
ghost use Rattle.disk_service.specs.Made.{no_totals, start_time};
ghost use Rattle.disk_service.specs.Doors.{AreSized, AreThere, board_terms, clock_terms, head_terms, items_terms};
ghost use Rattle.disk_service.specs.Doors.{pool_terms, totals_terms};
ghost use Rattle.disk_service.specs.ServedJobs.{AreClosed};

use crate::data::{Board, Drive, Item, Totals};
use crate::door::{DoorWithPlaces, closed, opened};
use crate::places::Places;
use any_door::AnyDoor;
use disk_jobs::fault::ServiceFault;
use disk_jobs::jobs::Jobs;
use disk_jobs::kind::Kind;
use plain_schedulers::buffer::Buffer;
use plain_schedulers::single::Single;
use std::alloc::Global;
use sweep_schedulers::head::Head;
use sweep_schedulers::readers_writers::ReadersWriters;
use timed_schedulers::alarm::Alarm;
use timed_schedulers::pool::Pool;

/// The most items that wait for a worker.
const CELLS: usize = 4;

/// The doors of the service, one for each scheduler.
#[derive(Drop)]
pub struct Doors {
    /// The jobs that wait for a worker.
    pub items: AnyDoor<Buffer<Item>>,
    /// The time, in ticks.
    pub clock: AnyDoor<Alarm>,
    /// The buffers that blocks are read into.
    pub pool: AnyDoor<Pool>,
    /// The disk, with its drive.
    pub head: AnyDoor<Head<Drive>>,
    /// How many jobs were done, and the sum of their blocks.
    pub totals: AnyDoor<Single<Totals>>,
    /// The board, which every thread may read.
    pub board: AnyDoor<ReadersWriters<Board>>,
}

impl Doors {
    /// Opens the doors for these jobs, with `count` places each. Returns the doors and the places, in order, or
    /// `Memory` if a door can't be made.
    pub fn open(
        alloc: Global,
        kind: Kind,
        jobs: &Jobs,
        count: usize,
    ) -> Result<(Doors, Places), ServiceFault>
        ensures kind { IfOk result (λ r. AreOf kind r.0) }
        ensures size { IfOk result (λ r. AreSized r.0 count) }
        ensures places { IfOk result (λ r. AreThere r.0 count r.1) }
        ensures opening { IfOk result (λ r. AreOpened jobs.now count r.1) }
        ensures fault { IfErr result (λ f. f ≡ ServiceFault.Memory) }
    {
        let (items, clock, pool) = first_doors(alloc, kind, jobs, count)?;
        let (head, totals, board) = other_doors(alloc, kind, jobs.cylmax(), count)?;
        let doors = Doors {
            items: items.0,
            clock: clock.0,
            pool: pool.0,
            head: head.0,
            totals: totals.0,
            board: board.0,
        };
        let places = Places {
            items: items.1,
            clock: clock.1,
            pool: pool.1,
            head: head.1,
            totals: totals.1,
            board: board.1,
        };
        Ok((doors, places))
    }

    /// Drops the doors, with the data that they protect.
    pub(crate) fn let_go(self) {}

    /// Closes all doors, given all of their places. Returns the totals, unless they are out, and the board.
    pub(crate) fn close(self, places: Places, count: usize) -> (Option<Totals>, Board)
        requires size { AreSized self count }
        requires places { AreThere self count places }
        ensures { AreClosed self places result.0 result.1 }
    {
        let Doors {
            items,
            clock,
            pool,
            head,
            totals,
            board,
        } = self;
        closed(items, places.items);
        closed(clock, places.clock);
        closed(pool, places.pool);
        closed(head, places.head);
        let totals = closed(totals, places.totals).into_item();
        let board = closed(board, places.board).into_value();
        (totals, board)
    }
}

// Opens the doors of the items, of the time and of the buffers. Returns them with their places.
fn first_doors(
    alloc: Global,
    kind: Kind,
    jobs: &Jobs,
    count: usize,
) -> Result<
    (
        DoorWithPlaces<Buffer<Item>>,
        DoorWithPlaces<Alarm>,
        DoorWithPlaces<Pool>,
    ),
    ServiceFault,
>
    ensures items { IfOk result (λ r. IsMade items_terms no_items kind count r.0.0 r.0.1.items) }
    ensures clock { IfOk result (λ r. IsMade clock_terms start_time kind count r.1.0 r.1.1.items) }
    ensures pool { IfOk result (λ r. IsMade pool_terms (free_buffers jobs.now.workers) kind count
        r.2.0 r.2.1.items) }
    ensures fault { IfErr result (λ f. f ≡ ServiceFault.Memory) }
{
    let items = items_door(alloc, kind, count)?;
    let clock = opened(alloc, kind, Alarm::at(0), count)?;
    let pool = pool_door(alloc, kind, jobs, count)?;
    Ok((items, clock, pool))
}

// Opens the door of the items that wait for a worker. Returns it with its places.
fn items_door(
    alloc: Global,
    kind: Kind,
    count: usize,
) -> Result<DoorWithPlaces<Buffer<Item>>, ServiceFault>
    ensures made { IfOk result (λ r. IsMade items_terms no_items kind count r.0 r.1.items) }
    ensures fault { IfErr result (λ f. f ≡ ServiceFault.Memory) }
{
    match Buffer::make(alloc, CELLS) {
        Ok(cells) => opened(alloc, kind, cells, count),
        Err(_) => Err(ServiceFault::Memory),
    }
}

// Opens the door of the buffers that blocks are read into, one for every two workers, rounded up. Returns it with its
// places.
fn pool_door(
    alloc: Global,
    kind: Kind,
    jobs: &Jobs,
    count: usize,
) -> Result<DoorWithPlaces<Pool>, ServiceFault>
    ensures made { IfOk result (λ r. IsMade pool_terms (free_buffers jobs.now.workers) kind count
        r.0 r.1.items) }
    ensures fault { IfErr result (λ f. f ≡ ServiceFault.Memory) }
{
    let workers = jobs.workers();
    match Pool::make(alloc, (workers + 1) / 2, workers) {
        Ok(buffers) => opened(alloc, kind, buffers, count),
        Err(_) => Err(ServiceFault::Memory),
    }
}

// Opens the doors of the disk, of the totals and of the board. Returns them with their places.
fn other_doors(
    alloc: Global,
    kind: Kind,
    cylmax: u16,
    count: usize,
) -> Result<
    (
        DoorWithPlaces<Head<Drive>>,
        DoorWithPlaces<Single<Totals>>,
        DoorWithPlaces<ReadersWriters<Board>>,
    ),
    ServiceFault,
>
    ensures head { IfOk result (λ r. IsMade head_terms (idle_disk cylmax) kind count r.0.0
        r.0.1.items) }
    ensures totals { IfOk result (λ r. IsMade totals_terms no_totals kind count r.1.0 r.1.1.items) }
    ensures board { IfOk result (λ r. IsMade board_terms blank_board kind count r.2.0 r.2.1.items) }
    ensures fault { IfErr result (λ f. f ≡ ServiceFault.Memory) }
{
    let disk = Head::with(Drive, cylmax);
    let note = Board {
        done: 0,
        closed: false,
    };
    let head = opened(alloc, kind, disk, count)?;
    let totals = opened(alloc, kind, Single::with(Totals::NONE), count)?;
    let board = opened(alloc, kind, ReadersWriters::with(note), count)?;
    Ok((head, totals, board))
}
