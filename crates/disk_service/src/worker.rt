//! What a worker does.
ghost use Rattle.std.specs.Prelude.{◌≡◌, ◌+◌, ◌≤◌, ◌++◌, ◌∷◌, [], vec_len, true, IfSome, Some};
ghost use Rattle.disk_jobs.specs.Services.{Served, served};
ghost use Rattle.disk_service.specs.Doors.{AreThreadPlaces};
ghost use Rattle.disk_service.specs.Borrows.{BorrowsForEach};
ghost use Rattle.disk_service.specs.EachJob.{jobs_in};
ghost use Rattle.plain_schedulers.specs.BufferTraces.{Removes};
ghost use Rattle.disk_service.specs.JobsDone.{BorrowsOnce, Counts, Does, DoesNext, Reads, SleepsOnce};
ghost use Rattle.disk_service.specs.JobsDone.{UsesDrive, Works, item_of};
ghost use Rattle.disk_service.specs.Sleeps.{SleepsForEach};

use crate::board::write;
use crate::data::{Drive, Item, Totals, both};
use crate::doors::Doors;
use crate::gate::Gate;
use crate::thread_places::ThreadPlaces;
use disk_jobs::done::Done;
use disk_jobs::jobs::Jobs;
use hoare_law::monitor::Monitor;
use plain_schedulers::buffer::Buffer;
use plain_schedulers::single::Single;
use std::sync::Wait;
use sweep_schedulers::head::Head;
use timed_schedulers::alarm::Alarm;
use timed_schedulers::pool::Pool;

/// Does jobs until it gets a stop item, and adds the results to `room`, in which there is memory for them. Returns the
/// worker's places, the results, and true if it did each job that it got. Then what it did is exactly this, for one
/// result after another.
///
/// If a monitor refuses a call, the worker skips what depends on it, and the job isn't among the results. For each
/// result the worker has slept for a tick, and has taken a buffer from the pool and given it back.
pub fn work<R: Wait, G: Gate>(
    rt: &R,
    gate: &G,
    jobs: &Jobs,
    doors: &Doors,
    own: ThreadPlaces,
    room: Vec<Done>,
) -> (ThreadPlaces, Vec<Done>, bool)
    requires { AreThreadPlaces doors.now own }
    ensures of { AreThreadPlaces doors.now result.0 }
    ensures number { result.0.number ≡ own.number }
    ensures sleeps { SleepsForEach own.number own.clock.front result.0.clock.front
        (vec_len room) (vec_len result.1) }
    ensures borrows { BorrowsForEach own.number own.number own.pool.front result.0.pool.front
        (vec_len room) (vec_len result.1) }
    ensures works { result.2 ≡ true → Works own.number room.items result.1.items own result.0 }
{
    let mut own = own;
    let mut kept = room;
    let mut did_all = true;
    for _ in rt.forever() {
        let (place, job) = next_job(&doors.items, rt, own.items);
        own.items = place;
        let Some(job) = job else {
            return (own, kept, did_all);
        };
        let (back, did) = do_job(rt, gate, jobs, doors, own, job, &mut kept);
        own = back;
        did_all = both(did_all, did);
    }
    unreachable!()
}

// Returns the next job of this buffer, or `None` if the worker gets a stop item.
fn next_job<R: Wait, M: Monitor<Buffer<Item>>>(m: &M, rt: &R, out: M::Out) -> (M::Out, Option<u32>)
    requires { M.is_of m.now out }
    ensures of { M.is_of m.now result.0 }
    ensures place { M.place result.0 ≡ M.place out }
    ensures removes { Removes (M.place out) (item_of result.1) (M.front out) (M.front result.0) }
{
    let (out, item) = Buffer::remove(m, rt, out);
    match item {
        Item::Job(job) => (out, Some(job)),
        Item::Stop => (out, None),
    }
}

// Does a job, with the gate's calls around it, and keeps its result. Returns true if the job is done.
fn do_job<R: Wait, G: Gate>(
    rt: &R,
    gate: &G,
    jobs: &Jobs,
    doors: &Doors,
    own: ThreadPlaces,
    job: u32,
    kept: &mut Vec<Done>,
) -> (ThreadPlaces, bool)
    requires { AreThreadPlaces doors.now own }
    ensures of { AreThreadPlaces doors.now result.0 }
    ensures number { result.0.number ≡ own.number }
    ensures sleeps { SleepsForEach own.number own.clock.front result.0.clock.front
        (vec_len kept.old) (vec_len kept.new) }
    ensures borrows { BorrowsForEach own.number own.number own.pool.front result.0.pool.front
        (vec_len kept.old) (vec_len kept.new) }
    ensures does { result.1 ≡ true
        → DoesNext own.number job kept.old.items kept.new.items own result.0 }
{
    gate.begin(job as usize);
    let (own, did) = do_listed_job(rt, jobs, doors, own, job, kept);
    gate.end(job as usize);
    (own, did)
}

// Does a job, if there is one with this number, and keeps its result. Returns true if the job is done.
fn do_listed_job<R: Wait>(
    rt: &R,
    jobs: &Jobs,
    doors: &Doors,
    own: ThreadPlaces,
    job: u32,
    kept: &mut Vec<Done>,
) -> (ThreadPlaces, bool)
    requires { AreThreadPlaces doors.now own }
    ensures of { AreThreadPlaces doors.now result.0 }
    ensures number { result.0.number ≡ own.number }
    ensures sleeps { SleepsForEach own.number own.clock.front result.0.clock.front
        (vec_len kept.old) (vec_len kept.new) }
    ensures borrows { BorrowsForEach own.number own.number own.pool.front result.0.pool.front
        (vec_len kept.old) (vec_len kept.new) }
    ensures does { result.1 ≡ true
        → DoesNext own.number job kept.old.items kept.new.items own result.0 }
{
    let Some(cylinder) = jobs.cylinders().get(job as usize) else {
        return (own, false);
    };
    let (own, done) = serve_job(rt, doors, own, job, *cylinder);
    let did = keep(kept, done);
    (own, did)
}

// Keeps the result, if there is memory for it. Returns true if there is a result and it is kept.
fn keep(kept: &mut Vec<Done>, done: Option<Done>) -> bool
    ensures length { vec_len kept.new ≤ vec_len kept.old + jobs_in done }
    ensures kept { result ≡ true → (d : Served) × (done ≡ Some d)
        × (kept.new.items ≡ kept.old.items ++ d ∷ []) }
{
    match done {
        Some(done) => kept.push(done).is_ok(),
        None => false,
    }
}

// Does a job: reads its block, counts it in the totals and writes it on the board. Returns `None` if one of these is
// refused.
fn serve_job<R: Wait>(
    rt: &R,
    doors: &Doors,
    own: ThreadPlaces,
    job: u32,
    cylinder: u16,
) -> (ThreadPlaces, Option<Done>)
    requires { AreThreadPlaces doors.now own }
    ensures of { AreThreadPlaces doors.now result.0 }
    ensures number { result.0.number ≡ own.number }
    ensures sleeps { SleepsForEach own.number own.clock.front result.0.clock.front
        0 (jobs_in result.1) }
    ensures borrows { BorrowsForEach own.number own.number own.pool.front result.0.pool.front
        0 (jobs_in result.1) }
    ensures job { IfSome result.1 (λ d. d ≡ served job cylinder) }
    ensures does { IfSome result.1 (λ d. Does own.number d own result.0) }
{
    let (own, read) = read_into_buffer(rt, doors, own, job, cylinder);
    let Some(done) = read else {
        return (own, None);
    };
    let (own, counted) = add_to_totals(rt, doors, own, done);
    if !counted {
        return (own, None);
    }
    let (own, noted) = write(rt, doors, own, 1, false);
    if !noted {
        return (own, None);
    }
    (own, Some(done))
}

// Reads the block of a job into a buffer of the pool, with the drive.
fn read_into_buffer<R: Wait>(
    rt: &R,
    doors: &Doors,
    own: ThreadPlaces,
    job: u32,
    cylinder: u16,
) -> (ThreadPlaces, Option<Done>)
    requires { AreThreadPlaces doors.now own }
    ensures of { AreThreadPlaces doors.now result.0 }
    ensures number { result.0.number ≡ own.number }
    ensures sleeps { SleepsForEach own.number own.clock.front result.0.clock.front
        0 (jobs_in result.1) }
    ensures borrows { BorrowsForEach own.number own.number own.pool.front result.0.pool.front
        0 (jobs_in result.1) }
    ensures others { result.0 ≡ record own { pool = result.0.pool; head = result.0.head; clock = result.0.clock } }
    ensures job { IfSome result.1 (λ d. d ≡ served job cylinder) }
    ensures reads { IfSome result.1 (λ _. Reads own.number cylinder own result.0) }
{
    let mut own = own;
    let places = (own.pool, own.head, own.clock);
    let block = (job, cylinder);
    let (pool, head, clock) = (&doors.pool, &doors.head, &doors.clock);
    let (places, read) = use_buffer(pool, head, clock, rt, places, own.number, block);
    (own.pool, own.head, own.clock) = places;
    (own, read)
}

// Reads the block of a job into a buffer of this pool, with the drive of this head, and gives back the buffer.
fn use_buffer<R: Wait, P: Monitor<Pool>, H: Monitor<Head<Drive>>, C: Monitor<Alarm>>(
    pool: &P,
    head: &H,
    clock: &C,
    rt: &R,
    places: (P::Out, H::Out, C::Out),
    stream: u32,
    block: (u32, u16),
) -> ((P::Out, H::Out, C::Out), Option<Done>)
    requires pool { P.is_of pool.now places.0 }
    requires head { H.is_of head.now places.1 }
    requires clock { C.is_of clock.now places.2 }
    ensures pool { P.is_of pool.now result.0.0 }
    ensures head { H.is_of head.now result.0.1 }
    ensures clock { C.is_of clock.now result.0.2 }
    ensures pool_place { P.place result.0.0 ≡ P.place places.0 }
    ensures head_place { H.place result.0.1 ≡ H.place places.1 }
    ensures clock_place { C.place result.0.2 ≡ C.place places.2 }
    ensures sleeps { SleepsForEach (C.place places.2) (C.front places.2) (C.front result.0.2)
        0 (jobs_in result.1) }
    ensures borrows { BorrowsForEach (P.place places.0) stream (P.front places.0) (P.front result.0.0)
        0 (jobs_in result.1) }
    ensures job { IfSome result.1 (λ d. d ≡ served block.0 block.1) }
    ensures pool_once { IfSome result.1 (λ _.
        BorrowsOnce (P.place places.0) stream (P.front places.0) (P.front result.0.0)) }
    ensures head_once { IfSome result.1 (λ _.
        UsesDrive (H.place places.1) block.1 (H.front places.1) (H.front result.0.1)) }
    ensures clock_once { IfSome result.1 (λ _.
        SleepsOnce (C.place places.2) (C.front places.2) (C.front result.0.2)) }
{
    let (at_pool, at_head, at_clock) = places;
    let (at_pool, taken) = Pool::take(pool, rt, at_pool, stream);
    let Ok(buffer) = taken else {
        return ((at_pool, at_head, at_clock), None);
    };
    let ((at_head, at_clock), read) = use_drive(head, clock, rt, (at_head, at_clock), block);
    let (at_pool, given) = Pool::give(pool, rt, at_pool, stream, buffer);
    if given.is_err() {
        return ((at_pool, at_head, at_clock), None);
    }
    ((at_pool, at_head, at_clock), read)
}

// Reads the block of a job with the drive of this monitor, which it keeps for a tick of the clock.
fn use_drive<R: Wait, H: Monitor<Head<Drive>>, C: Monitor<Alarm>>(
    head: &H,
    clock: &C,
    rt: &R,
    places: (H::Out, C::Out),
    block: (u32, u16),
) -> ((H::Out, C::Out), Option<Done>)
    requires head { H.is_of head.now places.0 }
    requires clock { C.is_of clock.now places.1 }
    ensures head { H.is_of head.now result.0.0 }
    ensures clock { C.is_of clock.now result.0.1 }
    ensures head_place { H.place result.0.0 ≡ H.place places.0 }
    ensures clock_place { C.place result.0.1 ≡ C.place places.1 }
    ensures sleeps { SleepsForEach (C.place places.1) (C.front places.1) (C.front result.0.1)
        0 (jobs_in result.1) }
    ensures job { IfSome result.1 (λ d. d ≡ served block.0 block.1) }
    ensures head_once { IfSome result.1 (λ _.
        UsesDrive (H.place places.0) block.1 (H.front places.0) (H.front result.0.0)) }
    ensures clock_once { IfSome result.1 (λ _.
        SleepsOnce (C.place places.1) (C.front places.1) (C.front result.0.1)) }
{
    let (at_head, at_clock) = places;
    let (job, cylinder) = block;
    let (at_head, requested) = Head::request(head, rt, at_head, cylinder);
    let Ok(drive) = requested else {
        return ((at_head, at_clock), None);
    };
    let done = drive.read(job, cylinder);
    let (at_clock, woke) = Alarm::wakeme(clock, rt, at_clock, 1);
    let (at_head, released) = Head::release(head, rt, at_head, drive);
    let Ok(_time) = woke else {
        return ((at_head, at_clock), None);
    };
    if released.is_err() {
        return ((at_head, at_clock), None);
    }
    ((at_head, at_clock), Some(done))
}

// Adds a job to the totals. Returns true if they took it.
fn add_to_totals<R: Wait>(
    rt: &R,
    doors: &Doors,
    own: ThreadPlaces,
    done: Done,
) -> (ThreadPlaces, bool)
    requires { AreThreadPlaces doors.now own }
    ensures of { AreThreadPlaces doors.now result.0 }
    ensures number { result.0.number ≡ own.number }
    ensures others { result.0 ≡ record own { totals = result.0.totals } }
    ensures counts { result.1 ≡ true → Counts own.number done own.totals.front result.0.totals.front }
{
    let mut own = own;
    let (place, added) = add_to(&doors.totals, rt, own.totals, done);
    own.totals = place;
    (own, added)
}

// Adds a job to the totals of this monitor. Returns true if they took it.
fn add_to<R: Wait, M: Monitor<Single<Totals>>>(
    m: &M,
    rt: &R,
    out: M::Out,
    done: Done,
) -> (M::Out, bool)
    requires { M.is_of m.now out }
    ensures of { M.is_of m.now result.0 }
    ensures place { M.place result.0 ≡ M.place out }
    ensures counts { result.1 ≡ true
        → Counts (M.place out) done (M.front out) (M.front result.0) }
{
    let (out, totals) = Single::acquire(m, rt, out);
    let sum = totals.with(done);
    let (out, released) = Single::release(m, rt, out, sum.unwrap_or(totals));
    (out, both(sum.is_some(), released.is_ok()))
}
