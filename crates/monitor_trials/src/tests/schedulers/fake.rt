//! The monitor for tests, and on it what no other place brings about: what a wait finds is given beforehand. A wait on
//! it never returns if none of the answers that are left is ready for it: then the limit that `rt ci` gives a test ends
//! the test.
ghost use Rattle.std.specs.Prelude.{◌≤◌};
ghost use Rattle.hoare_law.specs.Priorities.{nobody};

use crate::tests::compared::expect_same;
use crate::tests::schedulers::head::HeadCall::Requests;
use crate::tests::schedulers::head::{calls_head, keeps_to_its_traces};
use crate::tests::schedulers::plain::SingleCall::{Acquires, IsRefused, Releases};
use crate::tests::schedulers::plain::calls_single;
use crate::tests::schedulers::readers::{
    Shared, ends_read, ends_write, is_one_too_many, starts_read, starts_write,
};
use crate::tests::schedulers::timed::PoolCall::Takes;
use crate::tests::schedulers::timed::calls_pool;
use hoare_law::data::MonitorData;
use hoare_law::monitor::Monitor;
use plain_schedulers::single::Single;
use std::alloc::Global;
use std::collections::VecDeque;
use std::mem::replace;
use std::process::Abort;
use std::sync::Wait;
use std::test::Fail;
use sweep_schedulers::head::{Head, OffDisk};
use sweep_schedulers::readers_writers::{MOST_READERS, ReadersWriters};
use test_support::fake::{Fake, FakeOut};
use test_support::tally::{Tally, calls_all};
use timed_schedulers::pool::{NoStream, Pool};

/// Creates a monitor for tests with the data `state` and these answers. Fails the test if out of memory.
pub fn with_answers<R: Abort, D: MonitorData + Drop + Send, const N: usize>(
    rt: &R,
    alloc: Global,
    state: D,
    answers: [D; N],
) -> (Fake<D>, FakeOut<D>)
    requires rest { D.rest state nobody }
    requires conditions { (1 ≤ D.CONDITIONS) × (D.CONDITIONS ≤ 8) }
    requires mesa { D.MESA ≤ D.CONDITIONS }
    ensures { ⟦<Fake<D> as Monitor<D>>⟧.is_of result.0 result.1 }
{
    let answers = VecDeque::from_array(alloc, answers).expect(rt, "memory");
    Fake::of(alloc, state, answers).expect(rt, "memory")
}

// Takes the data out of the monitor, and leaves `others` there. Returns the data.
fn take_data<R: Wait, D: MonitorData + Drop + Send>(
    rt: &R,
    fake: &Fake<D>,
    out: FakeOut<D>,
    others: D,
) -> D
    requires of { ⟦<Fake<D> as Monitor<D>>⟧.is_of fake.now out }
    requires rest { D.rest others nobody }
{
    let mut inside = fake.enter(rt, out);
    let data = replace(Fake::state_mut(&mut inside, fake), others);
    fake.leave(rt, inside);
    data
}

// Returns the data of a single item that is out, which are taken from another monitor.
fn item_out<R: Wait + Abort>(rt: &R, alloc: Global) -> Single<u64> {
    let (fake, out) = with_answers(rt, alloc, Single::with(7), []);
    let out = calls_single(rt, &fake, out, Acquires(7));
    take_data(rt, &fake, out, Single::with(0))
}

// The item is out. Of the answers one is ready: the answers before it are dropped.
#[test]
fn an_acquire_takes_the_first_answer_that_is_ready(host: HostRuntime) {
    let (rt, alloc) = (&host, host.alloc());
    let (fake, out) = with_answers(rt, alloc, item_out(rt, alloc), [Single::with(8)]);
    calls_single(rt, &fake, out, Acquires(8));
    let answers = [
        item_out(rt, alloc),
        item_out(rt, alloc),
        item_out(rt, alloc),
        Single::with(8),
    ];
    let (fake, out) = with_answers(rt, alloc, item_out(rt, alloc), answers);
    calls_single(rt, &fake, out, Acquires(8));
}

#[test]
fn a_monitor_without_answers_can_be_called(host: HostRuntime) {
    let (rt, alloc) = (&host, host.alloc());
    let (fake, out) = with_answers(rt, alloc, Tally { value: 0 }, []);
    let (_out, answer) = calls_all(rt, &fake, out);
    expect_same(rt, answer, 1);
}

// An item isn't bound to the monitor that it came from: the second goes into the first monitor, where the first is then
// refused, and the first into the second.
#[test]
fn items_change_monitors(host: HostRuntime) {
    let (rt, alloc) = (&host, host.alloc());
    let (first, out) = with_answers(rt, alloc, Single::with(7), []);
    let (second, other) = with_answers(rt, alloc, Single::with(8), []);
    let out = calls_single(rt, &first, out, Acquires(7));
    let other = calls_single(rt, &second, other, Acquires(8));
    let out = calls_single(rt, &first, out, Releases(8));
    let out = calls_single(rt, &first, out, IsRefused(7));
    calls_single(rt, &first, out, Acquires(8));
    calls_single(rt, &second, other, Releases(7));
}

// A process waits for stream 1 until a buffer is free, and finds a pool that has no stream 1.
#[test]
fn a_take_is_refused_after_a_wait(host: HostRuntime) -> Result<(), Fail> {
    let (rt, alloc) = (&host, host.alloc());
    let answers = [Pool::make(alloc, 1, 1)?];
    let (fake, out) = with_answers(rt, alloc, Pool::make(alloc, 1, 2)?, answers);
    let out = calls_pool(rt, &fake, out, Takes(0, Ok(0)));
    calls_pool(rt, &fake, out, Takes(1, Err(NoStream)));
    Ok(())
}

// A request waits for the drive, and finds a disk with another last cylinder.
#[test]
fn a_request_is_refused_after_a_wait(host: HostRuntime) {
    let (rt, alloc) = (&host, host.alloc());
    let (fake, out) = with_answers(rt, alloc, Head::with(1, 10), [Head::with(2, 20)]);
    let out = keeps_to_its_traces(rt, &fake, out);
    let out = calls_head(rt, &fake, out, Requests(5, Ok(1)));
    calls_head(rt, &fake, out, Requests(8, Err(OffDisk)));
}

// On a new monitor starts a write and asks to read: after a wait the read finds `full`, in which the most readers are
// in, and is refused. Returns that monitor with its place.
fn finds_the_most_readers<R: Wait + Abort>(
    rt: &R,
    alloc: Global,
    full: Shared,
) -> (Fake<Shared>, FakeOut<Shared>)
    ensures { ⟦<Fake<Shared> as Monitor<Shared>>⟧.is_of result.0 result.1 }
{
    let (fake, out) = with_answers(rt, alloc, ReadersWriters::with(0), [full]);
    let out = starts_write(rt, &fake, out, 0);
    let out = is_one_too_many(rt, &fake, out);
    (fake, out)
}

// Starts this many reads and takes the data to another monitor, at which each pass ends a read. Returns that monitor
// with its place.
fn reads_elsewhere<R: Wait + Abort>(
    rt: &R,
    alloc: Global,
    fake: &Fake<Shared>,
    out: FakeOut<Shared>,
    reads: u32,
) -> (Fake<Shared>, FakeOut<Shared>)
    requires { ⟦<Fake<Shared> as Monitor<Shared>>⟧.is_of fake.now out }
    ensures { ⟦<Fake<Shared> as Monitor<Shared>>⟧.is_of result.0 result.1 }
{
    let (out, pass) = starts_read(rt, fake, out, 4);
    let (other, place) = if reads > 1 {
        reads_elsewhere(rt, alloc, fake, out, reads - 1)
    } else {
        finds_the_most_readers(rt, alloc, take_data(rt, fake, out, ReadersWriters::with(0)))
    };
    let place = ends_read(rt, &other, place, pass);
    (other, place)
}

// The most reads begin on one monitor and end on another. Then a read finds 4, and no write ends.
#[test]
fn a_read_is_refused_after_a_wait(host: HostRuntime) {
    let (rt, alloc) = (&host, host.alloc());
    let (fake, out) = with_answers(rt, alloc, ReadersWriters::with(4), []);
    let (other, place) = reads_elsewhere(rt, alloc, &fake, out, MOST_READERS);
    let (place, pass) = starts_read(rt, &other, place, 4);
    let place = ends_read(rt, &other, place, pass);
    ends_write(rt, &other, place, 5, Some(5));
}
