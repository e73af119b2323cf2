//! The limits of the schedulers, and how refusals are shown. (How `NoReader` is shown is tested in `readers`, since a
//! test can't make up the pass in it.)

use crate::tests::compared::{expect_same, reads_as};
use cookbook::drain::TooMuchWork;
use cookbook::table::NotEating;
use cookbook::work_queue::PutRefused;
use plain_schedulers::buffer::mesa::MesaBuffer;
use plain_schedulers::buffer::{Buffer, BufferRefused};
use plain_schedulers::single;
use sweep_schedulers::head::OffDisk;
use sweep_schedulers::not_out;
use sweep_schedulers::readers_writers::TooManyReaders;
use timed_schedulers::alarm::{ClockFull, TooFar};
use timed_schedulers::pool::{GiveRefused, NoStream, Pool, PoolRefused};

#[test]
fn buffers_have_limits(rt: HostRuntime) {
    let bad = Some(BufferRefused::BadSize);
    for (cells, wanted) in [(0, bad), (1, None), (4096, None), (4097, bad)] {
        let buffer = Buffer::<u8>::make(rt.alloc(), cells).err();
        let mesa = MesaBuffer::<u8>::make(rt.alloc(), cells).err();
        expect_same(&rt, (cells, buffer, mesa), (cells, wanted, wanted));
    }
}

#[test]
fn a_pool_has_limits(rt: HostRuntime) {
    let bad = Some(PoolRefused::BadSize);
    for (size, wanted) in [
        ((0, 1), bad),
        ((1025, 1), bad),
        ((1, 0), bad),
        ((1, 257), bad),
        ((1024, 256), None),
    ] {
        let made = Pool::make(rt.alloc(), size.0, size.1).err();
        expect_same(&rt, (size, made), (size, wanted));
    }
}

#[test]
fn refusals_read_plainly(host: HostRuntime) {
    let (rt, alloc) = (&host, host.alloc());
    let bad_size = "a buffer has 1 to 4096 cells";
    reads_as(rt, alloc, &BufferRefused::BadSize, bad_size);
    reads_as(rt, alloc, &BufferRefused::Memory, "out of memory");
    reads_as(rt, alloc, &single::NotOut { item: 7u8 }, "no item is out");
    reads_as(rt, alloc, &not_out::NotOut { item: 7u8 }, "no item is out");
    reads_as(rt, alloc, &TooFar, "the setting is past the last time");
    reads_as(rt, alloc, &ClockFull, "the clock is at the last time");
    let bad_size = "a pool has 1 to 1024 buffers and 1 to 256 streams";
    reads_as(rt, alloc, &PoolRefused::BadSize, bad_size);
    reads_as(rt, alloc, &PoolRefused::Memory, "out of memory");
    reads_as(rt, alloc, &NoStream, "no such stream");
    reads_as(rt, alloc, &GiveRefused::NoStream, "no such stream");
    reads_as(rt, alloc, &GiveRefused::NoBuffer, "no such buffer");
    let not_held = "the stream doesn't hold the buffer";
    reads_as(rt, alloc, &GiveRefused::NotHeld, not_held);
    reads_as(rt, alloc, &OffDisk, "the cylinder is past the last one");
    reads_as(rt, alloc, &TooManyReaders, "1024 readers are in");
    let closed = "the queue was shut down";
    reads_as(rt, alloc, &PutRefused::Closed(7), closed);
    reads_as(rt, alloc, &PutRefused::Full(7), "the queue is full");
    reads_as(rt, alloc, &TooMuchWork, "too much work is under way");
    reads_as(rt, alloc, &NotEating, "nobody eats at the seat");
}
