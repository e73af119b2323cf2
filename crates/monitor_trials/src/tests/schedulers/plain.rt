//! The single item, and the bounded buffer with conditions of both kinds.
ghost use Rattle.std.specs.Prelude.{◌≡◌};

use crate::tests::awaited::{Turns, count_waiting};
use crate::tests::compared::expect_same;
use crate::tests::schedulers::steps::Step::{Awaits, Calls, LinesUp};
use crate::tests::schedulers::steps::{Call, Step, take_steps};
use door_frame::place::Outside;
use hoare_law::monitor::Monitor;
use plain_schedulers::buffer::mesa::MesaBuffer;
use plain_schedulers::buffer::{Buffer, NONEMPTY};
use plain_schedulers::single::{NotOut, Single};
use std::process::Abort;
use std::sync::Wait;
use std::test::Fail;

/// A call of a single item.
#[derive(Clone, Copy)]
pub enum SingleCall {
    /// Takes the item, which is this one.
    Acquires(u64),
    /// Puts the item in while none is in.
    Releases(u64),
    /// Attempts to put the item in while one is in: it is given back.
    IsRefused(u64),
}

use SingleCall::{Acquires, IsRefused, Releases};

/// Makes the call. Fails the test unless it returns what it must.
pub fn calls_single<R: Wait + Abort, M: Monitor<Single<u64>>>(
    rt: &R,
    m: &M,
    out: M::Out,
    call: SingleCall,
) -> M::Out
    requires { M.is_of m.now out }
    ensures of { M.is_of m.now result }
    ensures place { M.place result ≡ M.place out }
{
    let (item, wanted) = match call {
        Acquires(wanted) => {
            let (out, item) = Single::acquire(m, rt, out);
            expect_same(rt, item, wanted);
            return out;
        }
        Releases(item) => (item, None),
        IsRefused(item) => (item, Some(item)),
    };
    let (out, released) = Single::release(m, rt, out, item);
    let back = match released {
        Ok(()) => None,
        Err(NotOut { item }) => Some(item),
    };
    expect_same(rt, back, wanted);
    out
}

impl Call<Single<u64>> for SingleCall {
    fn make<R: Wait + Abort + AllocGlobal, M: Monitor<Single<u64>, Out = Outside<Single<u64>>>>(
        self,
        rt: &R,
        m: &M,
        out: Outside<Single<u64>>,
        _turns: &Turns,
    ) -> Outside<Single<u64>>
        requires { M.is_of m.now out }
        ensures of { M.is_of m.now result }
        ensures place { M.place result ≡ M.place out }
    {
        calls_single(rt, m, out, self)
    }
}

/// A call of a buffer of either kind.
#[derive(Clone, Copy)]
enum BufferCall {
    /// Appends the item.
    Appends(u64),
    /// Removes the oldest item, which is this one.
    Removes(u64),
    /// Notifies this number of processes, all that wait for an item, though there is none: each waits again before
    /// another process enters. (Only for Mesa conditions.)
    Broadcasts(usize),
}

use BufferCall::{Appends, Broadcasts, Removes};

impl Call<Buffer<u64>> for BufferCall {
    fn make<R: Wait + Abort + AllocGlobal, M: Monitor<Buffer<u64>, Out = Outside<Buffer<u64>>>>(
        self,
        rt: &R,
        m: &M,
        out: Outside<Buffer<u64>>,
        _turns: &Turns,
    ) -> Outside<Buffer<u64>>
        requires { M.is_of m.now out }
        ensures of { M.is_of m.now result }
        ensures place { M.place result ≡ M.place out }
    {
        match self {
            Appends(item) => Buffer::append(m, rt, out, item),
            Removes(wanted) => {
                let (out, item) = Buffer::remove(m, rt, out);
                expect_same(rt, item, wanted);
                out
            }
            Broadcasts(_) => panic!(rt; "a buffer has Hoare's conditions"),
        }
    }
}

// Notifies `wanted` processes, all that wait for an item, though there is none. Fails the test unless all wait again
// before this place enters again.
fn broadcasts<R: Wait + Abort, M: Monitor<MesaBuffer<u64>>>(
    rt: &R,
    m: &M,
    out: M::Out,
    wanted: usize,
) -> M::Out
    requires { M.is_of m.now out }
    ensures of { M.is_of m.now result }
    ensures place { M.place result ≡ M.place out }
{
    let mut inside = m.enter(rt, out);
    let notified = m.broadcast(&mut inside, NONEMPTY);
    let inside = m.enter(rt, m.leave(rt, inside));
    expect_same(rt, (notified, count_waiting(m, &inside)), (wanted, wanted));
    m.leave(rt, inside)
}

impl Call<MesaBuffer<u64>> for BufferCall {
    fn make<
        R: Wait + Abort + AllocGlobal,
        M: Monitor<MesaBuffer<u64>, Out = Outside<MesaBuffer<u64>>>,
    >(
        self,
        rt: &R,
        m: &M,
        out: Outside<MesaBuffer<u64>>,
        _turns: &Turns,
    ) -> Outside<MesaBuffer<u64>>
        requires { M.is_of m.now out }
        ensures of { M.is_of m.now result }
        ensures place { M.place result ≡ M.place out }
    {
        match self {
            Appends(item) => MesaBuffer::append(m, rt, out, item),
            Removes(wanted) => {
                let (out, item) = MesaBuffer::remove(m, rt, out);
                expect_same(rt, item, wanted);
                out
            }
            Broadcasts(wanted) => broadcasts(rt, m, out, wanted),
        }
    }
}

// Place 1 waits for the item that place 0 has, and resumes with it. A second item is given back.
#[test]
fn an_item_is_lent_on_each_door(host: HostRuntime) {
    let rt = &host;
    let places: &[&[Step<SingleCall>]] = &[
        &[Calls(Acquires(7)), LinesUp(1), Calls(Releases(7))],
        &[
            Awaits(1),
            Calls(Acquires(7)),
            Calls(Releases(7)),
            Calls(IsRefused(9)),
            Calls(Acquires(7)),
        ],
    ];
    take_steps!(rt, Single::with(7), places);
}

// Four items go through one cell.
#[test]
fn items_come_out_in_order_on_each_door(host: HostRuntime) -> Result<(), Fail> {
    let rt = &host;
    let places: &[&[Step<BufferCall>]] = &[
        &[
            Calls(Appends(1)),
            Calls(Appends(2)),
            Calls(Appends(3)),
            Calls(Appends(4)),
        ],
        &[
            Calls(Removes(1)),
            Calls(Removes(2)),
            Calls(Removes(3)),
            Calls(Removes(4)),
        ],
    ];
    take_steps!(rt, Buffer::make(rt.alloc(), 1)?, places);
    Ok(())
}

// Two processes wait for an item. Both are notified though there is none, and wait again. Then each gets an item, in
// the order in which they came.
#[test]
fn notified_processes_test_again_on_each_door(host: HostRuntime) -> Result<(), Fail> {
    let rt = &host;
    let places: &[&[Step<BufferCall>]] = &[
        &[
            LinesUp(2),
            Calls(Broadcasts(2)),
            Calls(Appends(1)),
            Calls(Appends(2)),
        ],
        &[Awaits(1), Calls(Removes(1))],
        &[Awaits(2), Calls(Removes(2))],
    ];
    take_steps!(rt, MesaBuffer::make(rt.alloc(), 1)?, places);
    Ok(())
}
