//! The readers and writers: which process waits for which others, and the most readers.
ghost use Rattle.std.specs.Prelude.{◌≡◌};

use crate::tests::awaited::Turns;
use crate::tests::compared::{expect_same, reads_as};
use crate::tests::schedulers::fake::with_answers;
use crate::tests::schedulers::steps::Step::{Awaits, Calls, LinesUp};
use crate::tests::schedulers::steps::{Call, Step, line_up, take_steps};
use door_frame::place::Outside;
use hoare_law::monitor::Monitor;
use hoare_law::waits::Waits;
use std::process::Abort;
use std::sync::Wait;
use sweep_schedulers::not_out::NotOut;
use sweep_schedulers::readers_writers::{
    MOST_READERS, NoReader, OKTOREAD, OKTOWRITE, ReadPass, ReadersWriters, TooManyReaders,
};

/// A number that is read and written.
pub type Shared = ReadersWriters<u64>;

/// A call, or the calls of a reader.
#[derive(Clone, Copy)]
enum SharedCall {
    /// Starts a write, which finds this value.
    StartsWrite(u64),
    /// Ends a write, and leaves this value.
    EndsWrite(u64),
    /// Attempts to end a write while no writer is in: the value is given back.
    IsNoWriter(u64),
    /// Reads this value. While this reader is in, this number of readers and of writers wait.
    Reads(u64, (usize, usize)),
    /// Starts as many reads as there may be, each of this value, and lets this number of readers and of writers begin
    /// to wait, at the turns from 1 on. They wait until the last of the reads has ended.
    ReadsMost(u64, (usize, usize)),
    /// Attempts to end a read while no reader is in, with a pass of another monitor: it is given back.
    IsNoReader,
}

use SharedCall::{EndsWrite, IsNoReader, IsNoWriter, Reads, ReadsMost, StartsWrite};

/// Starts a read, which must find `wanted`.
pub fn starts_read<R: Wait + Abort, M: Monitor<Shared>>(
    rt: &R,
    m: &M,
    out: M::Out,
    wanted: u64,
) -> (M::Out, ReadPass)
    requires { M.is_of m.now out }
    ensures of { M.is_of m.now result.0 }
    ensures place { M.place result.0 ≡ M.place out }
{
    let (out, read) = ReadersWriters::start_read(m, rt, out);
    let (pass, value) = read.expect(rt, "there is room for a reader");
    expect_same(rt, value, wanted);
    (out, pass)
}

/// Ends a read. Fails the test if that is refused.
pub fn ends_read<R: Wait + Abort, M: Monitor<Shared>>(
    rt: &R,
    m: &M,
    out: M::Out,
    pass: ReadPass,
) -> M::Out
    requires { M.is_of m.now out }
    ensures of { M.is_of m.now result }
    ensures place { M.place result ≡ M.place out }
{
    let (out, ended) = ReadersWriters::end_read(m, rt, out, pass);
    match ended {
        Ok(()) => out,
        Err(NoReader { pass: _pass }) => panic!(rt; "no reader is in"),
    }
}

/// Asks to read. Fails the test unless that is refused, at once or after a wait, since the most readers are in.
pub fn is_one_too_many<R: Wait + Abort, M: Monitor<Shared>>(rt: &R, m: &M, out: M::Out) -> M::Out
    requires { M.is_of m.now out }
    ensures of { M.is_of m.now result }
    ensures place { M.place result ≡ M.place out }
{
    let (out, read) = ReadersWriters::start_read(m, rt, out);
    match read {
        Err(TooManyReaders) => out,
        Ok((_pass, _value)) => panic!(rt; "one reader too many is in"),
    }
}

/// Starts a write, which must find `wanted`.
pub fn starts_write<R: Wait + Abort, M: Monitor<Shared>>(
    rt: &R,
    m: &M,
    out: M::Out,
    wanted: u64,
) -> M::Out
    requires { M.is_of m.now out }
    ensures of { M.is_of m.now result }
    ensures place { M.place result ≡ M.place out }
{
    let (out, found) = ReadersWriters::start_write(m, rt, out);
    expect_same(rt, found, wanted);
    out
}

/// Attempts to end a write, and to leave `value`. Fails the test unless `back` is given back: `None` if the write ends.
pub fn ends_write<R: Wait + Abort, M: Monitor<Shared>>(
    rt: &R,
    m: &M,
    out: M::Out,
    value: u64,
    back: Option<u64>,
) -> M::Out
    requires { M.is_of m.now out }
    ensures of { M.is_of m.now result }
    ensures place { M.place result ≡ M.place out }
{
    let (out, ended) = ReadersWriters::end_write(m, rt, out, value);
    let found = match ended {
        Ok(()) => None,
        Err(NotOut { item }) => Some(item),
    };
    expect_same(rt, found, back);
    out
}

// Fails the test unless this number of readers and of writers wait.
fn finds_waiting<R: Wait + Abort, M: Monitor<Shared>>(
    rt: &R,
    m: &M,
    out: M::Out,
    wanted: (usize, usize),
) -> M::Out
    requires { M.is_of m.now out }
    ensures of { M.is_of m.now result }
    ensures place { M.place result ≡ M.place out }
{
    let inside = m.enter(rt, out);
    let lists = m.lists(&inside);
    expect_same(rt, (lists.count(OKTOREAD), lists.count(OKTOWRITE)), wanted);
    m.leave(rt, inside)
}

// Starts this many reads of `value`; with the last of them the most readers are in, so that one more is refused, until
// a read has ended. Then lets as many processes begin to wait as `waiting` has, at the turns from 1 on. Ends each read
// with its own pass: just before, this number of readers and of writers wait.
fn reads_most<R: Wait + Abort, M: Monitor<Shared>>(
    rt: &R,
    m: &M,
    out: M::Out,
    turns: &Turns,
    reads: u32,
    value: u64,
    waiting: (usize, usize),
) -> M::Out
    requires { M.is_of m.now out }
    ensures of { M.is_of m.now result }
    ensures place { M.place result ≡ M.place out }
{
    let (out, pass) = starts_read(rt, m, out, value);
    let (out, pass) = if reads > 1 {
        (
            reads_most(rt, m, out, turns, reads - 1, value, waiting),
            pass,
        )
    } else {
        let out = is_one_too_many(rt, m, out);
        let out = ends_read(rt, m, out, pass);
        let (out, pass) = starts_read(rt, m, out, value);
        let others = waiting.0.saturating_add(waiting.1);
        (line_up(rt, m, out, turns, others), pass)
    };
    let out = finds_waiting(rt, m, out, waiting);
    ends_read(rt, m, out, pass)
}

// Attempts to end a read while no reader is in, with a pass of a monitor for tests. Fails the test unless the pass is
// given back, and ends the read at its own monitor.
fn is_no_reader<R: Wait + Abort + AllocGlobal, M: Monitor<Shared>>(
    rt: &R,
    m: &M,
    out: M::Out,
) -> M::Out
    requires { M.is_of m.now out }
    ensures of { M.is_of m.now result }
    ensures place { M.place result ≡ M.place out }
{
    let (other, place) = with_answers(rt, rt.alloc(), ReadersWriters::with(8), []);
    let (place, pass) = starts_read(rt, &other, place, 8);
    let (out, ended) = ReadersWriters::end_read(m, rt, out, pass);
    let Err(refused) = ended else {
        panic!(rt; "a reader was in")
    };
    reads_as(rt, rt.alloc(), &refused, "no reader is in");
    let NoReader { pass } = refused;
    ends_read(rt, &other, place, pass);
    out
}

impl Call<Shared> for SharedCall {
    fn make<R: Wait + Abort + AllocGlobal, M: Monitor<Shared, Out = Outside<Shared>>>(
        self,
        rt: &R,
        m: &M,
        out: Outside<Shared>,
        turns: &Turns,
    ) -> Outside<Shared>
        requires { M.is_of m.now out }
        ensures of { M.is_of m.now result }
        ensures place { M.place result ≡ M.place out }
    {
        match self {
            StartsWrite(wanted) => starts_write(rt, m, out, wanted),
            EndsWrite(value) => ends_write(rt, m, out, value, None),
            IsNoWriter(value) => ends_write(rt, m, out, value, Some(value)),
            Reads(wanted, waiting) => {
                let (out, pass) = starts_read(rt, m, out, wanted);
                let out = finds_waiting(rt, m, out, waiting);
                ends_read(rt, m, out, pass)
            }
            ReadsMost(value, waiting) => reads_most(
                rt,
                m,
                out,
                turns,
                MOST_READERS,
                value,
                waiting,
            ),
            IsNoReader => is_no_reader(rt, m, out),
        }
    }
}

// Place 0 writes while two readers and then a writer begin to wait. Then both readers are in while the writer waits.
// The writer is the last to act.
#[test]
fn readers_come_before_a_writer_on_each_door(host: HostRuntime) {
    let rt = &host;
    let places: &[&[Step<SharedCall>]] = &[
        &[Calls(StartsWrite(0)), LinesUp(3), Calls(EndsWrite(3))],
        &[Awaits(1), Calls(Reads(3, (0, 1)))],
        &[Awaits(2), Calls(Reads(3, (0, 1)))],
        &[
            Awaits(3),
            Calls(StartsWrite(3)),
            Calls(EndsWrite(4)),
            Calls(IsNoWriter(5)),
            Calls(ReadsMost(4, (0, 0))),
            Calls(IsNoReader),
        ],
    ];
    take_steps!(rt, ReadersWriters::with(0), places);
}

// While the most readers are in, a writer begins to wait, and then a reader. The writer comes after all the reads, and
// the late reader after the writer.
#[test]
fn a_late_reader_waits_for_the_writer_on_each_door(host: HostRuntime) {
    let rt = &host;
    let places: &[&[Step<SharedCall>]] = &[
        &[Calls(ReadsMost(4, (1, 1)))],
        &[Awaits(1), Calls(StartsWrite(4)), Calls(EndsWrite(6))],
        &[Awaits(2), Calls(Reads(6, (0, 0)))],
    ];
    take_steps!(rt, ReadersWriters::with(4), places);
}
