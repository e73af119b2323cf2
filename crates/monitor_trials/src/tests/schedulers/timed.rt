//! The alarm clock, and the pool of buffers.
ghost use Rattle.std.specs.Prelude.{◌≡◌};

use crate::tests::awaited::Turns;
use crate::tests::compared::expect_same;
use crate::tests::schedulers::steps::Step::{Awaits, Calls, Finds, LinesUp, Watches};
use crate::tests::schedulers::steps::{Call, Step, take_steps};
use door_frame::place::Outside;
use hoare_law::monitor::Monitor;
use std::process::Abort;
use std::sync::Wait;
use std::test::Fail;
use timed_schedulers::alarm::{Alarm, ClockFull, TooFar};
use timed_schedulers::pool::{GiveRefused, NoStream, Pool};

/// A call of an alarm clock.
#[derive(Clone, Copy)]
enum AlarmCall {
    /// Sleeps for this number of ticks, with this result: the time at which the sleeper wakes.
    Sleeps(u64, Result<u64, TooFar>),
    /// Ticks, with this result: the next time.
    Ticks(Result<u64, ClockFull>),
}

use AlarmCall::{Sleeps, Ticks};

impl Call<Alarm> for AlarmCall {
    fn make<R: Wait + Abort + AllocGlobal, M: Monitor<Alarm, Out = Outside<Alarm>>>(
        self,
        rt: &R,
        m: &M,
        out: Outside<Alarm>,
        _turns: &Turns,
    ) -> Outside<Alarm>
        requires { M.is_of m.now out }
        ensures of { M.is_of m.now result }
        ensures place { M.place result ≡ M.place out }
    {
        match self {
            Sleeps(ticks, wanted) => {
                let (out, woke) = Alarm::wakeme(m, rt, out, ticks);
                expect_same(rt, woke, wanted);
                out
            }
            Ticks(wanted) => {
                let (out, time) = Alarm::tick(m, rt, out);
                expect_same(rt, time, wanted);
                out
            }
        }
    }
}

/// A call of a pool.
#[derive(Clone, Copy)]
pub enum PoolCall {
    /// Takes a buffer for this stream, with this result: the number of the buffer.
    Takes(u32, Result<u32, NoStream>),
    /// Gives this stream's buffer of this number back, with this result.
    Gives(u32, u32, Result<(), GiveRefused>),
}

use PoolCall::{Gives, Takes};

/// Makes the call. Fails the test unless it returns what it must.
pub fn calls_pool<R: Wait + Abort, M: Monitor<Pool>>(
    rt: &R,
    m: &M,
    out: M::Out,
    call: PoolCall,
) -> M::Out
    requires { M.is_of m.now out }
    ensures of { M.is_of m.now result }
    ensures place { M.place result ≡ M.place out }
{
    match call {
        Takes(stream, wanted) => {
            let (out, taken) = Pool::take(m, rt, out, stream);
            expect_same(rt, taken, wanted);
            out
        }
        Gives(stream, buffer, wanted) => {
            let (out, given) = Pool::give(m, rt, out, stream, buffer);
            expect_same(rt, given, wanted);
            out
        }
    }
}

impl Call<Pool> for PoolCall {
    fn make<R: Wait + Abort + AllocGlobal, M: Monitor<Pool, Out = Outside<Pool>>>(
        self,
        rt: &R,
        m: &M,
        out: Outside<Pool>,
        _turns: &Turns,
    ) -> Outside<Pool>
        requires { M.is_of m.now out }
        ensures of { M.is_of m.now result }
        ensures place { M.place result ≡ M.place out }
    {
        calls_pool(rt, m, out, self)
    }
}

// The first tick wakes the sleeper of one tick alone. The second wakes both sleepers of two.
#[test]
fn sleepers_wake_at_their_settings_on_each_door(host: HostRuntime) {
    let rt = &host;
    let places: &[&[Step<AlarmCall>]] = &[
        &[Calls(Sleeps(2, Ok(2)))],
        &[Calls(Sleeps(2, Ok(2)))],
        &[Calls(Sleeps(1, Ok(1)))],
        &[
            Watches(3),
            Calls(Ticks(Ok(1))),
            Finds(2),
            Calls(Ticks(Ok(2))),
            Finds(0),
        ],
    ];
    take_steps!(rt, Alarm::at(0), places);
}

#[test]
fn a_clock_ends_at_its_last_time_on_each_door(host: HostRuntime) {
    let rt = &host;
    let places: &[&[Step<AlarmCall>]] = &[&[
        Calls(Sleeps(1, Err(TooFar))),
        Calls(Ticks(Err(ClockFull))),
        Calls(Sleeps(0, Ok(u64::MAX))),
    ]];
    take_steps!(rt, Alarm::at(u64::MAX), places);
}

// Place 1 waits for stream 0, which holds two buffers, and then place 2 waits for stream 2, which holds none. The first
// buffer that is given back goes to place 2.
#[test]
fn a_buffer_goes_to_the_stream_with_the_fewest_on_each_door(host: HostRuntime) -> Result<(), Fail> {
    let rt = &host;
    let places: &[&[Step<PoolCall>]] = &[
        &[
            Calls(Takes(0, Ok(0))),
            Calls(Takes(0, Ok(1))),
            Calls(Takes(1, Ok(2))),
            LinesUp(2),
            Calls(Gives(1, 2, Ok(()))),
            Finds(1),
            Calls(Gives(0, 0, Ok(()))),
            Finds(0),
            Calls(Gives(1, 0, Err(GiveRefused::NotHeld))),
            Calls(Gives(0, 3, Err(GiveRefused::NoBuffer))),
            Calls(Takes(3, Err(NoStream))),
            Calls(Gives(3, 0, Err(GiveRefused::NoStream))),
        ],
        &[Awaits(1), Calls(Takes(0, Ok(0)))],
        &[Awaits(2), Calls(Takes(2, Ok(2)))],
    ];
    take_steps!(rt, Pool::make(rt.alloc(), 3, 3)?, places);
    Ok(())
}
