//! The disk head. The drive is the number of requests that were granted, so each grant has a number.
ghost use Rattle.std.specs.Prelude.{◌≡◌};
ghost use Rattle.sweep_schedulers.specs.Follows.{Follows};
ghost use Rattle.sweep_schedulers.specs.HeadHistories.{ContinuesHead};

use crate::tests::awaited::Turns;
use crate::tests::compared::expect_same;
use crate::tests::schedulers::steps::Step::{Awaits, Calls, Gives, LinesUp, Watches};
use crate::tests::schedulers::steps::{Call, Step, take_steps};
use door_frame::place::Outside;
use hoare_law::monitor::Monitor;
use std::process::Abort;
use std::sync::Wait;
use sweep_schedulers::head::{Head, OffDisk};
use sweep_schedulers::laws::head_calls_follow;
use sweep_schedulers::not_out::NotOut;

/// A call of a disk head.
#[derive(Clone, Copy)]
pub enum HeadCall {
    /// Requests the drive for this cylinder, with this result: the number of the grant.
    Requests(u16, Result<u64, OffDisk>),
    /// Finds that this number of grants are still due at the cylinder of the head.
    Stays(usize),
    /// Puts the drive in while none is in. The next grant has this number.
    Releases(u64),
    /// Attempts to put a drive in while one is in: it is given back.
    IsRefused(u64),
}

use HeadCall::{IsRefused, Releases, Requests, Stays};

/// Requests the drive for cylinder 7, and puts it back: from the clauses of these calls and the law, the place's own
/// events stay such as `laws::a_head_history_is_a_run` asks.
pub fn keeps_to_its_traces<R: Wait, M: Monitor<Head<u64>>>(rt: &R, m: &M, out: M::Out) -> M::Out
    requires { M.is_of m.now out }
    ensures of { M.is_of m.now result }
    ensures follows { Follows ContinuesHead (M.place out) (M.front out)
        → Follows ContinuesHead (M.place out) (M.front result) }
{
    head_calls_follow::<u64>();
    let (out, granted) = Head::request(m, rt, out, 7);
    match granted {
        Ok(drive) => {
            let (out, _released) = Head::release(m, rt, out, drive);
            out
        }
        Err(OffDisk) => out,
    }
}

/// Makes the call. Fails the test unless it returns what it must.
pub fn calls_head<R: Wait + Abort, M: Monitor<Head<u64>>>(
    rt: &R,
    m: &M,
    out: M::Out,
    call: HeadCall,
) -> M::Out
    requires { M.is_of m.now out }
    ensures of { M.is_of m.now result }
    ensures place { M.place result ≡ M.place out }
{
    let (drive, wanted) = match call {
        Requests(cylinder, wanted) => {
            let (out, granted) = Head::request(m, rt, out, cylinder);
            expect_same(rt, granted, wanted);
            return out;
        }
        Stays(wanted) => {
            let inside = m.enter(rt, out);
            expect_same(rt, m.state(&inside).stay(), wanted);
            return m.leave(rt, inside);
        }
        Releases(drive) => (drive, None),
        IsRefused(drive) => (drive, Some(drive)),
    };
    let (out, released) = Head::release(m, rt, out, drive);
    let back = match released {
        Ok(()) => None,
        Err(NotOut { item }) => Some(item),
    };
    expect_same(rt, back, wanted);
    out
}

impl Call<Head<u64>> for HeadCall {
    fn make<R: Wait + Abort + AllocGlobal, M: Monitor<Head<u64>, Out = Outside<Head<u64>>>>(
        self,
        rt: &R,
        m: &M,
        out: Outside<Head<u64>>,
        _turns: &Turns,
    ) -> Outside<Head<u64>>
        requires { M.is_of m.now out }
        ensures of { M.is_of m.now result }
        ensures place { M.place result ≡ M.place out }
    {
        calls_head(rt, m, out, self)
    }
}

// While the drive is at 50, requests for 70, 60, 20, 50 and 40 wait, in this order. They are granted in the order 60,
// 70, 50, 40, 20. The request for 0, the last cylinder of the way down, comes after them, and ends when no other place
// acts.
#[test]
fn a_head_sweeps_on_each_door(host: HostRuntime) {
    let rt = &host;
    let places: &[&[Step<HeadCall>]] = &[
        &[
            Calls(Requests(50, Ok(0))),
            LinesUp(5),
            Calls(Releases(1)),
            Calls(Requests(0, Ok(6))),
            Calls(Releases(7)),
            Calls(Requests(101, Err(OffDisk))),
            Calls(IsRefused(9)),
        ],
        &[Awaits(1), Calls(Requests(70, Ok(2))), Calls(Releases(3))],
        &[Awaits(2), Calls(Requests(60, Ok(1))), Calls(Releases(2))],
        &[Awaits(3), Calls(Requests(20, Ok(5))), Calls(Releases(6))],
        &[Awaits(4), Calls(Requests(50, Ok(3))), Calls(Releases(4))],
        &[Awaits(5), Calls(Requests(40, Ok(4))), Calls(Releases(5))],
    ];
    take_steps!(rt, Head::with(0, 100), places);
}

// While the drive is at 10, places 1 and 2 request 20, and place 3 requests 30. Place 4 requests 20 when place 1 has
// the drive there, and gets it last.
#[test]
fn a_request_for_the_cylinder_of_the_head_waits_on_each_door(host: HostRuntime) {
    let rt = &host;
    let places: &[&[Step<HeadCall>]] = &[
        &[
            Calls(Requests(10, Ok(0))),
            Calls(Stays(0)),
            LinesUp(3),
            Calls(Releases(1)),
        ],
        &[
            Awaits(1),
            Calls(Requests(20, Ok(1))),
            Calls(Stays(1)),
            Gives(4),
            Watches(3),
            Calls(Releases(2)),
        ],
        &[
            Awaits(2),
            Calls(Requests(20, Ok(2))),
            Calls(Stays(0)),
            Calls(Releases(3)),
        ],
        &[
            Awaits(3),
            Calls(Requests(30, Ok(3))),
            Calls(Stays(0)),
            Calls(Releases(4)),
        ],
        &[
            Awaits(4),
            Calls(Requests(20, Ok(4))),
            Calls(Stays(0)),
            Calls(Releases(5)),
        ],
    ];
    take_steps!(rt, Head::with(0, 100), places);
}
