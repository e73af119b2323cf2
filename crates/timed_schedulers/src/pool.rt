//! A pool of buffers, for streams.
mod marks;
mod owners;

ghost use Rattle.std.specs.Prelude.{◌≡◌, ◌<◌, IfOk};
ghost use Rattle.hoare_law.specs.Priorities.{nobody};
ghost use Rattle.timed_schedulers.specs.Pools.{PoolRests, Makes, Judges};
ghost use Rattle.timed_schedulers.specs.PoolTraces.{Takes, Gives};

use hoare_law::data::MonitorData;
use hoare_law::monitor::Monitor;
use hoare_law::waits::Waits;
use std::alloc::Global;
use std::marker::Model;
use std::sync::Wait;

/// The largest number of buffers of a pool.
pub const MOST_BUFFERS: u32 = 1024;

/// The largest number of streams of a pool.
pub const MOST_STREAMS: u32 = 256;

/// The condition *nonfree* of a `Pool`: a process waits on it until a buffer is free.
pub const NONFREE: usize = 0;

/// Why no pool was created.
#[derive(Clone, Copy, Debug, PartialEq, Eq, thiserror::Error)]
pub enum PoolRefused {
    /// The number of buffers isn't 1 to 1024, or the number of streams isn't 1 to 256.
    #[error("a pool has 1 to 1024 buffers and 1 to 256 streams")]
    BadSize,
    /// Both numbers are in range, but an allocation failed.
    #[error("out of memory")]
    Memory,
}

/// Why `take` is refused: the pool has no stream of this number.
#[derive(Clone, Copy, Debug, PartialEq, Eq, thiserror::Error)]
#[error("no such stream")]
pub struct NoStream;

/// Why `give` is refused: the first reason that applies, in this order.
#[derive(Clone, Copy, Debug, PartialEq, Eq, thiserror::Error)]
pub enum GiveRefused {
    /// The pool has no stream of this number.
    #[error("no such stream")]
    NoStream,
    /// The pool has no buffer of this number.
    #[error("no such buffer")]
    NoBuffer,
    /// The buffer is free, or another stream holds it.
    #[error("the stream doesn't hold the buffer")]
    NotHeld,
}

/// Buffers that streams of work share (Hoare 1974, Further Examples: Buffer Allocation; the details are this
/// project's). Condition 0 is *nonfree* (`NONFREE`). A process waits on it for a stream, with the number of buffers
/// that this stream holds when the wait begins as its priority: the waiter with the least number resumes first. The
/// pool records the owner of each buffer; it doesn't contain the buffers.
///
/// With a monitor `m` of `Pool::make(alloc, 2, 3)?`, and `out`, a place of it:
///
/// ```rust
/// let (out, taken) = Pool::take(&m, &rt, out, 1);
/// let (out, given) = Pool::give(&m, &rt, out, 1, 0);
/// assert!(rt; taken == Ok(0) && given == Ok(()));
/// ```
#[derive(Drop)]
pub struct Pool {
    owners: Vec<Option<u32>>,
    held: Vec<u32>,
    free: usize,
    words: Vec<u64>,
}

impl Model for Pool {
    ghost use Rattle.std.specs.Prelude.{length};
    ghost use Rattle.timed_schedulers.specs.Pools.{Pooled};
    ghost use Rattle.timed_schedulers.specs.Marks.{IsKept};

    ghost Value = { Pooled };

    ghost view = { λ p. record { streams = length p.held.items; owners = p.owners.items } };

    ghost invariant = { λ p. IsKept p.owners.items p.held.items p.free p.words.items };
}

impl MonitorData for Pool {
    ghost use Rattle.timed_schedulers.specs.Pools.{PoolHolds, PoolRests, PoolReady};

    const CONDITIONS: usize = 1;

    ghost CONDITIONS = { 1 };

    const MESA: usize = 0;

    ghost MESA = { 0 };

    ghost inv = { λ p. PoolHolds p };

    ghost rest = { λ p q. PoolRests p (q 0) };

    ghost ready = { λ c n p q. PoolReady p (q 0) };

    fn rest_holds<W: Waits>(&self, lists: &W) -> bool {
        let free = self.free();
        lists.count(NONFREE) == 0 || free == 0
    }

    fn ready_holds<W: Waits>(&self, condition: usize, priority: u64, lists: &W) -> bool {
        let free = self.free();
        free > 0 && (lists.count(NONFREE) == 0 || free == 1)
    }

    ghost rest_inv = { λ p q h. h.inv };

    ghost ready_inv = { λ c n p q h. h.inv };
}

impl Pool {
    /// Creates a pool of `buffers` buffers, 1 to 1024, all free, for `streams` streams, 1 to 256. Refused with
    /// `BadSize` exactly if a number is out of range; else with `Memory` if an allocation fails. No procedure of the
    /// pool allocates.
    pub fn make(alloc: Global, buffers: u32, streams: u32) -> Result<Pool, PoolRefused>
        ensures made { Makes buffers streams result }
        ensures rest { IfOk result (λ p. PoolRests p (nobody 0)) }
    {
        if buffers == 0 || buffers > MOST_BUFFERS || streams == 0 || streams > MOST_STREAMS {
            return Err(PoolRefused::BadSize);
        }
        match Pool::all_free(alloc, buffers as usize, streams as usize) {
            Ok(pool) => Ok(pool),
            Err(_) => Err(PoolRefused::Memory),
        }
    }

    // Returns `Ok` if `stream` may give `buffer` back, else the first reason why it may not.
    fn judge(&self, stream: u32, buffer: u32) -> Result<(), GiveRefused>
        ensures { Judges stream buffer self.now result }
    {
        if !self.has_stream(stream) {
            Err(GiveRefused::NoStream)
        } else if !self.has_buffer(buffer) {
            Err(GiveRefused::NoBuffer)
        } else if !self.is_held(stream, buffer) {
            Err(GiveRefused::NotHeld)
        } else {
            Ok(())
        }
    }

    /// Takes the least-numbered free buffer for `stream`, once a buffer is free, and returns its number. The caller
    /// waits on *nonfree*, once, if it finds no free buffer. Refused with `NoStream` exactly if the pool has no stream
    /// of this number: at once, or after the wait, if another pool was put in this one's place meanwhile. After the
    /// wait the refused caller leaves by a signal on *nonfree*.
    pub fn take<R: Wait, M: Monitor<Pool>>(
        m: &M,
        rt: &R,
        out: M::Out,
        stream: u32,
    ) -> (M::Out, Result<u32, NoStream>)
        requires { M.is_of m.now out }
        ensures of { M.is_of m.now result.0 }
        ensures place { M.place result.0 ≡ M.place out }
        ensures trace { Takes (M.place out) stream (M.front out) (M.front result.0) result.1 }
    {
        let mut inside = m.enter(rt, out);
        if !m.state(&inside).has_stream(stream) {
            return (m.leave(rt, inside), Err(NoStream));
        }
        if m.state(&inside).free() == 0 {
            let held = m.state(&inside).held(stream);
            inside = m.wait(rt, inside, NONFREE, u64::from(held));
            if !m.state(&inside).has_stream(stream) {
                let (out, _resumed) = m.signal_leave(rt, inside, NONFREE);
                return (out, Err(NoStream));
            }
        }
        let buffer = M::state_mut(&mut inside, m).own_least(stream);
        (m.leave(rt, inside), Ok(buffer))
    }

    /// Frees `buffer`, which `stream` holds, and leaves by a signal on *nonfree*, which resumes a waiter if there is
    /// one. Refused by the first reason that applies, with nothing changed: `NoStream`; `NoBuffer`; `NotHeld` if the
    /// buffer is free, or another stream holds it.
    pub fn give<R: Wait, M: Monitor<Pool>>(
        m: &M,
        rt: &R,
        out: M::Out,
        stream: u32,
        buffer: u32,
    ) -> (M::Out, Result<(), GiveRefused>)
        requires { M.is_of m.now out }
        ensures of { M.is_of m.now result.0 }
        ensures place { M.place result.0 ≡ M.place out }
        ensures trace { Gives (M.place out) stream buffer (M.front out) (M.front result.0)
            result.1 }
    {
        let mut inside = m.enter(rt, out);
        if let Err(refused) = m.state(&inside).judge(stream, buffer) {
            return (m.leave(rt, inside), Err(refused));
        }
        M::state_mut(&mut inside, m).set_free(stream, buffer);
        let (out, _resumed) = m.signal_leave(rt, inside, NONFREE);
        (out, Ok(()))
    }
}
