//! A value that many processes read at once, or one process writes alone.
ghost use Rattle.std.specs.Prelude.{◌≡◌, ◌↔◌, ◌<◌, ◌-◌, IsTrue, false};
ghost use Rattle.hoare_law.specs.Priorities.{nobody};
ghost use Rattle.sweep_schedulers.specs.ReadersWriters.{IsInUse, ReadersRest, unused, with_readers, with_writer};
ghost use Rattle.sweep_schedulers.specs.ReadersWriters.{written};
ghost use Rattle.sweep_schedulers.specs.ReadersWritersTraces.{Admits, EndsRead, EndsWrite, StartsRead, StartsWrite};

use crate::not_out::NotOut;
use hoare_law::data::MonitorData;
use hoare_law::monitor::{Monitor, PLAIN};
use hoare_law::waits::Waits;
use std::fmt;
use std::marker::Model;
use std::sync::Wait;

/// The largest number of readers that are in at a time.
pub const MOST_READERS: u32 = 1024;

/// The condition *oktoread* of a `ReadersWriters`: a process waits on it to read.
pub const OKTOREAD: usize = 0;

/// The condition *oktowrite* of a `ReadersWriters`: a process waits on it to write.
pub const OKTOWRITE: usize = 1;

/// A value that up to 1,024 processes read at a time, or one process writes (Hoare 1974, Readers and Writers).
/// Condition 0 is *oktoread* (`OKTOREAD`), condition 1 is *oktowrite* (`OKTOWRITE`); busy means that a writer is in. A
/// reader that enters while a writer is in or waits has to wait. The readers that wait when a writer ends go before the
/// next writer.
///
/// With a monitor `m` of `ReadersWriters::with(7u64)`, and `out`, a place of it:
///
/// ```rust
/// let (out, read) = ReadersWriters::start_read(&m, &rt, out);
/// let (pass, value) = read?;
/// let (out, ended) = ReadersWriters::end_read(&m, &rt, out, pass); // Ok(()), or the pass is returned
/// let (out, value) = ReadersWriters::start_write(&m, &rt, out);
/// let (out, written) = ReadersWriters::end_write(&m, &rt, out, value + 1);
/// ```
#[derive(Drop)]
pub struct ReadersWriters<T: Copy> {
    value: T,
    readers: u32,
    busy: bool,
}

impl<T: Copy> Model for ReadersWriters<T> {
    ghost use Rattle.sweep_schedulers.specs.ReadersWriters.{Shared, ReadersHold};

    ghost Value = { Shared T };

    ghost view = { λ s. record { value = s.value; readers = s.readers; busy = s.busy } };

    ghost invariant = { λ s. ReadersHold
        (record { value = s.value; readers = s.readers; busy = s.busy }) };
}

/// The right of one reader to be in. It can't be dropped or copied, so each read has to be ended, by `end_read`. It
/// isn't bound to its monitor.
#[derive(Debug)]
pub struct ReadPass {
    unspent: (),
}

impl ReadPass {
    // Creates the pass of a reader that starts.
    pub(crate) fn new() -> ReadPass {
        ReadPass { unspent: () }
    }

    // Consumes the pass of a reader that ends.
    pub(crate) fn spend(self) {
        let ReadPass { unspent: () } = self;
    }
}

/// Why `start_read` is refused: 1,024 readers are in.
#[derive(Clone, Copy, Debug, PartialEq, Eq, thiserror::Error)]
#[error("1024 readers are in")]
pub struct TooManyReaders;

/// Why `end_read` is refused: no reader is in, so none can end. It has the given pass. (It isn't an `Error`: an error
/// may be dropped, and a pass may not.)
#[derive(Debug)]
pub struct NoReader {
    /// The pass that was given to `end_read`.
    pub pass: ReadPass,
}

impl fmt::Display for NoReader {
    fn fmt<W: fmt::Write>(&self, f: &mut fmt::Formatter<W>) -> fmt::Result {
        write!(f, "no reader is in")
    }
}

impl<T: Copy> MonitorData for ReadersWriters<T> {
    ghost use Rattle.sweep_schedulers.specs.ReadersWriters.{ReadersHold, ReadersRest, ReadersReady, inv_of_ready};

    const CONDITIONS: usize = 2;

    ghost CONDITIONS = { 2 };

    const MESA: usize = 0;

    ghost MESA = { 0 };

    ghost inv = { λ s. ReadersHold s };

    ghost rest = { λ s q. ReadersRest s (q 0) (q 1) };

    ghost ready = { λ c p s q. ReadersReady c s };

    fn rest_holds<W: Waits>(&self, lists: &W) -> bool {
        let (readers_wait, writers_wait) = (lists.count(OKTOREAD) > 0, lists.count(OKTOWRITE) > 0);
        (!writers_wait || self.busy || self.readers > 0)
            && (!readers_wait || self.busy || writers_wait)
    }

    fn ready_holds<W: Waits>(&self, condition: usize, priority: u64, lists: &W) -> bool {
        !self.busy && (condition == OKTOREAD || self.readers == 0)
    }

    ghost rest_inv = { λ s q h. h.inv };

    ghost ready_inv = { λ c p s q h. inv_of_ready c s h };
}

impl<T: Copy> ReadersWriters<T> {
    /// Creates a shared value with no reader and no writer in.
    pub fn with(value: T) -> ReadersWriters<T>
        ensures made { result ≡ unused value }
        ensures rest { ReadersRest result (nobody 0) (nobody 1) }
    {
        ReadersWriters {
            value,
            readers: 0,
            busy: false,
        }
    }

    /// Returns the value.
    pub fn into_value(self) -> T
        ensures { result ≡ self.value }
    {
        let ReadersWriters { value, .. } = self;
        value
    }

    // Returns the number of readers that are in.
    fn readers(&self) -> u32
        ensures { result ≡ self.now.readers }
    {
        self.readers
    }

    // Returns true if a writer is in.
    fn is_busy(&self) -> bool
        ensures { result ≡ self.now.busy }
    {
        self.busy
    }

    // Returns true if a reader or a writer is in.
    fn is_in_use(&self) -> bool
        ensures { IsTrue result ↔ IsInUse self.now }
    {
        self.readers > 0 || self.busy
    }

    // Lets one more reader in, and returns its pass and the value. Refused if 1,024 readers are in.
    fn admit(&mut self) -> Result<(ReadPass, T), TooManyReaders>
        requires { self.old.busy ≡ false }
        ensures { Admits self.old self.new result }
    {
        if self.readers == MOST_READERS {
            return Err(TooManyReaders);
        }
        self.readers += 1;
        Ok((ReadPass::new(), self.value))
    }

    // Lets one reader out, and returns the number of readers left.
    fn dismiss(&mut self) -> u32
        requires { 0 < self.old.readers }
        ensures after { self.new ≡ with_readers self.old (self.old.readers - 1) }
        ensures left { result ≡ self.new.readers }
    {
        self.readers -= 1;
        self.readers
    }

    // Lets a writer in, and returns the value.
    fn reserve(&mut self) -> T
        requires { self.old.readers ≡ 0 }
        ensures value { result ≡ self.old.value }
        ensures after { self.new ≡ with_writer self.old }
    {
        self.busy = true;
        self.value
    }

    // Lets the writer out, which leaves `value`.
    fn write(&mut self, value: T)
        ensures { self.new ≡ written self.old value }
    {
        self.value = value;
        self.busy = false;
    }

    /// Starts a read, and returns a pass and the value: at once, if no writer is in or waits; else after one wait on
    /// *oktoread*, which ends when no writer is in, though writers may wait. Refused with `TooManyReaders` exactly if
    /// 1,024 readers are in then, at once or after the wait: nothing changed. Admitted or refused, the caller leaves by
    /// a signal on *oktoread*, which resumes the next waiting reader, if there is one.
    pub fn start_read<R: Wait, M: Monitor<ReadersWriters<T>>>(
        m: &M,
        rt: &R,
        out: M::Out,
    ) -> (M::Out, Result<(ReadPass, T), TooManyReaders>)
        requires { M.is_of m.now out }
        ensures of { M.is_of m.now result.0 }
        ensures place { M.place result.0 ≡ M.place out }
        ensures trace { StartsRead (M.place out) (M.front out) (M.front result.0) result.1 }
    {
        let mut inside = m.enter(rt, out);
        if m.state(&inside).is_busy() || m.queue(&inside, OKTOWRITE) {
            inside = m.wait(rt, inside, OKTOREAD, PLAIN);
        }
        let read = M::state_mut(&mut inside, m).admit();
        let (out, _resumed) = m.signal_leave(rt, inside, OKTOREAD);
        (out, read)
    }

    /// Ends the read of `pass`. The last reader leaves by a signal on *oktowrite*, which resumes a waiting writer, if
    /// there is one. Refused with `NoReader` exactly if no reader is in: then nothing changed, and the pass is
    /// returned.
    pub fn end_read<R: Wait, M: Monitor<ReadersWriters<T>>>(
        m: &M,
        rt: &R,
        out: M::Out,
        pass: ReadPass,
    ) -> (M::Out, Result<(), NoReader>)
        requires { M.is_of m.now out }
        ensures of { M.is_of m.now result.0 }
        ensures place { M.place result.0 ≡ M.place out }
        ensures trace { EndsRead (M.place out) pass (M.front out) (M.front result.0) result.1 }
    {
        let mut inside = m.enter(rt, out);
        if m.state(&inside).readers() == 0 {
            return (m.leave(rt, inside), Err(NoReader { pass }));
        }
        pass.spend();
        let left = M::state_mut(&mut inside, m).dismiss();
        if left > 0 {
            return (m.leave(rt, inside), Ok(()));
        }
        let (out, _resumed) = m.signal_leave(rt, inside, OKTOWRITE);
        (out, Ok(()))
    }

    /// Starts a write, once no reader and no writer is in, and returns the value. The caller waits on *oktowrite*,
    /// once, if it finds a reader or a writer in.
    pub fn start_write<R: Wait, M: Monitor<ReadersWriters<T>>>(
        m: &M,
        rt: &R,
        out: M::Out,
    ) -> (M::Out, T)
        requires { M.is_of m.now out }
        ensures of { M.is_of m.now result.0 }
        ensures place { M.place result.0 ≡ M.place out }
        ensures trace { StartsWrite (M.place out) result.1 (M.front out) (M.front result.0) }
    {
        let mut inside = m.enter(rt, out);
        if m.state(&inside).is_in_use() {
            inside = m.wait(rt, inside, OKTOWRITE, PLAIN);
        }
        let value = M::state_mut(&mut inside, m).reserve();
        (m.leave(rt, inside), value)
    }

    /// Ends a write, which leaves `value`. If readers wait, the caller leaves by a signal on *oktoread*, which resumes
    /// the first of them; each of them resumes the next. Else it leaves by a signal on *oktowrite*, which resumes a
    /// waiting writer, if there is one. Refused with `NotOut` exactly if no writer is in: then nothing changed, and the
    /// given value is returned.
    pub fn end_write<R: Wait, M: Monitor<ReadersWriters<T>>>(
        m: &M,
        rt: &R,
        out: M::Out,
        value: T,
    ) -> (M::Out, Result<(), NotOut<T>>)
        requires { M.is_of m.now out }
        ensures of { M.is_of m.now result.0 }
        ensures place { M.place result.0 ≡ M.place out }
        ensures trace { EndsWrite (M.place out) value (M.front out) (M.front result.0) result.1 }
    {
        let mut inside = m.enter(rt, out);
        if !m.state(&inside).is_busy() {
            return (m.leave(rt, inside), Err(NotOut { item: value }));
        }
        M::state_mut(&mut inside, m).write(value);
        let next = if m.queue(&inside, OKTOREAD) {
            OKTOREAD
        } else {
            OKTOWRITE
        };
        let (out, _resumed) = m.signal_leave(rt, inside, next);
        (out, Ok(()))
    }
}
