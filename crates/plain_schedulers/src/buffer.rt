//! The bounded buffer, on Hoare's conditions; `mesa` has the same on Mesa conditions.
pub mod mesa;
mod ring;

ghost use Rattle.std.specs.Prelude.{◌≡◌, ◌<◌, ℕ, IfOk};
ghost use Rattle.hoare_law.specs.Priorities.{nobody};
ghost use Rattle.plain_schedulers.specs.Buffers.{BufferRests, Makes};
ghost use Rattle.plain_schedulers.specs.BufferTraces.{Appends, Removes};

use crate::buffer::ring::empty_cells;
use hoare_law::data::MonitorData;
use hoare_law::monitor::{Monitor, PLAIN};
use hoare_law::waits::Waits;
use std::alloc::Global;
use std::marker::Model;
use std::sync::Wait;

/// The largest number of cells of a buffer.
pub const MOST_CELLS: usize = 4096;

/// The condition *nonempty* of a `Buffer`: a process waits on it until there is an item.
pub const NONEMPTY: usize = 0;

/// The condition *nonfull* of a `Buffer`: a process waits on it until there is room.
pub const NONFULL: usize = 1;

/// Why no buffer was created.
#[derive(Clone, Copy, Debug, PartialEq, Eq, thiserror::Error)]
pub enum BufferRefused {
    /// The number of cells isn't 1 to 4096.
    #[error("a buffer has 1 to 4096 cells")]
    BadSize,
    /// The number of cells is in range, but the allocation of the cells failed.
    #[error("out of memory")]
    Memory,
}

/// A bounded buffer, first in, first out (Hoare 1974, Example: Bounded Buffer). Condition 0 is *nonempty* (`NONEMPTY`),
/// condition 1 is *nonfull* (`NONFULL`). The cells are a ring: `last` is the index of the cell for the next item, and
/// the items are in the `count` cells before it, around the end.
///
/// With a monitor `m` of `Buffer::make(alloc, 4)?`, and `out`, a place of it:
///
/// ```rust
/// let out = Buffer::append(&m, &rt, out, 7u64);
/// let out = Buffer::append(&m, &rt, out, 8);
/// let (out, item) = Buffer::remove(&m, &rt, out);
/// assert_eq!(rt; item, 7);
/// ```
#[derive(Drop)]
pub struct Buffer<T> {
    cells: Vec<Option<T>>,
    last: usize,
    count: usize,
}

impl<T> Model for Buffer<T> {
    ghost use Rattle.plain_schedulers.specs.Buffers.{Buffered};
    ghost use Rattle.plain_schedulers.specs.Ring.{IsRing, ring_view};

    ghost Value = { Buffered T };

    ghost view = { λ b. ring_view b.cells.items b.last };

    ghost invariant = { λ b. IsRing b.cells.items b.last b.count };
}

impl<T: Drop> MonitorData for Buffer<T> {
    ghost use Rattle.plain_schedulers.specs.Buffers.{BufferHolds, BufferRests, BufferReady, inv_of_ready};

    const CONDITIONS: usize = 2;

    ghost CONDITIONS = { 2 };

    const MESA: usize = 0;

    ghost MESA = { 0 };

    ghost inv = { λ b. BufferHolds b };

    ghost rest = { λ b q. BufferRests b (q 0) (q 1) };

    ghost ready = { λ c p b q. BufferReady c b (q 0) (q 1) };

    fn rest_holds<W: Waits>(&self, lists: &W) -> bool {
        let (count, size) = (self.len(), self.size());
        (lists.count(NONEMPTY) == 0 || count == 0) && (lists.count(NONFULL) == 0 || count == size)
    }

    fn ready_holds<W: Waits>(&self, condition: usize, priority: u64, lists: &W) -> bool {
        let (count, size) = (self.len(), self.size());
        if condition == NONEMPTY {
            count > 0
                && (lists.count(NONEMPTY) == 0 || count == 1)
                && (lists.count(NONFULL) == 0 || count == size)
        } else {
            count < size
                && (lists.count(NONFULL) == 0 || count == size - 1)
                && (lists.count(NONEMPTY) == 0 || count == 0)
        }
    }

    ghost rest_inv = { λ b q h. h.inv };

    ghost ready_inv = { λ c p b q h. inv_of_ready c b (q 0) (q 1) h };
}

impl<T: Drop> Buffer<T> {
    /// Creates a buffer of `n` cells, 1 to 4096, with no item. Refused with `BadSize` exactly if `n` is out of range;
    /// else with `Memory` if the allocation fails. No procedure of the buffer allocates.
    pub fn make(alloc: Global, n: usize) -> Result<Buffer<T>, BufferRefused>
        ensures made { Makes n result }
        ensures rest { IfOk result (λ b. BufferRests b (nobody 0) (nobody 1)) }
    {
        if n == 0 || n > MOST_CELLS {
            return Err(BufferRefused::BadSize);
        }
        let Ok(cells) = empty_cells(alloc, n) else {
            return Err(BufferRefused::Memory);
        };
        Ok(Buffer {
            cells,
            last: 0,
            count: 0,
        })
    }

    /// Puts `item` in as the newest, once there is room, and leaves by a signal on *nonempty*, which resumes a waiter
    /// if there is one. The caller waits on *nonfull*, once, if it finds the buffer full.
    pub fn append<R: Wait, M: Monitor<Buffer<T>>>(m: &M, rt: &R, out: M::Out, item: T) -> M::Out
        requires { M.is_of m.now out }
        ensures of { M.is_of m.now result }
        ensures place { M.place result ≡ M.place out }
        ensures trace { Appends (M.place out) item (M.front out) (M.front result) }
    {
        let mut inside = m.enter(rt, out);
        if m.state(&inside).is_full() {
            inside = m.wait(rt, inside, NONFULL, PLAIN);
        }
        M::state_mut(&mut inside, m).push(item);
        let (out, _resumed) = m.signal_leave(rt, inside, NONEMPTY);
        out
    }

    /// Takes the oldest item out, once there is one, and returns it. Leaves by a signal on *nonfull*, which resumes a
    /// waiter if there is one. The caller waits on *nonempty*, once, if it finds the buffer empty.
    pub fn remove<R: Wait, M: Monitor<Buffer<T>>>(m: &M, rt: &R, out: M::Out) -> (M::Out, T)
        requires { M.is_of m.now out }
        ensures of { M.is_of m.now result.0 }
        ensures place { M.place result.0 ≡ M.place out }
        ensures trace { Removes (M.place out) result.1 (M.front out) (M.front result.0) }
    {
        let mut inside = m.enter(rt, out);
        if m.state(&inside).is_empty() {
            inside = m.wait(rt, inside, NONEMPTY, PLAIN);
        }
        let item = M::state_mut(&mut inside, m).pop();
        let (out, _resumed) = m.signal_leave(rt, inside, NONFULL);
        (out, item)
    }
}
