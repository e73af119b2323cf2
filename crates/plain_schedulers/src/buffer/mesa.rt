//! The bounded buffer with Mesa conditions.
ghost use Rattle.std.specs.Prelude.{◌≡◌, ◌≢◌, ◌↔◌, ◌<◌, ◌∷◌, ℕ, IsTrue, IfOk, length};
ghost use Rattle.hoare_law.specs.declared.event.History.{History};
ghost use Rattle.plain_schedulers.specs.Buffers.{BufferHolds, Buffered, HoldsUp, Makes, added};
ghost use Rattle.plain_schedulers.specs.MesaTraces.{MesaAppends, MesaRemoves, Rounds};

use super::{Buffer, BufferRefused, NONEMPTY, NONFULL};
use hoare_law::data::MonitorData;
use hoare_law::monitor::{Monitor, PLAIN};
use hoare_law::waits::Waits;
use std::alloc::Global;
use std::marker::Model;
use std::sync::Wait;

/// A bounded buffer whose two conditions, numbered as those of `Buffer`, are Mesa conditions. A process that waited
/// tests again when it resumes. Before it leaves, a process that put an item in notifies one waiter on *nonempty*, and
/// a process that took an item out notifies one waiter on *nonfull*, if there is one.
#[derive(Drop)]
pub struct MesaBuffer<T> {
    buffer: Buffer<T>,
}

impl<T> Model for MesaBuffer<T> {
    ghost use Rattle.plain_schedulers.specs.Buffers.{Buffered};

    ghost Value = { Buffered T };

    ghost view = { λ b. b.buffer };
}

impl<T: Drop> MonitorData for MesaBuffer<T> {
    ghost use Rattle.plain_schedulers.specs.Buffers.{BufferHolds};

    const CONDITIONS: usize = 2;

    ghost CONDITIONS = { 2 };

    const MESA: usize = 2;

    ghost MESA = { 2 };

    ghost inv = { λ b. BufferHolds b };

    ghost rest = { λ b q. BufferHolds b };

    ghost ready = { λ c p b q. BufferHolds b };

    fn rest_holds<W: Waits>(&self, _lists: &W) -> bool {
        let _len = self.buffer.len(); // its contract states what always holds of a buffer
        true
    }

    fn ready_holds<W: Waits>(&self, _condition: usize, _priority: u64, _lists: &W) -> bool {
        let _len = self.buffer.len();
        true
    }

    ghost rest_inv = { λ b q h. h };

    ghost ready_inv = { λ c p b q h. h };
}

impl<T: Drop> MesaBuffer<T> {
    /// Creates a buffer of `n` cells, 1 to 4096, with no item. Refused with `BadSize` exactly if `n` is out of range;
    /// else with `Memory` if the allocation fails. No procedure of the buffer allocates.
    pub fn make(alloc: Global, n: usize) -> Result<MesaBuffer<T>, BufferRefused>
        ensures made { Makes n result }
        ensures rest { IfOk result BufferHolds }
    {
        match Buffer::make(alloc, n) {
            Ok(buffer) => Ok(MesaBuffer { buffer }),
            Err(refused) => Err(refused),
        }
    }

    // Returns true if the buffer has no item.
    fn is_empty(&self) -> bool
        ensures { IsTrue result ↔ (length self.now.items ≡ 0) }
    {
        self.buffer.is_empty()
    }

    // Returns true if no cell is free.
    fn is_full(&self) -> bool
        ensures { IsTrue result ↔ (length self.now.items ≡ self.now.size) }
    {
        self.buffer.is_full()
    }

    // Puts `item` in as the newest.
    fn push(&mut self, item: T)
        requires room { length self.old.items < self.old.size }
        ensures items { self.new ≡ added self.old item }
        ensures holds { BufferHolds self.new }
    {
        self.buffer.push(item);
        let _len = self.buffer.len();
    }

    // Takes the oldest item out and returns it.
    fn pop(&mut self) -> T
        requires some { 0 < length self.old.items }
        ensures items { self.old.items ≡ result ∷ self.new.items }
        ensures size { self.new.size ≡ self.old.size }
        ensures holds { BufferHolds self.new }
    {
        let item = self.buffer.pop();
        let _len = self.buffer.len();
        item
    }

    // Returns true if a process for which `condition` is meant has to wait: on *nonempty* if there is no item, on
    // *nonfull* if there is no room.
    fn holds_up(&self, condition: usize) -> bool
        ensures { IsTrue result ↔ HoldsUp condition self.now }
    {
        if condition == NONEMPTY {
            return self.is_empty();
        }
        self.is_full()
    }

    // Waits on `condition`, and again each time the process resumes and finds that it has to wait.
    #[inline(never)] // apart, so that the path without a wait stays short
    fn wait_on<R: Wait, M: Monitor<MesaBuffer<T>>>(
        m: &M,
        rt: &R,
        mut inside: M::In,
        condition: usize,
    ) -> M::In
        requires of { M.is_of_in m.now inside }
        requires in_range { condition < 2 }
        requires holds { BufferHolds (M.data_in inside) }
        requires held_up { HoldsUp condition (M.data_in inside) }
        ensures of { M.is_of_in m.now result }
        ensures place { M.place_in result ≡ M.place_in inside }
        ensures holds { BufferHolds (M.data_in result) }
        ensures free { HoldsUp condition (M.data_in result) → ⊥ }
        ensures enters { (f : History (Buffered T)) → Rounds (M.place_in inside) condition f
            (M.front_in inside) (M.data_in inside)
            → Rounds (M.place_in inside) condition f (M.front_in result) (M.data_in result) }
    {
        'rounds: for _ in rt.forever() {
            inside = m.wait(rt, inside, condition, PLAIN);
            if !m.state(&inside).holds_up(condition) {
                return inside;
            }
        }
        unreachable!()
    }

    /// Puts `item` in as the newest, once there is room, notifies one waiter on *nonempty*, if there is one, and
    /// leaves. The caller waits on *nonfull* each time it finds the buffer full.
    pub fn append<R: Wait, M: Monitor<MesaBuffer<T>>>(m: &M, rt: &R, out: M::Out, item: T) -> M::Out
        requires { M.is_of m.now out }
        ensures of { M.is_of m.now result }
        ensures place { M.place result ≡ M.place out }
        ensures trace { MesaAppends (M.place out) item (M.front out) (M.front result) }
    {
        let mut inside = m.enter(rt, out);
        if m.state(&inside).is_full() {
            inside = MesaBuffer::wait_on(m, rt, inside, NONFULL);
        }
        M::state_mut(&mut inside, m).push(item);
        m.notify(&mut inside, NONEMPTY);
        m.leave(rt, inside)
    }

    /// Takes the oldest item out, once there is one, notifies one waiter on *nonfull*, if there is one, leaves, and
    /// returns the item. The caller waits on *nonempty* each time it finds the buffer empty.
    pub fn remove<R: Wait, M: Monitor<MesaBuffer<T>>>(m: &M, rt: &R, out: M::Out) -> (M::Out, T)
        requires { M.is_of m.now out }
        ensures of { M.is_of m.now result.0 }
        ensures place { M.place result.0 ≡ M.place out }
        ensures trace { MesaRemoves (M.place out) result.1 (M.front out) (M.front result.0) }
    {
        let mut inside = m.enter(rt, out);
        if m.state(&inside).is_empty() {
            inside = MesaBuffer::wait_on(m, rt, inside, NONEMPTY);
        }
        let item = M::state_mut(&mut inside, m).pop();
        m.notify(&mut inside, NONFULL);
        (m.leave(rt, inside), item)
    }
}
