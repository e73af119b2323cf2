//! The basic operations of a pool: its tests and counts, and the change of one buffer's owner.
ghost use Rattle.std.specs.Prelude.{◌≡◌, ◌↔◌, ◌<◌, ◌≤◌, IsTrue, IfOk, Some, None, length, slice_index_or, is_none};
ghost use Rattle.std.specs.List.{position};
ghost use Rattle.timed_schedulers.specs.Pools.{PoolHolds, IsSize, all_free, with_owner, free_count, held};

use super::Pool;
use super::marks::{least_unmarked, mark, unmark};
use std::alloc::{AllocError, Global};

impl Pool {
    // Creates a pool with all buffers free. Returns `AllocError` if an allocation fails.
    pub(super) fn all_free(
        alloc: Global,
        buffers: usize,
        streams: usize,
    ) -> Result<Pool, AllocError>
        requires { IsSize buffers streams }
        ensures { IfOk result (λ p. p ≡ all_free buffers streams) }
    {
        let owners = vec![in alloc; None; buffers]?;
        let held = vec![in alloc; 0; streams]?;
        let words = vec![in alloc; 0; buffers.div_ceil(64)]?;
        Ok(Pool {
            owners,
            held,
            free: buffers,
            words,
        })
    }

    // Returns the number of free buffers.
    pub(super) fn free(&self) -> usize
        ensures answer { result ≡ free_count self.now }
        ensures holds { PoolHolds self.now }
    {
        self.free
    }

    // Returns true if the pool has a stream of this number.
    pub(super) fn has_stream(&self, stream: u32) -> bool
        ensures { IsTrue result ↔ (stream < self.now.streams) }
    {
        (stream as usize) < self.held.len()
    }

    // Returns true if the pool has a buffer of this number.
    pub(super) fn has_buffer(&self, buffer: u32) -> bool
        ensures { IsTrue result ↔ (buffer < length self.now.owners) }
    {
        (buffer as usize) < self.owners.len()
    }

    // Returns true if `stream` owns `buffer`.
    pub(super) fn is_held(&self, stream: u32, buffer: u32) -> bool
        requires { buffer < length self.now.owners }
        ensures { IsTrue result ↔ (slice_index_or self.now.owners buffer None ≡ Some stream) }
    {
        self.owners[buffer as usize] == Some(stream)
    }

    // Returns the number of buffers that `stream` owns.
    pub(super) fn held(&self, stream: u32) -> u32
        requires { stream < self.now.streams }
        ensures { result ≡ held stream self.now }
    {
        self.held[stream as usize]
    }

    // Returns the number of the first free buffer.
    fn least_free(&self) -> usize
        requires { 0 < free_count self.now }
        ensures { position is_none self.now.owners ≡ Some result }
    {
        least_unmarked(&self.words)
    }

    // Makes `stream` the owner of the least-numbered free buffer, and returns its number.
    pub(super) fn own_least(&mut self, stream: u32) -> u32
        requires stream { stream < self.old.streams }
        requires some { 0 < free_count self.old }
        ensures least { position is_none self.old.owners ≡ Some result }
        ensures owned { self.new ≡ with_owner self.old result (Some stream) }
    {
        let buffer = self.least_free();
        self.owners[buffer] = Some(stream);
        self.held[stream as usize] += 1;
        self.free -= 1;
        mark(&mut self.words, buffer);
        buffer as u32
    }

    // Frees `buffer`, which `stream` owns.
    pub(super) fn set_free(&mut self, stream: u32, buffer: u32)
        requires within { buffer < length self.old.owners }
        requires held { slice_index_or self.old.owners buffer None ≡ Some stream }
        ensures { self.new ≡ with_owner self.old buffer None }
    {
        self.owners[buffer as usize] = None;
        self.held[stream as usize] -= 1;
        self.free += 1;
        unmark(&mut self.words, buffer as usize);
    }
}
