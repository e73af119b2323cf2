//! The cells of a buffer, in a ring.
ghost use Rattle.std.specs.Prelude.{◌≡◌, ◌↔◌, ◌<◌, ◌+◌, ◌%◌, ◌∷◌, IsTrue, IfOk, length, replicate, Some, None};
ghost use Rattle.plain_schedulers.specs.Buffers.{BufferHolds, added};

use super::Buffer;
use std::alloc::{AllocError, Global};

// Creates `n` cells without an item. Returns `AllocError` if an allocation fails.
pub(super) fn empty_cells<T: Drop>(alloc: Global, n: usize) -> Result<Vec<Option<T>>, AllocError>
    ensures { IfOk result (λ cells. cells.items ≡ replicate n None) }
{
    let mut cells = Vec::with_capacity(alloc, n)?;
    for _ in 0..n {
        cells.push(None)?;
    }
    Ok(cells)
}

// Returns the index of the cell at `cell`, counted around the end of the `size` cells at most once: `cell` modulo
// `size`.
#[inline]
fn around(cell: usize, size: usize) -> usize
    requires once { cell < size + size }
    ensures { result ≡ cell % size }
{
    if cell < size { cell } else { cell - size }
}

impl<T: Drop> Buffer<T> {
    // Returns the number of items.
    pub(super) fn len(&self) -> usize
        ensures answer { result ≡ length self.now.items }
        ensures holds { BufferHolds self.now }
    {
        self.count
    }

    // Returns the number of cells.
    pub(super) fn size(&self) -> usize
        ensures { result ≡ self.now.size }
    {
        self.cells.len()
    }

    // Returns true if the buffer has no item.
    pub(super) fn is_empty(&self) -> bool
        ensures { IsTrue result ↔ (length self.now.items ≡ 0) }
    {
        self.len() == 0
    }

    // Returns true if no cell is free.
    pub(super) fn is_full(&self) -> bool
        ensures { IsTrue result ↔ (length self.now.items ≡ self.now.size) }
    {
        self.len() == self.size()
    }

    // Puts `item` in as the newest.
    pub(super) fn push(&mut self, item: T)
        requires { length self.old.items < self.old.size }
        ensures { self.new ≡ added self.old item }
    {
        self.cells[self.last] = Some(item);
        self.last = around(self.last + 1, self.cells.len());
        self.count += 1;
    }

    // Takes the oldest item out and returns it.
    pub(super) fn pop(&mut self) -> T
        requires { 0 < length self.old.items }
        ensures items { self.old.items ≡ result ∷ self.new.items }
        ensures size { self.new.size ≡ self.old.size }
    {
        let size = self.cells.len();
        let oldest = around(self.last + size - self.count, size);
        let taken = self.cells[oldest].take();
        self.count -= 1;
        match taken {
            Some(item) => item,
            None => unreachable!(),
        }
    }
}
