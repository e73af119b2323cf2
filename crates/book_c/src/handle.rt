//! The pointer of a book that C holds.
ghost use Rattle.std.specs.Prelude.{◌≡◌, ℕ};
ghost use Rattle.std_alloc.specs.Box.Ownership.{box_owns};
ghost use Rattle.c_handle.specs.Owned.{owned};
ghost use Rattle.wait_book.specs.Contents.{Contents};
ghost use Rattle.book_c.specs.contracts.legal_book.LegalBook as books;

use std::alloc::{Allocator, Global};
use std::marker::Model;

/// A pointer that owns a book if the ghost field `live` is 1; `value` is then that book. It is
/// `c_handle::handle::Handle<LegalBook>` without a type argument, since no type with arguments crosses to C.
#[repr(C)]
pub struct Handle {
    at: *mut u8,
    alloc: Global,
    pub ghost live: { ℕ },
    pub ghost value: { Contents } by { books.the_row.coded },
}

impl Model for Handle {
    ghost also_owns = { λ h. owned h.live
        (box_owns (⟦<Global as Allocator>⟧.dealloc_token h.alloc) books.the_row h.at h.value) };
}
