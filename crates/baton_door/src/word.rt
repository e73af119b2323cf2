//! The state word of a baton door: the monitor is free, held by a place, or owed to a place.
ghost use Rattle.std.specs.Prelude.{◌≡◌, ◌<◌, ◌+◌};
ghost use Rattle.wait_book.specs.Contents.{IsPlaceBelow};
ghost use Rattle.baton_door.specs.Words.{word_of_next};

use wait_book::steps::Next;

/// The index of the state word among the words of the table.
pub(crate) const DOOR: usize = 0;

/// The state word if no place is inside and the monitor is owed to none.
pub(crate) const FREE: u64 = 0;

/// The state word if a place is inside.
pub(crate) const HELD: u64 = 1;

/// Returns the state word if the monitor is owed to `place`, which is below 64: `place + 2`.
#[inline]
pub(crate) fn owed(place: usize) -> u64
    requires { place < 64 }
    ensures { result ≡ place + 2 }
{
    place as u64 + 2
}

/// Returns the state word for `next`: `FREE` if no place is next, `owed(k)` if place k resumes, `HELD` if a place stays
/// inside.
#[inline]
pub(crate) fn word_of_next(next: Next) -> u64
    requires { IsPlaceBelow 64 next }
    ensures { result ≡ word_of_next next }
{
    match next {
        Next::Free => FREE,
        Next::For(place) => owed(place),
        Next::Held(_) => HELD,
    }
}
