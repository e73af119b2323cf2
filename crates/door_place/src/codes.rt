//! The codes that C gets for results and refusals.
ghost use Rattle.std.specs.Prelude.{◌≡◌};
ghost use Rattle.door_place.specs.Codes.{code_of};

use wait_book::steps::Next;

/// The code if the call was done.
pub const DONE: u64 = 0;

/// The code if the act was done, and no place is to be woken.
pub const NOBODY: u64 = 64;

/// The code if it isn't the place's turn at this moment, or if a door can't be closed yet.
pub const NOT_NOW: u64 = 102;

/// The code if the place isn't outside.
pub const NOT_OUTSIDE: u64 = 103;

/// The code if the place isn't inside.
pub const NOT_INSIDE: u64 = 104;

/// The code if no condition has this number.
pub const NO_CONDITION: u64 = 105;

/// The code if the condition is of the other kind: a Mesa condition for a signal, one of Hoare's for a notify.
pub const WRONG_KIND: u64 = 106;

/// The code if C's handle holds nothing, or the place isn't here.
pub const NOTHING_HELD: u64 = 107;

/// The code if C's handle holds something already.
pub const IS_HELD: u64 = 108;

/// The code if the number of places isn't allowed.
pub const BAD_PLACES: u64 = 109;

/// The code if the numbers of conditions and of Mesa conditions aren't allowed.
pub const BAD_CONDITIONS: u64 = 110;

/// The code if an allocation failed.
pub const NO_MEMORY: u64 = 111;

/// The code if the door can't be closed: a place of it isn't in hand, or a call that gives a place back hasn't
/// returned.
pub const IN_USE: u64 = 112;

/// The code if the place is not away: it neither waits nor has it signalled.
pub const NOT_AWAY: u64 = 113;

/// The code if all places of the door are taken.
pub const NONE_LEFT: u64 = 114;

/// Returns the number of the place to wake, or `NOBODY`.
#[inline(always)]
pub fn code_of(next: Next) -> u64
    ensures { result ≡ code_of next }
{
    match next {
        Next::Free => NOBODY,
        Next::For(place) | Next::Held(place) => place as u64,
    }
}
