//! The door's words: their indices in the table, each on a cache line of its own, and their values.
ghost use Rattle.std.specs.Prelude.{◌≡◌, ◌<◌, ◌≤◌, ◌*◌, ◌%◌, ◌^◌};
ghost use Rattle.ticket_door.specs.Rule.{bell_at};

// The number of words in a cache line.
const LINE: usize = 8;

// The index of the first bell.
const BELLS: usize = 2 * LINE;

/// The index of SERVING: twice the ticket that is served, modulo 2^64, plus `SHUT` while the gate is shut.
pub(crate) const SERVING: usize = 0;

/// The index of NEXT: the next ticket to be taken.
pub(crate) const NEXT: usize = LINE;

/// The value of a bell that is rung.
pub(crate) const RUNG: u64 = 1;

/// The value of a bell that wasn't rung, or that its place took since.
pub(crate) const SILENT: u64 = 0;

/// What is added to SERVING to serve the next ticket.
pub(crate) const TURN: u64 = 2;

/// What is added to SERVING while the gate is shut.
pub(crate) const SHUT: u64 = 1;

/// Returns the value of SERVING while `ticket` is served and the gate is open.
#[inline]
pub(crate) fn served_as(ticket: u64) -> u64
    ensures { result ≡ (2 * ticket) % 2 ^ 64 }
{
    ticket.wrapping_mul(TURN)
}

/// Returns the index of the bell of `place`.
#[inline]
pub(crate) fn bell_of(place: usize) -> usize
    requires { place < 64 }
    ensures { result ≡ bell_at place }
{
    BELLS + LINE * place
}

/// Returns the number of words of a door with `places` places: the index that one more bell would have.
pub(crate) fn words_for(places: usize) -> usize
    requires { places ≤ 64 }
    ensures { result ≡ bell_at places }
{
    BELLS + LINE * places
}
