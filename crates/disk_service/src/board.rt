//! Writing on the board, and reading it.
ghost use Rattle.std.specs.Prelude.{◌≡◌, true};
ghost use Rattle.disk_service.specs.Doors.{AreThreadPlaces};
ghost use Rattle.disk_service.specs.JobsDone.{Notes};

use crate::data::{Board, both};
use crate::doors::Doors;
use crate::thread_places::ThreadPlaces;
use hoare_law::monitor::Monitor;
use std::sync::Wait;
use sweep_schedulers::readers_writers::{NoReader, ReadPass, ReadersWriters};

/// Writes on the board that `more` jobs are done and, if `last`, that no more will be. Returns the thread's places, and
/// true if the board took it.
pub(crate) fn write<R: Wait>(
    rt: &R,
    doors: &Doors,
    own: ThreadPlaces,
    more: u32,
    last: bool,
) -> (ThreadPlaces, bool)
    requires { AreThreadPlaces doors.now own }
    ensures of { AreThreadPlaces doors.now result.0 }
    ensures number { result.0.number ≡ own.number }
    ensures others { result.0 ≡ record own { board = result.0.board } }
    ensures notes { result.1 ≡ true → Notes own.number more last own.board.front result.0.board.front }
{
    let mut own = own;
    let (place, written) = write_on(&doors.board, rt, own.board, more, last);
    own.board = place;
    (own, written)
}

// Writes on the board of this monitor. Returns true if the board took it.
fn write_on<R: Wait, M: Monitor<ReadersWriters<Board>>>(
    m: &M,
    rt: &R,
    out: M::Out,
    more: u32,
    last: bool,
) -> (M::Out, bool)
    requires { M.is_of m.now out }
    ensures of { M.is_of m.now result.0 }
    ensures place { M.place result.0 ≡ M.place out }
    ensures notes { result.1 ≡ true
        → Notes (M.place out) more last (M.front out) (M.front result.0) }
{
    let (out, board) = ReadersWriters::start_write(m, rt, out);
    let next = board.with(more, last);
    let (out, ended) = ReadersWriters::end_write(m, rt, out, next.unwrap_or(board));
    (out, both(next.is_some(), ended.is_ok()))
}

/// Returns the thread's places, and true if the board says that no more jobs will be done. If the board can't be read,
/// returns false.
pub(crate) fn is_closed<R: Wait>(rt: &R, doors: &Doors, own: ThreadPlaces) -> (ThreadPlaces, bool)
    requires { AreThreadPlaces doors.now own }
    ensures of { AreThreadPlaces doors.now result.0 }
    ensures number { result.0.number ≡ own.number }
{
    let mut own = own;
    let (place, closed) = read_closed(&doors.board, rt, own.board);
    own.board = place;
    (own, closed)
}

// Returns true if the board of this monitor says that no more jobs will be done, false also if it can't be read.
fn read_closed<R: Wait, M: Monitor<ReadersWriters<Board>>>(
    m: &M,
    rt: &R,
    out: M::Out,
) -> (M::Out, bool)
    requires { M.is_of m.now out }
    ensures of { M.is_of m.now result.0 }
    ensures place { M.place result.0 ≡ M.place out }
{
    let (out, read) = ReadersWriters::start_read(m, rt, out);
    let Ok((pass, board)) = read else {
        return (out, false);
    };
    (end_read(m, rt, out, pass), board.closed)
}

// Ends a read. If that is refused, which returns the pass, tries again.
fn end_read<R: Wait, M: Monitor<ReadersWriters<Board>>>(
    m: &M,
    rt: &R,
    out: M::Out,
    pass: ReadPass,
) -> M::Out
    requires { M.is_of m.now out }
    ensures of { M.is_of m.now result }
    ensures place { M.place result ≡ M.place out }
{
    let (mut out, mut pass) = (out, pass);
    for _ in rt.forever() {
        let (place, ended) = ReadersWriters::end_read(m, rt, out, pass);
        out = place;
        match ended {
            Ok(()) => return out,
            Err(NoReader { pass: back }) => pass = back,
        }
    }
    unreachable!()
}
