//! Reading one line, with limits on its length and on that of the text.
ghost use Rattle.std.specs.Prelude.{◌≡◌, ◌+◌, ◌≤◌, ◌||◌, length};
ghost use Rattle.line_text.specs.Line.{IsLineFor, NoNewline, ReadsLine, is_failed_read};
ghost use Rattle.line_text.specs.Streams.{HasRead, ReadsFrom, has_read_failed, reader_name};

use crate::reader::WatchedReader;
use arrayvec::ArrayVec;
use std::io::Read;

/// The most bytes that a line may have, without its end.
pub const LONGEST_LINE: usize = 256;

/// A line without its end, of at most `LONGEST_LINE` bytes.
pub type Line = ArrayVec<u8, LONGEST_LINE>;

/// How a line ended.
#[derive(Clone, Copy, Debug, PartialEq, Eq)]
pub enum Ended {
    /// By a newline (byte 10), which was read and isn't kept.
    Line,
    /// By the end of the input.
    Last,
}

/// Why no line was read.
#[derive(Clone, Copy, Debug, PartialEq, Eq, thiserror::Error)]
pub enum LineFault {
    /// A read failed.
    #[error("a read failed")]
    Failed,
    /// The line has over `LONGEST_LINE` bytes.
    #[error("a line has over 256 bytes")]
    TooLong,
    /// The line with its end takes more bytes than the room.
    #[error("the text is longer than its limit")]
    TooMuch,
}

/// Reads a line of at most `LONGEST_LINE` bytes into `line`, which it clears first. The line with its end may take at
/// most `room` bytes of the text.
///
/// It reads byte by byte, and no byte after the end of the line, or after the byte that is too many. It returns
/// `Failed` if a read fails. It returns `TooMuch` if it reads a byte past the room, whatever that byte is. It returns
/// `TooLong` if it reads, within the room, a byte past `LONGEST_LINE` that doesn't end the line. After a fault `line`
/// has the bytes before it.
pub fn read_line<R: Read>(
    reader: &mut WatchedReader<'_, R>,
    line: &mut Line,
    room: usize,
) -> Result<Ended, LineFault>
    ensures known { ReadsFrom R.remaining reader.old reader.new (ReadsLine line.new.items result) }
    ensures fits { IsLineFor room line.new.items result }
    ensures short { length line.new.items ≤ 256 }
    ensures within { length line.new.items ≤ room }
    ensures one { NoNewline line.new.items }
    ensures counts { let n = length line.new.items + 1 in HasRead reader.old reader.new n n }
    ensures same_reference { reader_name reader.new ≡ reader_name reader.old }
    ensures mark { has_read_failed reader.new
        ≡ (has_read_failed reader.old || is_failed_read result) }
{
    line.clear();
    loop {
        let byte = match reader.read_byte() {
            Err(_) => return Err(LineFault::Failed),
            Ok(None) => return Ok(Ended::Last),
            Ok(Some(byte)) => byte,
        };
        if line.len() >= room {
            return Err(LineFault::TooMuch);
        }
        if byte == b'\n' {
            return Ok(Ended::Line);
        }
        if line.is_full() {
            return Err(LineFault::TooLong);
        }
        line.push(byte);
    }
}
