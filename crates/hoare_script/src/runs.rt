//! Runs a whole script: reads its lines, and writes the answers.
ghost use Rattle.std.specs.Prelude.{◌≡◌, ◌≢◌, ◌≤◌, ◌==◌, ◌+◌, ◌||◌, if◌then◌else◌, [], length, false, IsOkAnd};
ghost use Rattle.std.specs.Prelude.{MatchResult, None, Some, Ok, Err, OnOk, ◌⊎◌};
ghost use Rattle.hoare_law.specs.declared.event.History.{History};
ghost use Rattle.line_text.specs.Streams.{HasRead, Reads, ReadsFrom, has_read_failed, has_write_failed, reader_name};
ghost use Rattle.line_text.specs.Streams.{writer_inside, writer_name};
ghost use Rattle.wait_book.specs.Contents.{IsOf};
ghost use Rattle.hoare_script.specs.Lines.{command_of, header_of};
ghost use Rattle.hoare_script.specs.Runs.{Follows, IsAt, IsGoodHeader, Leaves, Tells, Writes, is_read_fault};
ghost use Rattle.hoare_script.specs.Runs.{is_write_fault};
ghost use Rattle.hoare_script.specs.Scripts.{Start, State, command_line, header_line, one_line};

use crate::answers::answer_line;
use crate::fault::ScriptFault;
use crate::lines::{parse_command, parse_header};
use crate::opened::Opened;
use arrayvec::ArrayVec;
use line_text::line::{Ended, LineFault, read_line};
use line_text::reader::WatchedReader;
use line_text::writer::WatchedWriter;
use std::alloc::Global;
use std::io::{Read, Write};
use wait_book::steps::MakeRefused;

/// The maximum length of a script, in bytes.
pub const MOST_BYTES: usize = 1_048_576;

/// Reads a script, and writes the answer to each line after the header before it reads the next line.
///
/// A fault ends the script. It is the earliest fault of the text, unless a read, a write or an allocation fails first.
/// The answers to the lines before the fault are written, and after `WriteFault` not all answers of the text. No byte
/// past the one at which the result is fixed is read, so at most `MOST_BYTES` + 1 bytes are read. An interrupted read
/// or write counts as failed. Nothing is flushed.
///
/// Refuses with
/// - `NoHeader` if the input is empty;
/// - `BadHeader` if the first line isn't a header, or a book refuses its numbers;
/// - `BadLine` if a later line has none of the forms of a command;
/// - `LineTooLong` if a line has over 256 bytes, its end not counted;
/// - `TooMuch` if the input has over `MOST_BYTES` bytes;
/// - `ReadFault` if a read fails;
/// - `WriteFault` if a write fails, or takes no bytes;
/// - `Memory` if an allocation fails. Then the first line is a good header, and nothing is written.
pub fn run<R: Read, W: Write>(
    alloc: Global,
    reader: &mut R,
    writer: &mut W,
) -> Result<(), ScriptFault>
    ensures written { Reads (R.remaining reader.old) (R.remaining reader.new) (λ text left.
        Writes text left (W.contents writer.old) (W.contents writer.new) result) }
    ensures read { Reads (R.remaining reader.old) (R.remaining reader.new) (λ text left.
        Leaves text left result) }
{
    let mut watched_reader = WatchedReader::new(reader);
    let mut watched_writer = WatchedWriter::new(writer);
    run_watched(alloc, &mut watched_reader, &mut watched_writer)
}

/// Does what `run` does, and refuses in the same cases, with a reader and a writer that are watched. It returns
/// `ReadFault` exactly if a read failed, and `WriteFault` exactly if a write failed or took no bytes. At most
/// `MOST_BYTES` + 1 reads are made, and they give at most as many bytes, whatever the reader is.
pub fn run_watched<R: Read, W: Write>(
    alloc: Global,
    reader: &mut WatchedReader<'_, R>,
    writer: &mut WatchedWriter<'_, W>,
) -> Result<(), ScriptFault>
    ensures answer { ReadsFrom R.remaining reader.old reader.new (λ text left.
        Tells text left (W.contents (writer_inside writer.old))
        (W.contents (writer_inside writer.new)) result) }
    ensures counts { HasRead reader.old reader.new 1048577 1048577 }
    ensures read_fault { has_read_failed reader.new
        ≡ (has_read_failed reader.old || is_read_fault result) }
    ensures write_fault { has_write_failed writer.new
        ≡ (has_write_failed writer.old || is_write_fault result) }
    ensures same_reader { reader_name reader.new ≡ reader_name reader.old }
    ensures same_writer { writer_name writer.new ≡ writer_name writer.old }
{
    let mut opened = None;
    let mut line = ArrayVec::new();
    let mut room = MOST_BYTES;
    let mut number: u64 = 1;
    'lines: loop {
        match read_line(reader, &mut line, room) {
            Err(LineFault::Failed) => return Err(ScriptFault::ReadFault),
            Err(LineFault::TooLong) => return Err(ScriptFault::LineTooLong(number)),
            Err(LineFault::TooMuch) => return Err(ScriptFault::TooMuch),
            Ok(Ended::Last) if line.is_empty() => return end_before(number),
            Ok(Ended::Last) => return one_line(alloc, writer, &mut opened, number, line.as_slice()),
            Ok(Ended::Line) => {
                if let Err(fault) = one_line(alloc, writer, &mut opened, number, line.as_slice()) {
                    return Err(fault);
                }
                room -= line.len() + 1;
                number += 1;
            }
        }
    }
}

// Returns the result of a text that ends before line `number` begins. It refuses a text without a line.
fn end_before(number: u64) -> Result<(), ScriptFault>
    ensures value { result ≡ (if number == 1 then Err ScriptFault.NoHeader else Ok tt) }
    ensures no_read { is_read_fault result ≡ false }
    ensures no_write { is_write_fault result ≡ false }
{
    if number == 1 {
        Err(ScriptFault::NoHeader)
    } else {
        Ok(())
    }
}

// Opens the book by line `number`, or, if it is open, does what that line asks for. Only a header allocates memory.
fn one_line<W: Write>(
    alloc: Global,
    writer: &mut WatchedWriter<'_, W>,
    opened: &mut Option<Opened>,
    number: u64,
    line: &[u8],
) -> Result<(), ScriptFault>
    requires { length line.now ≤ 256 }
    ensures of { (s : State) → IsAt opened.old s → Follows (one_line s number line.now)
        (W.contents (writer_inside writer.old)) (W.contents (writer_inside writer.new)) opened.new
        result }
    ensures opened { OnOk result (opened.new ≢ None) }
    ensures memory { (s : State) → IsAt opened.old s → result ≡ Err ScriptFault.Memory →
        (s ≡ Start) × IsGoodHeader line.now }
    ensures no_read { is_read_fault result ≡ false }
    ensures write_fault { has_write_failed writer.new
        ≡ (has_write_failed writer.old || is_write_fault result) }
    ensures same_writer { writer_name writer.new ≡ writer_name writer.old }
{
    match opened {
        Some(monitor) => command_line(writer, monitor, number, line),
        None => match header_line(alloc, number, line) {
            Ok(monitor) => {
                *opened = Some(monitor);
                Ok(())
            }
            Err(fault) => Err(fault),
        },
    }
}

// Opens a book by a header. Refuses with `Memory` if an allocation fails, and with `BadHeader` if the line isn't a
// header or the book refuses its numbers.
fn header_line(alloc: Global, number: u64, line: &[u8]) -> Result<Opened, ScriptFault>
    ensures { MatchResult result
        (λ b. IsOkAnd (header_line number (header_of line.now))
        (λ p. (p.0 ≡ []) × IsAt (Some b) p.1))
        (λ f. ((f ≡ ScriptFault.Memory) × IsGoodHeader line.now)
        ⊎ ((header_line number (header_of line.now) ≡ Err f)
        × (f ≡ ScriptFault.BadHeader number))) }
{
    let Some(header) = parse_header(line) else {
        return Err(ScriptFault::BadHeader(number));
    };
    match Opened::make(alloc, header) {
        Ok(monitor) => Ok(monitor),
        Err(MakeRefused::Memory) => Err(ScriptFault::Memory),
        Err(_) => Err(ScriptFault::BadHeader(number)),
    }
}

// Does what a line asks for, and writes the answer. Refuses with `BadLine` if the line is no command, and with
// `WriteFault` if a write fails or takes no bytes.
fn command_line<W: Write>(
    writer: &mut WatchedWriter<'_, W>,
    opened: &mut Opened,
    number: u64,
    line: &[u8],
) -> Result<(), ScriptFault>
    requires { length line.now ≤ 256 }
    ensures of { (h : History (Unit {0})) → IsOf opened.old h →
        Follows (command_line h number line.now (command_of line.now))
        (W.contents (writer_inside writer.old)) (W.contents (writer_inside writer.new))
        (Some opened.new) result }
    ensures no_memory { result ≢ Err ScriptFault.Memory }
    ensures no_read { is_read_fault result ≡ false }
    ensures write_fault { has_write_failed writer.new
        ≡ (has_write_failed writer.old || is_write_fault result) }
    ensures same_writer { writer_name writer.new ≡ writer_name writer.old }
{
    let Some(command) = parse_command(line) else {
        return Err(ScriptFault::BadLine(number));
    };
    let answer = opened.answer(command);
    let text = answer_line(line, answer);
    match writer.write_whole(text.as_slice()) {
        Ok(()) => Ok(()),
        Err(_) => Err(ScriptFault::WriteFault),
    }
}
