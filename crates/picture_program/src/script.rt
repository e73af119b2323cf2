//! Reads a script: its header, and its commands up to the end or the first fault.
ghost use Rattle.std.specs.Prelude.{◌≡◌, ◌≤◌, ◌||◌, [], false, None, IfOk};
ghost use Rattle.std.specs.Result.{MatchResult};
ghost use Rattle.hoare_script.specs.Lines.{command_of};
ghost use Rattle.hoare_script.specs.Runs.{is_read_fault};
ghost use Rattle.line_text.specs.Streams.{has_read_failed};
ghost use Rattle.picture_program.specs.Faults.{is_header_fault, line_fault};
ghost use Rattle.picture_program.specs.Scripts.{IsInFront, IsMore};

use crate::monitor::Monitor;
use arrayvec::ArrayVec;
use hoare_script::ScriptFault;
use hoare_script::lines::{Command, Header, parse_command, parse_header};
use hoare_script::runs::MOST_BYTES;
use line_text::line::{Ended, Line, LineFault, read_line};
use line_text::reader::WatchedReader;
use std::alloc::Global;
use std::io::Read;

// The most lines of a script: each but the last has at least one byte, its end.
const MOST_LINES: u64 = MOST_BYTES as u64 + 1;

/// A script whose header was read: the commands read so far, the number of bytes that may follow, and how the last line
/// ended.
#[derive(Drop)]
pub struct Script {
    /// The header of the first line.
    pub header: Header,
    /// The commands that were read so far, in order.
    pub commands: Vec<Command>,
    room: usize,
    ended: Ended,
}

/// Reads the header. Refusals: `NoHeader`, `BadHeader`, `LineTooLong`, `ReadFault`, and `Memory` if the monitor can't
/// be made.
pub fn open_script<R: Read>(
    alloc: Global,
    reader: &mut WatchedReader<'_, R>,
) -> Result<Script, ScriptFault>
    ensures read { IfOk result (λ s. (s.header.places ≤ 64) × (s.commands.items ≡ [])) }
    ensures failed { has_read_failed reader.new ≡ (has_read_failed reader.old || is_read_fault result) }
{
    let mut line = ArrayVec::new();
    let ended = read_numbered(reader, &mut line, MOST_BYTES, 1)?;
    if ended == Ended::Last && line.is_empty() {
        return Err(ScriptFault::NoHeader);
    }
    let Some(header) = parse_header(line.as_slice()) else {
        return Err(ScriptFault::BadHeader(1));
    };
    let _monitor = Monitor::open(alloc, header)?;
    Ok(Script {
        header,
        commands: Vec::new(alloc),
        room: MOST_BYTES.saturating_sub(line.len()).saturating_sub(1),
        ended,
    })
}

// Reads the line with this number, of at most `room` bytes with its end.
fn read_numbered<R: Read>(
    reader: &mut WatchedReader<'_, R>,
    line: &mut Line,
    room: usize,
    number: u64,
) -> Result<Ended, ScriptFault>
    ensures failed { has_read_failed reader.new ≡ (has_read_failed reader.old || is_read_fault result) }
    ensures fault { is_header_fault result ≡ false }
{
    match read_line(reader, line, room) {
        Ok(ended) => Ok(ended),
        Err(LineFault::Failed) => Err(ScriptFault::ReadFault),
        Err(LineFault::TooLong) => Err(ScriptFault::LineTooLong(number)),
        Err(LineFault::TooMuch) => Err(ScriptFault::TooMuch),
    }
}

impl Script {
    /// Reads the commands, up to the end or the first fault: `BadLine`, `LineTooLong`, `TooMuch`, `ReadFault`, or
    /// `Memory` if no command can be added. The commands that were read stay.
    #[tactic(auto, using(crate::proofs::Reading::front_self, crate::proofs::Reading::front_same))]
    pub fn read_commands<R: Read>(
        &mut self,
        reader: &mut WatchedReader<'_, R>,
    ) -> Result<(), ScriptFault>
        ensures kept { IsInFront self.old.commands.items self.new.commands.items }
        ensures header { self.new.header ≡ self.old.header }
        ensures fault { is_header_fault result ≡ false }
        ensures failed { has_read_failed reader.new
            ≡ (has_read_failed reader.old || is_read_fault result) }
    {
        let mut line = ArrayVec::new();
        'lines: for number in 2..=MOST_LINES {
            if self.ended == Ended::Last {
                break;
            }
            self.ended = read_numbered(reader, &mut line, self.room, number)?;
            if self.ended == Ended::Last && line.is_empty() {
                break;
            }
            self.room = self.room.saturating_sub(line.len()).saturating_sub(1);
            self.add(line.as_slice(), number)?;
        }
        Ok(())
    }

    // Adds the command that a line spells.
    fn add(&mut self, line: &[u8], number: u64) -> Result<(), ScriptFault>
        ensures command { let command = command_of line.now in MatchResult result
            (λ _. IsMore command self.old.commands.items self.new.commands.items)
            (λ f. (f ≡ line_fault number command)
            × (self.new.commands.items ≡ self.old.commands.items)) }
        ensures header { self.new.header ≡ self.old.header }
        ensures fault { is_read_fault result ≡ false }
    {
        let Some(command) = parse_command(line) else {
            return Err(ScriptFault::BadLine(number));
        };
        match self.commands.push(command) {
            Ok(()) => Ok(()),
            Err(_) => Err(ScriptFault::Memory),
        }
    }
}
