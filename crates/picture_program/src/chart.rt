//! The chart: a row for each step, a lane for each place that isn't idle. Lanes that a terminal has no room for are in
//! further blocks below, each with all steps.
ghost use Rattle.std.specs.Prelude.{◌≡◌, ◌==◌, ◌||◌, false, slice_index_or};
ghost use Rattle.hoare_script.specs.Runs.{is_read_fault};
ghost use Rattle.line_text.specs.Streams.{has_read_failed};
ghost use Rattle.picture_program.specs.Lanes.{IsAt, opening};
ghost use Rattle.picture_program.specs.Rows.{IsRow, is_head};
ghost use Rattle.picture_program.specs.declared.monitor.Lane.TheVariants as states;

use crate::monitor::{Lane, Lanes, Monitor, lane_at, place_that};
use crate::script::{Script, open_script};
use crate::widths::{Column, Widths, widths_of};
use crate::words::{
    Text, command_text, header_text, idle_text, lane_text, place_text, remark_text,
};
use arrayvec::ArrayVec;
use hoare_script::ScriptFault;
use hoare_script::answers::Answer;
use line_text::reader::WatchedReader;
use std::alloc::Global;
use std::io;
use std::io::{Read, Write};

/// The most columns of a line, unless one lane beside the steps takes more.
const TERMINAL: usize = 80;

/// The room between two lanes, in columns.
const GAP: usize = 4;

/// The room for an arrow to the next block, in columns.
const ARROW: usize = 3;

/// Lanes side by side: the columns from `first` up to `end`, which isn't included, and the length of a line with them.
#[derive(Clone, Copy, Debug, Default, PartialEq, Eq)]
struct Block {
    first: usize,
    end: usize,
    length: usize,
}

/// The step with this number in the script, counted from 0: its answer, and what each place does before and after it.
#[derive(Clone, Copy, Debug, PartialEq, Eq)]
pub struct Row {
    number: usize,
    answer: Answer,
    before: Lanes,
    after: Lanes,
}

/// An arrow in a gap: its first letter, the letter of its line, and its last letter.
#[derive(Clone, Copy, Debug, PartialEq, Eq)]
struct Shaft {
    left: u8,
    line: u8,
    right: u8,
}

/// Reads a script to its end or its first fault, and draws the rows before it. Nothing is written if the fault is in the
/// header. The refusals are those of `hoare_script::run`, with two differences. `Memory` is also returned if a command
/// can't be kept. `WriteFault` is returned only if the script has no fault, since all is read before anything is
/// written. `ReadFault` is returned exactly if a read failed.
pub fn draw_script<R: Read, W: Write>(
    alloc: Global,
    reader: &mut WatchedReader<'_, R>,
    writer: &mut W,
) -> Result<(), ScriptFault>
    ensures { has_read_failed reader.new ≡ (has_read_failed reader.old || is_read_fault result) }
{
    let mut script = open_script(alloc, reader)?;
    let read = script.read_commands(reader);
    let drawn = draw(alloc, writer, &script);
    read?;
    drawn
}

// Writes the chart of a script. Each further block follows after an empty line.
fn draw<W: Write>(alloc: Global, writer: &mut W, script: &Script) -> Result<(), ScriptFault>
    ensures { is_read_fault result ≡ false }
{
    let widths = widths_of(script, &mut Monitor::open(alloc, script.header)?);
    'blocks: for block in blocks_of(&widths).as_slice() {
        let mut monitor = Monitor::open(alloc, script.header)?;
        if write_block(writer, script, &mut monitor, &widths, *block).is_err() {
            return Err(ScriptFault::WriteFault);
        }
    }
    match writer.flush() {
        Ok(()) => Ok(()),
        Err(_) => Err(ScriptFault::WriteFault),
    }
}

// Returns the blocks: each has as many lanes side by side as a line has room for, and at least one.
fn blocks_of(widths: &Widths) -> ArrayVec<Block, 65> {
    let mut blocks = ArrayVec::new();
    let mut block = Block {
        first: 0,
        end: 0,
        length: widths.steps,
    };
    for (i, column) in widths.columns.as_slice().iter().enumerate() {
        let taken = column.width.saturating_add(GAP);
        if block.first < i && block.length.saturating_add(taken).saturating_add(ARROW) > TERMINAL {
            let _ = blocks.try_push(block);
            block.first = i;
            block.length = widths.steps;
        }
        block.end = i.saturating_add(1);
        block.length = block.length.saturating_add(taken);
    }
    let _ = blocks.try_push(block);
    blocks
}

// Writes the head and all rows, with the lanes of a block. The monitor does all commands of the script.
fn write_block<W: Write>(
    writer: &mut W,
    script: &Script,
    monitor: &mut Monitor,
    widths: &Widths,
    block: Block,
) -> io::Result<()>
    requires { IsAt monitor.old (opening script.now.header) }
{
    write_head(writer, script, widths, block)?;
    let mut before = monitor.lanes();
    'rows: for number in 0..script.commands.len() {
        let answer = monitor.act(script.commands[number]);
        let after = monitor.lanes();
        let row = Row {
            number,
            answer,
            before,
            after,
        };
        write_row(writer, script, widths, block, &row)?;
        before = after;
    }
    Ok(())
}

// Writes the header, and the places' numbers above their lanes.
fn write_head<W: Write>(
    writer: &mut W,
    script: &Script,
    widths: &Widths,
    block: Block,
) -> io::Result<()> {
    if block.first > 0 {
        writer.write_all(b"\n")?;
    }
    let mut room = write_cell(writer, header_text(script.header), widths.steps)?;
    for i in block.first..block.end {
        let column = column_at(widths, i);
        write_gap(writer, room, None)?;
        room = write_cell(writer, place_text(column.place), column.width)?;
    }
    write_end(writer, widths, block, room, None, idle_text(widths.idle))
}

// Writes a step, what each place does after it, and the remark, which the lanes don't show, in the last block.
fn write_row<W: Write>(
    writer: &mut W,
    script: &Script,
    widths: &Widths,
    block: Block,
    row: &Row,
) -> io::Result<()>
    requires { IsRow script.now row.now }
{
    let mut room = write_cell(
        writer,
        command_text(script.commands[row.number]),
        widths.steps,
    )?;
    for i in block.first..block.end {
        let column = column_at(widths, i);
        write_gap(writer, room, shaft_before(widths, i, row))?;
        let lane = lane_at(&row.after, column.place as u64);
        room = write_cell(writer, lane_text(lane), column.width)?;
    }
    let shaft = shaft_before(widths, block.end, row);
    write_end(writer, widths, block, room, shaft, remark_text(row.answer))
}

// Returns a column, or an empty one past the last.
fn column_at(widths: &Widths, i: usize) -> Column {
    let columns = widths.columns.as_slice();
    columns.get(i).copied().unwrap_or_default()
}

// Returns how the arrows of a row cross the gap before a column, if one does. They lead from the place that is inside
// before the row: `-` for a hand-off, `~` for notifications, after which that place is still inside.
fn shaft_before(widths: &Widths, i: usize, row: &Row) -> Option<Shaft> {
    let columns = widths.columns.as_slice();
    let (left, right) = (columns.get(i.checked_sub(1)?)?.place, columns.get(i)?.place);
    let from = place_that(&row.before, Lane::Inside)?;
    let stays = lane_at(&row.after, from as u64) == Lane::Inside;
    let line = if stays { b'~' } else { b'-' };
    if from <= left && (right..64).any(|place| is_head(row, from, place)) {
        let right = if is_head(row, from, right) {
            b'>'
        } else {
            line
        };
        return Some(Shaft {
            left: line,
            line,
            right,
        });
    }
    if right <= from && (0..right).any(|place| is_head(row, from, place)) {
        let left = if is_head(row, from, left) { b'<' } else { line };
        return Some(Shaft {
            left,
            line,
            right: line,
        });
    }
    None
}

// Returns true if an arrow of a row leads from one place to another: that is inside after the row and isn't the first,
// or it waits before the row and is notified after it.
fn is_head(row: &Row, from: usize, place: usize) -> bool
    ensures { result ≡ is_head (slice_index_or row.now.before place states.Outside)
        (slice_index_or row.now.after place states.Outside) (place == from) }
{
    let before = lane_at(&row.before, place as u64);
    match (before, lane_at(&row.after, place as u64)) {
        (_, Lane::Inside) => place != from,
        (Lane::Waiting(_, _), Lane::Called(_)) => true,
        _ => false,
    }
}

// Writes a text. Returns the room that it leaves in a width.
fn write_cell<W: Write>(writer: &mut W, text: Text, width: usize) -> io::Result<usize> {
    writer.write_all(text.as_slice())?;
    Ok(width.saturating_sub(text.len()))
}

// Writes the gap between two lanes, with the room that was left before it, and the arrow that crosses it.
fn write_gap<W: Write>(writer: &mut W, room: usize, shaft: Option<Shaft>) -> io::Result<()> {
    let Some(shaft) = shaft else {
        return write_times(writer, b' ', room.saturating_add(GAP));
    };
    write_shaft(writer, room, shaft)?;
    writer.write_all(b" ")
}

// Writes an arrow, after a space.
fn write_shaft<W: Write>(writer: &mut W, room: usize, shaft: Shaft) -> io::Result<()> {
    writer.write_all(&[b' ', shaft.left])?;
    write_times(writer, shaft.line, room)?;
    writer.write_all(&[shaft.right])
}

fn write_times<W: Write>(writer: &mut W, letter: u8, times: usize) -> io::Result<()> {
    for _ in 0..times {
        writer.write_all(&[letter])?;
    }
    Ok(())
}

// Writes the end of a line: the arrow to the next block, or a remark.
fn write_end<W: Write>(
    writer: &mut W,
    widths: &Widths,
    block: Block,
    room: usize,
    shaft: Option<Shaft>,
    remark: Text,
) -> io::Result<()> {
    if let Some(shaft) = shaft {
        write_shaft(writer, room, shaft)?;
    } else if block.end == widths.columns.len() && !remark.is_empty() {
        write_remark(writer, block, room, remark)?;
    }
    writer.write_all(b"\n")
}

// Writes a remark at the right of the lanes, or on a line of its own.
fn write_remark<W: Write>(
    writer: &mut W,
    block: Block,
    room: usize,
    remark: Text,
) -> io::Result<()> {
    let length = block
        .length
        .saturating_add(GAP)
        .saturating_add(remark.len());
    if length <= TERMINAL {
        write_gap(writer, room, None)?;
    } else {
        writer.write_all(b"\n    ")?;
    }
    writer.write_all(remark.as_slice())
}
