//! Which lanes a chart shows, and how much room its texts take.
use crate::monitor::{Lane, Lanes, Monitor};
use crate::script::Script;
use crate::words::{command_text, header_text, lane_text, place_text};
use arrayvec::ArrayVec;

/// A place whose lane is shown.
#[derive(Clone, Copy, Debug, Default, PartialEq, Eq)]
pub struct Column {
    /// The place's number.
    pub place: usize,
    /// The length of the longest text in its lane, including its number.
    pub width: usize,
}

/// The lanes that are shown, and the room for the steps.
#[derive(Drop)]
pub struct Widths {
    /// The length of the longest step or of the header.
    pub steps: usize,
    /// The columns, by rising places. A place that is outside after each row is idle, and has none.
    pub columns: ArrayVec<Column, 64>,
    /// The number of places that are idle.
    pub idle: u64,
}

/// Returns the widths that a script has room in. The monitor does all its commands.
pub fn widths_of(script: &Script, monitor: &mut Monitor) -> Widths {
    let mut steps = header_text(script.header).len();
    let mut longest = [0; 64];
    for command in script.commands.iter() {
        steps = steps.max(command_text(*command).len());
        let _answer = monitor.act(*command);
        widen(&mut longest, &monitor.lanes());
    }
    let columns = columns_of(&longest);
    let idle = script.header.places.saturating_sub(columns.len() as u64);
    Widths {
        steps,
        columns,
        idle,
    }
}

// Makes room for the texts of these lanes.
fn widen(longest: &mut [usize; 64], lanes: &Lanes) {
    for place in 0..64 {
        if lanes[place] != Lane::Outside {
            longest[place] = longest[place].max(lane_text(lanes[place]).len());
        }
    }
}

// Returns the columns of the places that weren't always outside. Each has room for its place's number.
fn columns_of(longest: &[usize; 64]) -> ArrayVec<Column, 64> {
    let mut columns = ArrayVec::new();
    for (place, length) in longest.iter().enumerate() {
        if *length > 0 {
            let width = (*length).max(place_text(place).len());
            let _ = columns.try_push(Column { place, width });
        }
    }
    columns
}
