//! Makes what standard input names, one name a line, and prints if there was memory for it. `tests/refused-memory` runs
//! this program with each request for memory refused in turn.
#![tactic(auto)]

mod answer;
mod calls;
mod services;

use crate::calls::call;
use arrayvec::ArrayVec;
use line_text::line::{Ended, Line, LineFault, read_line};
use line_text::reader::WatchedReader;
use std::io;

// Room for the line of a name, in bytes: more than any name has.
const ROOM: usize = 4096;

// Reads the next name. Returns true if there is one.
fn is_named<R: io::Read>(reader: &mut WatchedReader<'_, R>, name: &mut Line) -> bool {
    match read_line(reader, name, ROOM) {
        Ok(Ended::Line) => true,
        Ok(Ended::Last) => !name.is_empty(),
        Err(LineFault::Failed | LineFault::TooLong | LineFault::TooMuch) => false,
    }
}

fn main(rt: HostRuntime) -> io::Result<()> {
    let mut input = rt.stdin();
    let mut reader = WatchedReader::new(&mut input);
    let mut name = ArrayVec::new();
    for _ in 0..100 {
        if !is_named(&mut reader, &mut name) {
            return Ok(());
        }
        let answer = call(&rt, rt.alloc(), name.as_slice());
        println!(rt; "{}", answer.text())?;
    }
    Ok(())
}
