//! The line that was read last, to show it beside a fault.

use arrayvec::ArrayVec;
use std::env::Env;
use std::fmt::{Display, Formatter, Write};
use std::io::Read;
use std::{env, fmt, io};

/// The environment variable by which a program is asked to explain a fault.
const EXPLAINS: &str = "ZAULINTE_EXPLAIN";

/// A line: its number, from 1, and its first 80 bytes. As a text it is the number, a bar and these bytes; a byte that
/// is no printable ASCII is written as in a Rust string.
#[derive(Drop)]
pub struct LastLine {
    number: u64,
    bytes: ArrayVec<u8, 80>,
    is_ended: bool, // its end was read: the next byte begins another line
}

impl LastLine {
    // Creates the record of line 1, of which nothing was read.
    fn new() -> LastLine {
        LastLine {
            number: 1,
            bytes: ArrayVec::new(),
            is_ended: false,
        }
    }

    /// Returns the first 80 bytes of the line. Its end isn't among them.
    pub fn bytes(&self) -> &[u8] {
        self.bytes.as_slice()
    }

    // Notes the bytes that were read.
    fn note(&mut self, bytes: &[u8]) {
        for byte in bytes {
            self.note_byte(*byte);
        }
    }

    fn note_byte(&mut self, byte: u8) {
        if self.is_ended {
            self.bytes.clear();
            self.number = self.number.saturating_add(1);
        }
        self.is_ended = byte == b'\n';
        if !self.is_ended {
            let _ = self.bytes.try_push(byte); // only the first 80 are kept
        }
    }
}

impl Display for LastLine {
    fn fmt<W: Write>(&self, f: &mut Formatter<W>) -> fmt::Result {
        write!(f, "{:>6} | {}", self.number, self.bytes().escape_ascii())
    }
}

/// A reader that gives what the reader inside gives, and keeps the line that was read last.
#[derive(Drop)]
pub struct LineKeeper<R> {
    inner: R,
    last: LastLine,
}

impl<R> LineKeeper<R> {
    /// Creates the keeper around a reader that stands at the beginning of a text.
    pub fn new(inner: R) -> LineKeeper<R> {
        LineKeeper {
            inner,
            last: LastLine::new(),
        }
    }

    /// Returns the line of the last byte that was read: line 1, empty, if none was.
    pub fn last_line(&self) -> &LastLine {
        &self.last
    }
}

impl<R: Read> Read for LineKeeper<R> {
    ghost remaining = { λ k. R.remaining k.inner };

    fn read(&mut self, buf: &mut [u8]) -> io::Result<usize> {
        let count = self.inner.read(buf)?;
        self.last.note(&buf[..count]);
        Ok(count)
    }
}

/// Prints a line and what was expected there on standard error, if the environment variable `ZAULINTE_EXPLAIN` is set
/// and isn't empty. If that can't be printed, nothing is.
pub fn explain<R: Env + Alloc + Eprint>(rt: &R, line: &LastLine, expected: &str) {
    if env::var(rt, EXPLAINS).is_ok_and(|value| !value.is_empty()) {
        let _ = eprintln!(rt; "{line}");
        let _ = eprintln!(rt; "{:>6} = expected {expected}", "");
    }
}
