//! Readers that end, fail or never end, and writers that fail. They count their calls.
use arrayvec::ArrayVec;
use std::io;
use std::io::{Read, Write};

/// What a reader gives after its bytes.
#[derive(Clone, Copy)]
pub enum Then {
    Ends,
    Fails,
    /// These bytes, again and again.
    Repeats(&'static [u8]),
}

/// A reader that gives its bytes, and then ends, fails or never ends.
#[derive(Drop)]
pub struct Given<'a> {
    rest: &'a [u8],
    then: Then,
    pub calls: u64,
}

impl<'a> Given<'a> {
    /// Creates a reader of these bytes that was not called yet.
    pub fn new(rest: &'a [u8], then: Then) -> Given<'a> {
        Given {
            rest,
            then,
            calls: 0,
        }
    }
}

impl Read for Given<'_> {
    fn read(&mut self, buf: &mut [u8]) -> io::Result<usize> {
        self.calls = self.calls.saturating_add(1);
        if self.rest.is_empty() {
            match self.then {
                Then::Ends => {}
                Then::Fails => return Err(io::Error::from(io::ErrorKind::BrokenPipe)),
                Then::Repeats(bytes) => self.rest = bytes,
            }
        }
        self.rest.read(buf)
    }
}

/// A writer that takes one byte a call while there is room, and then fails or takes nothing.
#[derive(Drop)]
pub struct Filling {
    pub taken: ArrayVec<u8, 106>,
    room: usize,
    fails: bool,
    pub calls: u64,
}

impl Filling {
    /// Creates a writer that has taken nothing. It has room for `room` bytes, at most 106; then it fails if `fails`.
    pub fn new(room: usize, fails: bool) -> Filling {
        Filling {
            taken: ArrayVec::new(),
            room,
            fails,
            calls: 0,
        }
    }
}

impl Write for Filling {
    fn write(&mut self, buf: &[u8]) -> io::Result<usize> {
        self.calls = self.calls.saturating_add(1);
        match buf.first() {
            Some(byte) if self.taken.len() < self.room && self.taken.try_push(*byte).is_ok() => {
                Ok(1)
            }
            _ if self.fails => Err(io::Error::from(io::ErrorKind::BrokenPipe)),
            _ => Ok(0),
        }
    }

    fn flush(&mut self) -> io::Result<()> {
        Ok(())
    }
}
