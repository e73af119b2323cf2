//! A reader that records failures and counts reads.
ghost use Rattle.std.specs.Prelude.{◌≡◌, ◌||◌, false};
ghost use Rattle.std.specs.Io.{ReadsAtMost};
ghost use Rattle.std.specs.Io.KnownBytes.{ReadConsumes};
ghost use Rattle.line_text.specs.Streams.{CountsRead, ReadsByte, ReadsFrom, byte_count, bytes_given, count_of};
ghost use Rattle.line_text.specs.Streams.{has_read_failed, is_error, read_calls, reader_inside, reader_name};

use std::io;
use std::io::Read;

/// A wrapper of a reader. It records if a read failed, how many reads were made, and how many bytes they gave. Both
/// counts stop at `u64::MAX`.
#[derive(Drop)]
pub struct WatchedReader<'a, R> {
    inner: &'a mut R,
    failed: bool,
    calls: u64,
    bytes: u64,
}

/// A read failed.
#[derive(Clone, Copy, Debug, PartialEq, Eq, thiserror::Error)]
#[error("a read failed")]
pub struct ReadFailed;

impl<'a, R> WatchedReader<'a, R> {
    /// Creates the wrapper of `inner`. No read is counted yet, and none has failed.
    pub fn new(inner: &'a mut R) -> WatchedReader<'a, R>
        ensures same_reference { reader_name result ≡ inner.entry.ghost_name }
        ensures inner { reader_inside result ≡ inner.old }
        ensures fresh { has_read_failed result ≡ false }
        ensures no_calls { read_calls result ≡ 0 }
        ensures no_bytes { bytes_given result ≡ 0 }
    {
        WatchedReader {
            inner,
            failed: false,
            calls: 0,
            bytes: 0,
        }
    }

    /// Returns true if a read of the wrapped reader failed.
    pub fn has_failed(&self) -> bool
        ensures { result ≡ has_read_failed self.now }
    {
        self.failed
    }

    /// Returns how many reads of the wrapped reader were made, at most `u64::MAX`.
    pub fn calls(&self) -> u64
        ensures { result ≡ read_calls self.now }
    {
        self.calls
    }

    /// Returns how many bytes the reads gave, at most `u64::MAX`.
    pub fn bytes(&self) -> u64
        ensures { result ≡ bytes_given self.now }
    {
        self.bytes
    }
}

impl<'a, R: Read> WatchedReader<'a, R> {
    // Reads once from the wrapped reader. Sets the mark exactly if that read fails.
    fn read(&mut self, buf: &mut [u8]) -> io::Result<usize>
        ensures bound { ReadsAtMost result buf.new }
        ensures bytes { ReadConsumes (R.remaining (reader_inside self.old))
            (R.remaining (reader_inside self.new)) result buf.new }
        ensures same_reference { reader_name self.new ≡ reader_name self.old }
        ensures mark { has_read_failed self.new ≡ (has_read_failed self.old || is_error result) }
        ensures counts { CountsRead self.old self.new (count_of result) }
    {
        let result = self.inner.read(buf);
        self.calls = self.calls.saturating_add(1);
        let given = match result {
            Ok(n) => n,
            Err(_) => 0,
        };
        self.bytes = self.bytes.saturating_add(given as u64);
        self.failed |= result.is_err();
        result
    }

    /// Reads the next byte. Returns `None` at the end of the input, and `ReadFailed` if the read fails.
    pub fn read_byte(&mut self) -> Result<Option<u8>, ReadFailed>
        ensures known { ReadsFrom R.remaining self.old self.new (ReadsByte result) }
        ensures same_reference { reader_name self.new ≡ reader_name self.old }
        ensures mark { has_read_failed self.new ≡ (has_read_failed self.old || is_error result) }
        ensures counts { CountsRead self.old self.new (byte_count result) }
    {
        let mut buffer = [0u8; 1];
        match self.read(&mut buffer) {
            Ok(0) => Ok(None),
            Ok(_) => Ok(Some(buffer[0])),
            Err(_) => Err(ReadFailed),
        }
    }
}
