//! A writer that records failures.
ghost use Rattle.std.specs.Prelude.{◌≡◌, ◌||◌, false, OnOk, OnErr};
ghost use Rattle.std.specs.Io.{WritesAtMost};
ghost use Rattle.std.specs.Io.KnownBytes.{Appends, WriteAppends};
ghost use Rattle.line_text.specs.Streams.{AppendsPrefix, has_write_failed, is_error, is_shortfall, writer_inside};
ghost use Rattle.line_text.specs.Streams.{writer_name};

use std::io;
use std::io::Write;

/// A wrapper of a writer. It records if a write failed or took no bytes. It never flushes: the owner of the writer
/// does.
#[derive(Drop)]
pub struct WatchedWriter<'a, W> {
    inner: &'a mut W,
    failed: bool,
}

/// A write failed, or took no bytes.
#[derive(Clone, Copy, Debug, PartialEq, Eq, thiserror::Error)]
#[error("a write failed, or took nothing")]
pub struct WriteFailed;

impl<'a, W> WatchedWriter<'a, W> {
    /// Creates the wrapper of `inner`. No write has failed yet.
    pub fn new(inner: &'a mut W) -> WatchedWriter<'a, W>
        ensures same_reference { writer_name result ≡ inner.entry.ghost_name }
        ensures inner { writer_inside result ≡ inner.old }
        ensures fresh { has_write_failed result ≡ false }
    {
        WatchedWriter {
            inner,
            failed: false,
        }
    }

    /// Returns true if a write of the wrapped writer failed or took no bytes.
    pub fn has_failed(&self) -> bool
        ensures { result ≡ has_write_failed self.now }
    {
        self.failed
    }
}

impl<'a, W: Write> WatchedWriter<'a, W> {
    // Writes once to the wrapped writer. Sets the mark exactly if that write fails or takes no bytes.
    fn write(&mut self, buf: &[u8]) -> io::Result<usize>
        ensures bound { WritesAtMost result buf.now }
        ensures bytes { WriteAppends (W.contents (writer_inside self.old))
            (W.contents (writer_inside self.new)) result buf.now }
        ensures same_reference { writer_name self.new ≡ writer_name self.old }
        ensures mark { has_write_failed self.new
            ≡ (has_write_failed self.old || is_shortfall result) }
    {
        let result = self.inner.write(buf);
        if !matches!(result, Ok(1..)) {
            self.failed = true;
        }
        result
    }

    /// Writes all of the bytes. Returns `WriteFailed` if a write fails or takes no bytes; then a prefix of the bytes is
    /// written, and not all.
    pub fn write_whole(&mut self, bytes: &[u8]) -> Result<(), WriteFailed>
        ensures ok { OnOk result
            (Appends (W.contents (writer_inside self.old)) (W.contents (writer_inside self.new))
            bytes.now) }
        ensures err { OnErr result
            (AppendsPrefix (W.contents (writer_inside self.old))
            (W.contents (writer_inside self.new)) bytes.now) }
        ensures same_reference { writer_name self.new ≡ writer_name self.old }
        ensures mark { has_write_failed self.new ≡ (has_write_failed self.old || is_error result) }
    {
        let mut at = 0;
        while at < bytes.len() {
            match self.write(&bytes[at..]) {
                Ok(0) => return Err(WriteFailed),
                Ok(n) => at += n,
                Err(_) => return Err(WriteFailed),
            }
        }
        Ok(())
    }
}
