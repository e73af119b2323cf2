//! From a job file to the report of its service.
ghost use Rattle.std.specs.Prelude.{◌≡◌, ◌*◌, ◌||◌};
ghost use Rattle.line_text.specs.Streams.{HasRead, Reads, ReadsFrom, has_read_failed, has_write_failed, reader_name};
ghost use Rattle.line_text.specs.Streams.{writer_inside, writer_name};
ghost use Rattle.disk_jobs.specs.Faults.{is_read_fault, is_write_fault};
ghost use Rattle.disk_service.specs.Runs.{Serves};

use crate::gate::NoGate;
use crate::serving::serve_on;
use disk_jobs::fault::ServiceFault;
use disk_jobs::kind::Kind;
use disk_jobs::reading::{MOST_LINES, read_jobs_watched};
use disk_jobs::report::write_report_watched;
use line_text::reader::WatchedReader;
use line_text::writer::WatchedWriter;
use std::alloc::Global;
use std::io::{Read, Write};
use std::sync::Wait;
use std::thread::Threads;

/// Reads a job file, does its jobs on doors of this kind, and writes the report. If a write fails or takes no bytes, a
/// prefix of the report is written, and not all. After any other fault nothing is written. Nothing is flushed.
///
/// Returns a fault of `read_jobs` or of `serve`, or `WriteFault`.
pub fn run<T: Threads + Wait + Sync, R: Read, W: Write>(
    rt: &T,
    alloc: Global,
    kind: Kind,
    reader: &mut R,
    writer: &mut W,
) -> Result<(), ServiceFault>
    ensures { Reads (R.remaining reader.old) (R.remaining reader.new) (λ text left.
        Serves text left (W.contents writer.old) (W.contents writer.new) result) }
{
    let mut watched_reader = WatchedReader::new(reader);
    let mut watched_writer = WatchedWriter::new(writer);
    run_watched(rt, alloc, kind, &mut watched_reader, &mut watched_writer)
}

/// Does as `run` does, with a watched reader and a watched writer. Returns `ReadFault` exactly if a read failed, and
/// `WriteFault` exactly if a write failed or took no bytes.
///
/// Reads at most 4,098 lines of 257 bytes: this many bytes, by at most as many reads, as the watched reader counts
/// both. This holds for every wrapped reader.
pub fn run_watched<T: Threads + Wait + Sync, R: Read, W: Write>(
    rt: &T,
    alloc: Global,
    kind: Kind,
    reader: &mut WatchedReader<'_, R>,
    writer: &mut WatchedWriter<'_, W>,
) -> Result<(), ServiceFault>
    ensures served { ReadsFrom R.remaining reader.old reader.new (λ text left.
        Serves text left (W.contents (writer_inside writer.old))
        (W.contents (writer_inside writer.new)) result) }
    ensures counts { HasRead reader.old reader.new (4098 * 257) (4098 * 257) }
    ensures read_fault { has_read_failed reader.new
        ≡ (has_read_failed reader.old || is_read_fault result) }
    ensures write_fault { has_write_failed writer.new
        ≡ (has_write_failed writer.old || is_write_fault result) }
    ensures same_reader { reader_name reader.new ≡ reader_name reader.old }
    ensures same_writer { writer_name writer.new ≡ writer_name writer.old }
{
    let jobs = read_jobs_watched(alloc, reader)?;
    let report = serve_on(rt, alloc, kind, &jobs, &NoGate)?;
    write_report_watched(&report, writer)
}
