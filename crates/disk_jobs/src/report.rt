//! The report of the service, and its text.
ghost use Rattle.std.specs.Prelude.{◌≡◌, ◌||◌, OnOk, OnErr, IfErr};
ghost use Rattle.std.specs.Io.KnownBytes.{Appends};
ghost use Rattle.line_text.specs.Streams.{AppendsPrefix, has_write_failed, is_error, writer_inside, writer_name};
ghost use Rattle.disk_jobs.specs.Faults.{is_write_fault};
ghost use Rattle.disk_jobs.specs.Reports.{account_of, line_text, lines_text, report_text, total_text};

use crate::done::Done;
use crate::fault::ServiceFault;
use arrayvec::ArrayVec;
use line_text::text::{Text, append, append_number};
use line_text::writer::{WatchedWriter, WriteFailed};
use std::io::Write;

/// What the service reports: each job that was done, how many there are, and the sum of their blocks.
#[derive(Debug, Drop, PartialEq, Eq)]
pub struct Report {
    /// The jobs that were done, in the order of their numbers.
    pub lines: Vec<Done>,
    /// How many jobs were done.
    pub jobs: u64,
    /// The sum of the blocks of these jobs.
    pub sum: u64,
}

/// Writes a report: a line `job I cylinder C block B` for each job in order, then `total jobs N sum S`. Returns
/// `WriteFault` if a write fails or takes no bytes; then a prefix of the report is written, and not all. Nothing is
/// flushed.
pub fn write_report<W: Write>(report: &Report, writer: &mut W) -> Result<(), ServiceFault>
    ensures ok { OnOk result (Appends (W.contents writer.old) (W.contents writer.new)
        (report_text (account_of report.now))) }
    ensures err { OnErr result (AppendsPrefix (W.contents writer.old) (W.contents writer.new)
        (report_text (account_of report.now))) }
    ensures fault { IfErr result (λ f. f ≡ ServiceFault.WriteFault) }
{
    let mut watched = WatchedWriter::new(writer);
    write_report_watched(report, &mut watched)
}

/// Writes a report as `write_report` does, to a watched writer. Returns `WriteFault` exactly if a write failed or took
/// no bytes.
pub fn write_report_watched<W: Write>(
    report: &Report,
    writer: &mut WatchedWriter<'_, W>,
) -> Result<(), ServiceFault>
    ensures ok { OnOk result (Appends (W.contents (writer_inside writer.old))
        (W.contents (writer_inside writer.new)) (report_text (account_of report.now))) }
    ensures err { OnErr result (AppendsPrefix (W.contents (writer_inside writer.old))
        (W.contents (writer_inside writer.new)) (report_text (account_of report.now))) }
    ensures fault { IfErr result (λ f. f ≡ ServiceFault.WriteFault) }
    ensures write_fault { has_write_failed writer.new
        ≡ (has_write_failed writer.old || is_write_fault result) }
    ensures same_writer { writer_name writer.new ≡ writer_name writer.old }
{
    if let Err(_) = write_lines(report.lines.as_slice(), writer) {
        return Err(ServiceFault::WriteFault);
    }
    match writer.write_whole(total_text(report.jobs, report.sum).as_slice()) {
        Ok(()) => Ok(()),
        Err(_) => Err(ServiceFault::WriteFault),
    }
}

// Writes the lines of the jobs.
fn write_lines<W: Write>(
    lines: &[Done],
    writer: &mut WatchedWriter<'_, W>,
) -> Result<(), WriteFailed>
    ensures ok { OnOk result (Appends (W.contents (writer_inside writer.old))
        (W.contents (writer_inside writer.new)) (lines_text lines.now)) }
    ensures err { OnErr result (AppendsPrefix (W.contents (writer_inside writer.old))
        (W.contents (writer_inside writer.new)) (lines_text lines.now)) }
    ensures same_writer { writer_name writer.new ≡ writer_name writer.old }
    ensures mark { has_write_failed writer.new ≡ (has_write_failed writer.old || is_error result) }
{
    for i in 0..lines.len() {
        let text = line_text(lines[i]);
        if let Err(failed) = writer.write_whole(text.as_slice()) {
            return Err(failed);
        }
    }
    Ok(())
}

// Returns the line of a job.
fn line_text(done: Done) -> Text
    ensures { result.items ≡ line_text done }
{
    let mut text = ArrayVec::new();
    append(&mut text, b"job ");
    append_number(&mut text, u64::from(done.job()));
    append(&mut text, b" cylinder ");
    append_number(&mut text, u64::from(done.cylinder()));
    append(&mut text, b" block ");
    append_number(&mut text, u64::from(done.block()));
    append(&mut text, b"\n");
    text
}

// Returns the last line of a report.
fn total_text(jobs: u64, sum: u64) -> Text
    ensures { result.items ≡ total_text jobs sum }
{
    let mut text = ArrayVec::new();
    append(&mut text, b"total jobs ");
    append_number(&mut text, jobs);
    append(&mut text, b" sum ");
    append_number(&mut text, sum);
    append(&mut text, b"\n");
    text
}
