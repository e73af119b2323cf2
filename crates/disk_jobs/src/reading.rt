//! Reading a job file.
ghost use Rattle.std.specs.Prelude.{◌≡◌, ◌≢◌, ◌*◌, ◌||◌, codes, None, Some, IfErr, OnOk};
ghost use Rattle.line_text.specs.Forms.{one_number, two_numbers};
ghost use Rattle.line_text.specs.Streams.{HasRead, Reads, ReadsFrom, has_read_failed, reader_name};
ghost use Rattle.disk_jobs.specs.Faults.{IsOfReading, is_read_fault};
ghost use Rattle.disk_jobs.specs.JobTexts.{header_line, job_line, one_line};
ghost use Rattle.disk_jobs.specs.Readings.{Follows, Gives, GivesTo, lines_of, shown};

use crate::fault::ServiceFault;
use crate::jobs::{Jobs, MOST_JOBS, MOST_WORKERS};
use arrayvec::ArrayVec;
use line_text::forms::{one_number, two_numbers};
use line_text::line::{Ended, LONGEST_LINE, LineFault, read_line};
use line_text::reader::WatchedReader;
use std::alloc::Global;
use std::io::Read;

/// The most lines of a job file that are read: the header, 4,096 jobs, and the line that is too many.
pub const MOST_LINES: u64 = 4098;

// The room given to each line, in bytes: no line within the limits exceeds it.
const ROOM: usize = LONGEST_LINE + 1;

/// Reads a job file. Its first line is `disk M W`, with the last cylinder M, 0 to 65535, and 1 to 16 workers W. Then
/// come up to 4,096 lines `read C` with C up to M.
///
/// Returns the earliest fault of the text: `NoHeader` if it has no line, else `BadLine`. Returns `ReadFault` if a read
/// fails before that, and `Memory` if there is no memory for a good line's job. Reads up to the end of the line at
/// fault, or to its byte 257.
pub fn read_jobs<R: Read>(alloc: Global, reader: &mut R) -> Result<Jobs, ServiceFault>
    ensures { Reads (R.remaining reader.old) (R.remaining reader.new) (λ text left.
        Gives text left result) }
{
    let mut watched = WatchedReader::new(reader);
    read_jobs_watched(alloc, &mut watched)
}

/// Reads a job file as `read_jobs` does, from a watched reader. Returns `ReadFault` exactly if a read failed.
///
/// Reads at most 4,098 lines of 257 bytes: this many bytes, by at most as many reads, as the watched reader counts
/// both. This holds for every wrapped reader.
pub fn read_jobs_watched<R: Read>(
    alloc: Global,
    reader: &mut WatchedReader<'_, R>,
) -> Result<Jobs, ServiceFault>
    ensures known { ReadsFrom R.remaining reader.old reader.new (λ text left.
        Gives text left result) }
    ensures counts { HasRead reader.old reader.new (4098 * 257) (4098 * 257) }
    ensures read_fault { has_read_failed reader.new
        ≡ (has_read_failed reader.old || is_read_fault result) }
    ensures same_reader { reader_name reader.new ≡ reader_name reader.old }
    ensures fault { IfErr result IsOfReading }
{
    let mut jobs = None;
    let end = read_lines(alloc, reader, &mut jobs);
    whole(end, jobs)
}

// Returns the jobs, if all their lines were read, or else the fault.
fn whole(end: Result<(), ServiceFault>, jobs: Option<Jobs>) -> Result<Jobs, ServiceFault>
    requires some { OnOk end (jobs ≢ None) }
    requires fault { IfErr end IsOfReading }
    ensures value { result ≡ shown end jobs }
    ensures fault { IfErr result IsOfReading }
{
    match end {
        Err(fault) => Err(fault),
        Ok(()) => match jobs {
            Some(jobs) => Ok(jobs),
            None => unreachable!(),
        },
    }
}

// Reads the lines of a job file, none of which was read yet.
fn read_lines<R: Read>(
    alloc: Global,
    reader: &mut WatchedReader<'_, R>,
    jobs: &mut Option<Jobs>,
) -> Result<(), ServiceFault>
    requires { jobs.old ≡ None }
    ensures answer { ReadsFrom R.remaining reader.old reader.new (λ text left.
        GivesTo text left jobs.new result) }
    ensures some { OnOk result (jobs.new ≢ None) }
    ensures counts { HasRead reader.old reader.new (4098 * 257) (4098 * 257) }
    ensures read_fault { has_read_failed reader.new
        ≡ (has_read_failed reader.old || is_read_fault result) }
    ensures same_reader { reader_name reader.new ≡ reader_name reader.old }
    ensures fault { IfErr result IsOfReading }
{
    let mut line = ArrayVec::new();
    let mut number: u64 = 1;
    'lines: loop {
        match read_line(reader, &mut line, ROOM) {
            Err(LineFault::Failed) => return Err(ServiceFault::ReadFault),
            Err(LineFault::TooLong) => return Err(ServiceFault::BadLine(number)),
            Err(LineFault::TooMuch) => unreachable!(),
            Ok(Ended::Last) => {
                if !line.is_empty() {
                    return one_line(alloc, jobs, number, line.as_slice());
                }
                if number == 1 {
                    return Err(ServiceFault::NoHeader);
                }
                return Ok(());
            }
            Ok(Ended::Line) => {
                if let Err(fault) = one_line(alloc, jobs, number, line.as_slice()) {
                    return Err(fault);
                }
                number += 1;
            }
        }
    }
}

// Takes in one line, by its number. Only a job takes memory.
#[tactic(auto, unfolding(crate::specs::JobTexts::one_line))]
fn one_line(
    alloc: Global,
    jobs: &mut Option<Jobs>,
    number: u64,
    line: &[u8],
) -> Result<(), ServiceFault>
    ensures answer { Follows (one_line jobs.old number line.now) number jobs.new result }
    ensures fault { IfErr result IsOfReading }
{
    match jobs {
        Some(jobs) => job_line(jobs, number, line),
        None => match header_line(alloc, number, line) {
            Ok(opened) => {
                *jobs = Some(opened);
                Ok(())
            }
            Err(fault) => Err(fault),
        },
    }
}

// Returns the jobs that a header opens: none yet.
fn header_line(alloc: Global, number: u64, line: &[u8]) -> Result<Jobs, ServiceFault>
    ensures value { result ≡ header_line number (two_numbers (codes "disk") line.now) }
    ensures fault { IfErr result (λ f. f ≡ ServiceFault.BadLine number) }
    ensures reading { IfErr result IsOfReading }
{
    let Some((cylmax, workers)) = two_numbers(line, b"disk") else {
        return Err(ServiceFault::BadLine(number));
    };
    if cylmax > 65_535 || workers == 0 || workers > u64::from(MOST_WORKERS) {
        return Err(ServiceFault::BadLine(number));
    }
    Ok(Jobs::none(alloc, cylmax as u16, workers as u32))
}

// Appends the job of a line.
fn job_line(jobs: &mut Jobs, number: u64, line: &[u8]) -> Result<(), ServiceFault>
    ensures answer { Follows (job_line jobs.old number (one_number (codes "read") line.now)) number
        (Some jobs.new) result }
    ensures fault { IfErr result IsOfReading }
{
    let Some(cylinder) = one_number(line, b"read") else {
        return Err(ServiceFault::BadLine(number));
    };
    if cylinder > u64::from(jobs.cylmax()) || jobs.len() >= MOST_JOBS {
        return Err(ServiceFault::BadLine(number));
    }
    match jobs.push(cylinder as u16) {
        Ok(()) => Ok(()),
        Err(_) => Err(ServiceFault::Memory),
    }
}
