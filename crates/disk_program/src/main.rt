//! Does the jobs of a file from standard input, and writes the report to standard output.
#![tactic(auto)]

mod no_report;

ghost use Rattle.std.specs.Prelude.{◌≡◌, map, ok_or};
ghost use Rattle.std.specs.Process.{exit_status};
ghost use Rattle.std.specs.String.{string_bytes};
ghost use Rattle.disk_jobs.specs.Kinds.{kind_of_words};
ghost use Rattle.disk_program.specs.declared.no_report.NoReport.TheVariants.{Usage};
ghost use Rattle.disk_program.specs.Statuses.{status_after};

use crate::no_report::NoReport;
use disk_service::{Kind, ServiceFault, kind_of, run};
use line_text::last_line::{LineKeeper, explain};
use std::alloc::Global;
use std::io::{BufReader, BufWriter, Read, Write};
use std::process::ExitCode;
use std::sync::Wait;
use std::thread::Threads;
use std::{env, io};

// Reads ahead, so that a byte isn't a system call, and prints the line of a fault on standard error.
fn main(rt: HostRuntime) -> ExitCode {
    let kind = match asked_kind(&rt) {
        Ok(kind) => kind,
        Err(no_report) => return report(&rt, Err(no_report)),
    };
    let Ok(ahead) = BufReader::with_capacity(rt.alloc(), 65_536, rt.stdin()) else {
        return report(&rt, Err(NoReport::Fault(ServiceFault::Memory)));
    };
    let mut reader = LineKeeper::new(ahead);
    let end = serve_streams(&rt, rt.alloc(), kind, &mut reader, rt.stdout());
    let code = report(&rt, end.map_err(NoReport::Fault));
    if let Err(fault) = end
        && let Some(expected) = fault.expected()
    {
        explain(&rt, reader.last_line(), expected);
    }
    code
}

// Returns the kind that the program's arguments name. An argument that isn't UTF-8 is refused as any other wrong one.
fn asked_kind(rt: &HostRuntime) -> Result<Kind, NoReport> {
    let mut words = match env::args(rt) {
        Ok(words) => words,
        Err(error) if error.kind() == io::ErrorKind::OutOfMemory => {
            return Err(NoReport::Fault(ServiceFault::Memory));
        }
        Err(_) => return Err(NoReport::Usage),
    };
    let _name = words.next();
    match words.collect::<Vec<String>>(rt.alloc()) {
        Ok(words) => named_kind(words.as_slice()),
        Err(_) => Err(NoReport::Fault(ServiceFault::Memory)),
    }
}

// Returns the kind that these arguments name.
fn named_kind(words: &[String]) -> Result<Kind, NoReport>
    ensures { result ≡ ok_or (kind_of_words (map string_bytes words.now)) Usage }
{
    kind_of(words).ok_or(NoReport::Usage)
}

// Serves from one stream to another. It writes ahead, so that a line isn't a system call.
fn serve_streams<R: Threads + Wait + Sync, I: Read, O: Write + Drop>(
    rt: &R,
    alloc: Global,
    kind: Kind,
    reader: &mut I,
    output: O,
) -> Result<(), ServiceFault> {
    let Ok(mut writer) = BufWriter::with_capacity(alloc, 65_536, output) else {
        return Err(ServiceFault::Memory);
    };
    run(rt, alloc, kind, reader, &mut writer)?;
    writer.flush().map_err(|_| ServiceFault::WriteFault)
}

// Returns the exit code. If there is no report, it prints a line on standard error that says why.
fn report<R: Eprint>(rt: &R, end: Result<(), NoReport>) -> ExitCode
    ensures { exit_status result ≡ status_after end }
{
    match end {
        Ok(()) => ExitCode::SUCCESS,
        Err(fault) => {
            let _ = eprintln!(rt; "{fault}");
            ExitCode::from(fault.status())
        }
    }
}
