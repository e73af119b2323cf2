//! Draws a script from standard input as a chart for a terminal, on standard output.
#![tactic(auto)]

mod chart;
mod monitor;
mod script;
mod widths;
mod words;

ghost use Rattle.std.specs.Prelude.{◌≡◌};
ghost use Rattle.std.specs.Process.{exit_status};
ghost use Rattle.picture_program.specs.Faults.{status_after};

use crate::chart::draw_script;
use hoare_script::ScriptFault;
use line_text::last_line::{LineKeeper, explain};
use line_text::reader::WatchedReader;
use std::io::{BufReader, BufWriter};
use std::process::ExitCode;

// Both streams are buffered, so that a byte isn't a system call.
fn main(rt: HostRuntime) -> ExitCode {
    let Ok(ahead) = BufReader::with_capacity(rt.alloc(), 65_536, rt.stdin()) else {
        return report(&rt, Err(ScriptFault::Memory));
    };
    let Ok(mut writer) = BufWriter::with_capacity(rt.alloc(), 65_536, rt.stdout()) else {
        return report(&rt, Err(ScriptFault::Memory));
    };
    let mut reader = LineKeeper::new(ahead);
    let end = draw_script(
        rt.alloc(),
        &mut WatchedReader::new(&mut reader),
        &mut writer,
    );
    let code = report(&rt, end);
    let line = reader.last_line();
    if let Err(fault) = end
        && let Some(expected) = fault.expected(line.bytes())
    {
        explain(&rt, line, expected);
    }
    code
}

// Returns the exit code, and prints the line of a fault on standard error.
fn report<R: Eprint>(rt: &R, end: Result<(), ScriptFault>) -> ExitCode
    ensures { exit_status result ≡ status_after end }
{
    match end {
        Ok(()) => ExitCode::SUCCESS,
        Err(fault) => {
            let _ = eprintln!(rt; "picture_program: {fault}");
            ExitCode::from(fault.status())
        }
    }
}
