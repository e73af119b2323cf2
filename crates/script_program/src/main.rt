//! Answers a script from standard input on standard output.
#![tactic(auto)]

mod not_answered;

ghost use Rattle.std.specs.Prelude.{◌≡◌};
ghost use Rattle.std.specs.Process.{exit_status};
ghost use Rattle.script_program.specs.Statuses.{status_after};

use crate::not_answered::NotAnswered;
use hoare_script::{ScriptFault, run};
use line_text::last_line::{LineKeeper, explain};
use std::io::BufReader;
use std::process::ExitCode;

// Reads ahead, so that a byte isn't a system call. Each answer is one write, made before the next line is read.
fn main(rt: HostRuntime) -> ExitCode {
    let Ok(ahead) = BufReader::with_capacity(rt.alloc(), 65_536, rt.stdin()) else {
        return report(&rt, Err(ScriptFault::Memory));
    };
    let mut reader = LineKeeper::new(ahead);
    let end = run(rt.alloc(), &mut reader, &mut rt.stdout());
    let code = report(&rt, end);
    let line = reader.last_line();
    if let Err(fault) = end
        && let Some(expected) = fault.expected(line.bytes())
    {
        explain(&rt, line, expected);
    }
    code
}

// Returns the exit code, and prints the line of a fault on standard error.
fn report<R: Eprint>(rt: &R, end: Result<(), ScriptFault>) -> ExitCode
    ensures { exit_status result ≡ status_after end }
{
    match end {
        Ok(()) => ExitCode::SUCCESS,
        Err(fault) => {
            let status = fault.status();
            let _ = eprintln!(rt; "{}", NotAnswered(fault));
            ExitCode::from(status)
        }
    }
}
