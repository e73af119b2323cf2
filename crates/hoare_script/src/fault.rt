//! The faults that end a script.
ghost use Rattle.std.specs.Prelude.{◌≡◌, ◌↔◌, IsNone};
ghost use Rattle.hoare_script.specs.Runs.{status_of};

use line_text::words::first_word;
use thiserror::Error;

/// Why a script ends early. Each fault is at a byte of the input, and the earliest is returned. Lines are counted from
/// 1, which is the header.
#[derive(Clone, Copy, Debug, PartialEq, Eq, Error)]
pub enum ScriptFault {
    /// The input is empty.
    #[error("fault 1 NoHeader")]
    NoHeader,
    /// A line after the first has none of the forms of a command.
    #[error("fault 2 BadLine line {0}")]
    BadLine(u64),
    /// The first line isn't `monitor P C` with 1 to 64 places and 1 to 8 conditions, or `monitor P C M` with no more
    /// Mesa conditions than conditions.
    #[error("fault 3 BadHeader line {0}")]
    BadHeader(u64),
    /// A read failed. The unfinished line at that point isn't answered.
    #[error("fault 4 ReadFault")]
    ReadFault,
    /// A write failed, or took no bytes.
    #[error("fault 5 WriteFault")]
    WriteFault,
    /// An allocation for the book failed. Nothing is written.
    #[error("fault 6 Memory")]
    Memory,
    /// A line has over 256 bytes, its end not counted.
    #[error("fault 7 LineTooLong line {0}")]
    LineTooLong(u64),
    /// The input has over 1,048,576 bytes.
    #[error("fault 8 TooMuch")]
    TooMuch,
}

impl ScriptFault {
    /// Returns the exit status of a program that the fault ends: 3 if a read, a write or an allocation failed, else 2.
    pub fn status(&self) -> u8
        ensures { result ≡ status_of self.now }
    {
        match self {
            ScriptFault::ReadFault | ScriptFault::WriteFault | ScriptFault::Memory => 3,
            _ => 2,
        }
    }

    /// Returns what was expected instead, to show it beside `line`, the line at fault. Returns `None` if a read, a
    /// write or memory failed: then no line is at fault.
    pub fn expected(&self, line: &[u8]) -> Option<&'static str>
        ensures { IsNone result ↔ (status_of self.now ≡ 3) }
    {
        match self {
            ScriptFault::NoHeader => Some("'monitor P C' in the first line; there is none"),
            ScriptFault::BadHeader(_) => {
                Some("'monitor P C' or 'monitor P C M': P 1 to 64, C 1 to 8, M 0 to C")
            }
            ScriptFault::BadLine(_) => Some(expected_step(line)),
            ScriptFault::LineTooLong(_) => Some("at most 256 bytes"),
            ScriptFault::TooMuch => Some("at most 1048576 bytes in all"),
            ScriptFault::ReadFault | ScriptFault::WriteFault | ScriptFault::Memory => None,
        }
    }
}

// Returns the form of a step that begins with the first word of `line`, or the words that steps begin with.
fn expected_step(line: &[u8]) -> &'static str {
    let (word, _rest) = first_word(line);
    match word {
        b"enter" | b"leave" => "'enter K' or 'leave K' (one space between, no leading 0)",
        b"wait" => "'wait K C P' (one space between two, no leading 0)",
        b"signal" | b"pass" => "'signal K C' or 'pass K C' (one space between two, no leading 0)",
        b"notify" | b"broadcast" => {
            "'notify K C' or 'broadcast K C' (one space between two, no leading 0)"
        }
        b"queue" | b"first" => "'queue C' or 'first C' (one space between, no leading 0)",
        b"monitor" => "a step: only the first line is a 'monitor'",
        _ => "enter, wait, signal, pass, leave, notify, broadcast, queue or first, and its numbers",
    }
}
