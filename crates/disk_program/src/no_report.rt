//! Why the program wrote no report.
ghost use Rattle.std.specs.Prelude.{◌≡◌};
ghost use Rattle.disk_program.specs.Statuses.{status_without_report};

use disk_service::ServiceFault;
use std::fmt;
use std::fmt::{Display, Formatter, Write};

/// Why the program wrote no report. Its text is the line on standard error.
#[derive(Clone, Copy, Debug, PartialEq, Eq)]
pub enum NoReport {
    /// The arguments name no kind of doors.
    Usage,
    /// The service ended with a fault.
    Fault(ServiceFault),
}

impl NoReport {
    /// Returns the exit status: 2 if the arguments are at fault, else that of the fault.
    pub fn status(&self) -> u8
        ensures { result ≡ status_without_report self.now }
    {
        match self {
            NoReport::Usage => 2,
            NoReport::Fault(fault) => fault.status(),
        }
    }
}

impl Display for NoReport {
    fn fmt<W: Write>(&self, f: &mut Formatter<W>) -> fmt::Result {
        match self {
            NoReport::Usage => f.write_str("usage: disk_service [baton|ticket]"),
            NoReport::Fault(fault) => write!(f, "disk_service: {fault}"),
        }
    }
}
