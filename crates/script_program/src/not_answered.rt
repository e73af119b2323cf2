//! The line that the program prints for a fault.

use hoare_script::ScriptFault;
use std::fmt;
use std::fmt::{Display, Formatter, Write};

/// The fault by which not all lines were answered. Its text is the line on standard error.
#[derive(Clone, Copy, Debug, PartialEq, Eq)]
pub struct NotAnswered(pub ScriptFault);

impl Display for NotAnswered {
    fn fmt<W: Write>(&self, f: &mut Formatter<W>) -> fmt::Result {
        let fault = self.0;
        write!(f, "hoare_script: {fault}")
    }
}
