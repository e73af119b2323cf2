//! A refusal that returns an item.
use std::{error, fmt};

/// Why `Head::release` or `ReadersWriters::end_write` is refused: the drive is in, or no writer is in, so nothing is
/// out that could be put in. It has the given item.
#[derive(Debug, Drop)]
pub struct NotOut<T> {
    /// The drive or the value that was given to the refused call.
    pub item: T,
}

impl<T> fmt::Display for NotOut<T> {
    fn fmt<W: fmt::Write>(&self, f: &mut fmt::Formatter<W>) -> fmt::Result {
        write!(f, "no item is out")
    }
}

impl<T: fmt::Debug + Drop> error::Error for NotOut<T> {}
