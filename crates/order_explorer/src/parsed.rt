//! The order of a script: which places are admitted, in sequence.

use std::alloc::{AllocError, Global};

/// Returns the places of the script's lines `enter K`, in order, and skips everything else. Refuses if an allocation
/// fails.
pub(crate) fn order_of(alloc: Global, script: &str) -> Result<Vec<usize>, AllocError> {
    let mut order = Vec::new(alloc);
    let mut comes = false;
    for word in script.split_whitespace() {
        if comes {
            if let Ok(place) = word.parse::<usize>() {
                order.push(place)?;
            }
        }
        comes = word == "enter";
    }
    Ok(order)
}
