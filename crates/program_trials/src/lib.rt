//! Tests of the law, of the book, of lines of a text, of scripts and of the disk service, by the public names of their
//! crates. They have a crate of their own, so that no run of them proves those crates once more.
#![tactic(auto)]

#[cfg(test)]
mod tests;
