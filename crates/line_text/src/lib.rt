//! Lines of a text: reading them with limits from any reader, their words and numbers, and how these are spelled. Also
//! writing bytes to any writer.
#![tactic(auto)]

pub mod forms;
pub mod last_line;
pub mod line;
pub mod reader;
pub mod text;
pub mod words;
pub mod writer;
