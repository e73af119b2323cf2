//! The arguments of the program, and what they ask for.

use order_explorer::{Limits, Orders};
use std::{env, io};

/// What is asked for: one program by its name, or all (by `all` or no word); and the limits of each exploration.
#[derive(Drop)]
pub struct Arguments {
    word: Option<String>,
    /// The limits of each exploration.
    pub limits: Limits,
}

impl Arguments {
    /// Reads the arguments. The first is a program's name (only its script is printed) or `all`. The second is a seed,
    /// by which orders are drawn, and the third the maximum number of runs. Of these two, an argument that isn't a
    /// number is ignored. Refuses if the arguments can't be read.
    pub fn of(rt: &HostRuntime) -> io::Result<Arguments> {
        let mut words = env::args(rt)?;
        let _program = words.next();
        let word = words.next();
        let mut limits = Limits::USUAL;
        if let Some(seed) = number_of(words.next()) {
            limits.orders = Orders::Drawn(seed);
        }
        if let Some(runs) = number_of(words.next()) {
            limits.runs = runs;
        }
        Ok(Arguments { word, limits })
    }

    /// Returns true if all programs are to be tried.
    pub fn is_all(&self) -> bool {
        self.word.is_none() || self.asks("all")
    }

    /// Returns true if the first argument is `word`.
    pub fn asks(&self, word: &str) -> bool {
        match &self.word {
            Some(asked) => asked.as_str() == word,
            None => false,
        }
    }
}

// Returns the number that an argument spells, if it spells one.
fn number_of(word: Option<String>) -> Option<u64> {
    let word = word?;
    word.as_str().parse::<u64>().ok()
}
