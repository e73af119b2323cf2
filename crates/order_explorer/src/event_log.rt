//! The log of calls that have no handle to block with. Such a call only appends a note; the notes are reported to the
//! run at the next call that has a handle.

use std::alloc::{AllocError, Global};
use std::sync::atomic::{AtomicU64, Ordering};

/// A non-blocking call: an attempt by which a place entered, or a notify or a broadcast on a condition.
#[derive(Clone, Copy)]
pub enum Note {
    /// This place entered by an attempt.
    Enter(usize),
    /// The process inside notifies the chosen waiter on this condition, if there is one.
    Notify(usize),
    /// The process inside notifies all waiters on this condition.
    Broadcast(usize),
}

/// The notes of the one process that runs, in order. The room for all of them is allocated when it is created.
#[derive(Drop)]
pub struct EventLog {
    words: Vec<AtomicU64>,
    count: AtomicU64,
}

// Encodes a note as a word: three times its number, plus its kind.
fn word_of(note: Note) -> u64 {
    match note {
        Note::Enter(place) => (place as u64).wrapping_mul(3),
        Note::Notify(condition) => (condition as u64).wrapping_mul(3).wrapping_add(1),
        Note::Broadcast(condition) => (condition as u64).wrapping_mul(3).wrapping_add(2),
    }
}

// Decodes a word that `word_of` returned.
fn note_of(word: u64) -> Note {
    let number = (word / 3) as usize;
    match word % 3 {
        0 => Note::Enter(number),
        1 => Note::Notify(number),
        _ => Note::Broadcast(number),
    }
}

impl EventLog {
    /// Creates the log without notes, with room for `most` of them. Refuses if an allocation fails.
    pub fn none(alloc: Global, most: usize) -> Result<EventLog, AllocError> {
        let mut words = Vec::with_capacity(alloc, most)?;
        for _ in 0..most {
            words.push(AtomicU64::new(0))?;
        }
        Ok(EventLog {
            words,
            count: AtomicU64::new(0),
        })
    }

    /// Appends a note. If there is no room for it, it is only counted.
    pub fn add(&self, note: Note) {
        let at = self.count.fetch_add(1, Ordering::SeqCst);
        if let Some(word) = self.words.get(at as usize) {
            word.store(word_of(note), Ordering::SeqCst);
        }
    }

    /// Returns how many notes were added, with those that had no room, and sets this number to 0. The notes can still
    /// be read until the next `add`.
    pub fn take_count(&self) -> u64 {
        self.count.swap(0, Ordering::SeqCst)
    }

    /// Returns note number `at`, counted from 0. Returns `None` if there was no room for it.
    pub fn get(&self, at: u64) -> Option<Note> {
        let word = self.words.get(at as usize)?;
        Some(note_of(word.load(Ordering::SeqCst)))
    }
}
