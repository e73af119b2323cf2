//! The result of a named call.

/// How a call ended.
#[derive(Clone, Copy)]
pub enum Answer {
    /// As it ends if there is memory.
    Made,
    /// Out of memory. What was passed in came back, and nothing was written.
    Memory,
    /// A thread couldn't be started. Nothing was written.
    Spawn,
    /// What the call needs couldn't be made.
    Unprepared,
    /// No call has this name.
    Unknown,
    /// In a way in which it may not end.
    Wrong,
}

impl Answer {
    ghost use Rattle.std.specs.Prelude.{◌≡◌, if◌then◌else◌};
    ghost use Rattle.refused_memory.specs.declared.answer.Answer.TheVariants as answers;

    /// Returns `Memory` if `clean`, which says that nothing was lost or written; else `Wrong`.
    pub fn memory_if(clean: bool) -> Answer
        ensures { result ≡ (if clean then answers.Memory else answers.Wrong) }
    {
        if clean { Answer::Memory } else { Answer::Wrong }
    }

    /// Returns the line that is printed.
    pub fn text(self) -> &'static str {
        match self {
            Answer::Made => "made",
            Answer::Memory => "no memory",
            Answer::Spawn => "no thread",
            Answer::Unprepared => "nothing to call it with",
            Answer::Unknown => "no such name",
            Answer::Wrong => "wrong",
        }
    }
}
