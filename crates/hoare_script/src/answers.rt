//! The answers to commands, and how they are spelled.
ghost use Rattle.std.specs.Prelude.{◌≡◌, ◌+◌, ◌≤◌, ◌++◌, length, decimal};
ghost use Rattle.hoare_script.specs.Answers.{answer_line, outcome_answer, refusal_number, text_of};

use arrayvec::ArrayVec;
use line_text::text::{Text, append, append_number};
use wait_book::steps::{Next, StepRefused};

/// The answer to a command.
#[derive(Clone, Copy, Debug, PartialEq, Eq)]
pub enum Answer {
    /// The monitor is free after the step.
    Free,
    /// This place is inside after the step.
    Inside(usize),
    /// True if a process waits on the condition.
    Waiting(bool),
    /// No process waits on the condition, so there is no priority.
    Nobody,
    /// The priority of the chosen waiter on the condition: the waiter that a signal would resume, or, on a Mesa
    /// condition, a notify would notify.
    Priority(u64),
    /// The command is refused, and changes nothing.
    Refused(StepRefused),
}

/// Returns the answer to a step of the book with this outcome. A place to which the monitor is handed counts as inside.
pub fn outcome_answer(outcome: Result<Next, StepRefused>) -> Answer
    ensures { result ≡ outcome_answer outcome }
{
    match outcome {
        Ok(Next::Free) => Answer::Free,
        Ok(Next::Held(place)) => Answer::Inside(place),
        Ok(Next::For(place)) => Answer::Inside(place),
        Err(refused) => Answer::Refused(refused),
    }
}

fn refusal_number(refused: StepRefused) -> u64
    ensures { result ≡ refusal_number refused }
{
    match refused {
        StepRefused::NoPlace => 1,
        StepRefused::NotFree => 2,
        StepRefused::NotOutside => 3,
        StepRefused::NotInside => 4,
        StepRefused::NoCondition => 5,
        StepRefused::WrongKind => 6,
    }
}

fn append_answer(text: &mut Text, answer: Answer)
    requires { length text.old.items ≤ 260 }
    ensures value { text.new.items ≡ text.old.items ++ text_of answer }
    ensures bound { length text.new.items ≤ length text.old.items + 48 }
{
    match answer {
        Answer::Free => append(text, b"free"),
        Answer::Inside(place) => append_number(text, place as u64),
        Answer::Waiting(true) => append(text, b"true"),
        Answer::Waiting(false) => append(text, b"false"),
        Answer::Nobody => append(text, b"none"),
        Answer::Priority(priority) => append_number(text, priority),
        Answer::Refused(refused) => {
            append(text, b"refused ");
            append_number(text, refusal_number(refused));
        }
    }
}

/// Returns what is written for a command: its line, ` -> `, the answer, and byte 10. The caller must prove that the
/// line has at most 256 bytes.
pub fn answer_line(line: &[u8], answer: Answer) -> Text
    requires { length line.now ≤ 256 }
    ensures { result.items ≡ answer_line line.now answer }
{
    let mut text = ArrayVec::new();
    append(&mut text, line);
    append(&mut text, b" -> ");
    append_answer(&mut text, answer);
    append(&mut text, b"\n");
    text
}
