//! The spelling of commands, lanes and answers.
use crate::monitor::Lane;
use arrayvec::ArrayVec;
use hoare_script::answers::{Answer, answer_line};
use hoare_script::lines::{Command, Header};
use std::io::Write;
use wait_book::steps::Step;

/// Room for the longest of these texts.
pub type Text = ArrayVec<u8, 128>;

/// Returns the line that spells a header.
pub fn header_text(header: Header) -> Text {
    let mut text = ArrayVec::new();
    let _ = write!(text, "monitor {} {}", header.places, header.conditions);
    if header.mesa > 0 {
        let _ = write!(text, " {}", header.mesa);
    }
    text
}

/// Returns the line that spells a command.
pub fn command_text(command: Command) -> Text {
    match command {
        Command::Do(Step::Enter(place)) => spelled("enter", &[place]),
        Command::Do(Step::Wait(place, condition, priority)) => {
            spelled("wait", &[place, condition, priority])
        }
        Command::Do(Step::Signal(place, condition)) => spelled("signal", &[place, condition]),
        Command::Do(Step::Pass(place, condition)) => spelled("pass", &[place, condition]),
        Command::Do(Step::Leave(place)) => spelled("leave", &[place]),
        Command::Do(Step::Notify(place, condition)) => spelled("notify", &[place, condition]),
        Command::Do(Step::Broadcast(place, condition)) => spelled("broadcast", &[place, condition]),
        Command::Queue(condition) => spelled("queue", &[condition]),
        Command::First(condition) => spelled("first", &[condition]),
    }
}

// Returns a word, followed by numbers after single spaces.
fn spelled(word: &str, numbers: &[u64]) -> Text {
    let mut text = ArrayVec::new();
    let _ = write!(text, "{word}");
    for number in numbers {
        let _ = write!(text, " {number}");
    }
    text
}

/// Returns what a lane shows: `.`, `[in]`, `sig`, `called N` for the N-th of the notified processes, or `cC:P` for a
/// wait on condition C with priority P.
pub fn lane_text(lane: Lane) -> Text {
    let mut text = ArrayVec::new();
    let _ = match lane {
        Lane::Outside => write!(text, "."),
        Lane::Inside => write!(text, "[in]"),
        Lane::Signalling => write!(text, "sig"),
        Lane::Called(number) => write!(text, "called {number}"),
        Lane::Waiting(condition, priority) => write!(text, "c{condition}:{priority}"),
    };
    text
}

/// Returns the spelling of a place's number.
pub fn place_text(place: usize) -> Text {
    let mut text = ArrayVec::new();
    let _ = write!(text, "{place}");
    text
}

/// Returns how many places are idle, or an empty text if there are none.
pub fn idle_text(idle: u64) -> Text {
    let mut text = ArrayVec::new();
    if idle > 0 {
        let _ = write!(text, "({idle} idle)");
    }
    text
}

/// Returns what a row shows beside its lanes: `-> ANSWER`, and why a step is refused. The text is empty if a place is
/// inside, since the lanes show that.
pub fn remark_text(answer: Answer) -> Text {
    let mut text = ArrayVec::new();
    if let Answer::Inside(_) = answer {
        return text;
    }
    let line = answer_line(b"", answer);
    let _ = text.try_extend_from_slice(line.as_slice().trim_ascii());
    if let Answer::Refused(refused) = answer {
        let _ = write!(text, " ({refused})");
    }
    text
}
