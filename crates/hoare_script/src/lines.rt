//! The grammar of a script: how a line spells a header or a command.
ghost use Rattle.std.specs.Prelude.{◌≡◌};
ghost use Rattle.hoare_script.specs.Lines.{command_of, command_of_one, command_of_three, command_of_two, header_of};

use line_text::forms::{three_numbers, two_numbers};
use line_text::words::{first_word, number};
use wait_book::steps::Step;

/// The first line of a script: the number of places, the number of conditions, and how many of these, the last ones,
/// are Mesa conditions.
#[derive(Clone, Copy, Debug, PartialEq, Eq)]
pub struct Header {
    /// The number of places, as the line spells it. A book accepts 1 to 64.
    pub places: u64,
    /// The number of conditions, as the line spells it. A book accepts 1 to 8.
    pub conditions: u64,
    /// How many of the conditions, the last ones, are Mesa conditions. A book accepts at most `conditions`.
    pub mesa: u64,
}

/// What a line after the header asks for.
#[derive(Clone, Copy, Debug, PartialEq, Eq)]
pub enum Command {
    /// A step of a place, which changes the book.
    Do(Step),
    /// A test if a process waits on this condition (Hoare's `queue`).
    Queue(u64),
    /// The priority of the chosen waiter on this condition.
    First(u64),
}

// Returns the command that this word and one number spell, if they spell one.
fn with_one(word: &[u8], first: &[u8]) -> Option<Command>
    ensures { result ≡ command_of_one word.now first.now }
{
    let n = number(first)?;
    if word == b"enter".as_slice() {
        return Some(Command::Do(Step::Enter(n)));
    }
    if word == b"leave".as_slice() {
        return Some(Command::Do(Step::Leave(n)));
    }
    if word == b"queue".as_slice() {
        return Some(Command::Queue(n));
    }
    if word == b"first".as_slice() {
        return Some(Command::First(n));
    }
    None
}

// Returns the command that this word and two numbers spell, if they spell one.
fn with_two(word: &[u8], first: &[u8], second: &[u8]) -> Option<Command>
    ensures { result ≡ command_of_two word.now first.now second.now }
{
    let place = number(first)?;
    let condition = number(second)?;
    if word == b"signal".as_slice() {
        return Some(Command::Do(Step::Signal(place, condition)));
    }
    if word == b"pass".as_slice() {
        return Some(Command::Do(Step::Pass(place, condition)));
    }
    if word == b"notify".as_slice() {
        return Some(Command::Do(Step::Notify(place, condition)));
    }
    if word == b"broadcast".as_slice() {
        return Some(Command::Do(Step::Broadcast(place, condition)));
    }
    None
}

// Returns the command that this word and three numbers spell, if they spell one.
fn with_three(word: &[u8], first: &[u8], second: &[u8], third: &[u8]) -> Option<Command>
    ensures { result ≡ command_of_three word.now first.now second.now third.now }
{
    let place = number(first)?;
    let condition = number(second)?;
    let priority = number(third)?;
    if word == b"wait".as_slice() {
        return Some(Command::Do(Step::Wait(place, condition, priority)));
    }
    None
}

/// Returns the command that a line spells by a word and one to three numbers. Returns `None` if the line has none of
/// the forms of a command. The ranges of the numbers aren't tested here.
#[tactic(auto, unfolding(crate::specs::Lines::command_of))]
pub fn parse_command(line: &[u8]) -> Option<Command>
    ensures { result ≡ command_of line.now }
{
    let (word, rest) = first_word(line);
    let (first, rest) = first_word(rest?);
    let Some(rest) = rest else {
        return with_one(word, first);
    };
    let (second, rest) = first_word(rest);
    let Some(rest) = rest else {
        return with_two(word, first, second);
    };
    let (third, rest) = first_word(rest);
    if let Some(_) = rest {
        return None;
    }
    with_three(word, first, second, third)
}

/// Returns the header that a line spells by `monitor` and two or three numbers. Without a third number no condition is
/// a Mesa condition. Returns `None` if the line has neither form. The ranges of the numbers aren't tested here.
#[tactic(auto, unfolding(crate::specs::Lines::header_of))]
pub fn parse_header(line: &[u8]) -> Option<Header>
    ensures { result ≡ header_of line.now }
{
    if let Some((places, conditions)) = two_numbers(line, b"monitor") {
        return Some(Header {
            places,
            conditions,
            mesa: 0,
        });
    }
    let (places, conditions, mesa) = three_numbers(line, b"monitor")?;
    Some(Header {
        places,
        conditions,
        mesa,
    })
}
