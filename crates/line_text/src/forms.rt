//! Lines of a fixed form: a word, and one to three numbers.
ghost use Rattle.std.specs.Prelude.{◌≡◌};
ghost use Rattle.line_text.specs.Forms.{one_number, three_numbers, two_numbers};

use crate::words::{first_word, number};

/// Returns the number of a line that is `word` and a number, with single spaces between; `None` for any other line.
#[tactic(auto, unfolding(crate::specs::Forms::one_number))]
pub fn one_number(line: &[u8], word: &[u8]) -> Option<u64>
    ensures { result ≡ one_number word.now line.now }
{
    let (named, rest) = first_word(line);
    let (first, rest) = first_word(rest?);
    if let Some(_) = rest {
        return None;
    }
    if named != word {
        return None;
    }
    number(first)
}

/// Returns the two numbers of a line that is `word` and two numbers, with single spaces between; `None` for any other
/// line.
#[tactic(auto, unfolding(crate::specs::Forms::two_numbers))]
pub fn two_numbers(line: &[u8], word: &[u8]) -> Option<(u64, u64)>
    ensures { result ≡ two_numbers word.now line.now }
{
    let (named, rest) = first_word(line);
    let (first, rest) = first_word(rest?);
    let (second, rest) = first_word(rest?);
    if let Some(_) = rest {
        return None;
    }
    if named != word {
        return None;
    }
    let first = number(first)?;
    let second = number(second)?;
    Some((first, second))
}

/// Returns the three numbers of a line that is `word` and three numbers, with single spaces between; `None` for any
/// other line.
#[tactic(auto, unfolding(crate::specs::Forms::three_numbers))]
pub fn three_numbers(line: &[u8], word: &[u8]) -> Option<(u64, u64, u64)>
    ensures { result ≡ three_numbers word.now line.now }
{
    let (named, rest) = first_word(line);
    let (first, rest) = first_word(rest?);
    let (second, rest) = first_word(rest?);
    let (third, rest) = first_word(rest?);
    if let Some(_) = rest {
        return None;
    }
    if named != word {
        return None;
    }
    let first = number(first)?;
    let second = number(second)?;
    let third = number(third)?;
    Some((first, second, third))
}
