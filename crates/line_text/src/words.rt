//! The words of a line, and the numbers that they spell.
ghost use Rattle.std.specs.Prelude.{◌≡◌};
ghost use Rattle.line_text.specs.Words.{begins_well, digits_of, number_of, words_from, words_of};

/// Returns the first word of a line, and what follows the space after it, or `None` if no space follows.
pub fn first_word(line: &[u8]) -> (&[u8], Option<&[u8]>)
    ensures { words_of line.now ≡ words_from result.0 result.1 }
{
    for (i, b) in line.iter().enumerate() {
        if *b == b' ' {
            return (&line[..i], Some(&line[i + 1..]));
        }
    }
    (line, None)
}

// Returns the value of the digits, or `None` if a byte is no digit or the value doesn't fit 64 bits.
fn digits(word: &[u8]) -> Option<u64>
    ensures { result ≡ digits_of word.now }
{
    let mut value: u64 = 0;
    for b in word {
        if *b < b'0' || *b > b'9' {
            return None;
        }
        let Some(tens) = value.checked_mul(10) else {
            return None;
        };
        let Some(more) = tens.checked_add((*b - b'0') as u64) else {
            return None;
        };
        value = more;
    }
    Some(value)
}

// Returns true if the word isn't empty, and begins with 0 only if that is its only byte.
fn begins_well(word: &[u8]) -> bool
    ensures { result ≡ begins_well word.now }
{
    match word {
        [] => false,
        [_] => true,
        [first, ..] => *first != b'0',
    }
}

/// Returns the number that a word spells: `0`, or digits with no leading 0, up to 18446744073709551615. Returns `None`
/// for any other word.
#[tactic(auto, unfolding(crate::specs::Words::number_of))]
pub fn number(word: &[u8]) -> Option<u64>
    ensures { result ≡ number_of word.now }
{
    if begins_well(word) {
        digits(word)
    } else {
        None
    }
}
