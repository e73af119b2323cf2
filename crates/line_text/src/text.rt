//! A text that is put together from words and numbers, in a fixed room.
ghost use Rattle.std.specs.Prelude.{◌≡◌, ◌+◌, ◌≤◌, ◌++◌, length, decimal};

use arrayvec::ArrayVec;
use itoa::Buffer;

/// The most bytes that a text may have.
pub const LONGEST_TEXT: usize = 320;

/// A text of at most `LONGEST_TEXT` bytes: a line with what is added to it.
pub type Text = ArrayVec<u8, LONGEST_TEXT>;

/// Appends `bytes` to the text. The caller must know that they fit.
pub fn append(text: &mut Text, bytes: &[u8])
    requires { length text.old.items + length bytes.now ≤ LONGEST_TEXT }
    ensures { text.new.items ≡ text.old.items ++ bytes.now }
{
    let _ = text.try_extend_from_slice(bytes);
}

/// Appends `number` in plain decimal. The text may have at most 280 bytes before; at most 40 are added.
pub fn append_number(text: &mut Text, number: u64)
    requires { length text.old.items ≤ 280 }
    ensures value { text.new.items ≡ text.old.items ++ decimal number }
    ensures bound { length text.new.items ≤ length text.old.items + 40 }
{
    let mut buffer = Buffer::new();
    append(text, buffer.format(number).as_bytes());
}
