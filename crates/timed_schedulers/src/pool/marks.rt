//! Marked numbers, as the bits of words: number i has bit i % 64 of word i / 64. So the least number without a mark is
//! found by a scan of at most 16 words, instead of 1,024 entries.
ghost use Rattle.std.specs.Prelude.{◌≡◌, ◌≢◌, ◌<◌, ◌≤◌, ◌/◌, ℕ, length};
ghost use Rattle.timed_schedulers.specs.Marks.{mark_of};

// Returns the least number that isn't marked.
pub(super) fn least_unmarked(words: &[u64]) -> usize
    requires { length words.now ≤ 16 }
    ensures unmarked { mark_of words.now result ≡ 0 }
    ensures least { (i : ℕ) → i < result → mark_of words.now i ≡ 1 }
{
    for j in 0..words.len() {
        if words[j] != u64::MAX {
            return 64 * j + words[j].trailing_ones() as usize;
        }
    }
    64 * words.len()
}

// Marks the number `i`.
pub(super) fn mark(words: &mut Vec<u64>, i: usize)
    requires { i / 64 < length words.old.items }
    ensures length { length words.new.items ≡ length words.old.items }
    ensures marked { mark_of words.new.items i ≡ 1 }
    ensures others { (j : ℕ) → j ≢ i → mark_of words.new.items j ≡ mark_of words.old.items j }
{
    words[i / 64] |= 1 << (i % 64);
}

// Removes the mark of the number `i`.
pub(super) fn unmark(words: &mut Vec<u64>, i: usize)
    requires { i / 64 < length words.old.items }
    ensures length { length words.new.items ≡ length words.old.items }
    ensures unmarked { mark_of words.new.items i ≡ 0 }
    ensures others { (j : ℕ) → j ≢ i → mark_of words.new.items j ≡ mark_of words.old.items j }
{
    words[i / 64] &= !(1 << (i % 64));
}
