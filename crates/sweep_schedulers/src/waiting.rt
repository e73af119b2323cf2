//! Tests of the priorities that wait on a condition. They rise: so the first and the last give the bounds of all, and
//! equal priorities are next to each other.
ghost use Rattle.std.specs.Prelude.{◌≡◌, ◌==◌, ◌≤◌, ◌↔◌, IsTrue, All, count_by};

use hoare_law::waits::Waits;

// Returns true if no priority that waits on `condition` is below `least`.
pub(crate) fn none_below<W: Waits>(lists: &W, condition: usize, least: u64) -> bool
    ensures { IsTrue result ↔ All (λ p. least ≤ p) (W.waiting_priorities lists.now condition) }
{
    lists.count(condition) == 0 || least <= lists.priority(condition, 0)
}

// Returns true if no priority that waits on `condition` is above `most`.
pub(crate) fn none_above<W: Waits>(lists: &W, condition: usize, most: u64) -> bool
    ensures { IsTrue result ↔ All (λ p. p ≤ most) (W.waiting_priorities lists.now condition) }
{
    let count = lists.count(condition);
    count == 0 || lists.priority(condition, count - 1) <= most
}

// Returns how many priorities that wait on `condition` equal `priority`.
pub(crate) fn count_equal<W: Waits>(lists: &W, condition: usize, priority: u64) -> usize
    ensures { result ≡ count_by (λ q. q == priority) (W.waiting_priorities lists.now condition) }
{
    let mut equal = 0;
    for i in 0..lists.count(condition) {
        let next = lists.priority(condition, i);
        if next > priority {
            return equal;
        }
        if next == priority {
            equal += 1;
        }
    }
    equal
}
