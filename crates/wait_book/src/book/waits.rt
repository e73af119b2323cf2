//! The waiting priorities of a book, as the trait `Waits` gives them to code.
ghost use Rattle.std.specs.Prelude.{◌≡◌, ◌<◌, ℕ, length, slice_index};

use super::Book;
use crate::queues::nth_priority;
use hoare_law::waits::Waits;

impl Waits for Book {
    ghost use Rattle.std.specs.Prelude.{◌≡◌, ◌<◌, ℕ, length, map};
    ghost use Rattle.hoare_law.specs.declared.event.History.{History};
    ghost use Rattle.hoare_law.specs.Priorities.{priorities};
    ghost use Rattle.wait_book.specs.declared.waiter.Waiter.{Waiter};
    ghost use Rattle.wait_book.specs.Contents.{IsOf, priorities_on, waiters_on};
    ghost use Rattle.hoare_law.proofs.Sorted.{IsNonDecreasing-in_order};

    ghost waiting_priorities = { priorities_on };

    fn count(&self, condition: usize) -> usize
        ensures lists { result ≡ length (priorities_on self.now condition) }
        ensures of { (h : History (Unit {0})) → IsOf self.now h
            → priorities_on self.now condition ≡ priorities h.events condition }
    {
        if condition >= self.sizes.conditions {
            return 0;
        }
        self.chains.on(condition).count()
    }

    fn priority(&self, condition: usize, i: usize) -> u64 {
        let Some(priority) = nth_priority(&self.chains, condition, i) else {
            unreachable!();
        };
        priority
    }

    ghost rise = { λ w c. IsNonDecreasing-in_order
        (map (λ (v : Waiter). v.priority) (waiters_on c w)) };
}
