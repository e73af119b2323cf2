//! The waiting priorities of a monitor, as code reads them.
ghost use Rattle.std.specs.Prelude.{◌≡◌, ◌≢◌, ◌<◌, ◌≤◌, ◌-◌, ◌^◌, ℕ, List, [], length, slice_index};
ghost use Rattle.hoare_law.specs.Priorities.{joined, taken};
ghost use Rattle.std.specs.List.Sorted.{IsNonDecreasing};

/// The priorities of the processes that wait on each condition, in the order in which signals would resume them: the
/// least first, and equal ones by time of waiting (Hoare 1974, Scheduled Waits).
pub trait Waits {
    /// The waiting priorities: for each number the list of the condition with that number, or the empty list if there
    /// is none.
    ghost waiting_priorities: { Self → ℕ → List ℕ };

    /// Returns how many processes wait on the condition, or 0 if there is no such condition.
    fn count(&self, condition: usize) -> usize
        ensures { result ≡ length (waiting_priorities self.now condition) };

    /// Returns the priority of the `i`-th process that waits on the condition, counted from 0 in the order of the list.
    /// The caller must know that more than `i` processes wait on it.
    fn priority(&self, condition: usize, i: usize) -> u64
        requires { i < length (waiting_priorities self.now condition) }
        ensures { result ≡ slice_index (waiting_priorities self.now condition) i };

    /// The priorities of each condition rise, so the first is that of the process that a signal would resume.
    ghost rise: { (w : Self) (c : ℕ) → IsNonDecreasing (waiting_priorities w c) };
}

/// The waiting priorities when no process waits.
#[derive(Clone, Copy, Debug, PartialEq, Eq)]
pub struct Nobody;

impl Waits for Nobody {
    ghost use Rattle.std.specs.Prelude.{◌<◌, ◌≤◌};
    ghost use Rattle.std.proofs.Common.{arith};
    ghost use Rattle.hoare_law.specs.Priorities.{nobody};

    ghost waiting_priorities = { λ _. nobody };

    fn count(&self, _condition: usize) -> usize {
        0
    }

    // No caller can meet the trait's precondition, since no process waits.
    fn priority(&self, _condition: usize, i: usize) -> u64
        ensures { result ≡ slice_index (nobody _condition) i }
    {
        0
    }

    ghost rise = { λ w c i j d below h. absurd (Prim.omega arith) };
}

/// The lists with one more process: its priority is joined to those of a condition. With them code can test what a wait
/// requires.
#[derive(Drop)]
pub struct Joined<'a, W: Waits> {
    lists: &'a W,
    condition: usize,
    priority: u64,
    ghost room: { length (W.waiting_priorities lists.now condition) < 2 ^ 64 - 1 },
}

impl<'a, W: Waits> Joined<'a, W> {
    /// Creates the lists with `priority` put in its rising place among those of `condition`. The caller must know that
    /// fewer than `usize::MAX` processes wait on it.
    pub fn of(lists: &'a W, condition: usize, priority: u64) -> Joined<'a, W>
        requires { length (W.waiting_priorities lists.now condition) < 2 ^ 64 - 1 }
        ensures { ⟦<Joined<'a, W> as Waits>⟧.waiting_priorities result
            ≡ joined (W.waiting_priorities lists.now) condition priority }
    {
        Joined {
            lists,
            condition,
            priority,
        }
    }
}

impl<'a, W: Waits> Waits for Joined<'a, W> {
    ghost use Rattle.hoare_law.specs.Priorities.{joined};

    ghost waiting_priorities = { λ j. joined (W.waiting_priorities j.lists.now) j.condition
        j.priority };

    #[tactic(auto, using(crate::proofs::Joined::joined_steps))]
    fn count(&self, condition: usize) -> usize {
        let count = self.lists.count(condition);
        if condition == self.condition {
            count + 1
        } else {
            count
        }
    }

    #[tactic(auto, using(crate::proofs::Joined::joined_steps))]
    fn priority(&self, condition: usize, i: usize) -> u64 {
        if condition != self.condition {
            return self.lists.priority(condition, i);
        }
        for j in 0..i {
            if self.lists.priority(condition, j) > self.priority {
                return self.lists.priority(condition, i - 1);
            }
        }
        if i < self.lists.count(condition) {
            let next = self.lists.priority(condition, i);
            if next <= self.priority {
                return next;
            }
        }
        self.priority
    }

    ghost use Rattle.hoare_law.specs.Internal.Rising.{IsNonDecreasing-joined};

    ghost rise = { λ j c. IsNonDecreasing-joined (W.waiting_priorities j.lists.now) j.condition
        j.priority c (W.rise j.lists.now c) };
}

/// The lists without one process: the first of a condition. With them code can test what a signal requires.
#[derive(Drop)]
pub struct Taken<'a, W: Waits> {
    lists: &'a W,
    condition: usize,
    ghost some: { W.waiting_priorities lists.now condition ≢ [] },
}

impl<'a, W: Waits> Taken<'a, W> {
    /// Creates the lists without the first process of `condition`. The caller must know that a process waits on it.
    pub fn of(lists: &'a W, condition: usize) -> Taken<'a, W>
        requires { W.waiting_priorities lists.now condition ≢ [] }
        ensures { ⟦<Taken<'a, W> as Waits>⟧.waiting_priorities result
            ≡ taken (W.waiting_priorities lists.now) condition }
    {
        Taken { lists, condition }
    }
}

impl<'a, W: Waits> Waits for Taken<'a, W> {
    ghost use Rattle.hoare_law.specs.Priorities.{taken};

    ghost waiting_priorities = { λ t. taken (W.waiting_priorities t.lists.now) t.condition };

    fn count(&self, condition: usize) -> usize {
        let count = self.lists.count(condition);
        if condition == self.condition {
            count - 1
        } else {
            count
        }
    }

    fn priority(&self, condition: usize, i: usize) -> u64 {
        if condition == self.condition {
            let _count = self.lists.count(condition); // a 64-bit number, so i + 1 doesn't overflow
            self.lists.priority(condition, i + 1)
        } else {
            self.lists.priority(condition, i)
        }
    }

    ghost use Rattle.hoare_law.specs.Internal.Rising.{IsNonDecreasing-taken};

    ghost rise = { λ t c. IsNonDecreasing-taken (W.waiting_priorities t.lists.now) t.condition c
        (W.rise t.lists.now c) };
}
