//! A monitor's data, with the assertions of its author: the invariant, what holds at rest, and what a resumed process
//! finds.
ghost use Rattle.std.specs.Prelude.{◌≡◌, ◌<◌, ◌↔◌, ℕ, List, IsTrue};

use crate::waits::Waits;

/// The data of a monitor, with the assertions of its author: the invariant, `rest` and `ready` (Hoare 1974,
/// Introduction).
///
/// `rest` holds at each wait and each leave. `ready` holds for a process that waited on one of Hoare's conditions with
/// a priority, when a signal resumes it; the waiting priorities are then those without that process. A process that
/// waited on a Mesa condition finds `rest` when it resumes.
///
/// In Hoare's own rules neither looks at the priorities, `rest` is the invariant, and `ready` is the invariant and the
/// condition's assertion.
pub trait MonitorData {
    /// Number of conditions, which are numbered from 0. A monitor can be made with 1 to 8.
    const CONDITIONS: usize;

    /// Ghost copy of the constant `CONDITIONS`, for contracts.
    ghost CONDITIONS: { ℕ };

    /// Number of Mesa conditions. They are the last of the `CONDITIONS`; the others are Hoare's.
    const MESA: usize;

    /// Ghost copy of the constant `MESA`, for contracts.
    ghost MESA: { ℕ };

    /// The invariant: what holds of the data at each wait, at each leave, and when a signal resumes a waiter, since
    /// `rest` and `ready` imply it.
    ghost inv: { Self → Type 0 };

    /// What holds of the data and the waiting priorities at each wait and each leave.
    ghost rest: { Self → (ℕ → List ℕ) → Type 0 };

    /// What a process that waited on a condition with a priority finds when it is resumed: the data, and the waiting
    /// priorities without that process.
    ghost ready: { ℕ → ℕ → Self → (ℕ → List ℕ) → Type 0 };

    /// Returns true if `rest` holds of the data and these waiting priorities.
    fn rest_holds<W: Waits>(&self, lists: &W) -> bool
        ensures { IsTrue result ↔ rest self.now (W.waiting_priorities lists.now) };

    /// Returns true if `ready` holds for `condition`, which is in range, and `priority`, of the data and these waiting
    /// priorities.
    fn ready_holds<W: Waits>(&self, condition: usize, priority: u64, lists: &W) -> bool
        requires { condition < CONDITIONS }
        ensures { IsTrue result
            ↔ ready condition priority self.now (W.waiting_priorities lists.now) };

    /// If `rest` holds of the data, so does the invariant.
    ghost rest_inv: { (s : Self) (q : ℕ → List ℕ) → rest s q → inv s };

    /// If `ready` holds of the data, so does the invariant.
    ghost ready_inv: { (c p : ℕ) (s : Self) (q : ℕ → List ℕ) → ready c p s q → inv s };
}
