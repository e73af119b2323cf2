//! A law that follows from the clauses of the steps: a function without effect, whose contract is the law.
ghost use Rattle.std.specs.Prelude.{◌+◌, ◌-◌, ◌*◌, ◌<◌, ◌≤◌, ◌==◌, ℕ, List, count_by};
ghost use Rattle.sweep_schedulers.specs.declared.direction.Direction.{Direction};
ghost use Rattle.sweep_schedulers.specs.Heads.{Disk, counted, sweep};
ghost use Rattle.sweep_schedulers.specs.Sweeps.{AtMost, grants_before};
ghost use Rattle.head_c.specs.Meanwhile.{Meanwhile};
ghost use Rattle.head_c.specs.Waits.{Rests};

/// Bounds how long a request waits on C's head, as `sweep_schedulers::laws::a_request_is_granted` does on a `Head`: the
/// number of times that the drive is granted to other requests meanwhile, whatever they ask for.
///
/// - `in_time`: at most `grants_before` times, a number computed from the disk with its due grants counted, the
///   request, and m, the largest number of requests that wait at a time.
/// - `at_most`: at most (2 `cylmax` + 1) (m - 1) times, in any state.
///
/// A step of `Meanwhile` is what the clauses of the calls state: `asks` is an `ask` that returns 1 (wait), `grants` is
/// a `give_back` with the `grant` of the request that it resumes.
pub fn a_request_is_granted()
    ensures in_time { (m p k n : ℕ) (own : Direction) (d : Disk (Unit {0})) (q : ℕ → List ℕ) → Rests d q
        → AtMost m q → k < count_by (λ s. s == p) (q (sweep own)) → Meanwhile m own p d q k n
        → n ≤ grants_before m (counted d (q 0) (q 1)) own p k }
    ensures at_most { (m p k n : ℕ) (own : Direction) (d : Disk (Unit {0})) (q : ℕ → List ℕ) → Rests d q
        → AtMost m q → k < count_by (λ s. s == p) (q (sweep own)) → Meanwhile m own p d q k n
        → n ≤ (2 * d.cylmax + 1) * (m - 1) }
{}
