//! The steps of a disk head for C: each function that C calls. `bindings/c/zaulinte_head.h` declares them.
//!
//! A head is four words of C's, all 0 at first. No function has a premise: each returns for every number. None blocks,
//! and none allocates. They decide where a request waits, where the head goes and which condition is signalled; the
//! caller makes the request wait, and signals, by a monitor of its own.
#![tactic(auto)]

ghost use Rattle.std.specs.Prelude.{◌≡◌, ◌≢◌, ◌<◌, ◌≤◌, None, IsSome, ◌⊎◌, ℕ, List, [], slice_index};
ghost use Rattle.std.specs.List.Sorted.{IsNonDecreasing};
ghost use Rattle.hoare_law.specs.Priorities.{joined, nobody, taken};
ghost use Rattle.sweep_schedulers.specs.Heads.{idle, opposite, priority_at, put, sent, sweep, toward, turned};
ghost use Rattle.head_c.specs.Waits.{IsFree, Rests};

mod codes;
pub mod disk_head;
pub mod laws;

use codes::{IS_OUT, NO_ANSWER, NOT_OUT, OFF_DISK};
use disk_head::DiskHead;
use sweep_schedulers::head::Head;

/// Makes a head at cylinder 0 of a disk of the cylinders 0 to `last`, sweeping up, with the drive in, and returns 0.
/// Refused: 116 if `last` is above 65,535; then the head stays as it is.
#[unsafe(no_mangle)]
pub extern "C" fn zaulinte_head_make(head: &mut DiskHead, last: u64) -> u64
    ensures made { last ≤ 65535 → (result ≡ 0) × (head.new ≡ idle tt last) }
    ensures refused { 65535 < last → (result ≡ 116) × (head.new ≡ head.old) }
    ensures rests { result ≡ 0 → Rests head.new nobody }
{
    if last > 65_535 {
        return OFF_DISK;
    }
    *head = DiskHead::of(&Head::with((), last as u16));
    0
}

/// Decides if a request for `cylinder` has to wait. Returns 0 if the drive is in: the request continues at once.
/// Returns 1 if it waits first, on `condition` with `priority`: on 0 for the upsweep, with the cylinder, or on 1 for
/// the downsweep, with the distance of the cylinder from the last one. For the cylinder under the head it waits for the
/// other sweep. Refused: 116 if the cylinder is past the last one. The head isn't changed; `condition` and `priority`
/// are written only if 1 is returned.
#[unsafe(no_mangle)]
pub extern "C" fn zaulinte_head_ask(
    head: &DiskHead,
    cylinder: u64,
    condition: &mut u64,
    priority: &mut u64,
) -> u64
    ensures at_once { cylinder ≤ head.now.cylmax → IsSome head.now.drive
        → (result ≡ 0) × (condition.new ≡ condition.old) × (priority.new ≡ priority.old) }
    ensures waits { cylinder ≤ head.now.cylmax → head.now.drive ≡ None
        → (result ≡ 1) × (condition.new ≡ sweep (toward cylinder head.now))
        × (priority.new ≡ priority_at head.now.cylmax (toward cylinder head.now) cylinder) }
    ensures refused { head.now.cylmax < cylinder
        → (result ≡ 116) × (condition.new ≡ condition.old) × (priority.new ≡ priority.old) }
    ensures joins { (q : ℕ → List ℕ) → Rests head.now q → result ≡ 1
        → Rests head.now (joined q condition.new priority.new) }
{
    let disk = head.head();
    if cylinder > u64::from(disk.cylmax()) {
        return OFF_DISK;
    }
    if !disk.is_busy() {
        return 0;
    }
    let (sweep, urgency) = disk.stop_at(cylinder as u16);
    *condition = sweep as u64;
    *priority = urgency;
    1
}

/// Grants the drive to a request, and returns 0: the drive is out, with the head at `cylinder`. Refused, in this order:
/// 116 if the cylinder is past the last one, 117 if the drive is out already. A refusal changes nothing.
#[unsafe(no_mangle)]
pub extern "C" fn zaulinte_head_grant(head: &mut DiskHead, cylinder: u64) -> u64
    ensures granted { cylinder ≤ head.old.cylmax → IsSome head.old.drive
        → (result ≡ 0) × (head.new ≡ sent head.old cylinder) }
    ensures off_disk { head.old.cylmax < cylinder → (result ≡ 116) × (head.new ≡ head.old) }
    ensures is_out { cylinder ≤ head.old.cylmax → head.old.drive ≡ None
        → (result ≡ 117) × (head.new ≡ head.old) }
    ensures at_once { (q : ℕ → List ℕ) → Rests head.old q → result ≡ 0 → Rests head.new q }
    ensures goes_first { (q : ℕ → List ℕ) → ((i : ℕ) → IsNonDecreasing (q i)) → IsFree head.old q
        → let c = sweep head.old.direction in q c ≢ []
        → slice_index (q c) 0 ≡ priority_at head.old.cylmax head.old.direction cylinder
        → result ≡ 0 → Rests head.new (taken q c) }
{
    let mut disk = head.head();
    if cylinder > u64::from(disk.cylmax()) {
        return OFF_DISK;
    }
    if disk.take().is_none() {
        return IS_OUT;
    }
    disk.go(cylinder as u16);
    head.keep(&disk);
    0
}

/// Returns the condition of the present sweep: 0 up, 1 down.
#[unsafe(no_mangle)]
pub extern "C" fn zaulinte_head_sweep(head: &DiskHead) -> u64
    ensures { result ≡ sweep head.now.direction }
{
    head.head().sweep() as u64
}

/// Puts the drive back in, and returns 0: the caller then signals `condition`. `waits` is 1 if a request waits for the
/// present sweep, else 0; at 0 the head turns. Refused, in this order: 119 if `waits` is neither, 118 if the drive
/// isn't out. A refusal changes nothing.
#[unsafe(no_mangle)]
pub extern "C" fn zaulinte_head_give_back(
    head: &mut DiskHead,
    waits: u64,
    condition: &mut u64,
) -> u64
    ensures keeps { waits ≡ 1 → head.old.drive ≡ None → (result ≡ 0) × (head.new ≡ put head.old tt)
        × (condition.new ≡ sweep head.old.direction) }
    ensures turns { waits ≡ 0 → head.old.drive ≡ None → (result ≡ 0) × (head.new ≡ turned (put head.old tt))
        × (condition.new ≡ sweep (opposite head.old.direction)) }
    ensures no_answer { 1 < waits → (result ≡ 119) × (head.new ≡ head.old) × (condition.new ≡ condition.old) }
    ensures not_out { waits ≤ 1 → IsSome head.old.drive
        → (result ≡ 118) × (head.new ≡ head.old) × (condition.new ≡ condition.old) }
    ensures is_free { (q : ℕ → List ℕ) → Rests head.old q → result ≡ 0 → IsFree head.new q }
    ensures resumes { (q : ℕ → List ℕ) → (waits ≡ 1 → q (sweep head.old.direction) ≢ [])
        → (waits ≡ 0 → q (sweep head.old.direction) ≡ []) → q 0 ≢ [] ⊎ q 1 ≢ []
        → result ≡ 0 → q condition.new ≢ [] }
    ensures rests { (q : ℕ → List ℕ) → Rests head.old q → q 0 ≡ [] → q 1 ≡ [] → result ≡ 0
        → Rests head.new q }
{
    if waits > 1 {
        return NO_ANSWER;
    }
    let mut disk = head.head();
    if !disk.is_busy() {
        return NOT_OUT;
    }
    disk.put(());
    if waits == 0 {
        disk.turn();
    }
    *condition = disk.sweep() as u64;
    head.keep(&disk);
    0
}
