//! Uses of lists that are put together, and of the laws; and what the definitions of overtaking count, by hand.
ghost use Rattle.std.specs.Prelude.{◌≡◌, ◌∷◌, List, [], ⊤};
ghost use Rattle.hoare_law.specs.declared.event.Event.{Event};
ghost use Rattle.hoare_law.specs.declared.event.Event.TheVariants.{Wait, Signal, Pass, Leave, Resume, Back, Notify};
ghost use Rattle.hoare_law.specs.Sizes.{sizes_of};
ghost use Rattle.hoare_law.specs.Overtaking.{releases, returned, signals, resumed_called, taken_from};
ghost use Rattle.hoare_law.specs.Overtaking.{waits_below, waiters_up_to, visits, notifications, waiting_anywhere};

use hoare_law::laws;
use hoare_law::waits::{Joined, Nobody, Taken, Waits};

#[test]
fn lists_are_put_together(rt: HostRuntime) {
    let joined = Joined::of(&Nobody, 1, 5);
    assert!(rt; joined.count(1) == 1 && joined.priority(1, 0) == 5);
    assert!(rt; Taken::of(&joined, 1).count(1) == 0);
}

// What the definitions of overtaking count in three lists written by hand. The first is after a signal of place 1,
// which resumes place 2 from condition 0. The second is after a notify by place 3 on the Mesa condition 1. The third is
// a list of three waits and a notify.
fn counts_by_hand()
    ensures after_a_signal { let later : List (Event ⊤) = Resume 2 0 tt ∷ Wait 2 0 5 tt ∷ Back 1 tt
        ∷ Pass 1 0 2 tt ∷ Resume 2 0 tt ∷ Leave 2 tt ∷ [] in
        (releases later ≡ 2) × (returned later ≡ 1 ∷ []) × (visits later ≡ 3) × (notifications later ≡ 0)
        × (signals later ≡ 0) × (taken_from 0 later ≡ 1) × (taken_from 1 later ≡ 0) × (waits_below 0 6 later ≡ 1)
        × (waits_below 0 5 later ≡ 0) × (waits_below 1 6 later ≡ 0) × (resumed_called (sizes_of 2 1 4) later ≡ []) }
    ensures after_a_notify { let later : List (Event ⊤) = Leave 3 tt ∷ Resume 2 1 tt ∷ Signal 2 0 1 tt
        ∷ Resume 1 0 tt ∷ Leave 1 tt ∷ Back 2 tt ∷ [] in
        (releases later ≡ 2) × (resumed_called (sizes_of 2 1 4) later ≡ 2 ∷ [])
        × (resumed_called (sizes_of 2 0 4) later ≡ []) × (signals later ≡ 1) × (returned later ≡ 2 ∷ [])
        × (visits later ≡ 3) }
    ensures waiters { let h : List (Event ⊤) = Wait 0 0 4 tt ∷ Wait 1 1 2 tt ∷ Wait 2 0 3 tt ∷ Notify 3 1 1 tt ∷ [] in
        (waiting_anywhere h ≡ Wait 0 0 4 tt ∷ Wait 2 0 3 tt ∷ []) × (notifications h ≡ 1)
        × (waiters_up_to 0 3 h ≡ 1) × (waiters_up_to 0 4 h ≡ 2) × (waiters_up_to 0 2 h ≡ 0)
        × (waiters_up_to 1 9 h ≡ 0) }
{}

// A run shows only that these calls return. What the laws say is in their clauses.
#[test]
fn laws_can_be_used() {
    laws::nothing_intervenes::<u8>();
    laws::admitted_from_outside::<u8>();
    laws::entering_last::<u8>();
    laws::releases_until_return::<u8>();
    laws::waiters_taken_in_turn::<u8>();
    laws::between_mesa_wait_and_resume::<u8>();
    counts_by_hand();
}
