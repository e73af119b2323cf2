//! What follows from the rules of legal histories. Each function does nothing; its contract is a law.
ghost use Rattle.std.specs.Prelude.{◌≡◌, ◌≢◌, ◌≤◌, ◌<◌, ◌+◌, ◌*◌, ◌↔◌, ◌++◌, ◌∷◌, ℕ, List, [], All, IsTrue, Some};
ghost use Rattle.std.specs.Prelude.{None, true};
ghost use Rattle.std.specs.Prelude.{false, length, map};
ghost use Rattle.hoare_law.specs.declared.event.Event.{Event};
ghost use Rattle.hoare_law.specs.declared.event.History.{History};
ghost use Rattle.hoare_law.specs.declared.event.Event.TheVariants.{Admit, Wait, Signal, Pass, Resume, Back, Notify};
ghost use Rattle.hoare_law.specs.declared.event.Event.TheVariants.{Broadcast, SignalTo};
ghost use Rattle.hoare_law.specs.declared.turn.Turn.TheVariants.{Free, Held, Owed, Return};
ghost use Rattle.hoare_law.specs.Events.{place_of, own, newest, latest_data, with_event};
ghost use Rattle.hoare_law.specs.Sizes.{IsHoare, IsMesa};
ghost use Rattle.hoare_law.specs.Waiting.{priority_of, condition_of, waits_on, is_untouched, waiting, chosen};
ghost use Rattle.hoare_law.specs.Priorities.{in_order};
ghost use Rattle.hoare_law.specs.Called.{called};
ghost use Rattle.hoare_law.specs.Turns.{turn, is_signal, urgent, inside, outside};
ghost use Rattle.hoare_law.specs.Legal.{Allowed, IsLegal};
ghost use Rattle.hoare_law.specs.Growth.{Begins, AddsTwo};
ghost use Rattle.hoare_law.specs.Admissions.{admissions};
ghost use Rattle.hoare_law.specs.Overtaking.{with_events, releases, returned, signals, resumed_called, taken_from};
ghost use Rattle.hoare_law.specs.Overtaking.{signals_to, waits_below, waiters_up_to, visits, notifications};
ghost use Rattle.hoare_law.specs.Overtaking.{waiting_anywhere};
ghost use Rattle.hoare_law.specs.MesaWaits.{MesaWait};

/// After each beginning of a legal history at most one place is inside, by its own last event. After a legal history it
/// is then that place's turn, and a place whose turn it is isn't outside too (Hoare 1974, Introduction).
pub fn one_is_inside<S>()
    ensures one { (h : History S) (f later : List (Event S)) (j k : ℕ) → IsLegal h
        → h.events ≡ f ++ later → inside j f ≡ true → inside k f ≡ true → j ≡ k }
    ensures turn { (h : History S) (k : ℕ) → IsLegal h → inside k h.events ≡ true
        → turn h.events ≡ Held k }
    ensures its_turn { (h : List (Event S)) (k : ℕ) → turn h ≡ Held k → inside k h ≡ true }
    ensures not_outside { (h : List (Event S)) (k : ℕ) → turn h ≡ Held k → outside k h ≡ false }
{}

/// After a signal the resumed process continues at once: no third process comes between, and it finds the data as the
/// signaller left them (Hoare 1974, Introduction).
pub fn nothing_intervenes<S>()
    ensures signal { (h : History S) (k c w : ℕ) (s : S) (e : Event S)
        → Allowed (with_event h (Signal k c w s)) e → e ≡ Resume w c s }
    ensures pass { (h : History S) (k c w : ℕ) (s : S) (e : Event S)
        → Allowed (with_event h (Pass k c w s)) e → e ≡ Resume w c s }
    ensures signal_to { (h : History S) (k c w : ℕ) (s : S) (e : Event S)
        → Allowed (with_event h (SignalTo k c w s)) e → e ≡ Resume w c s }
{}

/// A process enters only if no signaller waits to return (Hoare 1974, Interpretation), and no notified process has yet
/// to resume.
pub fn entering_last<S>()
    ensures signallers { (h : History S) (k : ℕ) (s : S) → Allowed h (Admit k s)
        → urgent h.events ≡ [] }
    ensures called { (h : History S) (k : ℕ) (s : S) → Allowed h (Admit k s)
        → called h.events ≡ [] }
{}

/// A notified process resumes only if no signaller waits to return, and the notified processes resume in the order of
/// their notifications.
pub fn signallers_before_called<S>()
    ensures signallers { (h : History S) (k c : ℕ) (s : S) → IsLegal h
        → IsMesa h.sizes.conditions h.sizes.mesa c → Allowed h (Resume k c s) → urgent h.events ≡ [] }
    ensures first { (h : History S) (k c : ℕ) (s : S) → IsLegal h
        → IsMesa h.sizes.conditions h.sizes.mesa c → Allowed h (Resume k c s)
        → (x : Event S) × (later : List (Event S)) × (called h.events ≡ x ∷ later)
        × (place_of x ≡ k) × (condition_of x ≡ c) }
{}

/// After a notify or a broadcast the next event is one of the same place.
pub fn caller_goes_on<S>()
    ensures notify { (h : History S) (k c w : ℕ) (s : S) (e : Event S)
        → Allowed (with_event h (Notify k c w s)) e → place_of e ≡ k }
    ensures broadcast { (h : History S) (k c : ℕ) (s : S) (e : Event S)
        → Allowed (with_event h (Broadcast k c s)) e → place_of e ≡ k }
{}

/// A notified process waits nowhere. Its entry is a wait on a Mesa condition and is its place's last event, and no list
/// of waiters has its place.
pub fn called_wait_nowhere<S>()
    ensures { (h : History S) → IsLegal h → All (λ x.
        (newest (own (place_of x) h.events) ≡ Some x)
        × (IsTrue (waits_on (condition_of x) x))
        × IsMesa h.sizes.conditions h.sizes.mesa (condition_of x)
        × ((d : ℕ) → All (λ y. place_of x ≢ place_of y) (waiting d h.events))) (called h.events) }
{}

/// A notify adds the waiter that a signal would have resumed to the end of the notified processes. A broadcast adds all
/// waiters on the condition, in the order in which signals would have resumed them.
pub fn called_in_turn<S>()
    ensures notify { (h : History S) (k c w : ℕ) (s : S) → IsLegal h → Allowed h (Notify k c w s)
        → (x : Event S) × (chosen c h.events ≡ Some x) × (place_of x ≡ w)
        × (called (with_event h (Notify k c w s)).events ≡ called h.events ++ x ∷ []) }
    ensures broadcast { (h : History S) (k c : ℕ) (s : S) → IsLegal h → Allowed h (Broadcast k c s)
        → called (with_event h (Broadcast k c s)).events
        ≡ called h.events ++ in_order priority_of (waiting c h.events) }
{}

/// An admitted process was outside, and the turn was free: no process was inside (Hoare 1974, Introduction).
pub fn admitted_from_outside<S>()
    ensures outside { (h : History S) (k : ℕ) (s : S) → Allowed h (Admit k s)
        → outside k h.events ≡ true }
    ensures free { (h : History S) (k : ℕ) (s : S) → Allowed h (Admit k s) → turn h.events ≡ Free }
{}

/// A signal resumes a waiter of least priority, and of equal priorities the longest waiting (Hoare 1974, Scheduled
/// Waits). It resumes no waiter only if no process waits on the condition.
pub fn least_is_chosen<S>()
    ensures least { (c : ℕ) (h : List (Event S)) (x : Event S) → chosen c h ≡ Some x
        → All (λ y. priority_of x ≤ priority_of y) (waiting c h) }
    ensures longest { (c : ℕ) (h : List (Event S)) (x : Event S) → chosen c h ≡ Some x
        → (longer shorter : List (Event S)) × (waiting c h ≡ longer ++ x ∷ shorter)
        × All (λ y. priority_of x < priority_of y) longer }
    ensures nobody { (c : ℕ) (h : List (Event S)) → chosen c h ≡ None → waiting c h ≡ [] }
{}

/// A process that enters, resumes or returns finds the latest data: those of the last event, or the opening data (Hoare
/// 1974, Introduction).
pub fn data_as_left<S>()
    ensures admitted { (h : History S) (k : ℕ) (s : S) → Allowed h (Admit k s) → s ≡ latest_data h }
    ensures resumed { (h : History S) (k c : ℕ) (s : S) → Allowed h (Resume k c s)
        → s ≡ latest_data h }
    ensures back { (h : History S) (k : ℕ) (s : S) → Allowed h (Back k s) → s ≡ latest_data h }
{}

/// A legal history stays legal if an event that is allowed after it is added. Each beginning of a legal history is
/// legal.
pub fn legal_grows<S>()
    ensures goes_on { (h : History S) (e : Event S) → IsLegal h → Allowed h e
        → IsLegal (with_event h e) }
    ensures began { (f h : History S) → Begins f h → IsLegal h → IsLegal f }
{}

/// While a signaller waits, the signallers before it return in turn, and no other signaller returns. So no signaller
/// that signals later returns before it (Hoare 1974, Interpretation). The other waiting signallers are other places.
pub fn signallers_return_in_turn<S>()
    ensures order { (h : History S) (later : List (Event S)) (before behind : List ℕ) (k : ℕ)
        → IsLegal (with_events h later) → urgent h.events ≡ before ++ k ∷ behind → own k later ≡ []
        → (left joined : List ℕ) × (before ≡ returned later ++ left)
        × (urgent (h.events ++ later) ≡ left ++ k ∷ (behind ++ joined)) }
    ensures others { (h : List (Event S)) (before behind : List ℕ) (k : ℕ)
        → urgent h ≡ before ++ k ∷ behind → All (λ j. j ≢ k) (before ++ behind) }
{}

/// A signaller, by a signal to the chosen waiter or to a given place, with n signallers before it returns right after
/// the (n + 1)-th release of the monitor. The releases are counted from its signal, or from any later moment at which a
/// process is inside. There are fewer such releases than places.
pub fn releases_until_return<S>()
    ensures at_most { (h : History S) (later : List (Event S)) (before behind : List ℕ) (k : ℕ)
        → IsLegal (with_events h later) → urgent h.events ≡ before ++ k ∷ behind → own k later ≡ []
        → releases later ≤ length before + 1 }
    ensures its_turn { (h : History S) (later : List (Event S)) (before behind : List ℕ) (j k : ℕ)
        → IsLegal (with_events h later) → urgent h.events ≡ before ++ k ∷ behind → own k later ≡ []
        → turn h.events ≡ Held j
        → (turn (h.events ++ later) ≡ Return k) ↔ (releases later ≡ length before + 1) }
    ensures since_its_signal { (h : History S) (later : List (Event S)) (e : Event S) → is_signal e ≡ true
        → IsLegal (with_events h (e ∷ later)) → own (place_of e) later ≡ []
        → (turn (h.events ++ e ∷ later) ≡ Return (place_of e))
        ↔ (releases later ≡ length (urgent h.events) + 1) }
    ensures right_after { (h : History S) (k : ℕ) (e : Event S) → turn h.events ≡ Return k → Allowed h e
        → e ≡ Back k (latest_data h) }
    ensures in_between { (h : History S) (later : List (Event S)) (e : Event S) (t : S) → is_signal e ≡ true
        → IsLegal (with_events h (e ∷ (later ++ Back (place_of e) t ∷ []))) → own (place_of e) later ≡ []
        → releases later ≡ length (urgent h.events) + 1 }
    ensures in_all { (h : History S) (later : List (Event S)) (e : Event S) → is_signal e ≡ true
        → IsLegal (with_events h (e ∷ later)) → own (place_of e) later ≡ []
        → releases later < h.sizes.places }
{}

/// No process is admitted while a signaller waits, or while a notified process has yet to resume.
pub fn no_admission_meanwhile<S>()
    ensures signaller { (h : History S) (later : List (Event S)) (before behind : List ℕ) (k : ℕ)
        → IsLegal (with_events h later) → urgent h.events ≡ before ++ k ∷ behind → own k later ≡ []
        → admissions later ≡ 0 }
    ensures called { (h : History S) (later before behind : List (Event S)) (x : Event S)
        → IsLegal (with_events h later) → called h.events ≡ before ++ x ∷ behind → own (place_of x) later ≡ []
        → admissions later ≡ 0 }
{}

/// While a notified process has yet to resume, the processes notified before it resume in turn, and no other notified
/// process resumes. The other notified processes are other places.
pub fn called_resume_in_turn<S>()
    ensures order { (h : History S) (later before behind : List (Event S)) (x : Event S)
        → IsLegal (with_events h later) → called h.events ≡ before ++ x ∷ behind → own (place_of x) later ≡ []
        → (left joined : List (Event S))
        × (map place_of before ≡ resumed_called h.sizes later ++ map place_of left)
        × (called (h.events ++ later) ≡ left ++ x ∷ (behind ++ joined)) }
    ensures others { (h : History S) (before behind : List (Event S)) (x : Event S) → IsLegal h
        → called h.events ≡ before ++ x ∷ behind → All (λ y. place_of y ≢ place_of x) (before ++ behind) }
{}

/// A notified process with n notified processes before it and m signallers resumes right after the (n + m + 1)-th
/// release of the monitor, and one release later for each signal since. The releases are counted from any moment at
/// which a process is inside. There are fewer of them than places and signals since together.
pub fn releases_until_resume<S>()
    ensures at_most { (h : History S) (later before behind : List (Event S)) (x : Event S)
        → IsLegal (with_events h later) → called h.events ≡ before ++ x ∷ behind → own (place_of x) later ≡ []
        → releases later ≤ length before + length (urgent h.events) + signals later + 1 }
    ensures its_turn { (h : History S) (later before behind : List (Event S)) (x : Event S) (j : ℕ)
        → IsLegal (with_events h later) → called h.events ≡ before ++ x ∷ behind → own (place_of x) later ≡ []
        → turn h.events ≡ Held j
        → (turn (h.events ++ later) ≡ Owed (place_of x) (condition_of x))
        ↔ (releases later ≡ length before + length (urgent h.events) + signals later + 1) }
    ensures right_after { (h : History S) (k c : ℕ) (e : Event S) → turn h.events ≡ Owed k c → Allowed h e
        → e ≡ Resume k c (latest_data h) }
    ensures in_all { (h : History S) (later before behind : List (Event S)) (x : Event S) (j : ℕ)
        → IsLegal (with_events h later) → called h.events ≡ before ++ x ∷ behind → own (place_of x) later ≡ []
        → turn h.events ≡ Held j → releases later < h.sizes.places + signals later }
{}

/// While a waiter waits on c, with m waiters before it in the order of signals, at most m + l waiters are taken from c.
/// Here l is how many processes began to wait on c with a lesser priority since. With the waiters still before it those
/// taken are m + l, less at most one for each waiter on c that was resumed by a signal to it. The waiter is the next to
/// be taken if m + l were taken, and only then if none was resumed by a signal to it. Of equal priorities the first to
/// wait is the first to be taken (Hoare 1974, Scheduled Waits). At every moment m is less than the number of places.
pub fn waiters_taken_in_turn<S>()
    ensures within { (c : ℕ) (h : History S) (later before behind : List (Event S)) (x : Event S)
        → IsLegal (with_events h later) → in_order priority_of (waiting c h.events) ≡ before ++ x ∷ behind
        → is_untouched c x later ≡ true
        → (left joined : List (Event S))
        × (in_order priority_of (waiting c (h.events ++ later)) ≡ left ++ x ∷ joined)
        × (length left + taken_from c later ≤ length before + waits_below c (priority_of x) later)
        × (length before + waits_below c (priority_of x) later
        ≤ length left + taken_from c later + signals_to c later) }
    ensures at_most { (c : ℕ) (h : History S) (later before behind : List (Event S)) (x : Event S)
        → IsLegal (with_events h later) → in_order priority_of (waiting c h.events) ≡ before ++ x ∷ behind
        → is_untouched c x later ≡ true
        → taken_from c later ≤ length before + waits_below c (priority_of x) later }
    ensures then_next { (c : ℕ) (h : History S) (later before behind : List (Event S)) (x : Event S)
        → IsLegal (with_events h later) → in_order priority_of (waiting c h.events) ≡ before ++ x ∷ behind
        → is_untouched c x later ≡ true
        → taken_from c later ≡ length before + waits_below c (priority_of x) later
        → chosen c (h.events ++ later) ≡ Some x }
    ensures its_turn { (c : ℕ) (h : History S) (later before behind : List (Event S)) (x : Event S)
        → IsLegal (with_events h later) → in_order priority_of (waiting c h.events) ≡ before ++ x ∷ behind
        → is_untouched c x later ≡ true → signals_to c later ≡ 0
        → (chosen c (h.events ++ later) ≡ Some x)
        ↔ (taken_from c later ≡ length before + waits_below c (priority_of x) later) }
    ensures first_come { (c : ℕ) (h longer between shorter : List (Event S)) (x y : Event S)
        → waiting c h ≡ longer ++ x ∷ (between ++ y ∷ shorter) → priority_of x ≤ priority_of y
        → chosen c h ≢ Some y }
    ensures plain { (c : ℕ) (later : List (Event S)) → waits_below c 0 later ≡ 0 }
    ensures few { (c : ℕ) (h : History S) (before behind : List (Event S)) (x : Event S) → IsLegal h
        → in_order priority_of (waiting c h.events) ≡ before ++ x ∷ behind → length before < h.sizes.places }
{}

/// The waiters on all conditions, the signallers and the notified processes are together at most as many as the monitor
/// has places. While a place is inside, that place is one more of these places.
pub fn all_have_places<S>()
    ensures always { (h : History S) → IsLegal h
        → length (waiting_anywhere h.events) + length (urgent h.events) + length (called h.events)
        ≤ h.sizes.places }
    ensures while_inside { (h : History S) (k : ℕ) → IsLegal h → turn h.events ≡ Held k
        → length (waiting_anywhere h.events) + length (urgent h.events) + length (called h.events) + 1
        ≤ h.sizes.places }
{}

/// From its signal, to the chosen waiter or to a given place, until its return a signaller waits for few visits of
/// others: at most one for each process that waits on a condition at its signal, and two for each signaller that waits
/// then. With n places these are at most 2n - 3 visits. For each visit there are at most two events, and the
/// notifications besides.
pub fn few_visits_until_return<S>()
    ensures visits { (h : History S) (later : List (Event S)) (e : Event S) → is_signal e ≡ true
        → IsLegal (with_events h (e ∷ later)) → own (place_of e) later ≡ []
        → visits later ≤ length (waiting_anywhere h.events) + 2 * length (urgent h.events) }
    ensures signallers { (h : History S) (e : Event S) → is_signal e ≡ true → IsLegal h → Allowed h e
        → length (urgent h.events) + 2 ≤ h.sizes.places }
    ensures in_all { (h : History S) (later : List (Event S)) (e : Event S) → is_signal e ≡ true
        → IsLegal (with_events h (e ∷ later)) → own (place_of e) later ≡ []
        → visits later + 3 ≤ 2 * h.sizes.places }
    ensures events { (h : History S) (later : List (Event S)) (e : Event S) → is_signal e ≡ true
        → IsLegal (with_events h (e ∷ later))
        → length later ≤ 2 * visits later + notifications later }
{}

/// What the caller of `signal`, or of a signal to a given place, learns when it returns after a waiter was resumed.
/// Between its signal and its return the signallers before it returned, in turn, and no other signaller did. The
/// monitor was released once more than they are; no process was admitted; and few visits began.
pub fn between_signal_and_return<S>()
    ensures { (f h : History S) (e : Event S) (t : S) → is_signal e ≡ true → IsLegal h
        → AddsTwo f e (Back (place_of e) t) h
        → (later : List (Event S)) × (h.events ≡ f.events ++ e ∷ (later ++ Back (place_of e) t ∷ []))
        × (own (place_of e) later ≡ []) × (returned later ≡ urgent f.events)
        × (releases later ≡ length (urgent f.events) + 1) × (admissions later ≡ 0)
        × (visits later ≤ length (waiting_anywhere f.events) + 2 * length (urgent f.events))
        × (visits later + 3 ≤ 2 * f.sizes.places) }
{}

/// What the caller of `wait` learns when it resumes from one of Hoare's conditions: how many waiters were taken from
/// the condition between its wait and its resumption, if no waiter there was resumed by a signal to it. They are as
/// many as waited there before it with at most its priority, plus as many as began to wait there later with a lesser
/// priority, plus the caller itself.
pub fn between_wait_and_resume<S>()
    ensures { (f h : History S) (k c p : ℕ) (s t : S) → IsLegal h
        → IsHoare h.sizes.conditions h.sizes.mesa c → AddsTwo f (Wait k c p s) (Resume k c t) h
        → (later : List (Event S)) × (h.events ≡ f.events ++ Wait k c p s ∷ (later ++ Resume k c t ∷ []))
        × (own k later ≡ [])
        × (signals_to c later ≡ 0
        → taken_from c later ≡ waiters_up_to c p f.events + waits_below c p later + 1) }
{}

/// What the caller of `wait` learns when it resumes from a Mesa condition. An event notified it: a notify, when no
/// waiter was left before it, or a broadcast. Until then as many waiters were taken one by one, or were left before it,
/// as waited there before it with at most its priority, and as began to wait there later with a lesser priority. From
/// then on those notified before it resumed, in turn, and no other notified process did. The monitor was released once
/// for each of these, once for each signaller that waited at the notification and for each signal since, and once more;
/// and no process was admitted.
pub fn between_mesa_wait_and_resume<S>()
    ensures { (f h : History S) (k c p : ℕ) (s t : S) → IsLegal h
        → IsMesa h.sizes.conditions h.sizes.mesa c → AddsTwo f (Wait k c p s) (Resume k c t) h
        → MesaWait f h k c p s t }
{}

/// The admissions between two moments are the difference of `admissions`. So a process that is to be the i-th, counted
/// from 0, waits for exactly i minus `admissions` further admissions.
pub fn admissions_add_up<S>()
    ensures { (h later : List (Event S)) → admissions (h ++ later) ≡ admissions h + admissions later }
{}
