//! The laws that follow from the meanings of `rest`: functions without effect, whose contracts are the laws.
ghost use Rattle.std.specs.Prelude.{◌≡◌, ◌≢◌, ◌+◌, ◌-◌, ◌*◌, ◌<◌, ◌≤◌, ◌++◌, ◌∷◌, ℕ, List, [], All, None, true, false};
ghost use Rattle.std.specs.Prelude.{Result, length, map};
ghost use Rattle.std.specs.List.{sum};
ghost use Rattle.hoare_law.specs.declared.event.Event.{Event};
ghost use Rattle.hoare_law.specs.declared.event.Event.TheVariants.{Wait};
ghost use Rattle.hoare_law.specs.declared.event.History.{History};
ghost use Rattle.hoare_law.specs.Events.{latest_data, place_of};
ghost use Rattle.hoare_law.specs.Growth.{Grows};
ghost use Rattle.hoare_law.specs.Overtaking.{with_events};
ghost use Rattle.hoare_law.specs.Priorities.{in_order, joined, nobody, priorities, taken};
ghost use Rattle.hoare_law.specs.Waiting.{is_untouched, priority_of, waiting};
ghost use Rattle.sweep_schedulers.specs.declared.direction.Direction.{Direction};
ghost use Rattle.sweep_schedulers.specs.declared.direction.Direction.TheVariants.{Down};
ghost use Rattle.sweep_schedulers.specs.declared.head.OffDisk.{OffDisk};
ghost use Rattle.sweep_schedulers.specs.declared.not_out.NotOut.{NotOut};
ghost use Rattle.sweep_schedulers.specs.Heads.{Disk, HeadRests, cylinder_of, due, given_out, idle, priority_at, put};
ghost use Rattle.sweep_schedulers.specs.Heads.{sent, sweep};
ghost use Rattle.sweep_schedulers.specs.declared.readers_writers.NoReader.{NoReader};
ghost use Rattle.sweep_schedulers.specs.declared.readers_writers.ReadPass.{ReadPass};
ghost use Rattle.sweep_schedulers.specs.declared.readers_writers.TooManyReaders.{TooManyReaders};
ghost use Rattle.sweep_schedulers.specs.Follows.{Follows};
ghost use Rattle.sweep_schedulers.specs.HeadHistories.{ContinuesHead, IsHeadHistory, KeepsWaiting, hand_offs};
ghost use Rattle.sweep_schedulers.specs.HeadTraces.{Releases, Requests, counted_after};
ghost use Rattle.sweep_schedulers.specs.ReadersWriters.{Shared};
ghost use Rattle.sweep_schedulers.specs.ReadersWritersTraces.{EndsRead, EndsWrite, StartsRead, StartsWrite};
ghost use Rattle.sweep_schedulers.specs.Rounds.{Moment, Rests, Runs, WriterWaits, ReaderWaits, counted_from};
ghost use Rattle.sweep_schedulers.specs.Rounds.{writers_in};
ghost use Rattle.sweep_schedulers.specs.SharedHistories.{ContinuesSharing, IsReleased, IsSharedHistory};
ghost use Rattle.sweep_schedulers.specs.SharedHistories.{counted_in, moment_of, no_counts};
ghost use Rattle.sweep_schedulers.specs.Stays.{Stays};
ghost use Rattle.sweep_schedulers.specs.Sweeps.{Awaits, KeepsOrTurns, IsWaiting, first, granted_first};
ghost use Rattle.sweep_schedulers.specs.Sweeps.{grants_before, reached};

/// Bounds how long a head stays at a cylinder. While the head is at a cylinder and keeps its direction, at most `stay`
/// grants are made there, however many processes request that cylinder meanwhile:
///
/// - `nobody_joins`: no request joins those that wait for that cylinder and the present sweep.
/// - `one_less`: after n grants, n less are due.
pub fn a_head_moves_on<T>()
    ensures nobody_joins { (d : Disk T) (q : ℕ → List ℕ) → HeadRests d (q 0) (q 1) → d.drive ≡ None
        → HeadRests d (joined q (sweep d.direction) (priority_at d.cylmax d.direction d.headpos) 0)
        (joined q (sweep d.direction) (priority_at d.cylmax d.direction d.headpos) 1) → ⊥ }
    ensures one_less { (d e : Disk T) (q r : ℕ → List ℕ) (n : ℕ) → HeadRests d (q 0) (q 1) → d.drive ≡ None
        → Stays d q e r n → n + e.stay ≡ d.stay }
{}

/// Bounds how long a request waits on a disk head (Hoare 1974, Disk Head Scheduler): the number of times that the drive
/// is granted to other requests meanwhile, whatever they ask for.
///
/// - `in_time`: at most `grants_before` times, a number computed from the disk, the request, and m, the largest number
///   of requests that wait at a time.
/// - `at_its_cylinder`: fewer times than `stay`, if the head is at its cylinder and sweeps in its direction.
/// - `at_most`: at most (2 `cylmax` + 1) (m - 1) times, in any state. A place that releases doesn't wait, so of N
///   places m is N - 1.
/// - `longest`: a run that reaches this number, on two cylinders with two waiting requests.
/// - `drive_is_out`, `release_grants`: meanwhile the drive is out, and each release grants it to a request.
///
/// A step of `Awaits` is one call. `joins` is a `request` that finds the drive out, and waits. `grants` is a `release`,
/// whose `HandsOn` keeps the direction or turns, with the end of the `request` that it resumes: by `as_released` and
/// `as_requested` the disk is that of their traces. Other calls change nothing meanwhile, unless a caller puts another
/// disk in through `state_mut`: `a_head_history_is_a_run` says so of each history. Requests of equal priority are
/// resumed in the order in which they came (`hoare_law::laws::least_is_chosen`), so `IsPassed` counts the earlier
/// requests alone.
pub fn a_request_is_granted<T>()
    ensures drive_is_out { (m p k : ℕ) (own : Direction) (d : Disk T) (q : ℕ → List ℕ) → IsWaiting m own p k d q
        → d.drive ≡ None }
    ensures release_grants { (m p k : ℕ) (own : Direction) (d e : Disk T) (q : ℕ → List ℕ)
        → IsWaiting m own p k d q → KeepsOrTurns d q e → q (sweep e.direction) ≢ [] }
    ensures in_time { (m p k n : ℕ) (own : Direction) (d : Disk T) (q : ℕ → List ℕ) → IsWaiting m own p k d q
        → Awaits m own p d q k n → n ≤ grants_before m d own p k }
    ensures at_its_cylinder { (m p k n : ℕ) (own : Direction) (d : Disk T) (q : ℕ → List ℕ)
        → IsWaiting m own p k d q → own ≡ d.direction → p ≡ reached d → Awaits m own p d q k n → n < d.stay }
    ensures at_most { (m p k n : ℕ) (own : Direction) (d : Disk T) (q : ℕ → List ℕ) → IsWaiting m own p k d q
        → Awaits m own p d q k n → n ≤ (2 * d.cylmax + 1) * (m - 1) }
    ensures longest { (drive : T) → (let d = due (given_out (idle drive 1)) 1 in
        let q = joined (joined nobody 0 0) 1 1 in
        IsWaiting 2 Down 1 0 d q × Awaits 2 Down 1 d q 0 3) }
    ensures as_released { (d e : Disk T) (drive : T) (g h : History (Disk T))
        → KeepsOrTurns d (priorities g.events) e → priorities h.events ≡ taken (priorities g.events) (sweep e.direction)
        → (let dest = cylinder_of d.cylmax e.direction (first e.direction (priorities g.events)) in
        counted_after h (sent (counted_after g (put e drive)) dest) ≡ granted_first e drive (priorities g.events)) }
    ensures as_requested { (cylmax dest : ℕ) (dir : Direction) → dest ≤ cylmax
        → cylinder_of cylmax dir (priority_at cylmax dir dest) ≡ dest }
{}

/// States that a place that calls only `request` and `release` of a disk head has own events as `Follows` asks, at each
/// of its fronts, and in each longer history in which it does nothing more, as that in which a door ends (`close` of
/// `door_frame`). The premises are the clauses `trace` of these calls.
pub fn head_calls_follow<T>()
    ensures nothing_yet { (k : ℕ) (h : History (Disk T)) → h.events ≡ [] → Follows ContinuesHead k h }
    ensures by_request { (k dest : ℕ) (f h : History (Disk T)) (r : Result T OffDisk) → Follows ContinuesHead k f
        → Requests k dest f h r → Follows ContinuesHead k h }
    ensures by_release { (k : ℕ) (drive : T) (f h : History (Disk T)) (r : Result (Unit {0}) (NotOut T))
        → Follows ContinuesHead k f → Releases k drive f h r → Follows ContinuesHead k h }
    ensures by_others { (k : ℕ) (f h : History (Disk T)) → Follows ContinuesHead k f → Grows k [] f h
        → Follows ContinuesHead k h }
{}

/// States that each history of a disk head that only `request` and `release` use is a run of `Awaits`, while a request
/// waits. So the bounds of `a_request_is_granted` hold of it. Of N places at most N - 1 wait while another event is to
/// come.
///
/// - `is_run`: the steps are the events after a moment at which the request waits, up to one at which it still waits.
/// - `in_time`, `at_most`: the drive is handed off to other requests at most so often meanwhile.
/// - `from_its_wait`: so it is from the request's wait on, until an event takes it from the waiters.
pub fn a_head_history_is_a_run<T>()
    ensures is_run { (h : History (Disk T)) (later : List (Event (Disk T))) (x : Event (Disk T))
        (own : Direction) (p k : ℕ) → IsHeadHistory (with_events h later) → KeepsWaiting h later x own p k
        → Awaits (h.sizes.places - 1) own p (latest_data h) (priorities h.events) k (hand_offs later) }
    ensures in_time { (h : History (Disk T)) (later : List (Event (Disk T))) (x : Event (Disk T))
        (own : Direction) (p k : ℕ) → IsHeadHistory (with_events h later) → KeepsWaiting h later x own p k
        → hand_offs later ≤ grants_before (h.sizes.places - 1) (latest_data h) own p k }
    ensures at_most { (h : History (Disk T)) (later : List (Event (Disk T))) (x : Event (Disk T))
        (own : Direction) (p k : ℕ) → IsHeadHistory (with_events h later) → KeepsWaiting h later x own p k
        → hand_offs later ≤ (2 * (latest_data h).cylmax + 1) * (h.sizes.places - 2) }
    ensures from_its_wait { (h : History (Disk T)) (later : List (Event (Disk T))) (k c p : ℕ) (s : Disk T)
        → IsHeadHistory (with_events h (Wait k c p s ∷ later)) → is_untouched c (Wait k c p s) later ≡ true
        → hand_offs later ≤ (2 * s.cylmax + 1) * (h.sizes.places - 2) }
{}

/// States that a place that calls only the four procedures of readers and writers has own events as `Follows` asks. The
/// premises are the clauses `trace` of these calls; `head_calls_follow` says of which histories it holds.
pub fn sharing_calls_follow<T>()
    ensures nothing_yet { (k : ℕ) (h : History (Shared T)) → h.events ≡ [] → Follows ContinuesSharing k h }
    ensures by_start_read { (k : ℕ) (f h : History (Shared T)) (read : Result (ReadPass × T) TooManyReaders)
        → Follows ContinuesSharing k f → StartsRead k f h read → Follows ContinuesSharing k h }
    ensures by_end_read { (k : ℕ) (pass : ReadPass) (f h : History (Shared T)) (r : Result (Unit {0}) NoReader)
        → Follows ContinuesSharing k f → EndsRead k pass f h r → Follows ContinuesSharing k h }
    ensures by_start_write { (k : ℕ) (value : T) (f h : History (Shared T)) → Follows ContinuesSharing k f
        → StartsWrite k value f h → Follows ContinuesSharing k h }
    ensures by_end_write { (k : ℕ) (value : T) (f h : History (Shared T)) (r : Result (Unit {0}) (NotOut T))
        → Follows ContinuesSharing k f → EndsWrite k value f h r → Follows ContinuesSharing k h }
    ensures by_others { (k : ℕ) (f h : History (Shared T)) → Follows ContinuesSharing k f → Grows k [] f h
        → Follows ContinuesSharing k h }
{}

/// States that each history of readers and writers that only the four procedures use is a run of `Runs`, between two
/// moments at which the last event was a wait or a leave. So the bounds of `readers_go_in_rounds` hold of it: the reads
/// and the writes that began, and the rounds, are those that `counted_in` counts in its data.
///
/// - `is_run`: the readers and the writers that wait, in turn, are those of the history.
/// - `writer`, `reader`: a writer still waits if its place hasn't begun to write, a reader if there was no round.
pub fn a_sharing_history_is_a_run<T>()
    ensures is_run { (h : History (Shared T)) (later : List (Event (Shared T))) → IsSharedHistory (with_events h later)
        → IsReleased h.events → IsReleased (h.events ++ later)
        → Runs (latest_data h) (length (waiting 0 h.events))
        (map place_of (in_order priority_of (waiting 1 h.events)))
        (moment_of (with_events h later) (counted_in h.events (latest_data h) no_counts later)) }
    ensures writer { (h : History (Shared T)) (later before behind : List (Event (Shared T))) (x : Event (Shared T))
        → IsSharedHistory (with_events h later) → IsReleased h.events → IsReleased (h.events ++ later)
        → in_order priority_of (waiting 1 h.events) ≡ before ++ x ∷ behind
        → All (λ k. k ≢ place_of x) (counted_in h.events (latest_data h) no_counts later).writes
        → WriterWaits (latest_data h) (length (waiting 0 h.events)) (map place_of before) (place_of x)
        (map place_of behind)
        (moment_of (with_events h later) (counted_in h.events (latest_data h) no_counts later)) }
    ensures reader { (h : History (Shared T)) (later : List (Event (Shared T))) → IsSharedHistory (with_events h later)
        → IsReleased h.events → IsReleased (h.events ++ later) → 0 < length (waiting 0 h.events)
        → (counted_in h.events (latest_data h) no_counts later).rounds ≡ []
        → ReaderWaits (latest_data h) (length (waiting 0 h.events))
        (map place_of (in_order priority_of (waiting 1 h.events)))
        (moment_of (with_events h later) (counted_in h.events (latest_data h) no_counts later)) }
{}

/// Bounds how long a writer and a reader wait (Hoare 1974, Readers and Writers), however many processes come meanwhile:
/// a writer waits for the writers before it and their rounds of readers, and a reader for one write. While a writer
/// waits, reads begin only in rounds: a round begins when a write ends, and its readers are those that wait then. Only
/// the writers before it begin, in their order.
///
/// - `keeps_rest`, `in_turn`: each step keeps `rest`, and the writers begin in the order in which they came.
/// - `writes`, `is_next`: at most k writes begin, if k writers were before it, and all of them once it is next.
/// - `rounds`: at most one round for each of these writes, and one more if a writer was in at first.
/// - `reads`, `at_most`: at most (k + 1) * `most` reads begin, if no round has more than `most` readers.
/// - `beside_readers`: no read and no write begins, if it was next while readers were in.
/// - `one_write`: while a reader waits, no read begins and no write ends. So it resumes when the write of the writer
///   that was in ends, or, if readers were in, that of the first writer that waits.
pub fn readers_go_in_rounds<T>()
    ensures keeps_rest { (s : Shared T) (r : ℕ) (ws : List ℕ) (m : Moment T) → Rests (counted_from s r ws)
        → Runs s r ws m → Rests m }
    ensures in_turn { (s : Shared T) (r : ℕ) (ws : List ℕ) (m : Moment T) → Rests (counted_from s r ws)
        → Runs s r ws m → (came : List ℕ) × (m.writes ++ m.to_write ≡ ws ++ came) }
    ensures writes { (s : Shared T) (r w : ℕ) (before behind : List ℕ) (m : Moment T)
        → WriterWaits s r before w behind m → length m.writes ≤ length before }
    ensures is_next { (s : Shared T) (r w : ℕ) (before behind others : List ℕ) (m : Moment T)
        → WriterWaits s r before w behind m → m.to_write ≡ w ∷ others → m.writes ≡ before }
    ensures rounds { (s : Shared T) (r w : ℕ) (before behind : List ℕ) (m : Moment T)
        → WriterWaits s r before w behind m → length m.rounds ≤ length m.writes + writers_in s }
    ensures reads { (s : Shared T) (r w : ℕ) (before behind : List ℕ) (m : Moment T)
        → WriterWaits s r before w behind m → m.reads ≤ sum m.rounds }
    ensures at_most { (s : Shared T) (r w most : ℕ) (before behind : List ℕ) (m : Moment T)
        → WriterWaits s r before w behind m → All (λ n. n ≤ most) m.rounds
        → m.reads ≤ (length before + writers_in s) * most }
    ensures beside_readers { (s : Shared T) (r w : ℕ) (behind : List ℕ) (m : Moment T)
        → WriterWaits s r [] w behind m → s.busy ≡ false → (m.reads ≡ 0) × (m.writes ≡ []) }
    ensures one_write { (s : Shared T) (r : ℕ) (ws : List ℕ) (m : Moment T) → ReaderWaits s r ws m
        → (m.reads ≡ 0) × (length m.writes + writers_in s ≡ writers_in m.state) }
{}
