//! The calls of a monitor and their contracts, as a trait. Each kind of monitor implements it.
ghost use Rattle.std.specs.Prelude.{◌≡◌, ◌<◌, ◌↔◌, ◌≢◌, ℕ, List, [], length, slice_index, IsTrue, IfOk, IfErr};
ghost use Rattle.std.specs.Prelude.{true, false, MatchOption};
ghost use Rattle.std.specs.Borrow.{sem, Lends};
ghost use Rattle.std.specs.List.Sorted.{IsNonDecreasing};
ghost use Rattle.std.specs.Option.{option_map};
ghost use Rattle.hoare_law.specs.Sizes.{IsHoare, IsMesa};
ghost use Rattle.hoare_law.specs.Priorities.{joined, taken, emptied, priorities};
ghost use Rattle.hoare_law.specs.Events.{with_event};
ghost use Rattle.hoare_law.specs.Waiting.{waiting, chosen, priority_of};
ghost use Rattle.hoare_law.specs.Turns.{turn, outside};
ghost use Rattle.hoare_law.specs.Lawful.{Stands};
ghost use Rattle.hoare_law.specs.Growth.{AddsLast, AddsTwo, Broadcasts, Exits, Grows, Notifies, Signals};
ghost use Rattle.hoare_law.specs.declared.event.History.{History};
ghost use Rattle.hoare_law.specs.declared.event.Event.TheVariants as event;
ghost use Rattle.hoare_law.specs.declared.turn.Turn.TheVariants as turns;

use crate::data::MonitorData;
use crate::waits::Waits;
use std::sync::Wait;

/// The priority of a plain wait, which is the least. Of processes that wait with this priority, the longest waiting
/// resumes first.
pub const PLAIN: u64 = 0;

/// Hoare's monitor (Hoare 1974, Introduction and Scheduled Waits): what each process may do with the data, and what
/// each call requires and ensures.
///
/// A place outside is an `Out`, a place inside an `In`, which has the data in hand. Neither can be copied, so no place
/// is inside twice. An `In` can't be dropped: a process that is inside has to leave. The front of a place is the
/// history that it knows; ghost: it exists only in contracts.
///
/// A call that may block takes `rt`; its contract holds if it returns. No call reports an error (`try_enter` may return
/// the place, still outside), and none allocates memory.
pub trait Monitor<D: MonitorData> {
    /// A place outside. After a place is dropped, no process can use it again.
    type Out: Drop + Send;

    /// A place inside, with the data in hand.
    type In;

    /// The waiting priorities, as a process inside reads them.
    type Lists: Waits;

    /// The place outside belongs to this monitor.
    ghost is_of: { Self → Self.Out → Type 0 };

    /// The place inside belongs to this monitor.
    ghost is_of_in: { Self → Self.In → Type 0 };

    /// The number of a place outside.
    ghost place: { Self.Out → ℕ };

    /// The number of a place inside.
    ghost place_in: { Self.In → ℕ };

    /// The data that a place inside has in hand.
    ghost data_in: { Self.In → D };

    /// The waiting priorities that a place inside has in hand.
    ghost lists_in: { Self.In → ℕ → List ℕ };

    /// The front of a place outside: the history that it knows.
    ghost front: { Self.Out → History D };

    /// The front of a place inside: the history that it knows.
    ghost front_in: { Self.In → History D };

    /// Why a `try_enter` of the place with this number doesn't enter, by the history that the place knew before it and
    /// the one that it knows after it.
    ghost refuses: { Self → ℕ → History D → History D → Type 0 };

    /// The place inside with other data in hand.
    ghost with_data: { Self.In → D → Self.In };

    /// Enters the monitor. Blocks while a process is inside, a resumed or notified process has yet to continue, or a
    /// signaller waits to return. `rest` holds of the data and the waiting priorities that the caller finds.
    fn enter<R: Wait>(&self, rt: &R, out: Self::Out) -> Self::In
        requires { is_of self.now out }
        ensures of { is_of_in self.now result }
        ensures place { place_in result ≡ place out }
        ensures rest { D.rest (data_in result) (lists_in result) }
        ensures front { AddsLast (front out) (event.Admit (place out) (data_in result))
            (front_in result) };

    /// Enters as `enter` does if that is possible at this moment; otherwise returns the place, still outside, as `Err`.
    /// Never blocks.
    ///
    /// A place that didn't enter has learned the history at some moment of this call, and `refuses` says why. On a baton
    /// door it is a place's turn at that moment: a place is inside, or the monitor is owed to one. On a ticket door, at
    /// that moment or an earlier one of this call, it is a place's turn or another place is outside: the call fails if
    /// another place has taken a ticket, attempts to enter at the same moment, or enters meanwhile.
    fn try_enter(&self, out: Self::Out) -> Result<Self::In, Self::Out>
        requires { is_of self.now out }
        ensures of { IfOk result (λ i. is_of_in self.now i) }
        ensures place { IfOk result (λ i. place_in i ≡ place out) }
        ensures rest { IfOk result (λ i. D.rest (data_in i) (lists_in i)) }
        ensures front { IfOk result (λ i. AddsLast (front out)
            (event.Admit (place out) (data_in i)) (front_in i)) }
        ensures still_of { IfErr result (λ o. is_of self.now o) }
        ensures still_place { IfErr result (λ o. place o ≡ place out) }
        ensures learned { IfErr result (λ o. Grows (place out) [] (front out) (front o)) }
        ensures refused { IfErr result (λ o. refuses self.now (place out) (front out) (front o)) };

    /// Leaves the monitor; the place is then outside. The caller must make `rest` true of the data and the waiting
    /// priorities.
    fn leave<R: Wait>(&self, rt: &R, inside: Self::In) -> Self::Out
        requires of { is_of_in self.now inside }
        requires rest { D.rest (data_in inside) (lists_in inside) }
        ensures of { is_of self.now result }
        ensures place { place result ≡ place_in inside }
        ensures front { front result
            ≡ with_event (front_in inside) (event.Leave (place_in inside) (data_in inside)) };

    /// Releases the monitor and waits on `condition` with `priority`. Blocks until a signal on the condition resumes
    /// this process, or a notify or a broadcast notifies it and the monitor is then released to it.
    ///
    /// The caller must make `rest` true with itself among the waiters. After a wait on one of Hoare's conditions it
    /// finds `ready`, and the data as the signaller left them. After a wait on a Mesa condition it finds `rest`, so it
    /// must test again what it waited for.
    fn wait<R: Wait>(&self, rt: &R, inside: Self::In, condition: usize, priority: u64) -> Self::In
        requires of { is_of_in self.now inside }
        requires in_range { condition < D.CONDITIONS }
        requires rest { D.rest (data_in inside) (joined (lists_in inside) condition priority) }
        ensures of { is_of_in self.now result }
        ensures place { place_in result ≡ place_in inside }
        ensures ready { IsHoare D.CONDITIONS D.MESA condition
            → D.ready condition priority (data_in result) (lists_in result) }
        ensures rest { IsMesa D.CONDITIONS D.MESA condition
            → D.rest (data_in result) (lists_in result) }
        ensures front { AddsTwo (front_in inside)
            (event.Wait (place_in inside) condition priority (data_in inside))
            (event.Resume (place_in inside) condition (data_in result)) (front_in result) };

    /// Hands off the monitor to the first waiter on `condition`, one of Hoare's, and blocks until the caller returns,
    /// before any entering process. Returns true then. The caller must make `ready` true for that waiter, and finds
    /// `rest` when it returns.
    ///
    /// If no process waits on the condition, returns false and changes nothing.
    fn signal<R: Wait>(&self, rt: &R, inside: Self::In, condition: usize) -> (Self::In, bool)
        requires of { is_of_in self.now inside }
        requires hoare { IsHoare D.CONDITIONS D.MESA condition }
        requires ready { lists_in inside condition ≢ []
            → D.ready condition (slice_index (lists_in inside condition) 0) (data_in inside)
            (taken (lists_in inside) condition) }
        ensures of { is_of_in self.now result.0 }
        ensures place { place_in result.0 ≡ place_in inside }
        ensures answer { IsTrue result.1 ↔ (lists_in inside condition ≢ []) }
        ensures rest { result.1 ≡ true → D.rest (data_in result.0) (lists_in result.0) }
        ensures same { result.1 ≡ false → result.0 ≡ inside }
        ensures front { Signals (place_in inside) condition (data_in inside) (data_in result.0)
            (front_in inside) (front_in result.0) result.1 };

    /// Signals as the last act: hands off the monitor to the first waiter on `condition`, one of Hoare's; the caller is
    /// outside at once. It must make `ready` true for that waiter. Returns true if a waiter was resumed.
    ///
    /// If no process waits on the condition, leaves and returns false. The caller must then make `rest` true, as for
    /// `leave`.
    fn signal_leave<R: Wait>(&self, rt: &R, inside: Self::In, condition: usize) -> (Self::Out, bool)
        requires of { is_of_in self.now inside }
        requires hoare { IsHoare D.CONDITIONS D.MESA condition }
        requires ready { lists_in inside condition ≢ []
            → D.ready condition (slice_index (lists_in inside condition) 0) (data_in inside)
            (taken (lists_in inside) condition) }
        requires rest { lists_in inside condition ≡ [] → D.rest (data_in inside) (lists_in inside) }
        ensures of { is_of self.now result.0 }
        ensures place { place result.0 ≡ place_in inside }
        ensures answer { IsTrue result.1 ↔ (lists_in inside condition ≢ []) }
        ensures front { Exits (place_in inside) condition (data_in inside) (front_in inside)
            (front result.0) result.1 };

    /// Notifies the waiter on a Mesa condition that a signal would resume: of those with the least priority, the
    /// longest waiting. That process waits there no more. It resumes once the monitor is released and no signaller
    /// waits, after the processes that were notified earlier.
    ///
    /// The caller stays inside with the same data, and needs to make no assertion true. Returns true if a process
    /// waited.
    fn notify(&self, inside: &mut Self::In, condition: usize) -> bool
        requires of { is_of_in self.now inside.old }
        requires mesa { IsMesa D.CONDITIONS D.MESA condition }
        ensures of { is_of_in self.now inside.new }
        ensures place { place_in inside.new ≡ place_in inside.old }
        ensures data { data_in inside.new ≡ data_in inside.old }
        ensures lists { lists_in inside.new ≡ taken (lists_in inside.old) condition }
        ensures answer { IsTrue result ↔ (lists_in inside.old condition ≢ []) }
        ensures front { Notifies (place_in inside.old) condition (data_in inside.old)
            (front_in inside.old) (front_in inside.new) result };

    /// Notifies all processes that wait on a Mesa condition, in the order in which signals would resume them. The
    /// caller stays inside with the same data. Returns how many processes were notified.
    fn broadcast(&self, inside: &mut Self::In, condition: usize) -> usize
        requires of { is_of_in self.now inside.old }
        requires mesa { IsMesa D.CONDITIONS D.MESA condition }
        ensures of { is_of_in self.now inside.new }
        ensures place { place_in inside.new ≡ place_in inside.old }
        ensures data { data_in inside.new ≡ data_in inside.old }
        ensures lists { lists_in inside.new ≡ emptied (lists_in inside.old) condition }
        ensures answer { result ≡ length (lists_in inside.old condition) }
        ensures front { Broadcasts (place_in inside.old) condition (data_in inside.old)
            (front_in inside.old) (front_in inside.new) };

    /// Returns the data in hand.
    fn state<'a>(&self, inside: &'a Self::In) -> &'a D
        requires { is_of_in self.now inside.now }
        ensures { result.now ≡ data_in inside.now };

    /// Lends the data in hand for writing: what the borrower writes is in hand afterwards, and all else is unchanged.
    /// (`inside` is the first parameter because only a first parameter can lend.)
    fn state_mut<'a>(inside: &'a mut Self::In, monitor: &Self) -> &'a mut D
        requires { is_of_in monitor.now inside.old }
        ensures* writes { sem 𝓛
            (Lends Self.In.row D.row inside.entry result (with_data inside.entry.now)) }
        ensures value { result.now ≡ data_in inside.old };

    /// Returns the waiting priorities, which are those of the front.
    fn lists<'a>(&self, inside: &'a Self::In) -> &'a Self::Lists
        requires { is_of_in self.now inside.now }
        ensures lists { Self.Lists.waiting_priorities result.now ≡ lists_in inside.now }
        ensures front { Self.Lists.waiting_priorities result.now
            ≡ priorities (front_in inside.now).events };

    /// Returns true if a process waits on the condition, which is in range (Hoare's `queue`).
    fn queue(&self, inside: &Self::In, condition: usize) -> bool
        requires of { is_of_in self.now inside.now }
        requires in_range { condition < D.CONDITIONS }
        ensures lists { IsTrue result ↔ (lists_in inside.now condition ≢ []) }
        ensures front { IsTrue result ↔ (waiting condition (front_in inside.now).events ≢ []) };

    /// Returns the priority of the process that a signal on the condition would resume, or `None` if no process waits
    /// there. The condition is in range.
    fn first(&self, inside: &Self::In, condition: usize) -> Option<u64>
        requires of { is_of_in self.now inside.now }
        requires in_range { condition < D.CONDITIONS }
        ensures lists { MatchOption result (lists_in inside.now condition ≡ [])
            (λ p. (lists_in inside.now condition ≢ [])
            × (p ≡ slice_index (lists_in inside.now condition) 0)) }
        ensures front { result
            ≡ option_map priority_of (chosen condition (front_in inside.now).events) };

    /// The front of a place outside is legal and lawful, has the numbers of conditions of `D`, and has the place
    /// outside.
    ghost stands: { (m : Self) (o : Self.Out) → is_of m o
        → Stands D.rest D.ready (front o) × ((front o).sizes.conditions ≡ D.CONDITIONS)
        × ((front o).sizes.mesa ≡ D.MESA) × (outside (place o) (front o).events ≡ true) };

    /// The front of a place inside is legal and lawful, has the numbers of conditions of `D`, and has the place inside.
    ghost stands_in: { (m : Self) (i : Self.In) → is_of_in m i
        → Stands D.rest D.ready (front_in i) × ((front_in i).sizes.conditions ≡ D.CONDITIONS)
        × ((front_in i).sizes.mesa ≡ D.MESA) × (turn (front_in i).events ≡ turns.Held (place_in i)) };

    /// The waiting priorities in hand are those of the front.
    ghost lists_are: { (m : Self) (i : Self.In) → is_of_in m i
        → lists_in i ≡ priorities (front_in i).events };

    /// The waiting priorities of each condition rise: the least is the first.
    ghost rise: { (m : Self) (i : Self.In) (c : ℕ) → is_of_in m i
        → IsNonDecreasing (lists_in i c) };

    /// After a write the written data are in hand.
    ghost takes_data: { (i : Self.In) (d : D) → data_in (with_data i d) ≡ d };

    /// After a write the place belongs to the same monitor.
    ghost keeps_of: { (m : Self) (i : Self.In) (d : D) → is_of_in m i
        → is_of_in m (with_data i d) };

    /// A write doesn't change the place's number.
    ghost keeps_place: { (i : Self.In) (d : D) → place_in (with_data i d) ≡ place_in i };

    /// A write doesn't change the waiting priorities.
    ghost keeps_lists: { (i : Self.In) (d : D) → lists_in (with_data i d) ≡ lists_in i };

    /// A write doesn't change the front.
    ghost keeps_front: { (i : Self.In) (d : D) → front_in (with_data i d) ≡ front_in i };
}
