//! A monitor for running threads, over the raw monitor of any door: the calls of `Monitor`, written once.
ghost use Rattle.std.specs.Prelude.{◌≡◌, ◌<◌, ◌⊎◌, ℕ, IfOk, IfErr, None, Some, All};
ghost use Rattle.hoare_law.specs.Events.{opened};
ghost use Rattle.std.specs.Prelude.{◌↔◌, IsTrue, true, false};
ghost use Rattle.hoare_law.specs.Growth.{SignalsTo};
ghost use Rattle.hoare_law.specs.Priorities.{nobody, priorities};
ghost use Rattle.hoare_law.specs.Sizes.{IsHoare, sizes_of};
ghost use Rattle.hoare_law.specs.Waiting.{IsWaiting};
ghost use Rattle.wait_book.specs.Contents.{make_refusal};
ghost use Rattle.door_frame.specs.Places.{places_from, HandedTo, HasPlace, IsIn, Closes};

use crate::calls;
use crate::making::parts_for;
use crate::place::{Inside, Outside};
use crate::raw_monitor::{Opens, Runs};
use hoare_law::data::MonitorData;
use hoare_law::monitor::Monitor;
use std::alloc::Global;
use std::marker::Model;
use std::ops::Deref;
use std::sync::Wait;
use wait_book::book::Book;
use wait_book::steps::MakeRefused;

/// A monitor for running threads, over a raw monitor of the type `T`: it implements `Monitor`. Threads share it by
/// reference, each with its own place. It has the calls of its raw monitor too. A contract sees the raw monitor.
#[derive(Drop)]
pub struct RunningMonitor<T> {
    raw_monitor: T,
}

impl<T> Model for RunningMonitor<T> {
    ghost Value = { T };

    ghost view = { λ m. m.raw_monitor };
}

impl<T> RunningMonitor<T> {
    ghost use Rattle.std.specs.Prelude.{◌≡◌};

    /// Creates the monitor over a raw monitor.
    pub fn new(raw_monitor: T) -> RunningMonitor<T>
        ensures { result ≡ raw_monitor }
    {
        RunningMonitor { raw_monitor }
    }

    /// Returns the raw monitor.
    pub fn into_raw(self) -> T
        ensures { result ≡ self }
    {
        let RunningMonitor { raw_monitor } = self;
        raw_monitor
    }

    /// Creates a monitor of 1 to 64 places and `D::CONDITIONS` conditions, 1 to 8, opened with the data, and its
    /// places, in order. The last `D::MESA` conditions are Mesa conditions. The caller must prove `rest` of the data
    /// with nobody waiting. Refuses, in this order, with `BadPlaces`, `BadConditions`, and `Memory` if an allocation of
    /// what the monitor will ever need failed. Each refusal returns the data.
    pub fn make<D: MonitorData + Send>(
        alloc: Global,
        state: D,
        places: usize,
    ) -> Result<(RunningMonitor<T>, Vec<Outside<D>>), (D, MakeRefused)>
    where
        T: Opens<D>,
        requires rest { D.rest state nobody }
        ensures made { IfOk result (λ r. (make_refusal (sizes_of D.CONDITIONS D.MESA places) ≡ None)
            × ((T.id r.0).places ≡ places)) }
        ensures new { IfOk result (λ r. T.is_new r.0) }
        ensures of { IfOk result (λ r. All (⟦<RunningMonitor<T> as Monitor<D>>⟧.is_of r.0) r.1.items) }
        ensures places { IfOk result (λ r. r.1.items ≡ places_from (T.id r.0) 0 places
            (opened (sizes_of D.CONDITIONS D.MESA places) state)) }
        ensures returned { IfErr result (λ e. e.0 ≡ state) }
        ensures refused { IfErr result (λ e. (make_refusal (sizes_of D.CONDITIONS D.MESA places) ≡ Some e.1)
            ⊎ ((make_refusal (sizes_of D.CONDITIONS D.MESA places) ≡ None) × (e.1 ≡ MakeRefused.Memory))) }
    {
        let parts = parts_for(alloc, state, places)?;
        match T::open(alloc, parts) {
            Ok((raw_monitor, outs)) => Ok((RunningMonitor { raw_monitor }, outs)),
            Err(state) => Err((state, MakeRefused::Memory)),
        }
    }

    /// Signals to the place with the number `waiter`, on one of Hoare's conditions. If that place waits there, it
    /// resumes at once, whoever else waits, and the other waiters keep their order; this call returns, with true, when
    /// the monitor is given up after that. If it doesn't wait there, changes nothing and returns false. The caller
    /// must prove `ready` of the data, for that wait and its priority. What is resumed so finds the same `ready` as
    /// after a signal: the data must say why it was resumed, if that matters. This call is this project's own: Hoare's
    /// signal resumes the first waiter.
    pub fn signal_to<D: MonitorData + Send, R: Wait>(
        &self,
        rt: &R,
        inside: Inside<D>,
        condition: usize,
        waiter: usize,
    ) -> (Inside<D>, bool)
    where
        T: Runs<D>,
        requires of { IsIn D.rest D.ready (T.kinds self.now) (T.id self.now) inside }
        requires hoare { IsHoare (T.kinds self.now).conditions (T.kinds self.now).mesa condition }
        requires ready { HandedTo D.ready condition waiter inside }
        ensures of { IsIn D.rest D.ready (T.kinds self.now) (T.id self.now) result.0 }
        ensures place { result.0.place ≡ inside.place }
        ensures answer { IsTrue result.1 ↔ IsWaiting condition inside.front.events waiter }
        ensures rest { result.1 ≡ true → D.rest result.0.state (priorities result.0.front.events) }
        ensures same { result.1 ≡ false → result.0 ≡ inside }
        ensures front { SignalsTo inside.place condition waiter inside.state result.0.state
            inside.front result.0.front result.1 }
    {
        calls::signal_to(&self.raw_monitor, rt, inside, condition, waiter)
    }

    /// Takes the monitor apart. All of its places are handed in, in any order. Returns the data as one legal and lawful
    /// history left them, at rest with nobody waiting. That history begins with what each place knows, and has no other
    /// event of any place.
    pub fn close<D: MonitorData + Send>(self, outs: Vec<Outside<D>>) -> D
    where
        T: Runs<D>,
        requires of { All (⟦<RunningMonitor<T> as Monitor<D>>⟧.is_of self) outs.items }
        requires places { (k : ℕ) → k < (T.id self).places → HasPlace k outs.items }
        ensures closes { Closes D.rest D.ready (T.kinds self) (T.id self) outs.items result }
        ensures rest { D.rest result nobody }
    {
        let RunningMonitor { raw_monitor } = self;
        raw_monitor.close(outs)
    }
}

impl<T> Deref for RunningMonitor<T> {
    ghost use Rattle.std.specs.Prelude.{◌≡◌};

    type Target = T;

    ghost deref_gives = { λ m t. t ≡ m };

    #[inline]
    fn deref(&self) -> &T {
        &self.raw_monitor
    }
}

impl<D: MonitorData + Send, T: Runs<D>> Monitor<D> for RunningMonitor<T> {
    ghost use Rattle.std.specs.Prelude.{◌≡◌, ◌≢◌, ◌<◌, ℕ, refl};
    ghost use Rattle.std.proofs.Common.{◌∙◌};
    ghost use Rattle.hoare_law.specs.Priorities.{priorities};
    ghost use Rattle.hoare_law.proofs.Priorities.{IsNonDecreasing-priorities};
    ghost use Rattle.door_frame.specs.Places.{PlaceIn, IsOut, IsIn, with_state};

    type Out = Outside<D>;

    type In = Inside<D>;

    type Lists = Book;

    ghost is_of = { λ m o. IsOut D.rest D.ready (T.kinds m) (T.id m) o };

    ghost is_of_in = { λ m i. IsIn D.rest D.ready (T.kinds m) (T.id m) i };

    ghost place = { λ o. o.place };

    ghost place_in = { λ i. i.place };

    ghost data_in = { λ i. i.state };

    ghost lists_in = { λ i. priorities i.front.events };

    ghost front = { λ o. o.front };

    ghost front_in = { λ i. i.front };

    ghost refuses = { λ m k f h. T.refuses m k f h };

    ghost with_data = { λ i d. with_state i d };

    #[inline]
    fn enter<R: Wait>(&self, rt: &R, out: Outside<D>) -> Inside<D> {
        self.raw_monitor.enter(rt, out)
    }

    #[inline]
    fn try_enter(&self, out: Outside<D>) -> Result<Inside<D>, Outside<D>> {
        calls::try_enter(&self.raw_monitor, out)
    }

    #[inline(always)] // as `calls::leave` is
    fn leave<R: Wait>(&self, rt: &R, inside: Inside<D>) -> Outside<D> {
        calls::leave(&self.raw_monitor, inside)
    }

    fn wait<R: Wait>(
        &self,
        rt: &R,
        inside: Inside<D>,
        condition: usize,
        priority: u64,
    ) -> Inside<D> {
        calls::wait(&self.raw_monitor, rt, inside, condition, priority)
    }

    fn signal<R: Wait>(&self, rt: &R, inside: Inside<D>, condition: usize) -> (Inside<D>, bool) {
        calls::signal(&self.raw_monitor, rt, inside, condition)
    }

    #[inline(always)] // as `calls::signal_leave` is: if nobody waits it is a plain leave
    fn signal_leave<R: Wait>(
        &self,
        rt: &R,
        inside: Inside<D>,
        condition: usize,
    ) -> (Outside<D>, bool) {
        calls::signal_leave(&self.raw_monitor, inside, condition)
    }

    fn notify(&self, inside: &mut Inside<D>, condition: usize) -> bool {
        calls::notify(&self.raw_monitor, inside, condition)
    }

    fn broadcast(&self, inside: &mut Inside<D>, condition: usize) -> usize {
        calls::broadcast(&self.raw_monitor, inside, condition)
    }

    fn state<'a>(&self, inside: &'a Inside<D>) -> &'a D {
        inside.state()
    }

    fn state_mut<'a>(inside: &'a mut Inside<D>, monitor: &Self) -> &'a mut D {
        let guarded = &mut inside.guarded;
        &mut guarded.held.contents.state
    }

    fn lists<'a>(&self, inside: &'a Inside<D>) -> &'a Book {
        inside.lists()
    }

    fn queue(&self, inside: &Inside<D>, condition: usize) -> bool {
        inside.queue(condition)
    }

    fn first(&self, inside: &Inside<D>, condition: usize) -> Option<u64> {
        inside.first(condition)
    }

    ghost stands = { λ m o h. (
      h.stands,
      (λ j. (h.sized j).conditions) ∙ (λ j. (T.kinds_are m j).conditions),
      (λ j. (h.sized j).mesa) ∙ (λ j. (T.kinds_are m j).mesa),
      h.is_outside,
    ) };

    ghost stands_in = { λ m i h. (
      h.stands,
      (λ j. (h.sized j).conditions) ∙ (λ j. (T.kinds_are m j).conditions),
      (λ j. (h.sized j).mesa) ∙ (λ j. (T.kinds_are m j).mesa),
      h.is_inside,
    ) };

    ghost lists_are = { λ m i h. refl };

    ghost rise = { λ m i c h. IsNonDecreasing-priorities i.front.events c };

    ghost takes_data = { λ i d. refl };

    ghost keeps_of = { λ m i d h. record {
      of = h.of;
      sized = h.sized;
      stands = h.stands;
      is_inside = h.is_inside;
    } };

    ghost keeps_place = { λ i d. refl };

    ghost keeps_lists = { λ i d. refl };

    ghost keeps_front = { λ i d. refl };
}
