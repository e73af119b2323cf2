//! What a user writes: a program of a few threads over one monitor, whose orders are tried.
ghost use Rattle.std.specs.Prelude.{IfSome};
ghost use Rattle.hoare_law.specs.Priorities.{nobody};

use hoare_law::data::MonitorData;
use hoare_law::monitor::Monitor;
use std::alloc::Global;
use std::sync::Wait;

/// A program of a few threads over one monitor. Its threads should share nothing but the monitor: else a repeated run
/// may come to other choices.
pub trait Program<D: MonitorData, M: Monitor<D>>: Drop + Send + Sync {
    /// Returns the number of threads, 1 to 63.
    fn threads(&self) -> usize;

    /// Creates the data with which a run begins. The implementation must prove `rest` of them with no process waiting.
    /// If it returns `None`, the exploration is refused.
    fn open(&self, alloc: Global) -> Option<D>
        ensures { IfSome result (λ d. D.rest d nobody) };

    /// Does in one run what the thread `number` does, counted from 0: it uses the monitor `m` by its place `out`.
    /// Returns the place, and the thread's answer for `is_right`.
    fn act<R: Wait>(&self, rt: &R, m: &M, out: M::Out, number: usize) -> (M::Out, u64)
        requires { M.is_of m.now out }
        ensures { M.is_of m.now result.0 };

    /// Returns true if a run in which all threads ended was right. `left` are the data at its end, and `answers` the
    /// answers of the threads, in the order of their numbers.
    fn is_right(&self, left: &D, answers: &[u64]) -> bool;
}
