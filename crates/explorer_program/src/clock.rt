//! The alarm clock: a sleeper that sets its alarm after the last tick sleeps for ever.

use hoare_law::monitor::Monitor;
use order_explorer::{Explored, Place, Program};
use std::alloc::Global;
use std::sync::Wait;
use timed_schedulers::alarm::Alarm;

/// Places 0 and 1 sleep for a tick. Place 2 ticks twice, maybe before they set their alarms. The answer of each is 1 if
/// its last call wasn't refused, else 0.
#[derive(Clone, Copy)]
pub struct Sleepers;

impl Program<Alarm, Explored<Alarm>> for Sleepers {
    fn threads(&self) -> usize {
        3
    }

    fn open(&self, _alloc: Global) -> Option<Alarm> {
        Some(Alarm::at(0))
    }

    fn act<R: Wait>(
        &self,
        rt: &R,
        m: &Explored<Alarm>,
        out: Place<Alarm>,
        number: usize,
    ) -> (Place<Alarm>, u64)
        requires { ⟦<Explored<Alarm> as Monitor<Alarm>>⟧.is_of m.now out }
        ensures { ⟦<Explored<Alarm> as Monitor<Alarm>>⟧.is_of m.now result.0 }
    {
        if number < 2 {
            let (out, woken) = Alarm::wakeme(m, rt, out, 1);
            return (out, u64::from(woken.is_ok()));
        }
        let (out, _first) = Alarm::tick(m, rt, out);
        let (out, second) = Alarm::tick(m, rt, out);
        (out, u64::from(second.is_ok()))
    }

    fn is_right(&self, _left: &Alarm, answers: &[u64]) -> bool {
        !answers.contains(&0)
    }
}
