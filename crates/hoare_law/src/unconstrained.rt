//! Monitor data whose assertions always hold.
use crate::data::MonitorData;
use crate::waits::Waits;

/// A value with assertions that always hold, for tests and measures. It has `CONDITIONS` conditions, all Hoare's. Every
/// value is at rest, and ready for every waiter.
#[derive(Clone, Copy, Debug, Drop, PartialEq, Eq)]
pub struct Unconstrained<T, const CONDITIONS: usize> {
    /// The value. Each is allowed.
    pub value: T,
}

impl<T, const COUNT: usize> MonitorData for Unconstrained<T, COUNT> {
    ghost use Rattle.std.specs.Prelude.{⊤};

    const CONDITIONS: usize = COUNT;

    ghost CONDITIONS = { COUNT };

    const MESA: usize = 0;

    ghost MESA = { 0 };

    ghost inv = { λ s. ⊤ };

    ghost rest = { λ s q. ⊤ };

    ghost ready = { λ c p s q. ⊤ };

    fn rest_holds<W: Waits>(&self, _lists: &W) -> bool {
        true
    }

    fn ready_holds<W: Waits>(&self, _condition: usize, _priority: u64, _lists: &W) -> bool {
        true
    }

    ghost rest_inv = { λ s q h. tt };

    ghost ready_inv = { λ c p s q h. tt };
}
