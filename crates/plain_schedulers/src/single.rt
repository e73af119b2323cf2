//! A single item, for one process at a time.
ghost use Rattle.std.specs.Prelude.{◌≡◌, ◌↔◌, ◌<◌, ℕ, IsSome, IsTrue, Some, None};
ghost use Rattle.hoare_law.specs.Priorities.{nobody};
ghost use Rattle.plain_schedulers.specs.Singles.{SingleRests};
ghost use Rattle.plain_schedulers.specs.SingleTraces.{Acquires, Releases};

use hoare_law::data::MonitorData;
use hoare_law::monitor::{Monitor, PLAIN};
use hoare_law::waits::Waits;
use std::marker::Model;
use std::sync::Wait;
use std::{error, fmt};

/// The condition *nonbusy* of a `Single`: a process waits on it until the item is in.
pub const NONBUSY: usize = 0;

/// A single item that one process at a time takes out (Hoare 1974, Introduction: the single resource scheduler).
/// Condition 0 is *nonbusy* (`NONBUSY`); busy means that the item is out. To a contract a `Single` is an `Option` of
/// its item.
///
/// With a monitor `m` of `Single::with(7u64)`, and `out`, a place of it:
///
/// ```rust
/// let (out, item) = Single::acquire(&m, &rt, out);
/// let (out, released) = Single::release(&m, &rt, out, item + 1);
/// assert!(rt; item == 7 && released.is_ok());
/// ```
#[derive(Drop)]
pub struct Single<T> {
    item: Option<T>,
}

impl<T> Model for Single<T> {
    ghost use Rattle.std.specs.Prelude.{Option};

    ghost Value = { Option T };

    ghost view = { λ s. s.item };
}

/// Why `release` is refused: an item is in, so none can be put in. It has the given item.
#[derive(Debug, Drop)]
pub struct NotOut<T> {
    /// The item that was given to `release`.
    pub item: T,
}

impl<T> fmt::Display for NotOut<T> {
    fn fmt<W: fmt::Write>(&self, f: &mut fmt::Formatter<W>) -> fmt::Result {
        write!(f, "no item is out")
    }
}

impl<T: fmt::Debug + Drop> error::Error for NotOut<T> {}

impl<T: Drop> MonitorData for Single<T> {
    ghost use Rattle.std.specs.Prelude.{⊤};
    ghost use Rattle.plain_schedulers.specs.Singles.{SingleRests, SingleReady};

    const CONDITIONS: usize = 1;

    ghost CONDITIONS = { 1 };

    const MESA: usize = 0;

    ghost MESA = { 0 };

    ghost inv = { λ s. ⊤ };

    ghost rest = { λ s q. SingleRests s (q 0) };

    ghost ready = { λ c p s q. SingleReady s };

    fn rest_holds<W: Waits>(&self, lists: &W) -> bool {
        self.item.is_none() || lists.count(NONBUSY) == 0
    }

    fn ready_holds<W: Waits>(&self, condition: usize, priority: u64, lists: &W) -> bool {
        self.is_in()
    }

    ghost rest_inv = { λ s q h. tt };

    ghost ready_inv = { λ c p s q h. tt };
}

impl<T: Drop> Single<T> {
    /// Creates a single with `item` in.
    pub fn with(item: T) -> Single<T>
        ensures item { result ≡ Some item }
        ensures rest { SingleRests result (nobody 0) }
    {
        Single { item: Some(item) }
    }

    /// Returns the item if it is in, else `None`.
    pub fn into_item(self) -> Option<T>
        ensures { result ≡ self }
    {
        let Single { item } = self;
        item
    }

    // Returns true if the item is in.
    fn is_in(&self) -> bool
        ensures { IsTrue result ↔ IsSome self.now }
    {
        self.item.is_some()
    }

    // Takes the item out. Returns `None` if it is out.
    fn take(&mut self) -> Option<T>
        ensures value { result ≡ self.old }
        ensures after { self.new ≡ None }
    {
        self.item.take()
    }

    // Puts `item` in.
    fn put(&mut self, item: T)
        ensures { self.new ≡ Some item }
    {
        self.item = Some(item);
    }

    /// Takes the item out, once it is in, and returns it. The caller waits on *nonbusy*, once, if it finds the item
    /// out.
    pub fn acquire<R: Wait, M: Monitor<Single<T>>>(m: &M, rt: &R, out: M::Out) -> (M::Out, T)
        requires { M.is_of m.now out }
        ensures of { M.is_of m.now result.0 }
        ensures place { M.place result.0 ≡ M.place out }
        ensures trace { Acquires (M.place out) result.1 (M.front out) (M.front result.0) }
    {
        let mut inside = m.enter(rt, out);
        if !m.state(&inside).is_in() {
            inside = m.wait(rt, inside, NONBUSY, PLAIN);
        }
        match M::state_mut(&mut inside, m).take() {
            Some(item) => (m.leave(rt, inside), item),
            None => unreachable!(),
        }
    }

    /// Puts `item` in, and leaves by a signal on *nonbusy*, which resumes a waiter if there is one. Refused with
    /// `NotOut` exactly if an item is in: then nothing changed, and the given item is returned. (An item isn't bound to
    /// its monitor: any item of the type may be put in.)
    pub fn release<R: Wait, M: Monitor<Single<T>>>(
        m: &M,
        rt: &R,
        out: M::Out,
        item: T,
    ) -> (M::Out, Result<(), NotOut<T>>)
        requires { M.is_of m.now out }
        ensures of { M.is_of m.now result.0 }
        ensures place { M.place result.0 ≡ M.place out }
        ensures trace { Releases (M.place out) item (M.front out) (M.front result.0) result.1 }
    {
        let mut inside = m.enter(rt, out);
        if m.state(&inside).is_in() {
            return (m.leave(rt, inside), Err(NotOut { item }));
        }
        M::state_mut(&mut inside, m).put(item);
        let (out, _resumed) = m.signal_leave(rt, inside, NONBUSY);
        (out, Ok(()))
    }
}
