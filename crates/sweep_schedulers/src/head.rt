//! The head of a disk, which sweeps to and fro.
ghost use Rattle.std.specs.Prelude.{◌≡◌, ◌↔◌, ◌≤◌, IsTrue, None, All};
ghost use Rattle.hoare_law.specs.Priorities.{nobody, put_in};
ghost use Rattle.sweep_schedulers.specs.Heads.{HeadFree, HeadHolds, HeadRests, OnSweeps};
ghost use Rattle.sweep_schedulers.specs.Heads.{counted, due, given_out, idle, moved, one_granted, priority_at, put};
ghost use Rattle.sweep_schedulers.specs.Heads.{sweep, toward, turned, waiting_here};
ghost use Rattle.sweep_schedulers.specs.HeadTraces.{HandsOn, Releases, Requests};

use crate::direction::{DOWNSWEEP, Direction, UPSWEEP};
use crate::not_out::NotOut;
use crate::waiting::{count_equal, none_above, none_below};
use hoare_law::data::MonitorData;
use hoare_law::monitor::Monitor;
use hoare_law::waits::Waits;
use std::marker::Model;
use std::sync::Wait;

/// A disk drive whose head sweeps over the cylinders 0 to `cylmax` (Hoare 1974, Disk Head Scheduler). Busy means that
/// the drive is out. Condition 0 is *upsweep* (`UPSWEEP`); a request waits on it with its cylinder as its priority.
/// Condition 1 is *downsweep* (`DOWNSWEEP`); a request waits on it with the distance of its cylinder from the last one
/// as its priority. A request for the cylinder under the head waits for the other sweep, so that a stream of such
/// requests can't hold the head there. (In the paper it waits for the present sweep.)
///
/// With a monitor `m` of `Head::with('d', 400)`, and `out`, a place of it:
///
/// ```rust
/// let (out, granted) = Head::request(&m, &rt, out, 50);
/// let drive = granted?;
/// let (out, released) = Head::release(&m, &rt, out, drive);
/// assert!(rt; drive == 'd' && released.is_ok());
/// ```
#[derive(Drop)]
pub struct Head<T> {
    drive: Option<T>,
    headpos: u16,
    direction: Direction,
    cylmax: u16,
    stay: usize,
}

impl<T> Model for Head<T> {
    ghost use Rattle.std.specs.Prelude.{◌≤◌};
    ghost use Rattle.sweep_schedulers.specs.Heads.{Disk};

    ghost Value = { Disk T };

    ghost view = { λ h. record {
      drive = h.drive;
      headpos = h.headpos;
      direction = h.direction;
      cylmax = h.cylmax;
      stay = h.stay;
    } };

    ghost invariant = { λ h. h.headpos ≤ h.cylmax };
}

/// Why `request` is refused: the cylinder is past the last one of the disk; or the request waited, and then found a
/// disk with another last cylinder.
#[derive(Clone, Copy, Debug, PartialEq, Eq, thiserror::Error)]
#[error("the cylinder is past the last one")]
pub struct OffDisk;

impl<T: Drop> MonitorData for Head<T> {
    ghost use Rattle.sweep_schedulers.specs.Heads.{HeadHolds, HeadRests, HeadReady, inv_of_ready};

    const CONDITIONS: usize = 2;

    ghost CONDITIONS = { 2 };

    const MESA: usize = 0;

    ghost MESA = { 0 };

    ghost inv = { λ d. HeadHolds d };

    ghost rest = { λ d q. HeadRests d (q 0) (q 1) };

    ghost ready = { λ c p d q. HeadReady c p d (q 0) (q 1) };

    fn rest_holds<W: Waits>(&self, lists: &W) -> bool {
        let nobody = lists.count(UPSWEEP) == 0 && lists.count(DOWNSWEEP) == 0;
        (self.drive.is_none() || nobody)
            && self.sweeps_hold(lists)
            && (self.drive.is_some() || self.stay == self.waiting_here(lists))
    }

    fn ready_holds<W: Waits>(&self, condition: usize, priority: u64, lists: &W) -> bool {
        !self.is_busy()
            && self.sweep() == condition
            && self.priority_here() <= priority
            && priority <= u64::from(self.cylmax)
            && none_below(lists, condition, priority)
            && self.sweeps_hold(lists)
            && self.counts_with(priority, lists)
    }

    ghost rest_inv = { λ d q h. h.inv };

    ghost ready_inv = { λ c p d q h. inv_of_ready c p d (q 0) (q 1) h };
}

impl<T: Drop> Head<T> {
    /// Creates a disk of the cylinders 0 to `cylmax` with `drive` in, the head at cylinder 0, sweeping up.
    pub fn with(drive: T, cylmax: u16) -> Head<T>
        ensures made { result ≡ idle drive cylmax }
        ensures rest { HeadRests result (nobody 0) (nobody 1) }
    {
        Head {
            drive: Some(drive),
            headpos: 0,
            direction: Direction::Up,
            cylmax,
            stay: 0,
        }
    }

    /// Creates a disk of the cylinders 0 to `cylmax` with the head at `headpos`, sweeping in `direction`. The drive is
    /// in if `drive` is `Some`, and out if it is `None`. No grant is counted as due at `headpos`. The caller passes a
    /// `headpos` of at most `cylmax`.
    pub fn standing(drive: Option<T>, headpos: u16, direction: Direction, cylmax: u16) -> Head<T>
        requires { headpos ≤ cylmax }
        ensures { result ≡ record {
          drive = drive;
          headpos = headpos;
          direction = direction;
          cylmax = cylmax;
          stay = 0;
        } }
    {
        Head {
            drive,
            headpos,
            direction,
            cylmax,
            stay: 0,
        }
    }

    /// Returns the number of grants that are still due at the cylinder under the head, while the drive is out: so many
    /// requests wait for that cylinder and the present sweep, and no other request joins them. If the drive is in and
    /// isn't being handed off, the number has no meaning.
    pub fn stay(&self) -> usize
        ensures { result ≡ self.now.stay }
    {
        self.stay
    }

    /// Returns the cylinder under the head.
    pub fn headpos(&self) -> u16
        ensures at { result ≡ self.now.headpos }
        ensures on_disk { result ≤ self.now.cylmax }
    {
        self.headpos
    }

    /// Returns the last cylinder.
    pub fn cylmax(&self) -> u16
        ensures { result ≡ self.now.cylmax }
    {
        self.cylmax
    }

    // Returns true if the head is at cylinder `dest`.
    fn is_at(&self, dest: u16) -> bool
        ensures { IsTrue result ↔ (self.now.headpos ≡ dest) }
    {
        self.headpos == dest
    }

    /// Returns true if the drive is out.
    pub fn is_busy(&self) -> bool
        ensures { IsTrue result ↔ (self.now.drive ≡ None) }
    {
        self.drive.is_none()
    }

    /// Returns the condition of the present sweep: `UPSWEEP` or `DOWNSWEEP`.
    pub fn sweep(&self) -> usize
        ensures { result ≡ sweep self.now.direction }
    {
        self.direction.sweep()
    }

    /// Returns on which condition and with which priority a request for `dest` waits while the drive is out. The
    /// condition is that of the sweep that reaches `dest` from the position of the head: for the cylinder under the
    /// head, the other sweep. The caller passes a `dest` of at most `cylmax`.
    pub fn stop_at(&self, dest: u16) -> (usize, u64)
        requires { dest ≤ self.now.cylmax }
        ensures sweep { result.0 ≡ sweep (toward dest self.now) }
        ensures priority { result.1 ≡ priority_at self.now.cylmax (toward dest self.now) dest }
    {
        let going_down = self.direction == Direction::Down;
        if self.headpos < dest || (self.headpos == dest && going_down) {
            (Direction::Up.sweep(), u64::from(dest))
        } else {
            (Direction::Down.sweep(), u64::from(self.cylmax - dest))
        }
    }

    /// Takes the drive out and returns it. Returns `None` if it was out already.
    pub fn take(&mut self) -> Option<T>
        ensures drive { result ≡ self.old.drive }
        ensures after { self.new ≡ given_out self.old }
    {
        self.drive.take()
    }

    /// Moves the head to cylinder `dest`, at most `cylmax`. Leaves the waiting requests and the number of due grants as
    /// they are.
    pub fn go(&mut self, dest: u16)
        requires { dest ≤ self.old.cylmax }
        ensures { self.new ≡ moved self.old dest }
    {
        self.headpos = dest;
    }

    // Returns the priority with which a request for the cylinder under the head would wait for the present sweep.
    fn priority_here(&self) -> u64
        ensures { result ≡ priority_at self.now.cylmax self.now.direction self.now.headpos }
    {
        match self.direction {
            Direction::Up => u64::from(self.headpos),
            Direction::Down => u64::from(self.cylmax - self.headpos),
        }
    }

    // Returns the number of requests that wait for the present sweep and the cylinder under the head.
    fn waiting_here<W: Waits>(&self, lists: &W) -> usize
        requires { All (λ p. p ≤ self.now.cylmax) (W.waiting_priorities lists.now 1) }
        ensures { let q = W.waiting_priorities lists.now in result ≡ waiting_here self.now (q 0) (q 1) }
    {
        count_equal(lists, self.direction.sweep(), self.priority_here())
    }

    // Returns true if `stay` is the number of requests that wait for the present sweep and the cylinder under the head,
    // after a request with `priority` is added to the present sweep.
    fn counts_with<W: Waits>(&self, priority: u64, lists: &W) -> bool
        requires on_disk { All (λ p. p ≤ self.now.cylmax) (W.waiting_priorities lists.now 1) }
        requires one { priority ≤ self.now.cylmax }
        ensures { let q = W.waiting_priorities lists.now in IsTrue result
            ↔ (self.now.stay ≡ waiting_here self.now (put_in (λ n. n) priority (q 0))
            (put_in (λ n. n) priority (q 1))) }
    {
        let others = self.waiting_here(lists);
        if priority == self.priority_here() {
            self.stay.checked_sub(1) == Some(others)
        } else {
            self.stay == others
        }
    }

    // Sets the number of grants that are due at the cylinder under the head.
    fn count(&mut self, stay: usize)
        ensures { self.new ≡ due self.old stay }
    {
        self.stay = stay;
    }

    // Records that a request that waited for the present sweep with `priority` resumes: if it waited for the cylinder
    // under the head, one grant less is due there.
    fn grant(&mut self, priority: u64)
        ensures { self.new ≡ one_granted self.old priority }
    {
        if priority == self.priority_here() {
            self.stay = self.stay.saturating_sub(1);
        }
    }

    /// Puts `drive` in; it replaces the drive that is in, if there is one.
    pub fn put(&mut self, drive: T)
        ensures { self.new ≡ put self.old drive }
    {
        self.drive = Some(drive);
    }

    /// Turns the head: from then on it sweeps in the other direction.
    pub fn turn(&mut self)
        ensures { self.new ≡ turned self.old }
    {
        self.direction = self.direction.opposite();
    }

    // Returns true if each request that waits for a sweep waits for a cylinder ahead of the head on that sweep, or
    // under it.
    fn sweeps_hold<W: Waits>(&self, lists: &W) -> bool
        ensures { let q = W.waiting_priorities lists.now in IsTrue result
            ↔ OnSweeps self.now (q 0) (q 1) }
    {
        let last = u64::from(self.cylmax);
        none_above(lists, UPSWEEP, last)
            && none_above(lists, DOWNSWEEP, last)
            && none_below(lists, UPSWEEP, u64::from(self.headpos))
            && none_below(lists, DOWNSWEEP, u64::from(self.cylmax - self.headpos))
    }

    /// Takes the drive out, with the head at `dest`, and returns it. It does so at once if the drive is in, else after
    /// one wait for the sweep that reaches `dest` from the position of the head.
    ///
    /// Refused with `OffDisk` if `dest` is past the last cylinder: then nothing changed. A process inside may put in
    /// another disk instead of the first, through `state_mut`. A request that waited and then finds another last
    /// cylinder is refused with `OffDisk` too, even if `dest` would fit, and hands the drive off as `release` does.
    pub fn request<R: Wait, M: Monitor<Head<T>>>(
        m: &M,
        rt: &R,
        out: M::Out,
        dest: u16,
    ) -> (M::Out, Result<T, OffDisk>)
        requires { M.is_of m.now out }
        ensures of { M.is_of m.now result.0 }
        ensures place { M.place result.0 ≡ M.place out }
        ensures trace { Requests (M.place out) dest (M.front out) (M.front result.0) result.1 }
    {
        let mut inside = m.enter(rt, out);
        let cylmax = m.state(&inside).cylmax();
        if dest > cylmax {
            return (m.leave(rt, inside), Err(OffDisk));
        }
        if m.state(&inside).is_busy() {
            let (sweep, priority) = m.state(&inside).stop_at(dest);
            inside = m.wait(rt, inside, sweep, priority);
            M::state_mut(&mut inside, m).grant(priority);
            if m.state(&inside).cylmax() != cylmax {
                return (Head::hand_on(m, rt, inside), Err(OffDisk));
            }
        } else {
            M::state_mut(&mut inside, m).count(0);
        }
        let drive = M::state_mut(&mut inside, m).take();
        let inside = Head::move_to(m, inside, dest);
        match drive {
            Some(drive) => (m.leave(rt, inside), Ok(drive)),
            None => unreachable!(),
        }
    }

    /// Puts `drive` in and hands it off to the next request of the present sweep. If no request waits for the present
    /// sweep, the head turns, and the drive goes to the next request of the other sweep, if there is one. Refused with
    /// `NotOut` exactly if the drive is in: then nothing changed, and the given drive is returned. (A drive isn't bound
    /// to its monitor: any drive of the type may be put in.)
    pub fn release<R: Wait, M: Monitor<Head<T>>>(
        m: &M,
        rt: &R,
        out: M::Out,
        drive: T,
    ) -> (M::Out, Result<(), NotOut<T>>)
        requires { M.is_of m.now out }
        ensures of { M.is_of m.now result.0 }
        ensures place { M.place result.0 ≡ M.place out }
        ensures trace { Releases (M.place out) drive (M.front out) (M.front result.0) result.1 }
    {
        let mut inside = m.enter(rt, out);
        if !m.state(&inside).is_busy() {
            return (m.leave(rt, inside), Err(NotOut { item: drive }));
        }
        M::state_mut(&mut inside, m).put(drive);
        (Head::hand_on(m, rt, inside), Ok(()))
    }

    // Moves the head to `dest`, and counts the grants due there. If the head is there already, they are counted
    // already.
    fn move_to<M: Monitor<Head<T>>>(m: &M, inside: M::In, dest: u16) -> M::In
        requires of { M.is_of_in m.now inside }
        requires on_disk { dest ≤ (M.data_in inside).cylmax }
        requires sweeps { OnSweeps (moved (M.data_in inside) dest) (M.lists_in inside 0)
            (M.lists_in inside 1) }
        requires stay { (M.data_in inside).stay
            ≡ waiting_here (M.data_in inside) (M.lists_in inside 0) (M.lists_in inside 1) }
        ensures of { M.is_of_in m.now result }
        ensures place { M.place_in result ≡ M.place_in inside }
        ensures data { M.data_in result
            ≡ counted (moved (M.data_in inside) dest) (M.lists_in inside 0) (M.lists_in inside 1) }
        ensures lists { M.lists_in result ≡ M.lists_in inside }
        ensures front { M.front_in result ≡ M.front_in inside }
    {
        let mut inside = inside;
        if m.state(&inside).is_at(dest) {
            return inside;
        }
        M::state_mut(&mut inside, m).go(dest);
        Head::recount(m, inside)
    }

    // Counts as due the requests that wait for the present sweep and the cylinder under the head. If the first of the
    // sweep waits for another cylinder, there is no such request.
    fn recount<M: Monitor<Head<T>>>(m: &M, inside: M::In) -> M::In
        requires of { M.is_of_in m.now inside }
        requires inv { HeadHolds (M.data_in inside) }
        requires sweeps { OnSweeps (M.data_in inside) (M.lists_in inside 0) (M.lists_in inside 1) }
        ensures of { M.is_of_in m.now result }
        ensures place { M.place_in result ≡ M.place_in inside }
        ensures data { M.data_in result
            ≡ counted (M.data_in inside) (M.lists_in inside 0) (M.lists_in inside 1) }
        ensures lists { M.lists_in result ≡ M.lists_in inside }
        ensures front { M.front_in result ≡ M.front_in inside }
    {
        let mut inside = inside;
        let here = m.state(&inside).priority_here();
        let stay = if m.first(&inside, m.state(&inside).sweep()) == Some(here) {
            m.state(&inside).waiting_here(m.lists(&inside))
        } else {
            0
        };
        M::state_mut(&mut inside, m).count(stay);
        inside
    }

    // Hands the drive, which is in, off to the next request of the present sweep; if there is none, the head turns
    // first. Only then the grants due at the cylinder under the head have to be counted again.
    fn hand_on<R: Wait, M: Monitor<Head<T>>>(m: &M, rt: &R, inside: M::In) -> M::Out
        requires of { M.is_of_in m.now inside }
        requires free { HeadFree (M.data_in inside) (M.lists_in inside 0) (M.lists_in inside 1) }
        requires stay { (M.data_in inside).stay
            ≡ waiting_here (M.data_in inside) (M.lists_in inside 0) (M.lists_in inside 1) }
        ensures of { M.is_of m.now result }
        ensures place { M.place result ≡ M.place_in inside }
        ensures trace { HandsOn (M.place_in inside) (M.data_in inside) (M.front_in inside)
            (M.front result) }
    {
        let mut inside = inside;
        if !m.queue(&inside, m.state(&inside).sweep()) {
            M::state_mut(&mut inside, m).turn();
            inside = Head::recount(m, inside);
        }
        let sweep = m.state(&inside).sweep();
        let (out, _resumed) = m.signal_leave(rt, inside, sweep);
        out
    }
}
