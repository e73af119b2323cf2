//! The disk head that C keeps.
ghost use Rattle.std.specs.Prelude.{◌≡◌};
ghost use Rattle.sweep_schedulers.specs.Heads.{due};

use std::marker::Model;
use sweep_schedulers::direction::Direction;
use sweep_schedulers::head::Head;

/// Four words of C's: the cylinder under the head; the last cylinder, at most 65,535; the sweep, 0 up and 1 down; and 1
/// while the drive is out. Four words of 0 are a head: at cylinder 0 of a disk of one cylinder, sweeping up, with the
/// drive in. To a contract it is a `Disk` with no grant counted as due.
#[repr(C)]
#[derive(Drop)]
pub struct DiskHead {
    at: u64,
    last: u64,
    sweep: u64,
    out: u64,
}

impl Model for DiskHead {
    ghost use Rattle.sweep_schedulers.specs.Heads.{Disk};
    ghost use Rattle.head_c.specs.Words.{disk_of, out_of, sweep_of, sweep_same, out_same, IsHead};

    ghost Value = { Disk (Unit {0}) };

    ghost view = { λ h. disk_of h.at h.last h.sweep h.out };

    ghost invariant = { λ h. IsHead h.at h.last h.sweep h.out };

    ghost inverse = { λ d. record {
      at = d.headpos;
      last = d.cylmax;
      sweep = sweep_of d.direction;
      out = out_of d.drive;
    } };

    ghost inverse_ok = { λ h is i. record {
      at = h.at;
      last = h.last;
      sweep = sweep_same h.sweep is.one_sweep i;
      out = out_same h.out is.one_drive i;
    } };
}

impl DiskHead {
    /// Returns the words of `head`. They don't keep the number of due grants.
    pub fn of(head: &Head<()>) -> DiskHead
        ensures { result ≡ due head.now 0 }
    {
        DiskHead {
            at: u64::from(head.headpos()),
            last: u64::from(head.cylmax()),
            sweep: head.sweep() as u64,
            out: u64::from(head.is_busy()),
        }
    }

    /// Returns the head that these words are, with no grant counted as due.
    pub fn head(&self) -> Head<()>
        ensures same { result ≡ self.now }
        ensures none_due { result.stay ≡ 0 }
    {
        let drive = if self.out == 0 { Some(()) } else { None };
        let direction = if self.sweep == 0 {
            Direction::Up
        } else {
            Direction::Down
        };
        Head::standing(drive, self.at as u16, direction, self.last as u16)
    }

    /// Writes `head`, a head of the same disk, into these words. They don't keep the number of due grants.
    pub fn keep(&mut self, head: &Head<()>)
        requires { head.now.cylmax ≡ self.old.cylmax }
        ensures { self.new ≡ due head.now 0 }
    {
        self.at = u64::from(head.headpos());
        self.sweep = head.sweep() as u64;
        self.out = u64::from(head.is_busy());
    }
}
