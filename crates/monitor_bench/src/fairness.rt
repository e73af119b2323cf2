//! How many others are admitted between two visits of a place, with threads that enter again as soon as they have left.
use crate::turns::Counter;
use hoare_law::monitor::Monitor;
use std::io;
use std::sync::Wait;

/// What places met between one visit and the next.
#[derive(Clone, Copy, Drop)]
pub struct Others {
    /// The most admissions of others in between.
    pub largest: u64,
    /// The sum of the admissions of others in between.
    pub sum: u64,
    /// How often no other was admitted in between.
    pub none: u64,
    /// How often a place entered again.
    pub visits: u64,
}

impl Others {
    /// The record before any visit.
    pub const NONE: Others = Others {
        largest: 0,
        sum: 0,
        none: 0,
        visits: 0,
    };

    // Returns the record with one more visit. Since the visit before it others were admitted `others` times.
    fn after(self, others: u64) -> Others {
        Others {
            largest: self.largest.max(others),
            sum: self.sum.saturating_add(others),
            none: self.none.saturating_add(u64::from(others == 0)),
            visits: self.visits.saturating_add(1),
        }
    }

    /// Prints a line for each figure: the most admissions, their mean, rounded down to hundredths, and the share of
    /// visits before which no other was admitted, in whole percent, rounded down. Returns an error if printing fails.
    pub fn show<R: Print>(&self, rt: &R) -> io::Result<()> {
        let visits = u128::from(self.visits.max(1));
        let mean = u128::from(self.sum) * 100 / visits;
        let none = u128::from(self.none) * 100 / visits;
        println!(rt; "others_largest {} places", self.largest)?;
        println!(rt; "others_mean {}.{:02} places", mean / 100, mean % 100)?;
        println!(rt; "others_none {none} percent")
    }

    // Returns the record of the visits of both records.
    fn and(self, more: Others) -> Others {
        Others {
            largest: self.largest.max(more.largest),
            sum: self.sum.saturating_add(more.sum),
            none: self.none.saturating_add(more.none),
            visits: self.visits.saturating_add(more.visits),
        }
    }
}

/// Enters and leaves, `turns` times. Returns what the place met. The data count the admissions of all places.
pub fn count_others<R: Wait, M: Monitor<Counter>>(rt: &R, m: &M, out: M::Out, turns: u64) -> Others
    requires { M.is_of m.now out }
{
    let mut out = out;
    let mut others = Others::NONE;
    let mut last = None;
    for _ in 0..turns {
        let mut inside = m.enter(rt, out);
        let data = M::state_mut(&mut inside, m);
        let before = data.value;
        let after = before.wrapping_add(1);
        data.value = after;
        out = m.leave(rt, inside);
        if let Some(last) = last {
            others = others.after(before.wrapping_sub(last));
        }
        last = Some(after);
    }
    others
}

/// Returns the record of the visits of all records.
pub fn all_met(records: Vec<Others>) -> Others {
    records.iter().fold(Others::NONE, |all, one| all.and(*one))
}
