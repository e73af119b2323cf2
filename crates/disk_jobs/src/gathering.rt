//! The report, made of the results of the workers.
ghost use Rattle.std.specs.Prelude.{◌≡◌, ◌↔◌, ◌≤◌, length, IfOk, IfErr, IsOk, IsTrue};
ghost use Rattle.disk_jobs.specs.Gatherings.{Agrees, AgreesInOrder};
ghost use Rattle.disk_jobs.specs.Reports.{account_of};
ghost use Rattle.disk_jobs.specs.Services.{served_from, service, sum_of};

use crate::done::Done;
use crate::fault::ServiceFault;
use crate::jobs::{Jobs, MOST_JOBS};
use crate::report::Report;

/// Makes the report of `results`, in the order of the jobs. Returns `Torn` unless three things hold: the results are,
/// in any order, each job of `list` once with its cylinder; `jobs` and `done` are how many there are; and `sum` is the
/// sum of their blocks.
pub fn gather(
    list: &Jobs,
    results: Vec<Done>,
    jobs: u64,
    sum: u64,
    done: u32,
) -> Result<Report, ServiceFault>
    ensures ok { IsOk result ↔ Agrees list.now.cylinders results.items jobs sum done }
    ensures report { IfOk result (λ r. account_of r ≡ service list.now.cylinders) }
    ensures torn { IfErr result (λ f. f ≡ ServiceFault.Torn) }
{
    let mut lines = results;
    lines.sort_unstable_by_key(|d| d.job());
    if agrees(list, lines.as_slice(), jobs, sum, done) {
        Ok(Report { lines, jobs, sum })
    } else {
        Err(ServiceFault::Torn)
    }
}

// Returns true if the lines are those of the jobs, in order, and the counts are right.
#[tactic(auto, using(crate::proofs::Gathered::in_order_length))]
fn agrees(list: &Jobs, lines: &[Done], jobs: u64, sum: u64, done: u32) -> bool
    ensures { IsTrue result ↔ AgreesInOrder list.now.cylinders lines.now jobs sum done }
{
    let count = list.len();
    if !is_in_order(list.cylinders(), lines) {
        return false;
    }
    let blocks = sum_of(lines);
    jobs == count as u64 && done as usize == count && sum == blocks
}

// Returns true if the lines are each job once, in order and with its cylinder.
fn is_in_order(cylinders: &[u16], lines: &[Done]) -> bool
    ensures { IsTrue result ↔ (lines.now ≡ served_from 0 cylinders.now) }
{
    if lines.len() != cylinders.len() {
        return false;
    }
    for i in 0..lines.len() {
        if lines[i].job() as usize != i || lines[i].cylinder() != cylinders[i] {
            return false;
        }
    }
    true
}

// Returns the sum of the blocks of the lines.
fn sum_of(lines: &[Done]) -> u64
    requires { length lines.now ≤ 4096 }
    ensures { result ≡ sum_of lines.now }
{
    let mut sum = 0u64;
    for i in 0..lines.len() {
        sum += u64::from(lines[i].block());
    }
    sum
}
