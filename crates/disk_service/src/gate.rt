//! What the service's caller may have done around each job.

/// Calls that a worker makes around each job that it does. All workers share the gate.
pub trait Gate {
    /// Called when a worker has the job, and has nothing of any monitor in hand.
    fn begin(&self, job: usize);

    /// Called when the worker is done with the job.
    fn end(&self, job: usize);
}

/// A gate that does nothing.
#[derive(Clone, Copy, Debug, PartialEq, Eq)]
pub struct NoGate;

impl Gate for NoGate {
    fn begin(&self, _job: usize) {}

    fn end(&self, _job: usize) {}
}
