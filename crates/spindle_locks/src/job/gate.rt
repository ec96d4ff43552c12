//! A gate: a user's own calls round each job of a lock.

/// Called before a job's first item is run, and after its last one was, by the thread that runs the job.
///
/// `number` is the job's number in its round, from 0. A gate serves the lock that its pool opened, and not the
/// locks that jobs open. It is this port's own: spindle has none.
pub trait Gate {
    /// The job of this number is about to run.
    fn begun(&self, number: usize);

    /// The job of this number has run.
    fn done(&self, number: usize);
}

/// The gate that does nothing.
#[derive(Clone, Copy)]
pub struct NoGate;

impl Gate for NoGate {
    fn begun(&self, _number: usize) {}

    fn done(&self, _number: usize) {}
}
