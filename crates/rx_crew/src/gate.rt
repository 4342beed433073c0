//! Where a worker enters and leaves a run of a job.

/// Is told when a worker begins and ends a job, both by their numbers from 0.
pub trait Gate {
    /// A worker is about to run a job.
    fn enter(&self, worker: u32, job: u32);

    /// A worker has run a job.
    fn leave(&self, worker: u32, job: u32);
}

/// Lets everyone pass.
#[derive(Clone, Copy, Debug)]
pub struct OpenGate;

impl Gate for OpenGate {
    fn enter(&self, _worker: u32, _job: u32) {}

    fn leave(&self, _worker: u32, _job: u32) {}
}
