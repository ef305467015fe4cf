//! [`Gate`]: callbacks before each stage and job, and after each job or part that succeeds.
//!
//! A stage is one run of jobs. Tests use a gate to hold jobs; the program uses one to report
//! progress.

/// Observes stages and their jobs. Only `enter` has no default.
pub trait Gate {
    /// Called once before each job, on the thread that runs it; may block.
    fn enter(&self, job: u32);

    /// Called on the caller's thread before a stage of `jobs` jobs.
    fn begin_stage(&self, _jobs: u32) {}

    /// Called after each job that succeeds, on the thread that ran it.
    fn leave(&self, _job: u32) {}

    /// Called each time a part of a job succeeds, on the thread that runs the job.
    /// The job has `parts` parts. A job without parts never calls `finish_part`.
    fn finish_part(&self, _parts: usize) {}
}

/// A gate that does nothing.
pub struct NoGate;

impl Gate for NoGate {
    fn enter(&self, _job: u32) {}
}
