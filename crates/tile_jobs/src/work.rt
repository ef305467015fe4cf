//! Defines [`Work`]: what each numbered job does, and which results it may return.
ghost use Rattle.std.specs.Prelude.{◌≡◌, ℕ, ◌<◌, IfOk, IfErr};

use crate::JobFault;
use std::alloc::Global;

/// Work that is split into numbered jobs. All workers share one `Work` value.
pub trait Work {
    /// The result of one job.
    type Out;

    // Only jobs below this number may run.
    ghost most: { Self → ℕ };

    // Relates a job's number to each result that the job may return.
    ghost gives: { Self → ℕ → Self.Out → Type 0 };

    /// Runs one job.
    ///
    /// # Errors
    ///
    /// Only [`JobFault::Memory`], if memory runs out.
    fn run(&self, alloc: Global, job: u32) -> Result<Self::Out, JobFault>
        requires { job < most self.now }
        ensures given { IfOk result (λ out. gives self.now job out) }
        ensures fault { IfErr result (λ e. e ≡ JobFault.Memory) };
}
