//! Runs numbered jobs on threads and returns the results in job order.
//!
//! [`Work`] defines what a job does and returns; jobs are numbered from 0. [`run_jobs`] returns
//! the result of each job, whichever worker ran it.
//!
//! [`run_jobs`] uses a [`Board`], which deals the jobs to deques, one for each worker. By its
//! [`Seat`] a worker takes the jobs of its own deque, then steals from the other deques. Seats
//! never lock or wait. After its jobs each deque has end marks, one for each seat.
//!
//! Modules, callers first:
//!
//! - `running`: runs all jobs on a number of workers
//! - `threads`: runs the workers on threads of their own or on the caller's
//! - `worker`: one worker at its seat
//! - `board`: deals jobs to seats, and lists the jobs taken and left
//! - `dealing`: fills all deques and makes the seats
//! - `dealer`: fills one deque with jobs and end marks
//! - `closing`: empties one deque and lists the jobs left in it
//! - `seat`: one worker's access to all deques
//! - `ends`: a seat's access to one deque
//! - `deque`: the protocol of one deque
//! - `slots`: results in job order
//! - `reserved`: pushes to lists of sufficient capacity
//! - `work`: what a job does
//! - `gate`: callbacks for stages, jobs and parts of jobs
#![tactic(auto)]

ghost use Rattle.std.specs.Prelude.{◌≡◌, ◌<◌, ◌≤◌, ◌⊎◌, ◌↔◌, Err, IfErr, OnOk};

mod board;
mod closing;
mod dealer;
mod dealing;
mod deque;
mod ends;
mod gate;
mod reserved;
mod running;
mod seat;
mod slots;
mod threads;
mod work;
mod worker;

pub use board::{Board, Closed};
pub use gate::{Gate, NoGate};
pub use running::{run_jobs, run_jobs_capped};
pub use seat::{Seat, Take};
use std::alloc::AllocError;
pub use work::Work;

/// The greatest number of workers, and of seats of a board.
pub const MOST_WORKERS: u32 = 64;

/// The greatest number of jobs of a board.
pub const MOST_JOBS: u32 = 65_536;

/// Why a run of jobs failed.
#[derive(Clone, Copy, PartialEq, Eq, Debug)]
pub enum JobFault {
    /// Memory ran out in a job, or for the board, the threads or the results.
    Memory,
    /// The number of workers or seats is 0 or above `MOST_WORKERS`.
    BadWorkers,
    /// A thread could not be started, or [`run_jobs_capped`] needs more threads than it may start.
    NoThread,
}

/// Checks a number of workers or of seats.
///
/// # Errors
///
/// [`JobFault::BadWorkers`] if the number is 0 or above [`MOST_WORKERS`].
pub fn check_workers(workers: u32) -> Result<(), JobFault>
    ensures fit { OnOk result ((0 < workers) × (workers ≤ MOST_WORKERS)) }
    ensures bad { (result ≡ Err JobFault.BadWorkers) ↔ ((workers ≡ 0) ⊎ (MOST_WORKERS < workers)) }
    ensures fault { IfErr result (λ e. e ≡ JobFault.BadWorkers) }
{
    if workers == 0 || workers > MOST_WORKERS {
        return Err(JobFault::BadWorkers);
    }
    Ok(())
}

impl From<AllocError> for JobFault {
    ghost use Rattle.std.specs.Prelude.{◌≡◌};
    ghost use Rattle.tile_jobs.specs.declared.JobFault.TheVariants.{Memory};

    ghost from_gives = { λ e r. r ≡ Memory };

    fn from(_error: AllocError) -> JobFault {
        JobFault::Memory
    }
}
