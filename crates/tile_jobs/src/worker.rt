//! Runs one worker, which takes jobs until none is left or a fault occurs.
ghost use Rattle.std.specs.Prelude.{◌≤◌};
ghost use Rattle.tile_jobs.specs.Ends.{IsNew};
ghost use Rattle.tile_jobs.specs.Workers.{IsOutcome};

use crate::JobFault;
use crate::gate::Gate;
use crate::seat::{Seat, Take};
use crate::slots::JobResult;
use crate::work::Work;
use std::alloc::{AllocError, Global};
use std::snapshot::Snapshot;
use std::sync::Wait;
use std::thread;
use std::thread::Promise;

/// A worker's seat, and the results of all jobs that the seat took.
#[derive(Drop)]
pub struct WorkerResult<T> {
    pub seat: Seat,
    pub answers: Vec<JobResult<T>>,
}

/// Takes and runs jobs until no deque holds one, or a job or an allocation fails.
pub(crate) fn work_seat<R: Wait, W: Work, G: Gate>(
    rt: &R,
    alloc: Global,
    work: &W,
    gate: &G,
    mut seat: Seat,
) -> Result<WorkerResult<W::Out>, JobFault>
where
    W::Out: Drop,
    requires jobs { seat.own.jobs ≤ W.most work.now }
    requires new { IsNew seat }
    ensures { IsOutcome (W.gives work.now) seat result }
{
    let mut answers = Vec::new(alloc);
    // Steals may lose any number of races, so the number of turns has no bound.
    for _ in rt.forever() {
        match seat.try_take() {
            Take::Job(job) => {
                gate.enter(job);
                let out = work.run(alloc, job)?;
                gate.leave(job);
                answers
                    .push(JobResult { job, out })
                    .map_err(AllocError::from)?;
            }
            Take::Again => thread::yield_now(),
            Take::Empty => break,
        }
    }
    Ok(WorkerResult { seat, answers })
}

/// The promise that the worker at `seat` returns a result of each job taken, or a fault.
#[derive(Drop)]
pub struct WorkerPromise<'a, W> {
    pub work: &'a W,
    pub seat: Snapshot<Seat>,
}

impl<'a, W: Work> Promise<Result<WorkerResult<W::Out>, JobFault>> for WorkerPromise<'a, W> {
    ghost use Rattle.tile_jobs.specs.Workers.{IsOutcome};

    ghost kept_by = { λ p r. IsOutcome (W.gives p.work.now) p.seat.value r };
}
