//! Runs the workers, one at each seat, on the caller's thread or on threads of their own.
ghost use Rattle.std.specs.Prelude.{◌≡◌, ◌≢◌, ◌≤◌, vec_len, IfOk, IfErr, OnOk};
ghost use Rattle.tile_jobs.specs.Workers.{AreNew, AreOutcomes};

use crate::JobFault;
use crate::gate::Gate;
use crate::reserved::put;
use crate::seat::Seat;
use crate::work::Work;
use crate::worker::{WorkerPromise, WorkerResult, work_seat};
use std::alloc::{AllocError, Global};
use std::snapshot::Snapshot;
use std::sync::Wait;
use std::thread;
use std::thread::{Promise, PromisedHandle, Scope, Threads};

fn join_all<R: Threads, T: Drop, P: Promise<T>>(rt: &R, children: Vec<PromisedHandle<T, P>>) {
    for child in children {
        child.join(rt);
    }
}

/// Runs each seat's worker on a thread of its own, and joins all threads.
///
/// Starts at most `starts` threads. Returns [`JobFault::NoThread`] if a thread cannot be started,
/// or if memory suffices and there are more seats than `starts`. Every started thread is joined
/// before the call returns, even on an error.
pub(crate) fn run_on_threads<'s, E, R: Threads + Wait + Sync, W: Work + Sync, G: Gate + Sync>(
    rt: &'s R,
    alloc: Global,
    scope: &Scope<'s, E>,
    work: &'s W,
    gate: &'s G,
    seats: Vec<Seat>,
    starts: u32,
) -> Result<Vec<Result<WorkerResult<W::Out>, JobFault>>, JobFault>
where
    W::Out: Send + Drop + 's,
    requires { AreNew (W.most work.now) seats.items }
    ensures outcomes { IfOk result (λ v. AreOutcomes (W.gives work.now) seats.items v.items) }
    ensures started { OnOk result (vec_len seats ≤ starts) }
    ensures fault { IfErr result (λ e. e ≢ JobFault.BadWorkers) }
{
    let mut children = Vec::with_capacity(alloc, seats.len())?;
    for seat in seats {
        if children.len() >= starts as usize {
            join_all(rt, children);
            return Err(JobFault::NoThread);
        }
        let promise = WorkerPromise {
            work,
            seat: Snapshot::of(&seat),
        };
        match scope.spawn_with(promise, move || work_seat(rt, alloc, work, gate, seat)) {
            Ok(child) => put(&mut children, child),
            Err(_) => {
                join_all(rt, children);
                return Err(JobFault::NoThread);
            }
        }
    }
    match thread::join_promised(rt, children) {
        Ok(results) => Ok(results),
        Err(refused) => {
            join_all(rt, refused.value);
            Err(JobFault::Memory)
        }
    }
}

/// Runs each seat's worker on the caller's thread, one after another.
pub(crate) fn run_on_caller<R: Wait, W: Work, G: Gate>(
    rt: &R,
    alloc: Global,
    work: &W,
    gate: &G,
    seats: Vec<Seat>,
) -> Result<Vec<Result<WorkerResult<W::Out>, JobFault>>, JobFault>
where
    W::Out: Drop,
    requires { AreNew (W.most work.now) seats.items }
    ensures outcomes { IfOk result (λ v. AreOutcomes (W.gives work.now) seats.items v.items) }
    ensures fault { IfErr result (λ e. e ≡ JobFault.Memory) }
{
    let mut results = Vec::with_capacity(alloc, seats.len())?;
    for seat in seats {
        results
            .push(work_seat(rt, alloc, work, gate, seat))
            .map_err(AllocError::from)?;
    }
    Ok(results)
}
