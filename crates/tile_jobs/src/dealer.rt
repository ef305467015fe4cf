//! The dealer of one deque: pushes the deque's jobs and end marks, and makes an end, a handle of
//! the deque, for each seat.
ghost use Rattle.std.specs.Prelude.{◌≡◌, ◌+◌, ◌-◌, ◌%◌, ◌<◌, ◌≤◌, length, IfOk};
ghost use Rattle.crossbeam_deque.specs.Handles.{worker_deque, worker_view, worker_flavor, worker_index, worker_capacity, SameWorker};
ghost use Rattle.tile_jobs.specs.Board.{deal};
ghost use Rattle.tile_jobs.specs.Rule.{dealing};
ghost use Rattle.tile_jobs.specs.Ends.{DealerState, dealer_of, IsDealer, fresh};

use crate::deque::{Deque, DequeEntry, DequeKey, SplitsEnd, push};
use crate::ends::{OtherEnd, OwnEnd};
use std::alloc::{AllocError, Global};
use std::marker::Model;

/// A deque that has all its entries, but not yet the ends of all seats.
#[derive(Drop)]
pub struct Dealer {
    worker: Deque,
}

impl Model for Dealer {
    ghost Value = { DealerState };

    ghost view = { λ d. dealer_of (worker_deque d.worker) (worker_view d.worker) };

    ghost invariant = { λ d. IsDealer (worker_view d.worker) × (worker_flavor d.worker ≡ 0) };
}

/// Returns how many of the jobs below `jobs` deque `v` gets.
/// Each whole round over the seats gives the deque one job; so does a last, partial round if it
/// reaches seat `v`.
#[tactic(auto, using(std::proofs::lemmas::Bool::Decides::nat_tests, crate::proofs::Rounds::deal_count))]
fn count_jobs(jobs: u32, seats: u32, v: u32) -> u32
    requires { v < seats }
    ensures count { result ≡ length (deal jobs seats v) }
    ensures few { result ≤ jobs }
{
    let rounds = jobs / seats;
    if v < jobs % seats { rounds + 1 } else { rounds }
}

/// Pushes the jobs of deque `v` in rising order.
fn push_jobs<D: DequeKey>(worker: &mut Deque, jobs: u32, seats: u32, v: u32)
    requires place { (D.jobs ≡ jobs) × (D.seats ≡ seats) × (D.deque ≡ v) }
    requires seat { v < seats }
    requires none_yet { (worker_index worker.old ≡ 0)
        × (worker_view worker.old ≡ dealing D.jobs D.seats D.deque 0) }
    requires capacity { length (deal jobs seats v) ≤ worker_capacity worker.old }
    ensures same { SameWorker worker.old worker.new }
    ensures index { worker_index worker.new ≡ length (deal jobs seats v) }
    ensures view { worker_view worker.new
        ≡ dealing D.jobs D.seats D.deque (worker_index worker.new) }
{
    for round in 0..count_jobs(jobs, seats, v) {
        push::<D>(worker, DequeEntry::Job(v + round * seats));
    }
}

fn push_marks<D: DequeKey>(worker: &mut Deque, seats: u32)
    requires place { D.seats ≡ seats }
    requires index { worker_index worker.old ≡ length (deal D.jobs seats D.deque) }
    requires view { worker_view worker.old
        ≡ dealing D.jobs seats D.deque (worker_index worker.old) }
    requires capacity { length (deal D.jobs seats D.deque) + seats ≤ worker_capacity worker.old }
    ensures same { SameWorker worker.old worker.new }
    ensures index { worker_index worker.new ≡ length (deal D.jobs seats D.deque) + seats }
    ensures view { worker_view worker.new ≡ dealing D.jobs seats D.deque (worker_index worker.new) }
{
    for _ in 0..seats {
        push::<D>(worker, DequeEntry::End);
    }
}

impl Dealer {
    /// Makes deque `v` and pushes its jobs and end marks.
    pub(crate) fn new<D: DequeKey>(
        alloc: Global,
        jobs: u32,
        seats: u32,
        v: u32,
    ) -> Result<Dealer, AllocError>
        requires place { (D.jobs ≡ jobs) × (D.seats ≡ seats) × (D.deque ≡ v) }
        requires seat { v < seats }
        ensures { IfOk result
            (λ d. (d.jobs ≡ jobs) × (d.seats ≡ seats) × (d.deque ≡ v) × (d.marks_due ≡ seats)) }
    {
        let count = count_jobs(jobs, seats, v);
        let mut worker = Deque::fifo_as(alloc, count as usize + seats as usize)?;
        push_jobs::<D>(&mut worker, jobs, seats, v);
        push_marks::<D>(&mut worker, seats);
        Ok(Dealer { worker })
    }

    /// Makes an end for a seat that is not the owner.
    pub(crate) fn split_end(&mut self) -> Result<OtherEnd, AllocError>
        requires { 1 < self.old.marks_due }
        ensures { IfOk result (λ e. (e ≡ fresh self.old)
            × (self.new ≡ record self.old { marks_due = self.old.marks_due - 1 })) }
    {
        let thief = self.worker.stealer()?;
        let pass = self.worker.another::<SplitsEnd>();
        Ok(OtherEnd::new(thief, pass))
    }

    /// Turns the dealer into the owner's end, after all other ends were made.
    pub(crate) fn own(self) -> OwnEnd
        requires { self.marks_due ≡ 1 }
        ensures { result ≡ fresh self }
    {
        let Dealer { worker } = self;
        OwnEnd::new(worker)
    }
}
