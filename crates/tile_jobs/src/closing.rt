//! Closes one deque: joins the other seats' ends (handles) to its owner's, and lists the jobs left.
ghost use Rattle.std.specs.Prelude.{◌≡◌, ℕ, ◌+◌, ◌-◌, ◌<◌, ◌≤◌, true, false, List, [], ◌++◌, length, drop, vec_len, vec_capacity, MatchOption};
ghost use Rattle.crossbeam_deque.specs.Handles.{worker_deque, worker_view, worker_flavor};
ghost use Rattle.tile_jobs.specs.Board.{times};
ghost use Rattle.tile_jobs.specs.Ends.{ClosingState, closing_of, IsClosing, Begins, AbsorbedEnd, PoppedJob, PoppedMark, deal_of};

use crate::deque::{Deque, DequeEntry, SplitsEnd, Whole, pop_next};
use crate::ends::{OtherEnd, OwnEnd};
use crate::reserved::put;
use std::marker::Model;

/// A deque that is being closed, and whether its owner took an end mark.
#[derive(Drop)]
pub struct Closing {
    worker: Deque,
    marked: bool,
}

impl Model for Closing {
    ghost Value = { ClosingState };

    ghost view = { λ s. closing_of (worker_deque s.worker) s.marked (worker_view s.worker) };

    ghost invariant = { λ s. IsClosing s.marked (worker_view s.worker)
        × (worker_flavor s.worker ≡ 0) };
}

impl Closing {
    pub(crate) fn new(own: OwnEnd) -> Closing
        ensures { Begins own result }
    {
        let (worker, marked) = own.into_parts();
        Closing { worker, marked }
    }

    /// Joins `other`, an end with its list of jobs and its mark, to the owner's end.
    pub(crate) fn absorb(&mut self, other: OtherEnd)
        requires { self.old.id ≡ other.id }
        ensures { AbsorbedEnd self.old other self.new }
    {
        let pass = other.into_pass();
        self.worker.absorb::<SplitsEnd>(pass);
    }

    /// Pops the next entry: a job, or an end mark, which no job follows.
    /// Returns `None` for an end mark.
    pub(crate) fn next(&mut self) -> Option<u32>
        requires back { self.old.back ≡ self.old.seats }
        requires unmarked { self.old.marked ≡ false }
        ensures { MatchOption result (PoppedMark self.old self.new)
            (λ j. PoppedJob self.old j self.new) }
    {
        match pop_next(&mut self.worker) {
            DequeEntry::Job(job) => Some(job),
            DequeEntry::End => {
                self.marked = true;
                None
            }
        }
    }

    /// Drops the deque.
    /// `len_as` yields the fact that each job dealt to the deque was taken exactly once.
    pub(crate) fn finish(self)
        requires back { self.back ≡ self.seats }
        requires marked { self.marked ≡ true }
        ensures { (y : ℕ) → times y (self.took ++ self.gathered) ≡ times y (deal_of self) }
    {
        let Closing {
            mut worker,
            marked: _,
        } = self;
        worker.len_as::<Whole>();
    }

    /// Moves the jobs that are left in the deque to the end of `left`.
    /// No job is left once an end mark was taken, since the jobs precede all end marks.
    pub(crate) fn empty_into(self, left: &mut Vec<u32>)
        requires back { self.back ≡ self.seats }
        requires marked { self.marked ≡ true → 0 < self.marks }
        requires capacity { vec_len left.old + length (deal_of self)
            ≤ vec_capacity left.old + length self.took }
        ensures capacity { vec_capacity left.old ≤ vec_capacity left.new }
        ensures left { (p : List ℕ) × (left.new.items ≡ left.old.items ++ p)
            × ((k : ℕ) × (p ≡ drop k (deal_of self))) × (0 < self.marks → p ≡ [])
            × ((y : ℕ) →
            times y (self.took ++ self.gathered) + times y p ≡ times y (deal_of self)) }
    {
        let mut closing = self;
        while !closing.marked {
            match closing.next() {
                Some(job) => put(left, job),
                None => {}
            }
        }
        closing.finish();
    }
}
