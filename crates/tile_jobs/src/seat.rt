//! A seat: one worker's access to all deques of its board.
//!
//! [`Seat::try_take`] takes the first job of the seat's own deque, or tries to steal one.
ghost use Rattle.std.specs.Prelude.{◌≡◌, ◌≤◌, [], vec_capacity, IfOk};
ghost use Rattle.tile_jobs.specs.Ends.{SeatState, seat_of, IsSeat, SameSeat, MarksStay, HasAllMarks};
ghost use Rattle.tile_jobs.specs.Take.{MatchTake, TakesJob, LosesRace, FindsNone};

use crate::ends::{OtherEnd, OwnEnd, RoundOutcome, steal_round};
use crate::reserved::put;
use std::alloc::{AllocError, Global};
use std::marker::Model;

/// The outcome of [`Seat::try_take`].
#[derive(Clone, Copy, PartialEq, Eq, Debug)]
pub enum Take {
    /// The job that the caller has to run; no other seat gets it.
    Job(u32),
    /// No job, since a steal lost a race. A later try may get a job.
    Again,
    /// No deque holds a job, now or later.
    Empty,
}

/// One worker's access to all deques of a board, and the jobs that it took.
#[derive(Drop)]
pub struct Seat {
    number: u32,
    own: OwnEnd,
    // one end (handle) of each other deque, in the order of the deques
    others: Vec<OtherEnd>,
    taken: Vec<u32>,
}

impl Model for Seat {
    ghost Value = { SeatState };

    ghost view = { λ s. seat_of s.number s.own s.others.items s.taken.items };

    ghost invariant = { λ s. IsSeat (seat_of s.number s.own s.others.items s.taken.items)
        × (s.own.jobs ≤ vec_capacity s.taken) };
}

impl Seat {
    /// Makes a seat that took no job, with capacity for the numbers of all `jobs` jobs.
    pub(crate) fn new(
        alloc: Global,
        number: u32,
        own: OwnEnd,
        others: Vec<OtherEnd>,
        jobs: u32,
    ) -> Result<Seat, AllocError>
        requires seat { IsSeat (seat_of number own others.items []) }
        requires jobs { own.jobs ≡ jobs }
        ensures { IfOk result (λ s. s ≡ seat_of number own others.items []) }
    {
        let taken = Vec::with_capacity(alloc, jobs as usize)?;
        Ok(Seat {
            number,
            own,
            others,
            taken,
        })
    }

    /// Returns the capacity of the list of jobs taken.
    /// It is at least the board's number of jobs.
    pub(crate) fn capacity(&self) -> usize
        ensures { self.now.own.jobs ≤ result }
    {
        self.taken.capacity()
    }

    pub(crate) fn into_parts(self) -> (OwnEnd, Vec<OtherEnd>, Vec<u32>)
        ensures seat { IsSeat self }
        ensures parts { self ≡ seat_of self.number result.0 result.1.items result.2.items }
    {
        let Seat {
            number: _,
            own,
            others,
            taken,
        } = self;
        (own, others, taken)
    }

    /// Takes the first job of the seat's own deque, or else tries to steal one.
    ///
    /// Tries at most one steal at each other deque, from the next seat's to the last, then from the
    /// first on. A seat gets the jobs of one deque in rising order. Never allocates or waits.
    ///
    /// Returns [`Take::Empty`] once this seat took one end mark of each deque: no job follows an
    /// end mark. Returns [`Take::Again`] only if a steal of this call lost a race to another seat.
    ///
    /// # Examples
    ///
    /// ```ignore
    /// match seat.try_take() {
    ///     Take::Job(job) => run(job),
    ///     Take::Again => thread::yield_now(),
    ///     Take::Empty => break,
    /// }
    /// ```
    pub fn try_take(&mut self) -> Take
        ensures same { SameSeat self.old self.new }
        ensures stay { MarksStay self.old self.new }
        ensures over { HasAllMarks self.old → result ≡ Take.Empty }
        ensures took { MatchTake result (λ j. TakesJob self.old j self.new)
            (LosesRace self.old self.new) (FindsNone self.old self.new) }
    {
        if let Some(job) = self.own.take() {
            put(&mut self.taken, job);
            return Take::Job(job);
        }
        match steal_round(&mut self.others, self.number as usize) {
            RoundOutcome::Job(job) => {
                put(&mut self.taken, job);
                Take::Job(job)
            }
            RoundOutcome::LostRace => Take::Again,
            RoundOutcome::Nothing => Take::Empty,
        }
    }
}
