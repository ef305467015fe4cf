//! A seat's ends: its handle of each deque.
//!
//! The seat pops at its own end and steals at the others.
ghost use Rattle.std.specs.Prelude.{◌≡◌, ◌≤◌, true, false, cond, length, vec_len, MatchOption};
ghost use Rattle.crossbeam_deque.specs.Handles.{taken, view as pass_view, IsPassOf, worker_deque, stealer_deque, worker_view, worker_flavor, stealer_flavor};
ghost use Rattle.tile_jobs.specs.Ends.{EndState, end_from, IsOwn, IsOther, TookJob, Kept, LostSteal, SameElsewhere};
ghost use Rattle.tile_jobs.specs.RoundOutcome.{StealsAmong};
ghost use Rattle.tile_jobs.specs.StealOutcome.{MatchSteal};

use crate::deque::{Deque, DequeEntry, Log, Thief, pop, steal};
use crossbeam_deque::Pass;
use std::marker::Model;

/// The owner's end of its deque, and whether the owner took its end mark.
#[derive(Drop)]
pub struct OwnEnd {
    worker: Deque,
    marked: bool,
}

impl Model for OwnEnd {
    ghost Value = { EndState };

    ghost view = { λ o. end_from (worker_deque o.worker) o.marked 0 (worker_view o.worker) };

    ghost invariant = { λ o. IsOwn o.marked (worker_view o.worker) × (worker_flavor o.worker ≡ 0) };
}

/// A seat's end of a deque that another seat owns.
#[derive(Drop)]
pub struct OtherEnd {
    thief: Thief,
    pass: Pass<DequeEntry, Log>,
    // whether a steal was tried; contracts alone read this field
    tried: bool,
    marked: bool,
}

impl Model for OtherEnd {
    ghost Value = { EndState };

    ghost view = { λ o. end_from (stealer_deque o.thief) o.marked (cond o.tried (taken o.pass) 0)
        (pass_view o.pass) };

    ghost invariant = { λ o. IsOther o.marked (pass_view o.pass)
        × IsPassOf (stealer_deque o.thief) o.pass × (stealer_flavor o.thief ≡ 0) };
}

/// The outcome of one steal.
#[derive(Clone, Copy, PartialEq, Eq, Debug)]
pub enum StealOutcome {
    Job(u32),
    // the end mark, taken by this steal or an earlier one
    Mark,
    // the steal lost a race
    Missed,
}

impl OwnEnd {
    pub(crate) fn new(worker: Deque) -> OwnEnd
        requires { IsOwn false (worker_view worker) × (worker_flavor worker ≡ 0) }
        ensures { result ≡ end_from (worker_deque worker) false 0 (worker_view worker) }
    {
        OwnEnd {
            worker,
            marked: false,
        }
    }

    pub(crate) fn into_parts(self) -> (Deque, bool)
        ensures own { IsOwn result.1 (worker_view result.0) × (worker_flavor result.0 ≡ 0) }
        ensures parts { self ≡ end_from (worker_deque result.0) result.1 0 (worker_view result.0) }
    {
        let OwnEnd { worker, marked } = self;
        (worker, marked)
    }

    /// Takes the first job. Returns `None` once the owner took its end mark.
    pub(crate) fn take(&mut self) -> Option<u32>
        ensures { MatchOption result (Kept self.old self.new × (self.new.marked ≡ true))
            (λ j. TookJob self.old j self.new) }
    {
        if self.marked {
            return None;
        }
        match pop(&mut self.worker) {
            DequeEntry::Job(job) => Some(job),
            DequeEntry::End => {
                self.marked = true;
                None
            }
        }
    }
}

impl OtherEnd {
    pub(crate) fn new(thief: Thief, pass: Pass<DequeEntry, Log>) -> OtherEnd
        requires { IsOther false (pass_view pass) × IsPassOf (stealer_deque thief) pass
            × (stealer_flavor thief ≡ 0) }
        ensures { result ≡ end_from (stealer_deque thief) false 0 (pass_view pass) }
    {
        OtherEnd {
            thief,
            pass,
            tried: false,
            marked: false,
        }
    }

    pub(crate) fn into_pass(self) -> Pass<DequeEntry, Log>
        ensures other { IsOther self.marked (pass_view result) × IsPassOf self.id result }
        ensures parts { self ≡ end_from self.id self.marked self.seen (pass_view result) }
    {
        let OtherEnd {
            thief,
            pass,
            tried: _,
            marked: _,
        } = self;
        drop(thief);
        pass
    }

    /// Tries one steal, unless the seat took its end mark of this deque.
    pub(crate) fn take(&mut self) -> StealOutcome
        ensures { MatchSteal result (Kept self.old self.new × (self.new.marked ≡ true))
            (LostSteal self.old self.new) (λ j. TookJob self.old j self.new) }
    {
        if self.marked {
            return StealOutcome::Mark;
        }
        self.tried = true;
        match steal(&self.thief, &mut self.pass) {
            Some(DequeEntry::Job(job)) => StealOutcome::Job(job),
            Some(DequeEntry::End) => {
                self.marked = true;
                StealOutcome::Mark
            }
            None => StealOutcome::Missed,
        }
    }
}

/// The outcome of steals at several ends.
#[derive(Clone, Copy, PartialEq, Eq, Debug)]
pub enum RoundOutcome {
    Job(u32),
    // no steal got a job, and at least one lost a race
    LostRace,
    // the seat has its end mark of each deque tried
    Nothing,
}

/// Tries the ends of `others` with indexes `from..to` until a steal gets a job.
pub(crate) fn steal_among(others: &mut Vec<OtherEnd>, from: usize, to: usize) -> RoundOutcome
    requires { (from ≤ to) × (to ≤ vec_len others.old) }
    ensures len { vec_len others.new ≡ vec_len others.old }
    ensures ends { StealsAmong from to others.old.items others.new.items result }
    ensures elsewhere { SameElsewhere from to others.old.items others.new.items }
{
    let mut lost = false;
    for k in from..to {
        match others[k].take() {
            StealOutcome::Job(job) => return RoundOutcome::Job(job),
            StealOutcome::Mark => {}
            StealOutcome::Missed => lost = true,
        }
    }
    if lost {
        RoundOutcome::LostRace
    } else {
        RoundOutcome::Nothing
    }
}

/// Tries each end at most once until a steal gets a job.
/// Begins at index `first`; after the last end come those from index 0 on.
pub(crate) fn steal_round(others: &mut Vec<OtherEnd>, first: usize) -> RoundOutcome
    requires { first ≤ vec_len others.old }
    ensures len { vec_len others.new ≡ vec_len others.old }
    ensures ends { StealsAmong 0 (length others.old.items) others.old.items others.new.items
        result }
{
    let count = others.len();
    match steal_among(others, first, count) {
        RoundOutcome::Job(job) => RoundOutcome::Job(job),
        RoundOutcome::Nothing => steal_among(others, 0, first),
        RoundOutcome::LostRace => match steal_among(others, 0, first) {
            RoundOutcome::Job(job) => RoundOutcome::Job(job),
            _ => RoundOutcome::LostRace,
        },
    }
}
