//! One deque of the board: the rule that its pushes, pops and steals keep, and the calls for them.
//!
//! A pass is a right to act on the deque. The view of a pass ([`Log`]) records the pushes, pops and
//! steals made by it. Each of them changes the view of that pass alone.
ghost use Rattle.std.specs.Prelude.{◌≡◌, ℕ, suc, ◌<◌, true, [], ◌∷◌, drop, IfNone, MatchOption};
ghost use Rattle.crossbeam_deque.specs.Handles.{taken, view, IsPassOf, stealer_deque, worker_view, worker_flavor, stealer_flavor, worker_index, worker_capacity, SameWorker, SamePass};
ghost use Rattle.tile_jobs.specs.Board.{deal, feed};
ghost use Rattle.tile_jobs.specs.Rule.{dealing, blank, spent, share, CanTake, Took, TookNext, Lawful};

use crossbeam_deque::protocol::{Join, Lesson, Outcome, Protocol, Split};
use crossbeam_deque::{Pass, Steal, Stealer, Worker};
use std::alloc::Global;
use std::collections::LinkedList;
use std::marker::{Brand, PhantomData};

/// An entry of a deque: a job's number, or an end mark after all jobs.
#[derive(Clone, Copy, PartialEq, Eq, Debug)]
pub enum DequeEntry {
    Job(u32),
    End,
}

/// The view of one pass, for proofs: no `Log` exists at run time.
pub struct Log {
    // the board's numbers of jobs and seats, and the deque's number
    pub jobs: u64,
    pub seats: u64,
    pub deque: u64,
    // true for the pass that pushes and pops
    pub owns: bool,
    pub pushed: u64,
    // true for a stealing pass: all entries were pushed before it was split off
    pub ready: bool,
    // how many end marks the pass may still take and how many it took, each with those of the
    // passes joined to it
    pub marks_due: u64,
    pub marks: u64,
    // the jobs taken by this pass
    pub took: LinkedList<u32>,
    // the lists of jobs taken by the passes that were joined to this one
    pub gathered: LinkedList<LinkedList<u32>>,
}

/// The protocol of a deque: each push, pop, steal, split and join keeps `Lawful`.
/// The deque holds the entries pushed and not taken; the views record those taken.
pub struct DequeRule;

impl Protocol<DequeEntry, Log> for DequeRule {
    ghost use Rattle.tile_jobs.specs.Rule.{blank, spent, Lawful};

    ghost holds = { Lawful };

    ghost first = { blank };

    ghost guest = { spent };
}

/// The owner's handle of a deque.
pub type Deque = Worker<DequeEntry, Global, Log, DequeRule>;

/// A stealing seat's handle of a deque.
pub type Thief = Stealer<DequeEntry, Global, Log, DequeRule>;

/// A type that names a deque.
/// It has the board's numbers of jobs and seats, and the deque's number.
pub trait DequeKey {
    ghost jobs: { ℕ };

    ghost seats: { ℕ };

    ghost deque: { ℕ };
}

// Placeholders: each call with `Brand` chooses its own numbers in its proof.
impl DequeKey for Brand {
    ghost jobs = { 0 };

    ghost seats = { 0 };

    ghost deque = { 0 };
}

/// The outcome of a push on the deque that `D` names.
/// The pass's new view is the dealer's (`dealing`) with one more push.
pub struct Deals<D> {
    place: PhantomData<D>,
}

impl<D: DequeKey> Outcome<DequeEntry, Log> for Deals<D> {
    ghost use Rattle.std.specs.Prelude.{◌≡◌, suc};
    ghost use Rattle.tile_jobs.specs.Rule.{dealing};

    ghost then = { λ v xs w. w ≡ dealing D.jobs D.seats D.deque (suc v.pushed) };
}

/// The outcome of a take: the pass's view gets the job or end mark taken (`Took`).
/// The deque is never found empty.
pub struct Takes;

impl Outcome<DequeEntry, Log> for Takes {
    ghost use Rattle.tile_jobs.specs.Rule.{Took};

    ghost then = { Took };

    ghost empty = { λ _. ⊥ };
}

/// The outcome of taking the next entry in the order pushed (`TookNext`).
/// The deque is never found empty.
pub struct TakesNext;

impl Outcome<DequeEntry, Log> for TakesNext {
    ghost use Rattle.tile_jobs.specs.Rule.{TookNext};

    ghost then = { TookNext };

    ghost empty = { λ _. ⊥ };
}

/// Splits a stealing pass off the owner's pass; later joins it to that pass again.
pub struct SplitsEnd;

impl Split<Log> for SplitsEnd {
    ghost use Rattle.tile_jobs.specs.Rule.{after_split, split_off};

    ghost left = { after_split };

    ghost right = { split_off };
}

impl Join<Log> for SplitsEnd {
    ghost use Rattle.tile_jobs.specs.Rule.{taken_back, spent};

    ghost both = { taken_back };

    ghost spent = { spent };
}

/// The fact that the pass and those joined to it took each job of the deque once.
/// They took no other job.
pub struct Whole;

impl Lesson<DequeEntry, Log> for Whole {
    ghost use Rattle.std.specs.Prelude.{◌≡◌, ℕ};
    ghost use Rattle.tile_jobs.specs.Board.{deal, times};
    ghost use Rattle.tile_jobs.specs.Rule.{all_taken};

    ghost fact = { λ u _. (y : ℕ) → times y (all_taken u) ≡ times y (deal u.jobs u.seats u.deque) };
}

/// Pushes the next entry. Only the dealer pushes, before any entry is taken.
pub(crate) fn push<D: DequeKey>(worker: &mut Deque, entry: DequeEntry)
    requires view { worker_view worker.old
        ≡ dealing D.jobs D.seats D.deque (worker_index worker.old) }
    requires next { entry ∷ drop (suc (worker_index worker.old)) (feed D.jobs D.seats D.deque)
        ≡ drop (worker_index worker.old) (feed D.jobs D.seats D.deque) }
    requires capacity { worker_index worker.old < worker_capacity worker.old }
    ensures same { SameWorker worker.old worker.new
        × (worker_index worker.new ≡ suc (worker_index worker.old)) }
    ensures view { worker_view worker.new
        ≡ dealing D.jobs D.seats D.deque (worker_index worker.new) }
{
    match worker.push_as::<Deals<D>>(entry) {
        Ok(()) => {}
        Err(_) => unreachable!(),
    }
}

/// Pops the first entry, for the owner.
pub(crate) fn pop(worker: &mut Deque) -> DequeEntry
    requires can { CanTake (worker_view worker.old) }
    requires fifo { worker_flavor worker.old ≡ 0 }
    ensures same { SameWorker worker.old worker.new }
    ensures took { Took (worker_view worker.old) (result ∷ []) (worker_view worker.new) }
{
    match worker.pop_as::<Takes>() {
        Some(entry) => entry,
        None => unreachable!(),
    }
}

/// Pops the next entry in the order pushed. All other passes must be joined to the owner's.
pub(crate) fn pop_next(worker: &mut Deque) -> DequeEntry
    requires can { CanTake (worker_view worker.old) }
    requires whole { ((worker_view worker.old).owns ≡ true)
        × (share (worker_view worker.old) ≡ (worker_view worker.old).seats) }
    requires fifo { worker_flavor worker.old ≡ 0 }
    ensures same { SameWorker worker.old worker.new }
    ensures took { TookNext (worker_view worker.old) (result ∷ []) (worker_view worker.new) }
{
    match worker.pop_as::<TakesNext>() {
        Some(entry) => entry,
        None => unreachable!(),
    }
}

/// Steals the first entry, for a seat that is not the owner.
///
/// Returns `None` after losing a race: the deque lost an entry since this pass last looked.
pub(crate) fn steal(thief: &Thief, pass: &mut Pass<DequeEntry, Log>) -> Option<DequeEntry>
    requires table { IsPassOf (stealer_deque thief.now) pass.old }
    requires can { CanTake (view pass.old) }
    requires fifo { stealer_flavor thief.now ≡ 0 }
    ensures same { SamePass pass.old pass.new }
    ensures lost { IfNone result (taken pass.old < taken pass.new) }
    ensures took { MatchOption result (view pass.new ≡ view pass.old)
        (λ x. Took (view pass.old) (x ∷ []) (view pass.new)) }
{
    match thief.steal_as::<Takes>(pass) {
        Steal::Success(entry) => Some(entry),
        Steal::Retry => None,
        Steal::Empty => unreachable!(),
    }
}
