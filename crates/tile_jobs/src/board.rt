//! The board: deals jobs to the deques of seats, and lists the jobs taken and left.
//!
//! [`Board::deal`] makes the seats, by module `dealing`. [`Board::close`] takes the seats apart and
//! closes each deque, by module `closing`.
ghost use Rattle.std.specs.Prelude.{◌≡◌, ℕ, ◌+◌, ◌<◌, ◌≤◌, ◌==◌, ◌⊎◌, ◌↔◌, cond, true, List, [], ◌++◌, length, vec_len, vec_capacity, slice_index_or, IfOk, IfErr, OnOk, Err};
ghost use Rattle.tile_jobs.specs.Board.{deal as deal_list, times};
ghost use Rattle.tile_jobs.specs.Sums.{sum_below};
ghost use Rattle.tile_jobs.specs.Closed.{IsClosed};
ghost use Rattle.tile_jobs.specs.Ends.{EndState, SeatState, IsBoard, IsDeal, IsSeat, IsNew};
ghost use Rattle.tile_jobs.specs.Rows.{EachHead, HaveHeads, WithoutHeads, IsLeftOf};

use crate::closing::Closing;
use crate::dealing::{deal_all, seat_all};
use crate::ends::{OtherEnd, OwnEnd};
use crate::reserved::put;
use crate::seat::Seat;
use crate::{JobFault, MOST_JOBS, MOST_WORKERS, check_workers};
use std::alloc::Global;

/// Joins deque `v`'s ends (handles), one in each row but row `v`, to its owner's end, `own`.
/// A row has a seat's ends of the other deques not closed yet. Deques close in order, so an end of
/// deque `v` is the first of its row.
fn join_ends(own: OwnEnd, rows: &mut Vec<Vec<OtherEnd>>, v: usize) -> Closing
    requires own { v < vec_len rows.old }
    requires ids { HaveHeads (vec_len rows.old) v rows.old.items own.id }
    ensures len { vec_len rows.new ≡ vec_len rows.old }
    ensures rows { WithoutHeads (vec_len rows.old) v rows.old.items rows.new.items }
    ensures names { (result.jobs ≡ own.jobs) × (result.seats ≡ own.seats)
        × (result.deque ≡ own.deque) × (result.took ≡ own.took)
        × (result.back ≡ vec_len rows.old) }
    ensures times { (y : ℕ) (f : ℕ → ℕ) →
        EachHead (vec_len rows.old) v rows.old.items (λ s e. times y e.took ≡ f s) →
        times y result.gathered ≡ sum_below (λ i. cond (i == v) 0 (f i)) (vec_len rows.old) }
    ensures own_mark { own.marked ≡ true → 0 < result.marks }
    ensures marks { EachHead (vec_len rows.old) v rows.old.items
        (λ s e. e.marked ≡ true → 0 < result.marks) }
    ensures flag { result.marked ≡ true → 0 < result.marks }
{
    let mut closing = Closing::new(own);
    for s in 0..rows.len() {
        if s != v {
            let other = rows[s].remove(0);
            closing.absorb(other);
        }
    }
    closing
}

/// Joins all ends of deque `v`, and moves the jobs left in it to `left`.
fn close_one(own: OwnEnd, rows: &mut Vec<Vec<OtherEnd>>, v: usize, left: &mut Vec<u32>)
    requires own { (v < vec_len rows.old) × (own.seats ≡ vec_len rows.old) }
    requires ids { HaveHeads (vec_len rows.old) v rows.old.items own.id }
    requires capacity { vec_len left.old + length (deal_list own.jobs own.seats own.deque)
        ≤ vec_capacity left.old }
    ensures len { vec_len rows.new ≡ vec_len rows.old }
    ensures rows { WithoutHeads (vec_len rows.old) v rows.old.items rows.new.items }
    ensures capacity { vec_capacity left.old ≤ vec_capacity left.new }
    ensures left { (more : List ℕ) × (left.new.items ≡ left.old.items ++ more)
        × IsLeftOf own (vec_len rows.old) v rows.old.items more }
{
    let closing = join_ends(own, rows, v);
    closing.empty_into(left);
}

/// Splits each seat into its own end, its other ends and its list of jobs taken.
fn split_seats(
    seats: Vec<Seat>,
    owns: &mut Vec<OwnEnd>,
    rows: &mut Vec<Vec<OtherEnd>>,
    taken: &mut Vec<Vec<u32>>,
)
    requires empty { (owns.old.items ≡ []) × (rows.old.items ≡ []) × (taken.old.items ≡ []) }
    requires capacity { (vec_len seats ≤ vec_capacity owns.old)
        × (vec_len seats ≤ vec_capacity rows.old) × (vec_len seats ≤ vec_capacity taken.old) }
    ensures len { (vec_len owns.new ≡ vec_len seats) × (vec_len rows.new ≡ vec_len seats)
        × (vec_len taken.new ≡ vec_len seats) }
    ensures seats { (s : ℕ) (d : SeatState) → s < vec_len seats →
        IsSeat (slice_index_or seats.items s d) }
    ensures owns { (s : ℕ) (d : SeatState) (o : EndState) → s < vec_len seats →
        slice_index_or owns.new.items s o ≡ (slice_index_or seats.items s d).own }
    ensures rows { (s : ℕ) (d : SeatState) (o : _) → s < vec_len seats →
        (slice_index_or rows.new.items s o).items ≡ (slice_index_or seats.items s d).others }
    ensures taken { (s : ℕ) (d : SeatState) (o : _) → s < vec_len seats →
        (slice_index_or taken.new.items s o).items ≡ (slice_index_or seats.items s d).taken }
{
    for seat in seats {
        let (own, others, list) = seat.into_parts();
        put(owns, own);
        put(rows, others);
        put(taken, list);
    }
}

/// The jobs that the seats of a closed board took, and the jobs left.
#[derive(Drop)]
pub struct Closed {
    /// For each seat the jobs that it took, in the order taken.
    pub taken: Vec<Vec<u32>>,
    /// The jobs that no seat took, deque by deque.
    pub left: Vec<u32>,
}

/// A board of numbered jobs: deals them to seats, and lists those taken and left.
///
/// Each seat owns a deque and may steal from the others. After its jobs a deque has one end mark
/// for each seat. Once a mark is taken, the deque has no job left. The seats hold all state, and
/// may move to other threads.
pub struct Board;

impl Board {
    /// Deals the jobs below `jobs` to `seats` seats; returns the seats in their order.
    ///
    /// Job `j` goes to the deque of seat `j % seats`. Each deque has its jobs in rising order.
    ///
    /// # Errors
    ///
    /// [`JobFault::BadWorkers`] if `seats` is 0 or above [`MOST_WORKERS`], else
    /// [`JobFault::Memory`] if memory runs out.
    ///
    /// # Examples
    ///
    /// ```ignore
    /// let mut seats = Board::deal(alloc, 7, 3)?;
    /// let take = seats[1].try_take(); // `Take::Job(1)`, the first job of its own deque
    /// ```
    pub fn deal(alloc: Global, jobs: u32, seats: u32) -> Result<Vec<Seat>, JobFault>
        requires { jobs ≤ MOST_JOBS }
        ensures some { OnOk result ((0 < seats) × (seats ≤ MOST_WORKERS)) }
        ensures deal { IfOk result (λ v. IsDeal jobs seats v.items) }
        ensures new { IfOk result
            (λ v. (s : ℕ) (d : SeatState) → s < seats → IsNew (slice_index_or v.items s d)) }
        ensures bad { (result ≡ Err JobFault.BadWorkers) ↔ ((seats ≡ 0) ⊎ (MOST_WORKERS < seats)) }
        ensures faults { IfErr result (λ e. (e ≡ JobFault.BadWorkers) ⊎ (e ≡ JobFault.Memory)) }
    {
        check_workers(seats)?;
        let ends = deal_all(alloc, jobs, seats)?;
        Ok(seat_all(alloc, jobs, ends)?)
    }

    /// Returns the jobs that each seat took, and the jobs left in the deques.
    ///
    /// `seats` has all seats of one deal, in their order.
    ///
    /// # Errors
    ///
    /// Returns the seats unchanged if memory for the lists runs out.
    pub fn close(alloc: Global, seats: Vec<Seat>) -> Result<Closed, Vec<Seat>>
        requires board { IsBoard (vec_len seats) seats.items }
        ensures back { IfErr result (λ r. r ≡ seats) }
        ensures taken { IfOk result (λ c. (vec_len c.taken ≡ vec_len seats)
            × ((s : ℕ) (d : SeatState) (o : _) → s < vec_len seats →
            (slice_index_or c.taken.items s o).items ≡ (slice_index_or seats.items s d).taken)) }
        ensures closed { (jobs : ℕ) → IsDeal jobs (vec_len seats) seats.items →
            IfOk result (λ c. IsClosed jobs (vec_len seats) seats.items c.left.items) }
    {
        let count = seats.len();
        let Ok(mut left) = Vec::with_capacity(alloc, seats[0].capacity()) else {
            return Err(seats);
        };
        let Ok(mut owns) = Vec::with_capacity(alloc, count) else {
            return Err(seats);
        };
        let Ok(mut rows) = Vec::with_capacity(alloc, count) else {
            return Err(seats);
        };
        let Ok(mut taken) = Vec::with_capacity(alloc, count) else {
            return Err(seats);
        };
        split_seats(seats, &mut owns, &mut rows, &mut taken);
        let mut v = 0;
        for own in owns {
            close_one(own, &mut rows, v, &mut left);
            v += 1;
        }
        Ok(Closed { taken, left })
    }
}
