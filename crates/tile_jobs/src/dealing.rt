//! Deals the jobs to all deques and makes the seats.
//!
//! Each seat has an end of every deque: the seat's handle of that deque. A seat's row is the list
//! of its ends of the other seats' deques.
ghost use Rattle.std.specs.Prelude.{◌≡◌, ℕ, ◌++◌, ◌∷◌, [], ◌<◌, ◌≤◌, ◌==◌, cond, vec_len, slice_index_or, IfOk, OnOk};
ghost use Rattle.tile_jobs.specs.Ends.{EndState, SeatState, seat_of, fresh, without, AllFresh};

use crate::MOST_WORKERS;
use crate::dealer::Dealer;
use crate::ends::{OtherEnd, OwnEnd};
use crate::seat::Seat;
use std::alloc::{AllocError, Global};
use std::marker::Brand;

/// Pushes an end of the dealer's deque to the row of each seat but `v`, the owner.
fn split_for_all(
    dealer: &mut Dealer,
    rows: &mut Vec<Vec<OtherEnd>>,
    v: usize,
) -> Result<(), AllocError>
    requires marks_due { dealer.old.marks_due ≡ vec_len rows.old }
    requires own { v < vec_len rows.old }
    ensures len { vec_len rows.new ≡ vec_len rows.old }
    ensures dealer { OnOk result (dealer.new ≡ record dealer.old { marks_due = 1 }) }
    ensures rows { OnOk result ((s : ℕ) (d : _) → s < vec_len rows.old →
        (slice_index_or rows.new.items s d).items
        ≡ cond (s == v) (slice_index_or rows.old.items s d).items
        ((slice_index_or rows.old.items s d).items ++ fresh dealer.old ∷ [])) }
{
    for s in 0..rows.len() {
        if s != v {
            let other = dealer.split_end()?;
            rows[s].push(other).map_err(AllocError::from)?;
        }
    }
    Ok(())
}

fn empty_rows(alloc: Global, seats: u32) -> Result<Vec<Vec<OtherEnd>>, AllocError>
    ensures len { IfOk result (λ v. vec_len v ≡ seats) }
    ensures empty { IfOk result
        (λ v. (s : ℕ) (d : _) → s < seats → (slice_index_or v.items s d).items ≡ []) }
{
    let mut rows = Vec::with_capacity(alloc, seats as usize)?;
    for _ in 0..seats {
        rows.push(Vec::with_capacity(alloc, seats as usize)?)
            .map_err(AllocError::from)?;
    }
    Ok(rows)
}

/// Each deque's end for its owner, and each seat's row of ends of the other deques.
#[derive(Drop)]
pub struct Ends {
    pub owns: Vec<OwnEnd>,
    pub rows: Vec<Vec<OtherEnd>>,
}

/// Fills each deque, and makes its ends for all seats.
pub(crate) fn deal_all(alloc: Global, jobs: u32, seats: u32) -> Result<Ends, AllocError>
    requires { (0 < seats) × (seats ≤ MOST_WORKERS) }
    ensures count { IfOk result (λ e. (vec_len e.owns ≡ seats) × (vec_len e.rows ≡ seats)) }
    ensures owns { IfOk result (λ e. AllFresh jobs seats e.owns.items) }
    ensures rows { IfOk result (λ e. (s : ℕ) (d : _) → s < seats →
        (slice_index_or e.rows.items s d).items ≡ without s e.owns.items) }
{
    let mut rows = empty_rows(alloc, seats)?;
    let mut owns = Vec::with_capacity(alloc, seats as usize)?;
    for v in 0..seats {
        // The proof gives `Brand` the numbers of deque `v`: `ghosts-new` in `Invariants.antt`.
        let mut dealer = Dealer::new::<Brand>(alloc, jobs, seats, v)?;
        split_for_all(&mut dealer, &mut rows, v as usize)?;
        owns.push(dealer.own()).map_err(AllocError::from)?;
    }
    Ok(Ends { owns, rows })
}

/// Makes each seat from its own end and its row of other ends.
pub(crate) fn seat_all(alloc: Global, jobs: u32, ends: Ends) -> Result<Vec<Seat>, AllocError>
    requires count { (vec_len ends.owns ≤ MOST_WORKERS) × (vec_len ends.rows ≡ vec_len ends.owns) }
    requires owns { AllFresh jobs (vec_len ends.owns) ends.owns.items }
    requires rows { (s : ℕ) (d : _) → s < vec_len ends.owns →
        (slice_index_or ends.rows.items s d).items ≡ without s ends.owns.items }
    ensures len { IfOk result (λ v. vec_len v ≡ vec_len ends.owns) }
    ensures each { IfOk result (λ v. (s : ℕ) (d : SeatState) (e : EndState) →
        s < vec_len ends.owns → slice_index_or v.items s d
        ≡ seat_of s (slice_index_or ends.owns.items s e) (without s ends.owns.items) []) }
{
    let Ends { owns, mut rows } = ends;
    let mut seats = Vec::with_capacity(alloc, owns.len())?;
    let mut number = 0;
    for own in owns {
        // Cheap: `remove` moves at most 63 rows forward.
        let others = rows.remove(0);
        seats
            .push(Seat::new(alloc, number, own, others, jobs)?)
            .map_err(AllocError::from)?;
        number += 1;
    }
    Ok(seats)
}
