//! The search of a tile: counts in the tile and around it lower the tile's counts of steps.
//!
//! A spot is a place of the tile's window: the tile and a border of one cell around it. Of a search
//! only soundness is proved: each lower count follows from another. A look at all spots that lowers
//! none shows that the counts are settled.
ghost use Rattle.std.specs.Prelude.{◌≡◌, ◌≢◌, ◌+◌, ◌<◌, ◌≤◌, ◌⊎◌, None, [], All, length, slice_index_or, sum, OnOk, IfOk, IfSome};
ghost use Rattle.terrain.specs.Neighbours.{Touches};
ghost use Rattle.terrain.specs.Ways.{around_index};
ghost use Rattle.terrain.specs.declared.place.Place.{Place};
ghost use Rattle.tiles.specs.Windows.{area_of, spot_index, IsSpot, IsInner};
ghost use Rattle.drainage.specs.StepCounts.{no_count};
ghost use Rattle.drain.specs.Search.{AreAtMostNoCount, AreSettled, height_on, count_on, IsLowering, IsNear, IsPulled, IsSearched, IsSpread};

use drainage::NO_COUNT;
use std::alloc::{AllocError, Global};
use terrain::{Cell, Place, place_on};
use tiles::Window;

/// Returns a spot's count plus 1 if the spot has height `level`, else more than [`NO_COUNT`].
#[inline(always)]
fn count_beside(cells: &[Cell], counts: &[u32], index: usize, level: Cell) -> u32
    requires cell { index < length cells.now }
    requires count { index < length counts.now }
    requires few { AreAtMostNoCount counts.now }
    ensures { ((slice_index_or cells.now index None ≡ level)
        × (result ≡ slice_index_or counts.now index 0 + 1))
        ⊎ ((slice_index_or cells.now index None ≢ level) × (no_count < result)) }
{
    // No branch: which spots are level is hard to guess.
    let is_other = !cells[index].is_level_with(level) as u32;
    counts[index] + 1 + is_other * NO_COUNT
}

/// Returns 1 plus the least count around `spot`, at most `bound`.
/// Spots of another height than `spot` are left out.
#[inline(always)]
fn least_around(window: &Window<Cell>, counts: &[u32], spot: Place, bound: u32) -> u32
    requires size { length counts.now ≡ area_of window.now.bounds }
    requires counts { AreAtMostNoCount counts.now }
    requires spot { IsInner window.now.bounds spot }
    requires own { bound ≤ count_on window.now.bounds counts.now spot }
    ensures bound { result ≤ bound }
    ensures each { (r : Place) → Touches spot r →
        height_on window.now r ≡ height_on window.now spot →
        result ≤ count_on window.now.bounds counts.now r + 1 }
    ensures one { (result ≡ bound) ⊎ ((r : Place) × IsSpot window.now.bounds r × Touches r spot
        × (height_on window.now r ≡ height_on window.now spot)
        × (result ≡ count_on window.now.bounds counts.now r + 1) × (result < bound)) }
{
    let cells: &[Cell] = &window.values;
    let level = cells[window.index(spot)];
    let at = window.around(spot);
    let mut least = bound;
    for way in 0..8 {
        least = least.min(count_beside(cells, counts, at[way], level));
    }
    least
}

/// Lowers the count of the spot on `way` from `from` to at most `next`, if equally high.
/// `index` is that spot's, and `next` the count of `from` plus 1.
/// Appends the spot to `reached`, if it lies in the tile and its count falls.
#[inline(always)]
fn reach(
    window: &Window<Cell>,
    counts: &mut [u32],
    reached: &mut Vec<Place>,
    from: Place,
    way: usize,
    index: usize,
    next: u32,
) -> Result<(), AllocError>
    requires size { length counts.old ≡ area_of window.now.bounds }
    requires from { IsInner window.now.bounds from }
    requires way { way < 8 }
    requires index { index ≡ slice_index_or (around_index (window.now.bounds.cols + 2)
        (spot_index window.now.bounds from)) way 0 }
    requires below { index < area_of window.now.bounds }
    requires next { next ≡ count_on window.now.bounds counts.old from + 1 }
    ensures lowering { OnOk result (IsLowering window.now
        counts.old counts.new reached.old.items reached.new.items) }
    ensures kept { OnOk result (count_on window.now.bounds counts.new from
        ≡ count_on window.now.bounds counts.old from) }
{
    let cells: &[Cell] = &window.values;
    if next < counts[index] && cells[index].is_level_with(cells[window.index(from)]) {
        if let Some(to) = place_on(way, from) {
            if window.is_inner(to) {
                reached.push(to)?;
            }
        }
        counts[index] = next;
    }
    Ok(())
}

/// Lowers counts around `spot` to at most that of `spot` plus 1.
/// Spots of another height than `spot` are left out.
/// Queues the spots of the tile whose counts fall.
#[tactic(auto, using(crate::proofs::Spreading::spread_counts))]
fn spread(
    window: &Window<Cell>,
    counts: &mut [u32],
    reached: &mut Vec<Place>,
    spot: Place,
) -> Result<(), AllocError>
    requires size { length counts.old ≡ area_of window.now.bounds }
    requires counts { AreAtMostNoCount counts.old }
    requires spot { IsInner window.now.bounds spot }
    ensures { OnOk result (IsLowering window.now
        counts.old counts.new reached.old.items reached.new.items) }
{
    let at = window.around(spot);
    let next = counts[window.index(spot)] + 1;
    for way in 0..8 {
        reach(window, counts, reached, spot, way, at[way], next)?;
    }
    Ok(())
}

/// Spreads from each queued spot in order, also from spots queued meanwhile.
#[tactic(auto, using(crate::proofs::Spreading::spread_counts, crate::proofs::Spreading::sum_spread))]
fn search(
    window: &Window<Cell>,
    counts: &mut [u32],
    mut reached: Vec<Place>,
) -> Result<(), AllocError>
    requires size { length counts.old ≡ area_of window.now.bounds }
    requires counts { AreAtMostNoCount counts.old }
    requires inner { All (IsInner window.now.bounds) reached.items }
    ensures { OnOk result (IsSpread window.now counts.old counts.new) }
{
    let mut done = 0;
    while done < reached.len() {
        let spot = reached[done];
        done += 1;
        spread(window, counts, &mut reached, spot)?;
    }
    Ok(())
}

/// Lowers the count of `spot` to at most 1 plus each old count around it.
/// Spots of another height than `spot` are left out.
/// Appends `spot` to `reached`, if its count falls.
#[inline(always)]
#[tactic(auto, using(crate::proofs::Spreading::spot_from_inner))]
fn pull_at(
    window: &Window<Cell>,
    old: &[u32],
    counts: &mut [u32],
    reached: &mut Vec<Place>,
    spot: Place,
) -> Result<(), AllocError>
    requires size { (length old.now ≡ area_of window.now.bounds)
        × (length counts.old ≡ area_of window.now.bounds) }
    requires counts { AreAtMostNoCount old.now }
    requires spot { IsInner window.now.bounds spot }
    requires before { IsPulled window.now old.now counts.old reached.old.items }
    ensures pulled { OnOk result (IsPulled window.now old.now counts.new reached.new.items) }
    ensures near { OnOk result (reached.new.items ≡ [] → (reached.old.items ≡ [])
        × IsNear window.now old.now spot) }
{
    let index = window.index(spot);
    let own = counts[index];
    if own == 0 {
        return Ok(());
    }
    let least = least_around(window, old, spot, own);
    if least < own {
        reached.push(spot)?;
        counts[index] = least;
    }
    Ok(())
}

/// Applies [`pull_at`] to each spot of one row of the tile.
fn pull_along(
    window: &Window<Cell>,
    old: &[u32],
    counts: &mut [u32],
    reached: &mut Vec<Place>,
    row: u32,
) -> Result<(), AllocError>
    requires size { (length old.now ≡ area_of window.now.bounds)
        × (length counts.old ≡ area_of window.now.bounds) }
    requires counts { AreAtMostNoCount old.now }
    requires row { (1 ≤ row) × (row ≤ window.now.bounds.rows) }
    requires before { IsPulled window.now old.now counts.old reached.old.items }
    ensures pulled { OnOk result (IsPulled window.now old.now counts.new reached.new.items) }
    ensures near { OnOk result (reached.new.items ≡ [] → (reached.old.items ≡ [])
        × ((s : Place) → IsInner window.now.bounds s → s.row ≡ row → IsNear window.now old.now s)) }
{
    for col in 1..window.bounds.cols + 1 {
        pull_at(window, old, counts, reached, Place { row, col })?;
    }
    Ok(())
}

/// Applies [`pull_at`] to each spot of the tile; returns those whose counts fell.
fn pull(
    alloc: Global,
    window: &Window<Cell>,
    old: &[u32],
    counts: &mut [u32],
) -> Result<Vec<Place>, AllocError>
    requires size { length old.now ≡ area_of window.now.bounds }
    requires counts { AreAtMostNoCount old.now }
    requires same { counts.old ≡ old.now }
    ensures pulled { IfOk result (λ reached. IsPulled window.now old.now counts.new reached.items) }
    ensures settled { IfOk result (λ reached. reached.items ≡ [] → AreSettled window.now old.now) }
{
    let mut reached = Vec::new(alloc);
    for row in 1..window.bounds.rows + 1 {
        pull_along(window, old, counts, &mut reached, row)?;
    }
    Ok(reached)
}

/// Returns the lower counts of a window after a search from the counts `old`.
/// Returns `None` if in the tile each count is at most one above those around it at its height.
fn lowered(
    alloc: Global,
    window: &Window<Cell>,
    old: &[u32],
) -> Result<Option<Vec<u32>>, AllocError>
    requires size { length old.now ≡ area_of window.now.bounds }
    requires counts { AreAtMostNoCount old.now }
    ensures lower { IfOk result (λ found. IfSome found (λ new. IsSpread window.now old.now new.items
        × (sum new.items < sum old.now))) }
    ensures settled { IfOk result (λ found. found ≡ None → AreSettled window.now old.now) }
{
    let mut counts = Vec::from_slice(alloc, old)?;
    let reached = pull(alloc, window, old, &mut counts)?;
    if reached.is_empty() {
        return Ok(None);
    }
    search(window, &mut counts, reached)?;
    Ok(Some(counts))
}

/// Returns the counts of a window after one search.
pub(crate) fn searched(
    alloc: Global,
    window: &Window<Cell>,
    counts: Vec<u32>,
) -> Result<Vec<u32>, AllocError>
    requires size { length counts.items ≡ area_of window.now.bounds }
    requires counts { AreAtMostNoCount counts.items }
    ensures { IfOk result (λ new. IsSpread window.now counts.items new.items) }
{
    match lowered(alloc, window, &counts)? {
        Some(lower) => Ok(lower),
        None => Ok(counts),
    }
}

/// Returns the counts of a window after searches until none finds a lower count in the tile.
pub(crate) fn settled(
    alloc: Global,
    window: &Window<Cell>,
    mut counts: Vec<u32>,
) -> Result<Vec<u32>, AllocError>
    requires size { length counts.items ≡ area_of window.now.bounds }
    requires counts { AreAtMostNoCount counts.items }
    ensures { IfOk result (λ new. IsSearched window.now counts.items new.items) }
{
    loop {
        match lowered(alloc, window, &counts)? {
            Some(lower) => counts = lower,
            None => return Ok(counts),
        }
    }
}
