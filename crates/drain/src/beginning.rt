//! The counts of steps before the first round: 0 where a tile's cell drains at once, else unknown.
//!
//! A data cell drains at once on the grid's border, beside NODATA or a lower cell, or as a sink.
//! A spot is a place of a tile's window: the tile and a border of one cell around it.
ghost use Rattle.std.specs.Prelude.{◌≡◌, ℕ, ◌+◌, ◌<◌, ◌≤◌, ◌↔◌, None, length, IfOk, IfSome, slice_index_or};
ghost use Rattle.std.specs.Bool.{MatchBool};
ghost use Rattle.std.specs.Int.{bit_at};
ghost use Rattle.terrain.specs.Raster.{IsHeight, IsTerrain};
ghost use Rattle.drain.specs.Beginning.{AreBegun, AreBegunUpTo, AreHeights, HasGapOrLower, IsBegunSpot, IsEdgeOrHasLower, IsGapOrLower};
ghost use Rattle.drain.specs.Steps.{DrainsAtOnce};
ghost use Rattle.tiles.specs.Windows.{IsInner};
ghost use Rattle.drain.specs.Search.{AreEntriesShown};

use drainage::NO_COUNT;
use std::alloc::{AllocError, Global};
use terrain::{Cell, Grid, HIGHEST, Height, Place};
use tiles::{Window, spot_of};

/// Returns a number whose top bit is 1 if a cell has no data or lies below `level`.
/// That is the sign of a difference; unlike a comparison it is found for several cells at once.
#[inline(always)]
fn gap_or_lower_sign(level: Height, cell: Cell) -> u64
    requires { IfSome cell IsHeight }
    ensures { IsHeight level → (bit_at result 63 ≡ 1) ↔ IsGapOrLower level cell }
{
    let height = cell.number();
    height.wrapping_sub(level).cast_unsigned() | HIGHEST.wrapping_sub(height).cast_unsigned()
}

/// Returns whether a cell at one of the indexes `at` lacks data or is below `level`.
#[inline(always)]
fn any_gap_or_lower(cells: &[Cell], at: &[usize; 8], level: Height) -> bool
    requires cells { (way : ℕ) → way < 8 → slice_index_or at.now way 0 < length cells.now }
    requires heights { (way : ℕ) → way < 8 →
        IfSome (slice_index_or cells.now (slice_index_or at.now way 0) None) IsHeight }
    ensures { IsHeight level → MatchBool result
        ((way : ℕ) × (way < 8)
        × IsGapOrLower level (slice_index_or cells.now (slice_index_or at.now way 0) None))
        ((way : ℕ) → way < 8 →
        IsGapOrLower level (slice_index_or cells.now (slice_index_or at.now way 0) None) → ⊥) }
{
    let mut signs = 0;
    for way in 0..8 {
        signs |= gap_or_lower_sign(level, cells[at[way]]);
    }
    signs >> 63 == 1
}

/// Returns 0 for a data cell of the tile with a gap or a lower cell around it, else [`NO_COUNT`].
#[inline(always)]
fn initial_count(window: &Window<Cell>, spot: Place) -> u32
    requires spot { IsInner window.now.bounds spot }
    requires heights { AreHeights window.now.values.items }
    ensures { IsBegunSpot (HasGapOrLower window.now) spot result }
{
    let cells: &[Cell] = &window.values;
    let cell = cells[window.index(spot)];
    let drains = any_gap_or_lower(cells, &window.around(spot), cell.number());
    // No branch: it would keep the compiler from looking at several cells at once.
    if drains & cell.height().is_some() {
        0
    } else {
        NO_COUNT
    }
}

/// Writes the initial counts of one row of the tile, without regard to sinks.
fn begin_along(window: &Window<Cell>, row: u32, counts: &mut [u32])
    requires row { (1 ≤ row) × (row ≤ window.now.bounds.rows) }
    requires heights { AreHeights window.now.values.items }
    requires counts { AreBegunUpTo (HasGapOrLower window.now) window.now.bounds row 0 counts.old }
    ensures { AreBegunUpTo (HasGapOrLower window.now) window.now.bounds (row + 1) 0 counts.new }
{
    for col in 1..window.bounds.cols + 1 {
        let spot = Place { row, col };
        counts[window.index(spot)] = initial_count(window, spot);
    }
}

/// Sets the count of each named sink with data in the tile to 0.
fn begin_at_sinks(grid: &Grid, window: &Window<Cell>, counts: &mut [u32])
    requires { AreBegun grid.now.terrain window.now.bounds (IsEdgeOrHasLower grid.now.terrain)
        counts.old }
    ensures { AreBegun grid.now.terrain window.now.bounds (DrainsAtOnce grid.now.terrain)
        counts.new }
{
    for sink in grid.sinks() {
        let Some(spot) = spot_of(window.bounds, *sink) else {
            continue;
        };
        if window.is_inner(spot) && grid.at(*sink).is_some() {
            counts[window.index(spot)] = 0;
        }
    }
}

/// Returns the initial counts at a window's spots: 0 where a cell of the tile drains at once.
/// All other counts are [`NO_COUNT`].
pub(crate) fn begun_counts(
    alloc: Global,
    grid: &Grid,
    window: &Window<Cell>,
) -> Result<Vec<u32>, AllocError>
    requires lawful { IsTerrain grid.now.terrain }
    requires shown { AreEntriesShown grid.now.terrain grid.now.terrain.cells window.now.bounds
        window.now.values.items }
    ensures { IfOk result (λ counts. AreBegun grid.now.terrain window.now.bounds
        (DrainsAtOnce grid.now.terrain) counts.items) }
{
    let bounds = window.bounds;
    let mut counts = vec![in alloc; NO_COUNT; (bounds.rows as usize + 2)
        * (bounds.cols as usize + 2)]?;
    for row in 1..bounds.rows + 1 {
        begin_along(window, row, &mut counts);
    }
    begin_at_sinks(grid, window, &mut counts);
    Ok(counts)
}
