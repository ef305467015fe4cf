//! Certifies raised cells: [`are_held`].
//!
//! A cell that rose is held if the eight cells around it have data and are no lower. Then no path
//! leads out below it, so it rose no higher than its filled height.
ghost use Rattle.std.specs.Prelude.{◌≡◌, ℕ, ◌+◌, ◌*◌, ◌<◌, ◌≤◌, ◌≤ℤ◌, ℤ, Some, All, length};
ghost use Rattle.std.specs.Bool.{OnTrue};
ghost use Rattle.tiles.specs.Cutting.{IsCutting, IsWithin};
ghost use Rattle.fill.specs.Held.{AreAsRead, AreHeldRuns, AreHeldTiles, IsHeld, IsNoLowerAround};
ghost use Rattle.fill.specs.RaisedRuns.{IsInRun};

use crate::cell_labels::node_of;
use crate::raised_runs::RaisedRun;
use terrain::{Cell, Height, Place, around_index};
use tiles::Tiling;

/// Returns whether a cell has data and is at least as high as `level`.
#[inline(always)]
fn is_no_lower(cell: Cell, level: Height) -> bool
    ensures { OnTrue result ((height : ℤ) × (cell ≡ Some height) × (level ≤ℤ height)) }
{
    match cell.height() {
        Some(height) => level <= height,
        None => false,
    }
}

/// Returns whether a cell and the eight around it have data, and none of these is lower.
/// Rows have `cols` cells, and the cell must not be in the first or last row or column.
#[inline(always)]
fn is_held(cells: &[Cell], cols: usize, index: usize) -> bool
    requires above { cols < index }
    requires below { index + cols + 1 < length cells.now }
    requires few { length cells.now ≤ 16777216 }
    ensures { OnTrue result (IsNoLowerAround cols cells.now index) }
{
    let Some(level) = cells[index].height() else {
        return false;
    };
    let around = around_index(cols, index);
    for way in 0..8 {
        if !is_no_lower(cells[around[way]], level) {
            return false;
        }
    }
    true
}

/// Returns whether all cells of a run are held.
fn is_run_held(cells: &[Cell], cols: usize, run: RaisedRun) -> bool
    requires cols { (0 < cols) × (cols ≤ 4096) }
    requires few { length cells.now ≤ 16777216 }
    ensures { OnTrue result ((i : ℕ) → IsInRun run i → IsHeld cols cells.now i) }
{
    let (first, end) = (run.first as usize, run.first as usize + run.count as usize);
    if first == end {
        return true;
    }
    let col = first % cols;
    if first < cols || col == 0 || cols <= col + (end - first) || cells.len() <= end + cols {
        return false;
    }
    for index in first..end {
        if !is_held(cells, cols, index) {
            return false;
        }
    }
    true
}

fn are_runs_held(cells: &[Cell], cols: usize, runs: &[RaisedRun]) -> bool
    requires cols { (0 < cols) × (cols ≤ 4096) }
    requires few { length cells.now ≤ 16777216 }
    ensures { OnTrue result (AreHeldRuns cols cells.now runs.now) }
{
    for run in runs {
        if !is_run_held(cells, cols, *run) {
            return false;
        }
    }
    true
}

fn are_tiles_held(cells: &[Cell], cols: usize, tiles: &[Vec<RaisedRun>]) -> bool
    requires cols { (0 < cols) × (cols ≤ 4096) }
    requires few { length cells.now ≤ 16777216 }
    ensures { OnTrue result (AreHeldTiles cols cells.now tiles.now) }
{
    for runs in tiles {
        if !are_runs_held(cells, cols, runs) {
            return false;
        }
    }
    true
}

/// Returns whether the cells at these places are as they were read.
fn are_as_read(tiling: &Tiling, read: &[Cell], cells: &[Cell], places: &[Place]) -> bool
    requires places { All (IsWithin tiling.now) places.now }
    requires read { length read.now ≡ tiling.now.cols * tiling.now.rows }
    requires cells { length cells.now ≡ tiling.now.cols * tiling.now.rows }
    ensures { OnTrue result (AreAsRead tiling.now.cols read.now cells.now places.now) }
{
    for place in places {
        let index = node_of(tiling, *place) as usize;
        if !cells[index].is_level_with(read[index]) {
            return false;
        }
    }
    true
}

/// Returns whether each cell that rose is held and no sink.
/// `tiles` has the cells that rose in each tile. The other cells are as they were read.
pub(crate) fn are_held(
    tiling: &Tiling,
    read: &[Cell],
    cells: &[Cell],
    tiles: &[Vec<RaisedRun>],
    sinks: &[Place],
) -> bool
    requires lawful { IsCutting tiling.now }
    requires sinks { All (IsWithin tiling.now) sinks.now }
    requires read { length read.now ≡ tiling.now.cols * tiling.now.rows }
    requires cells { length cells.now ≡ tiling.now.cols * tiling.now.rows }
    ensures held { OnTrue result (AreHeldTiles tiling.now.cols cells.now tiles.now) }
    ensures sinks { OnTrue result (AreAsRead tiling.now.cols read.now cells.now sinks.now) }
{
    are_tiles_held(cells, tiling.cols() as usize, tiles) && are_as_read(tiling, read, cells, sinks)
}
