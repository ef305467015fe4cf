//! Shares the entries of a round out to its jobs: [`Shares`].
//!
//! A block is a square of whole tiles, or the whole grid. Its first tile's job searches it, and
//! the jobs of its other tiles return at once. So no two jobs search the same cell, and a flat that
//! winds through many small tiles takes few rounds.
ghost use Rattle.std.specs.Prelude.{◌≡◌, ◌+◌, ◌<◌, ◌≤◌, length, All, OnOk, IfOk};
ghost use Rattle.terrain.specs.Neighbours.{IsInside};
ghost use Rattle.std.specs.List.Sorted.{IsPermutation};
ghost use Rattle.tiles.specs.Cutting.{IsCutting, IsWithin, tile_count};
ghost use Rattle.drain.specs.Counts.{AreChanges, IsWithinGrid, IsChange, IsRun};
ghost use Rattle.drain.specs.declared.changes.TileEntry.{TileEntry};

use crate::changes::{Change, Run, TileEntry};
use crate::input::RoundInput;
use std::alloc::{AllocError, Global};
use terrain::Place;
use tiles::{Bounds, Tiling};

/// The side of a block in cells, unless one tile is larger.
const BLOCK_SIDE: u32 = 256;

/// The number of entries below which one job searches the whole grid.
const FEW_ENTRIES: usize = 256;

/// The size of a round's blocks, in cells; those at the grid's end may be smaller.
#[derive(Clone, Copy)]
pub(crate) struct Blocks {
    rows: u32,
    cols: u32,
    ghost some_row: { 1 ≤ rows },
    ghost some_col: { 1 ≤ cols },
}

impl Blocks {
    /// Returns the size of the blocks in a round with this many entries.
    pub(crate) fn of_round(tiling: &Tiling, entries: usize) -> Blocks {
        let (rows, cols) = (tiling.rows(), tiling.cols());
        if entries < FEW_ENTRIES {
            return Blocks { rows, cols };
        }
        let tile = tiling.bounds(tiling.tile_of(Place { row: 0, col: 0 }));
        Blocks {
            rows: tile.rows.max(BLOCK_SIDE / tile.rows * tile.rows),
            cols: tile.cols.max(BLOCK_SIDE / tile.cols * tile.cols),
        }
    }

    /// Returns the first place of the block that holds `place`.
    fn first_place(self, place: Place) -> Place
        ensures { (result.row ≤ place.row) × (result.col ≤ place.col) }
    {
        Place {
            row: place.row - place.row % self.rows,
            col: place.col - place.col % self.cols,
        }
    }

    /// Returns the bounds of the block that holds `place`.
    pub(crate) fn bounds(self, tiling: &Tiling, place: Place) -> Bounds
        requires { IsWithin tiling.now place }
        ensures inside { (result.top + result.rows ≤ tiling.now.rows)
            × (result.left + result.cols ≤ tiling.now.cols) }
        ensures lawful { IsCutting tiling.now }
    {
        let first = self.first_place(place);
        Bounds {
            top: first.row,
            left: first.col,
            rows: self.rows.min(tiling.rows() - first.row),
            cols: self.cols.min(tiling.cols() - first.col),
        }
    }

    /// Returns whether a place lies in the first or last row or column of its block.
    pub(crate) fn has_on_rim(self, place: Place) -> bool {
        let (row, col) = (place.row % self.rows, place.col % self.cols);
        row == 0 || row + 1 == self.rows || col == 0 || col + 1 == self.cols
    }
}

/// Returns each change with the first tile of its block, whose job applies it.
fn tile_entries(
    alloc: Global,
    input: &RoundInput<'_>,
    blocks: Blocks,
    changes: &[Change],
) -> Result<Vec<TileEntry>, AllocError>
    requires { AreChanges input.now.terrain input.now.steps changes.now }
    ensures { IfOk result (λ v. All (λ (e : TileEntry).
        IsChange input.now.terrain input.now.steps e.change) v.items) }
{
    let mut entries = Vec::with_capacity(alloc, changes.len())?;
    for change in changes {
        let tile = input.tile_of(blocks.first_place(change.place));
        entries.push(TileEntry {
            tile,
            change: *change,
        })?;
    }
    Ok(entries)
}

/// Sorts entries by tile, and those of one tile by count.
/// The second sort is stable, so it keeps the order by count.
fn sort(entries: &mut Vec<TileEntry>) -> Result<(), AllocError>
    ensures { OnOk result (IsPermutation entries.old.items entries.new.items) }
{
    entries.sort_by_key(|entry| entry.change.count)?;
    entries.sort_by_key(|entry| entry.tile)?;
    Ok(())
}

/// Returns the index after the entries of `tile` that begin at index `from`.
fn run_end(entries: &[TileEntry], tile: u32, from: usize) -> usize
    requires { from ≤ length entries.now }
    ensures { (from ≤ result) × (result ≤ length entries.now) }
{
    for k in from..entries.len() {
        if entries[k].tile != tile {
            return k;
        }
    }
    entries.len()
}

/// Returns the run of each tile, in the order of the tiles; a run may be empty.
fn runs_of(alloc: Global, entries: &[TileEntry], tiles: u32) -> Result<Vec<Run>, AllocError>
    ensures size { IfOk result (λ v. length v.items ≡ tiles) }
    ensures each { IfOk result (λ v. All (IsRun (length entries.now)) v.items) }
{
    let mut runs = Vec::with_capacity(alloc, tiles as usize)?;
    let mut from = 0;
    for tile in 0..tiles {
        let end = run_end(entries, tile, from);
        runs.push(Run { from, end })?;
        from = end;
    }
    Ok(runs)
}

/// The entries of a round, sorted by tile, and the run of each tile.
#[derive(Drop)]
pub(crate) struct Shares {
    pub(crate) entries: Vec<TileEntry>,
    pub(crate) runs: Vec<Run>,
}

impl Shares {
    /// Shares changes out as the entries of a round.
    pub(crate) fn of_changes(
        alloc: Global,
        input: &RoundInput<'_>,
        blocks: Blocks,
        changes: &[Change],
    ) -> Result<Shares, AllocError>
        requires { AreChanges input.now.terrain input.now.steps changes.now }
        ensures entries { IfOk result (λ s. All (λ (e : TileEntry).
            IsChange input.now.terrain input.now.steps e.change) s.entries.items) }
        ensures runs { IfOk result (λ s. All (IsRun (length s.entries.items)) s.runs.items) }
        ensures size { IfOk result (λ s. length s.runs.items ≡ tile_count input.now.cutting) }
    {
        let mut entries = tile_entries(alloc, input, blocks, changes)?;
        sort(&mut entries)?;
        let runs = runs_of(alloc, &entries, input.tiling.tiles())?;
        Ok(Shares { entries, runs })
    }
}
