//! Lists the cells that rise to their filled heights, each tile's by a job: [`RaisedTiles`].
//!
//! A filled height is the greater of a cell's level and its label's crest in the spill graph.
ghost use Rattle.std.proofs.Props.{props};
ghost use Rattle.std.specs.Prelude.{slice_index_or, ◌≡◌, ℕ, ℤ, Option, ◌+◌, ◌*◌, ◌^◌, ◌<◌, ◌≤◌, length, All, IfOk, OnOk};
ghost use Rattle.terrain.specs.StoredCells.{cell_of};
ghost use Rattle.tiles.specs.Cutting.{IsCutting, cell_count};
ghost use Rattle.fill.specs.Crests.{HasNoCrestWithoutPlace};
ghost use Rattle.fill.specs.Gathering.{Fit};
ghost use Rattle.fill.specs.Numbers.{AreFirsts, places_of};
ghost use Rattle.fill.specs.RaisedRuns.{AddsRow, runs_of};
ghost use Rattle.fill.specs.RaisedTiles.{AreTileRuns, HasRow, HasTile, IsRaisedTile, cell_at};

use crate::raised_runs::{RaisedRun, RunList};
use cell_floods::{Labels, Levels, TileFlood};
use std::alloc::{AllocError, Global};
use terrain::{Cell, Height};
use tile_jobs::{JobFault, Work};
use tiles::{Bounds, TileView, Tiling};

/// The levels and label indexes of a tile's cells, and the labels' crests.
#[derive(Drop)]
struct RaisedTile<'a> {
    heights: &'a Levels,
    labels: &'a Labels,
    /// The crest of each entry of the tile's table of labels, no data for one without a crest.
    crests: &'a [Cell],
}

/// Returns the cell of a height, no data for `None`.
#[inline(always)]
pub(crate) fn cell(height: Option<Height>) -> Cell
    ensures { result ≡ cell_of height }
{
    match height {
        Some(height) => Cell::of(height),
        None => Cell::no_data(),
    }
}

impl<'a> RaisedTile<'a> {
    /// Makes a raised tile from `flood`; `crests` has the crests of labels by number.
    /// The first entry of the tile's table of labels has number `first`.
    fn new(flood: &'a TileFlood, first: u32, crests: &'a [Cell]) -> Self
        requires { first + length flood.now.table.places ≤ length crests.now }
        ensures { IsRaisedTile first flood.now crests.now result }
    {
        let labels = flood.labels();
        let first = first as usize;
        RaisedTile {
            heights: flood.heights(),
            labels,
            crests: &crests[first..first + labels.count()],
        }
    }

    /// Returns the filled height of the cell at an index of the tile's row order.
    #[inline(always)]
    fn at(&self, index: usize) -> Cell
        requires height { index < length self.now.heights.now }
        requires label { index < length self.now.labels.now.indexes }
        requires inside { All (λ k. k < length self.now.crests.now) self.now.labels.now.indexes }
        ensures { result ≡ cell_at self.now index }
    {
        // The number of NODATA is above all heights, so the maximum stays NODATA.
        let crest = self.crests[self.labels.index(index) as usize];
        Cell::of(self.heights.at(index).max(crest.number()))
    }

    /// Returns the index in a row of its first cell, from `from` on, that rises above the height
    /// read; the row's length if none does.
    ///
    /// `read` has the row's cells as read. The first of them has index `start` in the tile's row
    /// order.
    #[inline(never)]
    fn first_risen(&self, read: &[Cell], start: usize, from: usize) -> usize
        requires start { start ≤ 16777216 }
        requires from { from ≤ length read.now }
        requires height { start + length read.now ≤ length self.now.heights.now }
        requires label { length self.now.heights.now ≤ length self.now.labels.now.indexes }
        requires inside { All (λ k. k < length self.now.crests.now) self.now.labels.now.indexes }
        ensures from { from ≤ result }
        ensures within { result ≤ length read.now }
        ensures passed { (k : ℕ) → from ≤ k → k < result →
            slice_index_or read.now k None ≡ cell_at self.now (start + k) }
    {
        for index in from..read.len() {
            if !self.at(start + index).is_level_with(read[index]) {
                return index;
            }
        }
        read.len()
    }

    /// Adds the cells of a row that rise above the heights read.
    ///
    /// `read` has the row's cells as read. The first of them has index `start` in the tile's row
    /// order, and index `first` in the grid's.
    fn push_row(
        &self,
        runs: &mut RunList,
        read: &[Cell],
        start: usize,
        first: u32,
    ) -> Result<(), AllocError>
        requires start { start ≤ 16777216 }
        requires height { start + length read.now ≤ length self.now.heights.now }
        requires label { length self.now.heights.now ≤ length self.now.labels.now.indexes }
        requires inside { All (λ k. k < length self.now.crests.now) self.now.labels.now.indexes }
        requires small { first + length read.now ≤ 2 ^ 24 }
        ensures { OnOk result ((raised : ℕ → Option ℤ) →
            HasRow self.now raised start first (length read.now) → AddsRow raised read.now first
            (length read.now) (runs_of runs.old) (runs_of runs.new)) }
    {
        // The search writes nothing, so its loop need not ask for the widths at each cell.
        let mut index = self.first_risen(read, start, 0);
        while index < read.len() {
            runs.add(first + index as u32, self.at(start + index))?;
            index = self.first_risen(read, start, index + 1);
        }
        Ok(())
    }

    /// Returns the runs of the tile's cells that rise above the heights read.
    /// The grid has `cols` columns.
    fn runs(
        &self,
        alloc: Global,
        view: &TileView<'_, Cell>,
        cols: u32,
    ) -> Result<Vec<RaisedRun>, AllocError>
        requires size { length self.now.labels.now.indexes ≡ length self.now.heights.now }
        requires inside { All (λ k. k < length self.now.crests.now) self.now.labels.now.indexes }
        requires cells { length self.now.heights.now ≡ cell_count view.now.cutting view.now.tile }
        requires cols { cols ≡ view.now.cutting.cols }
        ensures { IfOk result (λ v. (raised : ℕ → Option ℤ) →
            HasTile self.now raised view.now.cutting view.now.tile →
            AreTileRuns raised view.now v.items) }
    {
        let Bounds {
            top,
            left,
            rows,
            cols: width,
        } = view.bounds();
        let mut runs = RunList::new(alloc);
        for row in 0..rows {
            let start = row as usize * width as usize;
            self.push_row(&mut runs, view.row(row), start, (top + row) * cols + left)?;
        }
        runs.into_runs()
    }
}

/// The jobs of the second stage: each lists the cells of a tile that rise, by the tile's flood and
/// the crests of labels.
#[derive(Drop)]
pub(crate) struct RaisedTiles<'a> {
    /// The cells of the grid as read.
    pub(crate) read: &'a [Cell],
    pub(crate) tiling: Tiling,
    pub(crate) floods: Vec<TileFlood>,
    pub(crate) firsts: Vec<u32>,
    /// The crest of each label, by its number.
    pub(crate) crests: Vec<Cell>,
    ghost size: { length read.now ≡ tiling.cols * tiling.rows },
    ghost lawful: { IsCutting tiling } by { Prim.hlevel props },
    ghost fit: { Fit tiling floods.items } by { Prim.hlevel props },
    ghost numbers: { AreFirsts floods.items firsts.items } by { Prim.hlevel props },
    ghost crests_size: { length (places_of floods.items) ≤ length crests.items },
    ghost bare: { HasNoCrestWithoutPlace (places_of floods.items) crests.items },
}

impl<'a> Work for RaisedTiles<'a> {
    ghost use Rattle.tiles.specs.Cutting.{tile_count};
    ghost use Rattle.fill.specs.RaisedTiles.{AreTileRuns, raised_cell};

    type Out = Vec<RaisedRun>;

    ghost most = { λ w. tile_count w.tiling };

    ghost gives = { λ w job out. AreTileRuns (raised_cell w.tiling w.floods.items w.crests.items)
        (record { cutting = w.tiling; tile = job; cells = w.read.now }) out.items };

    fn run(&self, alloc: Global, job: u32) -> Result<Vec<RaisedRun>, JobFault> {
        let index = job as usize;
        let view = self.tiling.view(self.read, job);
        let first = self.firsts[index];
        let raised = RaisedTile::new(&self.floods[index], first, &self.crests);
        Ok(raised.runs(alloc, &view, self.tiling.cols())?)
    }
}
