//! Lists the cells that rise as runs of cells with one height: [`RaisedRun`].
//!
//! Of two cells side by side that both rise, neither rises above the other. So their height is one,
//! and runs take no more memory than a list of all cells.
ghost use Rattle.std.specs.Prelude.{◌≡◌, ◌↔◌, ◌+◌, ◌<◌, ◌^◌, ℕ, ℤ, Option, IsTrue, IfOk, OnOk};
ghost use Rattle.fill.specs.RaisedRuns.{AddsRun, AreAllRaised, AreRaised, IsInRuns, IsInTiles, IsPatched, PutsRun, runs_of};

use std::alloc::{AllocError, Global};
use terrain::Cell;

/// Cells side by side, in row order of the grid, that all rise to the same height.
#[derive(Clone, Copy)]
pub(crate) struct RaisedRun {
    /// The index of the first cell.
    pub(crate) first: u32,
    pub(crate) count: u32,
    cell: Cell,
}

impl RaisedRun {
    /// Returns whether the run ends just before an index, and has this cell.
    #[inline(always)]
    fn goes_on_with(self, index: u32, cell: Cell) -> bool
        ensures { IsTrue result ↔ ((self.first + self.count ≡ index) × (self.cell ≡ cell)) }
    {
        self.first <= index && index - self.first == self.count && self.cell.is_level_with(cell)
    }
}

/// Runs of cells, to the last of which cells may be added.
#[derive(Drop)]
pub(crate) struct RunList {
    ended: Vec<RaisedRun>,
    last: RaisedRun,
}

impl RunList {
    /// Returns a list whose only run is without cells.
    pub(crate) fn new(alloc: Global) -> Self
        ensures { (raised : ℕ → Option ℤ) → AreRaised raised (runs_of result) }
    {
        let last = RaisedRun {
            first: 0,
            count: 0,
            cell: Cell::no_data(),
        };
        RunList {
            ended: Vec::new(alloc),
            last,
        }
    }

    /// Adds the cell of an index, which rises to `cell`.
    #[inline(always)]
    pub(crate) fn add(&mut self, index: u32, cell: Cell) -> Result<(), AllocError>
        requires { index < 2 ^ 24 }
        ensures { OnOk result (AddsRun index cell (runs_of self.old) (runs_of self.new)) }
    {
        if self.last.goes_on_with(index, cell) {
            self.last.count += 1;
            return Ok(());
        }
        self.ended.push(self.last)?;
        self.last = RaisedRun {
            first: index,
            count: 1,
            cell,
        };
        Ok(())
    }

    pub(crate) fn into_runs(self) -> Result<Vec<RaisedRun>, AllocError>
        ensures { IfOk result (λ v. v.items ≡ runs_of self) }
    {
        let RunList { mut ended, last } = self;
        ended.push(last)?;
        Ok(ended)
    }
}

fn put_run(cells: &mut [Cell], run: RaisedRun)
    ensures { PutsRun run cells.old cells.new }
{
    let first = run.first as usize;
    let end = cells.len().min(first + run.count as usize);
    for index in first..end {
        cells[index] = run.cell;
    }
}

fn put_runs(cells: &mut [Cell], runs: &[RaisedRun])
    ensures { (raised : ℕ → Option ℤ) → AreRaised raised runs.now →
        IsPatched raised cells.old (IsInRuns runs.now) cells.new }
{
    for run in runs {
        put_run(cells, *run);
    }
}

fn put_all(cells: &mut [Cell], tiles: &[Vec<RaisedRun>])
    ensures { (raised : ℕ → Option ℤ) → AreAllRaised raised tiles.now →
        IsPatched raised cells.old (IsInTiles tiles.now) cells.new }
{
    for runs in tiles {
        put_runs(cells, runs);
    }
}

/// Returns the cells of a grid with the runs of all tiles in their places.
pub(crate) fn with_runs(
    alloc: Global,
    cells: &[Cell],
    tiles: &[Vec<RaisedRun>],
) -> Result<Vec<Cell>, AllocError>
    ensures { IfOk result (λ whole. (raised : ℕ → Option ℤ) → AreAllRaised raised tiles.now →
        IsPatched raised cells.now (IsInTiles tiles.now) whole.items) }
{
    let mut whole = Vec::with_capacity(alloc, cells.len())?;
    whole.extend_from_slice(cells)?;
    put_all(&mut whole, tiles);
    Ok(whole)
}
