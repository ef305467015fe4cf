//! Finds the greatest height of each block of 16 by 16 and of 128 by 128 cells (`tops_of`).
//!
//! A tile's job finds those of the near blocks that begin in the tile, so each block has one job.
ghost use Rattle.std.specs.Prelude.{◌≡◌, ℕ, ℤ, ◌<◌, ◌≤◌, length, Vec, Option, slice_index_or, None, Some, IfOk};
ghost use Rattle.std.specs.declared.alloc.Global.{Global};
ghost use Rattle.std.proofs.Props.{props};
ghost use Rattle.terrain.specs.Raster.{IsHeight};
ghost use Rattle.tiles.specs.Cutting.{Cuts, IsWithinLimits, tile_count};
ghost use Rattle.tile_jobs.specs.Fault.{RefusesWorkers};
ghost use Rattle.tile_jobs.specs.Results.{AreResults};
ghost use Rattle.sightlines.specs.Walk.{AreHeights};
ghost use Rattle.sightlines.specs.Blocks.{IsTopOf, AreTops, IsTops};
ghost use Rattle.sight.specs.BlockTops.{ground_of, IsGround, IsBlock, IsBlockTop, IsTileTops, all_blocks, blocks_begun};

use crate::by_place::{PlaceMap, entries};
use crate::heights::{greater_height, height_at};
use sightlines::{FAR_BLOCK, MaxHeights, NEAR_BLOCK, blocks_in};
use std::alloc::{AllocError, Global};
use std::sync::Wait;
use std::thread::Threads;
use terrain::{Cell, Grid, Height, LOWEST, Place};
use tile_jobs::{Gate, JobFault, Work};
use tile_maps::Runner;
use tiles::{Bounds, Tiling};

/// Returns the greatest height of some cells, or `None` where all are NODATA.
#[inline(always)]
fn top_of(cells: &[Cell]) -> Option<Height>
    requires { AreHeights cells.now }
    ensures top { (i : ℕ) (h : ℤ) → slice_index_or cells.now i None ≡ Some h → IsTopOf result h }
    ensures height { (h : ℤ) → result ≡ Some h → IsHeight h }
{
    let mut top = None;
    for index in 0..cells.len() {
        top = greater_height(top, height_at(cells, index));
    }
    top
}

#[inline(always)]
fn top_cell(top: Option<Height>) -> Cell
    requires { (h : ℤ) → top ≡ Some h → IsHeight h }
    ensures { result ≡ top }
{
    match top {
        Some(height) => Cell::of(height),
        None => Cell::no_data(),
    }
}

/// Cells cut into blocks of `size` by `size`.
/// Blocks at the east and south edges may be smaller.
#[derive(Drop)]
struct Blocks<'a> {
    cells: &'a [Cell],
    cols: u32,
    rows: u32,
    size: u32,
    ghost sized: { (0 < size) × (size ≤ 4096) },
    ghost ground: { IsGround cols rows cells.now },
}

impl<'a> Blocks<'a> {
    /// Returns the greatest height of a block, as a cell.
    #[inline(always)]
    fn top(&self, block: Place) -> Cell
        requires { IsBlock self.now.size
            (ground_of self.now.cols self.now.rows self.now.cells.now) block }
        ensures { IsBlockTop self.now.size
            (ground_of self.now.cols self.now.rows self.now.cells.now) block result }
    {
        let from = block.col * self.size;
        let to = self.cols.min(from + self.size);
        let first = block.row * self.size;
        let mut top = None;
        for row in first..self.rows.min(first + self.size) {
            let line = row as usize * self.cols as usize;
            let run = &self.cells[line + from as usize..line + to as usize];
            top = greater_height(top, top_of(run));
        }
        top_cell(top)
    }

    /// Returns the greatest heights of all blocks, in row order.
    fn tops(&self, alloc: Global) -> Result<Vec<Cell>, AllocError>
        ensures { IfOk result (λ v. AreTops self.now.size
            (ground_of self.now.cols self.now.rows self.now.cells.now) v.items) }
    {
        entries(self, alloc, self.bounds())
    }

    /// Returns the rows and columns of all blocks.
    fn bounds(&self) -> Bounds
        ensures { result ≡ all_blocks self.now.size self.now.rows self.now.cols }
    {
        Bounds {
            top: 0,
            left: 0,
            rows: blocks_in(self.size, self.rows) as u32,
            cols: blocks_in(self.size, self.cols) as u32,
        }
    }
}

impl<'a> PlaceMap for Blocks<'a> {
    ghost use Rattle.sight.specs.BlockTops.{ground_of, IsBlock, IsBlockTop};

    type Entry = Cell;

    ghost inside = { λ m. IsBlock m.size (ground_of m.cols m.rows m.cells.now) };

    ghost has = { λ m. IsBlockTop m.size (ground_of m.cols m.rows m.cells.now) };

    fn entry(&self, block: Place) -> Cell {
        self.top(block)
    }
}

/// Returns the rows and columns of the near blocks whose first cell is in the bounds.
fn blocks_begun(bounds: Bounds) -> Bounds
    requires { IsWithinLimits bounds }
    ensures { result ≡ blocks_begun bounds }
{
    let top = blocks_in(NEAR_BLOCK, bounds.top) as u32;
    let left = blocks_in(NEAR_BLOCK, bounds.left) as u32;
    Bounds {
        top,
        left,
        rows: blocks_in(NEAR_BLOCK, bounds.top + bounds.rows) as u32 - top,
        cols: blocks_in(NEAR_BLOCK, bounds.left + bounds.cols) as u32 - left,
    }
}

/// Jobs that each find the greatest heights of the near blocks that begin in a tile.
#[derive(Drop)]
struct TileBlocks<'a> {
    blocks: &'a Blocks<'a>,
    tiling: &'a Tiling,
    ghost near: { blocks.now.size ≡ 16 },
    ghost cut: { (tiling.now.cols ≡ blocks.now.cols) × (tiling.now.rows ≡ blocks.now.rows) },
}

impl<'a> Work for TileBlocks<'a> {
    ghost use Rattle.tiles.specs.Cutting.{tile_count};
    ghost use Rattle.sight.specs.BlockTops.{ground_of, IsTileTops};

    type Out = Vec<Cell>;

    ghost most = { λ w. tile_count w.tiling.now };

    ghost gives = { λ w tile out. IsTileTops w.tiling.now
        (ground_of w.blocks.now.cols w.blocks.now.rows w.blocks.now.cells.now) tile out.items };

    fn run(&self, alloc: Global, tile: u32) -> Result<Vec<Cell>, JobFault> {
        let tops = entries(self.blocks, alloc, blocks_begun(self.tiling.bounds(tile)))?;
        Ok(tops)
    }
}

/// The greatest heights of near blocks, in one list for each tile.
#[derive(Drop)]
struct TileTops<'a> {
    tiles: &'a TileBlocks<'a>,
    lists: &'a [Vec<Cell>],
    ghost count: { length lists.now ≡ tile_count tiles.now.tiling.now },
    ghost listed: { AreResults (λ tile (list : Vec (Option ℤ) Global).
        IsTileTops tiles.now.tiling.now (ground_of tiles.now.blocks.now.cols
        tiles.now.blocks.now.rows tiles.now.blocks.now.cells.now) tile list.items)
        (tile_count tiles.now.tiling.now) lists.now } by { Prim.hlevel props },
}

impl<'a> PlaceMap for TileTops<'a> {
    ghost use Rattle.sight.specs.BlockTops.{ground_of, IsBlock, IsBlockTop};

    type Entry = Cell;

    ghost inside = { λ m. IsBlock 16 (ground_of m.tiles.now.blocks.now.cols
        m.tiles.now.blocks.now.rows m.tiles.now.blocks.now.cells.now) };

    ghost has = { λ m. IsBlockTop 16 (ground_of m.tiles.now.blocks.now.cols
        m.tiles.now.blocks.now.rows m.tiles.now.blocks.now.cells.now) };

    fn entry(&self, block: Place) -> Cell {
        let first = Place {
            row: block.row * NEAR_BLOCK,
            col: block.col * NEAR_BLOCK,
        };
        let tile = self.tiles.tiling.tile_of(first);
        let begun = blocks_begun(self.tiles.tiling.bounds(tile));
        self.lists[tile as usize][begun.index_of(block)]
    }
}

/// Returns the greatest heights of near blocks, found by one job for each tile.
fn near_tops<R: Threads + Wait + Sync, G: Gate + Sync>(
    runner: &Runner<R, G>,
    blocks: &Blocks,
    tiling: &Tiling,
) -> Result<Vec<Cell>, JobFault>
    requires near { blocks.now.size ≡ 16 }
    requires cut { (tiling.now.cols ≡ blocks.now.cols) × (tiling.now.rows ≡ blocks.now.rows) }
    ensures tops { IfOk result (λ v. AreTops 16
        (ground_of blocks.now.cols blocks.now.rows blocks.now.cells.now) v.items) }
    ensures workers { RefusesWorkers runner.now.workers result }
{
    let tiles = TileBlocks { blocks, tiling };
    let lists = runner.run(&tiles, tiling.tiles())?;
    let tops = TileTops {
        tiles: &tiles,
        lists: &lists,
    };
    let near = entries(&tops, runner.alloc, blocks.bounds())?;
    Ok(near)
}

/// Returns the greatest height of each near and far block, and of the grid.
/// Near blocks are 16 by 16 cells, far blocks 128 by 128. A tile's job finds the heights of the
/// near blocks that begin in it. The grid's greatest height is its peak: `LOWEST` if no cell has
/// data.
pub(crate) fn tops_of<R: Threads + Wait + Sync, G: Gate + Sync>(
    runner: &Runner<R, G>,
    grid: &Grid,
    tiling: &Tiling,
) -> Result<MaxHeights, JobFault>
    requires given { Cuts tiling.now grid.now.terrain }
    ensures tops { IfOk result (λ t. IsTops grid.now.terrain t) }
    ensures workers { RefusesWorkers runner.now.workers result }
{
    let (cols, rows) = (grid.cols(), grid.rows());
    let cells = Blocks {
        cells: grid.cells(),
        cols,
        rows,
        size: NEAR_BLOCK,
    };
    let near = near_tops(runner, &cells, tiling)?;
    let wide = blocks_in(NEAR_BLOCK, cols) as u32;
    let high = blocks_in(NEAR_BLOCK, rows) as u32;
    let near_blocks = Blocks {
        cells: &near,
        cols: wide,
        rows: high,
        size: FAR_BLOCK / NEAR_BLOCK,
    };
    let far = near_blocks.tops(runner.alloc)?;
    let peak = top_of(&far).unwrap_or(LOWEST);
    Ok(MaxHeights { near, far, peak })
}
