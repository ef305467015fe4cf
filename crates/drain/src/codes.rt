//! Finds the direction codes of all cells in the last round, by one job for each tile.
//!
//! A job copies two windows of its tile, with filled heights and with counts, `None` off the grid.
//! A spot is a place of a tile's window: the tile and a border of one cell around it.
//! So each cell of the tile has eight spots around it, also at the grid's border.
//! Ways are the eight directions, from 0 to 7 in code order.
//!
//! A job also certifies the counts: it looks whether a cell's count is more than one above that of
//! a neighbour of its height. If no job finds such a cell, the counts are the steps.
ghost use Rattle.std.specs.Prelude.{◌≡◌, ℕ, ℤ, ◌+◌, ◌*◌, ◌<◌, ◌≤◌, Some, None, length, slice_index_or, OnOk, IfOk, IfErr, IfSome};
ghost use Rattle.terrain.specs.Raster.{IsHeight};
ghost use Rattle.drainage.specs.StepCounts.{no_count};
ghost use Rattle.terrain.specs.declared.place.Place.{Place};
ghost use Rattle.tile_jobs.specs.Fault.{RefusesWorkers};
ghost use Rattle.tile_maps.specs.Maps.{AreSetUpTo, IsMadeUpTo};
ghost use Rattle.tiles.specs.Cutting.{IsCutting, bounds_of, tile_count};
ghost use Rattle.tiles.specs.Windows.{IsInner, Shows};
ghost use Rattle.drain.specs.Codes.{AreAll, AreCodes, IsChecked, IsDownCode, IsOnwardCode, IsStillAround, IsTooHigh, stored_on};
ghost use Rattle.drain.specs.Counts.{IsChange, IsCheckedCode};
ghost use Rattle.drain.specs.Search.{level_on};

use crate::changes::Change;
use crate::input::RoundInput;
use crate::steepness::steepest;
use drainage::{Code, StepCount};
use std::alloc::{AllocError, Global};
use std::marker::Model;
use std::sync::Wait;
use std::thread::Threads;
use terrain::{Cell, Height, Place};
use tile_jobs::{Gate, JobFault, Work};
use tile_maps::Runner;
use tiles::{Bounds, Window};

/// Returns the heights of the eight cells at the indexes `at`.
#[inline(always)]
fn heights_at(cells: &[Cell], at: &[usize; 8]) -> [Cell; 8]
    requires { (way : ℕ) → way < 8 → slice_index_or at.now way 0 < length cells.now }
    ensures { (way : ℕ) → way < 8 → slice_index_or result way None
        ≡ slice_index_or cells.now (slice_index_or at.now way 0) None }
{
    [
        cells[at[0]],
        cells[at[1]],
        cells[at[2]],
        cells[at[3]],
        cells[at[4]],
        cells[at[5]],
        cells[at[6]],
        cells[at[7]],
    ]
}

/// Returns the code of the first way to a neighbour of height `level` with one step fewer than
/// `own`.
/// Returns an outlet's code if there is none, which is so of no cell once the counts are the steps.
/// An error is the least count that follows from a neighbour's, where that is below `own`.
#[inline(always)]
fn onward_code(
    cells: &[Cell],
    steps: &[StepCount],
    at: &[usize; 8],
    level: Cell,
    own: u32,
) -> Result<Code, u32>
    requires cells { (way : ℕ) → way < 8 → slice_index_or at.now way 0 < length cells.now }
    requires steps { (way : ℕ) → way < 8 → slice_index_or at.now way 0 < length steps.now }
    requires own { own ≤ no_count }
    ensures onward { IfOk result (IsOnwardCode cells.now steps.now at.now level own) }
    ensures still { IfOk result (λ _. IsStillAround cells.now steps.now at.now level own) }
    ensures lower { IfErr result (IsTooHigh cells.now steps.now at.now level own) }
{
    let mut code = Code::outlet();
    let mut least = own;
    for turn in 0..8 {
        let way = 7 - turn;
        let index = at[way];
        let count = steps[index].number() + 1;
        // No branch: which neighbours are level is hard to guess.
        let is_level = cells[index].is_level_with(level);
        let next = if is_level { count } else { own };
        least = least.min(next);
        if is_level & (count == own) {
            code = Code::of_way(way);
        }
    }
    if least < own {
        return Err(least);
    }
    Ok(code)
}

/// Returns the code of a data cell with the height `level` and the count `own`.
/// A cell with steps above 0 has no lower neighbour; a cell with 0 steps drains at once.
///
/// An error is the lower count of a cell whose count is more than one above a neighbour's.
#[inline(always)]
fn data_code(
    cells: &[Cell],
    steps: &[StepCount],
    at: &[usize; 8],
    level: Height,
    own: u32,
) -> Result<Code, u32>
    requires cells { (way : ℕ) → way < 8 → slice_index_or at.now way 0 < length cells.now }
    requires steps { (way : ℕ) → way < 8 → slice_index_or at.now way 0 < length steps.now }
    requires own { own ≤ no_count }
    requires level { IsHeight level }
    requires heights { (way : ℕ) → way < 8 →
        IfSome (slice_index_or cells.now (slice_index_or at.now way 0) None) IsHeight }
    ensures down { IfOk result (λ code. own ≡ 0 → IsDownCode cells.now at.now level code) }
    ensures onward { IfOk result (λ code. 0 < own →
        IsOnwardCode cells.now steps.now at.now (Some level) own code) }
    ensures still { IfOk result (λ _.
        IsStillAround cells.now steps.now at.now (Some level) own) }
    ensures lower { IfErr result (IsTooHigh cells.now steps.now at.now (Some level) own) }
{
    if own > 0 {
        let code = onward_code(cells, steps, at, Cell::of(level), own)?;
        return Ok(code);
    }
    match steepest(level, &heights_at(cells, at)) {
        Some(way) => Ok(Code::of_way(way)),
        None => Ok(Code::outlet()),
    }
}

/// Filled heights and counts at the spots of a tile's window.
#[derive(Drop)]
struct CountedWindow<'a> {
    levels: Window<Cell>,
    steps: Window<StepCount>,
    input: &'a RoundInput<'a>,
}

impl<'a> Model for CountedWindow<'a> {
    ghost use Rattle.std.specs.Prelude.{◌≡◌};
    ghost use Rattle.drain.specs.Codes.{CountedSpots, AreCountedSpots};

    ghost Value = { CountedSpots };

    ghost view = { λ w. record {
      terrain = w.input.now.terrain;
      all = w.input.now.steps;
      bounds = w.levels.bounds;
      levels = w.levels.values.items;
      steps = w.steps.values.items;
    } };

    ghost invariant = { λ w. (w.steps.bounds ≡ w.levels.bounds) × AreCountedSpots (record {
      terrain = w.input.now.terrain;
      all = w.input.now.steps;
      bounds = w.levels.bounds;
      levels = w.levels.values.items;
      steps = w.steps.values.items;
    }) };
}

impl<'a> CountedWindow<'a> {
    /// Copies the filled heights and counts of a tile and of the places around it.
    fn new(
        alloc: Global,
        input: &'a RoundInput<'a>,
        tile: u32,
    ) -> Result<CountedWindow<'a>, AllocError>
        requires { tile < tile_count input.now.cutting }
        ensures lawful { IfOk result (λ _. IsCutting input.now.cutting) }
        ensures bounds { IfOk result (λ w. w.bounds ≡ bounds_of input.now.cutting tile) }
        ensures terrain { IfOk result (λ w. w.terrain ≡ input.now.terrain) }
        ensures counts { IfOk result (λ w. w.all ≡ input.now.steps) }
    {
        let levels = input.tiling.view(input.levels, tile);
        let steps = input.tiling.view(input.steps, tile);
        Ok(CountedWindow {
            levels: Window::of_view(alloc, &levels, Cell::no_data())?,
            steps: Window::of_view(alloc, &steps, StepCount::none())?,
            input,
        })
    }

    /// Returns the height of the cell at a spot, `None` where there is no data.
    #[inline(always)]
    fn level(&self, spot: Place) -> Option<Height>
        requires { IsInner self.now.bounds spot }
        ensures { result ≡ level_on self.now.bounds self.now.levels spot }
    {
        self.levels.values[self.levels.index(spot)].height()
    }

    /// Returns the count of the cell at a spot, [`NO_COUNT`](drainage::NO_COUNT) where none is
    /// known.
    #[inline(always)]
    fn count(&self, spot: Place) -> u32
        requires { IsInner self.now.bounds spot }
        ensures value { result ≡ stored_on self.now spot }
        ensures few { result ≤ no_count }
    {
        self.steps.values[self.levels.index(spot)].number()
    }

    /// Returns the code of the cell at a spot of the tile, `None` where there is no data.
    /// An error is the lower count of a cell whose count is more than one above a neighbour's.
    #[inline(always)]
    fn code_at(&self, spot: Place) -> Result<Option<Code>, Change>
        requires { IsInner self.now.bounds spot }
        ensures code { IfOk result (λ code. (p : Place) → Shows self.now.bounds spot p →
            IsCheckedCode self.now.terrain self.now.all p code) }
        ensures lower { IfErr result (IsChange self.now.terrain self.now.all) }
    {
        let at = self.levels.around(spot);
        let Some(level) = self.level(spot) else {
            return Ok(None);
        };
        let own = self.count(spot);
        match data_code(&self.levels.values, &self.steps.values, &at, level, own) {
            Ok(code) => Ok(Some(code)),
            Err(count) => Err(Change {
                place: Place {
                    row: self.levels.bounds.top + spot.row - 1,
                    col: self.levels.bounds.left + spot.col - 1,
                },
                count,
            }),
        }
    }

    /// Writes the codes of one row of the tile, and returns the first lower count that it finds.
    fn codes_along(&self, row: u32, codes: &mut [Option<Code>]) -> Option<Change>
        requires row { row < self.now.bounds.rows }
        requires codes { AreSetUpTo self.now.bounds (IsCheckedCode self.now.terrain self.now.all)
            (row * self.now.bounds.cols) codes.old }
        ensures codes { result ≡ None → AreSetUpTo self.now.bounds
            (IsCheckedCode self.now.terrain self.now.all) ((row + 1) * self.now.bounds.cols)
            codes.new }
        ensures lower { IfSome result (IsChange self.now.terrain self.now.all) }
    {
        let cols = self.levels.bounds.cols;
        for col in 0..cols {
            let spot = Place {
                row: row + 1,
                col: col + 1,
            };
            match self.code_at(spot) {
                Ok(code) => codes[Place { row, col }.index_in(cols)] = code,
                Err(change) => return Some(change),
            }
        }
        None
    }

    /// Returns the codes of the tile's cells, or a lower count.
    fn codes(&self, alloc: Global) -> Result<TileCodes, AllocError>
        ensures { IfOk result (AreCodes self.now) }
    {
        let Bounds { rows, cols, .. } = self.levels.bounds;
        let mut codes = vec![in alloc; None; rows as usize * cols as usize]?;
        for row in 0..rows {
            if let Some(change) = self.codes_along(row, &mut codes) {
                return Ok(TileCodes::TooHigh(change));
            }
        }
        Ok(TileCodes::Codes(codes))
    }
}

/// What a job of the last round finds.
#[derive(Drop)]
pub(crate) enum TileCodes {
    /// The codes of the tile's cells, in row order.
    Codes(Vec<Option<Code>>),
    /// A count that is lower than the cell's count so far.
    TooHigh(Change),
}

/// Input of the last round's jobs.
#[derive(Drop)]
struct LastRound<'a> {
    input: &'a RoundInput<'a>,
}

impl<'a> Work for LastRound<'a> {
    ghost use Rattle.tiles.specs.Cutting.{tile_count};
    ghost use Rattle.drain.specs.Codes.{IsTileCodes};

    type Out = TileCodes;

    ghost most = { λ r. tile_count r.input.now.cutting };

    ghost gives = { λ r tile out. IsTileCodes r.input.now tile out };

    fn run(&self, alloc: Global, job: u32) -> Result<TileCodes, JobFault> {
        let window = CountedWindow::new(alloc, self.input, job)?;
        let codes = window.codes(alloc)?;
        Ok(codes)
    }
}

/// What the last round finds.
#[derive(Drop)]
pub(crate) enum Checked {
    /// The codes of each tile; the counts are the steps.
    Codes(Vec<Vec<Option<Code>>>),
    /// A count that is lower than the cell's count so far.
    TooHigh(Change),
}

/// Returns the lists of codes of all tiles, or the first lower count.
fn check_all(alloc: Global, outs: Vec<TileCodes>) -> Result<Checked, AllocError>
    ensures { IfOk result (AreAll outs.items) }
{
    let mut lists = Vec::with_capacity(alloc, outs.len())?;
    for out in outs {
        match out {
            TileCodes::Codes(list) => lists.push(list)?,
            TileCodes::TooHigh(change) => return Ok(Checked::TooHigh(change)),
        }
    }
    Ok(Checked::Codes(lists))
}

/// Finds the codes of all tiles in one round, and whether a count is too high.
pub(crate) fn last_round<R: Threads + Wait + Sync, G: Gate + Sync>(
    runner: &Runner<'_, R, G>,
    input: &RoundInput<'_>,
) -> Result<Checked, JobFault>
    ensures checked { IfOk result (IsChecked input.now) }
    ensures workers { RefusesWorkers runner.now.workers result }
{
    let outs = runner.run(&LastRound { input }, input.tiling.tiles())?;
    let found = check_all(runner.alloc, outs)?;
    Ok(found)
}
