//! Computes the filled heights of a grid, tile by tile and with several workers: [`filled`].
//!
//! A first job for each tile floods the tile, which gives its cells levels and labels. Then the
//! caller's thread finds each label's crest in the spill graph. A second job for each tile lists
//! the cells that rise, to the greater of level and crest of the label. The other cells keep the
//! heights read.
//!
//! Only soundness is proved of the search: water leaves each cell at its new height. A certificate
//! shows that no cell is too high ([`are_held`]).
ghost use Rattle.std.proofs.Props.{props};
ghost use Rattle.std.specs.Prelude.{◌≡◌, ◌<◌, ◌≤◌, length, map, IfOk, IfSome};
ghost use Rattle.terrain.specs.Raster.{Terrain};
ghost use Rattle.terrain.specs.StoredCells.{cell_of};
ghost use Rattle.drainage.specs.Filled.{IsFilled, IsFilledGrid};
ghost use Rattle.tiles.specs.Cutting.{Cuts, IsCutting};
ghost use Rattle.fill.specs.Crests.{AreCrests, AreMet};
ghost use Rattle.fill.specs.Numbers.{places_of};
ghost use Rattle.fill.specs.SpillGraph.{AreFloods};
ghost use Rattle.tile_jobs.specs.Fault.{RefusesWorkers};

use crate::cell_labels::NumberedFloods;
use crate::crests::label_crests;
use crate::found_joins::found_joins;
use crate::held::are_held;
use crate::numbers::{first_numbers, label_ends};
use crate::raised_runs::with_runs;
use crate::raised_tiles::{RaisedTiles, cell};
use cell_floods::{FloodWithMeetings, Meeting, TileFlood, filled_heights, flood_with_meetings};
use drainage::Filled;
use std::alloc::{AllocError, Global};
use std::sync::Wait;
use std::thread::Threads;
use terrain::{Cell, Grid, Height, NoMemory};
use tile_jobs::{Gate, JobFault, Work};
use tile_maps::Runner;
use tiles::Tiling;

/// The jobs of the first stage: each floods a tile and finds where its labels meet.
#[derive(Drop)]
struct FloodJobs<'a> {
    grid: &'a Grid,
    tiling: &'a Tiling,
    ghost cuts: { Cuts tiling.now grid.now.terrain },
    ghost lawful: { IsCutting tiling.now } by { Prim.hlevel props },
}

impl<'a> Work for FloodJobs<'a> {
    type Out = FloodWithMeetings;

    ghost use Rattle.std.specs.List.{All};
    ghost use Rattle.tiles.specs.Cutting.{tile_count};
    ghost use Rattle.cell_floods.specs.TileFlood.{IsMeeting, IsTileFlood};

    ghost most = { λ w. tile_count w.tiling.now };

    ghost gives = { λ w job out. IsTileFlood w.grid.now.terrain w.tiling.now job out.flood
        × All (IsMeeting w.grid.now.terrain out.flood) out.meetings.items };

    fn run(&self, alloc: Global, job: u32) -> Result<FloodWithMeetings, JobFault> {
        let view = self.tiling.view(self.grid.cells(), job);
        let Ok(found) = flood_with_meetings(alloc, &view, self.grid.sinks()) else {
            return Err(JobFault::Memory);
        };
        Ok(found)
    }
}

fn into_lists(
    alloc: Global,
    tiles: Vec<FloodWithMeetings>,
) -> Result<(Vec<TileFlood>, Vec<Vec<Meeting>>), AllocError>
    ensures floods { IfOk result (λ r. r.0.items ≡ map (λ x. x.flood) tiles.items) }
    ensures meetings { IfOk result (λ r. r.1.items ≡ map (λ x. x.meetings) tiles.items) }
{
    let mut floods = Vec::with_capacity(alloc, tiles.len())?;
    let mut met = Vec::with_capacity(alloc, tiles.len())?;
    for tile in tiles {
        let FloodWithMeetings { flood, meetings } = tile;
        floods.push(flood)?;
        met.push(meetings)?;
    }
    Ok((floods, met))
}

/// Floods each tile in a job.
/// Returns, in tile order, the floods, and the meetings of each tile's labels.
fn tile_floods<R: Threads + Wait + Sync, G: Gate + Sync>(
    runner: &Runner<'_, R, G>,
    grid: &Grid,
    tiling: &Tiling,
) -> Result<(Vec<TileFlood>, Vec<Vec<Meeting>>), JobFault>
    requires { Cuts tiling.now grid.now.terrain }
    ensures floods { IfOk result (λ r. AreFloods grid.now.terrain tiling.now r.0.items) }
    ensures meetings { IfOk result (λ r. AreMet grid.now.terrain r.0.items r.1.items) }
    ensures workers { RefusesWorkers runner.now.workers result }
{
    let jobs = tiling.tiles();
    let tiles = runner.run(&FloodJobs { grid, tiling }, jobs)?;
    let (floods, met) = into_lists(runner.alloc, tiles)?;
    Ok((floods, met))
}

/// Returns a crest of each label, by its number, from the meetings of each tile's labels.
fn crests_of(
    alloc: Global,
    tiles: &NumberedFloods<'_>,
    meetings: &[Vec<Meeting>],
) -> Result<Vec<Cell>, AllocError>
    requires { (t : Terrain) × AreFloods t tiles.now.tiling.now tiles.now.floods.now
        × AreMet t tiles.now.floods.now meetings.now }
    ensures size { IfOk result (λ v. length (places_of tiles.now.floods.now) ≡ length v.items) }
    ensures crests { IfOk result (λ v. (t : Terrain)
        → AreFloods t tiles.now.tiling.now tiles.now.floods.now
        → AreMet t tiles.now.floods.now meetings.now
        → AreCrests t (places_of tiles.now.floods.now) v.items) }
{
    let joins = found_joins(alloc, tiles, meetings)?;
    let ends = label_ends(alloc, tiles.floods)?;
    label_crests(alloc, ends, joins)
}

/// Returns the filled height of each data cell, no data elsewhere, in row order.
/// Finds the labels' crests on the caller's thread, then raises each tile in a job. Frees the
/// floods before it makes the list of all cells. `None` where the cells have no certificate.
fn filled_cells<R: Threads + Wait + Sync, G: Gate + Sync>(
    runner: &Runner<'_, R, G>,
    grid: &Grid,
    tiling: &Tiling,
    floods: Vec<TileFlood>,
    meetings: Vec<Vec<Meeting>>,
) -> Result<Option<Vec<Cell>>, JobFault>
    requires floods { AreFloods grid.now.terrain tiling.now floods.items }
    requires meetings { AreMet grid.now.terrain floods.items meetings.items }
    requires workers { (0 < runner.now.workers) × (runner.now.workers ≤ 64) }
    ensures filled { IfOk result (λ o. IfSome o (λ v. IsFilled grid.now.terrain v.items)) }
    ensures workers { RefusesWorkers runner.now.workers result }
{
    let firsts = first_numbers(runner.alloc, tiling, &floods)?;
    let tiles = NumberedFloods {
        tiling,
        floods: &floods,
        firsts: &firsts,
    };
    let crests = crests_of(runner.alloc, &tiles, &meetings)?;
    drop(tiles);
    drop(meetings);
    let read = grid.cells();
    let raised = RaisedTiles {
        read,
        tiling: *tiling,
        floods,
        firsts,
        crests,
    };
    let runs = runner.run(&raised, tiling.tiles())?;
    drop(raised);
    let cells = with_runs(runner.alloc, read, &runs)?;
    if are_held(tiling, read, &cells, &runs, grid.sinks()) {
        Ok(Some(cells))
    } else {
        Ok(None)
    }
}

/// Returns these heights as cells, in a list with room for `count`.
fn cells_of(
    alloc: Global,
    count: usize,
    heights: &[Option<Height>],
) -> Result<Vec<Cell>, AllocError>
    ensures { IfOk result (λ v. v.items ≡ map cell_of heights.now) }
{
    let mut cells = Vec::with_capacity(alloc, count)?;
    for height in heights {
        cells.push(cell(*height))?;
    }
    Ok(cells)
}

/// Returns the filled heights by one flood of the whole grid, which needs no certificate.
#[inline(never)]
fn flooded_whole(alloc: Global, grid: &Grid) -> Result<Vec<Cell>, NoMemory>
    ensures { IfOk result (λ v. IsFilled grid.now.terrain v.items) }
{
    let heights = filled_heights(alloc, grid)?;
    Ok(cells_of(alloc, grid.cells().len(), &heights)?)
}

/// Returns the filled height of each data cell, no data elsewhere, in row order.
/// Takes those of [`filled_cells`], or where these have no certificate those of one flood.
fn certified_cells<R: Threads + Wait + Sync, G: Gate + Sync>(
    runner: &Runner<'_, R, G>,
    grid: &Grid,
    tiling: &Tiling,
    floods: Vec<TileFlood>,
    meetings: Vec<Vec<Meeting>>,
) -> Result<Vec<Cell>, JobFault>
    requires floods { AreFloods grid.now.terrain tiling.now floods.items }
    requires meetings { AreMet grid.now.terrain floods.items meetings.items }
    requires workers { (0 < runner.now.workers) × (runner.now.workers ≤ 64) }
    ensures filled { IfOk result (λ v. IsFilled grid.now.terrain v.items) }
    ensures workers { RefusesWorkers runner.now.workers result }
{
    if let Some(cells) = filled_cells(runner, grid, tiling, floods, meetings)? {
        return Ok(cells);
    }
    let Ok(cells) = flooded_whole(runner.alloc, grid) else {
        return Err(JobFault::Memory);
    };
    Ok(cells)
}

/// Returns the grid with each height replaced by its filled height.
///
/// A first job for each tile finds the levels and labels of its cells. Then the caller's thread
/// finds the crests of the spill graph. A second job for each tile raises the levels to them. The
/// caller's thread certifies the cells that rose, and floods the whole grid where it cannot.
///
/// # Errors
///
/// [`JobFault::BadWorkers`] if `workers` is 0 or above 64. [`JobFault::NoThread`] if a thread
/// cannot be started. [`JobFault::Memory`] if memory runs out.
///
/// # Examples
///
/// ```ignore
/// let filled = filled(&rt, rt.alloc(), &grid, &tiling, 4, &NoGate)?;
/// let cells = filled.grid().cells();
/// ```
pub fn filled<R: Threads + Wait + Sync, G: Gate + Sync>(
    rt: &R,
    alloc: Global,
    grid: &Grid,
    tiling: &Tiling,
    workers: u32,
    gate: &G,
) -> Result<Filled, JobFault>
    requires { Cuts tiling.now grid.now.terrain }
    ensures filled { IfOk result (λ f. IsFilledGrid grid.now f) }
    ensures workers { RefusesWorkers workers result }
{
    let runner = Runner {
        rt,
        alloc,
        workers,
        gate,
    };
    let (floods, meetings) = tile_floods(&runner, grid, tiling)?;
    let cells = certified_cells(&runner, grid, tiling, floods, meetings)?;
    let Ok(filled) = grid.frame().with_cells(alloc, cells) else {
        return Err(JobFault::Memory);
    };
    Ok(Filled::from_grid(filled))
}
