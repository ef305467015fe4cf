//! `prepare` cuts a grid into tiles, checks the requested sinks and gauges, and gives the grid
//! these sinks, if any, in place of its own. `make_map` then makes the requested map.
ghost use Rattle.std.specs.Prelude.{◌≡◌, ◌<◌, ◌≤◌, ◌*◌, List, None, IfOk, IfErr, OnOk, option_map};
ghost use Rattle.terrain.specs.declared.place.Place.{Place};
ghost use Rattle.tiles.specs.Cutting.{Cuts, longest_side, most_tiles};
ghost use Rattle.tile_jobs.specs.Fault.{RefusesWorkers};
ghost use Rattle.drainage.specs.Drained.{directed_of};
ghost use Rattle.drainage.specs.Filled.{IsFilledGrid};
ghost use Rattle.flow.specs.Catchments.{gauges_fault};
ghost use Rattle.relief.specs.MadeMap.{grid_with_sinks, made_text, FitsGrid};
ghost use Rattle.relief.specs.MapText.{IsMapText, IsDrainage};
ghost use Rattle.relief.specs.Refusals.{IsFaultOnGrid, gauge_fault, view_fault, named_place_fault, request_fault, tiles_of};

use crate::fault::RunFault;
use crate::several::{MadeMaps, make_several};
use drain::directions;
use drainage::Directions;
use fill::filled;
use flow::{accumulation, basins, catchments, gauges_fault};
use request::{DrainageMap, Map, Options};
use sight::{rise, viewshed};
use std::alloc::Global;
use std::sync::Wait;
use std::thread::Threads;
use terrain::{Count, Frame, Grid, sinks_fault};
use tile_jobs::{Gate, JobFault};
use tile_maps::Runner;
use tiles::{Tiling, TilingFault};

/// A finished map with its header. Direction codes and counts are kept without the heights.
#[derive(Drop)]
pub(crate) enum MadeMap<'a> {
    Heights(Grid),
    Codes(Frame, Directions),
    Counts(Frame, Vec<Count>),
    /// Several maps, in the order in which they are written.
    Several(&'a [DrainageMap], MadeMaps),
}

/// Fills a grid and finds its directions. Frees all heights, and returns header and directions.
fn find_directions<H: Threads + Wait + Sync, G: Gate + Sync>(
    rt: &H,
    alloc: Global,
    grid: Grid,
    tiling: &Tiling,
    workers: u32,
    gate: &G,
) -> Result<(Frame, Directions), JobFault>
    requires { Cuts tiling.now grid.terrain }
    ensures filled { IfOk result (λ r. IsFilledGrid grid r.0) }
    ensures drainage { IfOk result (λ r. IsDrainage grid (directed_of r.1)) }
    ensures size { IfOk result (λ r. Cuts tiling.now r.1.terrain) }
    ensures gauges { IfOk result (λ r. (gauges : List Place)
        → gauges_fault r.1.terrain gauges ≡ gauges_fault grid.terrain gauges) }
    ensures workers { RefusesWorkers workers result }
{
    let filled = filled(rt, alloc, &grid, tiling, workers, gate)?;
    drop(grid);
    let directions = directions(rt, alloc, &filled, tiling, workers, gate)?;
    Ok((filled.into_grid().into_frame(), directions))
}

/// Cuts a grid into tiles of at most `side` by `side` cells, or refuses too many.
fn cut(grid: &Grid, side: u32) -> Result<Tiling, TilingFault>
    requires some { 1 ≤ side }
    requires short { side ≤ longest_side }
    ensures cuts { IfOk result (λ t. Cuts t grid.now.terrain) }
    ensures few { OnOk result (tiles_of grid.now side ≤ most_tiles) }
    ensures many { IfErr result
        (λ f. (f ≡ TilingFault.TooManyTiles) × (most_tiles < tiles_of grid.now side)) }
{
    Tiling::new(grid.cols(), grid.rows(), side)
}

/// Returns the fault of the requested sinks or, if they have none, of the gauges.
fn named_place_fault(options: &Options, grid: &Grid) -> Option<RunFault>
    ensures { result ≡ named_place_fault options.now grid.now }
{
    if let Some(fault) = sinks_fault(grid, options.sinks()) {
        return Some(RunFault::Sinks(fault));
    }
    if let Map::Catchments { gauges } | Map::Several { gauges, .. } = options.map() {
        if let Some(fault) = gauges_fault(grid, gauges) {
            return Some(RunFault::Gauges(fault));
        }
    }
    None
}

/// Cuts a grid into tiles, and checks the requested sinks and gauges.
/// Returns the grid with these sinks in place of its own; if none is requested, it keeps its own.
pub(crate) fn prepare(
    alloc: Global,
    options: &Options,
    grid: Grid,
) -> Result<(Grid, Tiling), RunFault>
    ensures grid { IfOk result (λ p. p.0 ≡ grid_with_sinks options.now.sinks grid) }
    ensures cuts { IfOk result (λ p. Cuts p.1 p.0.terrain) }
    ensures sound { IfOk result (λ p. request_fault options.now p.0
        ≡ option_map RunFault.Sight (view_fault p.0 options.now.map)) }
    ensures gauges { IfOk result (λ p. gauge_fault p.0 options.now.map ≡ None) }
    ensures fault { IfErr result (λ f. IsFaultOnGrid options.now grid f) }
{
    let tiling = cut(&grid, options.tile())?;
    if let Some(fault) = named_place_fault(options, &grid) {
        return Err(fault);
    }
    let sinks = options.sinks();
    if sinks.is_empty() {
        return Ok((grid, tiling));
    }
    let grid = grid.name_sinks(alloc, sinks)?;
    Ok((grid, tiling))
}

/// Makes the requested map or maps. For a view or a rise, first checks its observers and radius.
pub(crate) fn make_map<'a, H: Threads + Wait + Sync, G: Gate + Sync>(
    rt: &H,
    alloc: Global,
    options: &'a Options,
    grid: Grid,
    tiling: &Tiling,
    gate: &G,
) -> Result<MadeMap<'a>, RunFault>
    requires cuts { Cuts tiling.now grid.terrain }
    requires sound { request_fault options.now grid
        ≡ option_map RunFault.Sight (view_fault grid options.now.map) }
    requires gauges { gauge_fault grid options.now.map ≡ None }
    ensures map { IfOk result (λ m. IsMapText grid options.now.map (made_text m)) }
    ensures size { IfOk result (λ m. FitsGrid m) }
    ensures ready { OnOk result (request_fault options.now grid ≡ None) }
    ensures fault { IfErr result (λ f. IsFaultOnGrid options.now grid f) }
{
    let workers = options.workers();
    match options.map() {
        Map::Fill => {
            let filled = filled(rt, alloc, &grid, tiling, workers, gate)?;
            Ok(MadeMap::Heights(filled.into_grid()))
        }
        Map::Flow => {
            let (frame, directions) = find_directions(rt, alloc, grid, tiling, workers, gate)?;
            Ok(MadeMap::Codes(frame, directions))
        }
        Map::Accumulate => {
            let (frame, directions) = find_directions(rt, alloc, grid, tiling, workers, gate)?;
            let counts = accumulation(rt, alloc, &directions, tiling, workers, gate)?;
            Ok(MadeMap::Counts(frame, counts))
        }
        Map::Basins => {
            let (frame, directions) = find_directions(rt, alloc, grid, tiling, workers, gate)?;
            let numbers = basins(rt, alloc, &directions, tiling, workers, gate)?;
            Ok(MadeMap::Counts(frame, numbers))
        }
        Map::Catchments { gauges } => {
            let (frame, directions) = find_directions(rt, alloc, grid, tiling, workers, gate)?;
            let numbers = catchments(rt, alloc, &directions, gauges, tiling, workers, gate)?;
            Ok(MadeMap::Counts(frame, numbers))
        }
        Map::View {
            observers,
            target,
            radius,
        } => {
            let counts = viewshed(
                rt, alloc, &grid, observers, *target, *radius, tiling, workers, gate,
            )?;
            Ok(MadeMap::Counts(grid.into_frame(), counts))
        }
        Map::Rise { observers, radius } => {
            let heights = rise(rt, alloc, &grid, observers, *radius, tiling, workers, gate)?;
            Ok(MadeMap::Counts(grid.into_frame(), heights))
        }
        Map::Several { maps, gauges } => {
            let maps = maps.as_slice();
            let runner = Runner {
                rt,
                alloc,
                workers,
                gate,
            };
            let made = make_several(&runner, maps, gauges, grid, tiling)?;
            Ok(MadeMap::Several(maps, made))
        }
    }
}
