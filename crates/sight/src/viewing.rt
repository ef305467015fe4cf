//! Makes a viewshed, or a rise, tile by tile: [`viewshed`] and [`rise`].
ghost use Rattle.std.specs.Prelude.{IfOk};
ghost use Rattle.tiles.specs.Cutting.{Cuts};
ghost use Rattle.sight.specs.Viewshed.{IsViewshed};
ghost use Rattle.sight.specs.Rise.{IsRise};
ghost use Rattle.sight.specs.Refusals.{RefusesSight, observers_fault};

use crate::fault::SightFault;
use crate::judging::first_fault;
use crate::rise_tile::GatedRise;
use crate::tile::{GatedViewshed, ViewshedInput};
use crate::tops::tops_of;
use std::alloc::Global;
use std::sync::Wait;
use std::thread::Threads;
use terrain::{Count, Grid, Observer};
use tile_jobs::Gate;
use tile_maps::Runner;
use tiles::Tiling;

/// Returns how many entries of `observers` see each cell, in row order.
///
/// NODATA cells have no count. Eyes and `target_height` are in units, `radius` in cells. Two stages
/// run on `workers` workers; each stage has as many jobs as tiles. The first finds the greatest
/// heights of blocks of 16 by 16 cells, since a line of sight skips a low block in one step; the
/// second counts.
///
/// # Errors
///
/// The first of these that applies:
///
/// - [`SightFault::TooManyObservers`] for more than 1,024 observers.
/// - [`SightFault::BadEye`] for a target height, then for an eye, above 1,000,000.
/// - [`SightFault::BadRadius`] for a radius that is not from 1 to 8,192.
/// - [`SightFault::Outside`] or [`SightFault::OnNodata`] for the first observer at a bad place.
/// - [`SightFault::Jobs`] for a want of memory or of a thread, or for workers not from 1 to 64.
///
/// # Examples
///
/// ```ignore
/// let observers = [Observer { row: 0, col: 0, eye: 2 }];
/// let values = viewshed(rt, alloc, &grid, &observers, 0, 8_192, &tiling, 2, &NoGate)?;
/// ```
pub fn viewshed<R: Threads + Wait + Sync, G: Gate + Sync>(
    rt: &R,
    alloc: Global,
    grid: &Grid,
    observers: &[Observer],
    target_height: u32,
    radius: u32,
    tiling: &Tiling,
    workers: u32,
    gate: &G,
) -> Result<Vec<Count>, SightFault>
    requires given { Cuts tiling.now grid.now.terrain }
    ensures values { IfOk result (λ v.
        IsViewshed grid.now.terrain observers.now target_height radius v.items) }
    ensures refusals { RefusesSight
        (observers_fault grid.now.terrain observers.now target_height radius) workers result }
{
    if let Some(fault) = first_fault(grid, observers, target_height, radius) {
        return Err(fault);
    }
    let runner = Runner {
        rt,
        alloc,
        workers,
        gate,
    };
    let tops = tops_of(&runner, grid, tiling)?;
    let input = ViewshedInput {
        grid,
        tops: &tops,
        observers,
        target_height,
        radius,
        tiling,
    };
    let values = runner.map_tiles(GatedViewshed { input, gate })?;
    Ok(values)
}

/// Returns the least height above ground at which a target is seen, for each cell in row order.
///
/// A target is seen if one of `observers` sees it. NODATA cells have no height, and neither have
/// cells at which no target up to 1,000,000 units is seen. Eyes and heights are in units, `radius`
/// is in cells. Runs the stages of [`viewshed`]; the second finds the heights.
///
/// # Errors
///
/// Those of [`viewshed`] for a target height of 0.
///
/// # Examples
///
/// ```ignore
/// let observers = [Observer { row: 0, col: 0, eye: 2 }];
/// let heights = rise(rt, alloc, &grid, &observers, 8_192, &tiling, 2, &NoGate)?;
/// ```
pub fn rise<R: Threads + Wait + Sync, G: Gate + Sync>(
    rt: &R,
    alloc: Global,
    grid: &Grid,
    observers: &[Observer],
    radius: u32,
    tiling: &Tiling,
    workers: u32,
    gate: &G,
) -> Result<Vec<Count>, SightFault>
    requires given { Cuts tiling.now grid.now.terrain }
    ensures values { IfOk result (λ v. IsRise grid.now.terrain observers.now radius v.items) }
    ensures refusals { RefusesSight
        (observers_fault grid.now.terrain observers.now 0 radius) workers result }
{
    if let Some(fault) = first_fault(grid, observers, 0, radius) {
        return Err(fault);
    }
    let runner = Runner {
        rt,
        alloc,
        workers,
        gate,
    };
    let tops = tops_of(&runner, grid, tiling)?;
    let input = ViewshedInput {
        grid,
        tops: &tops,
        observers,
        target_height: 0,
        radius,
        tiling,
    };
    let values = runner.map_tiles(GatedRise { input, gate })?;
    Ok(values)
}
