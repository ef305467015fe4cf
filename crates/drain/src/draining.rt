//! Finds the steps and then the directions of a filled grid, tile by tile: [`directions`].
//! [`flat_steps`] runs one round of counting over one tile.
ghost use Rattle.std.specs.Prelude.{◌≡◌, [], IfOk, OnOk};
ghost use Rattle.terrain.specs.Raster.{Terrain, IsTerrain};
ghost use Rattle.terrain.specs.Sinks.{with_sinks};
ghost use Rattle.tiles.specs.Cutting.{Cuts, IsCutting, terrain_of};
ghost use Rattle.tile_jobs.specs.Fault.{RefusesWorkers};
ghost use Rattle.drain.specs.Beginning.{HasZeros};
ghost use Rattle.drain.specs.Rounds.{AreWalked, IsRound};
ghost use Rattle.drain.specs.Counts.{AreCoded};
ghost use Rattle.drain.specs.Steps.{AreSteps, DrainsAtOnce};
ghost use Rattle.drain.specs.Directions.{AreDirections};
ghost use Rattle.drainage.specs.Drained.{AllFlowEnds, directed_of};

use crate::codes::{Checked, last_round};
use crate::first::first_round;
use crate::input::RoundInput;
use crate::rounds::{changes_at_rims, put, run_rounds};
use crate::{loading, search};
use drainage::{Code, Directions, Filled, StepCount};
use std::alloc::Global;
use std::snapshot::Snapshot;
use std::sync::Wait;
use std::thread::Threads;
use terrain::{Cell, NoMemory};
use tile_jobs::{Gate, JobFault};
use tile_maps::Runner;
use tiles::{TileView, Tiling, Window};

/// The steps of all cells in row order, and the codes of each tile's cells.
#[derive(Drop)]
struct StepsAndCodes {
    steps: Vec<StepCount>,
    codes: Vec<Vec<Option<Code>>>,
}

/// Returns a tile's step counts after one round of counting, in row order.
///
/// Searches from all counts in `steps`, in the tile and around it, until no count in the tile
/// falls. No count rises or is lost. `steps` must be 0 at each cell that drains at once, named
/// sinks included. Any other known count must be below 2^24, and be the length of a walk over the
/// flat to a cell that drains at once.
///
/// # Errors
///
/// [`NoMemory`] if memory runs out.
pub fn flat_steps(
    alloc: Global,
    levels: &TileView<'_, Cell>,
    steps: &TileView<'_, Option<u32>>,
) -> Result<Vec<Option<u32>>, NoMemory>
    ghost terrain: { Terrain }
    requires shown { terrain_of levels.now ≡ with_sinks terrain [] }
    requires cutting { steps.now.cutting ≡ levels.now.cutting }
    requires tile { steps.now.tile ≡ levels.now.tile }
    requires zeros { HasZeros terrain steps.now.cells }
    requires walked { AreWalked (DrainsAtOnce terrain) terrain steps.now.cells }
    ensures { IfOk result (λ v. IsRound (DrainsAtOnce terrain) terrain levels.now.cutting
        levels.now.tile steps.now.cells v.items) }
{
    let window = Window::of_view(alloc, levels, Cell::no_data())?;
    let old = loading::counts(alloc, steps)?;
    let counts = search::settled(alloc, &window, old)?;
    let list = loading::copy_counts(alloc, &window, &counts)?;
    Ok(loading::step_numbers(alloc, &list)?)
}

/// Counts steps by rounds until one changes no count; returns them with the codes of each tile.
///
/// Each round is one job of each tile. The last one finds the codes, and that no count is too high.
fn count_steps<R: Threads + Wait + Sync, G: Gate + Sync>(
    runner: &Runner<'_, R, G>,
    filled: &Filled,
    tiling: &Tiling,
) -> Result<StepsAndCodes, JobFault>
    requires { Cuts tiling.now filled.now.terrain }
    ensures counted { IfOk result (λ s. AreSteps filled.now.terrain s.steps.items
        × AreCoded filled.now.terrain tiling.now s.codes.items) }
    ensures lawful { OnOk result (IsTerrain filled.now.terrain × IsCutting tiling.now) }
    ensures workers { RefusesWorkers runner.now.workers result }
{
    let grid = filled.grid();
    let mut steps = first_round(runner, grid, tiling)?;
    let mut changes = changes_at_rims(runner.alloc, &RoundInput::new(grid, tiling, &steps))?;
    loop {
        steps = run_rounds(runner, grid, tiling, steps, changes)?;
        let change = match last_round(runner, &RoundInput::new(grid, tiling, &steps))? {
            Checked::Codes(codes) => return Ok(StepsAndCodes { steps, codes }),
            Checked::TooHigh(change) => change,
        };
        put(grid, &mut steps, change);
        changes = Vec::new(runner.alloc);
        RoundInput::new(grid, tiling, &steps).push_around(change.place, &mut changes)?;
    }
}

/// Returns the D8 direction of each data cell of a filled grid.
///
/// Rounds count the steps, each by one job of each tile. The last round finds the codes.
///
/// # Errors
///
/// [`JobFault::BadWorkers`] if `workers` is 0 or above 64. [`JobFault::NoThread`] if a thread
/// cannot be started. [`JobFault::Memory`] if memory runs out.
///
/// # Examples
///
/// ```ignore
/// let filled = filled(&rt, rt.alloc(), &grid, &tiling, 4, &NoGate)?;
/// let directions = directions(&rt, rt.alloc(), &filled, &tiling, 4, &NoGate)?;
/// let codes = directions.codes();
/// ```
pub fn directions<R: Threads + Wait + Sync, G: Gate + Sync>(
    rt: &R,
    alloc: Global,
    filled: &Filled,
    tiling: &Tiling,
    workers: u32,
    gate: &G,
) -> Result<Directions, JobFault>
    requires { Cuts tiling.now filled.now.terrain }
    ensures terrain { IfOk result (λ d. d.terrain ≡ filled.now.terrain) }
    ensures steps { IfOk result (λ d. AreSteps filled.now.terrain d.steps) }
    ensures codes { IfOk result (λ d. AreDirections filled.now.terrain d.codes) }
    ensures ends { IfOk result (λ d. AllFlowEnds (directed_of d)) }
    ensures workers { RefusesWorkers workers result }
{
    let runner = Runner {
        rt,
        alloc,
        workers,
        gate,
    };
    let StepsAndCodes { steps, codes } = count_steps(&runner, filled, tiling)?;
    let reported = Snapshot::of(&steps);
    drop(steps);
    match tiling.put_back(alloc, &codes) {
        Ok(codes) => Ok(Directions::new(filled.grid(), reported, codes)),
        Err(_) => Err(JobFault::Memory),
    }
}
