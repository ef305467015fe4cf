//! The first round: a job for each tile counts steps inside that tile.
//!
//! Module `beginning` finds the tile's cells that drain at once, and module `search` searches from
//! them.
ghost use Rattle.std.specs.Prelude.{IfOk};
ghost use Rattle.tile_jobs.specs.Fault.{RefusesWorkers};
ghost use Rattle.tiles.specs.Cutting.{Cuts, IsCutting};
ghost use Rattle.drain.specs.Counts.{AreSoundCounts};

use crate::beginning::begun_counts;
use crate::loading::copy_counts;
use crate::search::searched;
use drainage::StepCount;
use std::alloc::Global;
use std::sync::Wait;
use std::thread::Threads;
use terrain::{Cell, Grid};
use tile_jobs::{Gate, JobFault, Work};
use tile_maps::Runner;
use tiles::{Tiling, Window};

/// Input of the first round's jobs: a filled grid and its tiling.
#[derive(Drop)]
struct FirstRound<'a> {
    grid: &'a Grid,
    tiling: &'a Tiling,
    ghost cuts: { Cuts tiling.now grid.now.terrain },
}

impl<'a> Work for FirstRound<'a> {
    ghost use Rattle.tiles.specs.Cutting.{tile_count};
    ghost use Rattle.drain.specs.Beginning.{AreSoundInTile};

    type Out = Vec<StepCount>;

    ghost most = { λ f. tile_count f.tiling.now };

    ghost gives = { λ f tile out. AreSoundInTile f.grid.now.terrain f.tiling.now tile out.items };

    fn run(&self, alloc: Global, job: u32) -> Result<Vec<StepCount>, JobFault> {
        let levels = self.tiling.view(self.grid.cells(), job);
        let window = Window::of_view(alloc, &levels, Cell::no_data())?;
        let begun = begun_counts(alloc, self.grid, &window)?;
        let counts = searched(alloc, &window, begun)?;
        let list = copy_counts(alloc, &window, &counts)?;
        Ok(list)
    }
}

/// Runs the first round on every tile and returns the counts of the grid.
pub(crate) fn first_round<R: Threads + Wait + Sync, G: Gate + Sync>(
    runner: &Runner<'_, R, G>,
    grid: &Grid,
    tiling: &Tiling,
) -> Result<Vec<StepCount>, JobFault>
    requires { Cuts tiling.now grid.now.terrain }
    ensures lawful { IfOk result (λ _. IsCutting tiling.now) }
    ensures counts { IfOk result (λ v. AreSoundCounts grid.now.terrain v.items) }
    ensures workers { RefusesWorkers runner.now.workers result }
{
    let lists = runner.run(&FirstRound { grid, tiling }, tiling.tiles())?;
    match tiling.put_back(runner.alloc, &lists) {
        Ok(whole) => Ok(whole),
        Err(_) => Err(JobFault::Memory),
    }
}
