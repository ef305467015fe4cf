//! Runs the numbered jobs of a stage by one or several workers: [`Runner`].
//!
//! [`Runner::run`] runs any jobs, and [`Runner::map_tiles`] makes a map by one job for each tile.
ghost use Rattle.std.specs.Prelude.{◌≡◌, ◌≤◌, vec_len, IfOk};
ghost use Rattle.tile_jobs.specs.Results.{AreResults};
ghost use Rattle.tile_jobs.specs.Fault.{RefusesWorkers};
ghost use Rattle.tile_maps.specs.Maps.{IsMadeMap};

use crate::map::TileMap;
use std::alloc::Global;
use std::sync::Wait;
use std::thread::Threads;
use tile_jobs::{Gate, JobFault, MOST_JOBS, Work, run_jobs};

/// What a stage needs to run jobs: runtime, allocator, workers and gate.
#[derive(Drop)]
pub struct Runner<'a, R, G> {
    /// Starts the threads and waits for them.
    pub rt: &'a R,
    /// Allocates for the jobs and their results.
    pub alloc: Global,
    /// The number of workers, from 1 to 64; a single one runs on the caller's thread.
    pub workers: u32,
    /// Called as stages begin, before each job, and after each job, or part of one, that succeeds.
    pub gate: &'a G,
}

#[derive(Drop)]
struct TileJobs<'a, M> {
    map: &'a M,
}

impl<'a, M: TileMap> Work for TileJobs<'a, M> {
    ghost use Rattle.tiles.specs.Cutting.{tile_count};
    ghost use Rattle.tile_maps.specs.Maps.{IsMadeTile};

    type Out = Vec<M::Entry>;

    ghost most = { λ w. tile_count (M.cutting w.map.now) };

    ghost gives = { λ w tile out.
        IsMadeTile (M.cutting w.map.now) tile (M.has w.map.now) out.items };

    fn run(&self, alloc: Global, job: u32) -> Result<Vec<M::Entry>, JobFault> {
        match self.map.tile(alloc, job) {
            Ok(list) => Ok(list),
            Err(_) => Err(JobFault::Memory),
        }
    }
}

impl<'a, R: Threads + Wait + Sync, G: Gate + Sync> Runner<'a, R, G> {
    /// Runs jobs by [`run_jobs`] and returns their results in job order.
    ///
    /// # Errors
    ///
    /// [`JobFault::BadWorkers`] if `workers` is 0 or above 64; [`JobFault::NoThread`] if a thread
    /// cannot be started; [`JobFault::Memory`] if memory runs out.
    pub fn run<W: Work + Sync>(&self, work: &W, jobs: u32) -> Result<Vec<W::Out>, JobFault>
    where
        W::Out: Send + Drop,
        requires jobs { jobs ≤ W.most work.now }
        requires few { jobs ≤ MOST_JOBS }
        ensures len { IfOk result (λ v. vec_len v ≡ jobs) }
        ensures given { IfOk result (λ v. AreResults (W.gives work.now) jobs v.items) }
        ensures workers { RefusesWorkers self.now.workers result }
    {
        run_jobs(self.rt, self.alloc, work, jobs, self.workers, self.gate)
    }

    /// Returns the map of the whole grid in row order, made by one job for each tile.
    /// Frees `map` before the tiles' lists are joined.
    ///
    /// # Errors
    ///
    /// [`JobFault::BadWorkers`] if `workers` is 0 or above 64; [`JobFault::NoThread`] if a thread
    /// cannot be started; [`JobFault::Memory`] if memory runs out.
    ///
    /// # Examples
    ///
    /// ```ignore
    /// // `map` is a `TileMap`, and `entries` has its entry at each cell
    /// let runner = Runner { rt, alloc, workers, gate };
    /// let entries = runner.map_tiles(map)?;
    /// ```
    pub fn map_tiles<M: TileMap + Sync + Drop>(&self, map: M) -> Result<Vec<M::Entry>, JobFault>
    where
        M::Entry: Copy + Send + Drop,
        ensures made { IfOk result (λ whole. IsMadeMap (M.cutting map) (M.has map) whole.items) }
        ensures workers { RefusesWorkers self.now.workers result }
    {
        let tiling = map.tiling();
        let lists = self.run(&TileJobs { map: &map }, tiling.tiles())?;
        drop(map);
        match tiling.put_back(self.alloc, &lists) {
            Ok(whole) => Ok(whole),
            Err(_) => Err(JobFault::Memory),
        }
    }
}
