//! Finds each tile's flow, or its exits alone, by one job for each tile.
ghost use Rattle.std.specs.Prelude.{IfOk, OnOk};
ghost use Rattle.tiles.specs.Cutting.{IsCutting};
ghost use Rattle.tile_jobs.specs.Fault.{RefusesWorkers};
ghost use Rattle.flow.specs.TileFlow.{AreTileFlows};
ghost use Rattle.flow.specs.RimGraph.{AreFlowsOf};
ghost use Rattle.flow.specs.Whole.{IsGridFlow, directed_on};

use crate::tile::{TileFlow, tile_flow};
use crate::tile_exits::{TileExits, tile_exits};
use drainage::Code;
use std::alloc::Global;
use std::sync::Wait;
use std::thread::Threads;
use tile_jobs::{Gate, JobFault, Work};
use tile_maps::Runner;
use tiles::Tiling;

/// The jobs that find the flow of each tile.
#[derive(Drop)]
struct FlowTiles<'a> {
    codes: &'a [Option<Code>],
    tiling: &'a Tiling,
    ghost flows: { IsGridFlow tiling.now.cols tiling.now.rows codes.now },
}

impl<'a> Work for FlowTiles<'a> {
    type Out = TileFlow;

    ghost use Rattle.tiles.specs.Cutting.{tile_count};
    ghost use Rattle.flow.specs.TileFlow.{IsTileFlow};
    ghost use Rattle.flow.specs.Whole.{directed_on};

    ghost most = { λ w. tile_count w.tiling.now };

    ghost gives = { λ w job out. IsTileFlow
        (directed_on w.tiling.now w.codes.now) w.tiling.now job out };

    fn run(&self, alloc: Global, job: u32) -> Result<TileFlow, JobFault> {
        let view = self.tiling.view(self.codes, job);
        let Ok(flow) = tile_flow(alloc, &view) else {
            return Err(JobFault::Memory);
        };
        Ok(flow)
    }
}

/// The jobs that find the exits of each tile.
#[derive(Drop)]
struct ExitTiles<'a> {
    codes: &'a [Option<Code>],
    tiling: &'a Tiling,
    ghost flows: { IsGridFlow tiling.now.cols tiling.now.rows codes.now },
}

impl<'a> Work for ExitTiles<'a> {
    type Out = TileExits;

    ghost use Rattle.tiles.specs.Cutting.{tile_count};
    ghost use Rattle.flow.specs.TileFlow.{IsTileExits};
    ghost use Rattle.flow.specs.Whole.{directed_on};

    ghost most = { λ w. tile_count w.tiling.now };

    ghost gives = { λ w job out. IsTileExits
        (directed_on w.tiling.now w.codes.now) w.tiling.now job out };

    fn run(&self, alloc: Global, job: u32) -> Result<TileExits, JobFault> {
        let view = self.tiling.view(self.codes, job);
        Ok(tile_exits(alloc, &view)?)
    }
}

/// Returns the flows of all tiles in tile order.
pub(crate) fn flow_tiles<R: Threads + Wait + Sync, G: Gate + Sync>(
    runner: &Runner<'_, R, G>,
    codes: &[Option<Code>],
    tiling: &Tiling,
) -> Result<Vec<TileFlow>, JobFault>
    requires grid { IsGridFlow tiling.now.cols tiling.now.rows codes.now }
    ensures lawful { OnOk result (IsCutting tiling.now) }
    ensures flows { IfOk result (λ v. AreTileFlows
        (directed_on tiling.now codes.now) tiling.now v.items) }
    ensures workers { RefusesWorkers runner.now.workers result }
{
    let work = FlowTiles { codes, tiling };
    runner.run(&work, tiling.tiles())
}

/// Returns the exits of all tiles in tile order.
pub(crate) fn exit_tiles<R: Threads + Wait + Sync, G: Gate + Sync>(
    runner: &Runner<'_, R, G>,
    codes: &[Option<Code>],
    tiling: &Tiling,
) -> Result<Vec<TileExits>, JobFault>
    requires grid { IsGridFlow tiling.now.cols tiling.now.rows codes.now }
    ensures flows { IfOk result (λ v. AreFlowsOf
        (directed_on tiling.now codes.now) tiling.now v.items) }
    ensures workers { RefusesWorkers runner.now.workers result }
{
    let work = ExitTiles { codes, tiling };
    runner.run(&work, tiling.tiles())
}
