//! Fills a grid and finds its directions, without a gate.
ghost use Rattle.std.specs.Prelude.{IfOk};
ghost use Rattle.drainage.specs.Drained.{AllFlowEnds, directed_of};
ghost use Rattle.tiles.specs.Cutting.{Cuts};

use drain::{Directions, directions};
use fill::{Filled, filled};
use std::alloc::Global;
use std::sync::Wait;
use std::thread::Threads;
use terrain::Grid;
use tile_jobs::{JobFault, NoGate};
use tiles::Tiling;

pub(crate) fn filled_grid<R: Threads + Wait + Sync>(
    rt: &R,
    alloc: Global,
    grid: &Grid,
    tiling: &Tiling,
    workers: u32,
) -> Result<Filled, JobFault>
    requires { Cuts tiling.now grid.now.terrain }
    ensures { IfOk result (λ f. Cuts tiling.now f.terrain) }
{
    filled(rt, alloc, grid, tiling, workers, &NoGate)
}

pub(crate) fn directions_of<R: Threads + Wait + Sync>(
    rt: &R,
    alloc: Global,
    level: &Filled,
    tiling: &Tiling,
    workers: u32,
) -> Result<Directions, JobFault>
    requires { Cuts tiling.now level.now.terrain }
    ensures cuts { IfOk result (λ d. Cuts tiling.now d.terrain) }
    ensures ends { IfOk result (λ d. AllFlowEnds (directed_of d)) }
{
    directions(rt, alloc, level, tiling, workers, &NoGate)
}
