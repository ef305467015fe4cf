//! Maps each cell to its basin, the number of the outlet that ends its flow path: [`basins`].
ghost use Rattle.std.specs.Prelude.{IfOk};
ghost use Rattle.tiles.specs.Cutting.{Cuts};
ghost use Rattle.tile_jobs.specs.Fault.{RefusesWorkers};
ghost use Rattle.drainage.specs.Drained.{directed_of};
ghost use Rattle.flow.specs.Counts.{AreBasins};

use crate::flowing::exit_tiles;
use crate::numbering::number_cells;
use crate::outlet_numbers::OutletNumbers;
use drainage::Directions;
use std::alloc::Global;
use std::sync::Wait;
use std::thread::Threads;
use terrain::Count;
use tile_jobs::{Gate, JobFault, check_workers};
use tile_maps::Runner;
use tiles::Tiling;

/// Returns each cell's basin: the number of the outlet that ends its flow path.
///
/// Outlets are numbered from 1 in row order. Values are in row order; NODATA has
/// [`Count::none`].
///
/// Each tile has two jobs: one finds its exits, and a later one numbers its cells.
///
/// # Errors
///
/// [`JobFault::BadWorkers`] if `workers` is 0 or above 64, [`JobFault::NoThread`] if
/// a thread could not be started, [`JobFault::Memory`] if memory ran out.
///
/// # Examples
///
/// ```ignore
/// let values = basins(rt, alloc, &directions, &tiling, 2, &NoGate)?;
/// let basin = values[0].value();
/// ```
pub fn basins<R: Threads + Wait + Sync, G: Gate + Sync>(
    rt: &R,
    alloc: Global,
    d: &Directions,
    tiling: &Tiling,
    workers: u32,
    gate: &G,
) -> Result<Vec<Count>, JobFault>
    requires { Cuts tiling.now d.now.terrain }
    ensures values { IfOk result (λ v. AreBasins (directed_of d.now) v.items) }
    ensures workers { RefusesWorkers workers result }
{
    check_workers(workers)?;
    // The call brings the prover `IsCutting` of the tiling, which `cols` ensures.
    prove!(tiling.cols() > 0);
    let runner = Runner {
        rt,
        alloc,
        workers,
        gate,
    };
    let codes = d.codes();
    let flows = exit_tiles(&runner, codes, tiling)?;
    let numbers = OutletNumbers::of_codes(alloc, codes)?;
    number_cells(&runner, tiling, flows, numbers)
}
