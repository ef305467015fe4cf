//! Maps each cell to the number of the first gauge on its flow path: [`catchments`].
ghost use Rattle.std.specs.Prelude.{◌≡◌, ◌*◌, length, IfOk, OnOk};
ghost use Rattle.tiles.specs.Cutting.{Cuts, IsCutting};
ghost use Rattle.drainage.specs.Drained.{directed_of};
ghost use Rattle.flow.specs.Catchments.{AreCatchments, RefusesGauges, gauges_fault};
ghost use Rattle.flow.specs.CutCodes.{AreCutCodes, HaveCodes};

use crate::flowing::exit_tiles;
use crate::gauges::{GaugeFault, GaugeNumbers, first_fault};
use crate::numbering::number_cells;
use drainage::{Code, Directions};
use std::alloc::{AllocError, Global};
use std::sync::Wait;
use std::thread::Threads;
use terrain::{Count, Place};
use tile_jobs::{Gate, check_workers};
use tile_maps::Runner;
use tiles::Tiling;

/// Returns the codes of a grid, with an outlet's code at each gauge.
fn cut_codes(
    alloc: Global,
    codes: &[Option<Code>],
    tiling: &Tiling,
    gauges: &[Place],
) -> Result<Vec<Option<Code>>, AllocError>
    requires size { length codes.now ≡ tiling.now.cols * tiling.now.rows }
    requires coded { HaveCodes tiling.now.cols tiling.now.rows codes.now gauges.now }
    ensures cut { IfOk result
        (λ v. AreCutCodes tiling.now.cols tiling.now.rows codes.now gauges.now v.items) }
    ensures cutting { OnOk result (IsCutting tiling.now) }
{
    let cols = tiling.cols();
    let mut cut = Vec::with_capacity(alloc, codes.len())?;
    cut.extend_from_slice(codes)?;
    for gauge in gauges {
        cut[gauge.index_in(cols)] = Some(Code::outlet());
    }
    Ok(cut)
}

/// Returns for each cell the number of the first gauge on its flow path.
///
/// The flow path includes the cell itself. A path without a gauge gives 0. A gauge's number
/// is its position in the list, from 1. Of entries that name one cell the first counts.
/// Values are in row order; NODATA has [`Count::none`].
///
/// Cells are numbered by the ends of flow paths in a copy of the codes, where gauges are outlets.
/// Each tile has two jobs: one finds its exits, and a later one numbers its cells.
///
/// # Errors
///
/// The first of these: [`GaugeFault::TooManyGauges`] for more than 1,024 entries, repeats counted;
/// [`GaugeFault::Outside`] or [`GaugeFault::OnNodata`] for the first gauge outside the grid or
/// without data; [`GaugeFault::Jobs`] if `workers` is 0 or above 64, memory runs out, or a thread
/// cannot be started.
///
/// # Examples
///
/// ```ignore
/// let gauges = [Place { row: 3, col: 1 }];
/// let values = catchments(rt, alloc, &directions, &gauges, &tiling, 2, &NoGate)?;
/// ```
pub fn catchments<R: Threads + Wait + Sync, G: Gate + Sync>(
    rt: &R,
    alloc: Global,
    d: &Directions,
    gauges: &[Place],
    tiling: &Tiling,
    workers: u32,
    gate: &G,
) -> Result<Vec<Count>, GaugeFault>
    requires { Cuts tiling.now d.now.terrain }
    ensures values { IfOk result (λ v. AreCatchments (directed_of d.now) gauges.now v.items) }
    ensures refusals { RefusesGauges (gauges_fault d.now.terrain gauges.now) workers result }
{
    if let Some(fault) = first_fault(d, tiling, gauges) {
        return Err(fault);
    }
    check_workers(workers)?;
    let runner = Runner {
        rt,
        alloc,
        workers,
        gate,
    };
    let codes = cut_codes(alloc, d.codes(), tiling, gauges)?;
    let flows = exit_tiles(&runner, &codes, tiling)?;
    drop(codes);
    let numbers = GaugeNumbers::of_gauges(alloc, tiling, gauges)?;
    let values = number_cells(&runner, tiling, flows, numbers)?;
    Ok(values)
}
