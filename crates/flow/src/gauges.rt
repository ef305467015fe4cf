//! Finds the first fault of a list of gauges, and numbers the cells that gauges name.
ghost use Rattle.std.specs.Prelude.{◌≡◌, ℕ, ◌*◌, ◌≤◌, length, nat_eq, IfOk};
ghost use Rattle.std.specs.HashMap as hash;
ghost use Rattle.terrain.specs.Faults.{first_fault, place_fault};
ghost use Rattle.terrain.specs.Sinks.{most_sinks};
ghost use Rattle.std.specs.List.{All};
ghost use Rattle.tiles.specs.Cutting.{Cuts, IsWithin};
ghost use Rattle.flow.specs.Catchments.{gauges_fault};
ghost use Rattle.flow.specs.CutCodes.{fault_of_gauge, number_of_index};
ghost use Rattle.flow.specs.declared.gauges.GaugeFault.TheVariants.{Outside, OnNodata};

use crate::end_numbers::EndNumbering;
use drainage::Directions;
use std::alloc::{AllocError, Global};
use std::collections::HashMap;
use terrain::{Grid, Place, SinkFault, sinks_fault};
use tile_jobs::JobFault;
use tiles::Tiling;

/// The largest number of entries in a list of gauges, repeats counted.
pub const MOST_GAUGES: usize = 1_024;

/// Why catchments are refused.
/// An index is a position in the list of gauges, from 0.
#[derive(Clone, Copy, Debug, PartialEq, Eq)]
pub enum GaugeFault {
    /// The gauge at this index lies outside the grid.
    Outside(u32),
    /// The gauge at this index has no data.
    OnNodata(u32),
    /// The list has more than [`MOST_GAUGES`] entries.
    TooManyGauges,
    /// The number of workers is 0 or above 64, a thread could not be started, or memory ran out.
    Jobs(JobFault),
}

impl From<JobFault> for GaugeFault {
    ghost use Rattle.std.specs.Prelude.{◌≡◌};
    ghost use Rattle.flow.specs.declared.gauges.GaugeFault.TheVariants.{Jobs};

    ghost from_gives = { λ fault r. r ≡ Jobs fault };

    fn from(fault: JobFault) -> GaugeFault {
        GaugeFault::Jobs(fault)
    }
}

impl From<AllocError> for GaugeFault {
    ghost use Rattle.std.specs.Prelude.{◌≡◌};
    ghost use Rattle.tile_jobs.specs.declared.JobFault.TheVariants.{Memory};
    ghost use Rattle.flow.specs.declared.gauges.GaugeFault.TheVariants.{Jobs};

    ghost from_gives = { λ _ fault. fault ≡ Jobs Memory };

    fn from(_error: AllocError) -> GaugeFault {
        GaugeFault::Jobs(JobFault::Memory)
    }
}

fn fault_of_gauge(fault: SinkFault) -> GaugeFault
    ensures { result ≡ fault_of_gauge fault }
{
    match fault {
        SinkFault::Outside(index) => GaugeFault::Outside(index),
        SinkFault::OnNodata(index) => GaugeFault::OnNodata(index),
        SinkFault::TooManySinks => GaugeFault::TooManyGauges,
        SinkFault::Memory => GaugeFault::Jobs(JobFault::Memory),
    }
}

/// Returns the first fault of gauges on a grid, or `None` if they have none.
/// More than [`MOST_GAUGES`] entries come first, then the first gauge outside or without data.
pub fn gauges_fault(grid: &Grid, gauges: &[Place]) -> Option<GaugeFault>
    ensures { result ≡ gauges_fault grid.now.terrain gauges.now }
{
    match sinks_fault(grid, gauges) {
        Some(fault) => Some(fault_of_gauge(fault)),
        None => None,
    }
}

/// Returns the fault of one gauge, if any; `index` is its position in the list.
fn gauge_fault_at(d: &Directions, tiling: &Tiling, gauge: Place, index: u32) -> Option<GaugeFault>
    requires { Cuts tiling.now d.now.terrain }
    ensures { result ≡ place_fault Outside OnNodata d.now.terrain index gauge }
{
    if gauge.row >= tiling.rows() || gauge.col >= tiling.cols() {
        return Some(GaugeFault::Outside(index));
    }
    if d.code(gauge).is_none() {
        return Some(GaugeFault::OnNodata(index));
    }
    None
}

/// Returns the fault of the first gauge outside the grid or without data, if any.
fn first_bad_gauge(d: &Directions, tiling: &Tiling, gauges: &[Place]) -> Option<GaugeFault>
    requires cuts { Cuts tiling.now d.now.terrain }
    requires few { length gauges.now ≤ most_sinks }
    ensures { result ≡ first_fault (place_fault Outside OnNodata d.now.terrain) 0 gauges.now }
{
    for (index, gauge) in gauges.iter().enumerate() {
        let fault = gauge_fault_at(d, tiling, *gauge, index as u32);
        if fault.is_some() {
            return fault;
        }
    }
    None
}

/// Returns the first fault of gauges on a map of directions, if any.
pub(crate) fn first_fault(d: &Directions, tiling: &Tiling, gauges: &[Place]) -> Option<GaugeFault>
    requires { Cuts tiling.now d.now.terrain }
    ensures { result ≡ gauges_fault d.now.terrain gauges.now }
{
    if gauges.len() > MOST_GAUGES {
        return Some(GaugeFault::TooManyGauges);
    }
    first_bad_gauge(d, tiling, gauges)
}

/// The numbers of the cells that gauges name; any other cell has 0.
#[derive(Drop)]
pub struct GaugeNumbers {
    // The number of cells of the grid; for contracts alone.
    cells: usize,
    // Keys are the indexes of cells in row order.
    numbers: HashMap<usize, u32>,
}

impl GaugeNumbers {
    /// Numbers the gauges of a grid by their positions in the list, from 1.
    /// Of entries that name one cell the first counts.
    pub(crate) fn of_gauges(
        alloc: Global,
        tiling: &Tiling,
        gauges: &[Place],
    ) -> Result<GaugeNumbers, AllocError>
        requires few { length gauges.now ≤ most_sinks }
        requires within { All (IsWithin tiling.now) gauges.now }
        ensures cells { IfOk result (λ n. n.cells ≡ tiling.now.cols * tiling.now.rows) }
        ensures numbers { IfOk result (λ n. (i : ℕ) →
            hash.get nat_eq n.numbers i ≡ number_of_index tiling.now.cols gauges.now i) }
    {
        let mut numbers = HashMap::new(alloc);
        for (index, gauge) in gauges.iter().enumerate() {
            let cell = gauge.index_in(tiling.cols());
            numbers.entry(cell)?.or_insert(index as u32 + 1);
        }
        Ok(GaugeNumbers {
            cells: tiling.cols() as usize * tiling.rows() as usize,
            numbers,
        })
    }
}

impl EndNumbering for GaugeNumbers {
    ghost use Rattle.flow.specs.CutCodes.{gauge_numbers};

    ghost numbers = { λ n. gauge_numbers n.cells n.numbers };

    fn number(&self, index: usize) -> u32 {
        match self.numbers.get(&index) {
            Some(number) => *number,
            None => 0,
        }
    }
}
