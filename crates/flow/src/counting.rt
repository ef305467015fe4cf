//! Counts for each cell the other cells whose flow paths contain it: [`accumulation`].
//!
//! One job for each tile finds the tile's flow: exits, and how many other cells' flow paths reach
//! each cell inside the tile. [`RimLinks::join`] sums what enters each rim cell from other tiles. A
//! second job for each tile finds accumulations.
ghost use Rattle.std.proofs.Props.{props};
ghost use Rattle.std.specs.Prelude.{◌≡◌, ◌+◌, ◌^◌, ◌<◌, ℕ, length, slice_index, IfOk};
ghost use Rattle.tiles.specs.Cutting.{Cuts, IsInBounds, bounds_of, cell_count, tile_count};
ghost use Rattle.tile_jobs.specs.Fault.{RefusesWorkers};
ghost use Rattle.drainage.specs.Drained.{directed_of};
ghost use Rattle.flow.specs.Counts.{AreAccumulations};
ghost use Rattle.flow.specs.Counting.{IsCountable, AreCountable, AreInflowWeights, AreCounts};
ghost use Rattle.flow.specs.TileLinks.{counts_by};
ghost use Rattle.flow.specs.Inflows.{listed_inflow};
ghost use Rattle.terrain.specs.declared.place.Place.{Place as AtPlace};

use crate::flowing::flow_tiles;
use crate::inflows::Inflows;
use crate::links::RimLinks;
use crate::streams::{totals_of_few, zeros};
use crate::tile::TileFlow;
use crate::tile_links::{TileLinks, count_where_data};
use drainage::Directions;
use std::alloc::{AllocError, Global};
use std::sync::Wait;
use std::thread::Threads;
use terrain::{Count, NoMemory};
use tile_jobs::{Gate, JobFault};
use tile_maps::{Runner, TileMap};
use tiles::Tiling;

/// Input of the jobs that find accumulations: all tiles' flows and inflows.
#[derive(Drop)]
struct CountsInput<'a> {
    tiling: &'a Tiling,
    flows: Vec<TileFlow>,
    inflows: Inflows,
    ghost countable: { AreCountable tiling.now flows.items inflows } by { Prim.hlevel props },
}

impl<'a> TileMap for CountsInput<'a> {
    ghost use Rattle.flow.specs.Counting.{IsCountAt};

    type Entry = Count;

    ghost cutting = { λ m. m.tiling.now };

    ghost has = { λ m. IsCountAt m.tiling.now m.flows.items m.inflows };

    fn tiling(&self) -> Tiling {
        *self.tiling
    }

    fn tile(&self, alloc: Global, tile: u32) -> Result<Vec<Count>, NoMemory> {
        let flow = &self.flows[tile as usize];
        let counts = tile_counts(alloc, &self.inflows, tile, flow)?;
        Ok(counts)
    }
}

/// Returns each cell's accumulation: how many other cells' flow paths contain it.
/// Values are in row order; NODATA has [`Count::none`].
/// Each tile has two jobs: one finds its flow, and a later one its accumulations.
///
/// # Errors
///
/// [`JobFault::BadWorkers`] if `workers` is 0 or above 64, [`JobFault::NoThread`] if
/// a thread could not be started, [`JobFault::Memory`] if memory ran out.
///
/// # Examples
///
/// ```ignore
/// let values = accumulation(rt, alloc, &directions, &tiling, 2, &NoGate)?;
/// let accumulation = values[0].value();
/// ```
pub fn accumulation<R: Threads + Wait + Sync, G: Gate + Sync>(
    rt: &R,
    alloc: Global,
    d: &Directions,
    tiling: &Tiling,
    workers: u32,
    gate: &G,
) -> Result<Vec<Count>, JobFault>
    requires { Cuts tiling.now d.now.terrain }
    ensures values { IfOk result (λ v. AreAccumulations (directed_of d.now) v.items) }
    ensures workers { RefusesWorkers workers result }
{
    let runner = Runner {
        rt,
        alloc,
        workers,
        gate,
    };
    let flows = flow_tiles(&runner, d.codes(), tiling)?;
    let Ok(links) = RimLinks::join(alloc, tiling, &flows) else {
        return Err(JobFault::Memory);
    };
    let inflows = links.into_inflows();
    runner.map_tiles(CountsInput {
        tiling,
        flows,
        inflows,
    })
}

/// Returns the accumulations of a tile's cells: what the first job counted, plus what the tile's
/// inflows add along their paths.
fn tile_counts(
    alloc: Global,
    inflows: &Inflows,
    tile: u32,
    flow: &TileFlow,
) -> Result<Vec<Count>, AllocError>
    requires countable { IsCountable inflows.now tile flow.now }
    requires tile { tile < tile_count inflows.now.cutting }
    ensures { IfOk result (λ v. AreCounts inflows.now tile flow.now v.items) }
{
    let links = flow.links();
    let totals = flow.totals();
    let weights = inflow_weights(alloc, inflows, tile, totals.len())?;
    let added = totals_of_few(alloc, links, weights)?;
    counts(alloc, links, totals, &added)
}

/// Returns the inflow of each cell of a tile.
fn inflow_weights(
    alloc: Global,
    inflows: &Inflows,
    tile: u32,
    count: usize,
) -> Result<Vec<u32>, AllocError>
    requires tile { tile < tile_count inflows.now.cutting }
    requires size { count ≡ cell_count inflows.now.cutting tile }
    requires fits { (p : AtPlace) → IsInBounds (bounds_of inflows.now.cutting tile) p →
        listed_inflow inflows.now p < 2 ^ 31 }
    ensures { IfOk result (λ v.
        AreInflowWeights inflows.now (bounds_of inflows.now.cutting tile) v.items) }
{
    let mut weights = zeros(alloc, count)?;
    inflows.add_to(tile, &mut weights);
    Ok(weights)
}

/// Returns each data cell's entry in `totals` plus that in `added`, less 1 for the cell itself.
/// NODATA has no count.
fn counts(
    alloc: Global,
    links: &TileLinks,
    totals: &[u32],
    added: &[u32],
) -> Result<Vec<Count>, AllocError>
    requires totals { length totals.now ≡ length links.now.codes }
    requires added { length added.now ≡ length links.now.codes }
    requires fits { (i : ℕ) → i < length links.now.codes →
        slice_index totals.now i + slice_index added.now i < 2 ^ 32 }
    ensures { IfOk result (λ v. v.items ≡ counts_by links.now.codes
        (λ i. slice_index totals.now i + slice_index added.now i)) }
{
    let mut values = vec![in alloc; Count::none(); totals.len()]?;
    set_counts(&mut values, links, totals, added);
    Ok(values)
}

fn set_counts(values: &mut [Count], links: &TileLinks, totals: &[u32], added: &[u32])
    requires values { length values.old ≡ length links.now.codes }
    requires totals { length totals.now ≡ length links.now.codes }
    requires added { length added.now ≡ length links.now.codes }
    requires fits { (i : ℕ) → i < length links.now.codes →
        slice_index totals.now i + slice_index added.now i < 2 ^ 32 }
    ensures { values.new ≡ counts_by links.now.codes
        (λ i. slice_index totals.now i + slice_index added.now i) }
{
    let moves = links.moves();
    for index in 0..values.len() {
        let total = totals[index] + added[index];
        // The total of NODATA is 0, hence `saturating_sub`.
        values[index] = count_where_data(moves[index], total.saturating_sub(1));
    }
}
