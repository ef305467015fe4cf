//! Numbers each data cell by the cell where its flow path ends: [`number_cells`].
//! Such an end is an outlet or, for catchments, also a gauge, which gets an outlet's code.
ghost use Rattle.std.proofs.Props.{props};
ghost use Rattle.std.specs.Prelude.{◌≡◌, ◌*◌, ◌<◌, ℕ, length, slice_index, IfOk, IfSome};
ghost use Rattle.terrain.specs.Neighbours.{index_of};
ghost use Rattle.terrain.specs.StoredCells.{uncounted};
ghost use Rattle.tiles.specs.Cutting.{IsWithin};
ghost use Rattle.tile_jobs.specs.Fault.{RefusesWorkers};
ghost use Rattle.flow.specs.Counts.{IsMapOf};
ghost use Rattle.drainage.specs.Following.{Directed};
ghost use Rattle.flow.specs.RimGraph.{AreFlowsOf, listed_outlet};
ghost use Rattle.flow.specs.Numbering.{AreNumberedCells, AreReady, cell_numbers_by, end_number, number_at};

use crate::end_numbers::EndNumbering;
use crate::outlets::Outlets;
use crate::rim_graph::RimGraph;
use crate::tile_exits::TileExits;
use crate::tile_links::{TileLinks, count_where_data};
use std::alloc::{AllocError, Global};
use std::sync::Wait;
use std::thread::Threads;
use terrain::{Count, NoMemory, Place};
use tile_jobs::{Gate, JobFault, check_workers};
use tile_maps::{Runner, TileMap};
use tiles::Tiling;

/// Input of the jobs that number cells.
/// It has flows, outlets of exits, and the numbers of the cells where flow paths end.
#[derive(Drop)]
struct Numbering<'a, N: EndNumbering> {
    tiling: &'a Tiling,
    flows: Vec<TileExits>,
    outlets: Outlets,
    numbers: N,
    ghost ready: { AreReady tiling.now flows.items outlets
        (N.numbers numbers) } by { Prim.hlevel props },
}

impl<'a, N: EndNumbering> TileMap for Numbering<'a, N> {
    ghost use Rattle.flow.specs.Numbering.{IsEndNumberAt};

    type Entry = Count;

    ghost cutting = { λ m. m.tiling.now };

    ghost has = { λ m. IsEndNumberAt m.tiling.now m.flows.items m.outlets (N.numbers m.numbers) };

    fn tiling(&self) -> Tiling {
        *self.tiling
    }

    fn tile(&self, alloc: Global, tile: u32) -> Result<Vec<Count>, NoMemory> {
        let flow = &self.flows[tile as usize];
        let numbers = flow.exit_numbers(
            alloc,
            &TileNumbers {
                numbering: self,
                flow,
            },
        )?;
        let values = cell_numbers(alloc, flow.links(), &numbers)?;
        Ok(values)
    }
}

impl<'a, N: EndNumbering> Numbering<'a, N> {
    /// Returns the number of an exit's outlet, 0 if the place is no exit.
    fn number_of(&self, exit: Place) -> u32
        requires within { IsWithin self.now.outlets.cutting exit }
        requires numbered { IfSome (listed_outlet self.now.outlets self.now.flows.items exit)
            (λ o. index_of self.now.outlets.cutting.cols o < (N.numbers self.now.numbers).cells) }
        ensures { result ≡ number_at self.now.outlets.cutting.cols (N.numbers self.now.numbers)
            (listed_outlet self.now.outlets self.now.flows.items exit) }
    {
        match self.outlets.outlet(&self.flows, exit) {
            Some(outlet) => self.numbers.number(outlet.index_in(self.tiling.cols())),
            None => 0,
        }
    }
}

/// The numbers of the outlets of a tile's exits, by their indexes in the tile; 0 elsewhere.
#[derive(Drop)]
struct TileNumbers<'a, 'b, N: EndNumbering> {
    numbering: &'b Numbering<'a, N>,
    flow: &'b TileExits,
    ghost ready: { AreNumberedCells numbering.now.outlets numbering.now.flows.items
        (N.numbers numbering.now.numbers) flow.now } by { Prim.hlevel props },
}

impl<'a, 'b, N: EndNumbering> EndNumbering for TileNumbers<'a, 'b, N> {
    ghost use Rattle.flow.specs.Numbering.{tile_numbers};

    ghost numbers = { λ x. tile_numbers x.numbering.now.outlets x.numbering.now.flows.items
        (N.numbers x.numbering.now.numbers) x.flow.now };

    #[inline(always)]
    fn number(&self, index: usize) -> u32 {
        if !self.flow.links().has_data(index) {
            return 0;
        }
        self.numbering
            .number_of(self.flow.bounds().place_at(index as u32))
    }
}

/// Gives each data cell of a grid the number of the cell where its flow path ends.
///
/// `flows` are the exits of all tiles, in tile order. A job for each tile numbers its cells.
pub(crate) fn number_cells<R: Threads + Wait + Sync, G: Gate + Sync, N: EndNumbering + Sync + Drop>(
    runner: &Runner<'_, R, G>,
    tiling: &Tiling,
    flows: Vec<TileExits>,
    numbers: N,
) -> Result<Vec<Count>, JobFault>
    requires flows { (d : Directed) × AreFlowsOf d tiling.now flows.items }
    requires size { (N.numbers numbers).cells ≡ tiling.now.cols * tiling.now.rows }
    requires few { (i : ℕ) → i < (N.numbers numbers).cells →
        (N.numbers numbers).number i < uncounted }
    ensures values { IfOk result (λ v. (d : Directed) → AreFlowsOf d tiling.now flows.items →
        IsMapOf d (end_number d (N.numbers numbers)) v.items) }
    ensures workers { RefusesWorkers runner.now.workers result }
{
    check_workers(runner.workers)?;
    let rim_graph = RimGraph::of(runner.alloc, tiling, &flows)?;
    let outlets = Outlets::of_flows(runner.alloc, tiling, &flows, &rim_graph)?;
    drop(rim_graph);
    runner.map_tiles(Numbering {
        tiling,
        flows,
        outlets,
        numbers,
    })
}

/// Returns the number of each data cell. NODATA has [`Count::none`].
fn cell_numbers(alloc: Global, links: &TileLinks, numbers: &[u32]) -> Result<Vec<Count>, AllocError>
    requires size { length numbers.now ≡ length links.now.codes }
    requires few { (i : ℕ) → i < length links.now.codes → slice_index numbers.now i < uncounted }
    ensures { IfOk result (λ v. v.items ≡ cell_numbers_by links.now.codes numbers.now) }
{
    let mut values = vec![in alloc; Count::none(); numbers.len()]?;
    set_numbers(&mut values, links, numbers);
    Ok(values)
}

fn set_numbers(values: &mut [Count], links: &TileLinks, numbers: &[u32])
    requires values { length values.old ≡ length links.now.codes }
    requires size { length numbers.now ≡ length links.now.codes }
    requires few { (i : ℕ) → i < length links.now.codes → slice_index numbers.now i < uncounted }
    ensures { values.new ≡ cell_numbers_by links.now.codes numbers.now }
{
    let moves = links.moves();
    for index in 0..values.len() {
        values[index] = count_where_data(moves[index], numbers[index]);
    }
}
