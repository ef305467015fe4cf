//! Sums the inflow at each rim cell: how many cells' flow paths enter the cell from another tile.
//!
//! A rim number is a rim cell's number among the rim cells of all tiles (`Tiling::rim_number`).
ghost use Rattle.std.specs.Prelude.{◌≡◌, ◌+◌, ◌*◌, ◌^◌, ◌<◌, ℕ, None, length, slice_index, slice_index_or, IfOk, IfSome};
ghost use Rattle.terrain.specs.declared.place.Place.{Place as AtPlace};
ghost use Rattle.tiles.specs.Cutting.{IsInBounds, IsWithin, bounds_of, cell_count, tile_count, index_in};
ghost use Rattle.drainage.specs.Following.{Directed};
ghost use Rattle.tile_jobs.specs.Sums.{sum_below};
ghost use Rattle.flow.specs.Sending.{AreZeros};
ghost use Rattle.flow.specs.TileFlow.{AreTileCounts};
ghost use Rattle.flow.specs.TileLinks.{EndsInLargestGrid};
ghost use Rattle.tiles.specs.RimNumbers.{rim_number_count};
ghost use Rattle.flow.specs.RimGraph.{AreFlowsOf, rim_links_by, targets_by};
ghost use Rattle.flow.specs.Inflows.{AreEntering, AreInflows, adds_at, entering, inflow_by, listed_inflow, rim_weight, rim_weights_by, sent_to, through_by};

use crate::cells::is_place;
use crate::rim::side_cell;
use crate::rim_graph::RimGraph;
use crate::streams::{totals, zeros};
use crate::tile::TileFlow;
use std::alloc::{AllocError, Global};
use std::marker::Model;
use terrain::Place;
use tiles::{Bounds, Tiling};

/// For each rim cell, how many cells' flow paths enter it from another tile.
#[derive(Drop)]
pub struct Inflows {
    tiling: Tiling,
    // the inflow of each rim number
    listed: Vec<u32>,
}

impl Model for Inflows {
    ghost use Rattle.std.specs.Prelude.{◌≡◌, length};
    ghost use Rattle.tiles.specs.RimNumbers.{rim_number_count};
    ghost use Rattle.flow.specs.Inflows.{Inflows};

    ghost Value = { Inflows };

    ghost view = { λ i. record { cutting = i.tiling; listed = i.listed.items } };

    ghost invariant = { λ i. length i.listed.items ≡ rim_number_count i.tiling };
}

impl Inflows {
    /// Sums the inflows, following each exit's water from tile to tile.
    pub(crate) fn of_flows(
        alloc: Global,
        tiling: &Tiling,
        flows: &[TileFlow],
        rim_graph: &RimGraph,
    ) -> Result<Inflows, AllocError>
        requires flows { (d : Directed) × AreFlowsOf d tiling.now flows.now
            × AreTileCounts d tiling.now flows.now }
        requires targets { rim_graph.now.targets.items ≡ targets_by tiling.now flows.now }
        requires links { rim_graph.now.links.items ≡ rim_links_by tiling.now flows.now }
        ensures cutting { IfOk result (λ i. i.cutting ≡ tiling.now) }
        ensures inflows { IfOk result (λ i. (d : Directed) → AreFlowsOf d tiling.now flows.now →
            AreTileCounts d tiling.now flows.now → AreInflows d tiling.now i) }
    {
        let targets = &rim_graph.targets;
        let weights = rim_weights(alloc, tiling, flows, targets)?;
        let totals = totals(alloc, &rim_graph.links, weights)?;
        let mut listed = zeros(alloc, tiling.rim_number_count() as usize)?;
        send_all(tiling, targets, &totals, &mut listed);
        Ok(Inflows {
            tiling: *tiling,
            listed,
        })
    }

    /// Returns how many cells' flow paths enter `place` from another tile.
    pub(crate) fn inflow(&self, place: Place) -> u32
        requires { IsWithin self.now.cutting place }
        ensures { result ≡ listed_inflow self.now place }
    {
        let number = self.tiling.rim_number(place);
        if is_place(self.tiling.rim_place(number), place) {
            self.listed[number as usize]
        } else {
            0
        }
    }

    /// Adds the inflows of a tile to the weights of its cells.
    pub(crate) fn add_to(&self, tile: u32, weights: &mut [u32])
        requires tile { tile < tile_count self.now.cutting }
        requires size { length weights.old ≡ cell_count self.now.cutting tile }
        requires fits { (p : AtPlace) → IsInBounds (bounds_of self.now.cutting tile) p →
            slice_index weights.old (index_in (bounds_of self.now.cutting tile) p)
            + listed_inflow self.now p < 2 ^ 32 }
        ensures size { length weights.new ≡ length weights.old }
        ensures each { (p : AtPlace) → IsInBounds (bounds_of self.now.cutting tile) p →
            slice_index weights.new (index_in (bounds_of self.now.cutting tile) p)
            ≡ slice_index weights.old (index_in (bounds_of self.now.cutting tile) p)
            + listed_inflow self.now p }
    {
        add_all(&self.tiling, &self.listed, tile, weights);
    }
}

/// Adds to the weight of each rim cell of a tile the inflow listed for its rim number.
/// A rim number without a cell adds nothing.
fn add_all(tiling: &Tiling, listed: &[u32], tile: u32, weights: &mut [u32])
    requires tile { tile < tile_count tiling.now }
    requires listed { length listed.now ≡ rim_number_count tiling.now }
    requires size { length weights.old ≡ cell_count tiling.now tile }
    requires fits { (p : AtPlace) → IsInBounds (bounds_of tiling.now tile) p →
        slice_index weights.old (index_in (bounds_of tiling.now tile) p)
        + inflow_by tiling.now listed.now p < 2 ^ 32 }
    ensures size { length weights.new ≡ length weights.old }
    ensures each { (p : AtPlace) → IsInBounds (bounds_of tiling.now tile) p →
        slice_index weights.new (index_in (bounds_of tiling.now tile) p)
        ≡ slice_index weights.old (index_in (bounds_of tiling.now tile) p)
        + inflow_by tiling.now listed.now p }
{
    let largest = tiling.bounds(0);
    let bounds = tiling.bounds(tile);
    let (first, count) = tiling.rim_numbers_of(tile);
    for side in 0..count {
        let amount = listed[(first + side) as usize];
        add_at(side_cell(largest, bounds, side), amount, bounds, weights);
    }
}

#[inline(always)]
fn add_at(cell: Option<Place>, amount: u32, bounds: Bounds, weights: &mut [u32])
    requires small { EndsInLargestGrid bounds }
    requires inside { IfSome cell (IsInBounds bounds) }
    requires size { length weights.old ≡ bounds.rows * bounds.cols }
    requires fits { (p : AtPlace) → IsInBounds bounds p →
        slice_index weights.old (index_in bounds p) + adds_at cell amount p < 2 ^ 32 }
    ensures size { length weights.new ≡ length weights.old }
    ensures each { (p : AtPlace) → IsInBounds bounds p →
        slice_index weights.new (index_in bounds p)
        ≡ slice_index weights.old (index_in bounds p) + adds_at cell amount p }
{
    if let Some(place) = cell {
        weights[bounds.index_of(place)] += amount;
    }
}

/// Returns how many other cells' flow paths reach `place` inside its tile; `None` without a count.
#[inline(always)]
fn through_at(tiling: &Tiling, flows: &[TileFlow], place: Place) -> Option<u32>
    requires count { length flows.now ≡ tile_count tiling.now }
    requires within { IsWithin tiling.now place }
    ensures { result ≡ through_by tiling.now flows.now place }
{
    flows[tiling.tile_of(place) as usize].through(place)
}

/// Returns how many cells' flow paths first leave their tile at rim number `number`.
fn weight_of(tiling: &Tiling, flows: &[TileFlow], targets: &[Option<Place>], number: u32) -> u32
    requires flows { (d : Directed) × AreFlowsOf d tiling.now flows.now
        × AreTileCounts d tiling.now flows.now }
    requires targets { targets.now ≡ targets_by tiling.now flows.now }
    requires number { number < rim_number_count tiling.now }
    ensures { result ≡ rim_weight tiling.now flows.now number }
{
    let Some(_) = targets[number as usize] else {
        return 0;
    };
    through_at(tiling, flows, tiling.rim_place(number)).unwrap_or(0) + 1
}

/// Returns how many cells' flow paths first leave their own tile at each rim number.
#[tactic(auto, using(crate::proofs::Ranges::mapped_next))]
fn rim_weights(
    alloc: Global,
    tiling: &Tiling,
    flows: &[TileFlow],
    targets: &[Option<Place>],
) -> Result<Vec<u32>, AllocError>
    requires targets { targets.now ≡ targets_by tiling.now flows.now }
    requires flows { (d : Directed) × AreFlowsOf d tiling.now flows.now
        × AreTileCounts d tiling.now flows.now }
    ensures { IfOk result (λ v. v.items ≡ rim_weights_by tiling.now flows.now) }
{
    let count = tiling.rim_number_count();
    let mut weights = Vec::with_capacity(alloc, count as usize)?;
    for number in 0..count {
        weights.push(weight_of(tiling, flows, targets, number))?;
    }
    Ok(weights)
}

/// Adds each rim number's total to the inflow of its target, if any.
/// The target is the place in another tile that the cell with the number flows into.
fn send_all(tiling: &Tiling, targets: &[Option<Place>], totals: &[u32], listed: &mut [u32])
    requires targets { length targets.now ≡ rim_number_count tiling.now }
    requires within { (i : ℕ) → i < rim_number_count tiling.now →
        IfSome (slice_index_or targets.now i None) (IsWithin tiling.now) }
    requires totals { length totals.now ≡ rim_number_count tiling.now }
    requires few { (k : ℕ) → sum_below (entering tiling.now targets.now totals.now k)
        (rim_number_count tiling.now) < 2 ^ 32 }
    requires none { AreZeros (rim_number_count tiling.now) listed.old }
    ensures { AreEntering tiling.now targets.now totals.now listed.new }
{
    for number in 0..tiling.rim_number_count() {
        send(
            tiling,
            targets[number as usize],
            totals[number as usize],
            listed,
        );
    }
}

fn send(tiling: &Tiling, target: Option<Place>, amount: u32, listed: &mut [u32])
    requires within { IfSome target (IsWithin tiling.now) }
    requires size { length listed.old ≡ rim_number_count tiling.now }
    requires fits { (k : ℕ) → k < rim_number_count tiling.now →
        slice_index listed.old k + sent_to tiling.now k target amount < 2 ^ 32 }
    ensures size { length listed.new ≡ length listed.old }
    ensures each { (k : ℕ) → k < rim_number_count tiling.now →
        slice_index listed.new k ≡ slice_index listed.old k + sent_to tiling.now k target amount }
{
    let Some(entry) = target else {
        return;
    };
    listed[tiling.rim_number(entry) as usize] += amount;
}
