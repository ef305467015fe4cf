//! Finds where each exit into another tile leads, and the next such exit on its flow path:
//! [`RimGraph`].
//!
//! An exit's target is the place in the other tile that it flows into. Its link is the next such
//! exit on its flow path, or the exit itself if there is none. The lists of targets and of links
//! have an entry for each rim number, a number for a rim cell among those of all tiles
//! (`Tiling::rim_number`).
ghost use Rattle.std.specs.Prelude.{◌≡◌, ◌+◌, ◌*◌, ◌<◌, ◌≤◌, length, IfOk, OnOk};
ghost use Rattle.tiles.specs.Cutting.{IsCutting, IsWithin, IsWithinLimits, bounds_of, tile_count};
ghost use Rattle.drainage.specs.Following.{Directed};
ghost use Rattle.tiles.specs.RimNumbers.{rim_number_count, stride};
ghost use Rattle.flow.specs.RimGraph.{code_in, AreFlowsOf, target_in, first_targets, targets_by, next_exit_by, rim_link, rim_links_by};

use crate::cells::next_of;
use crate::exit_lists::ExitList;
use crate::rim::side_cell;
use crate::tile_exits::TileExits;
use drainage::Code;
use std::alloc::{AllocError, Global};
use terrain::Place;
use tiles::{Bounds, Tiling};

/// The target, if any, and the link of each rim number (`Tiling::rim_number`).
/// A target is the place in another tile that the cell with the number flows into. The link of an
/// exit into another tile is the rim number of the next such exit on its flow path. An exit without
/// a next one, and any other rim number, has its own number as link.
#[derive(Drop)]
pub(crate) struct RimGraph {
    pub(crate) targets: Vec<Option<Place>>,
    pub(crate) links: Vec<u32>,
}

impl RimGraph {
    /// Finds the targets and links from the flows of all tiles, given in tile order.
    pub(crate) fn of<F: ExitList>(
        alloc: Global,
        tiling: &Tiling,
        flows: &F,
    ) -> Result<RimGraph, AllocError>
        requires { (d : Directed) × AreFlowsOf d tiling.now (F.flows flows.now) }
        ensures targets { IfOk result (λ x.
            x.targets.items ≡ targets_by tiling.now (F.flows flows.now)) }
        ensures links { IfOk result (λ x.
            x.links.items ≡ rim_links_by tiling.now (F.flows flows.now)) }
    {
        let targets = rim_targets(alloc, tiling, flows)?;
        let links = rim_links(alloc, tiling, flows, &targets)?;
        Ok(RimGraph { targets, links })
    }
}

#[inline(always)]
pub(crate) fn code_of<F: ExitList>(tiling: &Tiling, flows: &F, place: Place) -> Option<Code>
    requires count { length (F.flows flows.now) ≡ tile_count tiling.now }
    requires within { IsWithin tiling.now place }
    ensures value { result ≡ code_in tiling.now (F.flows flows.now) place }
    ensures lawful { IsCutting tiling.now }
{
    flows.of_tile(tiling.tile_of(place)).code(place)
}

#[inline(always)]
fn next_exit<F: ExitList>(tiling: &Tiling, flows: &F, entry: Place) -> Option<Place>
    requires count { length (F.flows flows.now) ≡ tile_count tiling.now }
    requires within { IsWithin tiling.now entry }
    ensures { result ≡ next_exit_by tiling.now (F.flows flows.now) entry }
{
    flows.of_tile(tiling.tile_of(entry)).next_exit(entry)
}

/// Returns the place in another tile that the cell with side number `side` flows into.
/// `None` if there is no such place.
#[inline(always)]
fn target_of(largest: Bounds, flow: &TileExits, side: u32) -> Option<Place>
    requires largest { IsWithinLimits largest }
    requires some_row { 1 ≤ flow.now.bounds.rows }
    requires side { side < stride largest }
    ensures { result ≡ target_in largest flow.now side }
{
    let bounds = flow.bounds();
    let place = side_cell(largest, bounds, side)?;
    let next = next_of(flow.code(place), place);
    if bounds.contains(next) {
        None
    } else {
        Some(next)
    }
}

/// Appends the target of each side number of a tile, `None` if it has no target.
/// The target is the place in another tile that the cell with the number flows into.
fn push_targets<F: ExitList>(
    targets: &mut Vec<Option<Place>>,
    tiling: &Tiling,
    flows: &F,
    tile: u32,
) -> Result<(), AllocError>
    requires flows { (d : Directed) × AreFlowsOf d tiling.now (F.flows flows.now) }
    requires tile { tile < tile_count tiling.now }
    requires targets { targets.old.items
        ≡ first_targets tiling.now (F.flows flows.now) (tile * stride (bounds_of tiling.now 0)) }
    ensures { OnOk result
        (targets.new.items
        ≡ first_targets tiling.now (F.flows flows.now)
        ((tile + 1) * stride (bounds_of tiling.now 0))) }
{
    let largest = tiling.bounds(0);
    let flow = flows.of_tile(tile);
    for side in 0..largest.side_count() {
        targets.push(target_of(largest, flow, side))?;
    }
    Ok(())
}

/// Returns the place in another tile that each rim cell flows into, if any.
fn rim_targets<F: ExitList>(
    alloc: Global,
    tiling: &Tiling,
    flows: &F,
) -> Result<Vec<Option<Place>>, AllocError>
    requires { (d : Directed) × AreFlowsOf d tiling.now (F.flows flows.now) }
    ensures { IfOk result (λ v. v.items ≡ targets_by tiling.now (F.flows flows.now)) }
{
    let mut targets = Vec::with_capacity(alloc, tiling.rim_number_count() as usize)?;
    for tile in 0..tiling.tiles() {
        push_targets(&mut targets, tiling, flows, tile)?;
    }
    Ok(targets)
}

/// Returns the rim number of the next exit into another tile after the exit `number`.
/// If there is none, or `number` is no exit into another tile, returns `number`.
fn link_of<F: ExitList>(tiling: &Tiling, flows: &F, targets: &[Option<Place>], number: u32) -> u32
    requires flows { (d : Directed) × AreFlowsOf d tiling.now (F.flows flows.now) }
    requires targets { targets.now ≡ targets_by tiling.now (F.flows flows.now) }
    requires number { number < rim_number_count tiling.now }
    ensures { result ≡ rim_link tiling.now (F.flows flows.now) number }
{
    let Some(entry) = targets[number as usize] else {
        return number;
    };
    match next_exit(tiling, flows, entry) {
        Some(exit) => tiling.rim_number(exit),
        None => number,
    }
}

#[tactic(auto, using(crate::proofs::Ranges::mapped_next))]
fn rim_links<F: ExitList>(
    alloc: Global,
    tiling: &Tiling,
    flows: &F,
    targets: &[Option<Place>],
) -> Result<Vec<u32>, AllocError>
    requires flows { (d : Directed) × AreFlowsOf d tiling.now (F.flows flows.now) }
    requires targets { targets.now ≡ targets_by tiling.now (F.flows flows.now) }
    ensures { IfOk result (λ v. v.items ≡ rim_links_by tiling.now (F.flows flows.now)) }
{
    let count = tiling.rim_number_count();
    let mut links = Vec::with_capacity(alloc, count as usize)?;
    for number in 0..count {
        links.push(link_of(tiling, flows, targets, number))?;
    }
    Ok(links)
}
