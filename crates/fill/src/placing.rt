//! Turns joins whose labels are given by number into joins whose labels are given by place.
//!
//! Numbers count the entries of all tiles' tables of labels, tile by tile. A place is given by its
//! node: its index in row order of the grid. Of each pair of labels the lowest join is kept.
ghost use Rattle.std.specs.Prelude.{◌≡◌, ◌↔◌, ◌<◌, ◌++◌, [], IfOk, IfSome, IsTrue, OnOk, length, map};
ghost use Rattle.std.specs.Option.{option_to_list};
ghost use Rattle.std.specs.List.{All};
ghost use Rattle.terrain.specs.Raster.{Terrain};
ghost use Rattle.tiles.specs.Cutting.{IsWithin};
ghost use Rattle.fill.specs.Numbers.{node_of_label, nodes_of};
ghost use Rattle.fill.specs.Gathering.{AreLowest, IsRepeat};
ghost use Rattle.fill.specs.Placing.{AddsPlaced, placed_joins_of};
ghost use Rattle.fill.specs.SpillGraph.{AreFloods};

use crate::cell_labels::node_of;
use crate::spill_graph::Join;
use cell_floods::{Labels, TileFlood};
use std::alloc::{AllocError, Global};
use terrain::Place;
use tiles::Tiling;

/// Returns the node of a label's place, and 0 for `None`.
#[inline(always)]
fn node_or_first(tiling: &Tiling, label: Option<Place>) -> u32
    requires { IfSome label (IsWithin tiling.now) }
    ensures { result ≡ node_of_label tiling.now.cols label }
{
    match label {
        Some(place) => node_of(tiling, place),
        None => 0,
    }
}

/// Adds the node of each entry of a tile's table of labels, 0 for one without a label.
fn push_nodes(nodes: &mut Vec<u32>, tiling: &Tiling, labels: &Labels) -> Result<(), AllocError>
    requires { All (λ label. IfSome label (IsWithin tiling.now)) labels.now.places }
    ensures { OnOk result (nodes.new.items
        ≡ nodes.old.items ++ map (node_of_label tiling.now.cols) labels.now.places) }
{
    for index in 0..labels.count() {
        nodes.push(node_or_first(tiling, labels.place(index)))?;
    }
    Ok(())
}

/// Returns, for each number, the node of its label; 0 for a number without a label.
pub(crate) fn label_nodes(
    alloc: Global,
    tiling: &Tiling,
    floods: &[TileFlood],
) -> Result<Vec<u32>, AllocError>
    requires { (t : Terrain) × AreFloods t tiling.now floods.now }
    ensures { IfOk result (λ v. v.items ≡ nodes_of tiling.now.cols floods.now) }
{
    let mut nodes = Vec::new(alloc);
    for flood in floods {
        push_nodes(&mut nodes, tiling, flood.labels())?;
    }
    Ok(nodes)
}

/// Returns `join` with nodes for its labels' numbers; `None` if both labels have the same node.
/// `nodes` has the node of each number's label.
#[inline(always)]
fn place_join(join: Join, nodes: &[u32]) -> Option<Join>
    requires from { join.from < length nodes.now }
    requires to { join.to < length nodes.now }
    ensures { placed_joins_of nodes.now join ≡ option_to_list result }
{
    let placed = Join {
        from: nodes[join.from as usize],
        to: nodes[join.to as usize],
        height: join.height,
    };
    // Labels of floods have different places, but the contract does not require that.
    if placed.from == placed.to {
        return None;
    }
    Some(placed)
}

/// Returns `joins` with nodes for numbers, in both directions.
/// Leaves out joins of a place with itself. `nodes` has the node of each number's label.
pub(crate) fn placed_joins(
    alloc: Global,
    joins: &[Join],
    nodes: &[u32],
) -> Result<Vec<Join>, AllocError>
    requires { All (λ j. (j.from < length nodes.now) × (j.to < length nodes.now)) joins.now }
    ensures { IfOk result (λ v. AddsPlaced nodes.now joins.now [] v.items) }
{
    let mut placed = Vec::new(alloc);
    for join in joins {
        if let Some(join) = place_join(*join, nodes) {
            placed.push(join)?;
            placed.push(join.turned())?;
        }
    }
    Ok(placed)
}

/// Returns whether the joins at `index` and `index - 1` have the same labels.
/// Returns `false` for index 0.
#[inline(always)]
fn is_repeat(joins: &[Join], index: usize) -> bool
    requires { index < length joins.now }
    ensures { IsTrue result ↔ IsRepeat joins.now index }
{
    if index == 0 {
        return false;
    }
    let before = joins[index - 1];
    let join = joins[index];
    before.from == join.from && before.to == join.to
}

/// Returns the lowest join of each pair of labels, in the order of the labels.
pub(crate) fn lowest_joins(alloc: Global, mut joins: Vec<Join>) -> Result<Vec<Join>, AllocError>
    ensures { IfOk result (λ v. AreLowest joins.items v.items) }
{
    // By labels, then by height: the first join of a pair is its lowest.
    joins.sort_unstable();
    let mut lowest = Vec::with_capacity(alloc, joins.len())?;
    for index in 0..joins.len() {
        if is_repeat(&joins, index) {
            continue;
        }
        lowest.push(joins[index])?;
    }
    Ok(lowest)
}
