//! Lists, for each node of a rectangle's net, whether it is a sink: [`rectangle_sinks`].
//!
//! The nodes are the rectangle's cells and a border of cells around them.
ghost use Rattle.std.specs.Prelude.{◌≡◌, ◌<◌, ◌+◌, ◌*◌, false, IfOk};
ghost use Rattle.std.specs.List.{list_any};
ghost use Rattle.tiles.specs.Cutting.{IsInBounds, IsWithinLimits, is_in_bounds};
ghost use Rattle.cell_floods.specs.Cells.{HasSinks, is_sink, node_at};

use std::alloc::{AllocError, Global};
use terrain::Place;
use tiles::Bounds;

/// Returns whether a node is a sink, by the list of [`rectangle_sinks`].
#[inline(always)]
pub(crate) fn is_sink(sinks: &[bool], node: u32) -> bool
    ensures { result ≡ is_sink sinks.now node }
{
    sinks.get(node as usize).copied().unwrap_or(false)
}

fn is_any_in(bounds: Bounds, places: &[Place]) -> bool
    requires { IsWithinLimits bounds }
    ensures { result ≡ list_any (is_in_bounds bounds) places.now }
{
    places.iter().any(|&place| bounds.contains(place))
}

/// Returns the node of a place, among the cells of the bounds and their border.
pub(crate) fn node_in(bounds: Bounds, place: Place) -> usize
    requires limits { IsWithinLimits bounds }
    requires inside { IsInBounds bounds place }
    ensures value { result ≡ node_at bounds place }
    ensures below { result < (bounds.rows + 2) * (bounds.cols + 2) }
{
    let row = (place.row - bounds.top) as usize + 1;
    let col = (place.col - bounds.left) as usize + 1;
    row * (bounds.cols as usize + 2) + col
}

/// Returns for each node whether its place is in `bounds` and one of `places`.
/// The nodes are the cells of the bounds and their border. The list is empty if none is a sink.
pub(crate) fn rectangle_sinks(
    alloc: Global,
    bounds: Bounds,
    places: &[Place],
) -> Result<Vec<bool>, AllocError>
    requires { IsWithinLimits bounds }
    ensures { IfOk result (λ v. HasSinks bounds places.now v.items) }
{
    if !is_any_in(bounds, places) {
        return Ok(Vec::new(alloc));
    }
    let nodes = (bounds.rows as usize + 2) * (bounds.cols as usize + 2);
    let mut sinks = vec![in alloc; false; nodes]?;
    for place in places {
        if bounds.contains(*place) {
            sinks[node_in(bounds, *place)] = true;
        }
    }
    Ok(sinks)
}
