//! Finds the rim cells of a tile by side number, and where the paths of cells along links end.
//!
//! A side number is a rim cell's number in its tile (`Bounds::side_number`). A rim number is a
//! rim cell's number among those of all tiles (`Tiling::rim_number`). Side numbers depend on the
//! size of a largest tile: in `side_cell` it is `largest`, in `rim_ends` the tile itself.
ghost use Rattle.std.specs.Prelude.{◌≡◌, ◌*◌, ◌^◌, ◌<◌, ◌≤◌, length, IfOk, IfSome};
ghost use Rattle.tiles.specs.Cutting.{IsInBounds, IsWithinLimits, index_in};
ghost use Rattle.tiles.specs.RimNumbers.{stride};
ghost use Rattle.flow.specs.Streams.{AreStreams, end_of};
ghost use Rattle.flow.specs.Finding.{AreKnown};
ghost use Rattle.flow.specs.TileLinks.{EndsInLargestGrid, rim_ends_by};
ghost use Rattle.flow.specs.RimGraph.{side_cell};

use crate::cells::is_place;
use crate::ends::{OwnNumbers, Paths, end_of};
use crate::tile_links::TileLinks;
use std::alloc::{AllocError, Global};
use terrain::Place;
use tiles::Bounds;

/// Returns the cell of a tile with this side number, if there is one.
/// A cell on two sides has only the first number; a tile smaller than the largest skips numbers.
#[inline(always)]
pub(crate) fn side_cell(largest: Bounds, bounds: Bounds, side: u32) -> Option<Place>
    requires largest { IsWithinLimits largest }
    requires limits { IsWithinLimits bounds }
    requires some { (1 ≤ bounds.rows) × (1 ≤ bounds.cols) }
    requires side { side < stride largest }
    ensures value { result ≡ side_cell largest bounds side }
    ensures inside { IfSome result (IsInBounds bounds) }
{
    let place = bounds.side_place(largest, side);
    if bounds.contains(place) && bounds.side_number(largest, place) == side {
        Some(place)
    } else {
        None
    }
}

/// Returns the index where each rim cell's path along links ends, by side number.
pub(crate) fn rim_ends(
    alloc: Global,
    bounds: Bounds,
    links: &TileLinks,
) -> Result<Vec<u32>, AllocError>
    requires small { EndsInLargestGrid bounds }
    requires some_row { 1 ≤ bounds.rows }
    requires size { length links.now.links ≡ bounds.rows * bounds.cols }
    requires streams { AreStreams links.now.links }
    requires few { length links.now.links ≤ 2 ^ 30 }
    ensures { IfOk result (λ v. v.items ≡ rim_ends_by bounds links.now.links) }
{
    let numbers = &OwnNumbers::of(links);
    let paths = Paths { links, numbers };
    let mut found = paths.unknown(alloc)?;
    ends_of_sides(alloc, bounds, &paths, &mut found)
}

/// Returns the index where each rim cell's path along links ends.
/// Writes each end that it finds into `found`.
#[tactic(auto, using(crate::proofs::Ranges::mapped_next))]
fn ends_of_sides(
    alloc: Global,
    bounds: Bounds,
    paths: &Paths<TileLinks, OwnNumbers>,
    found: &mut [u32],
) -> Result<Vec<u32>, AllocError>
    requires small { EndsInLargestGrid bounds }
    requires some_row { 1 ≤ bounds.rows }
    requires size { length paths.now.links.now.links ≡ bounds.rows * bounds.cols }
    requires found { AreKnown paths.now.links.now.links (λ e. e) found.old }
    ensures { IfOk result (λ v. v.items ≡ rim_ends_by bounds paths.now.links.now.links) }
{
    let mut ends = Vec::with_capacity(alloc, bounds.side_count() as usize)?;
    for side in 0..bounds.side_count() {
        let place = bounds.side_place(bounds, side);
        ends.push(paths.find(found, bounds.index_of(place)))?;
    }
    Ok(ends)
}

/// Returns the index where a cell's path along links ends.
/// Reads it from `rim_ends` for a rim cell, and follows links for any other.
pub(crate) fn end_in(bounds: Bounds, links: &TileLinks, rim_ends: &[u32], place: Place) -> u32
    requires small { EndsInLargestGrid bounds }
    requires inside { IsInBounds bounds place }
    requires size { length links.now.links ≡ bounds.rows * bounds.cols }
    requires streams { AreStreams links.now.links }
    requires few { length links.now.links ≤ 2 ^ 30 }
    requires rim { rim_ends.now ≡ rim_ends_by bounds links.now.links }
    ensures { result ≡ end_of links.now.links (index_in bounds place) }
{
    let side = bounds.side_number(bounds, place);
    if is_place(bounds.side_place(bounds, side), place) {
        rim_ends[side as usize]
    } else {
        end_of(links, bounds.index_of(place))
    }
}
