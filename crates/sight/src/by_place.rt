//! Builds lists with one entry for each place of a tile, in row order.
ghost use Rattle.std.specs.Prelude.{◌+◌, ◌-◌, ◌*◌, ◌<◌, ◌≤◌, IfOk, OnOk};
ghost use Rattle.terrain.specs.declared.place.Place.{Place};
ghost use Rattle.tiles.specs.Cutting.{IsInBounds};
ghost use Rattle.tile_maps.specs.Maps.{IsMadeUpTo};

use std::alloc::{AllocError, Global};
use terrain::Place;
use tiles::Bounds;

/// A map that computes the entry of each of its places.
pub(crate) trait PlaceMap {
    type Entry;

    // The places that have an entry.
    ghost inside: { Self → Place → Type 0 };

    // Whether an entry is the right one for a place.
    ghost has: { Self → Place → Self.Entry → Type 0 };

    fn entry(&self, place: Place) -> Self::Entry
        requires { inside self.now place }
        ensures { has self.now place result };
}

#[inline(always)]
fn push_row<M: PlaceMap>(
    map: &M,
    bounds: Bounds,
    row: u32,
    list: &mut Vec<M::Entry>,
) -> Result<(), AllocError>
where
    M::Entry: Drop,
    requires small { bounds.left + bounds.cols ≤ 4096 }
    requires inside { (p : Place) → IsInBounds bounds p → M.inside map.now p }
    requires row { (bounds.top ≤ row) × (row < bounds.top + bounds.rows) }
    requires list { IsMadeUpTo bounds (M.has map.now) ((row - bounds.top) * bounds.cols)
        list.old.items }
    ensures { OnOk result (IsMadeUpTo bounds (M.has map.now)
        ((row + 1 - bounds.top) * bounds.cols) list.new.items) }
{
    for col in bounds.left..bounds.left + bounds.cols {
        list.push(map.entry(Place { row, col }))?;
    }
    Ok(())
}

/// Returns the entries of all places within the bounds, in row order.
pub(crate) fn entries<M: PlaceMap>(
    map: &M,
    alloc: Global,
    bounds: Bounds,
) -> Result<Vec<M::Entry>, AllocError>
where
    M::Entry: Drop,
    requires small { (bounds.top + bounds.rows ≤ 4096) × (bounds.left + bounds.cols ≤ 4096) }
    requires inside { (p : Place) → IsInBounds bounds p → M.inside map.now p }
    ensures { IfOk result
        (λ v. IsMadeUpTo bounds (M.has map.now) (bounds.rows * bounds.cols) v.items) }
{
    let mut list = Vec::with_capacity(alloc, bounds.rows as usize * bounds.cols as usize)?;
    for row in bounds.top..bounds.top + bounds.rows {
        push_row(map, bounds, row, &mut list)?;
    }
    Ok(list)
}
