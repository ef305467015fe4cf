//! Finds joins of a tile's labels with labels of other tiles: [`push_rim_joins`].
//!
//! A label is given by its number, which counts the entries of all tiles' tables, tile by tile.
//! Each pair of neighbouring cells of two tiles is visited once, from the one first in row order.
ghost use Rattle.std.specs.Prelude.{◌<◌, ◌≤◌, OnOk};
ghost use Rattle.tiles.specs.Cutting.{IsCutting, IsWithinLimits, tile_count};
ghost use Rattle.fill.specs.Gathering.{AddsMeetings};

use crate::cell_labels::NumberedFloods;
use crate::gathering::push_on_way;
use crate::spill_graph::Join;
use std::alloc::AllocError;
use terrain::{Place, place_on};
use tiles::Bounds;

/// Returns whether the place in direction `way` is beside the tile with these bounds.
#[inline(always)]
fn leads_out(bounds: Bounds, place: Place, way: usize) -> bool
    requires bounds { IsWithinLimits bounds }
    requires place { (place.row < 4096) × (place.col < 4096) }
{
    match place_on(way, place) {
        Some(near) => !bounds.contains(near),
        None => false,
    }
}

/// Adds the joins of a cell with cells of other tiles after it in row order.
fn push_cell(
    joins: &mut Vec<Join>,
    tiles: &NumberedFloods<'_>,
    bounds: Bounds,
    place: Place,
) -> Result<(), AllocError>
    requires lawful { IsCutting tiles.now.tiling.now }
    requires bounds { IsWithinLimits bounds }
    requires place { (place.row < 4096) × (place.col < 4096) }
    ensures { OnOk result (AddsMeetings tiles.now.tiling.now tiles.now.floods.now
        joins.old.items joins.new.items) }
{
    let Some(from) = tiles.cell_label(place) else {
        return Ok(());
    };
    for way in 0..4 {
        if leads_out(bounds, place, way) {
            push_on_way(joins, tiles, place, from, way)?;
        }
    }
    Ok(())
}

/// Adds the joins of the first and the last cell of each row with cells of other tiles.
fn push_sides(
    joins: &mut Vec<Join>,
    tiles: &NumberedFloods<'_>,
    bounds: Bounds,
) -> Result<(), AllocError>
    requires lawful { IsCutting tiles.now.tiling.now }
    requires bounds { IsWithinLimits bounds }
    requires some { 1 ≤ bounds.cols }
    ensures { OnOk result (AddsMeetings tiles.now.tiling.now tiles.now.floods.now
        joins.old.items joins.new.items) }
{
    let Bounds {
        top,
        left,
        rows,
        cols,
    } = bounds;
    for row in top..top + rows {
        push_cell(joins, tiles, bounds, Place { row, col: left })?;
        if cols > 1 {
            let last = left + cols - 1;
            push_cell(joins, tiles, bounds, Place { row, col: last })?;
        }
    }
    Ok(())
}

/// Adds the joins of the other cells of the last row with cells of other tiles.
fn push_last_row(
    joins: &mut Vec<Join>,
    tiles: &NumberedFloods<'_>,
    bounds: Bounds,
) -> Result<(), AllocError>
    requires lawful { IsCutting tiles.now.tiling.now }
    requires bounds { IsWithinLimits bounds }
    requires some { (1 ≤ bounds.rows) × (1 ≤ bounds.cols) }
    ensures { OnOk result (AddsMeetings tiles.now.tiling.now tiles.now.floods.now
        joins.old.items joins.new.items) }
{
    let Bounds {
        top,
        left,
        rows,
        cols,
    } = bounds;
    let row = top + rows - 1;
    for col in left + 1..left + cols - 1 {
        push_cell(joins, tiles, bounds, Place { row, col })?;
    }
    Ok(())
}

/// Adds the joins of a tile's cells with cells of other tiles after them in row order.
pub(crate) fn push_rim_joins(
    joins: &mut Vec<Join>,
    tiles: &NumberedFloods<'_>,
    tile: u32,
) -> Result<(), AllocError>
    requires lawful { IsCutting tiles.now.tiling.now }
    requires tile { tile < tile_count tiles.now.tiling.now }
    ensures { OnOk result (AddsMeetings tiles.now.tiling.now tiles.now.floods.now
        joins.old.items joins.new.items) }
{
    let bounds = tiles.tiling.bounds(tile);
    push_sides(joins, tiles, bounds)?;
    push_last_row(joins, tiles, bounds)?;
    Ok(())
}
