//! Gathers the joins of all neighbouring cells in one list: [`graph_joins`].
//!
//! A join gives a label by its number, which counts the entries of all tiles' tables of labels.
//! Each pair of neighbouring cells is visited once, from the cell that comes first in row order.
//! The four places after a cell are those E, SE, S and SW of it.
ghost use Rattle.std.specs.Prelude.{◌≡◌, ◌+◌, ◌<◌, Some, OnOk, IfOk};
ghost use Rattle.std.specs.Option.{option_to_list};
ghost use Rattle.tiles.specs.Cutting.{IsCutting, IsWithin};
ghost use Rattle.fill.specs.Gathering.{Adds, AreGathered, IsPairOn, cell_label_among, joins_of};

use crate::cell_labels::{CellLabel, NumberedFloods};
use crate::spill_graph::Join;
use std::alloc::{AllocError, Global};
use terrain::{Place, place_on};

/// Returns the join of two cells, by their cell labels, if their labels differ.
#[inline(always)]
fn join_of(from: CellLabel, to: Option<CellLabel>) -> Option<Join>
    ensures { joins_of from to ≡ option_to_list result }
{
    let to = to?;
    if from.node == to.node {
        return None;
    }
    Some(Join {
        from: from.node,
        to: to.node,
        height: from.level.max(to.level),
    })
}

/// Adds the join, if any, of the cell at `place` with the cell in direction `way`.
/// `way` is 0 for E, 1 for SE, 2 for S or 3 for SW. `from` is the cell label of the cell.
#[inline(always)]
pub(crate) fn push_on_way(
    joins: &mut Vec<Join>,
    tiles: &NumberedFloods<'_>,
    place: Place,
    from: CellLabel,
    way: usize,
) -> Result<(), AllocError>
    requires lawful { IsCutting tiles.now.tiling.now }
    requires limits { (place.row < 4096) × (place.col < 4096) }
    requires from { cell_label_among tiles.now.tiling.now tiles.now.floods.now place ≡ Some from }
    requires after { way < 4 }
    ensures { OnOk result (Adds (cell_label_among tiles.now.tiling.now tiles.now.floods.now)
        (IsPairOn way place) joins.old.items joins.new.items) }
{
    let Some(near) = place_on(way, place) else {
        return Ok(());
    };
    let Some(join) = join_of(from, tiles.cell_label(near)) else {
        return Ok(());
    };
    joins.push(join)?;
    Ok(())
}

/// Adds the joins of a cell with its neighbours after it in row order.
fn push_cell(
    joins: &mut Vec<Join>,
    tiles: &NumberedFloods<'_>,
    place: Place,
) -> Result<(), AllocError>
    requires lawful { IsCutting tiles.now.tiling.now }
    requires limits { (place.row < 4096) × (place.col < 4096) }
    ensures { OnOk result (Adds (cell_label_among tiles.now.tiling.now tiles.now.floods.now)
        (λ p q. p ≡ place) joins.old.items joins.new.items) }
{
    let Some(from) = tiles.cell_label(place) else {
        return Ok(());
    };
    push_on_way(joins, tiles, place, from, 0)?;
    push_on_way(joins, tiles, place, from, 1)?;
    push_on_way(joins, tiles, place, from, 2)?;
    push_on_way(joins, tiles, place, from, 3)?;
    Ok(())
}

/// Adds the joins of all cells in a row of the grid with their neighbours after them.
fn push_row(joins: &mut Vec<Join>, tiles: &NumberedFloods<'_>, row: u32) -> Result<(), AllocError>
    requires lawful { IsCutting tiles.now.tiling.now }
    requires row { row < tiles.now.tiling.now.rows }
    ensures { OnOk result (Adds (cell_label_among tiles.now.tiling.now tiles.now.floods.now)
        (λ p q. IsWithin tiles.now.tiling.now p × (p.row ≡ row)) joins.old.items joins.new.items) }
{
    for col in 0..tiles.tiling.cols() {
        push_cell(joins, tiles, Place { row, col })?;
    }
    Ok(())
}

/// Returns the joins of all neighbouring cells with different labels.
pub(crate) fn graph_joins(
    alloc: Global,
    tiles: &NumberedFloods<'_>,
) -> Result<Vec<Join>, AllocError>
    requires { IsCutting tiles.now.tiling.now }
    ensures { IfOk result (λ v.
        AreGathered tiles.now.tiling.now tiles.now.floods.now v.items) }
{
    let mut joins = Vec::new(alloc);
    for row in 0..tiles.tiling.rows() {
        push_row(&mut joins, tiles, row)?;
    }
    Ok(joins)
}
