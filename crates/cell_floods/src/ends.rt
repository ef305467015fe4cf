//! Finds the heights of those labels of a tile that are end cells. A label is a place where paths
//! of the tile's cells end.
//!
//! A data cell is an end cell if it is a sink or has a gap around it. A gap is a place off the grid
//! or without data.
ghost use Rattle.std.specs.Prelude.{◌≡◌, ◌↔◌, ◌⊎◌, ◌<◌, IsTrue, IfOk, IfSome, List, None, Some, Contains};
ghost use Rattle.std.specs.List.{All};
ghost use Rattle.terrain.specs.Neighbours.{HasGapAround};
ghost use Rattle.terrain.specs.Sinks.{with_sinks};
ghost use Rattle.terrain.specs.declared.place.Place.{Place};
ghost use Rattle.tiles.specs.Cutting.{IsInBounds, bounds_of, terrain_of};
ghost use Rattle.cell_floods.specs.Cells.{HasSinks};
ghost use Rattle.cell_floods.specs.TileFlood.{AreEndHeights, IsEndHeight};

use crate::cell_net::have_data;
use crate::labels::Labels;
use crate::sinks::{is_sink, node_in};
use std::alloc::{AllocError, Global};
use terrain::{Cell, Place};
use tiles::TileView;

/// Returns whether a cell, or a place around it, is off the grid or has no data.
fn has_gap(view: &TileView<'_, Cell>, cell: Place) -> bool
    requires cell { IsInBounds (bounds_of view.now.cutting view.now.tile) cell }
    requires few { (cell.row < 4096) × (cell.col < 4096) }
    ensures { IsTrue result ↔ HasGapAround (terrain_of view.now) cell }
{
    if cell.row == 0 || cell.col == 0 {
        return true;
    }
    for row in cell.row - 1..cell.row + 2 {
        let Some(cells) = view.beside(Place { row, col: cell.col }) else {
            return true;
        };
        if !have_data(cells) {
            return true;
        }
    }
    false
}

/// Returns whether a place of the tile is a gap, has a gap around it, or is a sink.
#[inline]
fn is_end(view: &TileView<'_, Cell>, sinks: &[bool], place: Place) -> bool
    requires { IsInBounds (bounds_of view.now.cutting view.now.tile) place }
    ensures { (named : List Place)
        → HasSinks (bounds_of view.now.cutting view.now.tile) named sinks.now
        → (IsTrue result ↔ (HasGapAround (terrain_of view.now) place ⊎ Contains named place)) }
{
    let node = node_in(view.bounds(), place);
    if has_gap(view, place) {
        return true;
    }
    is_sink(sinks, node as u32)
}

/// Returns the height at a label that is an end cell, or no data for any other label.
#[inline]
fn end_height(view: &TileView<'_, Cell>, sinks: &[bool], label: Option<Place>) -> Cell
    requires { IfSome label (IsInBounds (bounds_of view.now.cutting view.now.tile)) }
    ensures none { label ≡ None → result ≡ None }
    ensures some { (named : List Place) (p : Place)
        → HasSinks (bounds_of view.now.cutting view.now.tile) named sinks.now
        → label ≡ Some p → IsEndHeight (with_sinks (terrain_of view.now) named) p result }
{
    let Some(place) = label else {
        return Cell::no_data();
    };
    // Never `None`, since labels lie in the tile.
    let Some(cell) = view.at(place) else {
        return Cell::no_data();
    };
    if is_end(view, sinks, place) {
        *cell
    } else {
        Cell::no_data()
    }
}

/// Returns, for each entry of the table of labels, its height if it is an end cell, else no data.
pub(crate) fn end_heights(
    alloc: Global,
    view: &TileView<'_, Cell>,
    sinks: &[bool],
    labels: &Labels,
) -> Result<Vec<Cell>, AllocError>
    requires { All (λ label. IfSome label (IsInBounds (bounds_of view.now.cutting view.now.tile)))
        labels.now.places }
    ensures { IfOk result (λ v. (named : List Place)
        → HasSinks (bounds_of view.now.cutting view.now.tile) named sinks.now
        → AreEndHeights (with_sinks (terrain_of view.now) named) labels.now.places v.items) }
{
    let mut heights = Vec::with_capacity(alloc, labels.count())?;
    for index in 0..labels.count() {
        heights.push(end_height(view, sinks, labels.place(index)))?;
    }
    Ok(heights)
}
