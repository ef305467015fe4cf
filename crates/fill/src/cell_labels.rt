//! Reads a cell's level and its label from the flood of its tile: [`CellLabel`].
//! Also returns the node of a place, its index in row order of the grid: [`node_of`].
ghost use Rattle.std.specs.Prelude.{◌≡◌, ◌+◌, ◌*◌, ◌<◌, ◌≤◌, length};
ghost use Rattle.tiles.specs.Cutting.{IsCutting, IsInTile, IsWithin};
ghost use Rattle.terrain.specs.Neighbours.{index_of};
ghost use Rattle.fill.specs.Numbers.{AreFirsts};
ghost use Rattle.fill.specs.Gathering.{Fit, cell_label_among, cell_label_in, cell_label_with};

use cell_floods::TileFlood;
use terrain::{Height, Place};
use tiles::Tiling;

/// A cell's level, in units, and its label, given by `node`.
/// `node` is the label's index in its tile's table, or its number. Numbers count the entries of all
/// tiles' tables, tile by tile.
#[derive(Clone, Copy, Debug, PartialEq, Eq)]
pub struct CellLabel {
    pub level: Height,
    pub node: u32,
}

/// Returns the node of a place in a net of places: its index in row order of the grid.
#[inline(always)]
pub(crate) fn node_of(tiling: &Tiling, place: Place) -> u32
    requires { IsWithin tiling.now place }
    ensures value { result ≡ index_of tiling.now.cols place }
    ensures below { result < tiling.now.cols * tiling.now.rows }
{
    place.row * tiling.cols() + place.col
}

/// The floods of all tiles, and the number of each label table's first entry.
#[derive(Drop)]
pub(crate) struct NumberedFloods<'a> {
    pub(crate) tiling: &'a Tiling,
    pub(crate) floods: &'a [TileFlood],
    pub(crate) firsts: &'a [u32],
    ghost fit: { Fit tiling.now floods.now },
    ghost numbers: { AreFirsts floods.now firsts.now },
}

/// Returns the cell label of the cell at `index` of the tile; `None` without data.
/// The cell label gives the label by its index in the tile's table.
#[inline(always)]
pub(crate) fn cell_label_at(flood: &TileFlood, index: usize) -> Option<CellLabel>
    requires { index < length flood.now.labels }
    ensures { result ≡ cell_label_with 0 flood.now index }
{
    let level = flood.level_at(index)?;
    Some(CellLabel {
        level,
        node: flood.labels().index(index),
    })
}

/// Returns the cell label of a place; `None` outside the tile and without data.
/// The cell label gives the label by its index in the tile's table.
#[inline(always)]
pub(crate) fn cell_label_in(flood: &TileFlood, place: Place) -> Option<CellLabel>
    ensures { result ≡ cell_label_in 0 flood.now place }
{
    let index = flood.index_of(place)?;
    cell_label_at(flood, index)
}

impl<'a> NumberedFloods<'a> {
    /// Returns the cell label of a place; `None` outside the grid and without data.
    /// The cell label gives the label by its number over all tiles.
    #[inline(always)]
    pub(crate) fn cell_label(&self, place: Place) -> Option<CellLabel>
        requires { IsCutting self.now.tiling.now }
        ensures { result ≡ cell_label_among self.now.tiling.now self.now.floods.now place }
    {
        if place.row >= self.tiling.rows() || place.col >= self.tiling.cols() {
            return None;
        }
        self.cell_label_of_tile(self.tiling.tile_of(place), place)
    }

    /// Returns the cell label of a place of tile `own`; `None` without data.
    /// The cell label gives the label by its number over all tiles.
    #[inline(always)]
    fn cell_label_of_tile(&self, own: u32, place: Place) -> Option<CellLabel>
        requires lawful { IsCutting self.now.tiling.now }
        requires place { IsInTile self.now.tiling.now own place }
        ensures { result ≡ cell_label_among self.now.tiling.now self.now.floods.now place }
    {
        let cell_label = cell_label_in(&self.floods[own as usize], place)?;
        Some(CellLabel {
            level: cell_label.level,
            node: self.firsts[own as usize] + cell_label.node,
        })
    }
}
