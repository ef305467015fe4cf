//! A borrowed view of a tile and the cells next to it.
ghost use Rattle.std.specs.Prelude.{◌≡◌, ◌⊎◌, ◌+◌, ◌-◌, ◌*◌, ◌<◌, ◌≤◌, ℕ, IfNone, IfSome, length, option_copied, slice_index_or};
ghost use Rattle.terrain.specs.Neighbours.{index_of};
ghost use Rattle.tiles.specs.Cutting.{View, IsView, AreBounds, bounds_of, is_shown, cell_shown, row_shown};

use crate::bounds::Bounds;
use crate::slices::{element, part};
use crate::tiling::Tiling;
use std::marker::Model;
use terrain::Place;

/// A borrowed view of a tile's cells and of the cells next to the tile.
#[derive(Drop)]
pub struct TileView<'a, T> {
    tiling: Tiling,
    tile: u32,
    bounds: Bounds,
    cells: &'a [T],
}

impl<'a, T> Model for TileView<'a, T> {
    ghost use Rattle.tiles.specs.Cutting.{View, IsView, bounds_of};
    ghost use Rattle.std.specs.Prelude.{◌≡◌};

    ghost Value = { View T };

    ghost view = { λ v. record { cutting = v.tiling; tile = v.tile; cells = v.cells.now } };

    ghost invariant = { λ v. (v.bounds ≡ bounds_of v.tiling v.tile)
        × IsView {X = T} (record { cutting = v.tiling; tile = v.tile; cells = v.cells.now }) };
}

impl<'a, T> TileView<'a, T> {
    pub(crate) fn new(tiling: Tiling, tile: u32, bounds: Bounds, cells: &'a [T]) -> Self
        requires bounds { bounds ≡ bounds_of tiling tile }
        requires view { IsView (record { cutting = tiling; tile = tile; cells = cells.now }) }
        ensures { result ≡ record { cutting = tiling; tile = tile; cells = cells.now } }
    {
        TileView {
            tiling,
            tile,
            bounds,
            cells,
        }
    }

    /// Returns the bounds of the tile.
    #[inline(always)]
    pub fn bounds(&self) -> Bounds
        ensures value { result ≡ bounds_of self.now.cutting self.now.tile }
        ensures inside { AreBounds self.now.cutting result }
        ensures lawful { IsView self.now }
    {
        self.bounds
    }

    /// Returns the bounds of the whole grid.
    #[inline(always)]
    pub(crate) fn grid_bounds(&self) -> Bounds
        ensures value { result ≡ record {
          top = 0;
          left = 0;
          rows = self.now.cutting.rows;
          cols = self.now.cutting.cols;
        } }
        ensures lawful { IsView self.now }
    {
        Bounds {
            top: 0,
            left: 0,
            rows: self.tiling.rows(),
            cols: self.tiling.cols(),
        }
    }

    /// Returns row `index` of the tile, counted from 0, with one cell for each column.
    #[inline(always)]
    pub fn row(&self, index: u32) -> &'a [T]
        requires { index < (bounds_of self.now.cutting self.now.tile).rows }
        ensures value { result.now ≡ row_shown self.now index }
        ensures size { length result.now ≡ (bounds_of self.now.cutting self.now.tile).cols }
    {
        let Bounds {
            top,
            left,
            cols,
            ..
        } = self.bounds;
        let from = (top + index) as usize * self.tiling.cols() as usize + left as usize;
        part(self.cells, from, cols as usize)
    }

    /// Returns the grid's cell at a place in the tile or next to it.
    /// Returns `None` at other places, and outside the grid.
    #[inline(always)]
    pub fn at(&self, place: Place) -> Option<&'a T>
        ensures { option_copied result ≡ cell_shown self.now place }
    {
        if self.shows(place) {
            Some(element(self.cells, place.index_in(self.tiling.cols())))
        } else {
            None
        }
    }

    /// Returns three cells: west of `place`, at `place` and east of it.
    /// These may lie outside the tile. Returns `None` if one of the three is outside the grid.
    #[inline(always)]
    pub fn beside(&self, place: Place) -> Option<&'a [T]>
        requires { place.col < 4294967295 }
        ensures size { IfSome result (λ s. length s.now ≡ 3) }
        ensures value { IfSome result (λ s. (k : ℕ) (d : T) → k < 3 → slice_index_or s.now k d
            ≡ slice_index_or self.now.cells (index_of self.now.cutting.cols place + k - 1) d) }
        ensures inside { IfSome result (λ _. (place.row < self.now.cutting.rows)
            × (place.col + 1 < self.now.cutting.cols)) }
        ensures none { IfNone result ((self.now.cutting.rows ≤ place.row)
            ⊎ (place.col ≡ 0) ⊎ (self.now.cutting.cols ≤ place.col + 1)) }
    {
        let cols = self.tiling.cols();
        if place.row >= self.tiling.rows() || place.col == 0 || place.col + 1 >= cols {
            return None;
        }
        Some(part(self.cells, place.index_in(cols) - 1, 3))
    }

    #[inline(always)]
    fn shows(&self, place: Place) -> bool
        ensures { result ≡ is_shown self.now.cutting self.now.tile place }
    {
        let Bounds {
            top,
            left,
            rows,
            cols,
        } = self.bounds;
        place.row < self.tiling.rows()
            && place.col < self.tiling.cols()
            && top <= place.row + 1
            && place.row <= top + rows
            && left <= place.col + 1
            && place.col <= left + cols
    }
}
