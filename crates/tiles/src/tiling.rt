//! A grid cut into tiles: each place is in exactly one tile.
//!
//! [`Tiling::put_back`] merges the lists of all tiles into one list of the grid.
ghost use Rattle.std.specs.Prelude.{◌≡◌, ◌↔◌, ◌⊎◌, ◌+◌, ◌*◌, ◌/◌, ◌<◌, ◌≤◌, ◌++◌, filter, length, IfOk, OnOk, Err};
ghost use Rattle.std.specs.Option.{option_to_list};
ghost use Rattle.smallvec.specs.SmallVec.{HasRoomFor, small_vec_len};
ghost use Rattle.std.specs.Int.{div_ceil};
ghost use Rattle.terrain.specs.declared.place.Place.{Place};
ghost use Rattle.tiles.specs.Cutting.{Cutting, IsCutting, IsWithin, IsInTile, longest_axis, longest_side, most_tiles, across, tile_count, tile_of_place, bounds_of, AreBounds, is_on_rim, IsInBounds, rim_places, outer_places, is_in_other_tile, AreTileLists, IsPutBack};
ghost use Rattle.tiles.specs.PuttingBack.{IsPutBackBelow, IsRowOf};

use crate::bounds::Bounds;
use crate::rim::Rim;
use crate::slices::part;
use crate::view::TileView;
use smallvec::SmallVec;
use std::alloc::{AllocError, Global};
use std::marker::Model;
use terrain::{NoMemory, Place, place_on};

/// The greatest side of a tile, in cells: one tile may cover the largest grid.
const LONGEST_SIDE: u32 = 4_096;

/// The greatest number of tiles: each tile is a job, and `tile_jobs` has this limit of jobs.
const MOST_TILES: u32 = 65_536;

/// Why a tiling is refused.
#[derive(Clone, Copy, Debug, PartialEq, Eq)]
pub enum TilingFault {
    /// The side is 0 or above 4,096.
    BadSide,
    /// There would be more than 65,536 tiles.
    TooManyTiles,
}

/// A grid cut into square tiles, numbered in row order.
/// Tiles in the last row or the last column of tiles may be smaller.
#[derive(Clone, Copy, Debug, PartialEq, Eq)]
pub struct Tiling {
    cols: u32,
    rows: u32,
    side: u32,
    // The number of tiles in a row of tiles.
    across: u32,
}

impl Model for Tiling {
    ghost use Rattle.std.specs.Prelude.{◌≡◌};
    ghost use Rattle.std.specs.Int.{div_ceil};
    ghost use Rattle.std.proofs.Common.{ap, sym};
    ghost use Rattle.tiles.specs.Cutting.{Cutting, IsCutting, across};

    ghost Value = { Cutting };

    ghost view = { λ t. record { cols = t.cols; rows = t.rows; side = t.side } };

    ghost invariant = { λ t. IsCutting (record { cols = t.cols; rows = t.rows; side = t.side })
        × (t.across ≡ div_ceil t.cols t.side) };

    ghost inverse = { λ t. record {
      cols = t.cols;
      rows = t.rows;
      side = t.side;
      across = div_ceil t.cols t.side;
    } };

    ghost inverse_ok = { λ a h. ap
        (λ n. record { cols = a.cols; rows = a.rows; side = a.side; across = n }) (sym h.1) };
}

impl Tiling {
    /// Cuts a grid of `cols` by `rows` cells into tiles of `side` by `side` cells.
    ///
    /// # Errors
    ///
    /// [`TilingFault::BadSide`] if `side` is 0 or above 4,096; else [`TilingFault::TooManyTiles`]
    /// if there would be more than 65,536 tiles.
    ///
    /// # Examples
    ///
    /// ```ignore
    /// let tiling = Tiling::new(5, 3, 2)?;
    /// assert_eq!(tiling.tiles(), 6);
    /// ```
    pub fn new(cols: u32, rows: u32, side: u32) -> Result<Self, TilingFault>
        requires cols { (1 ≤ cols) × (cols ≤ longest_axis) }
        requires rows { (1 ≤ rows) × (rows ≤ longest_axis) }
        ensures ok { IfOk result (λ t. t ≡ record { cols = cols; rows = rows; side = side }) }
        ensures bad_side { (result ≡ Err TilingFault.BadSide)
            ↔ ((side ≡ 0) ⊎ (longest_side < side)) }
        ensures too_many { (result ≡ Err TilingFault.TooManyTiles)
            ↔ ((1 ≤ side) × (side ≤ longest_side)
            × (most_tiles < div_ceil cols side * div_ceil rows side)) }
    {
        if side == 0 || side > LONGEST_SIDE {
            return Err(TilingFault::BadSide);
        }
        let across = cols.div_ceil(side);
        if across * rows.div_ceil(side) > MOST_TILES {
            return Err(TilingFault::TooManyTiles);
        }
        Ok(Tiling {
            cols,
            rows,
            side,
            across,
        })
    }

    /// Returns the tiling of a grid of `cols` by `rows` cells into one tile.
    pub fn of_one_tile(cols: u32, rows: u32) -> Self
        requires cols { (1 ≤ cols) × (cols ≤ longest_axis) }
        requires rows { (1 ≤ rows) × (rows ≤ longest_axis) }
        ensures value { result ≡ record { cols = cols; rows = rows; side = longest_side } }
        ensures tile { 0 < tile_count result }
        ensures bounds { bounds_of result 0
            ≡ record { top = 0; left = 0; rows = rows; cols = cols } }
    {
        Tiling {
            cols,
            rows,
            side: LONGEST_SIDE,
            across: 1,
        }
    }

    /// Returns the number of columns of the grid.
    #[inline(always)]
    pub fn cols(&self) -> u32
        ensures value { result ≡ self.now.cols }
        ensures lawful { IsCutting self.now }
    {
        self.cols
    }

    /// Returns the number of rows of the grid.
    #[inline(always)]
    pub fn rows(&self) -> u32
        ensures value { result ≡ self.now.rows }
        ensures lawful { IsCutting self.now }
    {
        self.rows
    }

    /// Returns the number of tiles.
    pub fn tiles(&self) -> u32
        ensures value { result ≡ tile_count self.now }
        ensures some { 1 ≤ result }
        ensures lawful { IsCutting self.now }
    {
        self.across * self.rows.div_ceil(self.side)
    }

    /// Returns the number of the tile that holds `place`.
    #[inline(always)]
    pub fn tile_of(&self, place: Place) -> u32
        requires { IsWithin self.now place }
        ensures number { result ≡ tile_of_place self.now place }
        ensures below { result < tile_count self.now }
        ensures lawful { IsCutting self.now }
    {
        place.row / self.side * self.across + place.col / self.side
    }

    #[inline(always)]
    fn across(&self) -> u32
        ensures value { result ≡ across self.now }
        ensures lawful { IsCutting self.now }
    {
        self.across
    }

    /// Returns the first tile that a row of the grid crosses.
    #[inline(always)]
    fn first_tile(&self, row: u32) -> u32
        requires { row < self.now.rows }
        ensures { result ≡ row / self.now.side * across self.now }
    {
        row / self.side * self.across
    }

    /// Returns the bounds of a tile, which hold exactly the tile's places.
    pub fn bounds(&self, tile: u32) -> Bounds
        requires { tile < tile_count self.now }
        ensures value { result ≡ bounds_of self.now tile }
        ensures inside { AreBounds self.now result }
        ensures places { (p : Place) → IsInTile self.now tile p ↔ IsInBounds result p }
        ensures lawful { IsCutting self.now }
    {
        let top = tile / self.across * self.side;
        let left = tile % self.across * self.side;
        Bounds {
            top,
            left,
            rows: self.side.min(self.rows - top),
            cols: self.side.min(self.cols - left),
        }
    }

    /// Returns whether `place` is in the first or last row or column of its tile.
    pub fn on_rim(&self, place: Place) -> bool
        requires { IsWithin self.now place }
        ensures { result ≡ is_on_rim self.now place }
    {
        self.bounds(self.tile_of(place)).is_first_or_last(place)
    }

    /// Returns an iterator over the rim of a tile, in row order.
    pub fn rim(&self, tile: u32) -> Rim
        requires { tile < tile_count self.now }
        ensures { result ≡ rim_places self.now tile }
    {
        Rim::of_bounds(self.bounds(tile))
    }

    /// Returns the places of other tiles that touch `place`, at sides and corners.
    /// Their order is that of the direction codes: E, SE, S, SW, W, NW, N, NE. Allocates nothing.
    pub fn outer_neighbours(&self, alloc: Global, place: Place) -> SmallVec<Place, 8>
        requires { IsWithin self.now place }
        ensures { result.items ≡ outer_places self.now place }
    {
        let tile = self.tile_of(place);
        let mut found = SmallVec::new(alloc);
        for way in 0..8 {
            self.push_if_outer(&mut found, place_on(way, place), tile);
        }
        found
    }

    #[inline(always)]
    fn push_if_outer(&self, found: &mut SmallVec<Place, 8>, next: Option<Place>, tile: u32)
        requires { HasRoomFor found.old 1 }
        ensures items { found.new.items
            ≡ found.old.items ++ filter (is_in_other_tile self.now tile) (option_to_list next) }
        ensures few { small_vec_len found.new ≤ small_vec_len found.old + 1 }
        ensures capacity { found.new.capacity ≡ found.old.capacity }
    {
        if let Some(place) = next {
            if self.is_in_other_tile(place, tile) {
                found.push_reserved(place);
            }
        }
    }

    #[inline(always)]
    fn is_in_other_tile(&self, place: Place, tile: u32) -> bool
        ensures { result ≡ is_in_other_tile self.now tile place }
    {
        place.row < self.rows && place.col < self.cols && self.tile_of(place) != tile
    }

    /// Returns a borrowed view of a tile's cells and of the cells next to the tile.
    pub fn view<'a, T>(&self, cells: &'a [T], tile: u32) -> TileView<'a, T>
        requires size { length cells.now ≡ self.now.cols * self.now.rows }
        requires tile { tile < tile_count self.now }
        ensures { result ≡ record { cutting = self.now; tile = tile; cells = cells.now } }
    {
        TileView::new(*self, tile, self.bounds(tile), cells)
    }

    /// Merges `results`, the lists of all tiles, into one list of the grid in row order.
    /// Each tile's list has an entry for each cell of the tile, in row order.
    ///
    /// # Errors
    ///
    /// [`NoMemory`] if an allocation fails.
    pub fn put_back<T: Copy + Drop>(
        &self,
        alloc: Global,
        results: &[Vec<T>],
    ) -> Result<Vec<T>, NoMemory>
        requires { AreTileLists self.now results.now }
        ensures { IfOk result (λ whole. IsPutBack self.now results.now whole.items) }
    {
        let mut whole = Vec::with_capacity(alloc, self.cols as usize * self.rows as usize)?;
        for row in 0..self.rows {
            self.push_row(results, row, &mut whole)?;
        }
        Ok(whole)
    }

    fn push_row<T: Copy + Drop>(
        &self,
        results: &[Vec<T>],
        row: u32,
        whole: &mut Vec<T>,
    ) -> Result<(), AllocError>
        requires lists { AreTileLists self.now results.now }
        requires row { row < self.now.rows }
        requires front { IsPutBackBelow self.now results.now (row * self.now.cols) whole.old.items }
        ensures { OnOk result
            (IsPutBackBelow self.now results.now ((row + 1) * self.now.cols) whole.new.items) }
    {
        let first = self.first_tile(row);
        for column in 0..self.across() {
            whole.extend_from_slice(self.row_of(results, first + column, row))?;
        }
        Ok(())
    }

    /// Returns the entries in a tile's list for its places in row `row` of the grid.
    #[inline(always)]
    fn row_of<'a, T>(&self, results: &'a [Vec<T>], tile: u32, row: u32) -> &'a [T]
        requires lists { AreTileLists self.now results.now }
        requires tile { tile < tile_count self.now }
        requires row { ((bounds_of self.now tile).top ≤ row)
            × (row < (bounds_of self.now tile).top + (bounds_of self.now tile).rows) }
        ensures { IsRowOf self.now results.now tile row result.now }
    {
        let Bounds { top, cols, .. } = self.bounds(tile);
        let from = (row - top) as usize * cols as usize;
        part(&results[tile as usize], from, cols as usize)
    }
}
