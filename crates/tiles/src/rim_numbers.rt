//! Computes a number for each rim cell of all tiles, and the cell of a number; stores no list.
//!
//! Each tile has as many numbers as two rows and two columns of the largest tile have cells.
//! A corner is in a row and a column, and a tile may be smaller, so some numbers have no cell.
//! `flow` links rim cells by number.
ghost use Rattle.std.specs.Prelude.{◌≡◌, ◌+◌, ◌*◌, ◌^◌, ◌<◌, ◌≤◌, true};
ghost use Rattle.tiles.specs.Cutting.{IsInBounds, IsWithin, IsWithinLimits, bounds_of, is_on_rim, tile_count};
ghost use Rattle.tiles.specs.RimNumbers.{stride, side_number, side_place, rim_number_count, rim_number, rim_place};

use crate::bounds::Bounds;
use crate::tiling::Tiling;
use terrain::Place;

impl Tiling {
    /// Returns how many rim numbers all tiles have together.
    pub fn rim_number_count(&self) -> u32
        ensures value { result ≡ rim_number_count self.now }
        ensures few { result ≤ 2 ^ 30 }
    {
        self.tiles() * self.bounds(0).side_count()
    }

    /// Returns the first rim number of a tile, and how many the tile has.
    pub fn rim_numbers_of(&self, tile: u32) -> (u32, u32)
        requires { tile < tile_count self.now }
        ensures first { result.0 ≡ tile * stride (bounds_of self.now 0) }
        ensures count { result.1 ≡ stride (bounds_of self.now 0) }
        ensures below { result.0 + result.1 ≤ rim_number_count self.now }
    {
        let count = self.bounds(0).side_count();
        (tile * count, count)
    }

    /// Returns the number of a rim cell. [`rim_place`](Self::rim_place) finds the cell by number.
    /// For a cell on no rim, returns the number of the last cell in its row of the tile.
    pub fn rim_number(&self, place: Place) -> u32
        requires { IsWithin self.now place }
        ensures value { result ≡ rim_number self.now place }
        ensures back { is_on_rim self.now place ≡ true → rim_place self.now result ≡ place }
        ensures below { result < rim_number_count self.now }
    {
        let tile = self.tile_of(place);
        let largest = self.bounds(0);
        tile * largest.side_count() + self.bounds(tile).side_number(largest, place)
    }

    /// Returns the rim cell of `number`.
    /// A number without a cell gives an arbitrary place, perhaps outside the grid.
    pub fn rim_place(&self, number: u32) -> Place
        requires { number < rim_number_count self.now }
        ensures { result ≡ rim_place self.now number }
    {
        let largest = self.bounds(0);
        let bounds = self.bounds(number / largest.side_count());
        bounds.side_place(largest, number % largest.side_count())
    }
}

impl Bounds {
    /// Returns how many rim numbers each tile has, if no tile is larger than `self`.
    pub fn side_count(self) -> u32
        requires { IsWithinLimits self }
        ensures value { result ≡ stride self }
        ensures few { result ≤ 2 ^ 14 }
    {
        2 * self.cols + 2 * self.rows
    }

    /// Returns the number, from 0, of the rim cell at `place` in its tile, `self`.
    /// No tile is larger than `largest`. Numbers run along the first row, the last row, the first
    /// column, then the last column.
    pub fn side_number(self, largest: Bounds, place: Place) -> u32
        requires largest { IsWithinLimits largest }
        requires limits { IsWithinLimits self }
        requires inside { IsInBounds self place }
        ensures { result ≡ side_number largest self place }
    {
        if place.row == self.top {
            place.col - self.left
        } else if place.row + 1 == self.top + self.rows {
            largest.cols + (place.col - self.left)
        } else if place.col == self.left {
            2 * largest.cols + (place.row - self.top)
        } else {
            2 * largest.cols + largest.rows + (place.row - self.top)
        }
    }

    /// Returns the rim cell whose [`side_number`](Self::side_number) is `number`.
    /// A number without a cell gives an arbitrary place, perhaps outside the tile.
    pub fn side_place(self, largest: Bounds, number: u32) -> Place
        requires largest { IsWithinLimits largest }
        requires limits { IsWithinLimits self }
        requires some { (1 ≤ self.rows) × (1 ≤ self.cols) }
        requires number { number < stride largest }
        ensures { result ≡ side_place largest self number }
    {
        let Bounds {
            top,
            left,
            rows,
            cols,
        } = self;
        if number < largest.cols {
            Place {
                row: top,
                col: left + number,
            }
        } else if number < 2 * largest.cols {
            Place {
                row: top + rows - 1,
                col: left + (number - largest.cols),
            }
        } else if number < 2 * largest.cols + largest.rows {
            Place {
                row: top + (number - 2 * largest.cols),
                col: left,
            }
        } else {
            Place {
                row: top + (number - (2 * largest.cols + largest.rows)),
                col: left + cols - 1,
            }
        }
    }
}
