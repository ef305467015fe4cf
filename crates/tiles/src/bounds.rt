//! [`Bounds`] has a tile's position and size. In the tile's row order it finds the place at an
//! index, and the index of a place.
ghost use Rattle.std.specs.Prelude.{◌≡◌, ◌*◌, ◌<◌};
ghost use Rattle.tiles.specs.Cutting.{is_first_or_last, index_in, place_in, IsInBounds, IsWithinLimits, is_in_bounds};

use terrain::Place;

/// The first row and column of a tile, and its size.
#[derive(Clone, Copy, Debug, PartialEq, Eq)]
pub struct Bounds {
    pub top: u32,
    pub left: u32,
    pub rows: u32,
    pub cols: u32,
}

impl Bounds {
    /// Returns whether `place` lies in these bounds.
    #[inline(always)]
    pub fn contains(self, place: Place) -> bool
        requires { IsWithinLimits self }
        ensures { result ≡ is_in_bounds self place }
    {
        self.top <= place.row
            && place.row < self.top + self.rows
            && self.left <= place.col
            && place.col < self.left + self.cols
    }

    /// Returns the index of `place` in the row order of these bounds.
    #[inline(always)]
    pub fn index_of(self, place: Place) -> usize
        requires limits { IsWithinLimits self }
        requires inside { IsInBounds self place }
        ensures value { result ≡ index_in self place }
        ensures below { result < self.rows * self.cols }
    {
        (place.row - self.top) as usize * self.cols as usize + (place.col - self.left) as usize
    }

    /// Returns the place at `index` in the row order of these bounds.
    #[inline(always)]
    pub fn place_at(self, index: u32) -> Place
        requires limits { IsWithinLimits self }
        requires below { index < self.rows * self.cols }
        ensures value { result ≡ place_in self index }
        ensures inside { IsInBounds self result }
    {
        Place {
            row: self.top + index / self.cols,
            col: self.left + index % self.cols,
        }
    }

    /// Returns whether `place` is in the first or last row or column of these bounds.
    #[inline(always)]
    pub(crate) fn is_first_or_last(self, place: Place) -> bool
        requires { IsInBounds self place }
        ensures { result ≡ is_first_or_last self place }
    {
        place.row == self.top
            || place.row - self.top + 1 == self.rows
            || place.col == self.left
            || place.col - self.left + 1 == self.cols
    }
}
