//! A place (the row and the column of a cell), and the type and the limits of heights.
ghost use Rattle.std.specs.Prelude.{◌≡◌};
ghost use Rattle.terrain.specs.Neighbours.{index_of};

/// A place in a grid: row from 0 at the north, column from 0 at the west.
#[derive(Clone, Copy, Debug, Default, PartialEq, Eq)]
pub struct Place {
    pub row: u32,
    pub col: u32,
}

impl Place {
    /// Returns the index in row order of this place in a grid of `cols` columns.
    #[inline(always)]
    pub fn index_in(self, cols: u32) -> usize
        ensures { result ≡ index_of cols self }
    {
        self.row as usize * cols as usize + self.col as usize
    }
}

/// A height in units: a unit is 10^-scale of the text's unit of height.
/// Heights are from [`LOWEST`] to [`HIGHEST`].
pub type Height = i64;

/// The least height, in units.
pub const LOWEST: Height = -1_000_000_000_000_000;

/// The greatest height, in units.
pub const HIGHEST: Height = 1_000_000_000_000_000;
