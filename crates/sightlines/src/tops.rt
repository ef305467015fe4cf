//! The greatest heights of blocks of 16 by 16 and 128 by 128 cells: [`MaxHeights`].
ghost use Rattle.std.specs.Prelude.{◌≡◌, ◌<◌, ◌≤◌};
ghost use Rattle.sightlines.specs.Blocks.{blocks_in};

use terrain::{Cell, Height};

/// The side of a near block, in cells.
pub const NEAR_BLOCK: u32 = 16;

/// The side of a far block, in cells: 8 near blocks.
pub const FAR_BLOCK: u32 = 128;

/// The greatest heights of a grid's blocks, in row order, and a bound of all.
/// A list has a NODATA cell for a block without data.
#[derive(Drop)]
pub struct MaxHeights {
    /// The greatest heights of blocks of [`NEAR_BLOCK`] by [`NEAR_BLOCK`] cells.
    pub near: Vec<Cell>,
    /// The greatest heights of blocks of [`FAR_BLOCK`] by [`FAR_BLOCK`] cells.
    pub far: Vec<Cell>,
    /// A height which no cell of the grid exceeds.
    pub peak: Height,
}

/// Returns how many blocks, `size` cells wide, hold `cells` cells side by side.
#[inline(always)]
pub fn blocks_in(size: u32, cells: u32) -> usize
    requires size { (0 < size) × (size ≤ 4096) }
    requires cells { cells ≤ 4096 }
    ensures { result ≡ blocks_in size cells }
{
    ((cells + (size - 1)) / size) as usize
}
