//! The exits of all tiles, in tile order: [`ExitList`].
//!
//! Basins and catchments list tiles' exits, accumulation and `RimLinks` list flows with counts.
ghost use Rattle.std.specs.Prelude.{◌≡◌, ◌<◌, List, length, slice_get};
ghost use Rattle.flow.specs.TileFlow.{Flow};
ghost use Rattle.flow.specs.TileLinks.{without_counts};

use crate::tile::TileFlow;
use crate::tile_exits::TileExits;

/// A list of tiles' exits, in tile order.
pub(crate) trait ExitList {
    // The flow of each tile.
    ghost flows: { Self → List Flow };

    /// Returns the exits of a tile.
    fn of_tile(&self, tile: u32) -> &TileExits
        requires { tile < length (flows self.now) }
        ensures { (f : Flow) × (slice_get (flows self.now) tile ≡ Some f)
            × (without_counts result.now ≡ without_counts f) };
}

impl ExitList for Vec<TileExits> {
    ghost flows = { λ v. v.items };

    #[inline(always)]
    fn of_tile(&self, tile: u32) -> &TileExits {
        &self[tile as usize]
    }
}

impl ExitList for Vec<TileFlow> {
    ghost flows = { λ v. v.items };

    #[inline(always)]
    fn of_tile(&self, tile: u32) -> &TileExits {
        self[tile as usize].exits()
    }
}

impl<'a> ExitList for &'a [TileFlow] {
    ghost flows = { λ s. s.now };

    #[inline(always)]
    fn of_tile(&self, tile: u32) -> &TileExits {
        self[tile as usize].exits()
    }
}
