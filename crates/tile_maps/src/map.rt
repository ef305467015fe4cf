//! Describes a map of a grid by the entries of each tile: [`TileMap`].
ghost use Rattle.std.specs.Prelude.{◌≡◌, ◌<◌, IfOk};
ghost use Rattle.terrain.specs.declared.place.Place.{Place};
ghost use Rattle.tiles.specs.Cutting.{Cutting, tile_count};
ghost use Rattle.tile_maps.specs.Maps.{IsMadeTile};

use std::alloc::Global;
use terrain::NoMemory;
use tiles::Tiling;

/// A map of a grid whose entries are made tile by tile. Worker threads share it.
pub trait TileMap {
    /// The map's value at a cell.
    type Entry;

    // The grid's size and the side of its tiles.
    ghost cutting: { Self → Cutting };

    // The map may have this entry at this place.
    ghost has: { Self → Place → Self.Entry → Type 0 };

    /// Returns the tiling of the grid.
    fn tiling(&self) -> Tiling
        ensures { result ≡ cutting self.now };

    /// Returns the map's entries in a tile, in the tile's row order.
    ///
    /// # Errors
    ///
    /// [`NoMemory`] if an allocation fails.
    fn tile(&self, alloc: Global, tile: u32) -> Result<Vec<Self::Entry>, NoMemory>
        requires { tile < tile_count (cutting self.now) }
        ensures { IfOk result
            (λ list. IsMadeTile (cutting self.now) tile (has self.now) list.items) };
}
