//! Numbers the labels of all tiles, and lists the heights of those that are end cells.
//!
//! Each tile has a table that lists its labels. Numbers count the entries of all tables from 0,
//! tile by tile. The first entry of each table, `None`, has a number too.
ghost use Rattle.std.specs.Prelude.{◌≡◌, ◌+◌, ◌<◌, ◌≤◌, IfOk, length, map, slice_index_or};
ghost use Rattle.std.specs.List.{flat_map};
ghost use Rattle.terrain.specs.Raster.{Terrain};
ghost use Rattle.fill.specs.Numbers.{AreFirsts, ends_of};
ghost use Rattle.fill.specs.SpillGraph.{AreFloods};

use cell_floods::TileFlood;
use std::alloc::{AllocError, Global};
use terrain::Cell;
use tiles::Tiling;

/// Returns the number of the first entry of each tile's table.
pub(crate) fn first_numbers(
    alloc: Global,
    tiling: &Tiling,
    floods: &[TileFlood],
) -> Result<Vec<u32>, AllocError>
    requires { (t : Terrain) × AreFloods t tiling.now floods.now }
    ensures { IfOk result (λ v. AreFirsts floods.now v.items) }
{
    let mut firsts = Vec::with_capacity(alloc, floods.len())?;
    let mut count = 0;
    for flood in floods {
        firsts.push(count as u32)?;
        count += flood.labels().count();
    }
    Ok(firsts)
}

/// Returns, by number, the height of each label that is an end cell.
/// Any other entry is no data.
pub(crate) fn label_ends(alloc: Global, floods: &[TileFlood]) -> Result<Vec<Cell>, AllocError>
    ensures { IfOk result (λ v. v.items ≡ ends_of floods.now) }
{
    let mut ends = Vec::new(alloc);
    for flood in floods {
        ends.extend_from_slice(flood.ends())?;
    }
    Ok(ends)
}
