//! Raises the levels of a tile's cells to their filled heights: [`raise`].
//!
//! A filled height is the greater of a cell's level and its label's least crest in the spill graph.
ghost use Rattle.std.specs.Prelude.{◌≡◌, ◌*◌, ℕ, List, Some, length, slice_get, IfOk, IfSome};
ghost use Rattle.terrain.specs.Raster.{Terrain};
ghost use Rattle.tiles.specs.Cutting.{IsWithin};
ghost use Rattle.cell_floods.specs.TileFlood.{Flood};
ghost use Rattle.fill.specs.Gathering.{LabelsInside};
ghost use Rattle.fill.specs.SpillGraph.{AreFloods, AreLeastCrests, IsRaised, IsFilledTile, greater_of, crest_of};

use crate::cell_labels::node_of;
use cell_floods::TileFlood;
use std::alloc::{AllocError, Global};
use terrain::{Height, NoMemory, Place};
use tiles::{Bounds, Tiling};

/// Returns the least crest of `label` in the spill graph; `None` for no label.
/// `levels` has the least crests, in row order of the grid; `None` for a node without one.
#[inline(always)]
fn crest(tiling: &Tiling, levels: &[Option<Height>], label: Option<Place>) -> Option<Height>
    requires size { length levels.now ≡ tiling.now.cols * tiling.now.rows }
    requires label { IfSome label (IsWithin tiling.now) }
    ensures { result ≡ crest_of tiling.now levels.now label }
{
    let label = label?;
    levels[node_of(tiling, label) as usize]
}

/// Returns the greater of a level and a least crest; `None` if either is `None`.
#[inline(always)]
fn greater(level: Option<Height>, crest: Option<Height>) -> Option<Height>
    ensures { result ≡ greater_of level crest }
{
    Some(level?.max(crest?))
}

/// Returns the raised heights of a tile, in its row order.
/// [`raise`] only calls this function: the longer contract of [`raise`] follows from the one here.
fn raised_by(
    alloc: Global,
    tiling: &Tiling,
    flood: &TileFlood,
    levels: &[Option<Height>],
) -> Result<Vec<Option<Height>>, AllocError>
    requires size { length levels.now ≡ tiling.now.cols * tiling.now.rows }
    requires labels { LabelsInside tiling.now flood.now }
    ensures { IfOk result (λ v. IsRaised tiling.now flood.now levels.now v.items) }
{
    let Bounds { rows, cols, .. } = flood.bounds();
    let count = rows as usize * cols as usize;
    let mut raised = Vec::with_capacity(alloc, count)?;
    for index in 0..count {
        let crest = crest(tiling, levels, flood.label_at(index));
        raised.push(greater(flood.level_at(index), crest))?;
    }
    Ok(raised)
}

/// Returns the filled heights of a tile, in its row order; `None` without data.
///
/// `levels` are those of the [`SpillGraph`](crate::SpillGraph) made from all floods, `flood` among
/// them.
///
/// # Errors
///
/// [`NoMemory`] if an allocation fails.
///
/// # Examples
///
/// ```ignore
/// let graph = SpillGraph::gather(alloc, &tiling, &floods)?;
/// let levels = graph.levels(alloc)?;
/// let heights = raise(alloc, &tiling, &floods[0], &levels)?;
/// ```
pub fn raise(
    alloc: Global,
    tiling: &Tiling,
    flood: &TileFlood,
    levels: &[Option<Height>],
) -> Result<Vec<Option<Height>>, NoMemory>
    requires size { length levels.now ≡ tiling.now.cols * tiling.now.rows }
    requires labels { LabelsInside tiling.now flood.now }
    ensures raised { IfOk result (λ v. IsRaised tiling.now flood.now levels.now v.items) }

    // The least crests of the spill graph raise a tile to its filled heights.
    ensures filled { IfOk result (λ v. (t : Terrain) (floods : List Flood) (tile : ℕ) →
        AreFloods t tiling.now floods → slice_get floods tile ≡ Some flood.now →
        AreLeastCrests t tiling.now floods levels.now → IsFilledTile t tiling.now tile v.items) }
{
    Ok(raised_by(alloc, tiling, flood, levels)?)
}
