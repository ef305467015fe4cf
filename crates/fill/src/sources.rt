//! Lists the sources of the spill graph, the labels that are end cells: [`label_sources`].
//!
//! Each tile's flood has the heights of those of its labels that are end cells. All are written
//! into one list by node: a place's index in row order of the grid.
ghost use Rattle.std.specs.Prelude.{◌≡◌, ◌*◌, IfOk, IfSome, length};
ghost use Rattle.tiles.specs.Cutting.{IsCutting, IsWithin};
ghost use Rattle.terrain.specs.Raster.{Terrain};
ghost use Rattle.cell_floods.specs.TileFlood.{IsFlood};
ghost use Rattle.fill.specs.Ends.{PutsEnds, put_end};
ghost use Rattle.fill.specs.Gathering.{LabelsInside};
ghost use Rattle.fill.specs.SpillGraph.{AreFloods, AreSourcesOf};

use crate::cell_labels::node_of;
use cell_floods::TileFlood;
use std::alloc::{AllocError, Global};
use terrain::{Cell, Height, Place};
use tiles::Tiling;

/// Writes the height of `end` at the node of `label`'s place.
/// Does nothing if `label` is `None` or `end` has no height.
#[inline(always)]
fn put_end(heights: &mut Vec<Option<Height>>, tiling: &Tiling, label: Option<Place>, end: Cell)
    requires label { IfSome label (IsWithin tiling.now) }
    requires size { length heights.old.items ≡ tiling.now.cols * tiling.now.rows }
    ensures { heights.new.items ≡ put_end tiling.now.cols label end heights.old.items }
{
    let Some(place) = label else {
        return;
    };
    let Some(height) = end.height() else {
        return;
    };
    heights[node_of(tiling, place) as usize] = Some(height);
}

/// Writes, at their nodes, the heights of a tile's labels that are end cells.
fn put_ends(heights: &mut Vec<Option<Height>>, tiling: &Tiling, flood: &TileFlood)
    requires labels { LabelsInside tiling.now flood.now }
    requires size { length heights.old.items ≡ tiling.now.cols * tiling.now.rows }
    requires ends { length flood.now.ends ≡ length flood.now.table.places }
    ensures puts { PutsEnds tiling.now flood.now heights.old.items heights.new.items }
    ensures lawful { IsFlood flood.now }
{
    let labels = flood.labels();
    let ends = flood.ends();
    for index in 0..labels.count() {
        put_end(heights, tiling, labels.place(index), ends[index]);
    }
}

/// Returns the height of each place that is a label and an end cell.
/// The list is in row order of the grid, with `None` for any other place.
pub(crate) fn label_sources(
    alloc: Global,
    tiling: &Tiling,
    floods: &[TileFlood],
) -> Result<Vec<Option<Height>>, AllocError>
    requires { (t : Terrain) × AreFloods t tiling.now floods.now }
    ensures size { IfOk result (λ v. length v.items ≡ tiling.now.cols * tiling.now.rows) }
    ensures right { IfOk result (λ v. (t : Terrain)
        → AreFloods t tiling.now floods.now → AreSourcesOf t tiling.now floods.now v.items) }
{
    let nodes = tiling.cols() * tiling.rows();
    let mut heights = vec![in alloc; None; nodes as usize]?;
    for flood in floods {
        put_ends(&mut heights, tiling, flood);
    }
    Ok(heights)
}
