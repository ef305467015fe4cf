//! Lists the joins that the floods of tiles found, and those over the tiles' rims: [`found_joins`].
//!
//! A join gives a label by its number, which counts the entries of all tiles' tables of labels.
//! They are enough for the least crest of each label, but no contract says that.
ghost use Rattle.std.specs.Prelude.{◌≡◌, ◌+◌, ◌≤◌, ◌++◌, IfOk, OnOk, map};
ghost use Rattle.std.specs.List.{All};
ghost use Rattle.terrain.specs.Raster.{Terrain};
ghost use Rattle.fill.specs.Crests.{AreMet, ArePassages, numbered};
ghost use Rattle.fill.specs.Numbers.{places_of};
ghost use Rattle.fill.specs.SpillGraph.{AreFloods};

use crate::cell_labels::NumberedFloods;
use crate::rim_joins::push_rim_joins;
use crate::spill_graph::Join;
use cell_floods::Meeting;
use std::alloc::{AllocError, Global};

/// Adds the meetings of one tile, with numbers for the indexes of labels.
/// A label's number is its index in the tile's table plus `first`.
fn push_meetings(joins: &mut Vec<Join>, first: u32, meetings: &[Meeting]) -> Result<(), AllocError>
    requires { All (λ m. (first + m.from ≤ 4294967295) × (first + m.to ≤ 4294967295)) meetings.now }
    ensures { OnOk result
        (joins.new.items ≡ joins.old.items ++ map (numbered first) meetings.now) }
{
    for meeting in meetings {
        joins.push(Join {
            from: first + meeting.from,
            to: first + meeting.to,
            height: meeting.level,
        })?;
    }
    Ok(())
}

/// Returns joins of labels inside tiles and over rims.
/// `meetings` has those that the flood of each tile found.
pub(crate) fn found_joins(
    alloc: Global,
    tiles: &NumberedFloods<'_>,
    meetings: &[Vec<Meeting>],
) -> Result<Vec<Join>, AllocError>
    requires { (t : Terrain) × AreFloods t tiles.now.tiling.now tiles.now.floods.now
        × AreMet t tiles.now.floods.now meetings.now }
    ensures { IfOk result (λ v. (t : Terrain)
        → AreFloods t tiles.now.tiling.now tiles.now.floods.now
        → AreMet t tiles.now.floods.now meetings.now
        → ArePassages t (places_of tiles.now.floods.now) v.items) }
{
    let mut joins = Vec::new(alloc);
    for tile in 0..tiles.tiling.tiles() {
        let index = tile as usize;
        push_meetings(&mut joins, tiles.firsts[index], &meetings[index])?;
        push_rim_joins(&mut joins, tiles, tile)?;
    }
    Ok(joins)
}
