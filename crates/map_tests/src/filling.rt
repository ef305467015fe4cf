//! Floods tiles for levels and labels, gathers their spill graph, and fills a grid.
//!
//! Under `rt try --fail-alloc` a call may be refused memory.
ghost use Rattle.std.specs.Prelude.{IfOk};
ghost use Rattle.terrain.specs.Raster.{Terrain};
ghost use Rattle.fill.specs.SpillGraph.{AreFloods};
ghost use Rattle.tiles.specs.Cutting.{Cuts};

use crate::ground::{cut, expect_cells, expect_heights, land};
use crate::refused::again;
use crate::stages::filled_grid;
use fill::{SpillGraph, TileFlood, tile_flood};
use std::alloc::{AllocError, Global};
use std::process::Abort;
use std::sync::Wait;
use std::thread::Threads;
use terrain::{Grid, Height, NoMemory, Place};
use tile_jobs::JobFault;
use tiles::Tiling;

/// A valley through two tiles of side 3, which spills at height 6 in the east.
const VALLEY: &str = "9 9 9 9 9 9\n9 1 5 4 1 6\n9 9 9 9 9 9";

const FILLED: &str = "9 9 9 9 9 9\n9 6 6 6 6 6\n9 9 9 9 9 9";

pub(crate) fn floods_of(
    alloc: Global,
    grid: &Grid,
    tiling: &Tiling,
) -> Result<Vec<TileFlood>, NoMemory>
    requires { Cuts tiling.now grid.now.terrain }
    ensures { IfOk result (λ v. AreFloods grid.now.terrain tiling.now v.items) }
{
    let mut floods = Vec::new(alloc);
    for tile in 0..tiling.tiles() {
        let flood = tile_flood(alloc, &tiling.view(grid.cells(), tile), grid.sinks())?;
        if floods.push(flood).is_err() {
            return Err(NoMemory);
        }
    }
    Ok(floods)
}

/// Returns the levels of a tile, in its row order.
fn levels_of(alloc: Global, flood: &TileFlood) -> Result<Vec<Option<Height>>, AllocError> {
    let bounds = flood.bounds();
    let mut levels = Vec::new(alloc);
    for row in bounds.top..bounds.top + bounds.rows {
        for col in bounds.left..bounds.left + bounds.cols {
            levels.push(flood.level(Place { row, col }))?;
        }
    }
    Ok(levels)
}

fn expect_floods(rt: &impl Abort, alloc: Global, floods: &[TileFlood]) {
    assert_eq!(rt; floods.len(), 2);
    let first = levels_of(alloc, &floods[0]).expect(rt, "levels");
    expect_heights(rt, alloc, &first, 3, 3, "9 9 9\n9 5 5\n9 9 9");
    let second = levels_of(alloc, &floods[1]).expect(rt, "levels");
    expect_heights(rt, alloc, &second, 3, 3, "9 9 9\n4 4 6\n9 9 9");
    let west = Place { row: 1, col: 2 };
    let east = Place { row: 1, col: 3 };
    assert_eq!(rt; floods[0].label(Place { row: 1, col: 1 }), Some(west));
    assert_eq!(rt; floods[1].label(Place { row: 1, col: 4 }), Some(east));
    assert_eq!(rt; floods[1].level(west), None);
}

/// Returns the filled height at each label, `None` at other cells, in row order.
pub(crate) fn label_levels(
    rt: &impl Abort,
    alloc: Global,
    tiling: &Tiling,
    floods: &[TileFlood],
) -> Vec<Option<Height>>
    requires { (t : Terrain) × AreFloods t tiling.now floods.now }
{
    let graph = again!(rt, SpillGraph::gather(alloc, tiling, floods));
    again!(rt, graph.levels(alloc))
}

fn expect_levels(rt: &impl Abort, levels: &[Option<Height>]) {
    assert_eq!(rt; levels.len(), 18);
    let middle = [None, Some(6), Some(6)];
    assert_eq!(rt; levels.get(7..10), Some(middle.as_slice()));
}

#[test]
fn valley_through_two_tiles(rt: HostRuntime) {
    let alloc = rt.alloc();
    let grid = land(&rt, alloc, 6, 3, VALLEY);
    let tiling = cut(&rt, &grid, 3);
    let floods = floods_of(alloc, &grid, &tiling).expect(&rt, "floods");
    expect_floods(&rt, alloc, &floods);
    expect_levels(&rt, &label_levels(&rt, alloc, &tiling, &floods));
    let level = filled_grid(&rt, alloc, &grid, &tiling, 2).expect(&rt, "filled heights");
    expect_cells(&rt, alloc, level.grid().cells(), 6, 3, FILLED);
}

/// Asserts the filled heights of the valley, for tiles of this side.
/// With `rt try --fail-alloc`, filling may also be refused memory.
fn expect_filled_or_refused<R: Abort + Threads + Wait + Sync>(rt: &R, alloc: Global, side: u32) {
    let grid = land(rt, alloc, 6, 3, VALLEY);
    let tiling = cut(rt, &grid, side);
    match filled_grid(rt, alloc, &grid, &tiling, 1) {
        Ok(level) => expect_cells(rt, alloc, level.grid().cells(), 6, 3, FILLED),
        Err(fault) => assert_eq!(rt; fault, JobFault::Memory),
    }
}

/// With tiles of side 3, the first tile's two low cells have one label.
/// That label has joins inside the tile and over its rim.
#[test]
fn refused_memory_is_told(rt: HostRuntime) {
    expect_filled_or_refused(&rt, rt.alloc(), 3);
}

/// With tiles of side 1 each cell is its own label, so tiles have no joins inside.
#[test]
fn refused_memory_of_single_cells_is_told(rt: HostRuntime) {
    expect_filled_or_refused(&rt, rt.alloc(), 1);
}
