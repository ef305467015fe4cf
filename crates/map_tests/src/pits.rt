//! Makes calls that allocate, on a grid with a pit.
//! `again!` repeats a call that was refused memory.
ghost use Rattle.std.specs.Prelude.{◌≡◌, ◌<◌, ◌*◌, length};
ghost use Rattle.fill.specs.SpillGraph.{AreFloods};

use crate::filling::{floods_of, label_levels};
use crate::flows::{expect_links, flow_of, flows_of};
use crate::ground::{PIT_OF_TWO, cut, expect_heights, land};
use crate::refused::again;
use crate::stages::{directions_of, filled_grid};
use fill::{CellNet, TileFlood, flood, raise, tile_flood};
use std::alloc::Global;
use std::process::Abort;
use terrain::{Grid, Height, NoMemory, Place};
use tiles::Tiling;

const C: Option<Height> = Some(3);

const H: Option<Height> = Some(9);

/// [`PIT_OF_TWO`] filled, with NODATA around it as in a net of cells.
const FILLED_IN_NET: &str = "-9999 -9999 -9999 -9999 -9999 -9999\n\
    -9999 9 9 9 9 -9999\n\
    -9999 9 3 9 9 -9999\n\
    -9999 9 9 3 9 -9999\n\
    -9999 9 9 9 3 -9999\n\
    -9999 -9999 -9999 -9999 -9999 -9999";

fn pits(rt: &impl Abort, alloc: Global) -> Grid {
    land(rt, alloc, 4, 4, PIT_OF_TWO)
}

#[test]
fn cells_of_tiles(rt: HostRuntime) {
    let alloc = rt.alloc();
    let tiling = Tiling::new(4, 4, 2).expect(&rt, "a tiling");
    let lists = [
        Vec::from_slice(alloc, &[H, H, H, Some(1)]).expect(&rt, "a list"),
        Vec::from_slice(alloc, &[H, H, H, H]).expect(&rt, "a list"),
        Vec::from_slice(alloc, &[H, H, H, H]).expect(&rt, "a list"),
        Vec::from_slice(alloc, &[Some(2), H, H, C]).expect(&rt, "a list"),
    ];
    let whole = again!(&rt, tiling.put_back(alloc, &lists));
    expect_heights(&rt, alloc, &whole, 4, 4, PIT_OF_TWO);
}

#[test]
fn cells_of_a_grid(rt: HostRuntime) {
    let alloc = rt.alloc();
    let pits = pits(&rt, alloc);
    let copy = again!(&rt, pits.with_cells(alloc, pits.cells()));
    assert_eq!(rt; copy.cells(), pits.cells());
}

#[test]
fn flood_of_the_grid(rt: HostRuntime) {
    let alloc = rt.alloc();
    let net = again!(&rt, CellNet::of_grid(alloc, &pits(&rt, alloc)));
    let flooded = again!(&rt, flood(alloc, &net));
    expect_heights(&rt, alloc, &flooded.level, 6, 6, FILLED_IN_NET);
    assert_eq!(rt; flooded.label.get(14), Some(&Some(28)));
}

/// Returns the filled heights of the first tile.
fn raise_first(
    alloc: Global,
    grid: &Grid,
    tiling: &Tiling,
    floods: &[TileFlood],
    levels: &[Option<Height>],
) -> Result<Vec<Option<Height>>, NoMemory>
    requires some { 0 < length floods.now }
    requires floods { AreFloods grid.now.terrain tiling.now floods.now }
    requires size { length levels.now ≡ tiling.now.cols * tiling.now.rows }
{
    raise(alloc, tiling, &floods[0], levels)
}

#[test]
fn flood_of_the_last_tile(rt: HostRuntime) {
    let alloc = rt.alloc();
    let pits = pits(&rt, alloc);
    let tiling = cut(&rt, &pits, 2);
    assert_eq!(rt; tiling.tiles(), 4);
    let last = again!(&rt, tile_flood(alloc, &tiling.view(pits.cells(), 3), &[]));
    let place = Place { row: 2, col: 2 };
    assert_eq!(rt; last.level(place), Some(2));
    assert_eq!(rt; last.label(place), Some(place));
}

#[test]
fn floods_of_tiles_and_their_graph(rt: HostRuntime) {
    let alloc = rt.alloc();
    let pits = pits(&rt, alloc);
    let tiling = cut(&rt, &pits, 2);
    let floods = floods_of(alloc, &pits, &tiling).expect(&rt, "floods");
    assert_eq!(rt; (floods.len(), tiling.tiles()), (4, 4));
    let levels = label_levels(&rt, alloc, &tiling, &floods);
    expect_heights(
        &rt,
        alloc,
        &levels,
        4,
        4,
        "9 9 9 9\n9 3 9 9\n9 9 3 9\n9 9 9 3",
    );
    assert!(rt; levels.len() == tiling.cols() as usize * tiling.rows() as usize);
    let raised = again!(&rt, raise_first(alloc, &pits, &tiling, &floods, &levels));
    expect_heights(&rt, alloc, &raised, 2, 2, "9 9\n9 3");
}

#[test]
fn flows_of_tiles_and_their_links(rt: HostRuntime) {
    let alloc = rt.alloc();
    let pits = pits(&rt, alloc);
    let tiling = cut(&rt, &pits, 2);
    let level = filled_grid(&rt, alloc, &pits, &tiling, 1).expect(&rt, "filled heights");
    let ways = directions_of(&rt, alloc, &level, &tiling, 1).expect(&rt, "directions");
    let flows = flows_of(alloc, &tiling, &ways).expect(&rt, "flows");
    assert_eq!(rt; (flows.len(), tiling.tiles()), (4, 4));
    let first = again!(&rt, flow_of(alloc, &tiling, &ways, 0));
    let pit = Place { row: 1, col: 1 };
    assert_eq!(rt; (first.exit(pit), first.through(pit)), (Some(pit), Some(3)));
    let next = Place { row: 2, col: 2 };
    let outlet = Place { row: 3, col: 3 };
    let wanted = [(pit, (2, Some(outlet))), (next, (10, None))];
    expect_links(&rt, alloc, &tiling, &ways, &flows, wanted);
}
