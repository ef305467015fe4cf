//! Builds, cuts and compares small grids for the other tests.
ghost use Rattle.tiles.specs.Cutting.{Cuts};

use ascii_grid::read_text;
use std::alloc::Global;
use std::process::Abort;
use terrain::{Cell, Grid, Height};
use tiles::Tiling;

/// A pit of two cells on the diagonal of 4 by 4 cells, which spills at height 3.
pub(crate) const PIT_OF_TWO: &str = "9 9 9 9\n9 1 9 9\n9 9 2 9\n9 9 9 3";

/// Returns a grid of these whole heights; -9999 is NODATA.
pub(crate) fn land(rt: &impl Abort, alloc: Global, cols: u32, rows: u32, heights: &str) -> Grid {
    let text = format!(in alloc;
        "ncols {cols}\nnrows {rows}\nxllcorner 0\nyllcorner 0\ncellsize 1\n{heights}\n"
    );
    let text = text.expect(rt, "a text");
    read_text(alloc, 0, text.as_bytes()).expect(rt, "a grid")
}

pub(crate) fn cut(rt: &impl Abort, grid: &Grid, side: u32) -> Tiling
    ensures { Cuts result grid.now.terrain }
{
    Tiling::new(grid.cols(), grid.rows(), side).expect(rt, "a tiling")
}

pub(crate) fn heights_of(rt: &impl Abort, alloc: Global, cells: &[Cell]) -> Vec<Option<Height>> {
    let mut heights = Vec::new(alloc);
    for cell in cells {
        heights.push(cell.height()).expect(rt, "heights");
    }
    heights
}

/// Asserts that the heights are these whole numbers; -9999 is NODATA.
pub(crate) fn expect_heights(
    rt: &impl Abort,
    alloc: Global,
    found: &[Option<Height>],
    cols: u32,
    rows: u32,
    heights: &str,
) {
    let wanted = land(rt, alloc, cols, rows, heights);
    assert_eq!(rt; found, heights_of(rt, alloc, wanted.cells()).as_slice());
}

/// Asserts that cells have these whole heights; -9999 is NODATA.
pub(crate) fn expect_cells(
    rt: &impl Abort,
    alloc: Global,
    cells: &[Cell],
    cols: u32,
    rows: u32,
    heights: &str,
) {
    let wanted = land(rt, alloc, cols, rows, heights);
    assert_eq!(rt; cells, wanted.cells());
}
