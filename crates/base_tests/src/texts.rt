//! Two grid texts with their cells, and checks of cells and numbers, for several test modules.
ghost use Rattle.std.specs.Prelude.{◌≡◌, ◌≤◌, IsTrue};

use ascii_grid::{Cell, Grid, Height, read_text};
use std::alloc::Global;
use std::process::Abort;

/// A text of 2 by 2 cells at scale 2, with CR LF, an exponent and NODATA.
pub const LENIENT: &[u8] =
    b"ncols         2\r\nnrows         2\r\nxllcenter     100.5\r\nyllcorner     -2E1\r\ncellsize      30.0\r\nNODATA_value  -3.40282346638528860e+38\r\n 12.50 -0.5\r\n -3.40282346638528860e+38 7\r\n";

/// The cells of [`LENIENT`].
pub const LENIENT_CELLS: [Option<Height>; 4] = [Some(1250), Some(-50), None, Some(700)];

/// A text of 3 by 3 cells: 9 around a 1.
pub const PIT: &[u8] = b"ncols 3 nrows 3 xllcorner 0 yllcorner 0 cellsize 1 9 9 9 9 1 9 9 9 9";

/// The cells of [`PIT`].
pub const PIT_CELLS: [Option<Height>; 9] = [
    Some(9),
    Some(9),
    Some(9),
    Some(9),
    Some(1),
    Some(9),
    Some(9),
    Some(9),
    Some(9),
];

/// Returns whether the cells have these heights, `None` for NODATA.
pub(crate) fn have_heights(cells: &[Cell], heights: &[Option<Height>]) -> bool
    ensures { IsTrue result → cells.now ≡ heights.now }
{
    if cells.len() != heights.len() {
        return false;
    }
    for index in 0..cells.len() {
        if cells[index].height() != heights[index] {
            return false;
        }
    }
    true
}

/// Returns the grid of a text, and asserts that it has these cells.
pub(crate) fn grid_of(
    rt: &impl Abort,
    alloc: Global,
    scale: u8,
    text: &[u8],
    cells: &[Option<Height>],
) -> Grid
    requires { scale ≤ 6 }
    ensures { result.terrain.cells ≡ cells.now }
{
    let grid = read_text(alloc, scale, text).expect(rt, "the text is a grid");
    assert!(rt; have_heights(grid.cells(), cells), "other cells");
    grid
}

pub(crate) fn expect_cells(rt: &impl Abort, found: &[Cell], wanted: &[Option<Height>]) {
    assert!(rt; have_heights(found, wanted), "{found:?} and {wanted:?}");
}

pub(crate) fn expect_numbers(rt: &impl Abort, found: &[u32], wanted: &[u32]) {
    assert_eq!(rt; found, wanted);
}
