//! Tests tilings: tiles, bounds, rims, outer neighbours, views, tile lists joined into one list.
ghost use Rattle.std.specs.Prelude.{◌≡◌, IfOk};
ghost use Rattle.tiles.specs.Cutting.{IsWithin};

use crate::texts::expect_numbers;
use std::alloc::Global;
use std::process::Abort;
use std::test::Fail;
use terrain::Place;
use tiles::{Bounds, TileView, Tiling, TilingFault};

const fn place(row: u32, col: u32) -> Place
    ensures { result ≡ record { row = row; col = col } }
{
    Place { row, col }
}

fn cut(rt: &impl Abort, cols: u32, rows: u32, side: u32) -> Tiling
    ensures { result ≡ record { cols = cols; rows = rows; side = side } }
{
    tiling(rt, cols, rows, side).expect(rt, "a tiling")
}

fn tiling(rt: &impl Abort, cols: u32, rows: u32, side: u32) -> Result<Tiling, TilingFault>
    ensures { IfOk result (λ t. t ≡ record { cols = cols; rows = rows; side = side }) }
{
    assert!(rt; 1 <= cols);
    assert!(rt; cols <= 4_096);
    assert!(rt; 1 <= rows);
    assert!(rt; rows <= 4_096);
    Tiling::new(cols, rows, side)
}

/// Returns a place, and asserts that it is in the grid.
fn place_in(rt: &impl Abort, tiling: &Tiling, row: u32, col: u32) -> Place
    ensures { IsWithin tiling.now result }
{
    assert!(rt; row < tiling.rows());
    assert!(rt; col < tiling.cols());
    place(row, col)
}

fn expect_tiles(rt: &impl Abort, cols: u32, rows: u32, side: u32, tiles: u32) {
    let tiling = cut(rt, cols, rows, side);
    assert_eq!(rt; tiling.tiles(), tiles, "{cols} by {rows}, side {side}");
    assert_eq!(rt; tiling.cols(), cols);
    assert_eq!(rt; tiling.rows(), rows);
}

#[test]
fn tile_counts(rt: HostRuntime) {
    expect_tiles(&rt, 256, 256, 1, 65_536);
    expect_tiles(&rt, 4_096, 4_096, 16, 65_536);
    expect_tiles(&rt, 4_096, 4_096, 4_096, 1);
    expect_tiles(&rt, 5, 3, 2, 6);
    expect_tiles(&rt, 1, 1, 1, 1);
}

fn refuses(rt: &impl Abort, cols: u32, rows: u32, side: u32, fault: TilingFault) {
    let refused = tiling(rt, cols, rows, side).err();
    assert_eq!(rt; refused, Some(fault), "{cols} by {rows}, side {side}");
}

#[test]
fn refused_tilings(rt: HostRuntime) {
    refuses(&rt, 257, 256, 1, TilingFault::TooManyTiles);
    refuses(&rt, 4_096, 4_096, 15, TilingFault::TooManyTiles);
    refuses(&rt, 5, 3, 0, TilingFault::BadSide);
    refuses(&rt, 5, 3, 4_097, TilingFault::BadSide);
    refuses(&rt, 4_096, 4_096, 0, TilingFault::BadSide);
}

#[test]
fn tiles_of_places(rt: HostRuntime) {
    let tiling = cut(&rt, 5, 3, 2);
    let tiles = [[0, 0, 1, 1, 2], [0, 0, 1, 1, 2], [3, 3, 4, 4, 5]];
    for row in 0..3 {
        for col in 0..5 {
            let tile = tiling.tile_of(place_in(&rt, &tiling, row, col));
            assert_eq!(rt;
                tile,
                tiles[row as usize][col as usize],
                "row {row}, column {col}"
            );
        }
    }
}

#[test]
fn smaller_tiles_at_the_ends(rt: HostRuntime) {
    let tiling = cut(&rt, 5, 3, 2);
    for (tile, top, left, rows, cols) in [
        (0, 0, 0, 2, 2),
        (1, 0, 2, 2, 2),
        (2, 0, 4, 2, 1),
        (3, 2, 0, 1, 2),
        (4, 2, 2, 1, 2),
        (5, 2, 4, 1, 1),
    ] {
        assert!(rt; tile < tiling.tiles());
        let bounds = Bounds {
            top,
            left,
            rows,
            cols,
        };
        assert_eq!(rt; tiling.bounds(tile), bounds, "tile {tile}");
    }
}

#[test]
fn rim_of_one_tile(rt: HostRuntime) {
    let tiling = cut(&rt, 4, 4, 4);
    for row in 0..4 {
        for col in 0..4 {
            let inside = (row == 1 || row == 2) && (col == 1 || col == 2);
            assert_eq!(rt;
                tiling.on_rim(place_in(&rt, &tiling, row, col)),
                !inside,
                "row {row}, column {col}"
            );
        }
    }
}

/// Appends a place to a text, as `(row,col)`.
fn push_place(rt: &impl Abort, alloc: Global, text: &mut String, place: Place) {
    let word = format!(in alloc; "({},{})", place.row, place.col).expect(rt, "a word");
    text.push_str(word.as_str()).expect(rt, "a text");
}

/// Asserts that the rim of a tile has these places, in this order.
fn has_rim(rt: &impl Abort, alloc: Global, tiling: &Tiling, tile: u32, rim: &str) {
    assert!(rt; tile < tiling.tiles());
    let mut walked = String::new(alloc);
    for next in tiling.rim(tile) {
        push_place(rt, alloc, &mut walked, next);
    }
    assert_eq!(rt; walked.as_str(), rim, "tile {tile}");
}

#[test]
fn rims_in_row_order(rt: HostRuntime) {
    let alloc = rt.alloc();
    let first = "(0,0)(0,1)(0,2)(1,0)(1,2)(2,0)(2,1)(2,2)";
    let alone = cut(&rt, 3, 3, 3);
    has_rim(&rt, alloc, &alone, 0, first);
    let tiling = cut(&rt, 5, 4, 3);
    has_rim(&rt, alloc, &tiling, 0, first);
    has_rim(&rt, alloc, &tiling, 1, "(0,3)(0,4)(1,3)(1,4)(2,3)(2,4)");
    has_rim(&rt, alloc, &tiling, 2, "(3,0)(3,1)(3,2)");
    has_rim(&rt, alloc, &tiling, 3, "(3,3)(3,4)");
}

#[test]
fn rim_of_one_cell_ends(rt: HostRuntime) {
    let tiling = cut(&rt, 5, 3, 2);
    let mut rim = tiling.rim(5);
    assert_eq!(rt; rim.next(), Some(place(2, 4)));
    assert_eq!(rt; rim.next(), None);
    assert_eq!(rt; rim.next(), None);
}

/// Asserts that a cell has this rim number, and that `rim_place` returns the cell for it.
fn has_rim_number(rt: &impl Abort, tiling: &Tiling, row: u32, col: u32, number: u32) {
    let place = place_in(rt, tiling, row, col);
    assert_eq!(rt; tiling.rim_number(place), number, "row {row}, column {col}");
    assert!(rt; number < tiling.rim_number_count());
    assert_eq!(rt; tiling.rim_place(number), place, "number {number}");
}

#[test]
fn rim_cells_numbered_tile_by_tile(rt: HostRuntime) {
    let tiling = cut(&rt, 5, 4, 3);
    assert_eq!(rt; tiling.rim_number_count(), 48);
    assert_eq!(rt; tiling.rim_numbers_of(3), (36, 12));
    for (row, col, number) in [
        (0, 1, 1),
        (2, 1, 4),
        (1, 0, 7),
        (1, 2, 10),
        (1, 4, 22),
        (3, 4, 37),
    ] {
        has_rim_number(&rt, &tiling, row, col, number);
    }
}

#[test]
fn cells_of_bounds_in_row_order(rt: HostRuntime) {
    let bounds = Bounds {
        top: 1,
        left: 2,
        rows: 3,
        cols: 4,
    };
    assert_eq!(rt; bounds.index_of(place(2, 5)), 7);
    assert_eq!(rt; bounds.place_at(7), place(2, 5));
    assert_eq!(rt; bounds.side_count(), 14);
}

/// Asserts which neighbours of a cell are in other tiles, in a grid of 5 by 3.
fn has_outer(rt: &impl Abort, alloc: Global, side: u32, row: u32, col: u32, outer: &str) {
    let tiling = cut(rt, 5, 3, side);
    let place = place_in(rt, &tiling, row, col);
    let mut found = String::new(alloc);
    for next in tiling.outer_neighbours(alloc, place).as_slice() {
        push_place(rt, alloc, &mut found, *next);
    }
    assert_eq!(rt; found.as_str(), outer, "row {row}, column {col}");
}

#[test]
fn neighbours_in_other_tiles(rt: HostRuntime) {
    let alloc = rt.alloc();
    has_outer(&rt, alloc, 2, 1, 1, "(1,2)(2,2)(2,1)(2,0)(0,2)");
    has_outer(&rt, alloc, 2, 2, 4, "(2,3)(1,3)(1,4)");
    has_outer(&rt, alloc, 2, 0, 0, "");
    let around = "(1,2)(2,2)(2,1)(2,0)(1,0)(0,0)(0,1)(0,2)";
    has_outer(&rt, alloc, 1, 1, 1, around);
}

/// Asserts that the view has this cell at a place, or no cell there for `None`.
fn shows(rt: &impl Abort, view: &TileView<'_, u32>, row: u32, col: u32, cell: Option<u32>) {
    let shown = view.at(place(row, col)).copied();
    assert_eq!(rt; shown, cell, "row {row}, column {col}");
}

#[test]
fn view_of_a_tile_and_around(rt: HostRuntime) {
    let tiling = cut(&rt, 5, 3, 2);
    let cells: [u32; 15] = [0, 1, 2, 3, 4, 10, 11, 12, 13, 14, 20, 21, 22, 23, 24];
    let view = tiling.view(&cells, 3);
    assert_eq!(rt; view.bounds().rows, 1);
    expect_numbers(&rt, view.row(0), &[20, 21]);
    for (row, col, cell) in [
        (1, 0, Some(10)),
        (1, 1, Some(11)),
        (1, 2, Some(12)),
        (2, 0, Some(20)),
        (2, 1, Some(21)),
        (2, 2, Some(22)),
        (0, 0, None),
        (1, 3, None),
        (2, 3, None),
        (3, 0, None),
        (u32::MAX, u32::MAX, None),
    ] {
        shows(&rt, &view, row, col, cell);
    }
}

#[test]
fn two_lists_put_back(rt: HostRuntime) -> Result<(), Fail> {
    let tiling = cut(&rt, 3, 1, 2);
    let alloc = rt.alloc();
    let lists = [
        Vec::from_slice(alloc, &[7, 8])?,
        Vec::from_slice(alloc, &[9])?,
    ];
    let whole = tiling.put_back(alloc, &lists)?;
    expect_numbers(&rt, &whole, &[7, 8, 9]);
    Ok(())
}

#[test]
fn six_lists_put_back(rt: HostRuntime) -> Result<(), Fail> {
    let tiling = cut(&rt, 5, 3, 2);
    let alloc = rt.alloc();
    let lists = [
        Vec::from_slice(alloc, &[0, 1, 10, 11])?,
        Vec::from_slice(alloc, &[2, 3, 12, 13])?,
        Vec::from_slice(alloc, &[4, 14])?,
        Vec::from_slice(alloc, &[20, 21])?,
        Vec::from_slice(alloc, &[22, 23])?,
        Vec::from_slice(alloc, &[24])?,
    ];
    let whole = tiling.put_back(alloc, &lists)?;
    let cells: [u32; 15] = [0, 1, 2, 3, 4, 10, 11, 12, 13, 14, 20, 21, 22, 23, 24];
    expect_numbers(&rt, &whole, &cells);
    Ok(())
}
