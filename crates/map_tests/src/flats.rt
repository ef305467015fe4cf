//! Counts the steps of flats by one round over one tile.
//! Before the round, only cells that drain at once have a count, 0.
ghost use Rattle.std.specs.Prelude.{◌≡◌, ◌*◌, ◌<◌, ◌↔◌, IfOk, IsTrue};
ghost use Rattle.terrain.specs.Raster.{Terrain};
ghost use Rattle.terrain.specs.Neighbours.{IsInside, Touches, index_of};
ghost use Rattle.tiles.specs.Cutting.{Cuts, tile_count};
ghost use Rattle.drain.specs.Beginning.{AreInitialCounts};
ghost use Rattle.drain.specs.Steps.{IsLower, HasLower, DrainsAtOnce};

use crate::ground::{PIT_OF_TWO, cut, land};
use crate::maps::agree;
use crate::refused::again;
use drain::flat_steps;
use std::alloc::{AllocError, Global};
use std::process::Abort;
use terrain::{Grid, NoMemory, Place};
use tiles::Tiling;

/// Returns the place at an index in row order.
fn place_at(grid: &Grid, index: u32) -> Place
    requires { index < grid.now.terrain.cols * grid.now.terrain.rows }
    ensures inside { IsInside grid.now.terrain result }
    ensures index { index_of grid.now.terrain.cols result ≡ index }
{
    let cols = grid.cols();
    Place {
        row: index / cols,
        col: index % cols,
    }
}

fn touch(place: Place, other: Place) -> bool
    ensures { IsTrue result ↔ Touches place other }
{
    place.row.abs_diff(other.row) <= 1 && place.col.abs_diff(other.col) <= 1
}

/// Returns whether `other` is a lower neighbour of `place`.
fn is_lower(grid: &Grid, place: Place, other: Place) -> bool
    requires place { IsInside grid.now.terrain place }
    requires other { IsInside grid.now.terrain other }
    ensures { IsTrue result ↔ IsLower grid.now.terrain place other }
{
    match (grid.at(place), grid.at(other)) {
        (Some(level), Some(height)) => height < level && touch(place, other),
        _ => false,
    }
}

fn has_lower(grid: &Grid, place: Place) -> bool
    requires { IsInside grid.now.terrain place }
    ensures { IsTrue result ↔ HasLower grid.now.terrain place }
{
    for index in 0..grid.cols() * grid.rows() {
        if is_lower(grid, place, place_at(grid, index)) {
            return true;
        }
    }
    false
}

fn drains_at_once(grid: &Grid, place: Place) -> bool
    requires { IsInside grid.now.terrain place }
    ensures { IsTrue result ↔ DrainsAtOnce grid.now.terrain place }
{
    grid.is_edge(place) || has_lower(grid, place)
}

/// Returns the initial counts: 0 at each cell that drains at once, elsewhere `None`.
fn begun(alloc: Global, grid: &Grid) -> Result<Vec<Option<u32>>, AllocError>
    ensures { IfOk result (λ v. AreInitialCounts grid.now.terrain v.items) }
{
    let mut counts = Vec::new(alloc);
    for index in 0..grid.cols() * grid.rows() {
        let place = place_at(grid, index);
        counts.push(drains_at_once(grid, place).then_some(0))?;
    }
    Ok(counts)
}

/// Returns the counts of a tile after one round, made from the initial counts `begun`.
fn round(
    alloc: Global,
    grid: &Grid,
    tiling: &Tiling,
    begun: &[Option<u32>],
    tile: u32,
) -> Result<Vec<Option<u32>>, NoMemory>
    ghost terrain: { Terrain }
    requires own { terrain ≡ grid.now.terrain }
    requires cuts { Cuts tiling.now terrain }
    requires begun { AreInitialCounts terrain begun.now }
    requires tile { tile < tile_count tiling.now }
{
    let levels = tiling.view(grid.cells(), tile);
    let steps = tiling.view(begun, tile);
    flat_steps(alloc, &levels, &steps)
}

/// Returns a tile's counts after one round from the grid's initial counts, for tiles of this side.
fn first_round(
    rt: &impl Abort,
    alloc: Global,
    grid: &Grid,
    side: u32,
    tile: u32,
) -> Vec<Option<u32>> {
    let tiling = cut(rt, grid, side);
    assert!(rt; tile < tiling.tiles(), "tile {tile} of side {side}");
    let begun = begun(alloc, grid).expect(rt, "the counts to begin with");
    again!(rt, round(alloc, grid, &tiling, &begun, tile))
}

#[test]
fn three_by_three_nines(rt: HostRuntime) {
    let alloc = rt.alloc();
    let nines = land(&rt, alloc, 3, 3, "9 9 9\n9 9 9\n9 9 9");
    let wanted = land(&rt, alloc, 3, 3, "0 0 0\n0 1 0\n0 0 0");
    assert!(rt; agree(&first_round(&rt, alloc, &nines, 3, 0), &wanted));
}

#[test]
fn rings_of_nines(rt: HostRuntime) {
    let alloc = rt.alloc();
    let nines = "9 9 9 9 9\n9 9 9 9 9\n9 9 9 9 9\n9 9 9 9 9\n9 9 9 9 9";
    let grid = land(&rt, alloc, 5, 5, nines);
    let rings = "0 0 0 0 0\n0 1 1 1 0\n0 1 2 1 0\n0 1 1 1 0\n0 0 0 0 0";
    let wanted = land(&rt, alloc, 5, 5, rings);
    assert!(rt; agree(&first_round(&rt, alloc, &grid, 5, 0), &wanted));
    // Tile 4 gets the counts of row 4 and column 4, which lie in other tiles, over its rim.
    let wanted = land(&rt, alloc, 2, 2, "2 1\n1 1");
    assert!(rt; agree(&first_round(&rt, alloc, &grid, 2, 4), &wanted));
}

/// One round counts all steps inside a tile: here up to 13, in one tile of the whole grid.
#[test]
fn flat_through_ten_tiles(rt: HostRuntime) {
    let alloc = rt.alloc();
    let winding =
        "9 9 9 9 9 9 9\n9 1 1 1 1 1 9\n9 9 9 9 9 1 9\n9 1 1 1 1 1 9\n9 1 9 9 9 9 9\n9 1 1 1 1 1 1\n9 9 9 9 9 9 9";
    let grid = land(&rt, alloc, 7, 7, winding);
    let steps =
        "0 0 0 0 0 0 0\n0 13 12 11 10 10 0\n0 0 0 0 0 9 0\n0 6 6 7 8 9 0\n0 5 0 0 0 0 0\n0 5 4 3 2 1 0\n0 0 0 0 0 0 0";
    let wanted = land(&rt, alloc, 7, 7, steps);
    assert!(rt; agree(&first_round(&rt, alloc, &grid, 7, 0), &wanted));
}

#[test]
fn sink_among_nines(rt: HostRuntime) {
    let alloc = rt.alloc();
    let nines = "9 9 9 9 9\n9 9 9 9 9\n9 9 9 9 9\n9 9 9 9 9\n9 9 9 9 9";
    let grid = land(&rt, alloc, 5, 5, nines);
    let grid = again!(&rt, grid.with_sinks(alloc, &[Place { row: 2, col: 2 }]));
    let rings = "0 0 0 0 0\n0 1 1 1 0\n0 1 0 1 0\n0 1 1 1 0\n0 0 0 0 0";
    let wanted = land(&rt, alloc, 5, 5, rings);
    assert!(rt; agree(&first_round(&rt, alloc, &grid, 5, 0), &wanted));
}

#[test]
fn hole_among_nines(rt: HostRuntime) {
    let alloc = rt.alloc();
    let nines = "9 9 9 9 9 9 9\n9 9 9 9 9 9 9\n9 -9999 9 9 9 9 9\n9 9 9 9 9 9 9\n9 9 9 9 9 9 9";
    let grid = land(&rt, alloc, 7, 5, nines);
    let counts = "0 0 0 0 0 0 0\n0 0 0 1 1 1 0\n0 -9999 0 1 2 1 0\n0 0 0 1 1 1 0\n0 0 0 0 0 0 0";
    let wanted = land(&rt, alloc, 7, 5, counts);
    assert!(rt; agree(&first_round(&rt, alloc, &grid, 7, 0), &wanted));
}

/// Only the lowest cell gets no count: the others are edge cells or have a lower neighbour.
#[test]
fn pits_as_read(rt: HostRuntime) {
    let alloc = rt.alloc();
    let pits = land(&rt, alloc, 4, 4, PIT_OF_TWO);
    let wanted = land(&rt, alloc, 4, 4, "0 0 0 0\n0 -9999 0 0\n0 0 0 0\n0 0 0 0");
    assert!(rt; agree(&first_round(&rt, alloc, &pits, 4, 0), &wanted));
}

#[test]
fn pits_filled(rt: HostRuntime) {
    let alloc = rt.alloc();
    let filled = land(&rt, alloc, 4, 4, "9 9 9 9\n9 3 9 9\n9 9 3 9\n9 9 9 3");
    let wanted = land(&rt, alloc, 4, 4, "0 0 0 0\n0 2 0 0\n0 0 1 0\n0 0 0 0");
    assert!(rt; agree(&first_round(&rt, alloc, &filled, 4, 0), &wanted));
    // The pit's cell in the first tile gets no count: its one neighbour of height 3 had none yet.
    let first = land(&rt, alloc, 2, 2, "0 0\n0 -9999");
    assert!(rt; agree(&first_round(&rt, alloc, &filled, 2, 0), &first));
    let last = land(&rt, alloc, 2, 2, "1 0\n0 0");
    assert!(rt; agree(&first_round(&rt, alloc, &filled, 2, 3), &last));
}
