//! Tests filled heights, codes, accumulations and basins of small terrains.
//!
//! Expected values come from worked examples, or from a separate program that follows the
//! definitions.
use crate::ground::land;
use crate::maps::Maps;

#[test]
fn bowl_of_nines(rt: HostRuntime) {
    let maps = Maps {
        cols: 3,
        rows: 3,
        heights: "9 9 9\n9 1 9\n9 9 9",
        filled: "9 9 9\n9 9 9\n9 9 9",
        codes: "0 0 0\n0 1 0\n0 0 0",
        accumulation: "0 0 0\n0 0 1\n0 0 0",
        basins: "1 2 3\n4 5 5\n6 7 8",
    };
    maps.expect(&rt, rt.alloc());
}

#[test]
fn spills_over_the_least_crest(rt: HostRuntime) {
    let maps = Maps {
        cols: 5,
        rows: 5,
        heights: "9 9 7 9 9\n9 2 3 2 9\n9 3 1 4 5\n9 2 3 2 9\n9 9 9 9 9",
        filled: "9 9 7 9 9\n9 5 5 5 9\n9 5 5 5 5\n9 5 5 5 9\n9 9 9 9 9",
        codes: "2 4 4 4 8\n1 1 1 2 4\n1 1 1 1 0\n1 1 1 128 16\n128 64 64 64 32",
        accumulation: "0 0 0 0 0\n0 3 5 8 0\n0 1 2 3 24\n0 3 5 9 0\n0 0 0 0 0",
        basins: "1 1 1 1 1\n1 1 1 1 1\n1 1 1 1 1\n1 1 1 1 1\n1 1 1 1 1",
    };
    maps.expect(&rt, rt.alloc());
}

/// With tile sides 1, 2 and 3 the valley passes through corners of tiles.
#[test]
fn valley_across_tiles(rt: HostRuntime) {
    let maps = Maps {
        cols: 4,
        rows: 4,
        heights: "9 9 9 9\n9 1 9 9\n9 9 2 9\n9 9 9 3",
        filled: "9 9 9 9\n9 3 9 9\n9 9 3 9\n9 9 9 3",
        codes: "2 4 8 0\n1 2 4 8\n128 1 2 4\n0 128 1 0",
        accumulation: "0 0 0 0\n0 5 0 0\n0 0 10 0\n0 0 0 13",
        basins: "3 3 3 1\n3 3 3 3\n3 3 3 3\n2 3 3 3",
    };
    maps.expect(&rt, rt.alloc());
}

#[test]
fn flat_through_ten_tiles(rt: HostRuntime) {
    let winding =
        "9 9 9 9 9 9 9\n9 1 1 1 1 1 9\n9 9 9 9 9 1 9\n9 1 1 1 1 1 9\n9 1 9 9 9 9 9\n9 1 1 1 1 1 1\n9 9 9 9 9 9 9";
    let maps = Maps {
        cols: 7,
        rows: 7,
        heights: winding,
        filled: winding,
        codes: "2 4 4 4 4 4 8\n1 1 1 1 2 4 16\n2 4 4 4 1 8 16\n1 4 8 16 16 16 16\n1 2 4 4 4 4 4\n1 1 1 1 1 1 0\n128 64 64 64 64 64 64",
        accumulation: "0 0 0 0 0 0 0\n0 3 5 7 9 3 0\n0 0 0 0 0 16 0\n0 3 23 21 19 1 0\n0 29 0 0 0 0 0\n0 3 36 39 42 45 48\n0 0 0 0 0 0 0",
        basins: "1 1 1 1 1 1 1\n1 1 1 1 1 1 1\n1 1 1 1 1 1 1\n1 1 1 1 1 1 1\n1 1 1 1 1 1 1\n1 1 1 1 1 1 1\n1 1 1 1 1 1 1",
    };
    maps.expect(&rt, rt.alloc());
}

#[test]
fn hole_without_data(rt: HostRuntime) {
    let ring = "9 9 9 9 9\n9 3 3 3 9\n9 3 -9999 3 9\n9 3 3 3 9\n9 9 9 9 9";
    let maps = Maps {
        cols: 5,
        rows: 5,
        heights: ring,
        filled: ring,
        codes: "2 4 4 4 8\n1 0 0 0 16\n1 0 -9999 0 16\n1 0 0 0 16\n128 64 64 64 32",
        accumulation: "0 0 0 0 0\n0 3 1 3 0\n0 1 -9999 1 0\n0 3 1 3 0\n0 0 0 0 0",
        basins: "1 1 2 3 3\n1 1 2 3 3\n4 4 -9999 5 5\n6 6 7 8 8\n6 6 7 8 8",
    };
    maps.expect(&rt, rt.alloc());
}

/// A drop of 5 east beats 7 south-east; a drop of 10 south-east beats 7 east.
#[test]
fn sides_against_corners(rt: HostRuntime) {
    let side = "20 20 20\n20 20 15\n20 20 13";
    let maps = Maps {
        cols: 3,
        rows: 3,
        heights: side,
        filled: side,
        codes: "0 2 4\n0 1 4\n0 1 0",
        accumulation: "0 0 0\n0 0 3\n0 0 5",
        basins: "1 4 4\n2 4 4\n3 4 4",
    };
    maps.expect(&rt, rt.alloc());
    let corner = "20 20 20\n20 20 13\n20 20 10";
    let maps = Maps {
        cols: 3,
        rows: 3,
        heights: corner,
        filled: corner,
        codes: "0 2 4\n0 2 4\n0 1 0",
        accumulation: "0 0 0\n0 0 2\n0 0 5",
        basins: "1 4 4\n2 4 4\n3 4 4",
    };
    maps.expect(&rt, rt.alloc());
}

#[test]
fn slope(rt: HostRuntime) {
    let east = "6 5 4 3 2 1\n7 7 7 7 7 7";
    let maps = Maps {
        cols: 6,
        rows: 2,
        heights: east,
        filled: east,
        codes: "1 1 1 1 1 0\n128 128 64 64 64 64",
        accumulation: "0 2 5 7 9 11\n0 0 0 0 0 0",
        basins: "1 1 1 1 1 1\n1 1 1 1 1 1",
    };
    maps.expect(&rt, rt.alloc());
}

/// With tile sides 3, 4 and 7, the river leaves the first tile and returns to it.
#[test]
fn river_that_comes_back(rt: HostRuntime) {
    let river = "24 23 22 21 20 19 18 17\n30 30 30 30 30 30 30 16\n8 9 10 11 12 13 14 15";
    let maps = Maps {
        cols: 8,
        rows: 3,
        heights: river,
        filled: river,
        codes: "1 1 1 1 1 1 2 4\n4 4 4 4 4 4 4 8\n0 16 16 16 16 16 16 16",
        accumulation: "0 1 2 3 4 5 6 0\n0 0 0 0 0 0 0 8\n23 21 19 17 15 13 11 0",
        basins: "1 1 1 1 1 1 1 1\n1 1 1 1 1 1 1 1\n1 1 1 1 1 1 1 1",
    };
    maps.expect(&rt, rt.alloc());
}

#[test]
fn greatest_drops(rt: HostRuntime) {
    let peaks =
        "1000000000000000 -1000000000000000 1000000000000000\n-1000000000000000 1000000000000000 1000000000000000";
    let maps = Maps {
        cols: 3,
        rows: 2,
        heights: peaks,
        filled: peaks,
        codes: "1 0 16\n0 16 32",
        accumulation: "0 3 0\n1 0 0",
        basins: "1 1 1\n2 2 1",
    };
    maps.expect(&rt, rt.alloc());
}

/// Of drops of 7e14 east and 10e14 south-east, the squared slopes are as 98 to 100.
#[test]
fn great_drops_compared(rt: HostRuntime) {
    let slope =
        "1000000000000000 1000000000000000 1000000000000000\n1000000000000000 1000000000000000 300000000000000\n1000000000000000 1000000000000000 0";
    let maps = Maps {
        cols: 3,
        rows: 3,
        heights: slope,
        filled: slope,
        codes: "0 2 4\n0 2 4\n0 1 0",
        accumulation: "0 0 0\n0 0 2\n0 0 5",
        basins: "1 4 4\n2 4 4\n3 4 4",
    };
    maps.expect(&rt, rt.alloc());
}

#[test]
fn level_ground(rt: HostRuntime) {
    let maps = Maps {
        cols: 4,
        rows: 2,
        heights: "5 5 5 5\n5 5 5 5",
        filled: "5 5 5 5\n5 5 5 5",
        codes: "0 0 0 0\n0 0 0 0",
        accumulation: "0 0 0 0\n0 0 0 0",
        basins: "1 2 3 4\n5 6 7 8",
    };
    maps.expect(&rt, rt.alloc());
}

/// With tile sides 1 to 4, outlets are counted in runs of 16 codes. The first 16 cells of terrain
/// `level` are all outlets, those of `pairs` none. `pairs` has a river along row 0 and a ridge in
/// row 1. Row 2 has pairs of cells, and the eastern cell of each pair is an outlet.
#[test]
fn outlets_of_several_runs(rt: HostRuntime) {
    let fives =
        "5 5 5 5 5 5 5 5 5 5 5 5 5 5 5 5 5 5 5 5\n5 5 5 5 5 5 5 5 5 5 5 5 5 5 5 5 5 5 5 5\n5 5 5 5 5 5 5 5 5 5 5 5 5 5 5 5 5 5 5 5";
    let level = Maps {
        cols: 20,
        rows: 3,
        heights: fives,
        filled: fives,
        codes: "0 0 0 0 0 0 0 0 0 0 0 0 0 0 0 0 0 0 0 0\n0 2 2 2 2 2 2 2 2 2 2 2 2 2 2 2 2 2 1 0\n0 0 0 0 0 0 0 0 0 0 0 0 0 0 0 0 0 0 0 0",
        accumulation: "0 0 0 0 0 0 0 0 0 0 0 0 0 0 0 0 0 0 0 0\n0 0 0 0 0 0 0 0 0 0 0 0 0 0 0 0 0 0 0 1\n0 0 1 1 1 1 1 1 1 1 1 1 1 1 1 1 1 1 1 0",
        basins: "1 2 3 4 5 6 7 8 9 10 11 12 13 14 15 16 17 18 19 20\n21 25 26 27 28 29 30 31 32 33 34 35 36 37 38 39 40 41 22 22\n23 24 25 26 27 28 29 30 31 32 33 34 35 36 37 38 39 40 41 42",
    };
    level.expect(&rt, rt.alloc());
    let ridge =
        "40 39 38 37 36 35 34 33 32 31 30 29 28 27 26 25 24 23 22 21\n50 50 50 50 50 50 50 50 50 50 50 50 50 50 50 50 50 50 50 50\n2 1 2 1 2 1 2 1 2 1 2 1 2 1 2 1 2 1 2 1";
    let pairs = Maps {
        cols: 20,
        rows: 3,
        heights: ridge,
        filled: ridge,
        codes: "1 1 1 1 1 1 1 1 1 1 1 1 1 1 1 1 1 1 1 0\n4 4 4 4 4 4 4 4 4 4 4 4 4 4 4 4 4 4 4 4\n1 0 1 0 1 0 1 0 1 0 1 0 1 0 1 0 1 0 1 0",
        accumulation: "0 1 2 3 4 5 6 7 8 9 10 11 12 13 14 15 16 17 18 19\n0 0 0 0 0 0 0 0 0 0 0 0 0 0 0 0 0 0 0 0\n1 3 1 3 1 3 1 3 1 3 1 3 1 3 1 3 1 3 1 3",
        basins: "1 1 1 1 1 1 1 1 1 1 1 1 1 1 1 1 1 1 1 1\n2 2 3 3 4 4 5 5 6 6 7 7 8 8 9 9 10 10 11 11\n2 2 3 3 4 4 5 5 6 6 7 7 8 8 9 9 10 10 11 11",
    };
    pairs.expect(&rt, rt.alloc());
}

#[test]
fn one_cell_and_none(rt: HostRuntime) {
    let one = Maps {
        cols: 1,
        rows: 1,
        heights: "5",
        filled: "5",
        codes: "0",
        accumulation: "0",
        basins: "1",
    };
    one.expect(&rt, rt.alloc());
    let land = land(&rt, rt.alloc(), 1, 1, one.heights);
    one.expect_cut(&rt, rt.alloc(), &land, 1, 64);
    let none = Maps {
        cols: 2,
        rows: 1,
        heights: "-9999 -9999",
        filled: "-9999 -9999",
        codes: "-9999 -9999",
        accumulation: "-9999 -9999",
        basins: "-9999 -9999",
    };
    none.expect(&rt, rt.alloc());
}
