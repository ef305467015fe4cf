//! Tests catchments of gauges on small terrains.
//!
//! Expected values come from worked examples, or from a separate program that follows the
//! definition.
use crate::ground::{PIT_OF_TWO, cut, land};
use crate::maps::{agree, values_of};
use crate::stages::{directions_of, filled_grid};
use flow::{GaugeFault, MOST_GAUGES, catchments};
use std::alloc::Global;
use std::process::Abort;
use std::sync::Wait;
use std::thread::Threads;
use terrain::{Count, Grid, Place};
use tile_jobs::{JobFault, NoGate};

/// Pairs of a tile side and a number of workers.
const CUTS: [(u32, u32); 9] = [
    (1, 1),
    (1, 8),
    (2, 1),
    (2, 2),
    (2, 8),
    (4, 1),
    (4, 2),
    (256, 1),
    (256, 2),
];

/// A flat that winds through ten tiles of side 2 to one outlet.
const WINDING: &str =
    "9 9 9 9 9 9 9\n9 1 1 1 1 1 9\n9 9 9 9 9 1 9\n9 1 1 1 1 1 9\n9 1 9 9 9 9 9\n9 1 1 1 1 1 1\n9 9 9 9 9 9 9";

fn place(row: u32, col: u32) -> Place {
    Place { row, col }
}

fn find_catchments<R: Abort + Threads + Wait + Sync>(
    rt: &R,
    alloc: Global,
    land: &Grid,
    gauges: &[Place],
    side: u32,
    workers: u32,
) -> Result<Vec<Count>, GaugeFault> {
    let tiling = cut(rt, land, side);
    let level = filled_grid(rt, alloc, land, &tiling, 1).expect(rt, "levels");
    let ways = directions_of(rt, alloc, &level, &tiling, 1).expect(rt, "ways");
    catchments(rt, alloc, &ways, gauges, &tiling, workers, &NoGate)
}

/// Asserts the catchments of gauges, for many tile sides and numbers of workers.
fn expect_catchments<R: Abort + Threads + Wait + Sync>(
    rt: &R,
    alloc: Global,
    ground: &Grid,
    gauges: &[Place],
    expected: &str,
) {
    let wanted = land(rt, alloc, ground.cols(), ground.rows(), expected);
    for (side, workers) in CUTS {
        let counts = find_catchments(rt, alloc, ground, gauges, side, workers).expect(
            rt,
            "catchments",
        );
        let values = values_of(alloc, &counts).expect(rt, "values");
        assert!(rt; agree(&values, &wanted), "side {side}, {workers} workers");
    }
}

#[test]
fn one_gauge_in_a_valley(rt: HostRuntime) {
    let pits = land(&rt, rt.alloc(), 4, 4, PIT_OF_TWO);
    expect_catchments(
        &rt,
        rt.alloc(),
        &pits,
        &[place(2, 2)],
        "1 1 1 0\n1 1 1 1\n1 1 1 0\n0 1 0 0",
    );
}

/// Each cell has the number of the first gauge on its flow path, 0 where none is.
#[test]
fn nested_gauges(rt: HostRuntime) {
    let pits = land(&rt, rt.alloc(), 4, 4, PIT_OF_TWO);
    let gauges = [place(3, 3), place(1, 1), place(2, 2)];
    expect_catchments(
        &rt,
        rt.alloc(),
        &pits,
        &gauges,
        "2 2 2 0\n2 2 3 3\n2 3 3 1\n0 3 1 1",
    );
}

#[test]
fn first_entry_of_a_cell_counts(rt: HostRuntime) {
    let pits = land(&rt, rt.alloc(), 4, 4, PIT_OF_TWO);
    expect_catchments(
        &rt,
        rt.alloc(),
        &pits,
        &[place(1, 1), place(1, 1)],
        "1 1 1 0\n1 1 0 0\n1 0 0 0\n0 0 0 0",
    );
}

#[test]
fn no_gauge(rt: HostRuntime) {
    let pits = land(&rt, rt.alloc(), 4, 4, PIT_OF_TWO);
    expect_catchments(
        &rt,
        rt.alloc(),
        &pits,
        &[],
        "0 0 0 0\n0 0 0 0\n0 0 0 0\n0 0 0 0",
    );
}

/// One gauge inside the flat; then three gauges, the first at the outlet.
#[test]
fn gauges_on_a_flat_through_ten_tiles(rt: HostRuntime) {
    let winding = land(&rt, rt.alloc(), 7, 7, WINDING);
    expect_catchments(
        &rt,
        rt.alloc(),
        &winding,
        &[place(3, 1)],
        "0 0 0 0 0 0 0\n0 0 0 0 0 0 0\n1 1 0 0 0 0 0\n1 1 0 0 0 0 0\n0 0 0 0 0 0 0\n0 0 0 0 0 0 0\n0 0 0 0 0 0 0",
    );
    let gauges = [place(5, 6), place(3, 3), place(1, 5)];
    expect_catchments(
        &rt,
        rt.alloc(),
        &winding,
        &gauges,
        "2 2 2 2 2 3 3\n2 2 2 2 2 3 3\n1 1 1 2 2 2 2\n1 1 1 2 2 2 2\n1 1 1 1 1 1 1\n1 1 1 1 1 1 1\n1 1 1 1 1 1 1",
    );
}

/// A gauge on a named sink that keeps its water has the sink's whole basin.
#[test]
fn gauge_on_a_sink(rt: HostRuntime) {
    let bowl = land(&rt, rt.alloc(), 3, 3, "9 9 9\n9 1 9\n9 9 9");
    let sunk = bowl
        .with_sinks(rt.alloc(), &[place(1, 1)])
        .expect(&rt, "a sink");
    expect_catchments(
        &rt,
        rt.alloc(),
        &sunk,
        &[place(1, 1)],
        "1 1 1\n1 1 1\n1 1 1",
    );
}

#[test]
fn gauges_are_refused_in_their_order(rt: HostRuntime) {
    let alloc = rt.alloc();
    let gap = land(&rt, alloc, 2, 1, "-9999 5");
    let outside = find_catchments(
        &rt,
        alloc,
        &gap,
        &[place(0, 1), place(1, 0), place(0, 0)],
        1,
        65,
    );
    assert!(rt; matches!(outside, Err(GaugeFault::Outside(1))));
    let empty = find_catchments(&rt, alloc, &gap, &[place(0, 0), place(1, 0)], 1, 65);
    assert!(rt; matches!(empty, Err(GaugeFault::OnNodata(0))));
    let too_few = find_catchments(&rt, alloc, &gap, &[place(0, 1)], 1, 0);
    assert!(rt; matches!(too_few, Err(GaugeFault::Jobs(JobFault::BadWorkers))));
    let bad = find_catchments(&rt, alloc, &gap, &[place(0, 1)], 1, 65);
    assert!(rt; matches!(bad, Err(GaugeFault::Jobs(JobFault::BadWorkers))));
    let mut many = Vec::new(alloc);
    for _ in 0..MOST_GAUGES {
        many.push(place(0, 1)).expect(&rt, "gauges");
    }
    let most = find_catchments(&rt, alloc, &gap, &many, 1, 1).expect(
        &rt,
        "as many gauges as may be",
    );
    assert!(rt; most.len() == 2);
    many.push(place(1, 0)).expect(&rt, "gauges");
    let too_many = find_catchments(&rt, alloc, &gap, &many, 1, 65);
    assert!(rt; matches!(too_many, Err(GaugeFault::TooManyGauges)));
}
