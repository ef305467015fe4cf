//! Tests the direction of one cell, and that bad numbers of workers are refused.
ghost use Rattle.drain.specs.Fitting.{IsFitting};

use crate::ground::{cut, land};
use crate::stages::{directions_of, filled_grid};
use drain::{Around, direction};
use flow::{accumulation, basins};
use std::alloc::Global;
use std::process::Abort;
use std::sync::Wait;
use std::thread::Threads;
use terrain::{Grid, Height};
use tile_jobs::{JobFault, NoGate};

/// Returns the code of a cell of this height and these steps, an end cell if `edge`.
/// `ways` has the heights and steps of its neighbours.
fn number(level: Height, steps: u32, edge: bool, ways: [Option<(Height, u32)>; 8]) -> u8
    requires { IsFitting (record { level = level; steps = steps; edge = edge; ways = ways }) }
{
    let around = Around {
        level,
        steps,
        edge,
        ways,
    };
    direction(&around).number()
}

const NONE: Option<(Height, u32)> = None;

/// An edge cell drains to the steeper of two lower cells; without a lower cell it has code 0.
#[test]
fn code_of_one_cell(rt: HostRuntime) {
    let (side, corner, n) = (Some((15, 0)), Some((13, 0)), NONE);
    assert_eq!(rt; number(20, 0, true, [side, corner, n, n, n, n, n, n]), 1);
    let (side, corner) = (Some((13, 0)), Some((10, 0)));
    assert_eq!(rt; number(20, 0, true, [side, corner, n, n, n, n, n, n]), 2);
    let same = Some((20, 0));
    assert_eq!(rt; number(20, 0, true, [same, same, n, n, n, n, n, n]), 0);
}

/// Drops decide, then steps, then the smallest code; an end cell without drops has code 0.
#[test]
fn codes_of_surroundings(rt: HostRuntime) {
    let (side, corner, s) = (Some((15, 0)), Some((13, 0)), Some((20, 0)));
    assert_eq!(rt; number(20, 0, false, [side, corner, s, s, s, s, s, s]), 1);
    let (two, one, n) = (Some((5, 2)), Some((5, 1)), NONE);
    assert_eq!(rt; number(5, 2, false, [two, n, one, n, one, n, n, n]), 4);
    assert_eq!(rt; number(5, 0, true, [one; 8]), 0);
    assert_eq!(rt;
        number(5, 0, true, [n, n, n, n, n, n, n, Some((4, 0))]),
        128
    );
}

/// Returns the faults of filling, directions, accumulation and basins.
fn faults<R: Abort + Threads + Wait + Sync>(
    rt: &R,
    alloc: Global,
    grid: &Grid,
    workers: u32,
) -> [Option<JobFault>; 4] {
    let tiling = cut(rt, grid, 1);
    let level = filled_grid(rt, alloc, grid, &tiling, 1).expect(rt, "levels");
    let ways = directions_of(rt, alloc, &level, &tiling, 1).expect(rt, "ways");
    [
        filled_grid(rt, alloc, grid, &tiling, workers).err(),
        directions_of(rt, alloc, &level, &tiling, workers).err(),
        accumulation(rt, alloc, &ways, &tiling, workers, &NoGate).err(),
        basins(rt, alloc, &ways, &tiling, workers, &NoGate).err(),
    ]
}

#[test]
fn refused_workers(rt: HostRuntime) {
    let grid = land(&rt, rt.alloc(), 1, 1, "5");
    for workers in [0, 65] {
        let refused = [Some(JobFault::BadWorkers); 4];
        assert_eq!(rt;
            faults(&rt, rt.alloc(), &grid, workers),
            refused,
            "{workers} workers"
        );
    }
}
