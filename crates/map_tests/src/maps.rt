//! Compares a terrain's drainage maps, without catchments, with expected maps.
//!
//! `Maps::expect` makes them with the tile sides and numbers of workers of `CUTS`,
//! `Maps::expect_cut` with those given.
use crate::ground::{cut, expect_cells, expect_heights, land};
use crate::stages::{directions_of, filled_grid};
use drain::Code;
use fill::filled_heights;
use flow::{accumulation, basins};
use std::alloc::{AllocError, Global};
use std::process::Abort;
use std::sync::Wait;
use std::thread::Threads;
use terrain::{Count, Grid, NoMemory};
use tile_jobs::NoGate;

/// Pairs of a tile side and a number of workers.
const CUTS: [(u32, u32); 9] = [
    (1, 1),
    (1, 8),
    (2, 1),
    (2, 2),
    (2, 8),
    (3, 2),
    (4, 1),
    (4, 8),
    (7, 2),
];

/// A terrain and its expected maps, row by row; -9999 is NODATA.
#[derive(Drop)]
pub(crate) struct Maps {
    pub(crate) cols: u32,
    pub(crate) rows: u32,
    pub(crate) heights: &'static str,
    pub(crate) filled: &'static str,
    pub(crate) codes: &'static str,
    pub(crate) accumulation: &'static str,
    pub(crate) basins: &'static str,
}

/// Returns whether the values equal the heights of a grid; `None` equals NODATA.
pub(crate) fn agree(values: &[Option<u32>], wanted: &Grid) -> bool {
    let cells = wanted.cells();
    values.len() == cells.len()
        && values.iter().zip(cells.iter()).all(|(value, cell)| value.map(i64::from)
            == cell.height().map(i64::from))
}

fn numbers(alloc: Global, codes: &[Option<Code>]) -> Result<Vec<Option<u32>>, NoMemory> {
    let mut numbers = Vec::new(alloc);
    for code in codes {
        let number = code.map(|code| u32::from(code.number()));
        if numbers.push(number).is_err() {
            return Err(NoMemory);
        }
    }
    Ok(numbers)
}

pub(crate) fn values_of(alloc: Global, counts: &[Count]) -> Result<Vec<Option<u32>>, AllocError> {
    counts.iter().map(|count| count.value()).collect(alloc)
}

impl Maps {
    /// Asserts the maps for many tile sides and numbers of workers.
    pub(crate) fn expect<R: Abort + Threads + Wait + Sync>(&self, rt: &R, alloc: Global) {
        let land = land(rt, alloc, self.cols, self.rows, self.heights);
        let levels = filled_heights(alloc, &land).expect(rt, "filled heights");
        expect_heights(rt, alloc, &levels, self.cols, self.rows, self.filled);
        for (side, workers) in CUTS {
            self.expect_cut(rt, alloc, &land, side, workers);
        }
    }

    /// Asserts the maps for one tile side and number of workers.
    pub(crate) fn expect_cut<R: Abort + Threads + Wait + Sync>(
        &self,
        rt: &R,
        alloc: Global,
        land: &Grid,
        side: u32,
        workers: u32,
    ) {
        let tiling = cut(rt, land, side);
        let level = filled_grid(rt, alloc, land, &tiling, workers).expect(rt, "levels");
        expect_cells(
            rt,
            alloc,
            level.grid().cells(),
            self.cols,
            self.rows,
            self.filled,
        );
        let ways = directions_of(rt, alloc, &level, &tiling, workers).expect(rt, "ways");
        let codes = numbers(alloc, ways.codes()).expect(rt, "codes");
        let counts = accumulation(rt, alloc, &ways, &tiling, workers, &NoGate).expect(rt, "counts");
        let counts = values_of(alloc, &counts).expect(rt, "values of counts");
        let numbers = basins(rt, alloc, &ways, &tiling, workers, &NoGate).expect(rt, "basins");
        let numbers = values_of(alloc, &numbers).expect(rt, "values of basins");
        let agreed = [
            self.agrees(rt, alloc, &codes, self.codes),
            self.agrees(rt, alloc, &counts, self.accumulation),
            self.agrees(rt, alloc, &numbers, self.basins),
        ];
        assert_eq!(rt; agreed, [true; 3], "side {side}, {workers} workers");
    }

    /// Returns whether the values are these numbers; -9999 is NODATA.
    fn agrees(
        &self,
        rt: &impl Abort,
        alloc: Global,
        values: &[Option<u32>],
        numbers: &str,
    ) -> bool {
        agree(values, &land(rt, alloc, self.cols, self.rows, numbers))
    }
}
