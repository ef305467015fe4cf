//! Compares filled heights of rough grids with those that lowering gives.
//! Lowering begins with upper bounds of the filled heights. It sweeps over the grid again and again
//! and lowers the bounds of inner cells.
use crate::ground::heights_of;
use ascii_grid::read_text;
use fill::filled_heights;
use std::alloc::Global;
use std::process::Abort;
use std::test::Fail;
use terrain::{HIGHEST, Height};

/// Pseudorandom numbers, the same in every run.
#[derive(Drop)]
struct Numbers {
    state: u32,
}

impl Numbers {
    fn next(&mut self) -> u32 {
        self.state = self
            .state
            .wrapping_mul(1_664_525)
            .wrapping_add(1_013_904_223);
        self.state >> 16
    }
}

const NEAR: [&str; 8] = [" 0", " 0", " 1", " 1", " 2", " 2", " 3", " 3"];

/// Heights of which some are far apart, up to the limits of a height.
const FAR: [&str; 8] = [
    " -1000000000000000",
    " -70",
    " -1",
    " 0",
    " 2",
    " 4",
    " 60",
    " 1000000000000000",
];

/// Returns one of the heights as a word, or NODATA for one number in 31.
fn cell_word(number: u32, heights: &[&'static str; 8]) -> &'static str {
    if number % 31 == 30 {
        return " -9999";
    }
    heights[(number % 8) as usize]
}

fn grid_text(
    alloc: Global,
    numbers: &mut Numbers,
    heights: &[&'static str; 8],
    cols: u8,
    rows: u8,
) -> Result<String, Fail> {
    let mut text = format!(in alloc;
        "ncols {cols} nrows {rows} xllcorner 0 yllcorner 0 cellsize 1"
    )?;
    for _ in 0..u32::from(cols) * u32::from(rows) {
        text.push_str(cell_word(numbers.next(), heights))?;
    }
    Ok(text)
}

/// Returns a cell's index. Row and column count from 1; `None` if one is 0 or `col` is past `cols`.
fn index_of(cols: u8, row: u8, col: u8) -> Option<usize> {
    if row == 0 || col == 0 || col > cols {
        return None;
    }
    Some((row - 1) as usize * cols as usize + (col - 1) as usize)
}

fn level_at(levels: &[Option<Height>], cols: u8, row: u8, col: u8) -> Option<Height> {
    let index = index_of(cols, row, col)?;
    *levels.get(index)?
}

/// Returns the least of `levels` at and around a cell; `None` at edge cells and NODATA.
fn lowest_of_nine(levels: &[Option<Height>], cols: u8, row: u8, col: u8) -> Option<Height> {
    let mut lowest = HIGHEST;
    for near_row in row.saturating_sub(1)..=row.saturating_add(1) {
        for near_col in col.saturating_sub(1)..=col.saturating_add(1) {
            lowest = lowest.min(level_at(levels, cols, near_row, near_col)?);
        }
    }
    Some(lowest)
}

/// Lowers each inner cell's entry in `levels` to the least entry at and around the cell.
/// No entry falls below its cell's height. An inner cell is a data cell that is no edge cell.
fn sweep(heights: &[Option<Height>], levels: &mut [Option<Height>], cols: u8, rows: u8) {
    for row in 1..=rows {
        for col in 1..=cols {
            let Some(lowest) = lowest_of_nine(levels, cols, row, col) else {
                continue;
            };
            let Some(index) = index_of(cols, row, col) else {
                continue;
            };
            let height = level_at(heights, cols, row, col);
            if let Some(level) = levels.get_mut(index) {
                *level = height.map(|height| height.max(lowest));
            }
        }
    }
}

/// Returns filled heights by lowering, in as many sweeps as there are cells.
/// Edge cells begin at their height, inner cells at [`HIGHEST`]; NODATA stays `None`.
fn lowered(
    alloc: Global,
    heights: &[Option<Height>],
    cols: u8,
    rows: u8,
) -> Result<Vec<Option<Height>>, Fail> {
    let mut levels = Vec::new(alloc);
    for row in 1..=rows {
        for col in 1..=cols {
            let inner = lowest_of_nine(heights, cols, row, col).is_some();
            let height = level_at(heights, cols, row, col);
            levels.push(if inner { Some(HIGHEST) } else { height })?;
        }
    }
    for _ in 0..heights.len() {
        sweep(heights, &mut levels, cols, rows);
    }
    Ok(levels)
}

/// Compares the filled heights of a new grid with lowering, and returns whether it has a pit.
fn compare_one<R: Abort>(
    rt: &R,
    alloc: Global,
    numbers: &mut Numbers,
    heights: &[&'static str; 8],
    cols: u8,
    rows: u8,
) -> Result<bool, Fail> {
    let text = grid_text(alloc, numbers, heights, cols, rows)?;
    let grid = read_text(alloc, 0, text.as_bytes())?;
    let ground = heights_of(rt, alloc, grid.cells());
    let wanted = lowered(alloc, &ground, cols, rows)?;
    let levels = filled_heights(alloc, &grid)?;
    assert_eq!(rt; levels.as_slice(), wanted.as_slice(), "{text}");
    Ok(levels.as_slice() != ground.as_slice())
}

/// Compares grids of these heights with lowering; returns how many small grids have a pit.
/// The flood's queue has a heap alone in the small grids, of up to 6 by 6 cells. In the large grid,
/// of 18 by 16, it has lists too.
fn compare<R: Abort>(rt: &R, alloc: Global, heights: &[&'static str; 8]) -> Result<u32, Fail> {
    let mut numbers = Numbers { state: 1 };
    let mut raised = 0u32;
    for rows in 1..=6u8 {
        for cols in 1..=6u8 {
            for _ in 0..16 {
                if compare_one(rt, alloc, &mut numbers, heights, cols, rows)? {
                    raised = raised.saturating_add(1);
                }
            }
        }
    }
    let large = compare_one(rt, alloc, &mut numbers, heights, 18, 16)?;
    assert!(rt; large, "the large grid has a pit");
    Ok(raised)
}

#[test]
fn as_by_lowering(rt: HostRuntime) -> Result<(), Fail> {
    let raised = compare(&rt, rt.alloc(), &NEAR)?;
    assert!(rt; raised > 20, "{raised} grids with a pit");
    Ok(())
}

#[test]
fn levels_far_apart_as_by_lowering(rt: HostRuntime) -> Result<(), Fail> {
    let raised = compare(&rt, rt.alloc(), &FAR)?;
    assert!(rt; raised > 20, "{raised} grids with a pit");
    Ok(())
}
