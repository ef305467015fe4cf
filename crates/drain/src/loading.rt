//! Copies counts of steps: a tile's window from the whole grid's list, and the tile's own out of
//! the window's. [`step_numbers`] turns the tile's counts into options of numbers.
ghost use Rattle.std.specs.Prelude.{◌≡◌, ◌+◌, ◌*◌, ◌<◌, length, map, IfOk};
ghost use Rattle.tiles.specs.Cutting.{bounds_of};
ghost use Rattle.tiles.specs.Windows.{area_of};
ghost use Rattle.drain.specs.Search.{AreWindowCounts, IsCopied};
ghost use Rattle.tile_maps.specs.Maps.{AreSetUpTo, IsMadeUpTo};

use drainage::{NO_COUNT, StepCount};
use std::alloc::{AllocError, Global};
use terrain::{Cell, Place};
use tiles::{Bounds, TileView, Window};

/// Copies counts of a tile and around it; `NO_COUNT` for `None` and off the grid.
pub(crate) fn counts(
    alloc: Global,
    steps: &TileView<'_, Option<u32>>,
) -> Result<Vec<u32>, AllocError>
    ensures { IfOk result (λ v. AreWindowCounts steps.now.cutting.cols steps.now.cutting.rows
        steps.now.cells (bounds_of steps.now.cutting steps.now.tile) v.items) }
{
    let shown = Window::of_view(alloc, steps, None)?;
    shown
        .values
        .iter()
        .map(|count| count.unwrap_or(NO_COUNT))
        .collect(alloc)
}

/// Writes the counts of one row of the tile into its list.
fn copy_counts_along(window: &Window<Cell>, counts: &[u32], row: u32, list: &mut [StepCount])
    requires size { length counts.now ≡ area_of window.now.bounds }
    requires row { row < window.now.bounds.rows }
    requires list { AreSetUpTo window.now.bounds (IsCopied window.now.bounds counts.now)
        (row * window.now.bounds.cols) list.old }
    ensures { AreSetUpTo window.now.bounds (IsCopied window.now.bounds counts.now)
        ((row + 1) * window.now.bounds.cols) list.new }
{
    let cols = window.bounds.cols;
    for col in 0..cols {
        let spot = Place {
            row: row + 1,
            col: col + 1,
        };
        list[Place { row, col }.index_in(cols)] = StepCount::of(counts[window.index(spot)]);
    }
}

/// Returns the counts of the window's tile, in row order.
pub(crate) fn copy_counts(
    alloc: Global,
    window: &Window<Cell>,
    counts: &[u32],
) -> Result<Vec<StepCount>, AllocError>
    requires { length counts.now ≡ area_of window.now.bounds }
    ensures { IfOk result (λ v. IsMadeUpTo window.now.bounds
        (IsCopied window.now.bounds counts.now) (window.now.bounds.rows * window.now.bounds.cols)
        v.items) }
{
    let Bounds { rows, cols, .. } = window.bounds;
    let mut list = vec![in alloc; StepCount::none(); rows as usize * cols as usize]?;
    for row in 0..rows {
        copy_counts_along(window, counts, row, &mut list);
    }
    Ok(list)
}

/// Returns each known count as a number, each unknown one as `None`.
pub(crate) fn step_numbers(
    alloc: Global,
    counts: &[StepCount],
) -> Result<Vec<Option<u32>>, AllocError>
    ensures { IfOk result (λ v. v.items ≡ map (λ count. count) counts.now) }
{
    counts.iter().map(|count| count.value()).collect(alloc)
}
