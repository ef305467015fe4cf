//! The height of a cell in a list, and the greatest of heights: `None` stands for no height.
ghost use Rattle.std.specs.Prelude.{◌≡◌, ◌⊎◌, ℕ, ◌+◌, ◌*◌, ◌<◌, ◌≤◌, ℤ, None, Some, slice_index_or};
ghost use Rattle.terrain.specs.Raster.{IsHeight};
ghost use Rattle.sightlines.specs.Walk.{AreHeights};
ghost use Rattle.sightlines.specs.Blocks.{IsTopOf};

use terrain::{Cell, Height};

/// The greatest height of a target above its ground, in units.
pub(crate) const HIGHEST_TARGET: u32 = 1_000_000;

/// Returns the height at `index`, or `None` for NODATA or past the list's end.
#[inline(always)]
pub(crate) fn height_at(cells: &[Cell], index: usize) -> Option<Height>
    ensures { result ≡ slice_index_or cells.now index None }
{
    match cells.get(index) {
        Some(cell) => cell.height(),
        None => None,
    }
}

/// Returns the greater of two heights, where `None` is below all heights.
#[inline(always)]
pub(crate) fn greater_height(top: Option<Height>, height: Option<Height>) -> Option<Height>
    ensures kept { (h : ℤ) → IsTopOf top h → IsTopOf result h }
    ensures raised { (h : ℤ) → height ≡ Some h → IsTopOf result h }
    ensures one { (result ≡ top) ⊎ (result ≡ height) }
{
    let Some(height) = height else {
        return top;
    };
    match top {
        None => Some(height),
        Some(top) => Some(top.max(height)),
    }
}

/// Returns the greatest height of cells that are `stride` apart in a list.
/// These are the cells of number `from` to below `to`; cell 0 is at index `start`.
#[inline(always)]
pub(crate) fn top_along(
    cells: &[Cell],
    start: usize,
    stride: usize,
    from: u32,
    to: u32,
) -> Option<Height>
    requires heights { AreHeights cells.now }
    requires start { start ≤ 8192 * 4096 }
    requires stride { stride ≤ 4096 }
    requires to { to ≤ 4096 }
    ensures top { (c : ℕ) (h : ℤ) → from ≤ c → c < to
        → slice_index_or cells.now (start + c * stride) None ≡ Some h → IsTopOf result h }
    ensures height { (h : ℤ) → result ≡ Some h → IsHeight h }
{
    let mut top = None;
    for cell in from..to {
        top = greater_height(top, height_at(cells, start + cell as usize * stride));
    }
    top
}
