//! The levels of a tile's cells, in 2 or 4 bytes each wherever they fit: [`Levels`].
ghost use Rattle.std.specs.Prelude.{ℤ, ◌≡◌, ◌+◌, ◌*◌, ◌<◌, ◌≤◌, pos, length, map, slice_index_or, IfOk, IfSome};
ghost use Rattle.floods.specs.Notes.{height_or_lack, no_label};
ghost use Rattle.cell_floods.specs.Cells.{inner_rows};
ghost use Rattle.cell_floods.specs.Levels.{height_above, no_short};

use crate::cell_net::without_border;
use std::alloc::{AllocError, Global};
use std::marker::Model;
use terrain::{Cell, Height, NO_DATA};

/// Levels as they are stored; a cell without a level has a number too.
#[derive(Drop)]
pub(crate) enum StoredLevels {
    /// Each level's height above the lowest, in 2 bytes.
    Near(Vec<u16>),
    /// Each level's height above the lowest, in 4 bytes.
    Above(Vec<u32>),
    /// The levels, or [`NO_DATA`]. Only where one lies too far above the lowest.
    Whole(Vec<Height>),
}

/// The level of each cell of a tile, in its row order, and [`NO_DATA`] for no level.
#[derive(Drop)]
pub struct Levels {
    lowest: Height,
    stored: StoredLevels,
}

impl Model for Levels {
    ghost use Rattle.std.specs.Prelude.{ℤ, List};
    ghost use Rattle.cell_floods.specs.Levels.{levels_stored};

    ghost Value = { List ℤ };

    ghost view = { λ l. levels_stored l.lowest l.stored };
}

/// A number that stores a level by its height above the lowest. The greatest one stores no level.
trait HeightAbove: Copy + Drop {
    // The level that a number stores, by the lowest level.
    ghost stored: { ℤ → Self → ℤ };

    /// Returns the number that stores `level`, or any number if none stores it.
    fn nearest(lowest: Height, level: Height) -> Self;

    /// Returns the level that the number stores, [`NO_DATA`] for no level.
    fn level(self, lowest: Height) -> Height
        ensures { result ≡ stored lowest self };
}

/// Returns the level at this height above `lowest`, [`NO_DATA`] if the height is `none`.
#[inline(always)]
fn level_above(none: u32, lowest: Height, above: u32) -> Height
    ensures { result ≡ height_above none lowest above }
{
    if above == none {
        NO_DATA
    } else {
        lowest.wrapping_add(above as Height)
    }
}

impl HeightAbove for u16 {
    ghost stored = { height_above no_short };

    #[inline(always)]
    fn nearest(lowest: Height, level: Height) -> u16 {
        // No data is far above all heights, so its number is the greatest.
        level
            .wrapping_sub(lowest)
            .cast_unsigned()
            .min(u16::MAX as u64) as u16
    }

    #[inline(always)]
    fn level(self, lowest: Height) -> Height {
        level_above(u16::MAX as u32, lowest, self as u32)
    }
}

impl HeightAbove for u32 {
    ghost stored = { height_above no_label };

    #[inline(always)]
    fn nearest(lowest: Height, level: Height) -> u32 {
        level
            .wrapping_sub(lowest)
            .cast_unsigned()
            .min(u32::MAX as u64) as u32
    }

    #[inline(always)]
    fn level(self, lowest: Height) -> Height {
        level_above(u32::MAX, lowest, self)
    }
}

/// Returns the number that stores each level; `None` if one level has no such number.
fn numbers_above<N: HeightAbove>(
    alloc: Global,
    levels: &[Cell],
    lowest: Height,
) -> Result<Option<Vec<N>>, AllocError>
    ensures { IfOk result (λ found. IfSome found (λ v.
        map (N.stored lowest) v.items ≡ map height_or_lack levels.now)) }
{
    let mut above = vec![in alloc; N::nearest(lowest, lowest); levels.len()]?;
    for node in 0..levels.len() {
        let level = levels[node].number();
        let number = N::nearest(lowest, level);
        if number.level(lowest) != level {
            return Ok(None);
        }
        above[node] = number;
    }
    Ok(Some(above))
}

/// Returns the numbers that store the levels inside the border; `None` if one has no such number.
fn inner_numbers<N: HeightAbove>(
    alloc: Global,
    levels: &[Cell],
    lowest: Height,
    cols: u32,
    rows: u32,
) -> Result<Option<Vec<N>>, AllocError>
    requires size { length levels.now ≡ (rows + 2) * (cols + 2) }
    requires few_cols { cols ≤ 4096 }
    requires few_rows { rows ≤ 4096 }
    ensures { IfOk result (λ found. IfSome found (λ v. map (N.stored lowest) v.items
        ≡ map height_or_lack (inner_rows levels.now cols rows))) }
{
    let Some(above) = numbers_above(alloc, levels, lowest)? else {
        return Ok(None);
    };
    Ok(Some(without_border(alloc, &above, cols, rows)?))
}

/// Returns the number of each cell, [`NO_DATA`] for one without data.
fn numbers(alloc: Global, cells: &[Cell]) -> Result<Vec<Height>, AllocError>
    ensures { IfOk result (λ v. v.items ≡ map height_or_lack cells.now) }
{
    let mut numbers = Vec::with_capacity(alloc, cells.len())?;
    for cell in cells {
        numbers.push(cell.number())?;
    }
    Ok(numbers)
}

impl Levels {
    /// Stores these levels, as they are.
    pub(crate) fn of_heights(heights: Vec<Height>) -> Self
        ensures { result ≡ heights.items }
    {
        Levels {
            lowest: 0,
            stored: StoredLevels::Whole(heights),
        }
    }

    /// Stores the levels inside the border of a tile's net.
    /// They take 2 or 4 bytes each if none is far from `lowest`, which should be the least.
    pub(crate) fn of_nodes(
        alloc: Global,
        levels: &[Cell],
        lowest: Height,
        cols: u32,
        rows: u32,
    ) -> Result<Self, AllocError>
        requires size { length levels.now ≡ (rows + 2) * (cols + 2) }
        requires few_cols { cols ≤ 4096 }
        requires few_rows { rows ≤ 4096 }
        ensures { IfOk result (λ l. l ≡ map height_or_lack (inner_rows levels.now cols rows)) }
    {
        if let Some(near) = inner_numbers(alloc, levels, lowest, cols, rows)? {
            let stored = StoredLevels::Near(near);
            return Ok(Levels { lowest, stored });
        }
        if let Some(above) = inner_numbers(alloc, levels, lowest, cols, rows)? {
            let stored = StoredLevels::Above(above);
            return Ok(Levels { lowest, stored });
        }
        let inner = without_border(alloc, levels, cols, rows)?;
        Ok(Levels::of_heights(numbers(alloc, &inner)?))
    }

    /// Returns the level at an index of the tile's row order; any number if there is none.
    #[inline(always)]
    pub fn at(&self, index: usize) -> Height
        requires { index < length self.now }
        ensures { result ≡ slice_index_or self.now index (pos 0) }
    {
        match &self.stored {
            StoredLevels::Near(near) => near[index].level(self.lowest),
            StoredLevels::Above(above) => above[index].level(self.lowest),
            StoredLevels::Whole(heights) => heights[index],
        }
    }
}
