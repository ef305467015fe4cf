//! Finds the filled heights of a grid by one flood, without tiles: [`filled_heights`].
//!
//! `filled` calls it where its own search has no certificate, which is not known to happen. Tests
//! compare it with expected maps and with repeated lowering.
ghost use Rattle.std.specs.Prelude.{IfOk};
ghost use Rattle.drainage.specs.Filled.{IsFilled};

use crate::cell_net::{CellNet, without_border};
use floods::flood;
use std::alloc::Global;
use terrain::{Grid, Height, NoMemory};

/// Returns the filled height of each cell, in row order; `None` without data.
///
/// # Errors
///
/// [`NoMemory`] if an allocation fails.
///
/// # Examples
///
/// ```ignore
/// let heights = filled_heights(alloc, &grid)?;
/// let height = heights[(row * grid.cols() + col) as usize];
/// ```
pub fn filled_heights(alloc: Global, grid: &Grid) -> Result<Vec<Option<Height>>, NoMemory>
    ensures { IfOk result (λ v. IsFilled grid.now.terrain v.items) }
{
    let net = CellNet::of_grid(alloc, grid)?;
    let flooded = flood(alloc, &net)?;
    Ok(without_border(alloc, &flooded.level, grid.cols(), grid.rows())?)
}
