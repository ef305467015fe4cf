//! Reads a text that is in memory: [`read_text`].
ghost use Rattle.std.specs.Prelude.{◌≤◌, IfOk, IfErr};
ghost use Rattle.ascii_grid.specs.GridText.{IsGridText, IsRefusal};

use crate::fault::GridFault;
use crate::reader::GridReader;
use std::alloc::Global;
use terrain::Grid;

/// Reads the grid that a text spells, its heights in units of 10^-scale.
///
/// # Errors
///
/// The text's first fault, or [`GridFault::Memory`].
///
/// # Examples
///
/// ```ignore
/// let text = b"ncols 2 nrows 1 xllcorner 0 yllcorner 0 cellsize 1 3 4";
/// let grid = read_text(rt.alloc(), 0, text)?;
/// ```
pub fn read_text(alloc: Global, scale: u8, bytes: &[u8]) -> Result<Grid, GridFault>
    requires { scale ≤ 6 }
    ensures grid { IfOk result (λ g. IsGridText scale bytes.now g) }
    ensures fault { IfErr result (λ f. IsRefusal scale bytes.now f) }
{
    let mut reader = GridReader::new(alloc, scale);
    reader.feed(bytes)?;
    reader.finish()
}
