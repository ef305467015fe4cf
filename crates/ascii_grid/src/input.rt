//! Reads a grid from a device, which is any reader of bytes, piece by piece.
ghost use Rattle.std.specs.Prelude.{◌≡◌, ◌≢◌, ◌≤◌, ◌-◌, ◌^◌, ◌<◌, ℕ, List, Err, IfOk};
ghost use Rattle.ascii_grid.specs.Input.{ReadsGrid};
ghost use Rattle.ascii_grid.specs.Reader.{WasFed};
ghost use Rattle.ascii_grid.specs.GridText.{IsGridText, IsRefusal};

use crate::counted::Counted;
use crate::fault::GridFault;
use crate::reader::{GridReader, MOST_TEXT_BYTES};
use std::alloc::Global;
use std::io::Read;
use terrain::Grid;

/// The most bytes that one read of [`read_grid`] asks for.
const PIECE_BYTES: usize = 4_096;

/// Why no grid was read.
#[derive(Clone, Copy, Debug, PartialEq, Eq)]
pub enum InputFault {
    /// The text's fault, or want of memory for its cells.
    Grid(GridFault),
    /// A read failed; the device's count of failures has risen by one.
    Read,
}

/// Reads a grid from a device, its heights in units of 10^-scale.
///
/// Reads at most 2^29 + 1 bytes, in pieces of at most 4,096. Checks the words that end in a piece
/// before it reads the next one.
///
/// # Memory
///
/// A list of 8 bytes a cell, allocated when the header ends.
///
/// # Errors
///
/// The text's first fault, [`GridFault::Memory`], or [`InputFault::Read`] if a read fails. If a
/// word that ended before the failed read has a fault, that fault is returned.
pub fn read_grid<R: Read>(
    alloc: Global,
    scale: u8,
    reader: &mut Counted<R>,
) -> Result<Grid, InputFault>
    requires scale { scale ≤ 6 }
    requires few { reader.old.failures < 2 ^ 64 - 1 }
    ensures { ReadsGrid R.remaining scale reader.old reader.new result }
{
    let mut grid_reader = GridReader::new(alloc, scale);
    let mut buffer = [0; PIECE_BYTES];
    let mut taken = 0;
    'pieces: loop {
        // One byte past the limit shows that a text is too long.
        let room = PIECE_BYTES.min(MOST_TEXT_BYTES + 1 - taken);
        let piece = &mut buffer[..room];
        let Ok(count) = reader.read(piece) else {
            return Err(InputFault::Read);
        };
        if let Err(fault) = grid_reader.feed(&piece[..count]) {
            return Err(InputFault::Grid(fault));
        }
        if count == 0 {
            return finish_grid(grid_reader);
        }
        taken += count;
    }
}

fn finish_grid(grid_reader: GridReader) -> Result<Grid, InputFault>
    ensures grid { (text : List ℕ) → WasFed grid_reader text →
        IfOk result (λ g. IsGridText grid_reader.scale text g) }
    ensures fault { (text : List ℕ) (f : _) → WasFed grid_reader text →
        result ≡ Err (InputFault.Grid f) → IsRefusal grid_reader.scale text f }
    ensures sound { result ≢ Err InputFault.Read }
{
    match grid_reader.finish() {
        Ok(grid) => Ok(grid),
        Err(fault) => Err(InputFault::Grid(fault)),
    }
}
