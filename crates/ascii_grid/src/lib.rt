//! Reads and writes terrain grids in the Esri ASCII raster format.
//!
//! Begin with [`GridReader`] or [`read_grid`] to read, and with [`write_heights`] to write.
//! [`Counted`] counts the bytes and failures of a device. `docs/grid-text.md` defines the text.
//!
//! Modules, reading before writing:
//!
//! - `read`: reads a whole text
//! - `input`: reads a grid from a device
//! - `reader`: reads a text in pieces
//! - `tokenizer`: splits a text into words
//! - `builder`: checks each word, fills header slots, adds cells
//! - `key`: the slot that a key word fills
//! - `header`: the slots of a header
//! - `cell`: the cell that a word spells
//! - `write`: writes a map as text
//! - `cell_text`: the text of one value
//! - `page`: a byte buffer on the stack
//! - `fault`: the faults of a text
//! - `counted`: devices that count their bytes and failures
//! - `laws`: theorems about the definitions
#![tactic(auto)]

mod builder;
mod cell;
mod cell_text;
mod counted;
mod fault;
mod header;
mod input;
mod key;
pub mod laws;
mod page;
mod read;
mod reader;
mod tokenizer;
pub mod write;

pub use counted::{Counted, ReadFailed, WriteFailed};
pub use drainage::Code;
pub use fault::{GridFault, Key};
pub use input::{InputFault, read_grid};
pub use page::Page;
pub use read::read_text;
pub use reader::{GridReader, MOST_TEXT_BYTES};
pub use terrain::{
    Anchor, Cell, Count, Frame, Grid, GridHeader, HIGHEST, Height, LOWEST, NoMemory, Place,
    SinkFault, Word,
};
pub use write::{write_codes, write_counts, write_framed_counts, write_heights};
