//! Terrain grids: cells with heights, the header, places and named sinks.
//!
//! Begin with [`Grid`] and [`Place`]. Cells are in row order, from the north-west.
//!
//! Modules, callers first:
//!
//! - `grid`: grids, and their frames: header, scale and sinks without the cells
//! - `cell`: a height or no data, in 8 bytes
//! - `count`: a count or none, in 4 bytes
//! - `sinks`: the first fault of a list of sinks, and the list without repeats
//! - `ways`: the eight directions from a place
//! - `place`: places, and heights with their limits
//! - `observer`: an observer's cell and eye height
//! - `word`: a header word, stored inline
#![tactic(auto)]

mod cell;
mod count;
mod grid;
mod observer;
mod place;
mod sinks;
mod ways;
mod word;

pub use cell::{Cell, NO_DATA};
pub use count::{Count, OptionalCount};
pub use grid::{Anchor, Frame, Grid, GridHeader, LONGEST_AXIS, NoMemory};
pub use observer::Observer;
pub use place::{HIGHEST, Height, LOWEST, Place};
pub use sinks::{MOST_SINKS, SinkFault, sinks_fault};
pub use ways::{around_index, place_on};
pub use word::{MOST_WORD_BYTES, Word};
