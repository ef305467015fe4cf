//! Makes maps of a grid tile by tile, by one job for each tile.
//!
//! A [`TileMap`] returns a tile's entries. A [`Runner`] runs numbered jobs; each run is a stage.
//! [`Runner::map_tiles`] makes the whole map.
//!
//! Modules, callers first:
//!
//! - `runner`: runtime, allocator, workers and gate of a stage
//! - `map`: a map's entries, tile by tile
#![tactic(auto)]

mod map;
mod runner;

pub use map::TileMap;
pub use runner::Runner;
