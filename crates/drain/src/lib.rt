//! Steps of flats and D8 directions over a filled grid.
//!
//! Begin with [`directions`]. [`direction`] is the rule at one cell; [`flat_steps`] runs one round
//! of counting over one tile. Depends on `terrain`, `tiles`, `tile_jobs`, `tile_maps`, `drainage`.
//!
//! A count is the least number of steps found so far for a cell, or unknown. Rounds lower counts
//! until one, which finds the codes, shows that none is too high. Then each is its cell's steps.
//!
//! Modules by stage, each stage's main module first:
//!
//! - `draining`: `directions`, which runs all rounds, and `flat_steps`
//! - `first`: the first round
//! - `beginning`: finds the tile's cells that drain at once
//! - `search`: searches the window of a tile for steps
//! - `loading`: copies the counts of a tile's window, and out of these the tile's counts
//! - `rounds`: later rounds
//! - `input`: what a round reads, and the lower counts that follow from it
//! - `lowering`: the search of a later round
//! - `blocks`: shares a round's entries out to its jobs
//! - `changes`: types of lower counts
//! - `codes`: the last round, which finds the codes
//! - `steepness`: the rule at one cell
//! - `around`: the surroundings of one cell
//! - `laws`: consequences of the definitions
#![tactic(auto)]

mod around;
mod beginning;
mod blocks;
mod changes;
mod codes;
mod draining;
mod first;
mod input;
pub mod laws;
mod loading;
mod lowering;
mod rounds;
mod search;
mod steepness;

pub use around::Around;
pub use drainage::{Code, Directions};
pub use draining::{directions, flat_steps};
pub use steepness::direction;
