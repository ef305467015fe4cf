//! The results that drainage stages pass on: filled grids and maps of directions.
//!
//! In a [`Filled`] grid, the height of each data cell is its filled height. In [`Directions`], each
//! flow path ends at an outlet. `fill` makes filled grids, which `drain` and `relief` read. `drain`
//! makes directions, which `flow` and `relief` read.
//!
//! Modules, callers first:
//!
//! - `filled_grid`: a grid of filled heights
//! - `direction_map`: the code of each data cell
//! - `code`: the code of a direction or an outlet
//! - `step_count`: a cell's steps in its flat, or unknown
//! - `laws`: laws of the definitions
#![tactic(auto)]

mod code;
mod direction_map;
mod filled_grid;
pub mod laws;
mod step_count;

pub use code::Code;
pub use direction_map::Directions;
pub use filled_grid::Filled;
pub use step_count::{NO_COUNT, StepCount};
