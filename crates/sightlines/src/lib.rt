//! One line of sight over a terrain grid: whether an observer sees a place.
//!
//! A line of sight runs from an observer's eye to a target on or above a cell's ground. It is
//! tested where it crosses the columns and the rows of cell centres. The earth counts as flat.
//!
//! [`sees`] tests crossings until one hides the target. [`sees_past_blocks`] returns the result of
//! `sees` and skips blocks of cells below the line. [`least_height`] returns the least target
//! height at which `sees` returns true. Depends on `terrain` alone.
//!
//! Modules, callers first:
//!
//! - `rise`: the least target height at which a place is seen
//! - `line`: whether a place is seen
//! - `passing`: skips blocks of cells below the line
//! - `walk`: steps from crossing to crossing
//! - `tops`: the greatest heights of blocks
//! - `reach`: whether a place is within the radius
//! - `laws`: a theorem about the definitions
#![tactic(auto)]

pub mod laws;
mod line;
mod passing;
mod reach;
mod rise;
mod tops;
mod walk;

pub use line::{WalkCache, elevation, is_candidate, may_see, sees, sees_past_blocks};
pub use reach::is_in_reach;
pub use rise::least_height;
pub use tops::{FAR_BLOCK, MaxHeights, NEAR_BLOCK, blocks_in};
