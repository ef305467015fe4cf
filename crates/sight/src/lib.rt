//! Viewsheds: how many observers see each cell of a terrain grid, or from what height on.
//!
//! Begin with [`viewshed`] and [`rise`]; [`sees`] tests one line of sight. Walks along lines of
//! sight, or one sweep over the tile, flag the cells of a tile that one observer sees. Depends on
//! `terrain`, `tiles`, `tile_jobs`, `tile_maps`, `horizons` and `sightlines`.
//!
//! Modules, callers first:
//!
//! - `viewing`: `viewshed` and `rise`, which run all stages
//! - `judging`: finds the first fault of observers, target height and radius
//! - `fault`: the faults of a viewshed and of its jobs
//! - `tops`: the greatest heights of blocks of cells
//! - `tile`: the viewshed values of one tile
//! - `rise_tile`: the least target heights of one tile
//! - `reach`: whether a tile has a cell within the radius
//! - `flagging`: flags the cells that one observer sees, by walks or by a sweep
//! - `sides`: sweeps a tile on all four sides of the observer
//! - `hiding`: clears the flags of cells that one family of crossings hides
//! - `raising`: raises the targets of flagged cells over families of crossings
//! - `looking`: looks up which targets on a line are hidden by nearer lines
//! - `sweep`: a horizon, raised line by line
//! - `line_ground`: raises a horizon to the ground of one line
//! - `line_blocks`: finds lines without ground above a piece, by greatest heights of blocks
//! - `gathering`: collects the rays of flagged cells, line by line
//! - `ranks`: ranks rays by slope, and certifies their ranks
//! - `ray_order`: lists rays by slope, without promise
//! - `rising`: how far a target rises above the eye
//! - `family`: the lines on one side of the observer, and the ground that rays meet there
//! - `extent`: parts of the grid whose cells have flags
//! - `heights`: heights of cells in a list, and the greatest of them
//! - `by_place`: builds lists with one entry for each place of a tile
//! - `laws`: theorems about viewsheds and rises
#![tactic(auto)]

mod by_place;
mod extent;
mod family;
mod fault;
mod flagging;
mod gathering;
mod heights;
mod hiding;
mod judging;
pub mod laws;
mod line_blocks;
mod line_ground;
mod looking;
mod raising;
mod ranks;
mod ray_order;
mod reach;
mod rise_tile;
mod rising;
mod sides;
mod sweep;
mod tile;
mod tops;
mod viewing;

pub use fault::SightFault;
pub use sightlines::sees;
pub use terrain::Observer;
pub use viewing::{rise, viewshed};
