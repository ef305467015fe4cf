//! Cuts a grid into square tiles, and merges the lists of all tiles into one list of the grid.
//!
//! Begin with [`Tiling`]: [`Tiling::bounds`], [`Tiling::view`] and [`Tiling::put_back`].
//! Tiles are numbered in row order.
//!
//! Modules, callers first; `tiling` and `view` use each other:
//!
//! - `rim_numbers`: numbers for the rim cells of all tiles
//! - `window`: a copy of a tile and of a border of one cell around it
//! - `tiling`: a grid cut into tiles, and the tiles' lists merged
//! - `view`: a borrowed view of a tile and the cells next to it
//! - `rim`: a tile's outermost cells
//! - `bounds`: the position and size of a tile
//! - `slices`: parts and elements of slices
#![tactic(auto)]

mod bounds;
mod rim;
mod rim_numbers;
mod slices;
mod tiling;
mod view;
mod window;

pub use bounds::Bounds;
pub use rim::Rim;
pub use tiling::{Tiling, TilingFault};
pub use view::TileView;
pub use window::{Window, spot_of};
