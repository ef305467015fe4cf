//! Filled heights: floods of tiles, the spill graph over them, and raising.
//!
//! The flood of a tile gives each data cell its level and label. The flood of the spill graph gives
//! each label its least crest. Raising gives a data cell the greater of its level and that crest.
//!
//! Begin with [`filled`], which runs all stages. [`SpillGraph`] and [`raise`] run single stages, on
//! the full graph; [`filled`] searches a part of it, and certifies what it finds. This crate also
//! exports items of `cell_floods`, `drainage` and `floods`.
//!
//! Modules: first `filling`, then the other parts of [`filled`], last those of [`SpillGraph`] and
//! [`raise`]:
//!
//! - `filling`: `filled`, which runs all stages
//! - `numbers`: the numbers of labels, and the heights of end cells by number
//! - `cell_labels`: the level and the label of a cell
//! - `rim_joins`: joins over a tile's rim
//! - `found_joins`: the joins that the floods found, and those over rims
//! - `crests`: the crests of labels, by Kruskal's algorithm
//! - `raised_tiles`: the cells of a tile that rise to the crests of their labels
//! - `raised_runs`: runs of cells that rise to one height, and the list of cells with them
//! - `held`: the certificate of the cells that rose
//! - `gathering`: the joins of all neighbouring cells
//! - `placing`: joins by the places of their labels
//! - `sources`: the heights of end cells by place
//! - `spill_graph`: the spill graph by places of labels
//! - `raising`: the filled heights of one tile, by the graph of `spill_graph`
#![tactic(auto)]

mod cell_labels;
mod crests;
mod filling;
mod found_joins;
mod gathering;
mod held;
mod numbers;
mod placing;
mod raised_runs;
mod raised_tiles;
mod raising;
mod rim_joins;
mod sources;
mod spill_graph;

pub use cell_floods::{CellNet, TileFlood, filled_heights, tile_flood};
pub use drainage::Filled;
pub use filling::filled;
pub use floods::{Flooded, Net, Spill, flood};
pub use raising::raise;
pub use spill_graph::{Join, SpillGraph};
