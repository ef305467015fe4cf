//! The cells of a tile or a grid as a net, with neighbours joined, and the flood of that net.
//!
//! A flood finds the level and the label of each data cell. The level is the least crest of the
//! cell's paths, and the label is the place where a path of that crest ends.
//!
//! [`tile_flood`] floods one tile, [`flood_with_meetings`] also finds where its labels meet,
//! [`filled_heights`] a whole grid at once.
//!
//! Modules, callers first:
//!
//! - `tile`: the flood of one tile
//! - `whole`: the flood of a whole grid
//! - `labels`: the table of a tile's labels
//! - `levels`: the levels of a tile's cells, in as few bytes as fit
//! - `ends`: which labels are end cells
//! - `spreading`: the flood of a net from its lowest cells up
//! - `label_sets`: which labels of a net have met
//! - `node_order`: the nodes of a net by height
//! - `cell_net`: a rectangle of cells as a net
//! - `sinks`: the sinks in a rectangle of cells
#![tactic(auto)]

mod cell_net;
mod ends;
mod label_sets;
mod labels;
mod levels;
mod node_order;
mod sinks;
mod spreading;
mod tile;
mod whole;

pub use cell_net::CellNet;
pub use label_sets::LabelSets;
pub use labels::Labels;
pub use levels::Levels;
pub use tile::{FloodWithMeetings, Meeting, TileFlood, flood_with_meetings, tile_flood};
pub use whole::filled_heights;
