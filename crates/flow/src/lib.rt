//! Flow accumulation, basins and catchments of a map of directions.
//!
//! Begin with [`accumulation`], [`basins`] and [`catchments`]. Callers with jobs of their own use
//! [`tile_flow`] inside tiles and [`RimLinks`] between them.
//!
//! Modules: the maps, then flow inside a tile, then between tiles, then outlet numbers and laws:
//!
//! - `counting`: `accumulation`
//! - `basin`: `basins`
//! - `catchment`: `catchments`
//! - `gauges`: faults and numbers of gauges
//! - `numbering`: numbers cells by the ends of their flow paths
//! - `end_numbers`: the trait for numbers of nodes where paths end
//! - `flowing`: the flows of all tiles
//! - `tile`: the flow of one tile
//! - `tile_exits`: the exits of one tile, without counts
//! - `exit_lists`: the trait for lists of all tiles' exits
//! - `cells`: codes of a tile
//! - `tile_links`: codes and links of a tile's cells, one byte each
//! - `nodes`: the trait for links of nodes
//! - `streams`: weights summed along links
//! - `ends`: where paths along links end, and the numbers found there
//! - `rim`: rim cells and where their paths along links end
//! - `rim_graph`: the graph of exits into other tiles
//! - `inflows`: how many cells' flow paths enter each rim cell from another tile
//! - `outlets`: the outlet of each exit
//! - `links`: `RimLinks`, inflows and outlets together
//! - `outlet_numbers`: numbers of outlets
//! - `laws`: consequences of the definitions
#![tactic(auto)]

mod basin;
mod catchment;
mod cells;
mod counting;
mod end_numbers;
mod ends;
mod exit_lists;
mod flowing;
mod gauges;
mod inflows;
pub mod laws;
mod links;
mod nodes;
mod numbering;
mod outlet_numbers;
mod outlets;
mod rim;
mod rim_graph;
mod streams;
mod tile;
mod tile_exits;
mod tile_links;

pub use basin::basins;
pub use catchment::catchments;
pub use counting::accumulation;
pub use gauges::{GaugeFault, MOST_GAUGES, gauges_fault};
pub use links::RimLinks;
pub use tile::{TileFlow, tile_flow};
