//! Tests the maps through their public calls.
//!
//! Modules:
//!
//! - `streams`: filled heights, codes, accumulations and basins of small terrains
//! - `maps`: compares a terrain's drainage maps, without catchments, with expected maps
//! - `stages`: calls filling and directions without a gate
//! - `ground`: builds, cuts and compares small grids
//! - `nodes`: floods a net of four nodes
//! - `filling`: floods of tiles, their spill graph, and filled heights
//! - `lowering`: compares filled heights with those of a plain algorithm
//! - `flats`: the steps of flats after one round over a tile
//! - `draining`: the direction of one cell, and refused numbers of workers
//! - `flows`: flow in tiles and over their rims
//! - `gauges`: catchments of gauges
//! - `seeing`: lines of sight and viewsheds
//! - `pits`: calls that may be refused memory
//! - `refused`: repeats a call that was refused memory
#![tactic(auto)]

#[cfg(test)]
mod draining;
#[cfg(test)]
mod filling;
#[cfg(test)]
mod flats;
#[cfg(test)]
mod flows;
#[cfg(test)]
mod gauges;
#[cfg(test)]
mod ground;
#[cfg(test)]
mod lowering;
#[cfg(test)]
mod maps;
#[cfg(test)]
mod nodes;
#[cfg(test)]
mod pits;
#[cfg(test)]
mod refused;
#[cfg(test)]
mod seeing;
#[cfg(test)]
mod stages;
#[cfg(test)]
mod streams;
