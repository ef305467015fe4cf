//! Tests the public calls for grids, grid texts, tiles and jobs.
//!
//! Modules:
//!
//! - `boards`: boards of jobs and what their seats take
//! - `grids`: parts, cells and sinks of a grid
//! - `reading`: grid texts and their faults
//! - `texts`: texts and checks that the tests share
//! - `tilings`: tiles, rims, views and tile lists
//! - `workers`: jobs run on threads, and their gates
//! - `writing`: the text of grids and maps, and failing devices
#![tactic(auto)]

#[cfg(test)]
mod boards;
#[cfg(test)]
mod grids;
#[cfg(test)]
mod reading;
#[cfg(test)]
mod texts;
#[cfg(test)]
mod tilings;
#[cfg(test)]
mod workers;
#[cfg(test)]
mod writing;
