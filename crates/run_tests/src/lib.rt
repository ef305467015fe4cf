//! Tests whole runs and their stages through their public calls.
//!
//! Modules:
//!
//! - `runs`: runs from bytes to bytes, also on failing devices
//! - `several`: several maps from one run
//! - `reading`: how far a run reads ahead in a long text
//! - `meeting`: two jobs at once, at each stage of each map
//! - `crowding`: as many jobs at once as workers
//! - `rounds`: the jobs of each round of directions
//! - `words`: command line, fault lines and progress
#![tactic(auto)]

#[cfg(test)]
mod crowding;
#[cfg(test)]
mod meeting;
#[cfg(test)]
mod reading;
#[cfg(test)]
mod rounds;
#[cfg(test)]
mod runs;
#[cfg(test)]
mod several;
#[cfg(test)]
mod words;
