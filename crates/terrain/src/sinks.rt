//! Finds the first fault of a list of named sinks, and drops the list's repeats.
ghost use Rattle.std.specs.Prelude.{◌≡◌, ◌<◌, ◌≤◌, length, IfOk};
ghost use Rattle.std.specs.List.{list_any};
ghost use Rattle.terrain.specs.declared.sinks.SinkFault.TheVariants.{Outside, OnNodata, Memory};
ghost use Rattle.terrain.specs.Neighbours.{is_place};
ghost use Rattle.terrain.specs.Faults.{first_fault, place_fault};
ghost use Rattle.terrain.specs.Sinks.{each_once, most_sinks, sinks_fault};

use crate::grid::Grid;
use crate::place::Place;
use std::alloc::{AllocError, Global};

/// The greatest length of a list of sinks, repeats counted.
pub const MOST_SINKS: usize = 1_024;

/// Why a list of sinks is refused. Indices count the list's entries from 0.
#[derive(Clone, Copy, Debug, PartialEq, Eq)]
pub enum SinkFault {
    /// The sink at this index lies outside the grid.
    Outside(u32),
    /// The sink at this index has no data.
    OnNodata(u32),
    /// The list has more than [`MOST_SINKS`] entries.
    TooManySinks,
    /// An allocation failed.
    Memory,
}

impl From<AllocError> for SinkFault {
    ghost from_gives = { λ _ fault. fault ≡ Memory };

    fn from(_error: AllocError) -> Self {
        SinkFault::Memory
    }
}

fn sink_fault_at(grid: &Grid, sink: Place, index: u32) -> Option<SinkFault>
    ensures { result ≡ place_fault Outside OnNodata grid.now.terrain index sink }
{
    if sink.row >= grid.rows() || sink.col >= grid.cols() {
        return Some(SinkFault::Outside(index));
    }
    if grid.at(sink).is_none() {
        return Some(SinkFault::OnNodata(index));
    }
    None
}

fn first_bad_sink(grid: &Grid, sinks: &[Place]) -> Option<SinkFault>
    requires { length sinks.now ≤ most_sinks }
    ensures { result ≡ first_fault (place_fault Outside OnNodata grid.now.terrain) 0 sinks.now }
{
    for (index, sink) in sinks.iter().enumerate() {
        let fault = sink_fault_at(grid, *sink, index as u32);
        if fault.is_some() {
            return fault;
        }
    }
    None
}

/// Returns the first fault of `sinks`, or `None` if the grid accepts them.
/// Checks for more than [`MOST_SINKS`] entries first, then that each sink is a data cell.
pub fn sinks_fault(grid: &Grid, sinks: &[Place]) -> Option<SinkFault>
    ensures { result ≡ sinks_fault grid.now.terrain sinks.now }
{
    if sinks.len() > MOST_SINKS {
        return Some(SinkFault::TooManySinks);
    }
    first_bad_sink(grid, sinks)
}

pub(crate) fn is_one_of(places: &[Place], place: Place) -> bool
    ensures { result ≡ list_any (is_place place) places.now }
{
    places.contains(&place)
}

/// Returns each of `places` once, in the order of first naming.
pub(crate) fn each_once(alloc: Global, places: &[Place]) -> Result<Vec<Place>, AllocError>
    ensures { IfOk result (λ v. v.items ≡ each_once places.now) }
{
    let mut named: Vec<Place> = Vec::new(alloc);
    for place in places {
        if !is_one_of(&named, *place) {
            named.push(*place)?;
        }
    }
    Ok(named)
}
