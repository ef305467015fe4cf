//! Counts of steps that rounds pass on: a `Change` is a cell with a count.
//!
//! An entry is a change with which a round begins. A `Run` is the range of one job's entries.

use terrain::Place;

/// A cell and a count: a lower count found for the cell, or the known count from which one follows.
#[derive(Clone, Copy)]
pub(crate) struct Change {
    pub(crate) place: Place,
    pub(crate) count: u32,
}

/// A change with which a round begins, and the tile whose job applies it.
#[derive(Clone, Copy)]
pub(crate) struct TileEntry {
    pub(crate) tile: u32,
    pub(crate) change: Change,
}

/// The entries of one job, perhaps none: those at the indexes `from..end` of a round's list.
#[derive(Clone, Copy)]
pub(crate) struct Run {
    pub(crate) from: usize,
    pub(crate) end: usize,
}
