//! A count of steps in 4 bytes: the fewest found so far for a cell, or unknown.
use terrain::OptionalCount;

/// The number stored for unknown steps, above every cell's steps.
/// A grid has at most 2^24 cells, and a cell has fewer steps than the grid has cells.
pub const NO_COUNT: u32 = 1 << 24;

/// A cell's steps as found so far, in 4 bytes: the fewest moves found, at one filled height, from
/// the cell to one that drains at once; or unknown.
pub type StepCount = OptionalCount<NO_COUNT>;
