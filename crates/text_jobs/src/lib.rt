//! Writes the text of a grid or a map by several workers.
//!
//! The three writers have the same results as their namesakes in `ascii_grid`. If memory for jobs,
//! a thread or the number of workers is refused, the caller's thread writes the rows without jobs.
//!
//! Modules:
//!
//! - `writing`: writes maps as text
#![tactic(auto)]

mod writing;

pub use writing::{write_codes, write_framed_counts, write_heights};
