//! Horizons: how high the ground rises between an observer and each of many targets.
//!
//! Targets are sorted by slope: cells aside per row or column outward from the observer. A
//! [`Horizon`] is a function of a target's index, made of pieces that are straight over the slope.
//! [`push_greater`] extends a horizon by the greater of two ramps at each target. All is computed
//! in whole numbers, at the slopes of targets only. Each `end` is exclusive.
//!
//! Modules, callers first:
//!
//! - `merging`: the greater of two ramps
//! - `horizon`: pieces of ramps
//! - `ramp`: a straight line over slopes
//! - `target`: a cell by its row or column outward, and its offset along that
#![tactic(auto)]

mod horizon;
mod merging;
mod ramp;
mod target;

pub use horizon::{Cursor, Horizon, Piece};
pub use merging::{is_never_above, push_greater};
pub use ramp::{Ramp, Value};
pub use target::Target;
