//! Tests decimal words, and parses them and digits into whole numbers.
//!
//! Begin with [`scaled_value`] for heights, and with [`whole_number`] for each number in a word of
//! an observer, sink or gauge. Contracts cite the definitions of `terrain/specs/Decimal.antt` and
//! of `specs/Plain.antt`.
//!
//! Modules, callers first:
//!
//! - `decimal`: decimal texts and their values at a scale
//! - `digits`: whole numbers without sign or point
#![tactic(auto)]

mod decimal;
mod digits;

pub use decimal::{is_above_zero, is_decimal, plain_number, scaled_value};
pub use digits::{size, whole_number};
