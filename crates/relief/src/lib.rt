//! Makes maps of terrain grids, from bytes to bytes, and runs the program `relief`.
//!
//! [`run`] reads a grid and writes one map, or several. Of its contract `Runs`, the field `written`
//! is the headline of `docs/promises.md`. [`run_words`] parses a command line and runs what it
//! requests.
//!
//! Modules, callers first:
//!
//! - `command`: `run_words`, from a command line to an exit status
//! - `running`: `run`, from bytes to bytes
//! - `making`: cuts a grid into tiles, gives it the requested sinks and makes the map
//! - `several`: makes several maps from one filling, and writes them
//! - `fault_line`: writes the line of a fault
//! - `fault`: faults with their numbers, names and exit statuses
//! - `laws`: a theorem: a grid text and a request determine the text of the map
#![tactic(auto)]

mod command;
mod fault;
mod fault_line;
pub mod laws;
mod making;
mod running;
mod several;

pub use ascii_grid::{Counted, GridFault, Key, Place, SinkFault, WriteFailed};
pub use command::{Progress, run_words, run_words_reported};
pub use fault::RunFault;
pub use fault_line::tell;
pub use flow::GaugeFault;
pub use request::{DrainageMap, Map, Options, VERSION, parse_observer, parse_sink};
pub use running::{run, run_gated};
pub use sight::{Observer, SightFault};
pub use tile_jobs::{Gate, JobFault, NoGate};
pub use tiles::TilingFault;
