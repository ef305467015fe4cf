//! Parses the command line into a map and its options.
//!
//! [`parse`] returns the requested [`Options`]; `clap` assigns words to options.
//!
//! Modules, callers first:
//!
//! - `words`: parses the command line
//! - `program`: declares subcommands and options
//! - `help`: the long texts of `--help`
//! - `options`: a map and its options, with tile side, workers and scale within limits
//! - `map`: the six maps, and several of them together
//! - `map_words`: parses the words that name several maps
//! - `place_words`: parses observer, gauge and sink words
//! - `laws`: theorems about the definitions
#![tactic(auto)]

mod help;
pub mod laws;
mod map;
mod map_words;
mod options;
mod place_words;
mod program;
mod words;

pub use map::{DrainageMap, Map};
pub use map_words::MapsFault;
pub use options::Options;
pub use place_words::{parse_observer, parse_sink};
pub use words::{WordsFault, parse};

/// The program's version, which CHANGELOG.md lists first.
pub const VERSION: &str = "0.2.0";
