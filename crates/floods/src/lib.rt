//! The flood of a net: finds the level and the label of each node.
//!
//! A walk follows joins from a node to a source. Its crest is the greatest of the joins' heights
//! and the source's height. A node's level is the least crest of its walks, and its label a source
//! where a walk of that crest ends. An arc is a join seen from one of its nodes.
//!
//! Begin with [`flood`] over any [`Net`]. [`flood_net`] returns the levels and labels in lists
//! that take less memory.
//!
//! Modules, callers first:
//!
//! - `flooding`: the flood
//! - `net`: nodes, joins and sources
//! - `queue`: the priority queue of nodes
//! - `heights`: lists of heights, some of them missing
//! - `node_labels`: the label of each node
#![tactic(auto)]

mod flooding;
mod heights;
mod net;
mod node_labels;
mod queue;

pub use flooding::{Flooded, FloodedNet, flood, flood_net};
pub use heights::HeightList;
pub use net::{Net, Spill};
pub use node_labels::{NodeLabels, label_of};
