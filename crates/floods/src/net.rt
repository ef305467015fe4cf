//! The trait [`Net`]: nodes, joins of two nodes at a height, and sources with heights.
ghost use Rattle.std.specs.Prelude.{◌≡◌, ◌<◌, ℕ, ℤ, Option, IfOk};
ghost use Rattle.floods.specs.Walk.{HasJust};

use smallvec::SmallVec;
use std::alloc::Global;
use terrain::{Height, NoMemory};

/// An arc: a neighbour of a node, and the height, in units, of their join.
#[derive(Clone, Copy, Debug, Default, PartialEq, Eq)]
pub struct Spill {
    pub to: u32,
    pub height: Height,
}

/// A net of nodes, numbered from 0. Joins and sources have heights.
pub trait Net {
    ghost node_count: { Self → ℕ };

    // Node a is joined to node b at this height.
    ghost joins: { Self → ℕ → ℕ → ℤ → Type 0 };

    // The height of a source; `None` for any other node.
    ghost source_height: { Self → ℕ → Option ℤ };

    /// Returns the number of nodes.
    fn nodes(&self) -> u32
        ensures { result ≡ node_count self.now };

    /// Returns the neighbours of a node, each with the height of the join.
    ///
    /// # Errors
    ///
    /// [`NoMemory`] if an allocation fails.
    fn neighbours(&self, alloc: Global, node: u32) -> Result<SmallVec<Spill, 8>, NoMemory>
        requires { node < node_count self.now }
        ensures { IfOk result (λ v. HasJust (joins self.now node) v.items) };

    /// Returns the height of a source; `None` for any other node.
    fn source(&self, node: u32) -> Option<Height>
        requires { node < node_count self.now }
        ensures { result ≡ source_height self.now node };

    // Only nodes of the net are joined.
    ghost joined_inside: { (net : Self) (a b : ℕ) (h : ℤ) → joins net a b h → b < node_count net };

    // A join has the same height from both of its nodes.
    ghost joined_back: { (net : Self) (a b : ℕ) (h : ℤ) → joins net a b h → joins net b a h };
}
