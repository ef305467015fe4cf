//! Sets of a net's nodes, which tell whether two labels have met: [`LabelSets`].
//!
//! No caller relies on the sets: they choose which meetings a flood lists.
ghost use Rattle.std.specs.Prelude.{◌≤◌};

use std::alloc::{AllocError, Global};

/// Disjoint sets of a net's nodes.
#[derive(Drop)]
pub struct LabelSets {
    /// For each node a lower node of its set, or no lower number if none is lower.
    parents: Vec<u32>,
}

impl LabelSets {
    /// Makes a set for each node below `count`.
    pub fn of_nodes(alloc: Global, count: u32) -> Result<Self, AllocError> {
        Ok(LabelSets {
            parents: vec![in alloc; u32::MAX; count as usize]?,
        })
    }

    /// Returns a lower node of a node's set, or the node itself.
    #[inline(always)]
    fn parent(&self, node: u32) -> u32
        ensures { result ≤ node }
    {
        match self.parents.get(node as usize) {
            Some(parent) => node.min(*parent),
            None => node,
        }
    }

    /// Puts a node under another one of its set, a lower one, or under itself.
    #[inline(always)]
    pub(crate) fn set_parent(&mut self, node: u32, parent: u32) {
        if let Some(own) = self.parents.get_mut(node as usize) {
            *own = parent;
        }
    }

    /// Returns the lowest node of a node's set. Halves the way to it.
    fn first(&mut self, node: u32) -> u32 {
        let mut node = node;
        let mut parent = self.parent(node);
        while parent < node {
            let above = self.parent(parent);
            self.set_parent(node, above);
            node = above;
            parent = self.parent(node);
        }
        node
    }

    /// Returns a lower node of a node's set, mostly the lowest, or the node itself.
    #[inline(always)]
    pub fn set_of(&self, node: u32) -> u32 {
        self.parent(node)
    }

    /// Unites the sets of two nodes. Returns whether they were two sets.
    /// Both nodes then lead straight to the lowest, so [`set_of`](Self::set_of) is one for them.
    pub fn unite(&mut self, one: u32, other: u32) -> bool {
        let (first, second) = (self.first(one), self.first(other));
        let lowest = first.min(second);
        for node in [first, second, one, other] {
            self.set_parent(node, lowest);
        }
        first != second
    }
}
