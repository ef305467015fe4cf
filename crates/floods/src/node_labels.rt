//! The labels of a net's nodes, in 4 bytes a node. A label is the number of a source.
ghost use Rattle.std.specs.Prelude.{◌≡◌, ◌<◌, ◌-◌, IfOk, None, Some, length, replicate, set, slice_index_or, is_some};
ghost use Rattle.floods.specs.Notes.{label_of, no_label, numbered_labels};

use std::alloc::{AllocError, Global};
use std::marker::Model;

/// The number stored for a node without a label. No node has this number.
const NO_LABEL: u32 = u32::MAX;

/// The label of each node, or none, in 4 bytes a node.
#[derive(Drop)]
pub struct NodeLabels {
    numbers: Vec<u32>,
}

impl Model for NodeLabels {
    ghost use Rattle.std.specs.Prelude.{ℕ, List, Option};
    ghost use Rattle.floods.specs.Notes.{numbered_labels};

    ghost Value = { List (Option ℕ) };

    ghost view = { λ l. numbered_labels l.numbers.items };
}

/// Decodes a number of [`NodeLabels::numbers`]: returns its label, or `None`.
#[inline(always)]
pub fn label_of(number: u32) -> Option<u32>
    ensures { result ≡ label_of number }
{
    if number == NO_LABEL {
        None
    } else {
        Some(number)
    }
}

impl NodeLabels {
    pub(crate) fn none(alloc: Global, nodes: usize) -> Result<Self, AllocError>
        ensures { IfOk result (λ l. l ≡ replicate nodes None) }
    {
        let numbers = vec![in alloc; NO_LABEL; nodes]?;
        Ok(NodeLabels { numbers })
    }

    #[inline(always)]
    pub(crate) fn has(&self, node: u32) -> bool
        requires { node < length self.now }
        ensures { result ≡ is_some (slice_index_or self.now node None) }
    {
        self.numbers[node as usize] != NO_LABEL
    }

    #[inline(always)]
    pub(crate) fn put(&mut self, node: u32, label: u32)
        requires node { node < length self.old }
        requires label { label < no_label }
        ensures { self.new ≡ set self.old node (Some label) }
    {
        self.numbers[node as usize] = label;
    }

    /// Returns the labels as numbers, which [`label_of`] decodes.
    pub fn numbers(&self) -> &[u32]
        ensures { self.now ≡ numbered_labels result.now }
    {
        &self.numbers
    }
}
