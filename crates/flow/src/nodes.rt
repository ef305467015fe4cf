//! Nodes linked downstream: [`Links`].
//!
//! Nodes are numbered from 0: the cells of a tile, or the rim numbers of all tiles
//! (`Tiling::rim_number`). A node without a next one is an end, and linked to itself.
ghost use Rattle.std.specs.Prelude.{◌≡◌, ℕ, ◌<◌, List, length, slice_index};

/// The links of nodes, read one by one in loops over all nodes.
pub(crate) trait Links {
    // The node to which each node is linked.
    ghost list: { Self → List ℕ };

    /// Returns the number of nodes.
    fn count(&self) -> usize
        ensures { result ≡ length (list self.now) };

    /// Returns the node to which `node` is linked.
    fn next(&self, node: usize) -> usize
        requires { node < length (list self.now) }
        ensures { result ≡ slice_index (list self.now) node };
}

impl Links for Vec<u32> {
    ghost list = { λ v. v.items };

    #[inline(always)]
    fn count(&self) -> usize {
        self.len()
    }

    #[inline(always)]
    fn next(&self, node: usize) -> usize {
        self[node] as usize
    }
}
