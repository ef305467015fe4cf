//! Gives numbers to the nodes where paths end: [`EndNumbering`].
//!
//! Nodes are the cells of a grid, in row order, or those of [`Links`](crate::nodes::Links). The
//! flow paths of a grid end at outlets and, for catchments, at gauges, which get an outlet's code.
ghost use Rattle.std.specs.Prelude.{◌≡◌, ◌<◌};
ghost use Rattle.flow.specs.Numbering.{EndNumbers};

/// Numbers for the nodes where paths end. Jobs read them on several threads.
pub(crate) trait EndNumbering {
    // How many nodes there are, and the number given to each.
    ghost numbers: { Self → EndNumbers };

    /// Returns the number of the node with this index.
    fn number(&self, index: usize) -> u32
        requires { index < (numbers self.now).cells }
        ensures { result ≡ (numbers self.now).number index };
}
