//! Finds the inflow at each rim cell and the outlet of each exit: [`RimLinks`].
//!
//! For callers of [`tile_flow`](crate::tile_flow). Combines the modules `inflows` and `outlets`.
ghost use Rattle.std.specs.Prelude.{◌≡◌, length, IfOk};
ghost use Rattle.tiles.specs.Cutting.{IsWithin};
ghost use Rattle.tiles.specs.RimNumbers.{rim_number_count};
ghost use Rattle.drainage.specs.Drained.{AllFlowEnds};
ghost use Rattle.drainage.specs.Following.{Directed};
ghost use Rattle.flow.specs.TileFlow.{AreTileFlows};
ghost use Rattle.flow.specs.Links.{AreLinks, inflow_in, outlet_in};

use crate::inflows::Inflows;
use crate::outlets::Outlets;
use crate::rim_graph::RimGraph;
use crate::tile::TileFlow;
use std::alloc::Global;
use std::marker::Model;
use terrain::{NoMemory, Place};
use tiles::Tiling;

/// The inflow at each rim cell, and the outlet of each exit.
#[derive(Drop)]
pub struct RimLinks<'a> {
    flows: &'a [TileFlow],
    inflows: Inflows,
    outlets: Outlets,
}

impl<'a> Model for RimLinks<'a> {
    ghost use Rattle.std.specs.Prelude.{◌≡◌, length};
    ghost use Rattle.tiles.specs.Cutting.{tile_count};
    ghost use Rattle.flow.specs.Links.{Links};

    ghost Value = { Links };

    ghost view = { λ l. record {
      cutting = l.outlets.cutting;
      flows = l.flows.now;
      inflows = l.inflows.listed;
      outlets = l.outlets.listed;
    } };

    ghost invariant = { λ l. (l.inflows.cutting ≡ l.outlets.cutting)
        × (length l.flows.now ≡ tile_count l.outlets.cutting) };
}

impl<'a> RimLinks<'a> {
    /// Finds the inflows and outlets from the flows of all tiles, given in tile order.
    ///
    /// # Errors
    ///
    /// [`NoMemory`] if memory runs out.
    ///
    /// # Examples
    ///
    /// ```ignore
    /// let links = RimLinks::join(alloc, &tiling, &flows)?;
    /// let (inflow, outlet) = (links.inflow(place), links.outlet(exit));
    /// ```
    pub fn join(
        alloc: Global,
        tiling: &Tiling,
        flows: &'a [TileFlow],
    ) -> Result<RimLinks<'a>, NoMemory>
        requires { (d : Directed) × AllFlowEnds d × AreTileFlows d tiling.now flows.now }
        ensures cutting { IfOk result (λ l. l.cutting ≡ tiling.now) }
        ensures links { IfOk result (λ l. (d : Directed) → AllFlowEnds d →
            AreTileFlows d tiling.now flows.now → AreLinks d tiling.now l) }
    {
        // The call brings the prover `IsCutting` of the tiling, which `cols` ensures.
        prove!(tiling.cols() > 0);
        let rim_graph = RimGraph::of(alloc, tiling, &flows)?;
        let inflows = Inflows::of_flows(alloc, tiling, flows, &rim_graph)?;
        let outlets = Outlets::of_flows(alloc, tiling, &flows, &rim_graph)?;
        Ok(RimLinks {
            flows,
            inflows,
            outlets,
        })
    }

    /// Returns the inflows alone.
    pub(crate) fn into_inflows(self) -> Inflows
        ensures cutting { result.cutting ≡ self.entry.cutting }
        ensures inflows { result.listed ≡ self.entry.inflows }
        ensures size { length result.listed ≡ rim_number_count result.cutting }
    {
        self.inflows
    }

    /// Returns how many cells' flow paths enter `place` from another tile.
    pub fn inflow(&self, place: Place) -> u32
        requires { IsWithin self.now.cutting place }
        ensures { result ≡ inflow_in self.now place }
    {
        self.inflows.inflow(place)
    }

    /// Returns the outlet of an exit's flow path; `None` if the place is no exit.
    pub fn outlet(&self, exit: Place) -> Option<Place>
        requires { IsWithin self.now.cutting exit }
        ensures { result ≡ outlet_in self.now exit }
    {
        self.outlets.outlet(&self.flows, exit)
    }
}
