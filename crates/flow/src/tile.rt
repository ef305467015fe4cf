//! The flow inside one tile: [`tile_flow`].
ghost use Rattle.std.specs.Prelude.{◌≡◌, ◌<◌, length, slice_index_or, IfOk, None};
ghost use Rattle.drainage.specs.Drained.{AllFlowEnds};
ghost use Rattle.flow.specs.TileFlow.{directed_by, IsTileFlow, through_in, exit_in};
ghost use Rattle.flow.specs.Streams.{AreSums};
ghost use Rattle.flow.specs.TileLinks.{links_by, weights_by, without_counts};

use crate::streams::totals;
use crate::tile_exits::{TileExits, tile_exits, where_data};
use crate::tile_links::TileLinks;
use drainage::Code;
use std::alloc::Global;
use std::marker::Model;
use terrain::{NoMemory, Place};
use tiles::TileView;

/// The flow inside one tile: each data cell's exit and count.
/// A cell's count is how many other cells' flow paths reach it inside the tile.
#[derive(Drop)]
pub struct TileFlow {
    exits: TileExits,
    // How many cells' flow paths contain each cell inside the tile.
    totals: Vec<u32>,
}

impl Model for TileFlow {
    ghost use Rattle.std.specs.Prelude.{◌≡◌, length};
    ghost use Rattle.flow.specs.Streams.{AreSums};
    ghost use Rattle.flow.specs.TileFlow.{Flow};
    ghost use Rattle.flow.specs.TileLinks.{links_by, weights_by, with_counts};

    ghost Value = { Flow };

    ghost view = { λ f. with_counts f.exits f.totals.items };

    ghost invariant = { λ f. (length f.totals.items ≡ length f.exits.codes)
        × AreSums (links_by f.exits.bounds f.exits.codes) (weights_by f.exits.codes)
        f.totals.items };
}

impl TileFlow {
    /// Returns how many other cells' flow paths reach `place` inside the tile.
    /// `None` outside the tile or without data.
    pub fn through(&self, place: Place) -> Option<u32>
        ensures { result ≡ through_in self.now place }
    {
        let bounds = self.exits.bounds();
        if bounds.contains(place) {
            self.count_at(bounds.index_of(place))
        } else {
            None
        }
    }

    /// Returns the tile's exits.
    #[inline(always)]
    pub(crate) fn exits(&self) -> &TileExits
        ensures { without_counts result.now ≡ without_counts self.now }
    {
        &self.exits
    }

    /// Returns the codes and links of the tile's cells.
    #[inline(always)]
    pub(crate) fn links(&self) -> &TileLinks
        ensures codes { result.now.codes ≡ self.now.codes }
        ensures links { result.now.links ≡ links_by self.now.bounds self.now.codes }
    {
        self.exits.links()
    }

    /// Returns how many cells' flow paths contain each cell inside the tile, in row order.
    #[inline(always)]
    pub(crate) fn totals(&self) -> &[u32]
        ensures { AreSums (links_by self.now.bounds self.now.codes) (weights_by self.now.codes)
            result.now }
    {
        &self.totals
    }

    /// Returns a cell's count by its index in the tile; `None` without data.
    #[inline(always)]
    fn count_at(&self, index: usize) -> Option<u32>
        requires { index < length self.now.codes }
        ensures { result ≡ slice_index_or self.now.through index None }
    {
        let code = self.exits.links().code(index);
        where_data(code, self.totals[index].saturating_sub(1))
    }

    /// Returns the cell where the flow path of `place` leaves the tile or ends.
    /// `None` outside the tile or without data.
    pub fn exit(&self, place: Place) -> Option<Place>
        ensures { result ≡ exit_in self.now place }
    {
        self.exits.exit(place)
    }
}

/// Returns the flow inside one tile of a map of directions, with counts.
///
/// # Errors
///
/// [`NoMemory`] if memory runs out.
///
/// # Examples
///
/// ```ignore
/// let flow = tile_flow(alloc, &tiling.view(directions.codes(), tile))?;
/// let exit = flow.exit(place);
/// ```
pub fn tile_flow(alloc: Global, codes: &TileView<'_, Option<Code>>) -> Result<TileFlow, NoMemory>
    requires { AllFlowEnds (directed_by codes.now) }
    ensures { IfOk result (λ f.
        IsTileFlow (directed_by codes.now) codes.now.cutting codes.now.tile f) }
{
    // The call brings the prover `IsView` of the codes, which `bounds` ensures.
    prove!(codes.bounds().cols > 0);
    let exits = tile_exits(alloc, codes)?;
    let links = exits.links();
    let weights = links.weights(alloc)?;
    let totals = totals(alloc, links, weights)?;
    Ok(TileFlow { exits, totals })
}
