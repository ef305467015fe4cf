//! The exits inside one tile, without counts: [`TileExits`].
ghost use Rattle.std.specs.Prelude.{◌≡◌, ◌<◌, ℕ, length, slice_index_or, IfOk, None};
ghost use Rattle.terrain.specs.StoredCells.{uncounted};
ghost use Rattle.tiles.specs.Cutting.{IsInBounds, index_in, entry_in};
ghost use Rattle.drainage.specs.Drained.{AllFlowEnds};
ghost use Rattle.flow.specs.TileFlow.{directed_by, IsFlow, IsTileExits, exit_in};
ghost use Rattle.flow.specs.TileLinks.{where_data, links_by};
ghost use Rattle.flow.specs.Whole.{is_outlet_code};
ghost use Rattle.flow.specs.RimGraph.{next_exit_in};
ghost use Rattle.flow.specs.Numbering.{AreExitNumbers};

use crate::cells::tile_codes;
use crate::end_numbers::EndNumbering;
use crate::ends::Paths;
use crate::rim::{end_in, rim_ends};
use crate::tile_links::TileLinks;
use drainage::Code;
use std::alloc::{AllocError, Global};
use std::marker::Model;
use terrain::Place;
use tiles::{Bounds, TileView};

/// The code and the exit of each data cell of a tile.
#[derive(Drop)]
pub struct TileExits {
    bounds: Bounds,
    links: TileLinks,
    // The index where each rim cell's path along links ends, by `Bounds::side_number` with this
    // tile as the largest. For other cells `end_in` follows the links. A cell without data is
    // linked to itself, and `exit_at` returns `None` for it.
    rim_ends: Vec<u32>,
}

impl Model for TileExits {
    ghost use Rattle.flow.specs.TileFlow.{Flow};
    ghost use Rattle.flow.specs.TileLinks.{AreFlowLists, ends_by, flow_by};

    ghost Value = { Flow };

    ghost view = { λ f. flow_by f.bounds f.links.codes (ends_by f.links.links) };

    ghost invariant = { λ f. AreFlowLists f.bounds f.links.codes f.links.links f.rim_ends.items };
}

impl TileExits {
    /// Returns the code at `place`; `None` outside the tile or without data.
    pub(crate) fn code(&self, place: Place) -> Option<Code>
        ensures { result ≡ entry_in self.now.bounds self.now.codes place }
    {
        if self.bounds.contains(place) {
            self.links.code(self.bounds.index_of(place))
        } else {
            None
        }
    }

    /// Returns the tile's first row and column, and its size.
    #[inline(always)]
    pub(crate) fn bounds(&self) -> Bounds
        ensures value { result ≡ self.now.bounds }
        ensures lawful { IsFlow self.now }
    {
        self.bounds
    }

    /// Returns the codes and links of the tile's cells.
    #[inline(always)]
    pub(crate) fn links(&self) -> &TileLinks
        ensures codes { result.now.codes ≡ self.now.codes }
        ensures links { result.now.links ≡ links_by self.now.bounds self.now.codes }
    {
        &self.links
    }

    /// Returns the exit of a place in the tile; `None` without data.
    #[inline(always)]
    fn exit_at(&self, place: Place) -> Option<Place>
        requires { IsInBounds self.now.bounds place }
        ensures { result ≡ slice_index_or self.now.exits (index_in self.now.bounds place) None }
    {
        let end = end_in(self.bounds, &self.links, &self.rim_ends, place);
        where_data(
            self.links.code(self.bounds.index_of(place)),
            self.bounds.place_at(end),
        )
    }

    /// Returns for each cell the number of its exit; `numbers` has those of the tile's cells.
    pub(crate) fn exit_numbers<N: EndNumbering>(
        &self,
        alloc: Global,
        numbers: &N,
    ) -> Result<Vec<u32>, AllocError>
        requires cells { (N.numbers numbers.now).cells ≡ length self.now.exits }
        requires few { (i : ℕ) → i < length self.now.exits →
            (N.numbers numbers.now).number i < uncounted }
        ensures { IfOk result
            (λ v. AreExitNumbers self.now (N.numbers numbers.now).number v.items) }
    {
        let links = &self.links;
        Paths { links, numbers }.end_numbers(alloc)
    }

    /// Returns the exit that leads water from `entry` out of the tile, if any.
    pub(crate) fn next_exit(&self, entry: Place) -> Option<Place>
        ensures { result ≡ next_exit_in self.now entry }
    {
        let exit = self.exit(entry)?;
        if is_outlet(self.code(exit)) {
            None
        } else {
            Some(exit)
        }
    }

    /// Returns the cell where the flow path of `place` leaves the tile or ends.
    /// `None` outside the tile or without data.
    pub(crate) fn exit(&self, place: Place) -> Option<Place>
        ensures { result ≡ exit_in self.now place }
    {
        if self.bounds.contains(place) {
            self.exit_at(place)
        } else {
            None
        }
    }
}

#[inline(always)]
pub(crate) fn is_outlet(code: Option<Code>) -> bool
    ensures { result ≡ is_outlet_code code }
{
    match code {
        Some(code) => code.number() == 0,
        None => false,
    }
}

/// Returns the exits of one tile of a map of directions.
pub(crate) fn tile_exits(
    alloc: Global,
    codes: &TileView<'_, Option<Code>>,
) -> Result<TileExits, AllocError>
    requires { AllFlowEnds (directed_by codes.now) }
    ensures { IfOk result (λ f.
        IsTileExits (directed_by codes.now) codes.now.cutting codes.now.tile f) }
{
    let bounds = codes.bounds();
    let cells = tile_codes(alloc, codes)?;
    let links = TileLinks::of_codes(alloc, bounds, &cells)?;
    let rim_ends = rim_ends(alloc, bounds, &links)?;
    Ok(TileExits {
        bounds,
        links,
        rim_ends,
    })
}

/// Returns `value` for a data cell, `None` for NODATA.
#[inline(always)]
pub(crate) fn where_data<X: Drop>(code: Option<Code>, value: X) -> Option<X>
    ensures { result ≡ where_data code value }
{
    match code {
        Some(_) => Some(value),
        None => None,
    }
}
