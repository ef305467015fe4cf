//! Finds the outlet where the flow path of each exit ends.
//!
//! A rim number is a rim cell's number among the rim cells of all tiles (`Tiling::rim_number`).
ghost use Rattle.std.specs.Prelude.{◌≡◌, ◌<◌, ℕ, length, slice_index, IfOk};
ghost use Rattle.tiles.specs.Cutting.{IsWithin, tile_count};
ghost use Rattle.drainage.specs.Following.{Directed};
ghost use Rattle.tiles.specs.RimNumbers.{rim_number_count};
ghost use Rattle.flow.specs.RimGraph.{AreFlowsOf, AreOutlets, targets_by, rim_links_by, rim_outlet, rim_outlets_by, listed_outlet, exit_by};

use crate::cells::is_place;
use crate::ends::ends;
use crate::exit_lists::ExitList;
use crate::rim_graph::{RimGraph, code_of};
use crate::tile_exits::is_outlet;
use std::alloc::{AllocError, Global};
use std::marker::Model;
use terrain::Place;
use tiles::Tiling;

/// The outlets where the flow paths of all exits into other tiles end.
#[derive(Drop)]
pub struct Outlets {
    tiling: Tiling,
    // by rim number; `None` where no exit leads into another tile
    outlets: Vec<Option<Place>>,
}

impl Model for Outlets {
    ghost use Rattle.std.specs.Prelude.{◌≡◌, length};
    ghost use Rattle.tiles.specs.RimNumbers.{rim_number_count};
    ghost use Rattle.flow.specs.RimGraph.{Outlets};

    ghost Value = { Outlets };

    ghost view = { λ o. record { cutting = o.tiling; listed = o.outlets.items } };

    ghost invariant = { λ o. length o.outlets.items ≡ rim_number_count o.tiling };
}

impl Outlets {
    /// Finds the outlets, following each exit's water from tile to tile.
    pub(crate) fn of_flows<F: ExitList>(
        alloc: Global,
        tiling: &Tiling,
        flows: &F,
        rim_graph: &RimGraph,
    ) -> Result<Outlets, AllocError>
        requires flows { (d : Directed) × AreFlowsOf d tiling.now (F.flows flows.now) }
        requires targets { rim_graph.now.targets.items ≡ targets_by tiling.now (F.flows flows.now) }
        requires links { rim_graph.now.links.items ≡ rim_links_by tiling.now (F.flows flows.now) }
        ensures cutting { IfOk result (λ o. o.cutting ≡ tiling.now) }
        ensures outlets { IfOk result (λ o. (d : Directed) →
            AreFlowsOf d tiling.now (F.flows flows.now) →
            AreOutlets d tiling.now (F.flows flows.now) o) }
    {
        let ends = ends(alloc, &rim_graph.links)?;
        let outlets = rim_outlets(alloc, tiling, flows, &rim_graph.targets, &ends)?;
        Ok(Outlets {
            tiling: *tiling,
            outlets,
        })
    }

    /// Returns the outlet of an exit's flow path; `None` if the place is no exit.
    /// `flows` must be those given to [`Outlets::of_flows`].
    pub(crate) fn outlet<F: ExitList>(&self, flows: &F, exit: Place) -> Option<Place>
        requires count { length (F.flows flows.now) ≡ tile_count self.now.cutting }
        requires within { IsWithin self.now.cutting exit }
        ensures { result ≡ listed_outlet self.now (F.flows flows.now) exit }
    {
        if is_outlet(code_of(&self.tiling, flows, exit)) {
            return Some(exit);
        }
        let number = self.tiling.rim_number(exit);
        if is_place(self.tiling.rim_place(number), exit) {
            self.outlets[number as usize]
        } else {
            None
        }
    }
}

#[inline(always)]
fn exit_of<F: ExitList>(tiling: &Tiling, flows: &F, place: Place) -> Option<Place>
    requires count { length (F.flows flows.now) ≡ tile_count tiling.now }
    requires within { IsWithin tiling.now place }
    ensures { result ≡ exit_by tiling.now (F.flows flows.now) place }
{
    flows.of_tile(tiling.tile_of(place)).exit(place)
}

/// Returns the outlet of the water that leaves its tile at rim number `number`.
/// `None` if no water leaves there.
fn outlet_of<F: ExitList>(
    tiling: &Tiling,
    flows: &F,
    targets: &[Option<Place>],
    ends: &[u32],
    number: u32,
) -> Option<Place>
    requires flows { (d : Directed) × AreFlowsOf d tiling.now (F.flows flows.now) }
    requires targets { targets.now ≡ targets_by tiling.now (F.flows flows.now) }
    requires number { number < rim_number_count tiling.now }
    requires size { length ends.now ≡ rim_number_count tiling.now }
    requires inside { (i : ℕ) → i < rim_number_count tiling.now →
        slice_index ends.now i < rim_number_count tiling.now }
    ensures { result ≡ rim_outlet tiling.now (F.flows flows.now) ends.now number }
{
    let Some(_) = targets[number as usize] else {
        return None;
    };
    let Some(entry) = targets[ends[number as usize] as usize] else {
        return None;
    };
    exit_of(tiling, flows, entry)
}

#[tactic(auto, using(crate::proofs::Ranges::mapped_next))]
fn rim_outlets<F: ExitList>(
    alloc: Global,
    tiling: &Tiling,
    flows: &F,
    targets: &[Option<Place>],
    ends: &[u32],
) -> Result<Vec<Option<Place>>, AllocError>
    requires flows { (d : Directed) × AreFlowsOf d tiling.now (F.flows flows.now) }
    requires targets { targets.now ≡ targets_by tiling.now (F.flows flows.now) }
    requires size { length ends.now ≡ rim_number_count tiling.now }
    requires inside { (i : ℕ) → i < rim_number_count tiling.now →
        slice_index ends.now i < rim_number_count tiling.now }
    ensures { IfOk result (λ v. v.items ≡ rim_outlets_by tiling.now (F.flows flows.now) ends.now) }
{
    let count = tiling.rim_number_count();
    let mut outlets = Vec::with_capacity(alloc, count as usize)?;
    for number in 0..count {
        outlets.push(outlet_of(tiling, flows, targets, ends, number))?;
    }
    Ok(outlets)
}
