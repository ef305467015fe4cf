//! Each data cell has exactly one filled height, the height of some cell.
//!
//! Filling a filled terrain changes nothing. If directions lead down, or over a flat to fewer
//! steps, each flow path ends at an outlet.
ghost use Rattle.std.specs.Prelude.{◌≡◌, ℤ, List, Option, Some, Contains};
ghost use Rattle.terrain.specs.Raster.{Terrain, IsTerrain};
ghost use Rattle.terrain.specs.Neighbours.{IsDataCell};
ghost use Rattle.terrain.specs.declared.place.Place.{Place};
ghost use Rattle.drainage.specs.Filled.{IsFilled, IsFilledHeight};
ghost use Rattle.drainage.specs.Drained.{Drained, IsDraining, directed_of, AllFlowEnds};

/// Each data cell has a filled height.
#[tactic(auto, using(crate::proofs::FilledExists::filled_height))]
pub fn each_has_filled_height()
    ensures { (t : Terrain) (p : Place) → IsDataCell t p → (level : ℤ) × IsFilledHeight t p level }
{}

/// A cell has at most one filled height.
#[tactic(auto, using(crate::proofs::Uniqueness::one_filled_height))]
pub fn filled_heights_are_unique()
    ensures { (t : Terrain) (p : Place) (l m : ℤ) → IsFilledHeight t p l → IsFilledHeight t p m →
        l ≡ m }
{}

/// A filled height is the height of some cell of the terrain.
pub fn filled_heights_occur()
    ensures { (t : Terrain) (p : Place) (level : ℤ) → IsFilledHeight t p level →
        Contains t.cells (Some level) }
{}

/// Filling a filled terrain changes nothing.
#[tactic(auto, using(crate::proofs::FilledTwice::filled_twice))]
pub fn filled_twice_is_filled()
    ensures { (t : Terrain) (levels : List (Option ℤ)) → IsFilled t levels →
        IsFilled (record t { cells = levels }) levels }
{}

/// In a map for which `IsDraining` holds, every flow path ends at an outlet.
/// There each code but 0 leads to a lower cell, or to one as high with fewer steps. A flow path
/// ends within as many moves as the grid has cells.
#[tactic(auto, using(crate::proofs::Ends::falling_ends))]
pub fn falling_ends()
    ensures { (d : Drained) → IsTerrain d.terrain → IsDraining d → AllFlowEnds (directed_of d) }
{}
