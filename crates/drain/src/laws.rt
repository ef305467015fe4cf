//! Each data cell of a filled terrain has one number of steps, below 2^24, and one direction.
//! `direction_of` gives the direction by the cell's surroundings.
//!
//! Counts that a round over all tiles leaves unchanged are the steps of a filled terrain. Each cell
//! that drains at once must have the count 0.
ghost use Rattle.std.specs.Prelude.{◌≡◌, ℕ, ◌*◌, ◌^◌, ◌<◌, List, length, Option};
ghost use Rattle.terrain.specs.Raster.{Terrain, IsTerrain};
ghost use Rattle.terrain.specs.Neighbours.{IsDataCell};
ghost use Rattle.terrain.specs.declared.place.Place.{Place};
ghost use Rattle.drainage.specs.Filled.{IsFilled};
ghost use Rattle.tiles.specs.Cutting.{Cutting, IsCutting, Cuts};
ghost use Rattle.drain.specs.Steps.{IsSteps, AreSteps};
ghost use Rattle.drain.specs.Beginning.{HasZeros, KeepsCounts};
ghost use Rattle.drain.specs.Directions.{IsDirection, AreDirections};
ghost use Rattle.drain.specs.Steepness.{direction_of};
ghost use Rattle.drain.specs.Fitting.{IsAround, IsFitting};
ghost use Rattle.drain.specs.declared.around.Around.{Around};

/// A cell has at most one number of steps.
#[tactic(auto, using(crate::proofs::Local::one_number_of_steps))]
pub fn steps_are_unique()
    ensures { (t : Terrain) (p : Place) (m n : ℕ) → IsSteps t p m → IsSteps t p n → m ≡ n }
{}

/// In a filled terrain each data cell has a number of steps.
#[tactic(auto, using(crate::proofs::Counted::has_steps))]
pub fn each_has_steps()
    ensures { (t : Terrain) (p : Place) → IsTerrain t → IsFilled t t.cells → IsDataCell t p →
        (n : ℕ) × IsSteps t p n }
{}

/// A cell has fewer than 2^24 steps.
/// A shortest walk meets no cell twice, and a terrain has at most 2^24 cells.
pub fn steps_are_few()
    ensures { (t : Terrain) (p : Place) (n : ℕ) → IsTerrain t → IsSteps t p n → n < 2 ^ 24 }
{}

/// In a filled terrain each data cell has exactly one direction.
#[tactic(auto, using(crate::proofs::Unique::has_direction))]
pub fn each_has_direction()
    ensures { (t : Terrain) (p : Place) → IsTerrain t → IsFilled t t.cells → IsDataCell t p →
        (code : ℕ) × IsDirection t p code × ((other : ℕ) → IsDirection t p other → other ≡ code) }
{}

/// The surroundings of a data cell are fitting, as [`direction`](crate::direction) requires.
pub fn surroundings_are_fitting()
    ensures { (t : Terrain) (steps : List (Option ℕ)) (p : Place) (a : Around) → IsTerrain t →
        AreSteps t steps → IsAround t steps p a → IsFitting a }
{}

/// The direction of a cell is `direction_of` its surroundings.
#[tactic(auto, using(crate::proofs::Laid::direction_is))]
pub fn direction_is_of_cell()
    ensures { (t : Terrain) (steps : List (Option ℕ)) (p : Place) (a : Around) → AreSteps t steps →
        IsAround t steps p a →
        IsDirection t p (direction_of a) }
{}

/// A terrain has at most one map of directions.
#[tactic(auto, using(crate::proofs::Unique::one_list_of_directions))]
pub fn directions_are_unique()
    ensures { (t : Terrain) (codes others : List (Option ℕ)) → AreDirections t codes →
        AreDirections t others → codes ≡ others }
{}

/// In a filled terrain, counts that a round leaves unchanged are the steps.
/// The round must be over all tiles, and each cell that drains at once must have the count 0.
#[tactic(auto, using(crate::proofs::Quiet::counts_are_steps))]
pub fn kept_counts_are_steps()
    ensures { (t : Terrain) (c : Cutting) (steps : List (Option ℕ)) (lists : ℕ → List (Option ℕ)) →
        IsTerrain t → IsFilled t t.cells → Cuts c t → IsCutting c → length steps ≡ t.cols * t.rows →
        HasZeros t steps → KeepsCounts t c steps lists → AreSteps t steps }
{}
