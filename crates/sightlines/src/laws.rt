//! Theorems about crossings and about what is seen, as functions without code.
ghost use Rattle.std.specs.Prelude.{◌≡◌, ◌≤◌, ℕ, true};
ghost use Rattle.terrain.specs.Raster.{Terrain};
ghost use Rattle.terrain.specs.declared.observer.Observer.{Observer};
ghost use Rattle.terrain.specs.declared.place.Place.{Place};
ghost use Rattle.sightlines.specs.Sight.{CrossingsAreOnTheLine, is_seen};

/// Proves that crossings computed in unsigned numbers are on the line of sight.
/// For n > 0 and k at most n, the quotient of `toward a b n k` by `n` is a whole cell. The
/// remainder counts n-ths past that cell.
#[tactic(auto, using(crate::proofs::OnTheLine::crossings_are_on_the_line))]
pub fn crossings_are_on_the_line()
    ensures { CrossingsAreOnTheLine }
{}

/// Proves that a target stays seen as it is raised.
pub fn seen_targets_stay_seen()
    ensures { (t : Terrain) (o : Observer) (q : Place) (low high radius : ℕ) → low ≤ high
        → is_seen t o q low radius ≡ true → is_seen t o q high radius ≡ true }
{}
