//! Theorems about viewsheds and rises, as functions without code.
ghost use Rattle.std.specs.Prelude.{◌≡◌, ◌↔◌, ◌<◌, ◌≤◌, ◌++◌, ℕ, List, Option, None, Some};
ghost use Rattle.terrain.specs.Raster.{Terrain};
ghost use Rattle.terrain.specs.Neighbours.{IsInside, entry_at, height_at};
ghost use Rattle.terrain.specs.declared.place.Place.{Place};
ghost use Rattle.sight.specs.Viewshed.{IsViewshed};
ghost use Rattle.sight.specs.Rise.{IsRise};
ghost use Rattle.terrain.specs.declared.observer.Observer.{Observer};

/// Proves that a viewshed is unique.
/// A terrain, observers, a target height and a radius have at most one viewshed.
pub fn viewsheds_are_one()
    ensures { (t : Terrain) (observers : List Observer) (target radius : ℕ)
        (values others : List (Option ℕ)) →
        IsViewshed t observers target radius values → IsViewshed t observers target radius others →
        values ≡ others }
{}

/// Proves that a rise is unique.
/// A terrain, observers and a radius have at most one rise.
pub fn rises_are_one()
    ensures { (t : Terrain) (observers : List Observer) (radius : ℕ)
        (values others : List (Option ℕ)) →
        IsRise t observers radius values → IsRise t observers radius others → values ≡ others }
{}

/// Proves that a rise is 0 exactly where the ground is seen.
pub fn rise_is_zero_where_ground_is_seen()
    ensures { (t : Terrain) (observers : List Observer) (radius : ℕ)
        (values seen : List (Option ℕ)) →
        IsRise t observers radius values → IsViewshed t observers 0 radius seen → (p : Place) →
        IsInside t p → (entry_at t.cols t.rows values p ≡ Some 0)
        ↔ ((n : ℕ) × (entry_at t.cols t.rows seen p ≡ Some n) × (0 < n)) }
{}

/// Proves that further observers raise no value.
pub fn observers_raise_nothing()
    ensures { (t : Terrain) (observers more : List Observer) (radius : ℕ)
        (values lower : List (Option ℕ)) →
        IsRise t observers radius values → IsRise t (observers ++ more) radius lower →
        (p : Place) (n : ℕ) → IsInside t p → entry_at t.cols t.rows values p ≡ Some n →
        ((m : ℕ) × (entry_at t.cols t.rows lower p ≡ Some m) × (m ≤ n)) }
{}

/// Proves that NODATA cells have no rise, and that no rise is above 1,000,000.
pub fn rises_are_of_data_cells()
    ensures { (t : Terrain) (observers : List Observer) (radius : ℕ)
        (values : List (Option ℕ)) → IsRise t observers radius values → (p : Place) (n : ℕ) →
        IsInside t p → entry_at t.cols t.rows values p ≡ Some n →
        (((height_at t p) ≡ None → ⊥) × (n ≤ 1000000)) }
{}
