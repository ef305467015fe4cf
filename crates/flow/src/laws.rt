//! States laws of accumulations, basins and catchments, as contracts of functions without code.
ghost use Rattle.std.specs.Prelude.{◌≡◌, ◌≢◌, ◌+◌, ◌==◌, ◌&&◌, false, List, [], ◌∷◌, ◌++◌, Contains, count_by, is_some};
ghost use Rattle.terrain.specs.Raster.{IsTerrain};
ghost use Rattle.terrain.specs.Neighbours.{IsDataCell};
ghost use Rattle.terrain.specs.Ways.{places};
ghost use Rattle.terrain.specs.declared.place.Place.{Place};
ghost use Rattle.drainage.specs.Following.{code_at};
ghost use Rattle.drainage.specs.Drained.{Drained, IsDraining, directed_of};
ghost use Rattle.flow.specs.Counts.{accumulation, basin, drains_through};
ghost use Rattle.flow.specs.Catchments.{catchment, gauge_number, outlets};

/// If no other gauge drains through gauge `g`, `accumulation + 1` cells have the number of `g`.
/// So these are the cell of `g` and all other cells that drain through `g`.
pub fn highest_gauges_have_all_upstream_cells()
    ensures { (d : Drained) (gauges : List Place) (g : Place) → IsTerrain d.terrain → IsDraining d
        → IsDataCell d.terrain g → Contains gauges g
        → ((h : Place) → Contains gauges h → h ≢ g → drains_through (directed_of d) g h ≡ false)
        → count_by
        (λ p. is_some (code_at (directed_of d) p)
        && catchment (directed_of d) gauges p == gauge_number gauges g)
        (places d.terrain.cols d.terrain.rows)
        ≡ accumulation (directed_of d) g + 1 }
{}

/// With all outlets as gauges in row order, each data cell's catchment is its basin.
pub fn catchments_of_outlets_are_basins()
    ensures { (d : Drained) (p : Place) → IsTerrain d.terrain → IsDraining d →
        IsDataCell d.terrain p
        → catchment (directed_of d) (outlets (directed_of d)) p ≡ basin (directed_of d) p }
{}

/// An appended gauge changes only the catchments of cells that drain through it.
pub fn gauges_change_cells_upstream_alone()
    ensures { (d : Drained) (gauges : List Place) (g p : Place) →
        drains_through (directed_of d) g p ≡ false
        → catchment (directed_of d) (gauges ++ g ∷ []) p ≡ catchment (directed_of d) gauges p }
{}
