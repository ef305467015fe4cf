//! The viewshed values of one tile, counted observer by observer.
ghost use Rattle.std.specs.Prelude.{◌≡◌, ℕ, ◌+◌, ◌-◌, ◌*◌, ◌<◌, [], length, None, IfSome, OnOk, option_map, slice_index_or, false};
ghost use Rattle.std.specs.Bool.{OnFalse};
ghost use Rattle.terrain.specs.Neighbours.{IsInside};
ghost use Rattle.terrain.specs.declared.place.Place.{Place};
ghost use Rattle.tiles.specs.Cutting.{AreBounds, IsInBounds, Cuts, IsCutting};
ghost use Rattle.tile_maps.specs.Maps.{IsMadeUpTo};
ghost use Rattle.std.proofs.Props.{props};
ghost use Rattle.sightlines.specs.Blocks.{IsTops};
ghost use Rattle.sightlines.specs.Sight.{is_seen, place_of};
ghost use Rattle.sight.specs.Viewshed.{most_observers};
ghost use Rattle.sight.specs.Viewed.{HasValue, counted, AreAtMost, IsFaultless};

use crate::by_place::{PlaceMap, entries};
use crate::reach::is_any_in_reach;
use sightlines::MaxHeights;
use std::alloc::{AllocError, Global};
use terrain::{Count, Grid, NoMemory, Observer, Place};
use tile_jobs::Gate;
use tile_maps::TileMap;
use tiles::{Bounds, Tiling};

/// The grid, its blocks' greatest heights, its tiling and a viewshed's arguments.
/// Observers, target height and radius have no fault.
#[derive(Drop)]
pub struct ViewshedInput<'a> {
    pub grid: &'a Grid,
    pub tops: &'a MaxHeights,
    pub observers: &'a [Observer],
    pub target_height: u32,
    pub radius: u32,
    pub tiling: &'a Tiling,
    ghost cut: { Cuts tiling.now grid.now.terrain },
    ghost topped: { IsTops grid.now.terrain tops.now } by { Prim.hlevel props },
    ghost faultless: { IsFaultless grid.now.terrain observers.now target_height radius },
}

fn one_more(value: Count) -> Count
    requires { IfSome value (λ n. n < most_observers) }
    ensures { result ≡ option_map (λ n. n + 1) value }
{
    match value.value() {
        None => Count::none(),
        Some(number) => Count::of(number + 1),
    }
}

/// Adds 1 to the value of each flagged cell; no data stays no data.
fn count_seen(seen: &[bool], values: &mut [Count])
    requires size { length seen.now ≡ length values.old }
    requires few { AreAtMost 1023 values.old }
    ensures { (k : ℕ) → slice_index_or values.new k None
        ≡ counted (slice_index_or values.old k None) (slice_index_or seen.now k false) }
{
    for (index, flag) in seen.iter().enumerate() {
        if *flag {
            values[index] = one_more(values[index]);
        }
    }
}

impl<'a> ViewshedInput<'a> {
    /// Whether a tile has a place within the radius of an observer.
    pub(crate) fn reaches(&self, observer: &Observer, bounds: Bounds) -> bool
        requires lawful { IsCutting self.now.tiling.now }
        requires inside { AreBounds self.now.tiling.now bounds }
        requires observer { IsInside self.now.grid.now.terrain (place_of observer.now) }
        ensures { OnFalse result ((p : Place) (height : ℕ) → IsInBounds bounds p
            → is_seen self.now.grid.now.terrain observer.now p height self.now.radius ≡ false) }
    {
        let eye = Place {
            row: observer.row,
            col: observer.col,
        };
        is_any_in_reach(eye, bounds, self.radius)
    }

    /// Adds to each value of a tile the number of observers that see its cell.
    /// Overwrites `seen`. Observers are parts of the job: calls `gate` after each that succeeds.
    fn count_observers<G: Gate>(
        &self,
        alloc: Global,
        gate: &G,
        bounds: Bounds,
        seen: &mut [bool],
        values: &mut [Count],
    ) -> Result<(), AllocError>
        requires lawful { IsCutting self.now.tiling.now }
        requires inside { AreBounds self.now.tiling.now bounds }
        requires size { length seen.old ≡ bounds.rows * bounds.cols }
        requires values { IsMadeUpTo bounds
            (HasValue self.now.grid.now.terrain [] self.now.target_height self.now.radius)
            (bounds.rows * bounds.cols) values.old }
        ensures { OnOk result (IsMadeUpTo bounds
            (HasValue self.now.grid.now.terrain self.now.observers.now self.now.target_height
            self.now.radius)
            (bounds.rows * bounds.cols) values.new) }
    {
        for observer in self.observers {
            if self.reaches(observer, bounds) {
                self.flag_seen(alloc, observer, bounds, seen)?;
                count_seen(seen, values);
            }
            gate.finish_part(self.observers.len());
        }
        Ok(())
    }
}

// The values before any observer: 0, or no data.
impl<'a> PlaceMap for ViewshedInput<'a> {
    ghost use Rattle.terrain.specs.Neighbours.{IsInside};
    ghost use Rattle.sight.specs.Viewed.{HasValue};
    ghost use Rattle.std.specs.Prelude.{[]};

    type Entry = Count;

    ghost inside = { λ m. IsInside m.grid.now.terrain };

    ghost has = { λ m. HasValue m.grid.now.terrain [] m.target_height m.radius };

    fn entry(&self, place: Place) -> Count {
        if self.grid.at(place).is_none() {
            return Count::none();
        }
        Count::of(0)
    }
}

/// A viewshed whose gate is called after each observer of a tile.
#[derive(Drop)]
pub struct GatedViewshed<'a, 'g, G> {
    pub input: ViewshedInput<'a>,
    pub gate: &'g G,
}

impl<'a, 'g, G: Gate> TileMap for GatedViewshed<'a, 'g, G> {
    ghost use Rattle.sight.specs.Viewed.{HasValue};

    type Entry = Count;

    ghost cutting = { λ m. m.input.tiling.now };

    ghost has = { λ m. HasValue m.input.grid.now.terrain m.input.observers.now
        m.input.target_height m.input.radius };

    fn tiling(&self) -> Tiling {
        *self.input.tiling
    }

    fn tile(&self, alloc: Global, tile: u32) -> Result<Vec<Count>, NoMemory> {
        let input = &self.input;
        let bounds = input.tiling.bounds(tile);
        let mut values = entries(input, alloc, bounds)?;
        let mut seen = vec![in alloc; false; values.len()]?;
        input.count_observers(alloc, self.gate, bounds, &mut seen, &mut values)?;
        Ok(values)
    }
}
