//! The least target heights of one tile, lowered observer by observer.
//!
//! Walks raise one target after the other; a sweep raises those of all cells together. A sweep
//! costs about the same on all ground, and less than walks unless a tile is small or in full view.
ghost use Rattle.std.specs.Prelude.{◌≡◌, ℕ, ◌+◌, ◌*◌, ◌<◌, ◌≤◌, false, [], length, None, OnOk, slice_index, slice_index_or};
ghost use Rattle.terrain.specs.Neighbours.{IsInside};
ghost use Rattle.tiles.specs.Cutting.{AreBounds, IsCutting, place_in};
ghost use Rattle.tile_maps.specs.Maps.{IsMadeUpTo};
ghost use Rattle.sightlines.specs.Sight.{highest_eye, place_of};
ghost use Rattle.sight.specs.Rise.{IsRiseAt};
ghost use Rattle.sight.specs.Lowered.{AreLow, AreLowered, IsLowered, limit_of, lowered_to};

use crate::by_place::{PlaceMap, entries};
use crate::flagging::{SAMPLES, sample_at};
use crate::heights::HIGHEST_TARGET;
use crate::ranks::SweepFault;
use crate::tile::ViewshedInput;
use sightlines::{WalkCache, is_candidate, least_height};
use std::alloc::{AllocError, Global};
use terrain::{Count, NoMemory, Observer, Place};
use tile_jobs::Gate;
use tile_maps::TileMap;
use tiles::{Bounds, Tiling};

/// From this side on, in cells, a tile is swept, unless sampled walks are short.
const SWEPT_SIDE: u32 = 32;

/// Up to this number of crossings tested by all sampled walks, these are short.
const SHORT_CROSSINGS: u32 = 16 * SAMPLES;

/// Lowers the values of flagged cells to their targets' heights.
fn lower_to(flags: &[bool], targets: &[u32], values: &mut [Count])
    requires flags { length flags.now ≡ length values.old }
    requires targets { length targets.now ≡ length values.old }
    requires low { AreLow values.old }
    ensures { (k : ℕ) → k < length values.old → slice_index_or values.new k None
        ≡ lowered_to (slice_index_or flags.now k false) (slice_index targets.now k)
        (slice_index_or values.old k None) }
{
    for index in 0..values.len() {
        let limit = values[index].value().unwrap_or(HIGHEST_TARGET + 1);
        if flags[index] && targets[index] < limit {
            values[index] = Count::of(targets[index]);
        }
    }
}

/// Returns the place of an index in the row order of the bounds.
#[inline(always)]
fn place_in(bounds: Bounds, index: usize) -> Place
    requires inside { (bounds.top + bounds.rows ≤ 4096) × (bounds.left + bounds.cols ≤ 4096) }
    requires index { index < bounds.rows * bounds.cols }
    ensures { result ≡ place_in bounds index }
{
    let cols = bounds.cols as usize;
    Place {
        row: bounds.top + (index / cols) as u32,
        col: bounds.left + (index % cols) as u32,
    }
}

/// Whether an observer sees a cell at some height, if no crossing is in the way.
#[derive(Drop)]
struct Candidates<'a, 'i> {
    input: &'i ViewshedInput<'a>,
    observer: &'i Observer,
    ghost inside: { IsInside input.now.grid.now.terrain (place_of observer.now) },
    ghost eye: { observer.now.eye ≤ highest_eye },
}

impl<'a, 'i> PlaceMap for Candidates<'a, 'i> {
    ghost use Rattle.terrain.specs.Neighbours.{IsInside};
    ghost use Rattle.sight.specs.Raising.{IsCandidate};

    type Entry = bool;

    ghost inside = { λ m. IsInside m.input.now.grid.now.terrain };

    ghost has = { λ m. IsCandidate m.input.now.grid.now.terrain m.observer.now m.input.now.radius };

    fn entry(&self, place: Place) -> bool {
        is_candidate(self.input.grid, self.observer, place, self.input.radius)
    }
}

impl<'a> ViewshedInput<'a> {
    /// Returns the lesser of a value and the least height at which one more observer sees a place.
    #[inline(always)]
    fn lowered(
        &self,
        observer: &Observer,
        place: Place,
        value: Count,
        walked: &mut WalkCache,
    ) -> Count
        requires observer { IsInside self.now.grid.now.terrain (place_of observer.now) }
        requires eye { observer.now.eye ≤ highest_eye }
        requires place { IsInside self.now.grid.now.terrain place }
        requires value { limit_of value ≤ highest_eye + 1 }
        ensures { IsLowered self.now.grid.now.terrain observer.now self.now.radius place value
            result }
    {
        let limit = value.value().unwrap_or(HIGHEST_TARGET + 1);
        let least = least_height(
            self.grid,
            self.tops,
            observer,
            place,
            limit,
            self.radius,
            walked,
        );
        if least < limit {
            Count::of(least)
        } else {
            value
        }
    }

    /// Lowers each value of a tile, by walks, to the least height at which its cell is seen.
    fn lower_by_walks(&self, observer: &Observer, bounds: Bounds, values: &mut [Count])
        requires lawful { IsCutting self.now.tiling.now }
        requires inside { AreBounds self.now.tiling.now bounds }
        requires observer { IsInside self.now.grid.now.terrain (place_of observer.now) }
        requires eye { observer.now.eye ≤ highest_eye }
        requires size { length values.old ≡ bounds.rows * bounds.cols }
        requires low { AreLow values.old }
        ensures { AreLowered self.now.grid.now.terrain observer.now self.now.radius bounds
            values.old values.new }
    {
        let mut walked = WalkCache::none();
        for index in 0..values.len() {
            let place = place_in(bounds, index);
            values[index] = self.lowered(observer, place, values[index], &mut walked);
        }
    }

    /// Whether walks to a tile's cells test few crossings, judged by a sample.
    fn are_walks_short(&self, observer: &Observer, bounds: Bounds) -> bool
        requires lawful { IsCutting self.now.tiling.now }
        requires inside { AreBounds self.now.tiling.now bounds }
        requires observer { IsInside self.now.grid.now.terrain (place_of observer.now) }
        requires eye { observer.now.eye ≤ highest_eye }
    {
        let mut walked = WalkCache::none();
        for step in 0..SAMPLES {
            let place = sample_at(bounds, step);
            self.lowered(observer, place, Count::none(), &mut walked);
            if walked.crossings_tested > SHORT_CROSSINGS {
                return false;
            }
        }
        true
    }

    /// Lowers each value of a tile by walks or sweeps, whichever are likely to be faster.
    fn lower_values(
        &self,
        alloc: Global,
        observer: &Observer,
        bounds: Bounds,
        values: &mut [Count],
    ) -> Result<(), AllocError>
        requires lawful { IsCutting self.now.tiling.now }
        requires inside { AreBounds self.now.tiling.now bounds }
        requires observer { IsInside self.now.grid.now.terrain (place_of observer.now) }
        requires eye { observer.now.eye ≤ highest_eye }
        requires size { length values.old ≡ bounds.rows * bounds.cols }
        requires low { AreLow values.old }
        ensures { OnOk result (AreLowered self.now.grid.now.terrain observer.now self.now.radius
            bounds values.old values.new) }
    {
        let is_large = bounds.rows.min(bounds.cols) >= SWEPT_SIDE;
        if !is_large || self.are_walks_short(observer, bounds) {
            self.lower_by_walks(observer, bounds, values);
            return Ok(());
        }
        let candidates = Candidates {
            input: self,
            observer,
        };
        let flags = entries(&candidates, alloc, bounds)?;
        let mut targets = vec![in alloc; 0; flags.len()]?;
        match self.raise_blocked(alloc, observer, bounds, &flags, &mut targets) {
            Ok(()) => {
                lower_to(&flags, &targets, values);
                Ok(())
            }
            Err(SweepFault::Unsorted) => {
                self.lower_by_walks(observer, bounds, values);
                Ok(())
            }
            Err(SweepFault::Memory(error)) => Err(error),
        }
    }

    /// Lowers each value of a tile to the least height at which an observer sees its cell.
    /// Observers are parts of the job: calls `gate` after each.
    fn lower_by_observers<G: Gate>(
        &self,
        alloc: Global,
        gate: &G,
        bounds: Bounds,
        values: &mut [Count],
    ) -> Result<(), AllocError>
        requires lawful { IsCutting self.now.tiling.now }
        requires inside { AreBounds self.now.tiling.now bounds }
        requires values { IsMadeUpTo bounds
            (IsRiseAt self.now.grid.now.terrain [] self.now.radius)
            (bounds.rows * bounds.cols) values.old }
        ensures { OnOk result (IsMadeUpTo bounds
            (IsRiseAt self.now.grid.now.terrain self.now.observers.now self.now.radius)
            (bounds.rows * bounds.cols) values.new) }
    {
        for observer in self.observers {
            if self.reaches(observer, bounds) {
                self.lower_values(alloc, observer, bounds, values)?;
            }
            gate.finish_part(self.observers.len());
        }
        Ok(())
    }
}

/// A rise map whose gate is called after each observer of a tile.
#[derive(Drop)]
pub struct GatedRise<'a, 'g, G> {
    pub input: ViewshedInput<'a>,
    pub gate: &'g G,
}

impl<'a, 'g, G: Gate> TileMap for GatedRise<'a, 'g, G> {
    ghost use Rattle.sight.specs.Rise.{IsRiseAt};

    type Entry = Count;

    ghost cutting = { λ m. m.input.tiling.now };

    ghost has = { λ m. IsRiseAt m.input.grid.now.terrain m.input.observers.now m.input.radius };

    fn tiling(&self) -> Tiling {
        *self.input.tiling
    }

    fn tile(&self, alloc: Global, tile: u32) -> Result<Vec<Count>, NoMemory> {
        let bounds = self.input.tiling.bounds(tile);
        let cells = bounds.rows as usize * bounds.cols as usize;
        let mut values = vec![in alloc; Count::none(); cells]?;
        self.input
            .lower_by_observers(alloc, self.gate, bounds, &mut values)?;
        Ok(values)
    }
}
