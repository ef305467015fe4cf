//! Flags the cells of a tile that one observer sees (`flag_seen`).
//!
//! A walk tests one cell's line of sight; a sweep tests those of all cells together. A sample of
//! walks decides whether to walk to all cells or to sweep the tile. A sweep costs about the same on
//! all ground; walks are long on open ground.
ghost use Rattle.std.specs.Prelude.{◌≡◌, ◌+◌, ◌-◌, ◌*◌, ◌<◌, ◌≤◌, length, OnOk};
ghost use Rattle.terrain.specs.Neighbours.{IsInside};
ghost use Rattle.tiles.specs.Cutting.{AreBounds, IsCutting, IsInBounds, IsWithinLimits};
ghost use Rattle.sightlines.specs.Sight.{highest_eye, place_of};
ghost use Rattle.sight.specs.Flags.{AreFlagsBelow, AreFlags, FlagsSeen, IsFlagOf};

use crate::ranks::SweepFault;
use crate::tile::ViewshedInput;
use sightlines::{WalkCache, may_see, sees_past_blocks};
use std::alloc::{AllocError, Global};
use terrain::{Observer, Place};
use tiles::Bounds;

/// The number of sampled walks that decide between walks and a sweep.
pub(crate) const SAMPLES: u32 = 64;

/// The default side of a tile, in cells.
const USUAL_SIDE: u32 = 256;

/// From this average of crossings per sampled walk on, a default tile is swept.
const SWEPT_CROSSINGS: u32 = 128;

/// Below this side of a tile, in cells, the limit on crossings grows no further.
const SWEPT_SIDE: u32 = 64;

/// How much of a line of sight is tested: all, or the crossings nearest the target.
#[derive(Clone, Copy)]
pub enum Check {
    Whole,
    FirstCrossings,
}

/// Returns a place of a sample of a tile's places.
/// Strides of 37 rows and 61 columns, both prime, scatter the sample in a tile of most sizes.
pub(crate) fn sample_at(bounds: Bounds, step: u32) -> Place
    requires step { step < 64 }
    requires some { (1 ≤ bounds.rows) × (1 ≤ bounds.cols) }
    requires inside { IsWithinLimits bounds }
    ensures { IsInBounds bounds result }
{
    Place {
        row: bounds.top + step * 37 % bounds.rows,
        col: bounds.left + step * 61 % bounds.cols,
    }
}

impl<'a> ViewshedInput<'a> {
    /// Flags the cells of a tile that an observer sees, and no others.
    pub(crate) fn flag_seen(
        &self,
        alloc: Global,
        observer: &Observer,
        bounds: Bounds,
        seen: &mut [bool],
    ) -> Result<(), AllocError>
        requires lawful { IsCutting self.now.tiling.now }
        requires inside { AreBounds self.now.tiling.now bounds }
        requires observer { IsInside self.now.grid.now.terrain (place_of observer.now) }
        requires eye { observer.now.eye ≤ highest_eye }
        requires size { length seen.old ≡ bounds.rows * bounds.cols }
        ensures { OnOk result (AreFlags bounds
            (FlagsSeen self.now.grid.now.terrain observer.now self.now.target_height
            self.now.radius) seen.new) }
    {
        if !self.is_sweep_cheaper(observer, bounds) {
            self.set_flags(Check::Whole, observer, bounds, seen);
            return Ok(());
        }
        self.set_flags(Check::FirstCrossings, observer, bounds, seen);
        match self.hide_blocked(alloc, observer, bounds, seen) {
            Ok(()) => Ok(()),
            Err(SweepFault::Unsorted) => {
                self.set_flags(Check::Whole, observer, bounds, seen);
                Ok(())
            }
            Err(SweepFault::Memory(error)) => Err(error),
        }
    }

    /// Whether walks to a tile's cells cost more than a sweep, judged by a sample.
    /// The limit on crossings is higher for smaller tiles: fewer cells share a sweep's cost.
    fn is_sweep_cheaper(&self, observer: &Observer, bounds: Bounds) -> bool
        requires lawful { IsCutting self.now.tiling.now }
        requires inside { AreBounds self.now.tiling.now bounds }
        requires observer { IsInside self.now.grid.now.terrain (place_of observer.now) }
        requires eye { observer.now.eye ≤ highest_eye }
    {
        let mut walked = WalkCache::none();
        for step in 0..SAMPLES {
            let place = sample_at(bounds, step);
            self.flag_of(Check::Whole, observer, place, &mut walked);
        }
        let side = bounds.rows.min(bounds.cols).max(SWEPT_SIDE);
        walked.crossings_tested / SAMPLES >= SWEPT_CROSSINGS * USUAL_SIDE / side
    }

    /// Sets the flag of each cell of a tile by a check of its line of sight.
    fn set_flags(&self, check: Check, observer: &Observer, bounds: Bounds, flags: &mut [bool])
        requires lawful { IsCutting self.now.tiling.now }
        requires inside { AreBounds self.now.tiling.now bounds }
        requires observer { IsInside self.now.grid.now.terrain (place_of observer.now) }
        requires eye { observer.now.eye ≤ highest_eye }
        requires size { length flags.old ≡ bounds.rows * bounds.cols }
        ensures { AreFlags bounds
            (IsFlagOf check self.now.grid.now.terrain observer.now self.now.target_height
            self.now.radius) flags.new }
    {
        let mut walked = WalkCache::none();
        for row in bounds.top..bounds.top + bounds.rows {
            self.set_row_flags(check, observer, bounds, row, &mut walked, flags);
        }
    }

    fn set_row_flags(
        &self,
        check: Check,
        observer: &Observer,
        bounds: Bounds,
        row: u32,
        walked: &mut WalkCache,
        flags: &mut [bool],
    )
        requires lawful { IsCutting self.now.tiling.now }
        requires inside { AreBounds self.now.tiling.now bounds }
        requires observer { IsInside self.now.grid.now.terrain (place_of observer.now) }
        requires eye { observer.now.eye ≤ highest_eye }
        requires row { (bounds.top ≤ row) × (row < bounds.top + bounds.rows) }
        requires flags { AreFlagsBelow bounds
            (IsFlagOf check self.now.grid.now.terrain observer.now self.now.target_height
            self.now.radius)
            ((row - bounds.top) * bounds.cols) flags.old }
        ensures { AreFlagsBelow bounds
            (IsFlagOf check self.now.grid.now.terrain observer.now self.now.target_height
            self.now.radius)
            ((row + 1 - bounds.top) * bounds.cols) flags.new }
    {
        let first = (row - bounds.top) as usize * bounds.cols as usize;
        for col in bounds.left..bounds.left + bounds.cols {
            flags[first + (col - bounds.left) as usize] = self.flag_of(
                check,
                observer,
                Place { row, col },
                walked,
            );
        }
    }

    #[inline(always)]
    fn flag_of(
        &self,
        check: Check,
        observer: &Observer,
        place: Place,
        walked: &mut WalkCache,
    ) -> bool
        requires observer { IsInside self.now.grid.now.terrain (place_of observer.now) }
        requires eye { observer.now.eye ≤ highest_eye }
        requires place { IsInside self.now.grid.now.terrain place }
        ensures { IsFlagOf check self.now.grid.now.terrain observer.now self.now.target_height
            self.now.radius place result }
    {
        match check {
            Check::Whole => sees_past_blocks(
                self.grid,
                self.tops,
                observer,
                place,
                self.target_height,
                self.radius,
                walked,
            ),
            Check::FirstCrossings => may_see(
                self.grid,
                observer,
                place,
                self.target_height,
                self.radius,
            ),
        }
    }
}
