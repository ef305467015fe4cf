//! What a round reads: a filled grid, its tiling and the counts so far.
//!
//! [`RoundInput::lower`] is the one step by which rounds find lower counts: a cell's count is at
//! most one more than that of a neighbour of its height.
ghost use Rattle.std.specs.Prelude.{◌≡◌, ◌+◌, ◌*◌, ◌<◌, ◌≤◌, ◌↔◌, IsTrue, IfSome, OnOk};
ghost use Rattle.terrain.specs.Raster.{IsTerrain};
ghost use Rattle.terrain.specs.Neighbours.{IsInside, Touches, height_at, index_of};
ghost use Rattle.tiles.specs.Cutting.{Cuts, IsCutting, longest_axis, tile_count};
ghost use Rattle.drain.specs.Counts.{AreChanges, AreSoundCounts, IsWithinGrid, IsChange, IsCounted, count_of};

use crate::blocks::Blocks;
use crate::changes::Change;
use drainage::StepCount;
use std::alloc::AllocError;
use std::marker::Model;
use terrain::{Cell, Grid, Place};
use tiles::{Bounds, Tiling};

/// The filled grid, tiling and counts that a round reads. No round writes them.
#[derive(Drop)]
pub(crate) struct RoundInput<'a> {
    pub(crate) grid: &'a Grid,
    pub(crate) levels: &'a [Cell],
    pub(crate) tiling: &'a Tiling,
    pub(crate) steps: &'a [StepCount],
}

impl<'a> Model for RoundInput<'a> {
    ghost use Rattle.std.specs.Prelude.{◌≡◌};
    ghost use Rattle.drain.specs.Counts.{Counted, IsCountedTerrain};

    ghost Value = { Counted };

    ghost view = { λ r. record {
      terrain = r.grid.now.terrain;
      cutting = r.tiling.now;
      steps = r.steps.now;
    } };

    ghost invariant = { λ r. (r.levels.now ≡ r.grid.now.terrain.cells) × IsCountedTerrain (record {
      terrain = r.grid.now.terrain;
      cutting = r.tiling.now;
      steps = r.steps.now;
    }) };
}

impl<'a> RoundInput<'a> {
    /// Makes the input of a round.
    pub(crate) fn new(grid: &'a Grid, tiling: &'a Tiling, steps: &'a [StepCount]) -> Self
        requires cuts { Cuts tiling.now grid.now.terrain }
        requires counts { AreSoundCounts grid.now.terrain steps.now }
        ensures value { result ≡ record {
          terrain = grid.now.terrain;
          cutting = tiling.now;
          steps = steps.now;
        } }
        ensures lawful { IsTerrain grid.now.terrain }
    {
        RoundInput {
            grid,
            levels: grid.cells(),
            tiling,
            steps,
        }
    }

    /// Returns the row-order index of a cell.
    #[inline(always)]
    fn index(&self, place: Place) -> usize
        requires { IsInside self.now.terrain place }
        ensures value { result ≡ index_of self.now.terrain.cols place }
        ensures below { result < self.now.terrain.cols * self.now.terrain.rows }
        ensures limits { (self.now.terrain.cols ≤ longest_axis)
            × (self.now.terrain.rows ≤ longest_axis) }
    {
        place.index_in(self.tiling.cols())
    }

    /// Returns the number of the tile that holds a cell.
    pub(crate) fn tile_of(&self, place: Place) -> u32
        requires { IsInside self.now.terrain place }
        ensures { result < tile_count self.now.cutting }
    {
        self.tiling.tile_of(place)
    }

    /// Returns the bounds of the block that holds a cell.
    pub(crate) fn block(&self, blocks: Blocks, place: Place) -> Bounds
        requires { IsInside self.now.terrain place }
        ensures { IsWithinGrid self.now.terrain result }
    {
        blocks.bounds(self.tiling, place)
    }

    /// Returns the count of a cell, [`NO_COUNT`](drainage::NO_COUNT) where none is known.
    #[inline(always)]
    pub(crate) fn count(&self, place: Place) -> u32
        requires { IsInside self.now.terrain place }
        ensures { result ≡ count_of self.now.steps (index_of self.now.terrain.cols place) }
    {
        self.steps[self.index(place)].number()
    }

    /// Returns whether two cells have one filled height, or both have no data.
    #[inline(always)]
    fn is_level(&self, place: Place, other: Place) -> bool
        requires place { IsInside self.now.terrain place }
        requires other { IsInside self.now.terrain other }
        ensures { IsTrue result
            ↔ (height_at self.now.terrain place ≡ height_at self.now.terrain other) }
    {
        self.levels[self.index(other)].is_level_with(self.levels[self.index(place)])
    }

    /// Returns the count of a cell, `None` where none is known.
    #[inline(always)]
    fn known_count(&self, place: Place) -> Option<u32>
        requires { IsInside self.now.terrain place }
        ensures { IfSome result
            (λ count. IsCounted self.now.terrain (record { place = place; count = count })) }
    {
        self.steps[self.index(place)].value()
    }

    /// Returns the lower count of `to` that follows from `from`, `None` if that lowers none.
    #[inline(always)]
    pub(crate) fn lower(&self, from: Change, to: Place) -> Option<Change>
        requires from { IsCounted self.now.terrain from }
        requires to { IsInside self.now.terrain to × Touches to from.place }
        ensures place { IfSome result (λ change. change.place ≡ to) }
        ensures change { IfSome result (IsChange self.now.terrain self.now.steps) }
    {
        let count = from.count + 1;
        if count < self.steps[self.index(to)].number()
            && self.is_level(from.place, to)
            && to != from.place
        {
            Some(Change { place: to, count })
        } else {
            None
        }
    }

    /// Appends the lower counts in `row` that follow from `from`.
    #[inline(always)]
    fn push_along(
        &self,
        from: Change,
        row: u32,
        changes: &mut Vec<Change>,
    ) -> Result<(), AllocError>
        requires from { IsCounted self.now.terrain from }
        requires row { (row < self.now.terrain.rows) × (row < from.place.row + 2)
            × (from.place.row < row + 2) }
        requires old { AreChanges self.now.terrain self.now.steps changes.old.items }
        ensures { OnOk result (AreChanges self.now.terrain self.now.steps changes.new.items) }
    {
        let cols = self.tiling.cols();
        let first = from.place.col.max(1) - 1;
        let end = (from.place.col + 2).min(cols);
        for col in first..end {
            if let Some(change) = self.lower(from, Place { row, col }) {
                changes.push(change)?;
            }
        }
        Ok(())
    }

    /// Appends the lower counts of cells around `place` that follow from its count.
    pub(crate) fn push_around(
        &self,
        place: Place,
        changes: &mut Vec<Change>,
    ) -> Result<(), AllocError>
        requires place { IsInside self.now.terrain place }
        requires old { AreChanges self.now.terrain self.now.steps changes.old.items }
        ensures { OnOk result (AreChanges self.now.terrain self.now.steps changes.new.items) }
    {
        let Some(count) = self.known_count(place) else {
            return Ok(());
        };
        let rows = self.tiling.rows();
        let first = place.row.max(1) - 1;
        let end = (place.row + 2).min(rows);
        for row in first..end {
            self.push_along(Change { place, count }, row, changes)?;
        }
        Ok(())
    }

    /// Appends the lower counts that follow from the rim of a tile.
    pub(crate) fn push_around_rim(
        &self,
        tile: u32,
        changes: &mut Vec<Change>,
    ) -> Result<(), AllocError>
        requires lawful { IsCutting self.now.cutting }
        requires tile { tile < tile_count self.now.cutting }
        requires old { AreChanges self.now.terrain self.now.steps changes.old.items }
        ensures { OnOk result (AreChanges self.now.terrain self.now.steps changes.new.items) }
    {
        for place in self.tiling.rim(tile) {
            self.push_around(place, changes)?;
        }
        Ok(())
    }
}
