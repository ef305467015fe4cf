//! Raises the targets of a tile's flagged cells by sweeps, until no crossing hides them
//! (`raise_blocked`).
ghost use Rattle.std.specs.Prelude.{◌≡◌, ℕ, ◌+◌, ◌*◌, ◌<◌, ◌≤◌, length, OnOk};
ghost use Rattle.std.specs.Prelude.{true, not, slice_index};
ghost use Rattle.terrain.specs.Neighbours.{IsInside};
ghost use Rattle.terrain.specs.declared.place.Place.{Place};
ghost use Rattle.tiles.specs.Cutting.{AreBounds, IsCutting, IsInBounds, index_in};
ghost use Rattle.sightlines.specs.Sight.{highest_eye, is_open, place_of};
ghost use Rattle.sightlines.specs.Walk.{AreHeights, IsElevation};
ghost use Rattle.sight.specs.Sweep.{IsFamily};
ghost use Rattle.sight.specs.Hiding.{IsApart, IsExtent};
ghost use Rattle.sight.specs.Sides.{IsTileAxis, family_of, extent_of};
ghost use Rattle.sight.specs.Flags.{flag_at};
ghost use Rattle.sight.specs.LineBlocks.{AreLineTops};
ghost use Rattle.sight.specs.Raising.{AreClear, AreRaised, AreTargetHeights, IsRaised};

use crate::extent::Extent;
use crate::family::Family;
use crate::line_blocks::LineBlocks;
use crate::looking::SweepLookup;
use crate::ranks::{SweepFault, rank};
use crate::sides::{TileAxis, family_of};
use crate::tile::ViewshedInput;
use std::alloc::Global;
use terrain::{Cell, Observer};
use tiles::Bounds;

/// Raises the targets of the extent's flagged cells over the lines of a family.
fn raise_over(
    alloc: Global,
    cells: &[Cell],
    tops: &[Cell],
    blocks: LineBlocks,
    family: Family,
    extent: Extent,
    flags: &[bool],
    targets: &mut [u32],
) -> Result<(), SweepFault>
    requires heights { AreHeights cells.now }
    requires tops { AreLineTops cells.now family tops.now blocks }
    requires family { IsFamily family }
    requires extent { IsExtent family extent flags.now }
    requires apart { IsApart extent }
    requires size { length targets.old ≡ length flags.now }
    requires targets { AreTargetHeights targets.old }
    ensures { OnOk result (AreRaised cells.now family extent flags.now targets.old targets.new) }
{
    let rays = family.gather(alloc, extent, flags)?;
    let ranked = rank(alloc, &rays)?;
    let mut lookup = SweepLookup::new(alloc, &ranked.targets)?;
    for (number, ray) in rays.iter().enumerate() {
        lookup.go_to(cells, tops, blocks, family, ray.line, &ranked.targets)?;
        let index = family.flag_index(extent, *ray);
        let rank = ranked.ranks[number] as usize;
        targets[index] = lookup.raise(cells, family, rank, *ray, targets[index]);
    }
    Ok(())
}

/// Raises the targets of flagged cells over the lines on either side of the observer.
/// The lines of both families are counted along the axis `lines`, and run along the axis `side`.
fn raise_on_both_sides(
    alloc: Global,
    cells: &[Cell],
    tops: &[Cell],
    blocks: LineBlocks,
    lines: TileAxis,
    side: TileAxis,
    eye: i64,
    flags: &[bool],
    targets: &mut [u32],
) -> Result<(), SweepFault>
    requires heights { AreHeights cells.now }
    requires tops { AreLineTops cells.now (family_of lines side eye) tops.now blocks }
    requires lines { IsTileAxis lines }
    requires side { IsTileAxis side }
    requires eye { IsElevation eye }
    requires inside { (x y : ℕ) → x < lines.tile.cells → y < side.tile.cells
        → x * lines.tile.stride + y * side.tile.stride < length flags.now }
    requires apart { IsApart (extent_of lines side) }
    requires size { length targets.old ≡ length flags.now }
    requires targets { AreTargetHeights targets.old }
    ensures { OnOk result
        (AreClear cells.now (family_of lines side eye) (extent_of lines side) flags.now targets.old
        targets.new) }
{
    let family = family_of(lines, side, eye);
    let extent = Extent {
        lines: lines.tile,
        side: side.tile,
    };
    raise_over(alloc, cells, tops, blocks, family, extent, flags, targets)?;
    raise_over(
        alloc,
        cells,
        tops,
        blocks,
        family.reverse(),
        extent,
        flags,
        targets,
    )
}

impl<'a> ViewshedInput<'a> {
    /// Raises the targets of flagged places until no crossing blocks their lines of sight.
    pub(crate) fn raise_blocked(
        &self,
        alloc: Global,
        observer: &Observer,
        bounds: Bounds,
        flags: &[bool],
        targets: &mut [u32],
    ) -> Result<(), SweepFault>
        requires lawful { IsCutting self.now.tiling.now }
        requires inside { AreBounds self.now.tiling.now bounds }
        requires observer { IsInside self.now.grid.now.terrain (place_of observer.now) }
        requires eye { observer.now.eye ≤ highest_eye }
        requires size { length flags.now ≡ bounds.rows * bounds.cols }
        requires targets { length targets.old ≡ length flags.now }
        requires low { (k : ℕ) → slice_index targets.old k ≡ 0 }
        ensures { OnOk result ((p : Place) → IsInBounds bounds p → flag_at bounds flags.now p ≡ true
            → IsRaised (λ h. not (is_open self.now.grid.now.terrain observer.now p h)) 0
            (slice_index targets.new (index_in bounds p))) }
    {
        let axes = self.axes(observer, bounds);
        let (columns, rows, eye) = (axes.columns, axes.rows, axes.eye);
        let cells = self.grid.cells();
        let tops = &self.tops.near;
        raise_on_both_sides(
            alloc,
            cells,
            tops,
            axes.column_blocks,
            columns,
            rows,
            eye,
            flags,
            targets,
        )?;
        raise_on_both_sides(
            alloc,
            cells,
            tops,
            axes.row_blocks,
            rows,
            columns,
            eye,
            flags,
            targets,
        )
    }
}
