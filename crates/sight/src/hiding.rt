//! Clears the flags of cells whose line of sight is blocked where it crosses a family's lines:
//! columns, or rows, on one side of the observer (`hide`).
ghost use Rattle.std.specs.Prelude.{◌≡◌, ℕ, ◌≤◌, false, OnOk, slice_set};
ghost use Rattle.sightlines.specs.Sight.{highest_eye};
ghost use Rattle.sightlines.specs.Walk.{AreHeights};
ghost use Rattle.sight.specs.Sweep.{IsFamily, IsAtCell, lead_of};
ghost use Rattle.sight.specs.LineBlocks.{AreLineTops};
ghost use Rattle.sight.specs.Hiding.{flag_index, AreHidden, IsApart, IsRay, IsExtent};

use crate::extent::Extent;
use crate::family::Family;
use crate::line_blocks::LineBlocks;
use crate::looking::SweepLookup;
use crate::ranks::{SweepFault, rank};
use horizons::Target;
use std::alloc::Global;
use terrain::Cell;

impl Family {
    /// Returns the index, in the list of flags, of the cell that a ray leads to.
    #[inline(always)]
    pub(crate) fn flag_index(self, extent: Extent, ray: Target) -> usize
        requires family { IsFamily self }
        requires strides { (extent.lines.stride ≤ 4096) × (extent.side.stride ≤ 4096) }
        requires ray { IsRay self extent ray }
        ensures { (y : ℕ) → IsAtCell self y ray
            → result ≡ flag_index extent (lead_of self ray.line) y }
    {
        let row = (self.lead_of(ray.line) - extent.lines.first) as usize * extent.lines.stride;
        let cell = (self.side.at as i32 + ray.offset) as u32;
        row + (cell - extent.side.first) as usize * extent.side.stride
    }

    /// Clears the flag of the cell that a ray leads to.
    #[inline(always)]
    fn clear_flag(self, extent: Extent, ray: Target, flags: &mut [bool])
        requires family { IsFamily self }
        requires extent { IsExtent self extent flags.old }
        requires ray { IsRay self extent ray }
        ensures { (y : ℕ) → IsAtCell self y ray
            → flags.new ≡ slice_set flags.old (flag_index extent (lead_of self ray.line) y) false }
    {
        let index = self.flag_index(extent, ray);
        flags[index] = false;
    }
}

/// Clears the flags of the extent's cells that lines of the family hide.
/// Targets are `height` units above their cells' ground.
pub(crate) fn hide(
    alloc: Global,
    cells: &[Cell],
    tops: &[Cell],
    blocks: LineBlocks,
    family: Family,
    extent: Extent,
    height: u32,
    flags: &mut [bool],
) -> Result<(), SweepFault>
    requires heights { AreHeights cells.now }
    requires tops { AreLineTops cells.now family tops.now blocks }
    requires family { IsFamily family }
    requires extent { IsExtent family extent flags.old }
    requires apart { IsApart extent }
    requires height { height ≤ highest_eye }
    ensures { OnOk result (AreHidden cells.now family extent height flags.old flags.new) }
{
    let rays = family.gather(alloc, extent, flags)?;
    let ranked = rank(alloc, &rays)?;
    let mut lookup = SweepLookup::new(alloc, &ranked.targets)?;
    for (number, ray) in rays.iter().enumerate() {
        lookup.go_to(cells, tops, blocks, family, ray.line, &ranked.targets)?;
        let rise = family.rise(cells, *ray, height);
        if lookup.hides(ranked.ranks[number] as usize, *ray, rise) {
            family.clear_flag(extent, *ray, flags);
        }
    }
    Ok(())
}
