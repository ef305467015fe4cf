//! Collects the rays of an extent's flagged cells, line by line of a family, from line 2 on.
//!
//! A ray leads from the observer to a target, seen from above. An extent is a part of the grid,
//! here a tile, with a flag for each cell. A family's lines are the columns, or the rows, on one
//! side of the observer.
ghost use Rattle.std.specs.Prelude.{◌≡◌, ℕ, ◌+◌, ◌-◌, ◌*◌, ◌^◌, ◌<◌, ◌≤◌, length, IfOk, OnOk};
ghost use Rattle.sight.specs.Sweep.{IsFamily, IsLine};
ghost use Rattle.sight.specs.Hiding.{target_at, AreRays, Crosses, IsExtent};

use crate::extent::Extent;
use crate::family::Family;
use horizons::Target;
use std::alloc::{AllocError, Global};

impl Family {
    /// Returns the first line, at least 2, that may cross the extent.
    fn first_line(self, extent: Extent) -> u32
        requires family { IsFamily self }
        requires lines { extent.lines.first + extent.lines.cells ≤ 4096 }
        ensures range { (2 ≤ result) × (result ≤ 4096) }
        ensures first { (n : ℕ) → Crosses self extent n → result ≤ n }
    {
        let first = if self.lines.back {
            (self.lines.at + 1).saturating_sub(extent.lines.first + extent.lines.cells)
        } else {
            extent.lines.first.saturating_sub(self.lines.at)
        };
        first.max(2)
    }

    /// Returns a line number above that of each line that crosses the extent.
    /// All lines from 2 to below the result exist.
    fn end_line(self, extent: Extent) -> u32
        requires family { IsFamily self }
        requires lines { extent.lines.first + extent.lines.cells ≤ 4096 }
        ensures range { result ≤ 4096 }
        ensures lines { (n : ℕ) → 2 ≤ n → n < result → IsLine self n }
        ensures end { (n : ℕ) → Crosses self extent n → n < result }
    {
        if self.lines.back {
            (self.lines.at + 1).saturating_sub(extent.lines.first)
        } else {
            (extent.lines.first + extent.lines.cells).saturating_sub(self.lines.at)
        }
    }

    #[inline(always)]
    fn target_at(self, line: u32, cell: u32) -> Target
        requires family { IsFamily self }
        requires cell { cell ≤ 4096 }
        ensures { result ≡ target_at self line cell }
    {
        Target {
            offset: cell as i32 - self.side.at as i32,
            line,
        }
    }

    /// Appends the ray of each flagged cell of one line to `rays`.
    fn gather_line(
        self,
        extent: Extent,
        line: u32,
        flags: &[bool],
        rays: &mut Vec<Target>,
    ) -> Result<(), AllocError>
        requires family { IsFamily self }
        requires extent { IsExtent self extent flags.now }
        requires later { 2 ≤ line }
        requires line { IsLine self line }
        requires rays { AreRays self extent flags.now line 0 rays.old.items }
        ensures { OnOk result (AreRays self extent flags.now (line + 1) 0 rays.new.items) }
    {
        let lead = self.lead_of(line);
        if !extent.lines.has(lead) {
            return Ok(());
        }
        let row = (lead - extent.lines.first) as usize * extent.lines.stride;
        for cell in extent.side.first..extent.side.first + extent.side.cells {
            if flags[row + (cell - extent.side.first) as usize * extent.side.stride] {
                rays.push(self.target_at(line, cell))?;
            }
        }
        Ok(())
    }

    /// Returns the rays of all flagged cells of an extent on lines 2 and beyond.
    /// No line of the family is before line 1, so none of its lines hides a cell of line 1.
    pub(crate) fn gather(
        self,
        alloc: Global,
        extent: Extent,
        flags: &[bool],
    ) -> Result<Vec<Target>, AllocError>
        requires family { IsFamily self }
        requires extent { IsExtent self extent flags.now }
        ensures few { IfOk result (λ v. length v.items ≤ 2 ^ 24) }
        ensures rays { IfOk result (λ v. AreRays self extent flags.now 4097 0 v.items) }
    {
        let mut rays = Vec::new(alloc);
        let first = self.first_line(extent);
        let end = self.end_line(extent).max(first);
        for line in first..end {
            self.gather_line(extent, line, flags, &mut rays)?;
        }
        Ok(rays)
    }
}
