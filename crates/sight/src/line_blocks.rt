//! Finds by greatest heights of blocks which lines have no ground above a piece (`clear_end`).
//!
//! A piece of a horizon is one ramp for successive targets. One test of the near blocks that the
//! rays to a piece's targets cross spares up to 16 lines' tests of cells.
ghost use Rattle.std.specs.Prelude.{◌≡◌, ℕ, ℤ, List, Option, ◌+◌, ◌*◌, ◌/◌, ◌^◌, ◌<◌, ◌≤◌, pos, ◌⊎◌, ◌+ℤ◌, ◌≤ℤ◌, ◌<ℤ◌, unsigned_abs, length, slice_index_or, None, Some, IfSome};
ghost use Rattle.terrain.specs.Raster.{IsHeight};
ghost use Rattle.horizons.specs.Horizons.{AreTargets};
ghost use Rattle.horizons.specs.Merging.{IsRampOn};
ghost use Rattle.sightlines.specs.Walk.{AreHeights};
ghost use Rattle.sightlines.specs.Blocks.{IsTopOf};
ghost use Rattle.sight.specs.Sweep.{lead_of, offset_of, IsFamily, IsLine, IsHiddenOn};
ghost use Rattle.sight.specs.LineBlocks.{AreInBlocks, AreLineTops, AreLineBlocks};

use crate::family::{Family, offset_at};
use crate::heights::top_along;
use horizons::{Piece, Target, is_never_above};
use sightlines::{NEAR_BLOCK, blocks_in};
use terrain::{Cell, Height};

/// Clear lines are looked for where this many lines, or twice as many, of a row of blocks are left.
const LINES_AT_ONCE: u32 = 8;

/// Where the greatest heights of near blocks are in their list, along a family's axes.
/// Neighbouring blocks are `across` apart across the family's lines, and `along` apart along them.
/// The grid has cells below coordinate `end` across the lines.
#[derive(Clone, Copy)]
pub struct LineBlocks {
    pub across: usize,
    pub along: usize,
    pub end: u32,
}

impl Family {
    /// Returns the last line, from `line` on, with cells in the near blocks of those of `line`.
    /// `None` for a line outside the grid.
    #[inline(always)]
    fn last_in_blocks(self, blocks: LineBlocks, line: u32) -> Option<u32>
        requires family { IsFamily self }
        requires blocks { AreLineBlocks blocks }
        requires line { IsLine self line }
        ensures { IfSome result (λ last. (line ≤ last) × IsLine self last
            × AreInBlocks self blocks line last) }
    {
        let lead = self.lead_of(line);
        if lead >= blocks.end {
            return None;
        }
        let in_block = lead % NEAR_BLOCK;
        if self.lines.back {
            return Some(line + in_block);
        }
        Some(line + (NEAR_BLOCK - 1 - in_block).min(blocks.end - 1 - lead))
    }

    /// Returns the greatest height of blocks with a line's cells at offset `low` to `high + 1`.
    /// `None` where no such block has data.
    #[inline(always)]
    fn block_top(
        self,
        tops: &[Cell],
        blocks: LineBlocks,
        line: u32,
        low: i32,
        high: i32,
    ) -> Option<Height>
        requires heights { AreHeights tops.now }
        requires family { IsFamily self }
        requires blocks { AreLineBlocks blocks }
        requires line { IsLine self line }
        requires low { unsigned_abs low ≤ 2 ^ 25 }
        requires high { unsigned_abs high ≤ 2 ^ 25 }
        ensures top { (c : ℕ) (h : ℤ) → c < self.side.cells → low ≤ℤ offset_of self c →
            offset_of self c ≤ℤ (high +ℤ pos 1)
            → slice_index_or tops.now (lead_of self line / 16 * blocks.across
            + c / 16 * blocks.along) None ≡ Some h → IsTopOf result h }
        ensures height { (h : ℤ) → result ≡ Some h → IsHeight h }
    {
        let (first, past) = self.cells_between(low, high);
        let start = (self.lead_of(line) / NEAR_BLOCK) as usize * blocks.across;
        top_along(
            tops,
            start,
            blocks.along,
            first / NEAR_BLOCK,
            blocks_in(NEAR_BLOCK, past) as u32,
        )
    }
}

/// Returns the line of two at which a ray is at the lower offset, if `far` is the farther one.
/// With the two swapped, returns that at which the ray is at the higher offset.
#[inline(always)]
fn line_of_low(ray: Target, near: u32, far: u32) -> u32
    ensures { ((pos 0 ≤ℤ ray.offset) × (result ≡ near)) ⊎ ((ray.offset <ℤ pos 0) × (result ≡ far)) }
{
    if ray.offset < 0 { far } else { near }
}

/// Returns the line of two on which ground of this height hides more; `far` is the farther one.
#[inline(always)]
fn line_of_high(family: Family, top: Height, near: u32, far: u32) -> u32
    requires near { IsLine family near }
    requires far { IsLine family far }
    ensures line { IsLine family result }
    ensures value { ((family.eye ≤ℤ top) × (result ≡ near))
        ⊎ ((top <ℤ family.eye) × (result ≡ far)) }
{
    if top < family.eye { far } else { near }
}

/// Returns a line beyond `line` before which no ground is above a piece from target `from` on.
/// Ground before `line` does not count. `None` where none is found.
#[inline(always)]
pub(crate) fn clear_end(
    tops: &[Cell],
    blocks: LineBlocks,
    family: Family,
    line: u32,
    targets: &[Target],
    from: usize,
    piece: Piece,
) -> Option<u32>
    requires heights { AreHeights tops.now }
    requires blocks { AreLineBlocks blocks }
    requires family { IsFamily family }
    requires line { IsLine family line }
    requires targets { AreTargets targets.now }
    requires range { (from < piece.end) × (piece.end ≤ length targets.now) }
    requires ramp { IsRampOn targets.now piece.ramp from piece.end }
    ensures { IfSome result (λ end. (line < end) × ((cells : List (Option ℤ)) →
        AreLineTops cells family tops.now blocks → (k : ℕ) → line ≤ k → k < end →
        IsHiddenOn cells family targets.now k piece.ramp from piece.end)) }
{
    let last = family.last_in_blocks(blocks, line)?;
    if (last - line + 1) % LINES_AT_ONCE != 0 {
        return None;
    }
    let (first_ray, last_ray) = (targets[from], targets[piece.end - 1]);
    let low = offset_at(first_ray, line_of_low(first_ray, line, last));
    let high = offset_at(last_ray, line_of_low(last_ray, last, line));
    let Some(top) = family.block_top(tops, blocks, line, low, high) else {
        return Some(last + 1);
    };
    let ground = family.constant_ramp(line_of_high(family, top, line, last), top);
    if is_never_above(targets, ground, piece.ramp, from, piece.end) {
        Some(last + 1)
    } else {
        None
    }
}
