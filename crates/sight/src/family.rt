//! A family of crossings: with the columns, or the rows, on one side of an observer.
//!
//! These columns or rows are the family's lines, and count outward from 1. A ray leads from the
//! observer to a target, seen from above. `Family::span` returns the ground that a ray meets on a
//! line.
ghost use Rattle.std.specs.Prelude.{◌≡◌, ◌↔◌, ℕ, ◌^◌, ◌≤◌, IsTrue, true, pos, ◌+ℤ◌, ◌-ℤ◌, ◌*ℤ◌, ◌≤ℤ◌, ◌<ℤ◌, ◌<◌, ℤ, None, Some, MatchOption, unsigned_abs};
ghost use Rattle.std.specs.Bool.{OnTrue};
ghost use Rattle.horizons.specs.declared.target.Target.{Target};
ghost use Rattle.horizons.specs.Horizons.{IsTarget, IsRampAt, IsSlopeUpTo};
ghost use Rattle.terrain.specs.Raster.{IsHeight};
ghost use Rattle.sightlines.specs.Walk.{AreHeights};
ghost use Rattle.sightlines.specs.Blocks.{IsTopOf};
ghost use Rattle.sight.specs.Hiding.{line_height};
ghost use Rattle.sight.specs.Sweep.{lead_of, offset_of, ramp_of, constant_ramp, IsFamily, IsLine, IsCell, Passes, PassesAmong, IsShadow};

use crate::heights::{height_at, top_along};
use horizons::{Ramp, Target};
use terrain::{Cell, Height};

/// The coordinate across a family's lines.
/// The observer is at `at`; neighbouring cells are `stride` apart in the list of cells. With `back`
/// the lines count toward coordinate 0.
#[derive(Clone, Copy)]
pub struct Lines {
    pub at: u32,
    pub stride: usize,
    pub back: bool,
}

/// The coordinate along a family's lines.
/// The observer is at `at`; neighbouring cells are `stride` apart in the list of cells. Cells
/// `first` to below `cells` include the observer's and all targets'.
#[derive(Clone, Copy)]
pub struct Side {
    pub at: u32,
    pub stride: usize,
    pub first: u32,
    pub cells: u32,
}

/// The crossings with the columns, or the rows, on one side of an observer.
/// `eye` is the eye's elevation, in units.
#[derive(Clone, Copy)]
pub struct Family {
    pub lines: Lines,
    pub side: Side,
    pub eye: i64,
}

/// The ground that a ray meets on a line, as a ramp.
/// The ray passes over the cell at `offset`, or between this cell and the next. The ramp holds for
/// this ray, and for rays of no lower slope that cross the line before the cell at `last + 1`. If
/// `alone` is set, the ramp holds for this ray only.
#[derive(Clone, Copy)]
pub struct Span {
    pub offset: i32,
    pub last: i32,
    pub ramp: Ramp,
    pub alone: bool,
}

/// Returns the offset, rounded down, at which the ray to a target crosses a line.
#[inline(always)]
pub(crate) fn offset_at(target: Target, line: u32) -> i32
    requires target { IsTarget target }
    requires line { line ≤ 4096 }
    ensures passes { Passes line result target }
    ensures small { unsigned_abs result ≤ 2 ^ 25 }
{
    (target.offset * line as i32).div_euclid(target.line as i32)
}

/// Returns whether the ray to a target crosses a line at cell `offset`'s centre.
#[inline(always)]
fn is_at_centre(target: Target, line: u32, offset: i32) -> bool
    requires target { IsTarget target }
    requires line { line ≤ 4096 }
    requires offset { unsigned_abs offset ≤ 4096 }
    ensures { IsTrue result ↔ (target.offset *ℤ pos line ≡ offset *ℤ pos target.line) }
{
    target.offset * line as i32 == offset * target.line as i32
}

/// Returns a ramp above all ground, for the targets that the sweep has passed.
/// One ramp for all of them keeps the horizon short.
#[inline(always)]
pub(crate) fn passed_ramp() -> Ramp
    ensures at { (t : Target) → IsTarget t → IsRampAt result t }
    ensures clear { result.clear_to ≡ 0 }
{
    Ramp {
        gain: 0,
        intercept: 1 << 51,
        lines: 1,
        clear_to: 0,
    }
}

impl Family {
    #[inline(always)]
    pub(crate) fn first_offset(self) -> i32
        requires family { IsFamily self }
        ensures value { result ≡ pos self.side.first -ℤ pos self.side.at }
        ensures small { unsigned_abs result ≤ 4096 }
    {
        self.side.first as i32 - self.side.at as i32
    }

    #[inline(always)]
    pub(crate) fn end_offset(self) -> i32
        requires family { IsFamily self }
        ensures value { result ≡ pos self.side.cells -ℤ pos self.side.at }
        ensures small { unsigned_abs result ≤ 4096 }
    {
        self.side.cells as i32 - self.side.at as i32
    }

    /// Returns the coordinate of a line.
    #[inline(always)]
    pub(crate) fn lead_of(self, line: u32) -> u32
        requires family { IsFamily self }
        requires line { IsLine self line }
        ensures { result ≡ lead_of self line }
    {
        if self.lines.back {
            self.lines.at - line
        } else {
            self.lines.at + line
        }
    }

    /// Returns the ramp of a line's ground from the cell at `offset` to the next.
    /// `near` and `far` are the heights of these two cells.
    #[inline(always)]
    fn ramp(self, line: u32, offset: i32, near: Height, far: Height) -> Ramp
        requires family { IsFamily self }
        requires line { IsLine self line }
        requires offset { unsigned_abs offset ≤ 4096 }
        requires heights { IsHeight near × IsHeight far }
        ensures ramp { result ≡ ramp_of self line offset near far }
        ensures clear { result.clear_to ≡ 0 }
        ensures at { (t : Target) → IsTarget t → Passes line offset t → IsRampAt result t }
    {
        let step = far - near;
        Ramp {
            gain: step * line as i64,
            intercept: near - self.eye - step * offset as i64,
            lines: line,
            clear_to: 0,
        }
    }

    /// Returns the index, in the list of cells, of a line's cell at `offset`.
    /// `None` if the cell's coordinate is below 0 or not below `side.cells`.
    #[inline(always)]
    pub(crate) fn index_at(self, line: u32, offset: i32) -> Option<usize>
        requires family { IsFamily self }
        requires line { IsLine self line }
        requires offset { unsigned_abs offset ≤ 2 ^ 25 }
        ensures { MatchOption result
            ((c : ℕ) → pos c ≡ pos self.side.at +ℤ offset → self.side.cells ≤ c)
            (IsCell self line offset) }
    {
        let cell = self.side.at as i32 + offset;
        if cell < 0 || cell >= self.side.cells as i32 {
            return None;
        }
        Some(self.lead_of(line) as usize * self.lines.stride + cell as usize * self.side.stride)
    }

    /// Returns the ramp of a line whose ground has one height.
    #[inline(always)]
    pub(crate) fn constant_ramp(self, line: u32, height: Height) -> Ramp
        requires family { IsFamily self }
        requires line { IsLine self line }
        requires height { IsHeight height }
        ensures ramp { result ≡ constant_ramp self line height }
        ensures at { (t : Target) → IsTarget t → IsRampAt result t }
    {
        Ramp {
            gain: 0,
            intercept: height - self.eye,
            lines: line,
            clear_to: 0,
        }
    }

    /// Returns the first cell at offset `low` to `high + 1`, and the cell after the last one.
    #[inline(always)]
    pub(crate) fn cells_between(self, low: i32, high: i32) -> (u32, u32)
        requires family { IsFamily self }
        requires low { unsigned_abs low ≤ 2 ^ 25 }
        requires high { unsigned_abs high ≤ 2 ^ 25 }
        ensures between { (c : ℕ) → c < self.side.cells → low ≤ℤ offset_of self c →
            offset_of self c ≤ℤ (high +ℤ pos 1) → (result.0 ≤ c) × (c < result.1) }
        ensures end { result.1 ≤ 4096 }
    {
        let first = (self.side.at as i32 + low).max(0) as u32;
        let past = (self.side.at as i32 + high + 2).max(0) as u32;
        (first, past.min(self.side.cells))
    }

    /// Returns the greatest height of a line's cells from offset `low` to `high + 1`.
    /// Cells past the side's end are left out. `None` where no other is a data cell.
    #[inline(always)]
    pub(crate) fn top_between(
        self,
        cells: &[Cell],
        line: u32,
        low: i32,
        high: i32,
    ) -> Option<Height>
        requires heights { AreHeights cells.now }
        requires family { IsFamily self }
        requires line { IsLine self line }
        requires low { unsigned_abs low ≤ 2 ^ 25 }
        requires high { unsigned_abs high ≤ 2 ^ 25 }
        ensures top { (c : ℕ) (h : ℤ) → c < self.side.cells → low ≤ℤ offset_of self c →
            offset_of self c ≤ℤ (high +ℤ pos 1)
            → line_height cells.now self line c ≡ Some h → IsTopOf result h }
        ensures height { (h : ℤ) → result ≡ Some h → IsHeight h }
    {
        let (first, past) = self.cells_between(low, high);
        let start = self.lead_of(line) as usize * self.lines.stride;
        top_along(cells, start, self.side.stride, first, past)
    }

    /// Whether a line's ground from the cell at `offset` to the next has ramp `ramp`.
    /// False where the cell at `offset` is past the side's end.
    #[inline(always)]
    fn has_ramp(self, cells: &[Cell], line: u32, offset: i32, ramp: Ramp) -> bool
        requires heights { AreHeights cells.now }
        requires family { IsFamily self }
        requires line { IsLine self line }
        requires offset { unsigned_abs offset ≤ 2 ^ 25 }
        ensures inside { OnTrue result (offset ≤ℤ pos 4096) }
        ensures shows { OnTrue result ((t : Target) → IsTarget t → Passes line offset t →
            IsShadow cells.now self line t ramp) }
    {
        let Some(index) = self.index_at(line, offset) else {
            return false;
        };
        let Some(near) = height_at(cells, index) else {
            return false;
        };
        let Some(far) = height_at(cells, index + self.side.stride) else {
            return false;
        };
        self.ramp(line, offset, near, far) == ramp
    }

    /// Returns the last offset past `first` up to which `has_ramp` is true, else `first`.
    #[inline(always)]
    fn last_of(self, cells: &[Cell], line: u32, first: i32, ramp: Ramp) -> i32
        requires heights { AreHeights cells.now }
        requires family { IsFamily self }
        requires line { IsLine self line }
        requires first { unsigned_abs first ≤ 4096 }
        ensures range { (first ≤ℤ result) × (result ≤ℤ pos 4096) }
        ensures shows { (b : ℤ) (t : Target) → first <ℤ b → b ≤ℤ result → IsTarget t →
            Passes line b t → IsShadow cells.now self line t ramp }
    {
        let mut last = first;
        while self.has_ramp(cells, line, last + 1, ramp) {
            last += 1;
        }
        last
    }

    /// Returns the ground that the ray to a target meets on a line.
    /// Where the ray meets NODATA or no cell, the ramp is `Ramp::nothing()`. A target that is not
    /// beyond the line may get any ramp.
    #[inline(always)]
    pub(crate) fn span(self, cells: &[Cell], line: u32, target: Target) -> Span
        requires heights { AreHeights cells.now }
        requires family { IsFamily self }
        requires line { IsLine self line }
        requires target { IsTarget target }
        ensures passes { Passes line result.offset target }
        ensures small { unsigned_abs result.offset ≤ 2 ^ 25 }
        ensures last { (result.offset ≤ℤ result.last) × (unsigned_abs result.last ≤ 2 ^ 25) }
        ensures shows { (t : Target) → IsTarget t → IsSlopeUpTo target t →
            PassesAmong line result.offset result.last t
            → (result.alone ≡ true → t ≡ target) → IsShadow cells.now self line t result.ramp }
        ensures clear { result.ramp.clear_to ≡ 0 }
    {
        let offset = offset_at(target, line);
        let nothing = Span {
            offset,
            last: offset,
            ramp: Ramp::nothing(),
            alone: false,
        };
        let Some(index) = self.index_at(line, offset) else {
            return nothing;
        };
        let Some(near) = height_at(cells, index) else {
            return nothing;
        };
        if let Some(far) = height_at(cells, index + self.side.stride) {
            let ramp = self.ramp(line, offset, near, far);
            return Span {
                offset,
                last: self.last_of(cells, line, offset, ramp),
                ramp,
                alone: false,
            };
        }
        if !is_at_centre(target, line, offset) {
            return nothing;
        }
        Span {
            offset,
            last: offset,
            ramp: self.ramp(line, offset, near, near),
            alone: true,
        }
    }
}
