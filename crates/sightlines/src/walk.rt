//! Looks for a crossing that blocks a line of sight; sums and differences lead to the next one.
ghost use Rattle.std.specs.Prelude.{◌≡◌, ◌^◌, ◌+◌, ◌-◌, ◌*◌, ◌<◌, ◌≤◌, ℤ, pos, unsigned_abs, ◌*ℤ◌, length, slice_index_or, None, IfSome, is_some};
ghost use Rattle.std.specs.Int.{abs_diff};
ghost use Rattle.terrain.specs.Raster.{IsHeight};
ghost use Rattle.sightlines.specs.Walk.{is_above, steps_of, whole_at, AreHeights, IsSightline, IsAt, CoversLine, step_range_blocks, walk_blocks};
ghost use Rattle.sightlines.specs.Pace.{IsPace, IsLeap, Gains};

use crate::tops::NEAR_BLOCK;
use terrain::{Cell, Height};

/// One coordinate of a line of sight, where the line runs from `from` to `to`.
/// In the list of cells, neighbours along this coordinate are `stride` apart.
#[derive(Clone, Copy)]
pub struct Axis {
    pub from: u32,
    pub to: u32,
    pub stride: usize,
}

/// A line of sight from one elevation to another, along two coordinates.
/// Between its ends the line is tested at each cell of `lead`, its leading coordinate. `side` is
/// the other coordinate.
#[derive(Clone, Copy)]
pub struct Sightline {
    pub lead: Axis,
    pub side: Axis,
    pub from_elevation: i64,
    pub to_elevation: i64,
}

/// Where a line is on its side coordinate, and its elevation, at one of its steps.
/// The line is `part` parts past cell `whole`. A cell has as many parts as the line has steps.
/// `sight` is the line's elevation times the number of steps.
#[derive(Clone, Copy)]
pub struct Step {
    pub whole: u32,
    pub part: u32,
    pub sight: i64,
}

impl Sightline {
    /// Returns the number of steps from one end of the line to the other.
    #[inline(always)]
    pub(crate) fn steps(self) -> u32
        ensures { result ≡ steps_of self }
    {
        self.lead.from.abs_diff(self.lead.to)
    }

    /// Returns the cell of the leading coordinate at a step.
    #[inline(always)]
    pub(crate) fn lead_at(self, step: u32) -> u32
        requires line { IsSightline self }
        requires some { 0 < steps_of self }
        requires step { step ≤ steps_of self }
        ensures { result ≡ whole_at self.lead (steps_of self) step }
    {
        if self.lead.from <= self.lead.to {
            self.lead.from + step
        } else {
            self.lead.from - step
        }
    }

    /// Returns where the line is on `side`, and its elevation, at a step.
    #[inline(always)]
    pub(crate) fn at(self, step: u32) -> Step
        requires line { IsSightline self }
        requires some { 0 < steps_of self }
        requires step { step ≤ steps_of self }
        ensures { IsAt self step result }
    {
        let steps = self.steps();
        let left = steps - step;
        let parts = self.side.from * left + self.side.to * step;
        Step {
            whole: parts / steps,
            part: parts % steps,
            sight: self.from_elevation * left as i64 + self.to_elevation * step as i64,
        }
    }
}

/// How far a coordinate moves in one or more of a line's steps.
/// The move is `ahead` less `behind` cells, and `part` parts. A cell has as many parts as the line
/// has steps.
#[derive(Clone, Copy)]
struct Gain {
    ahead: u32,
    behind: u32,
    part: u32,
}

impl Axis {
    /// Returns the move of a leading coordinate in one step: one cell.
    fn whole_gain(self) -> Gain
        requires { 0 < abs_diff self.from self.to }
        ensures { Gains self (abs_diff self.from self.to) 1 result.ahead result.behind result.part }
    {
        if self.from < self.to {
            Gain {
                ahead: 1,
                behind: 0,
                part: 0,
            }
        } else {
            Gain {
                ahead: 0,
                behind: 1,
                part: 0,
            }
        }
    }

    /// Returns the coordinate's move in `count` of a line's `steps` steps.
    fn gain(self, steps: u32, count: u32) -> Gain
        requires steps { (0 < steps) × (steps ≤ 4096) }
        requires count { count ≤ 4096 }
        requires ends { (self.from < 4096) × (self.to < 4096) }
        ensures { Gains self steps count result.ahead result.behind result.part }
    {
        if self.from <= self.to {
            let rise = (self.to - self.from) * count;
            if rise < steps {
                return Gain {
                    ahead: 0,
                    behind: 0,
                    part: rise,
                };
            }
            Gain {
                ahead: rise / steps,
                behind: 0,
                part: rise % steps,
            }
        } else {
            let fall = (self.from - self.to) * count;
            let behind = fall.div_ceil(steps);
            Gain {
                ahead: 0,
                behind,
                part: behind * steps - fall,
            }
        }
    }
}

/// The move of a line on its `side` coordinate in the 16 steps of a whole near block.
/// It is `ahead` cells less `behind`, and `part` parts; `rise` is the change of [`Step::sight`].
#[derive(Clone, Copy)]
pub struct Leap {
    ahead: u32,
    behind: u32,
    part: u32,
    rise: i64,
}

impl Leap {
    #[inline(always)]
    pub(crate) fn new(line: Sightline) -> Self
        requires line { IsSightline line }
        requires some { 0 < steps_of line }
        ensures { IsLeap line 16 result }
    {
        let aside = line.side.gain(line.steps(), NEAR_BLOCK);
        Leap {
            ahead: aside.ahead,
            behind: aside.behind,
            part: aside.part,
            rise: line.to_elevation * NEAR_BLOCK as i64 - line.from_elevation * NEAR_BLOCK as i64,
        }
    }

    /// Returns the line at step `end`, from `start`, the line at step `first`.
    /// If `end` is 16 steps after `first`, sums and differences suffice.
    #[inline(always)]
    pub(crate) fn to(self, line: Sightline, first: u32, start: Step, end: u32) -> Step
        requires line { IsSightline line }
        requires some { 0 < steps_of line }
        requires leap { IsLeap line 16 self }
        requires start { IsAt line first start }
        requires range { (first ≤ end) × (end ≤ steps_of line) }
        ensures { IsAt line end result }
    {
        if end - first != NEAR_BLOCK {
            return line.at(end);
        }
        let steps = line.steps();
        let whole = start.whole + self.ahead;
        let part = start.part + self.part;
        let sight = start.sight + self.rise;
        if part < steps {
            return Step {
                whole: whole - self.behind,
                part,
                sight,
            };
        }
        Step {
            whole: whole + 1 - self.behind,
            part: part - steps,
            sight,
        }
    }
}

/// Returns a height times a weight.
/// The product is within ±4,096 * 10^15, so the sum of two such products fits in 64 bits.
#[inline(always)]
pub(crate) fn weigh(height: Height, weight: u32) -> i64
    requires weight { weight ≤ 4096 }
    requires height { IsHeight height }
    ensures value { result ≡ pos weight *ℤ height }
    ensures small { unsigned_abs result ≤ 4096 * 10 ^ 15 }
{
    weight as i64 * height
}

/// Whether two cells' heights, times their weights, sum to more than `sight`.
/// The cells are at `index` and `index + beside`. A cell of weight 0 takes no part. Where a NODATA
/// cell takes part, the result is false.
#[inline(always)]
fn is_higher(
    cells: &[Cell],
    index: usize,
    beside: usize,
    near_weight: u32,
    far_weight: u32,
    sight: i64,
) -> bool
    requires heights { AreHeights cells.now }
    requires near { index < length cells.now }
    requires far { 0 < far_weight → index + beside < length cells.now }
    requires weights { (0 < near_weight) × (near_weight + far_weight ≤ 4096) }
    ensures { result ≡ is_above (slice_index_or cells.now index None) near_weight
        (slice_index_or cells.now (index + beside) None) far_weight sight }
{
    let Some(near) = cells[index].height() else {
        return false;
    };
    if far_weight == 0 {
        return weigh(near, near_weight) > sight;
    }
    let Some(far) = cells[index + beside].height() else {
        return false;
    };
    weigh(near, near_weight) + weigh(far, far_weight) > sight
}

/// How the index of the cell at or before the line, and the part past it, change.
/// At each step the index grows by `ahead` less `behind`, and the part by `part`. If the part
/// reaches `steps`, it falls by `steps`, and the index grows by `beside` more.
#[derive(Clone, Copy)]
pub struct Pace {
    steps: u32,
    ahead: usize,
    behind: usize,
    beside: usize,
    part: u32,
}

impl Pace {
    #[inline(always)]
    pub(crate) fn new(line: Sightline) -> Self
        requires line { IsSightline line }
        requires some { 0 < steps_of line }
        ensures { IsPace line.lead line.side (steps_of line) result }
    {
        let steps = line.steps();
        let along = line.lead.whole_gain();
        let across = line.side.gain(steps, 1);
        Pace {
            steps,
            ahead: along.ahead as usize * line.lead.stride
                + across.ahead as usize * line.side.stride,
            behind: along.behind as usize * line.lead.stride
                + across.behind as usize * line.side.stride,
            beside: line.side.stride,
            part: across.part,
        }
    }

    /// Returns the index and the part one step after `index` and `part`.
    #[inline(always)]
    fn next(self, index: usize, part: u32) -> (usize, u32)
        requires parts { (part < self.steps) × (self.part < self.steps) × (self.steps ≤ 4096) }
        requires room { index + self.ahead + self.beside < 2 ^ 64 }
        requires stays { part + self.part < self.steps → self.behind ≤ index + self.ahead }
        requires passes { self.steps ≤ part + self.part →
            self.behind ≤ index + self.ahead + self.beside }
        ensures stays { part + self.part < self.steps
            → (result.0 + self.behind ≡ index + self.ahead) × (result.1 ≡ part + self.part) }
        ensures passes { self.steps ≤ part + self.part
            → (result.0 + self.behind ≡ index + self.ahead + self.beside)
            × (result.1 + self.steps ≡ part + self.part) }
    {
        let sum = part + self.part;
        if sum < self.steps {
            (index + self.ahead - self.behind, sum)
        } else {
            (
                index + self.ahead + self.beside - self.behind,
                sum - self.steps,
            )
        }
    }
}

/// Returns the first step with ground above the line, if any.
/// Looks from step `first` to below `end`; `start` is the line at step `first`.
#[inline(always)]
pub(crate) fn blocking_step(
    cells: &[Cell],
    line: Sightline,
    pace: Pace,
    start: Step,
    first: u32,
    end: u32,
) -> Option<u32>
    requires heights { AreHeights cells.now }
    requires line { IsSightline line }
    requires over { CoversLine cells.now line.lead line.side }
    requires pace { IsPace line.lead line.side (steps_of line) pace }
    requires start { IsAt line first start }
    requires range { (first < end) × (end ≤ steps_of line) }
    ensures answer { is_some result ≡ step_range_blocks cells.now line first (end - first) }
    ensures range { IfSome result (λ k. (first ≤ k) × (k < end)) }
{
    let rise = line.to_elevation - line.from_elevation;
    let mut index = line.lead_at(first) as usize * line.lead.stride
        + start.whole as usize * line.side.stride;
    let mut part = start.part;
    let mut sight = start.sight;
    for step in first..end {
        if is_higher(
            cells,
            index,
            line.side.stride,
            pace.steps - part,
            part,
            sight,
        ) {
            return Some(step);
        }
        (index, part) = pace.next(index, part);
        sight += rise;
    }
    None
}

/// Whether the ground is above the line at a step between its two ends.
#[inline(always)]
pub(crate) fn is_blocked(cells: &[Cell], line: Sightline) -> bool
    requires heights { AreHeights cells.now }
    requires line { IsSightline line }
    requires over { CoversLine cells.now line.lead line.side }
    ensures { result ≡ walk_blocks cells.now line }
{
    let steps = line.steps();
    if steps < 2 {
        return false;
    }
    blocking_step(cells, line, Pace::new(line), line.at(1), 1, steps).is_some()
}
