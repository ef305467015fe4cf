//! Looks for a crossing that blocks a line of sight, and skips those in blocks below the line.
ghost use Rattle.std.specs.Prelude.{◌≡◌, ℕ, ◌+◌, ◌-◌, ◌*◌, ◌/◌, ◌<◌, ◌≤◌, length, slice_index_or, None, IfSome, is_some, max, pos, ◌*ℤ◌, ◌≤ℤ◌};
ghost use Rattle.std.specs.Bool.{OnTrue};
ghost use Rattle.sightlines.specs.Pace.{IsPace, IsLeap};
ghost use Rattle.sightlines.specs.Walk.{steps_of, whole_at, AreHeights, IsSightline, IsAt, CoversLine, walk_blocks, step_range_blocks};
ghost use Rattle.sightlines.specs.Blocks.{IsLow, IsPeak, AreTopsAlong, AreLowBetween};
ghost use Rattle.terrain.specs.Raster.{IsHeight};

use crate::tops::{FAR_BLOCK, MaxHeights, NEAR_BLOCK};
use crate::walk::{Leap, Pace, Sightline, Step, blocking_step, weigh};
use terrain::{Cell, Height};

/// The most blocks that `is_clear_of_blocks` compares with a line.
const MOST_BLOCKS: u32 = 5;

/// The distances, in the list of blocks, of neighbouring blocks along each coordinate of a line.
/// `lead` is along the leading coordinate, `side` along the other.
#[derive(Clone, Copy)]
pub struct BlockStrides {
    pub lead: usize,
    pub side: usize,
}

/// Returns the first step after `step` at which `line.lead` is in another block.
/// A block has `size` cells along this coordinate. The result is at most `last`.
#[inline(always)]
fn block_end(line: Sightline, size: u32, step: u32, last: u32) -> u32
    requires line { IsSightline line }
    requires size { (0 < size) × (size ≤ 4096) }
    requires range { (step < last) × (last ≤ steps_of line) }
    ensures after { step < result }
    ensures within { result ≤ last }
    ensures same { (k : ℕ) → step ≤ k → k < result
        → whole_at line.lead (steps_of line) k / size
        ≡ whole_at line.lead (steps_of line) step / size }
{
    let in_block = line.lead_at(step) % size;
    let left = if line.lead.from <= line.lead.to {
        size - in_block
    } else {
        in_block + 1
    };
    last.min(step + left)
}

/// Whether none of `count` greatest heights, times `weight`, is above `sight`.
/// They are the entries of `tops` at index `first` and then at every `stride`-th index.
#[inline(always)]
fn are_low(tops: &[Cell], first: usize, stride: usize, count: u32, weight: u32, sight: i64) -> bool
    requires heights { AreHeights tops.now }
    requires room { (i : ℕ) → i < count → first + i * stride < length tops.now }
    requires weight { weight ≤ 4096 }
    ensures { OnTrue result ((i : ℕ) → i < count
        → IsLow (slice_index_or tops.now (first + i * stride) None) weight sight) }
{
    for i in 0..count {
        let top = tops[first + i as usize * stride];
        if let Some(height) = top.height() {
            if weigh(height, weight) > sight {
                return false;
            }
        }
    }
    true
}

/// Returns true only if no block is above the line at `start` or at `end`.
/// The blocks are those that the line can meet between these two steps, while its leading
/// coordinate stays in block `lead_block`.
#[inline(always)]
fn is_clear_of_blocks(
    tops: &[Cell],
    size: u32,
    strides: BlockStrides,
    line: Sightline,
    lead_block: u32,
    start: Step,
    end: Step,
) -> bool
    requires line { IsSightline line }
    requires size { 0 < size }
    requires heights { AreHeights tops.now }
    requires strides { (strides.lead ≤ 4096) × (strides.side ≤ 4096) }
    requires lead { lead_block ≤ max line.lead.from line.lead.to / size }
    requires over { max line.lead.from line.lead.to / size * strides.lead
        + max line.side.from line.side.to / size * strides.side < length tops.now }
    requires start { start.whole ≤ max line.side.from line.side.to }
    requires end { end.whole ≤ max line.side.from line.side.to }
    ensures { OnTrue result (AreLowBetween size tops.now strides line lead_block start end) }
{
    let farthest = line.side.from.max(line.side.to);
    let low = start.whole.min(end.whole) / size;
    let high = farthest.min(start.whole.max(end.whole) + 1) / size;
    let count = high - low + 1;
    if count > MOST_BLOCKS {
        return false;
    }
    let first = lead_block as usize * strides.lead + low as usize * strides.side;
    let sight = start.sight.min(end.sight);
    are_low(tops, first, strides.side, count, line.steps(), sight)
}

/// Returns a step from `first` to below `end` with ground above the line, if any.
/// `start` is the line at step `first`. Skips near blocks below the line; `tops` has their greatest
/// heights. Adds the number of crossings of each block that it tests to `crossings_tested`.
#[inline(always)]
fn blocking_step_past_near_blocks(
    cells: &[Cell],
    tops: &[Cell],
    strides: BlockStrides,
    line: Sightline,
    pace: Pace,
    leap: Leap,
    start: Step,
    first: u32,
    end: u32,
    crossings_tested: &mut u32,
) -> Option<u32>
    requires heights { AreHeights cells.now }
    requires line { IsSightline line }
    requires over { CoversLine cells.now line.lead line.side }
    requires pace { IsPace line.lead line.side (steps_of line) pace }
    requires leap { IsLeap line 16 leap }
    requires strides { (strides.lead ≤ 4096) × (strides.side ≤ 4096) }
    requires tops { AreTopsAlong 16 cells.now tops.now line strides }
    requires start { IsAt line first start }
    requires range { (first < end) × (end ≤ steps_of line) }
    ensures answer { is_some result ≡ step_range_blocks cells.now line first (end - first) }
    ensures range { IfSome result (λ k. (first ≤ k) × (k < end)) }
{
    let mut step = first;
    let mut here = start;
    while step < end {
        let past = block_end(line, NEAR_BLOCK, step, end);
        let next = leap.to(line, step, here, past);
        let block = line.lead_at(step) / NEAR_BLOCK;
        if !is_clear_of_blocks(tops, NEAR_BLOCK, strides, line, block, here, next) {
            *crossings_tested = crossings_tested.saturating_add(past - step);
            if let Some(blocking) = blocking_step(cells, line, pace, here, step, past) {
                return Some(blocking);
            }
        }
        step = past;
        here = next;
    }
    None
}

/// Returns true only if a line is nowhere below `peak` from step `here` on.
#[inline(always)]
fn is_clear(peak: Height, line: Sightline, here: Step) -> bool
    requires line { IsSightline line }
    requires peak { IsHeight peak }
    ensures { OnTrue result
        ((peak ≤ℤ line.to_elevation) × ((pos (steps_of line) *ℤ peak) ≤ℤ here.sight)) }
{
    peak <= line.to_elevation && weigh(peak, line.steps()) <= here.sight
}

/// Returns a step between a line's two ends with ground above the line, if any.
/// The walk ends if the line cannot fall below the peak: tested at step 1, after the first near
/// block, and where a far block begins. It tests the near block where it begins, which is seldom
/// below the line; later it skips far or near blocks below the line. Adds each tested near block's
/// crossings to `crossings_tested`.
#[inline(never)]
pub(crate) fn blocking_step_past_blocks(
    cells: &[Cell],
    tops: &MaxHeights,
    near: BlockStrides,
    far: BlockStrides,
    line: Sightline,
    crossings_tested: &mut u32,
) -> Option<u32>
    requires heights { AreHeights cells.now }
    requires line { IsSightline line }
    requires over { CoversLine cells.now line.lead line.side }
    requires near { (near.lead ≤ 4096) × (near.side ≤ 4096) }
    requires far { (far.lead ≤ 4096) × (far.side ≤ 4096) }
    requires near_tops { AreTopsAlong 16 cells.now tops.now.near.items line near }
    requires far_tops { AreTopsAlong 128 cells.now tops.now.far.items line far }
    requires peak { IsHeight tops.now.peak × IsPeak tops.now.far.items tops.now.peak }
    ensures answer { is_some result ≡ walk_blocks cells.now line }
    ensures range { IfSome result (λ k. k < steps_of line) }
{
    let steps = line.steps();
    if steps < 2 {
        return None;
    }
    let begin = line.at(1);
    if is_clear(tops.peak, line, begin) {
        return None;
    }
    let pace = Pace::new(line);
    let mut first = block_end(line, NEAR_BLOCK, 1, steps);
    *crossings_tested = crossings_tested.saturating_add(first - 1);
    if let Some(step) = blocking_step(cells, line, pace, begin, 1, first) {
        return Some(step);
    }
    let leap = Leap::new(line);
    let mut start = line.at(first);
    while first < steps {
        if is_clear(tops.peak, line, start) {
            return None;
        }
        let end = block_end(line, FAR_BLOCK, first, steps);
        let next = line.at(end);
        let block = line.lead_at(first) / FAR_BLOCK;
        let is_whole = end - first == FAR_BLOCK;
        if !is_whole || !is_clear_of_blocks(&tops.far, FAR_BLOCK, far, line, block, start, next) {
            if let Some(step) = blocking_step_past_near_blocks(
                cells,
                &tops.near,
                near,
                line,
                pace,
                leap,
                start,
                first,
                end,
                crossings_tested,
            ) {
                return Some(step);
            }
        }
        first = end;
        start = next;
    }
    None
}
