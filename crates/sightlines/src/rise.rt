//! Finds the least target height at which an observer sees a place: [`least_height`].
//!
//! Ground that hides a target gives the height from which that ground no longer hides it. Such a
//! height is a guess: a test of the line of sight one unit lower certifies it. The target is raised
//! so until its line of sight is clear.
ghost use Rattle.std.specs.Prelude.{◌≡◌, ℕ, ◌+◌, ◌-◌, ◌*◌, ◌^◌, ◌<◌, ◌≤◌, true, false};
ghost use Rattle.terrain.specs.Neighbours.{IsInside};
ghost use Rattle.sightlines.specs.Blocks.{IsTops};
ghost use Rattle.sightlines.specs.Sight.{highest_eye, longest_radius, is_seen, place_of};
ghost use Rattle.sightlines.specs.Walk.{IsSightline, steps_of};

use crate::line::{
    Blocker, NEARBY_CROSSINGS, Sightlines, WalkCache, blocker_past_blocks, first_nearby,
    lines_of_sight,
};
use crate::tops::MaxHeights;
use crate::walk::Sightline;
use terrain::{Cell, Grid, Observer, Place};

/// The greatest height of a target above its ground, in units.
const HIGHEST_TARGET: u64 = 1_000_000;

/// Returns the ground at a crossing times the sum of the weights, or `None` where that is unknown.
/// The cells are at `index` and `index + beside`. The sum cannot wrap, since weights sum to at most
/// 4,095; nor could a wrapped one mislead, since callers certify what they compute from it.
#[inline(always)]
fn ground_between(
    cells: &[Cell],
    index: usize,
    beside: usize,
    near_weight: u32,
    far_weight: u32,
) -> Option<i64>
    requires { (index < 2 ^ 63) × (beside < 2 ^ 63) }
{
    let near = cells.get(index)?.height()?.wrapping_mul(near_weight as i64);
    if far_weight == 0 {
        return Some(near);
    }
    let far = cells.get(index + beside)?.height()?;
    Some(near.wrapping_add(far.wrapping_mul(far_weight as i64)))
}

/// Returns a guess: the least target height at which the crossing at `step` does not block.
/// `line` begins at a target of this `height`. The result is `height` if the crossing is clear.
#[inline(always)]
fn height_over(cells: &[Cell], line: Sightline, step: u32, height: u32) -> u32
    requires line { IsSightline line }
    requires step { step < steps_of line }
    requires height { height ≤ highest_eye }
    ensures { result ≤ 2 * highest_eye }
{
    let steps = line.steps();
    let at = line.at(step);
    let index = line.lead_at(step) as usize * line.lead.stride
        + at.whole as usize * line.side.stride;
    let Some(ground) = ground_between(cells, index, line.side.stride, steps - at.part, at.part)
    else {
        return height;
    };
    let excess = ground.wrapping_sub(at.sight);
    if excess <= 0 {
        return height;
    }
    let raise = (excess as u64).div_ceil((steps - step) as u64);
    height + raise.min(HIGHEST_TARGET) as u32
}

/// Returns a guess: the least target height at which no crossing about a blocker blocks.
/// `lines` begin at a target of this `height`.
#[inline(always)]
fn height_over_blocker(cells: &[Cell], lines: Sightlines, blocker: Blocker, height: u32) -> u32
    requires columns { IsSightline lines.columns }
    requires rows { IsSightline lines.rows }
    requires height { height ≤ highest_eye }
{
    let line = if blocker.over_rows {
        lines.rows
    } else {
        lines.columns
    };
    let first = first_nearby(line, blocker.left);
    let end = line.steps().min(first + NEARBY_CROSSINGS);
    let mut highest = height;
    for step in first..end {
        highest = highest.max(height_over(cells, line, step, height));
    }
    highest
}

/// Raises a target of `height` to where crossings about a blocker no longer hide it.
/// The result is at most `limit`. If it is above `height`, a target one unit lower is hidden.
#[inline(always)]
fn raised(
    grid: &Grid,
    observer: &Observer,
    target: Place,
    blocker: Blocker,
    height: u32,
    limit: u32,
    radius: u32,
) -> u32
    requires observer { IsInside grid.now.terrain (place_of observer.now) }
    requires target { IsInside grid.now.terrain target }
    requires eye { observer.now.eye ≤ highest_eye }
    requires heights { (height < limit) × (limit ≤ highest_eye + 1) }
    requires radius { (1 ≤ radius) × (radius ≤ longest_radius) }
    ensures range { (height ≤ result) × (result ≤ limit) }
    ensures hidden { height < result
        → is_seen grid.now.terrain observer.now target (result - 1) radius ≡ false }
{
    let Some(lines) = lines_of_sight(grid, observer, target, height, radius) else {
        return height;
    };
    let cells = grid.cells();
    let guess = limit.min(height_over_blocker(cells, lines, blocker, height));
    if guess <= height {
        return height;
    }
    let Some(lines) = lines_of_sight(grid, observer, target, guess - 1, radius) else {
        return height;
    };
    if blocker.hides(cells, lines) {
        guess
    } else {
        height
    }
}

/// Returns the least target height below `limit` at which an observer sees a place, or `limit`.
///
/// `tops` has the greatest heights of blocks of cells; `walked` keeps the crossings that decided
/// earlier targets. The target is raised over those first: often they decide this target too.
///
/// # Examples
///
/// On the single row of heights `0 6 10`, the ground of the last cell is hidden by 2 units:
///
/// ```ignore
/// let observer = Observer { row: 0, col: 0, eye: 0 };
/// let beyond = Place { row: 0, col: 2 };
/// let mut walked = WalkCache::none();
/// let height = least_height(&grid, &tops, &observer, beyond, 1_000_001, 8_192, &mut walked);
/// assert_eq!(rt; height, 2);
/// ```
#[inline(always)]
pub fn least_height(
    grid: &Grid,
    tops: &MaxHeights,
    observer: &Observer,
    target: Place,
    limit: u32,
    radius: u32,
    walked: &mut WalkCache,
) -> u32
    requires tops { IsTops grid.now.terrain tops.now }
    requires observer { IsInside grid.now.terrain (place_of observer.now) }
    requires target { IsInside grid.now.terrain target }
    requires eye { observer.now.eye ≤ highest_eye }
    requires limit { limit ≤ highest_eye + 1 }
    requires radius { (1 ≤ radius) × (radius ≤ longest_radius) }
    ensures most { result ≤ limit }
    ensures seen { result < limit
        → is_seen grid.now.terrain observer.now target result radius ≡ true }
    ensures hidden { (height : ℕ) → height < result
        → is_seen grid.now.terrain observer.now target height radius ≡ false }
{
    if limit == 0 {
        return 0;
    }
    let mut decider = walked.last;
    let mut height = raised(grid, observer, target, decider, 0, limit, radius);
    while height < limit {
        let Some(lines) = lines_of_sight(grid, observer, target, height, radius) else {
            return limit;
        };
        let tested = &mut walked.crossings_tested;
        let Some(blocker) = blocker_past_blocks(grid, tops, observer, target, lines, tested) else {
            break;
        };
        decider = blocker;
        height = raised(grid, observer, target, blocker, height, limit, radius).max(height + 1);
    }
    walked.keep(target.col, Some(decider));
    height
}
