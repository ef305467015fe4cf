//! Says whether an observer sees a place, by the crossings on the line of sight between them.
//!
//! [`sees`] tests crossings until one blocks. [`sees_past_blocks`] first tests those about as far
//! from the observer as crossings that hid earlier targets. [`may_see`] tests only a few.
ghost use Rattle.std.specs.Prelude.{◌≡◌, ℕ, ◌<◌, ◌≤◌, pos, ◌+ℤ◌, true, false, not, is_some, ◌&&◌, ◌||◌, MatchOption};
ghost use Rattle.terrain.specs.Raster.{IsHeight};
ghost use Rattle.terrain.specs.Neighbours.{IsInside};
ghost use Rattle.sightlines.specs.Sight.{highest_eye, longest_radius, is_open, is_seen, place_of};
ghost use Rattle.sightlines.specs.Walk.{AreHeights, IsElevation, IsSightline, CoversLine, AreSightlines, over_columns, over_rows, walk_blocks};
ghost use Rattle.sightlines.specs.Blocks.{IsTops, IsPeak, AreTopsAlong, blocks_in};

use crate::passing::{BlockStrides, blocking_step_past_blocks};
use crate::reach::is_in_reach;
use crate::tops::{FAR_BLOCK, MaxHeights, NEAR_BLOCK, blocks_in};
use crate::walk::{Axis, Pace, Sightline, blocking_step, is_blocked};
use terrain::{Cell, Grid, Height, Observer, Place};

/// Returns the elevation of an eye or a target: ground of `height` plus `above` units.
#[inline(always)]
pub fn elevation(height: Height, above: u32) -> i64
    requires height { IsHeight height }
    requires above { above ≤ highest_eye }
    ensures value { result ≡ height +ℤ pos above }
    ensures small { IsElevation result }
{
    height + above as i64
}

/// The line of sight from a target to an observer, in two forms.
/// `columns` is tested at the crossings with columns, `rows` at those with rows.
#[derive(Clone, Copy)]
pub(crate) struct Sightlines {
    pub columns: Sightline,
    pub rows: Sightline,
}

/// Returns both forms of the line of sight from a target to an observer.
/// `None` if either cell is NODATA or the target is outside the radius: it is seen at no height.
#[inline(always)]
pub(crate) fn lines_of_sight(
    grid: &Grid,
    observer: &Observer,
    target: Place,
    target_height: u32,
    radius: u32,
) -> Option<Sightlines>
    requires observer { IsInside grid.now.terrain (place_of observer.now) }
    requires target { IsInside grid.now.terrain target }
    requires eye { observer.now.eye ≤ highest_eye }
    requires height { target_height ≤ highest_eye }
    requires radius { (1 ≤ radius) × (radius ≤ longest_radius) }
    ensures { MatchOption result
        ((height : ℕ) → is_seen grid.now.terrain observer.now target height radius ≡ false)
        (λ lines. AreSightlines grid.now.terrain observer.now target target_height radius lines) }
{
    let stride = grid.cols() as usize;
    let eye = Place {
        row: observer.row,
        col: observer.col,
    };
    if !is_in_reach(eye, target, radius) {
        return None;
    }
    let eye_ground = grid.at(eye)?;
    let target_ground = grid.at(target)?;
    let eye_elevation = elevation(eye_ground, observer.eye);
    let target_elevation = elevation(target_ground, target_height);
    let rows = Axis {
        from: target.row,
        to: eye.row,
        stride,
    };
    let columns = Axis {
        from: target.col,
        to: eye.col,
        stride: 1,
    };
    Some(Sightlines {
        columns: Sightline {
            lead: columns,
            side: rows,
            from_elevation: target_elevation,
            to_elevation: eye_elevation,
        },
        rows: Sightline {
            lead: rows,
            side: columns,
            from_elevation: target_elevation,
            to_elevation: eye_elevation,
        },
    })
}

/// Returns whether an observer sees a place, at `target_height` above its ground.
///
/// It is seen exactly if the observer's cell and the place have data, are at most `radius` cells
/// apart and no crossing blocks. Crossings are where the line meets a column or a row of cell
/// centres between the two. A crossing blocks if the ground, a straight slope between two centres,
/// is above the line. A crossing in which a NODATA cell takes part cannot block. `target_height` is
/// in units.
///
/// # Examples
///
/// On the single row of heights `0 6 10`, the middle cell hides the ground of the last one:
///
/// ```ignore
/// let observer = Observer { row: 0, col: 0, eye: 0 };
/// let beyond = Place { row: 0, col: 2 };
/// assert!(rt; !sees(&grid, &observer, beyond, 0, 8_192));
/// assert!(rt; sees(&grid, &observer, beyond, 2, 8_192));
/// ```
pub fn sees(
    grid: &Grid,
    observer: &Observer,
    target: Place,
    target_height: u32,
    radius: u32,
) -> bool
    requires observer { IsInside grid.now.terrain (place_of observer.now) }
    requires target { IsInside grid.now.terrain target }
    requires eye { observer.now.eye ≤ highest_eye }
    requires height { target_height ≤ highest_eye }
    requires radius { (1 ≤ radius) × (radius ≤ longest_radius) }
    ensures { result ≡ is_seen grid.now.terrain observer.now target target_height radius }
{
    let Some(lines) = lines_of_sight(grid, observer, target, target_height, radius) else {
        return false;
    };
    let cells = grid.cells();
    if is_blocked(cells, lines.columns) {
        return false;
    }
    !is_blocked(cells, lines.rows)
}

/// Returns whether both cells have data and the target is within the radius.
/// A target is seen, at whatever height, exactly if the result is true and no crossing blocks.
#[inline(always)]
pub fn is_candidate(grid: &Grid, observer: &Observer, target: Place, radius: u32) -> bool
    requires observer { IsInside grid.now.terrain (place_of observer.now) }
    requires target { IsInside grid.now.terrain target }
    requires eye { observer.now.eye ≤ highest_eye }
    requires radius { (1 ≤ radius) × (radius ≤ longest_radius) }
    ensures { (height : ℕ) → is_seen grid.now.terrain observer.now target height radius
        ≡ (result && is_open grid.now.terrain observer.now target height) }
{
    let Some(_) = lines_of_sight(grid, observer, target, 0, radius) else {
        return false;
    };
    true
}

/// The most column crossings, and the most row crossings, that `may_see` tests.
const FIRST_CROSSINGS: u32 = 2;

/// The most crossings tested about as far from the observer as a kept blocker.
pub(crate) const NEARBY_CROSSINGS: u32 = 4;

/// Whether one of at most `crossings` crossings, from step `first` on, blocks.
#[inline(always)]
fn is_blocked_from(cells: &[Cell], line: Sightline, first: u32, crossings: u32) -> bool
    requires heights { AreHeights cells.now }
    requires line { IsSightline line }
    requires over { CoversLine cells.now line.lead line.side }
    requires first { (0 < first) × (first ≤ 4096) }
    requires crossings { crossings ≤ 4096 }
    ensures { result ≡ true → walk_blocks cells.now line ≡ true }
{
    let end = line.steps().min(first + crossings);
    if end <= first {
        return false;
    }
    blocking_step(cells, line, Pace::new(line), line.at(first), first, end).is_some()
}

/// Returns false only if the observer does not see the place.
/// If the result is true, the place is seen unless an untested crossing blocks. Tests whether both
/// cells have data, the radius, and the crossings nearest to the target, which block most often.
#[inline(always)]
pub fn may_see(
    grid: &Grid,
    observer: &Observer,
    target: Place,
    target_height: u32,
    radius: u32,
) -> bool
    requires observer { IsInside grid.now.terrain (place_of observer.now) }
    requires target { IsInside grid.now.terrain target }
    requires eye { observer.now.eye ≤ highest_eye }
    requires height { target_height ≤ highest_eye }
    requires radius { (1 ≤ radius) × (radius ≤ longest_radius) }
    ensures { (result && is_open grid.now.terrain observer.now target target_height)
        ≡ is_seen grid.now.terrain observer.now target target_height radius }
{
    let Some(lines) = lines_of_sight(grid, observer, target, target_height, radius) else {
        return false;
    };
    let cells = grid.cells();
    if is_blocked_from(cells, lines.columns, 1, FIRST_CROSSINGS) {
        return false;
    }
    !is_blocked_from(cells, lines.rows, 1, FIRST_CROSSINGS)
}

/// Returns the first of a few steps about `left` steps from the observer.
/// On a line with fewer steps, they are those nearest to the target.
#[inline(always)]
pub(crate) fn first_nearby(line: Sightline, left: u32) -> u32
    requires { IsSightline line }
    ensures { (0 < result) × (result ≤ 4096) }
{
    let step = line.steps().saturating_sub(left);
    step.saturating_sub(NEARBY_CROSSINGS / 2).max(1)
}

/// Whether one of a few crossings about `left` steps from the observer blocks.
#[inline(always)]
fn is_blocked_near(cells: &[Cell], line: Sightline, left: u32) -> bool
    requires heights { AreHeights cells.now }
    requires line { IsSightline line }
    requires over { CoversLine cells.now line.lead line.side }
    ensures { result ≡ true → walk_blocks cells.now line ≡ true }
{
    is_blocked_from(cells, line, first_nearby(line, left), NEARBY_CROSSINGS)
}

/// A crossing that hid an earlier target.
/// It is with a row, `left` rows from the observer, if `over_rows`; else with a column, `left`
/// columns from the observer.
#[derive(Clone, Copy)]
pub(crate) struct Blocker {
    pub over_rows: bool,
    pub left: u32,
}

impl Blocker {
    /// Whether a crossing about as far from the observer as `self` hides a target.
    /// `lines` has both forms of the line of sight from this target.
    #[inline(always)]
    pub(crate) fn hides(self, cells: &[Cell], lines: Sightlines) -> bool
        requires heights { AreHeights cells.now }
        requires columns { IsSightline lines.columns }
        requires rows { IsSightline lines.rows }
        requires over_columns { CoversLine cells.now lines.columns.lead lines.columns.side }
        requires over_rows { CoversLine cells.now lines.rows.lead lines.rows.side }
        ensures { result ≡ true → (not (walk_blocks cells.now lines.columns)
            && not (walk_blocks cells.now lines.rows)) ≡ false }
    {
        if self.over_rows {
            is_blocked_near(cells, lines.rows, self.left)
        } else {
            is_blocked_near(cells, lines.columns, self.left)
        }
    }

    /// Out-of-line copy of [`hides`](Self::hides), to keep the hot path small.
    #[inline(never)]
    fn hides_out_of_line(self, cells: &[Cell], lines: Sightlines) -> bool
        requires heights { AreHeights cells.now }
        requires columns { IsSightline lines.columns }
        requires rows { IsSightline lines.rows }
        requires over_columns { CoversLine cells.now lines.columns.lead lines.columns.side }
        requires over_rows { CoversLine cells.now lines.rows.lead lines.rows.side }
        ensures { result ≡ true → (not (walk_blocks cells.now lines.columns)
            && not (walk_blocks cells.now lines.rows)) ≡ false }
    {
        self.hides(cells, lines)
    }
}

/// The number of entries of `WalkCache::above`.
/// Columns share an entry if they are a multiple of `COLUMNS` apart.
const COLUMNS: usize = 256;

/// The crossings that hid earlier targets, and a count of crossings tested.
/// `above` has, for a column, the blocker by which its last tested target was found hidden. The
/// entry is `None` if that target was seen or none was tested. `last` is the blocker by which any
/// target was last found hidden; in an empty cache it is arbitrary.
#[derive(Clone, Copy)]
pub struct WalkCache {
    pub(crate) last: Blocker,
    above: [Option<Blocker>; COLUMNS],
    /// The number of crossings that walks tested block by block, at most 2^32 - 1.
    /// Where one blocks, all crossings of its block count. Those tested first, near an earlier
    /// blocker, do not count.
    pub crossings_tested: u32,
}

impl WalkCache {
    /// Returns an empty cache.
    pub fn none() -> Self
        ensures { result.crossings_tested ≡ 0 }
    {
        WalkCache {
            last: Blocker {
                over_rows: false,
                left: 0,
            },
            above: [None; COLUMNS],
            crossings_tested: 0,
        }
    }

    /// Returns the blocker kept for a column, if any.
    #[inline(always)]
    pub(crate) fn above(&self, col: u32) -> Option<Blocker> {
        self.above[col as usize % COLUMNS]
    }

    /// Keeps the blocker of a target in column `col`, also as `last`.
    /// `None`, for a seen target, leaves `last` as it was.
    #[inline(always)]
    pub(crate) fn keep(&mut self, col: u32, blocker: Option<Blocker>) {
        if let Some(blocker) = blocker {
            self.last = blocker;
        }
        self.above[col as usize % COLUMNS] = blocker;
    }
}

/// Returns how far apart neighbouring blocks are listed, if columns lead.
/// The list has blocks of `size` by `size` cells of a grid with `cols` columns, in row order.
#[inline(always)]
fn along_columns(size: u32, cols: u32) -> BlockStrides
    requires size { (0 < size) × (size ≤ 4096) }
    requires cols { cols ≤ 4096 }
    ensures { result ≡ record { lead = 1; side = blocks_in size cols } }
{
    BlockStrides {
        lead: 1,
        side: blocks_in(size, cols),
    }
}

/// Returns how far apart neighbouring blocks are listed, if rows lead.
/// The list has blocks of `size` by `size` cells of a grid with `cols` columns, in row order.
#[inline(always)]
fn along_rows(size: u32, cols: u32) -> BlockStrides
    requires size { (0 < size) × (size ≤ 4096) }
    requires cols { cols ≤ 4096 }
    ensures { result ≡ record { lead = blocks_in size cols; side = 1 } }
{
    BlockStrides {
        lead: blocks_in(size, cols),
        side: 1,
    }
}

/// Returns a crossing that blocks `line`, if any.
/// `line` is tested at rows if `over_rows`, else at columns. Skips blocks below the line, and adds
/// the number of crossings of each near block that it tests to `crossings_tested`.
#[inline(always)]
fn blocker_on(
    cells: &[Cell],
    tops: &MaxHeights,
    near: BlockStrides,
    far: BlockStrides,
    line: Sightline,
    over_rows: bool,
    crossings_tested: &mut u32,
) -> Option<Blocker>
    requires heights { AreHeights cells.now }
    requires line { IsSightline line }
    requires over { CoversLine cells.now line.lead line.side }
    requires near { (near.lead ≤ 4096) × (near.side ≤ 4096) }
    requires far { (far.lead ≤ 4096) × (far.side ≤ 4096) }
    requires near_tops { AreTopsAlong 16 cells.now tops.now.near.items line near }
    requires far_tops { AreTopsAlong 128 cells.now tops.now.far.items line far }
    requires peak { IsHeight tops.now.peak × IsPeak tops.now.far.items tops.now.peak }
    ensures { is_some result ≡ walk_blocks cells.now line }
{
    let step = blocking_step_past_blocks(cells, tops, near, far, line, crossings_tested)?;
    Some(Blocker {
        over_rows,
        left: line.steps() - step,
    })
}

/// Returns a crossing that hides a target, if any; skips blocks below the line.
/// `lines` has both forms of the line of sight. Adds the number of crossings of each near block
/// that it tests to `crossings_tested`.
#[inline(always)]
pub(crate) fn blocker_past_blocks(
    grid: &Grid,
    tops: &MaxHeights,
    observer: &Observer,
    target: Place,
    lines: Sightlines,
    crossings_tested: &mut u32,
) -> Option<Blocker>
    requires tops { IsTops grid.now.terrain tops.now }
    requires observer { IsInside grid.now.terrain (place_of observer.now) }
    requires target { IsInside grid.now.terrain target }
    requires columns { lines.columns ≡ over_columns grid.now.terrain target (place_of observer.now)
        lines.columns.from_elevation lines.columns.to_elevation }
    requires rows { lines.rows ≡ over_rows grid.now.terrain target (place_of observer.now)
        lines.rows.from_elevation lines.rows.to_elevation }
    requires small { IsSightline lines.columns × IsSightline lines.rows }
    requires over_columns { CoversLine grid.now.terrain.cells lines.columns.lead
        lines.columns.side }
    requires over_rows { CoversLine grid.now.terrain.cells lines.rows.lead lines.rows.side }
    ensures { is_some result ≡ (walk_blocks grid.now.terrain.cells lines.columns
        || walk_blocks grid.now.terrain.cells lines.rows) }
{
    let cells = grid.cells();
    let cols = grid.cols();
    let near = along_columns(NEAR_BLOCK, cols);
    let far = along_columns(FAR_BLOCK, cols);
    let tested = &mut *crossings_tested;
    if let Some(blocker) = blocker_on(cells, tops, near, far, lines.columns, false, tested) {
        return Some(blocker);
    }
    let near = along_rows(NEAR_BLOCK, cols);
    let far = along_rows(FAR_BLOCK, cols);
    blocker_on(cells, tops, near, far, lines.rows, true, crossings_tested)
}

/// Returns the result of [`sees`], and skips blocks of cells below the line.
/// `tops` has the blocks' greatest heights; `walked` keeps the crossings that hid earlier targets.
/// Crossings about as far from the observer as those are tested first: they often hide this target.
///
/// # Examples
///
/// ```ignore
/// let mut walked = WalkCache::none();
/// let seen = sees_past_blocks(&grid, &tops, &observer, target, 0, 8_192, &mut walked);
/// ```
#[inline(always)]
pub fn sees_past_blocks(
    grid: &Grid,
    tops: &MaxHeights,
    observer: &Observer,
    target: Place,
    target_height: u32,
    radius: u32,
    walked: &mut WalkCache,
) -> bool
    requires tops { IsTops grid.now.terrain tops.now }
    requires observer { IsInside grid.now.terrain (place_of observer.now) }
    requires target { IsInside grid.now.terrain target }
    requires eye { observer.now.eye ≤ highest_eye }
    requires height { target_height ≤ highest_eye }
    requires radius { (1 ≤ radius) × (radius ≤ longest_radius) }
    ensures { result ≡ is_seen grid.now.terrain observer.now target target_height radius }
{
    let Some(lines) = lines_of_sight(grid, observer, target, target_height, radius) else {
        return false;
    };
    let cells = grid.cells();
    let last = walked.last;
    if last.hides(cells, lines) {
        walked.keep(target.col, Some(last));
        return false;
    }
    if let Some(above) = walked.above(target.col) {
        if above.hides_out_of_line(cells, lines) {
            walked.last = above;
            return false;
        }
    }
    let tested = &mut walked.crossings_tested;
    let blocker = blocker_past_blocks(grid, tops, observer, target, lines, tested);
    walked.keep(target.col, blocker);
    blocker.is_none()
}
