//! The D8 direction of one cell: [`direction`].
//!
//! Ways are the eight directions, from 0 to 7 in code order. Even ways, of parity 0, lead along a
//! row or column, odd ways, of parity 1, along a diagonal. `steepest` finds the steepest way down
//! by exact squares of drops. `onward` finds a way over the flat. Of equally good ways, both return
//! the first.
ghost use Rattle.std.specs.Prelude.{◌≡◌, ◌*◌, ◌<◌, ◌≤◌, ℕ, IfSome, IsTrue, Some, None, option_map, slice_index_or, position};
ghost use Rattle.std.specs.List.{list_any};
ghost use Rattle.std.specs.Option.{option_zip};
ghost use Rattle.terrain.specs.Raster.{IsHeight, greatest_drop};
ghost use Rattle.drain.specs.Steepness.{direction_of, leads_on};
ghost use Rattle.drain.specs.Drops.{HasHeights, IsFirstSteepest, IsGreatestFall, drop_by, drop_on};
ghost use Rattle.drain.specs.Fitting.{IsFitting};
ghost use Rattle.drain.specs.declared.around.Around.{Around};

use crate::around::Around;
use drainage::Code;
use terrain::{Cell, Height};

/// The greatest drop on the ways of one parity, 0 if none leads down, and the first way with it.
#[derive(Clone, Copy)]
struct Fall {
    drop: u64,
    way: usize,
}

/// Returns the drop from height `level` to a cell, 0 if it is not lower or has no data.
#[inline(always)]
fn drop_to(level: Height, cell: Cell) -> u64
    requires level { IsHeight level }
    requires height { IfSome cell IsHeight }
    ensures value { result ≡ drop_by level cell }
    ensures bound { result ≤ greatest_drop }
{
    // The number of a cell without data is above each height.
    let height = cell.number();
    if height < level {
        (level - height) as u64
    } else {
        0
    }
}

/// Returns the greatest drop on the ways of one parity, and the first way with it.
/// It leads to the lowest cell. The number of a cell without data is above each height.
#[inline(always)]
fn greatest_fall(level: Height, heights: &[Cell; 8], parity: usize) -> Fall
    requires parity { parity < 2 }
    requires level { IsHeight level }
    requires heights { (way : ℕ) → way < 8 → IfSome (slice_index_or heights.now way None) IsHeight }
    ensures way { IsGreatestFall level heights.now parity 4 result.way }
    ensures drop { result.drop ≡ drop_on level heights.now result.way }
    ensures bound { result.drop ≤ greatest_drop }
{
    let mut cell = heights[parity];
    let mut way = parity;
    for turn in 1..4 {
        let next = 2 * turn + parity;
        let other = heights[next];
        if other.number() < cell.number() {
            cell = other;
            way = next;
        }
    }
    Fall {
        drop: drop_to(level, cell),
        way,
    }
}

#[inline(always)]
fn square(drop: u64) -> u128
    requires { drop ≤ greatest_drop }
    ensures value { result ≡ drop * drop }
    ensures bound { result ≤ greatest_drop * greatest_drop }
{
    drop as u128 * drop as u128
}

/// Returns the first of the steepest ways down, `None` if no way leads down.
#[inline(always)]
pub(crate) fn steepest(level: Height, heights: &[Cell; 8]) -> Option<usize>
    requires level { IsHeight level }
    requires heights { (way : ℕ) → way < 8 → IfSome (slice_index_or heights.now way None) IsHeight }
    ensures { IsFirstSteepest level heights.now result }
{
    let straight = greatest_fall(level, heights, 0);
    let across = greatest_fall(level, heights, 1);
    let side = square(straight.drop);
    let corner = square(across.drop);
    // No square is twice another, so equal weights are 0. The top bit of a difference tells which
    // is less: of a comparison the compiler makes a branch, which is hard to guess.
    let less = ((2 * side).wrapping_sub(corner + 1) >> 127) as usize;
    let way = [straight.way, across.way][less];
    (straight.drop + across.drop > 0).then_some(way)
}

#[inline(always)]
fn height_of(neighbour: Option<(Height, u32)>) -> Cell
    requires { IfSome neighbour (λ w. IsHeight w.0) }
    ensures { result ≡ option_map (λ w. w.0) neighbour }
{
    match neighbour {
        Some((height, _)) => Cell::of(height),
        None => Cell::no_data(),
    }
}

fn heights_around(around: &Around) -> [Cell; 8]
    requires { IsFitting around.now }
    ensures { HasHeights around.now around.now.level result }
{
    let ways = &around.ways;
    [
        height_of(ways[0]),
        height_of(ways[1]),
        height_of(ways[2]),
        height_of(ways[3]),
        height_of(ways[4]),
        height_of(ways[5]),
        height_of(ways[6]),
        height_of(ways[7]),
    ]
}

/// Returns whether a neighbour has height `level` and `own - 1` steps.
#[inline(always)]
fn leads_on(level: Height, own: u32, height: Option<Height>, steps: Option<u32>) -> bool
    ensures { (a : Around) → a.level ≡ level → a.steps ≡ own →
        result ≡ leads_on a (option_zip height steps) }
{
    match (steps, height) {
        // The `<` shows the prover that the sum does not overflow.
        (Some(count), Some(height)) => count < own && count + 1 == own && height == level,
        _ => false,
    }
}

/// Returns whether the neighbour on `way` has the cell's height and one step fewer.
#[inline(always)]
fn leads_onward(around: &Around, way: usize) -> bool
    requires { way < 8 }
    ensures { result ≡ leads_on around.now (slice_index_or around.now.ways way None) }
{
    match around.ways[way] {
        Some((height, steps)) => leads_on(around.level, around.steps, Some(height), Some(steps)),
        None => false,
    }
}

/// Returns the first way to a neighbour on the flat with one step fewer.
#[tactic(auto, using(crate::proofs::Greatest::position_is))]
fn onward(around: &Around) -> usize
    requires { IsTrue (list_any (leads_on around.now) around.now.ways) }
    ensures below { result < 8 }
    ensures first { position (leads_on around.now) around.now.ways ≡ Some result }
{
    for way in 0..8 {
        if leads_onward(around, way) {
            return way;
        }
    }
    unreachable!()
}

/// Returns the D8 direction of a cell by its surroundings.
///
/// Water takes the steepest way down. If no way leads down, an end cell is an outlet. Any other
/// cell then drains to a neighbour of equal height with one step fewer. Of equals the smallest code
/// is taken.
///
/// # Examples
///
/// ```ignore
/// let (side, corner, n) = (Some((15, 0)), Some((13, 0)), None);
/// let ways = [side, corner, n, n, n, n, n, n];
/// let around = Around { level: 20, steps: 0, edge: true, ways };
/// let code = direction(&around).number(); // 1, east: 2 * 5^2 is more than 7^2
/// ```
#[tactic(auto, using(crate::proofs::Steepest::direction_down, crate::proofs::Steepest::direction_flat, crate::proofs::Steepest::drains_onward))]
pub fn direction(around: &Around) -> Code
    requires { IsFitting around.now }
    ensures { result ≡ direction_of around.now }
{
    match steepest(around.level, &heights_around(around)) {
        Some(way) => Code::of_way(way),
        None if around.edge => Code::outlet(),
        None => Code::of_way(onward(around)),
    }
}
