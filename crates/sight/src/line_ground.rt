//! Raises a horizon to the ground of one line (`raise`), a column or row out from the observer.
//!
//! A horizon has a ramp for each target; a piece of it is one ramp for successive targets. A piece
//! is kept whole if a quick test finds no ground of the line above the piece.
ghost use Rattle.std.specs.Prelude.{◌≡◌, ℕ, ◌+◌, ◌^◌, ◌<◌, ◌≤◌, IsTrue, true, ◌↔◌, pos, ◌-ℤ◌, ◌≤ℤ◌, length, Some, IfSome, OnOk, slice_get, unsigned_abs};
ghost use Rattle.std.specs.Bool.{OnTrue};
ghost use Rattle.horizons.specs.declared.target.Target.{Target};
ghost use Rattle.horizons.specs.Horizons.{IsTarget, AreTargets, IsOver, target_count, ramp_at};
ghost use Rattle.horizons.specs.Merging.{IsRampOn};
ghost use Rattle.sightlines.specs.Walk.{AreHeights};
ghost use Rattle.sight.specs.Sweep.{PassesBefore, AreBefore, IsFamily, IsLine, Passes, PassesAmong, IsClear, AreClear, IsHiddenOn, RaisesBelow};
ghost use Rattle.sight.specs.LineBlocks.{AreLineTops};

use crate::family::{Family, Span, offset_at, passed_ramp};
use crate::line_blocks::{LineBlocks, clear_end};
use horizons::{Cursor, Horizon, Piece, Ramp, Target, is_never_above, push_greater};
use std::alloc::AllocError;
use terrain::Cell;

/// Whether the ray to a target crosses a line before the cell at `offset`.
#[inline(always)]
pub(crate) fn is_before(target: Target, line: u32, offset: i32) -> bool
    requires target { IsTarget target }
    requires line { line ≤ 4096 }
    requires offset { unsigned_abs offset ≤ 2 ^ 26 }
    ensures { IsTrue result ↔ PassesBefore line offset target }
{
    (target.offset as i64) * (line as i64) < (offset as i64) * (target.line as i64)
}

/// Finds, by bisection, the end of the targets whose rays cross before a cell.
/// The cell is at `offset` on line `line`. The ray to target `low` crosses before this cell. The
/// result, an exclusive end, is at most `high`.
fn bisect(targets: &[Target], low: usize, high: usize, line: u32, offset: i32) -> usize
    requires targets { AreTargets targets.now }
    requires line { line ≤ 4096 }
    requires offset { unsigned_abs offset ≤ 2 ^ 26 }
    requires range { (low < high) × (high ≤ length targets.now) }
    requires before { AreBefore targets.now line offset (low + 1) }
    ensures range { (low < result) × (result ≤ high) }
    ensures before { AreBefore targets.now line offset result }
{
    let mut before = low;
    let mut past = high;
    while past - before > 1 {
        let middle = before + (past - before) / 2;
        if is_before(targets[middle], line, offset) {
            before = middle;
        } else {
            past = middle;
        }
    }
    past
}

/// Returns the end of the targets whose rays cross a line before a cell.
/// The cell is at `offset`. The ray to target `from` crosses before this cell. The result, an
/// exclusive end, is at most `end`. The search leaps 1, 2, 4, .. targets on, then bisects.
#[inline]
fn end_before(targets: &[Target], from: usize, end: usize, line: u32, offset: i32) -> usize
    requires targets { AreTargets targets.now }
    requires line { line ≤ 4096 }
    requires offset { unsigned_abs offset ≤ 2 ^ 26 }
    requires range { (from < end) × (end ≤ length targets.now) }
    requires before { AreBefore targets.now line offset (from + 1) }
    ensures range { (from < result) × (result ≤ end) }
    ensures before { AreBefore targets.now line offset result }
{
    let mut low = from;
    let mut leap = 1;
    while leap < end - low {
        let next = low + leap;
        if !is_before(targets[next], line, offset) {
            return bisect(targets, low, next, line, offset);
        }
        low = next;
        leap += leap;
    }
    bisect(targets, low, end, line, offset)
}

/// Returns the end, at most `end`, of the targets from `from` that a span covers.
#[inline(always)]
fn end_of(span: Span, targets: &[Target], from: usize, end: usize, line: u32) -> usize
    requires last { (span.offset ≤ℤ span.last) × (unsigned_abs span.last ≤ 2 ^ 25) }
    requires targets { AreTargets targets.now }
    requires line { line ≤ 4096 }
    requires range { (from < end) × (end ≤ length targets.now) }
    requires passes { (u : Target) → slice_get targets.now from ≡ Some u →
        Passes line span.offset u }
    ensures range { (from < result) × (result ≤ end) }
    ensures over { (i : ℕ) (u t : Target) → from ≤ i → i < result →
        slice_get targets.now from ≡ Some u → slice_get targets.now i ≡ Some t
        → PassesAmong line span.offset span.last t × (span.alone ≡ true → t ≡ u) }
{
    if span.alone {
        return from + 1;
    }
    end_before(targets, from, end, line, span.last + 1)
}

/// Returns how many targets' rays cross a line before the side's first cell.
/// The sweep has passed these targets, since the side has the cell of each target.
fn count_before_side(family: Family, line: u32, targets: &[Target]) -> usize
    requires family { IsFamily family }
    requires line { line ≤ 4096 }
    requires targets { AreTargets targets.now }
    ensures range { result ≤ length targets.now }
    ensures before { AreBefore targets.now line (pos family.side.first -ℤ pos family.side.at)
        result }
{
    let first = family.first_offset();
    if targets.is_empty() || !is_before(targets[0], line, first) {
        return 0;
    }
    end_before(targets, 0, targets.len(), line, first)
}

/// Whether a piece's ramp may be ground of the line just before `line`.
/// The ground of `line` mostly rises above such a piece, so `end_of_clear` leaves out the tests.
#[inline(always)]
fn is_of_last_line(piece: Piece, line: u32) -> bool
    requires line { 0 < line }
{
    piece.ramp.lines == line - 1
}

/// Returns true only if a line's ground is nowhere above a piece from target `from` on.
/// That says nothing of targets on or before the line.
#[inline(always)]
fn is_ground_below_piece(
    cells: &[Cell],
    family: Family,
    line: u32,
    targets: &[Target],
    from: usize,
    piece: Piece,
) -> bool
    requires heights { AreHeights cells.now }
    requires family { IsFamily family }
    requires line { IsLine family line }
    requires targets { AreTargets targets.now }
    requires range { (from < piece.end) × (piece.end ≤ length targets.now) }
    requires ramp { IsRampOn targets.now piece.ramp from piece.end }
    ensures { OnTrue result
        (IsHiddenOn cells.now family targets.now line piece.ramp from piece.end) }
{
    let low = offset_at(targets[from], line);
    let high = offset_at(targets[piece.end - 1], line);
    let Some(top) = family.top_between(cells, line, low, high) else {
        return true;
    };
    is_never_above(
        targets,
        family.constant_ramp(line, top),
        piece.ramp,
        from,
        piece.end,
    )
}

/// Returns a line beyond `line` before which no ground is above a piece from target `from` on.
/// Ground before `line` does not count. `None` where none is found.
#[inline(always)]
fn end_of_clear(
    cells: &[Cell],
    tops: &[Cell],
    blocks: LineBlocks,
    family: Family,
    line: u32,
    targets: &[Target],
    from: usize,
    piece: Piece,
) -> Option<u32>
    requires heights { AreHeights cells.now }
    requires tops { AreLineTops cells.now family tops.now blocks }
    requires family { IsFamily family }
    requires line { IsLine family line }
    requires targets { AreTargets targets.now }
    requires range { (from < piece.end) × (piece.end ≤ length targets.now) }
    requires ramp { IsRampOn targets.now piece.ramp from piece.end }
    requires clear { (i : ℕ) (t : Target) → from ≤ i → i < piece.end →
        slice_get targets.now i ≡ Some t → IsClear cells.now family line t piece.ramp }
    ensures { IfSome result (λ end. (line < end) × ((k : ℕ) → line ≤ k → k < end →
        IsHiddenOn cells.now family targets.now k piece.ramp from piece.end)) }
{
    if line < piece.ramp.clear_to {
        return Some(piece.ramp.clear_to);
    }
    if is_of_last_line(piece, line) {
        return None;
    }
    if let Some(end) = clear_end(tops, blocks, family, line, targets, from, piece) {
        return Some(end);
    }
    if is_ground_below_piece(cells, family, line, targets, from, piece) {
        return Some(line + 1);
    }
    None
}

/// Extends `raised` by a piece of `highest`, raised to a line's ground.
fn raise_piece(
    cells: &[Cell],
    family: Family,
    line: u32,
    targets: &[Target],
    highest: &Horizon,
    piece: Piece,
    raised: &mut Horizon,
) -> Result<(), AllocError>
    requires heights { AreHeights cells.now }
    requires family { IsFamily family }
    requires line { IsLine family line }
    requires targets { AreTargets targets.now }
    requires highest { IsOver targets.now highest.now }
    requires clear { AreClear cells.now family targets.now line highest.now }
    requires range { (target_count raised.old < piece.end) × (piece.end ≤ length targets.now) }
    requires piece { (i : ℕ) → target_count raised.old ≤ i → i < piece.end →
        ramp_at highest.now i ≡ Some piece.ramp }
    requires before { RaisesBelow cells.now family targets.now line highest.now
        (target_count raised.old) raised.old }
    ensures { OnOk result ((target_count raised.new ≡ piece.end)
        × RaisesBelow cells.now family targets.now line highest.now piece.end raised.new) }
{
    let mut from = raised.target_count();
    while from < piece.end {
        let span = family.span(cells, line, targets[from]);
        // rays from this slope on cross past the side, so the sweep has passed their targets
        if span.offset >= family.end_offset() {
            return raised.push(piece.end, passed_ramp());
        }
        let end = end_of(span, targets, from, piece.end, line);
        push_greater(targets, span.ramp, piece.ramp, end, raised)?;
        from = end;
    }
    Ok(())
}

/// Raises the horizon `highest` to the ground of a line, into `raised`.
pub(crate) fn raise(
    cells: &[Cell],
    tops: &[Cell],
    blocks: LineBlocks,
    family: Family,
    line: u32,
    targets: &[Target],
    highest: &Horizon,
    raised: &mut Horizon,
) -> Result<(), AllocError>
    requires heights { AreHeights cells.now }
    requires tops { AreLineTops cells.now family tops.now blocks }
    requires family { IsFamily family }
    requires line { IsLine family line }
    requires targets { AreTargets targets.now }
    requires highest { IsOver targets.now highest.now }
    requires clear { AreClear cells.now family targets.now line highest.now }
    ensures { OnOk result ((target_count raised.new ≡ length targets.now)
        × RaisesBelow cells.now family targets.now line highest.now (length targets.now)
        raised.new) }
{
    raised.clear();
    let mut cursor = Cursor::start();
    let mut from = count_before_side(family, line, targets);
    raised.push(from, passed_ramp())?;
    while from < targets.len() {
        let piece = highest.piece(&mut cursor, from);
        if let Some(end) = end_of_clear(cells, tops, blocks, family, line, targets, from, piece) {
            raised.push(piece.end, piece.ramp.cleared_to(end))?;
        } else {
            raise_piece(cells, family, line, targets, highest, piece, raised)?;
        }
        from = piece.end;
    }
    Ok(())
}
