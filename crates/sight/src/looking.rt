//! Looks up which targets on a line are hidden by lines (columns, or rows) nearer the observer.
ghost use Rattle.std.specs.Prelude.{◌≡◌, ℕ, ◌+◌, ◌<◌, ◌≤◌, ℤ, List, Option, Some, IfOk, OnOk};
ghost use Rattle.horizons.specs.declared.horizon.Piece.{Piece};
ghost use Rattle.horizons.specs.declared.ramp.Ramp.{Ramp};
ghost use Rattle.horizons.specs.Horizons.{AreTargets, IsTarget, IsRampAt, IsUpTo, target_count, hides, ramp_at};
ghost use Rattle.sightlines.specs.Walk.{AreHeights};
ghost use Rattle.sightlines.specs.Sight.{highest_eye};
ghost use Rattle.sight.specs.Hiding.{rise_at};
ghost use Rattle.sight.specs.Raising.{IsRaised};
ghost use Rattle.sight.specs.Sweep.{IsFamily, IsLine, IsAtCell};
ghost use Rattle.sight.specs.LineBlocks.{AreLineTops};
ghost use Rattle.sight.specs.Looking.{LooksFrom};
ghost use Rattle.sight.specs.declared.family.Family.{Family};

use crate::family::Family;
use crate::heights::HIGHEST_TARGET;
use crate::line_blocks::LineBlocks;
use crate::sweep::Sweep;
use horizons::{Cursor, Target};
use std::alloc::{AllocError, Global};
use terrain::Cell;

/// Returns a cursor for `rank`: a new one if `rank` is below `last`, else `cursor`.
/// If `cursor` may be used at rank `last`, the result may be used at `rank`.
#[inline(always)]
fn cursor_at(cursor: Cursor, last: usize, rank: usize) -> Cursor
    ensures { (pieces : List Piece) → IsUpTo pieces cursor last → IsUpTo pieces result rank }
{
    if rank < last { Cursor::start() } else { cursor }
}

/// A sweep of the lines before `line`, with a cursor into its horizon.
/// `last` is the rank that was looked up last, and 0 before the first lookup.
#[derive(Drop)]
pub struct SweepLookup {
    pub sweep: Sweep,
    pub line: u32,
    pub cursor: Cursor,
    pub last: usize,
}

impl SweepLookup {
    /// Returns a lookup for line 1, before which there is no line.
    pub(crate) fn new(alloc: Global, targets: &[Target]) -> Result<Self, AllocError>
        requires { AreTargets targets.now }
        ensures { IfOk result
            (λ l. (cells : List (Option ℤ)) (f : Family) → LooksFrom cells f targets.now 1 l) }
    {
        Ok(SweepLookup {
            sweep: Sweep::new(alloc, targets)?,
            line: 1,
            cursor: Cursor::start(),
            last: 0,
        })
    }

    /// Sweeps the lines from `self.line` to below `line`.
    /// Then `self.line` is `line`.
    pub(crate) fn go_to(
        &mut self,
        cells: &[Cell],
        tops: &[Cell],
        blocks: LineBlocks,
        family: Family,
        line: u32,
        targets: &[Target],
    ) -> Result<(), AllocError>
        requires heights { AreHeights cells.now }
        requires tops { AreLineTops cells.now family tops.now blocks }
        requires family { IsFamily family }
        requires line { IsLine family line }
        requires range { (0 < self.old.line) × (self.old.line ≤ line) }
        requires targets { AreTargets targets.now }
        requires before { LooksFrom cells.now family targets.now self.old.line self.old }
        ensures { OnOk result (LooksFrom cells.now family targets.now line self.new) }
    {
        if self.line == line {
            return Ok(());
        }
        self.sweep
            .pass_lines(cells, tops, blocks, family, self.line, line, targets)?;
        self.line = line;
        self.cursor = Cursor::start();
        Ok(())
    }

    /// Returns whether the horizon hides `target`, as a line before line `self.line` does.
    /// `target` is on that line or beyond, has rank `rank` by slope, and is `rise` above the eye.
    #[inline(always)]
    pub(crate) fn hides(&mut self, rank: usize, target: Target, rise: i64) -> bool
        requires rank { rank < target_count self.old.sweep.highest }
        requires cursor { IsUpTo self.old.sweep.highest self.old.cursor self.old.last }
        requires target { IsTarget target }
        requires at { (r : Ramp) → ramp_at self.old.sweep.highest rank ≡ Some r →
            IsRampAt r target }
        ensures answer { result ≡ hides self.old.sweep.highest rank target rise }
        ensures line { self.new.line ≡ self.old.line }
        ensures highest { self.new.sweep ≡ self.old.sweep }
        ensures cursor { IsUpTo self.new.sweep.highest self.new.cursor self.new.last }
    {
        let mut cursor = cursor_at(self.cursor, self.last, rank);
        let hides = self.sweep.highest.hides(&mut cursor, rank, target, rise);
        self.cursor = cursor;
        self.last = rank;
        hides
    }

    /// Whether the horizon hides a target at a height above its ground; see [`hides`](Self::hides).
    #[inline(always)]
    fn hides_at(
        &mut self,
        cells: &[Cell],
        family: Family,
        rank: usize,
        target: Target,
        height: u32,
    ) -> bool
        requires heights { AreHeights cells.now }
        requires family { IsFamily family }
        requires line { IsLine family target.line }
        requires height { height ≤ highest_eye }
        requires rank { rank < target_count self.old.sweep.highest }
        requires cursor { IsUpTo self.old.sweep.highest self.old.cursor self.old.last }
        requires target { IsTarget target }
        requires at { (r : Ramp) → ramp_at self.old.sweep.highest rank ≡ Some r →
            IsRampAt r target }
        ensures answer { (y : ℕ) → IsAtCell family y target →
            result ≡ hides self.old.sweep.highest rank target
            (rise_at cells.now family height target.line y) }
        ensures line { self.new.line ≡ self.old.line }
        ensures highest { self.new.sweep ≡ self.old.sweep }
        ensures cursor { IsUpTo self.new.sweep.highest self.new.cursor self.new.last }
    {
        let rise = family.rise(cells, target, height);
        self.hides(rank, target, rise)
    }

    /// Returns a guess: how many units a target must rise from `rise` above the eye to be seen.
    /// The horizon's value cannot wrap; nor could a wrapped one mislead: callers test heights.
    #[inline(always)]
    fn missing_height(&self, rank: usize, target: Target, rise: i64) -> u32
        requires rank { rank < target_count self.now.sweep.highest }
        requires cursor { IsUpTo self.now.sweep.highest self.now.cursor self.now.last }
        ensures { result ≤ highest_eye + 1 }
    {
        let mut cursor = cursor_at(self.cursor, self.last, rank);
        let ramp = self.sweep.highest.piece(&mut cursor, rank).ramp;
        let gained = ramp.gain.wrapping_mul(i64::from(target.offset));
        let value = gained.wrapping_add(ramp.intercept.wrapping_mul(i64::from(target.line)));
        let lines = i64::from(ramp.lines.max(1));
        // mostly below 2^32, where a division takes half the time
        let hidden = value.wrapping_sub(rise.wrapping_mul(lines)).max(0) as u64;
        let missing = hidden.wrapping_add(lines as u64 - 1) / lines as u64;
        missing.min(u64::from(HIGHEST_TARGET) + 1) as u32
    }

    /// Raises a target from `height` to the least height at which the horizon does not hide it.
    /// If that is above the greatest height, the result is one unit above the greatest.
    #[inline(always)]
    pub(crate) fn raise(
        &mut self,
        cells: &[Cell],
        family: Family,
        rank: usize,
        target: Target,
        height: u32,
    ) -> u32
        requires heights { AreHeights cells.now }
        requires family { IsFamily family }
        requires line { IsLine family target.line }
        requires height { height ≤ highest_eye + 1 }
        requires rank { rank < target_count self.old.sweep.highest }
        requires cursor { IsUpTo self.old.sweep.highest self.old.cursor self.old.last }
        requires target { IsTarget target }
        requires at { (r : Ramp) → ramp_at self.old.sweep.highest rank ≡ Some r →
            IsRampAt r target }
        ensures raised { (y : ℕ) → IsAtCell family y target →
            IsRaised (λ h. hides self.old.sweep.highest rank target
            (rise_at cells.now family h target.line y)) height result }
        ensures line { self.new.line ≡ self.old.line }
        ensures highest { self.new.sweep ≡ self.old.sweep }
        ensures cursor { IsUpTo self.new.sweep.highest self.new.cursor self.new.last }
    {
        if height > HIGHEST_TARGET || !self.hides_at(cells, family, rank, target, height) {
            return height;
        }
        let rise = family.rise(cells, target, height);
        let mut hidden = height;
        let mut clear = HIGHEST_TARGET + 1;
        // the guess is right if the first probe, one unit below it, is hidden and the second is not
        let mut probe = (height + self.missing_height(rank, target, rise)).saturating_sub(1);
        while clear - hidden > 1 {
            let height = probe.max(hidden + 1).min(clear - 1);
            if self.hides_at(cells, family, rank, target, height) {
                hidden = height;
                probe = height + 1;
            } else {
                clear = height;
                probe = hidden + (clear - hidden) / 2;
            }
        }
        clear
    }
}
