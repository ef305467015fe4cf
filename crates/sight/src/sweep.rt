//! Raises a horizon, which has a ramp for each target, to the ground of line after line. Lines are
//! the columns, or the rows, on one side of an observer.
ghost use Rattle.std.specs.Prelude.{◌+◌, ◌≤◌, ℤ, List, Option, IfOk, OnOk};
ghost use Rattle.horizons.specs.Horizons.{AreTargets};
ghost use Rattle.sightlines.specs.Walk.{AreHeights};
ghost use Rattle.sight.specs.LineBlocks.{AreLineTops};
ghost use Rattle.sight.specs.Sweep.{IsFamily, IsLine, HidesBefore};
ghost use Rattle.sight.specs.declared.family.Family.{Family};

use crate::family::Family;
use crate::line_blocks::LineBlocks;
use crate::line_ground::raise;
use horizons::{Horizon, Ramp, Target};
use std::alloc::{AllocError, Global};
use std::mem;
use terrain::Cell;

/// The horizon of the lines passed so far.
/// `spare` is another horizon, whose memory is reused.
#[derive(Drop)]
pub struct Sweep {
    pub highest: Horizon,
    spare: Horizon,
}

impl Sweep {
    /// Returns a sweep that has passed no line yet.
    /// Its horizon hides no target.
    pub(crate) fn new(alloc: Global, targets: &[Target]) -> Result<Self, AllocError>
        requires { AreTargets targets.now }
        ensures { IfOk result (λ s. (cells : List (Option ℤ)) (f : Family) →
            HidesBefore cells f targets.now 1 s.highest) }
    {
        let mut highest = Horizon::new(alloc);
        highest.push(targets.len(), Ramp::nothing())?;
        Ok(Sweep {
            highest,
            spare: Horizon::new(alloc),
        })
    }

    /// Raises the horizon to the ground of one line.
    fn pass(
        &mut self,
        cells: &[Cell],
        tops: &[Cell],
        blocks: LineBlocks,
        family: Family,
        line: u32,
        targets: &[Target],
    ) -> Result<(), AllocError>
        requires heights { AreHeights cells.now }
        requires tops { AreLineTops cells.now family tops.now blocks }
        requires family { IsFamily family }
        requires line { IsLine family line }
        requires targets { AreTargets targets.now }
        requires before { HidesBefore cells.now family targets.now line self.old.highest }
        ensures { OnOk result
            (HidesBefore cells.now family targets.now (line + 1) self.new.highest) }
    {
        raise(
            cells,
            tops,
            blocks,
            family,
            line,
            targets,
            &self.highest,
            &mut self.spare,
        )?;
        mem::swap(&mut self.highest, &mut self.spare);
        Ok(())
    }

    /// Raises the horizon to the ground of the lines from `from` to below `to`.
    pub(crate) fn pass_lines(
        &mut self,
        cells: &[Cell],
        tops: &[Cell],
        blocks: LineBlocks,
        family: Family,
        from: u32,
        to: u32,
        targets: &[Target],
    ) -> Result<(), AllocError>
        requires heights { AreHeights cells.now }
        requires tops { AreLineTops cells.now family tops.now blocks }
        requires family { IsFamily family }
        requires range { from ≤ to }
        requires from { IsLine family from }
        requires to { IsLine family to }
        requires targets { AreTargets targets.now }
        requires before { HidesBefore cells.now family targets.now from self.old.highest }
        ensures { OnOk result (HidesBefore cells.now family targets.now to self.new.highest) }
    {
        for line in from..to {
            self.pass(cells, tops, blocks, family, line, targets)?;
        }
        Ok(())
    }
}
