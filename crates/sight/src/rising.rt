//! Computes a target's rise: how many units the target is above the observer's eye.
ghost use Rattle.std.specs.Prelude.{◌≡◌, ℕ, ◌≤◌, ℤ, Some};
ghost use Rattle.horizons.specs.Horizons.{IsTarget};
ghost use Rattle.horizons.specs.declared.target.Target.{Target};
ghost use Rattle.terrain.specs.Raster.{IsHeight};
ghost use Rattle.sightlines.specs.Sight.{highest_eye};
ghost use Rattle.sightlines.specs.Walk.{AreHeights};
ghost use Rattle.sight.specs.Sweep.{IsFamily, IsLine, IsRise, IsAtCell};
ghost use Rattle.sight.specs.Hiding.{line_height, rise_at};

use crate::family::Family;
use crate::heights::height_at;
use horizons::Target;
use terrain::{Cell, Height};

impl Family {
    /// Returns the height of a target's cell.
    /// `None` for NODATA, below coordinate 0, past the side's end, or past the end of `cells`.
    #[inline(always)]
    fn height_of(self, cells: &[Cell], target: Target) -> Option<Height>
        requires heights { AreHeights cells.now }
        requires family { IsFamily self }
        requires line { IsLine self target.line }
        requires target { IsTarget target }
        ensures value { (y : ℕ) → IsAtCell self y target →
            result ≡ line_height cells.now self target.line y }
        ensures height { (h : ℤ) → result ≡ Some h → IsHeight h }
    {
        match self.index_at(target.line, target.offset) {
            Some(index) => height_at(cells, index),
            None => None,
        }
    }

    /// Returns how many units a target at `height` above its ground is above the eye.
    /// The ground of a NODATA cell counts as 0.
    #[inline(always)]
    pub(crate) fn rise(self, cells: &[Cell], target: Target, height: u32) -> i64
        requires heights { AreHeights cells.now }
        requires family { IsFamily self }
        requires line { IsLine self target.line }
        requires target { IsTarget target }
        requires height { height ≤ highest_eye }
        ensures value { (y : ℕ) → IsAtCell self y target →
            result ≡ rise_at cells.now self height target.line y }
        ensures small { IsRise result }
    {
        let ground = self.height_of(cells, target).unwrap_or(0);
        ground + height as i64 - self.eye
    }
}
