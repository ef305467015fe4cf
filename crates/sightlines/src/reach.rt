//! Says whether a target is at most a radius, counted in cells, away from an observer's eye.
ghost use Rattle.std.specs.Prelude.{◌≡◌, ◌<◌, ◌≤◌};
ghost use Rattle.sightlines.specs.Sight.{longest_radius, is_near};

use terrain::Place;

/// Returns whether the target is at most `radius` cells away from the eye.
#[inline(always)]
pub fn is_in_reach(eye: Place, target: Place, radius: u32) -> bool
    requires rows { (eye.row < 4096) × (target.row < 4096) }
    requires cols { (eye.col < 4096) × (target.col < 4096) }
    requires radius { radius ≤ longest_radius }
    ensures { result ≡ is_near eye target radius }
{
    let rows = eye.row.abs_diff(target.row);
    let cols = eye.col.abs_diff(target.col);
    rows * rows + cols * cols <= radius * radius
}
