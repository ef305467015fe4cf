//! Tests whether a cell of a tile may be within the radius of an observer.
ghost use Rattle.std.specs.Prelude.{◌≡◌, ◌+◌, ◌<◌, ◌≤◌, false};
ghost use Rattle.std.specs.Bool.{OnFalse};
ghost use Rattle.terrain.specs.declared.place.Place.{Place};
ghost use Rattle.tiles.specs.Cutting.{IsInBounds};
ghost use Rattle.sightlines.specs.Sight.{longest_radius, is_near};

use sightlines::is_in_reach;
use terrain::Place;
use tiles::Bounds;

/// Returns whether the place of the bounds nearest to `eye` is within the radius.
/// If not, no place of the bounds is.
pub(crate) fn is_any_in_reach(eye: Place, bounds: Bounds, radius: u32) -> bool
    requires eye { (eye.row < 4096) × (eye.col < 4096) }
    requires some { (1 ≤ bounds.rows) × (1 ≤ bounds.cols) }
    requires inside { (bounds.top + bounds.rows ≤ 4096) × (bounds.left + bounds.cols ≤ 4096) }
    requires radius { radius ≤ longest_radius }
    ensures { OnFalse result ((p : Place) → IsInBounds bounds p → is_near eye p radius ≡ false) }
{
    let nearest = Place {
        row: eye.row.clamp(bounds.top, bounds.top + bounds.rows - 1),
        col: eye.col.clamp(bounds.left, bounds.left + bounds.cols - 1),
    };
    is_in_reach(eye, nearest, radius)
}
