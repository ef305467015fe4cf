//! Iterates over the rim of a tile, its outermost cells, in row order.
ghost use Rattle.std.specs.Prelude.{◌≡◌, ◌+◌, ◌<◌, ◌≤◌, ◌∷◌, filter};
ghost use Rattle.std.specs.Iterator.{YieldsFirst, item_count};
ghost use Rattle.tiles.specs.Cutting.{longest_axis, places_in, is_first_or_last};
ghost use Rattle.tiles.specs.RimLeft.{IsRimState, rim_from};

use crate::bounds::Bounds;
use std::marker::Model;
use terrain::Place;

/// An iterator over a tile's rim: its first and last row and column.
/// Yields each place once, in row order. Allocates nothing.
#[derive(Drop)]
pub struct Rim {
    bounds: Bounds,
    // The next place; once all are yielded, one column past the end of the last row.
    next: Place,
}

impl Model for Rim {
    ghost use Rattle.std.specs.Prelude.{List};
    ghost use Rattle.terrain.specs.declared.place.Place.{Place};
    ghost use Rattle.tiles.specs.RimLeft.{rim_from, IsRimState};

    ghost Value = { List Place };

    ghost view = { λ r. rim_from r.bounds r.next };

    ghost invariant = { λ r. IsRimState r.bounds r.next };
}

impl Rim {
    #[tactic(auto, using(crate::proofs::RimSteps::rim_start))]
    pub(crate) fn of_bounds(bounds: Bounds) -> Self
        requires rows { (1 ≤ bounds.rows) × (bounds.top + bounds.rows ≤ longest_axis) }
        requires cols { (1 ≤ bounds.cols) × (bounds.left + bounds.cols ≤ longest_axis) }
        ensures { result ≡ filter (is_first_or_last bounds) (places_in bounds) }
    {
        Rim {
            bounds,
            next: Place {
                row: bounds.top,
                col: bounds.left,
            },
        }
    }
}

impl Iterator for Rim {
    type Item = Place;

    ghost next_gives = { YieldsFirst (λ left. left) };

    ghost remaining = { item_count (λ left. left) };

    #[inline]
    fn next(&mut self) -> Option<Place> {
        let place = self.next;
        if place.col == self.bounds.left + self.bounds.cols {
            return None;
        }
        self.next = next_on_rim(self.bounds, place);
        Some(place)
    }
}

/// Returns the rim place after `place`; after the last, one column past the last row's end.
#[inline(always)]
fn next_on_rim(bounds: Bounds, place: Place) -> Place
    requires state { IsRimState bounds place }
    requires more { place.col < bounds.left + bounds.cols }
    ensures state { IsRimState bounds result }
    ensures left { rim_from bounds place ≡ place ∷ rim_from bounds result }
{
    let Place { row, col } = place;
    let last_row = bounds.top + bounds.rows - 1;
    let last_col = bounds.left + bounds.cols - 1;
    if col == last_col && row < last_row {
        return Place {
            row: row + 1,
            col: bounds.left,
        };
    }
    if col == last_col || row == bounds.top || row == last_row {
        return Place { row, col: col + 1 };
    }
    Place { row, col: last_col }
}
