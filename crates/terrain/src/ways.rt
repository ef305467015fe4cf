//! The places in the eight directions from a place, and the indices of their cells.
//!
//! Directions, or ways, count from 0 in the order of their codes: E, SE, S, SW, W, NW, N, NE.
//! [`place_on`] takes and returns places, [`around_index`] indices in row order.
ghost use Rattle.std.specs.Prelude.{◌≡◌, ◌+◌, ◌-◌, ◌^◌, ◌<◌};
ghost use Rattle.terrain.specs.Ways.{around_index, place_on};

use crate::place::Place;

/// Returns the place beside `place` in direction `way`, from 0 for E to 7 for NE.
/// Returns `None` north of the first row, west of the first column, and for a `way` above 7.
/// Does not check the south and east bounds: the result may lie outside the grid.
///
/// # Examples
///
/// ```ignore
/// // 6 is N
/// assert_eq!(place_on(6, Place { row: 4, col: 2 }), Some(Place { row: 3, col: 2 }));
/// ```
#[inline(always)]
pub fn place_on(way: usize, place: Place) -> Option<Place>
    requires rows { place.row < 2 ^ 32 - 1 }
    requires cols { place.col < 2 ^ 32 - 1 }
    ensures { result ≡ place_on way place }
{
    let Place { row, col } = place;
    let (row, col) = match way {
        0 => (row, col + 1),
        1 => (row + 1, col + 1),
        2 => (row + 1, col),
        3 => (row + 1, col.checked_sub(1)?),
        4 => (row, col.checked_sub(1)?),
        5 => (row.checked_sub(1)?, col.checked_sub(1)?),
        6 => (row.checked_sub(1)?, col),
        7 => (row.checked_sub(1)?, col + 1),
        _ => return None,
    };
    Some(Place { row, col })
}

/// Returns the indices of the eight cells around the cell at `index`, in code order.
/// Rows have `cols` cells, and the cell must not be in the first or last row or column.
#[inline(always)]
pub fn around_index(cols: usize, index: usize) -> [usize; 8]
    requires before { cols < index }
    requires after { index + cols + 1 < 2 ^ 64 }
    ensures { result ≡ around_index cols index }
{
    [
        index + 1,
        index + cols + 1,
        index + cols,
        index + cols - 1,
        index - 1,
        index - cols - 1,
        index - cols,
        index - cols + 1,
    ]
}
