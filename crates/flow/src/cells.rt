//! Lists a tile's codes, in the tile's row order; finds the place that a code leads to.
ghost use Rattle.std.specs.Prelude.{◌≡◌, ◌-◌, ◌^◌, ◌<◌, IfOk, unwrap_or, option_and_then};
ghost use Rattle.terrain.specs.Ways.{place_toward};
ghost use Rattle.tiles.specs.Cutting.{bounds_of};
ghost use Rattle.terrain.specs.Neighbours.{is_place};
ghost use Rattle.flow.specs.TileFlow.{directed_by};
ghost use Rattle.flow.specs.TileLinks.{AreTileCodes};

use drainage::Code;
use std::alloc::{AllocError, Global};
use terrain::{Place, place_on};
use tiles::TileView;

/// Returns the codes of a tile's cells, in the tile's row order.
pub(crate) fn tile_codes(
    alloc: Global,
    codes: &TileView<'_, Option<Code>>,
) -> Result<Vec<Option<Code>>, AllocError>
    ensures { IfOk result (λ v. AreTileCodes (directed_by codes.now)
        (bounds_of codes.now.cutting codes.now.tile) v.items) }
{
    let bounds = codes.bounds();
    let count = bounds.rows as usize * bounds.cols as usize;
    let mut cells = Vec::with_capacity(alloc, count)?;
    for row in 0..bounds.rows {
        cells.extend_from_slice(codes.row(row))?;
    }
    Ok(cells)
}

/// Returns whether two places are equal, by the definition `is_place`.
#[inline(always)]
pub(crate) fn is_place(place: Place, other: Place) -> bool
    ensures { result ≡ is_place place other }
{
    place.row == other.row && place.col == other.col
}

/// Returns the place to which `code` leads from `place`; `place` if it leads to none.
#[inline(always)]
pub(crate) fn next_of(code: Option<Code>, place: Place) -> Place
    requires row { place.row < 2 ^ 32 - 1 }
    requires col { place.col < 2 ^ 32 - 1 }
    ensures { result ≡ unwrap_or (option_and_then (λ c. place_toward c place) code) place }
{
    match code {
        Some(code) => toward(code, place).unwrap_or(place),
        None => place,
    }
}

/// Returns the place to which `code` leads from `place`.
/// `None` for an outlet's code, or if it leads past row 0 or column 0.
#[inline(always)]
fn toward(code: Code, place: Place) -> Option<Place>
    requires row { place.row < 2 ^ 32 - 1 }
    requires col { place.col < 2 ^ 32 - 1 }
    ensures { result ≡ place_toward code place }
{
    place_on(code.way()?, place)
}
