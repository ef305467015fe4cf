//! Finds the meaning of a word among the heights: a cell with a height, a NODATA cell, or neither.
ghost use Rattle.std.specs.Prelude.{◌≡◌, ℕ, List, Option, Some, None};
ghost use Rattle.terrain.specs.Decimal.{scaled_value};
ghost use Rattle.ascii_grid.specs.GridText.{same_value};
ghost use Rattle.ascii_grid.specs.Meaning.{meaning_of};

use decimals::scaled_value;
use terrain::{Cell, HIGHEST, LOWEST};

#[derive(Clone, Copy)]
pub(crate) enum Meaning {
    /// A cell with a height, or NODATA.
    Cell(Cell),
    /// Neither a height nor NODATA.
    Nothing,
}

/// Returns the meaning of `word`; `nodata_value` is the scaled value of `nodata`.
pub(crate) fn cell(scale: u8, nodata: &[u8], nodata_value: Option<i64>, word: &[u8]) -> Meaning
    ensures { nodata_value ≡ scaled_value scale nodata.now →
        result ≡ meaning_of scale nodata.now word.now }
{
    match scaled_value(scale, word) {
        Some(value) => value_cell(value, nodata_value),
        None if word == nodata => Meaning::Cell(Cell::no_data()),
        None => Meaning::Nothing,
    }
}

/// Returns the meaning of a word with the scaled value `value`.
///
/// `nodata_value` is the scaled value of the NODATA word.
#[inline(always)]
pub(crate) fn value_cell(value: i64, nodata_value: Option<i64>) -> Meaning
    ensures { (d : ℕ) (nodata word : List ℕ) → scaled_value d word ≡ Some value →
        nodata_value ≡ scaled_value d nodata →
        result ≡ meaning_of d nodata word }
{
    if is_same_value(Some(value), nodata_value) {
        return Meaning::Cell(Cell::no_data());
    }
    if LOWEST <= value && value <= HIGHEST {
        Meaning::Cell(Cell::of(value))
    } else {
        Meaning::Nothing
    }
}

#[inline(always)]
fn is_same_value(value: Option<i64>, other: Option<i64>) -> bool
    ensures { result ≡ same_value value other }
{
    match (value, other) {
        (Some(x), Some(y)) => x == y,
        _ => false,
    }
}
