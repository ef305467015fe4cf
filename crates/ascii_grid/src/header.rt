//! Stores the values of a header in six slots, and finds which slots are filled or missing.
//!
//! `Header::slot_for` finds a key's slot, `put` fills a slot, `into_grid` builds the grid.
ghost use Rattle.std.specs.Prelude.{◌≡◌, ◌≤◌, ◌*◌, length, true, false, Option, Some, None, IfOk, IfErr, MatchOption, unwrap_or, codes, if◌then◌else◌};
ghost use Rattle.terrain.specs.Decimal.{is_decimal};
ghost use Rattle.ascii_grid.specs.Header.{is_value, bad_value, slot_of};
ghost use Rattle.ascii_grid.specs.Slots.{no_slots, is_given, with_value, missing_of, wanted_of, IsWhole, raster_of};
ghost use Rattle.terrain.specs.Raster.{IsLawful};

use crate::fault::{GridFault, Key};
use crate::key::slot_of;
use decimals::{is_above_zero, is_decimal, size};
use std::alloc::Global;
use terrain::{Anchor, Cell, Grid, GridHeader, MOST_WORD_BYTES, Word};

/// The values that a header has given so far; `None` for an empty slot.
#[derive(Drop)]
pub(crate) struct Header {
    pub(crate) cols: Option<u16>,
    pub(crate) rows: Option<u16>,
    pub(crate) xll: Option<Anchor>,
    pub(crate) yll: Option<Anchor>,
    pub(crate) cellsize: Option<Word>,
    pub(crate) nodata: Option<Word>,
}

impl Header {
    pub(crate) fn new() -> Self
        ensures { result ≡ no_slots }
    {
        Header {
            cols: None,
            rows: None,
            xll: None,
            yll: None,
            cellsize: None,
            nodata: None,
        }
    }

    /// Returns the empty slot of a key word, or a fault: unknown or repeated key.
    pub(crate) fn slot_for(&self, word: &[u8]) -> Result<Key, GridFault>
        ensures ok { IfOk result
            (λ slot. (slot_of word.now ≡ Some slot) × (is_given self.now slot ≡ false)) }
        ensures err { IfErr result (λ f. MatchOption (slot_of word.now) (f ≡ GridFault.UnknownKey)
            (λ slot. (is_given self.now slot ≡ true) × (f ≡ GridFault.RepeatedKey slot))) }
    {
        let key = slot_of(word).ok_or(GridFault::UnknownKey)?;
        if self.is_given(key) {
            return Err(GridFault::RepeatedKey(key));
        }
        Ok(key)
    }

    fn is_given(&self, key: Key) -> bool
        ensures { result ≡ is_given self.now key }
    {
        match key {
            Key::Ncols => self.cols.is_some(),
            Key::Nrows => self.rows.is_some(),
            Key::Xll => self.xll.is_some(),
            Key::Yll => self.yll.is_some(),
            Key::Cellsize => self.cellsize.is_some(),
            Key::Nodata => self.nodata.is_some(),
        }
    }

    /// Fills the slot `key` with the value `word`, or returns the fault of `word`.
    ///
    /// Only `Xll` and `Yll` use `centre`.
    pub(crate) fn put(&mut self, key: Key, centre: bool, word: &[u8]) -> Result<(), GridFault>
        requires { length word.now ≤ MOST_WORD_BYTES }
        ensures ok { IfOk result (λ _. (is_value key word.now ≡ true)
            × (self.new ≡ with_value self.old key centre word.now)) }
        ensures err { IfErr result (λ f. (is_value key word.now ≡ false) × (f ≡ bad_value key)) }
    {
        match key {
            Key::Ncols => {
                self.cols = Some(size(word).ok_or(GridFault::BadSize(Key::Ncols))?);
            }
            Key::Nrows => {
                self.rows = Some(size(word).ok_or(GridFault::BadSize(Key::Nrows))?);
            }
            Key::Xll => {
                let word = decimal(word).ok_or(GridFault::BadPlace(Key::Xll))?;
                self.xll = Some(Anchor { centre, word });
            }
            Key::Yll => {
                let word = decimal(word).ok_or(GridFault::BadPlace(Key::Yll))?;
                self.yll = Some(Anchor { centre, word });
            }
            Key::Cellsize => {
                if !is_decimal(word) || !is_above_zero(word) {
                    return Err(GridFault::BadPlace(Key::Cellsize));
                }
                self.cellsize = Some(Word::from_bytes(word));
            }
            Key::Nodata => {
                self.nodata = Some(decimal(word).ok_or(GridFault::BadNodata)?);
            }
        }
        Ok(())
    }

    /// Returns the NODATA word, `-9999` if the header gives none.
    pub(crate) fn nodata_word(&self) -> Word
        ensures { result ≡ unwrap_or self.now.nodata (codes "-9999") }
    {
        match &self.nodata {
            Some(word) => word.copy(),
            None => Word::from_bytes(b"-9999"),
        }
    }

    pub(crate) fn into_grid(self, alloc: Global, scale: u8, nodata: Word, cells: Vec<Cell>) -> Grid
        requires whole { IsWhole self }
        requires lawful { IsLawful (raster_of self scale nodata cells.items) }
        ensures { result ≡ raster_of self scale nodata cells.items }
    {
        let Header {
            cols,
            rows,
            xll,
            yll,
            cellsize,
            nodata: _,
        } = self;
        let header = GridHeader {
            cols: u32::from(cols.unwrap()),
            rows: u32::from(rows.unwrap()),
            xll: xll.unwrap(),
            yll: yll.unwrap(),
            cellsize: cellsize.unwrap(),
            nodata,
        };
        Grid::from_parts(alloc, header, scale, cells)
    }

    /// Returns columns times rows, or the fault of the first required slot that is missing.
    pub(crate) fn cells_wanted(&self) -> Result<u32, GridFault>
        ensures ok { IfOk result (λ n. (missing_of self.now ≡ None) × (n ≡ wanted_of self.now)) }
        ensures err { IfErr result (λ f. missing_of self.now ≡ Some f) }
    {
        let cols = self.cols.ok_or(GridFault::MissingKey(Key::Ncols))?;
        let rows = self.rows.ok_or(GridFault::MissingKey(Key::Nrows))?;
        if self.xll.is_none() {
            return Err(GridFault::MissingKey(Key::Xll));
        }
        if self.yll.is_none() {
            return Err(GridFault::MissingKey(Key::Yll));
        }
        if self.cellsize.is_none() {
            return Err(GridFault::MissingKey(Key::Cellsize));
        }
        Ok(u32::from(cols) * u32::from(rows))
    }
}

fn decimal(word: &[u8]) -> Option<Word>
    requires { length word.now ≤ MOST_WORD_BYTES }
    ensures { result ≡ (if is_decimal word.now then Some word.now else None) }
{
    is_decimal(word).then_some(Word::from_bytes(word))
}
