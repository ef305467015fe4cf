//! Checks the words of a text in their order, and stores the header and the cells that they give.
//!
//! `GridBuilder::add_word` takes the next word. A key names a slot, which is the room for one of
//! six header values; a value fills the slot; a height adds a cell, by `add_cell`. `finish`
//! returns the grid.
ghost use Rattle.std.specs.Prelude.{◌↔◌, IsTrue, ◌≡◌, ◌≤◌, ◌<◌, ◌⊎◌, ◌++◌, [], ◌∷◌, List, length, Option, None, Err, IfOk, IfErr, MatchResult};
ghost use Rattle.terrain.specs.Words.{Word};
ghost use Rattle.terrain.specs.Decimal.{scaled_value};
ghost use Rattle.ascii_grid.specs.Header.{missing_fault};
ghost use Rattle.ascii_grid.specs.GridText.{height_fault, end_fault, grid_of};
ghost use Rattle.ascii_grid.specs.Meaning.{meaning_of};
ghost use Rattle.ascii_grid.specs.Reading.{flat, IsHeaderOf, HasReadHeights, HasAdded, IsHeaderFault, IsHeightFault, IsWordFault, IsEndFault};

use crate::cell::{Meaning, cell};
use crate::fault::{GridFault, Key};
use crate::header::Header;
use crate::key::{begins_with_letter, names_centre};
use decimals::scaled_value;
use std::alloc::Global;
use terrain::{Cell, Grid, MOST_WORD_BYTES, Word};

/// The kind of word that the builder expects next.
#[derive(Clone, Copy)]
pub(crate) enum Expected {
    /// A key, or the first height.
    AtKey,
    /// The value of the slot `key`; `centre` if the key word names a cell's centre.
    AtValue { key: Key, centre: bool },
    /// A height.
    AtHeights,
}

/// The header and the cells that the words so far have given.
#[derive(Drop)]
pub(crate) struct GridBuilder {
    alloc: Global,
    pub(crate) scale: u8,
    header: Header,
    pub(crate) expected: Expected,
    // Set when the heights begin. `nodata_value` is the scaled value of `nodata`.
    wanted: u32,
    nodata: Word,
    pub(crate) nodata_value: Option<i64>,
    cells: Vec<Cell>,
}

impl GridBuilder {
    pub(crate) fn new(alloc: Global, scale: u8) -> Self
        ensures scale { result.scale ≡ scale }
        ensures none { HasAdded result [] }
    {
        GridBuilder {
            alloc,
            scale,
            header: Header::new(),
            expected: Expected::AtKey,
            wanted: 0,
            nodata: Word::from_bytes(b""),
            nodata_value: None,
            cells: Vec::new(alloc),
        }
    }

    /// Reads `word` as the key, value or height that comes next, or returns a fault.
    pub(crate) fn add_word(&mut self, word: &[u8]) -> Result<(), GridFault>
        requires { length word.now ≤ MOST_WORD_BYTES }
        ensures scale { self.new.scale ≡ self.old.scale }
        ensures word { (ws : List Word) → HasAdded self.old ws → MatchResult result
            (λ _. HasAdded self.new (ws ++ word.now ∷ []))
            (IsWordFault self.old.scale (ws ++ word.now ∷ [])) }
    {
        match self.expected {
            Expected::AtHeights => self.add_height(word),
            Expected::AtValue { key, centre } => {
                self.header.put(key, centre, word)?;
                self.expected = Expected::AtKey;
                Ok(())
            }
            Expected::AtKey => {
                if begins_with_letter(word) {
                    let key = self.header.slot_for(word)?;
                    let centre = names_centre(word);
                    self.expected = Expected::AtValue { key, centre };
                    return Ok(());
                }
                self.begin_heights()?;
                self.add_height(word)
            }
        }
    }

    /// Returns the grid that the words spell, or the fault at the text's end, or `Memory`.
    pub(crate) fn finish(mut self) -> Result<Grid, GridFault>
        requires judged { (ws : List Word) × HasAdded self ws }
        requires scale { self.scale ≤ 6 }
        ensures { (ws : List Word) → HasAdded self ws → MatchResult result
            (λ g. (end_fault ws ≡ None) × (g ≡ grid_of self.scale ws)) (IsEndFault ws) }
    {
        match self.expected {
            Expected::AtValue { key, .. } => Err(GridFault::NoValue(key)),
            Expected::AtKey => {
                // The text's end ends the header: `MissingKey` and `Memory` come before `TooFew`.
                self.begin_heights()?;
                Err(GridFault::TooFew(0))
            }
            Expected::AtHeights => {
                let place = self.cells.len();
                if place < self.wanted as usize {
                    return Err(GridFault::TooFew(place as u32));
                }
                Ok(
                    self.header
                        .into_grid(self.alloc, self.scale, self.nodata, self.cells),
                )
            }
        }
    }

    /// Ends the header and allocates the cells, or returns `MissingKey` or `Memory`.
    fn begin_heights(&mut self) -> Result<(), GridFault>
        ensures kept { self.new ≡ record self.old {
          expected = self.new.expected;
          wanted = self.new.wanted;
          nodata = self.new.nodata;
          nodata_value =
              self.new.nodata_value;
          cells = self.new.cells;
        } }
        ensures expected { IfOk result (λ _. self.new.expected ≡ Expected.AtHeights) }
        ensures none { (ps : List (Word × Word)) → IsHeaderOf self.old.header ps →
            MatchResult result
            (λ _. HasReadHeights self.new ps [])
            (IsHeaderFault ps) }
    {
        self.wanted = self.header.cells_wanted()?;
        self.nodata = self.header.nodata_word();
        self.nodata_value = scaled_value(self.scale, self.nodata.as_bytes());
        let Ok(cells) = Vec::with_capacity(self.alloc, self.wanted as usize) else {
            return Err(GridFault::Memory);
        };
        self.cells = cells;
        self.expected = Expected::AtHeights;
        Ok(())
    }

    #[inline(never)]
    fn add_height(&mut self, word: &[u8]) -> Result<(), GridFault>
        requires { length word.now ≤ MOST_WORD_BYTES }
        ensures kept { self.new ≡ record self.old { cells = self.new.cells } }
        ensures word { (ps : List (Word × Word)) (hs : List Word) → HasReadHeights self.old ps hs →
            MatchResult result (λ _. HasReadHeights self.new ps (hs ++ word.now ∷ []))
            (IsHeightFault self.old.scale ps hs word.now) }
    {
        let meaning = cell(self.scale, self.nodata.as_bytes(), self.nodata_value, word);
        self.add_cell(meaning)
    }

    /// Adds the cell that a word means, or returns the word's fault and changes nothing.
    #[inline(always)]
    pub(crate) fn add_cell(&mut self, meaning: Meaning) -> Result<(), GridFault>
        ensures kept { self.new ≡ record self.old { cells = self.new.cells } }
        ensures refused { IfErr result (λ _. self.new ≡ self.old) }
        ensures word { (ps : List (Word × Word)) (hs : List Word) (word : Word) →
            HasReadHeights self.old ps hs →
            length word ≤ MOST_WORD_BYTES →
            meaning ≡ meaning_of self.old.scale self.old.nodata word →
            MatchResult result (λ _. HasReadHeights self.new ps (hs ++ word ∷ []))
            (IsHeightFault self.old.scale ps hs word) }
    {
        let place = self.cells.len();
        if place >= self.wanted as usize {
            return Err(GridFault::TooMany);
        }
        let Meaning::Cell(cell) = meaning else {
            return Err(GridFault::BadHeight(place as u32));
        };
        // Never true, since the capacity is at least `wanted`; that is not proved here.
        if place >= self.cells.capacity() {
            return Err(GridFault::Memory);
        }
        self.cells.push_reserved(cell);
        Ok(())
    }
}
