//! Splits a text into words, and passes each word, or the cell that it means, to `GridBuilder`.
//!
//! `GridBuilder` checks a word once a separator or the text's end follows it. Therefore the result
//! does not depend on where the text is cut into pieces.
ghost use Rattle.std.specs.Prelude.{◌≡◌, ℕ, ◌≤◌, ◌++◌, [], ◌∷◌, ◌<◌, List, length, take, IfOk, IsTrue, ◌↔◌, MatchResult};
ghost use Rattle.terrain.specs.Words.{is_separator, words, ended_words};
ghost use Rattle.ascii_grid.specs.Reading.{HasAdded, HasTaken, HasWords, IsBetweenHeights, IsScaled, IsWordFault};

use crate::builder::{Expected, GridBuilder};
use crate::cell::value_cell;
use crate::fault::GridFault;
use crate::page::Buffer;
use decimals::plain_number;
use std::alloc::Global;
use terrain::{HIGHEST, LOWEST, MOST_WORD_BYTES};

/// The most bytes kept of an unfinished word: enough to show that it is too long.
const KEPT_BYTES: usize = MOST_WORD_BYTES + 1;

/// The header and cells of the ended words, and the front of the unfinished word.
#[derive(Drop)]
pub(crate) struct Tokenizer {
    pub(crate) builder: GridBuilder,
    word: Buffer<KEPT_BYTES>,
}

impl Tokenizer {
    pub(crate) fn new(alloc: Global, scale: u8) -> Self
        ensures scale { result.builder.scale ≡ scale }
        ensures none { HasWords result [] }
    {
        Tokenizer {
            builder: GridBuilder::new(alloc, scale),
            word: Buffer::new(),
        }
    }

    /// Splits the next bytes, and judges each word that a separator in them ends.
    pub(crate) fn take_all(&mut self, bytes: &[u8]) -> Result<(), GridFault>
        requires { self.old.builder.scale ≤ 6 }
        ensures scale { self.new.builder.scale ≡ self.old.builder.scale }
        ensures words { (text : List ℕ) → HasWords self.old text → MatchResult result
            (λ _. HasWords self.new (text ++ bytes.now))
            (IsWordFault self.old.builder.scale (ended_words (text ++ bytes.now))) }
    {
        let mut at = self.take_heights(bytes, 0);
        while at < bytes.len() {
            self.take(bytes[at])?;
            at = self.take_heights(bytes, at + 1);
        }
        Ok(())
    }

    /// Fast path: reads heights that [`plain_number`] parses, each with the separator after it.
    ///
    /// Begins at the place `from`, and stops at anything else, also at a height with a fault.
    /// Returns where. It is `from` within a word, and until the first height has ended.
    fn take_heights(&mut self, bytes: &[u8], from: usize) -> usize
        requires scale { self.old.builder.scale ≤ 6 }
        requires within { from ≤ length bytes.now }
        ensures { HasTaken self.old self.new bytes.now from result }
    {
        if !self.is_between_heights() {
            return from;
        }
        // Two copies of the loop: at scale 0 a height is not multiplied.
        match self.builder.scale {
            0 => self.take_scaled(0, bytes, from),
            scale => self.take_scaled(scale, bytes, from),
        }
    }

    /// Loop of [`take_heights`](Self::take_heights), for this scale.
    #[inline(always)]
    fn take_scaled(&mut self, scale: u8, bytes: &[u8], from: usize) -> usize
        requires scale { IsScaled scale self.old }
        requires between { IsBetweenHeights self.old }
        requires within { from ≤ length bytes.now }
        ensures { HasTaken self.old self.new bytes.now from result }
    {
        let mut at = from;
        while at < bytes.len() {
            let Some((len, value)) = plain_number(scale, &bytes[at..]) else {
                return at;
            };
            let end = at + len;
            if end == bytes.len() || !is_separator(bytes[end]) {
                return at;
            }
            // Tested first, so that `value_cell` needs no branch.
            if value < LOWEST || HIGHEST < value {
                return at;
            }
            let meaning = value_cell(value, self.builder.nodata_value);
            let Ok(()) = self.builder.add_cell(meaning) else {
                return at;
            };
            at = end + 1;
        }
        at
    }

    #[inline(never)]
    fn take(&mut self, byte: u8) -> Result<(), GridFault>
        ensures scale { self.new.builder.scale ≡ self.old.builder.scale }
        ensures words { (text : List ℕ) → HasWords self.old text → MatchResult result
            (λ _. HasWords self.new (text ++ byte ∷ []))
            (IsWordFault self.old.builder.scale (ended_words (text ++ byte ∷ []))) }
    {
        if is_separator(byte) {
            return self.end_word();
        }
        if self.word.has_room(1) {
            self.word.push_byte(byte);
        }
        Ok(())
    }

    /// Whether a height has ended, and no byte of the next word has been read.
    fn is_between_heights(&self) -> bool
        ensures { IsTrue result ↔ IsBetweenHeights self.now }
    {
        matches!(self.builder.expected, Expected::AtHeights) && self.word.as_bytes().is_empty()
    }

    /// Judges the unfinished word, if there is one.
    pub(crate) fn end_word(&mut self) -> Result<(), GridFault>
        ensures scale { self.new.builder.scale ≡ self.old.builder.scale }
        ensures words { (text : List ℕ) → HasWords self.old text → MatchResult result
            (λ _. (self.new.word ≡ []) × HasAdded self.new.builder (words text))
            (IsWordFault self.old.builder.scale (words text)) }
    {
        let word = self.word.as_bytes();
        if word.is_empty() {
            return Ok(());
        }
        if word.len() > MOST_WORD_BYTES {
            return Err(GridFault::TooLong);
        }
        self.builder.add_word(word)?;
        self.word.clear();
        Ok(())
    }
}

/// Whether a byte is a separator: space, tab, line feed or carriage return.
#[inline(always)]
fn is_separator(byte: u8) -> bool
    ensures { result ≡ is_separator byte }
{
    byte == b' ' || byte == b'\t' || byte == b'\n' || byte == b'\r'
}
