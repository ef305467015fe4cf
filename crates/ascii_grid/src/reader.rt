//! Reads a text in pieces: [`GridReader`].
//!
//! A word's fault is returned once the word has ended, and again by later feeds and by `finish`.
//! `tokenizer` splits the text into words.
ghost use Rattle.std.specs.Prelude.{◌≡◌, ◌≤◌, ◌++◌, [], ℕ, List, None, Some, Err, IfOk, IfErr, MatchResult};
ghost use Rattle.ascii_grid.specs.GridText.{IsGridText, IsRefusal, IsRefusalSoFar};
ghost use Rattle.ascii_grid.specs.Reader.{IsReading, reading, WasFed, Feeds};

use crate::fault::GridFault;
use crate::tokenizer::Tokenizer;
use std::alloc::Global;
use std::marker::Model;
use terrain::Grid;

/// The most bytes that a text may have: 2^29.
pub const MOST_TEXT_BYTES: usize = 536_870_912;

/// Reads a grid from a text in pieces, without keeping the text.
///
/// # Examples
///
/// ```ignore
/// let mut reader = GridReader::new(rt.alloc(), 0);
/// reader.feed(b"ncols 2 nrows 1 xllcorner 0 yllcorner 0 cell")?;
/// reader.feed(b"size 1 3 4")?;
/// let grid = reader.finish()?;
/// ```
#[derive(Drop)]
pub struct GridReader {
    words: Tokenizer,
    taken: usize,
    fault: Option<GridFault>,
}

impl Model for GridReader {
    ghost use Rattle.std.specs.Prelude.{ℕ, List, ◌≤◌};
    ghost use Rattle.ascii_grid.specs.Reader.{Reader, WasFed};

    ghost Value = { Reader };

    ghost view = { λ r. record {
      scale = r.words.builder.scale;
      fault = r.fault;
      words = r.words;
      count = r.taken;
    } };

    ghost invariant = { λ r. (r.words.builder.scale ≤ 6) × ((text : List ℕ) × WasFed (record {
      scale = r.words.builder.scale;
      fault = r.fault;
      words = r.words;
      count = r.taken;
    }) text) };
}

impl GridReader {
    /// Returns a reader that was fed nothing, for heights in units of 10^-scale.
    pub fn new(alloc: Global, scale: u8) -> Self
        requires { scale ≤ 6 }
        ensures scale { result.scale ≡ scale }
        ensures fault { result.fault ≡ None }
        ensures taken { WasFed result [] }
    {
        GridReader {
            words: Tokenizer::new(alloc, scale),
            taken: 0,
            fault: None,
        }
    }

    /// Reads the next piece of the text.
    ///
    /// # Errors
    ///
    /// - The first fault of a word, once a separator has ended the word.
    /// - [`GridFault::TooLong`] past [`MOST_TEXT_BYTES`].
    /// - [`GridFault::Memory`] at the first height, if memory for the list of cells is refused.
    ///
    /// Later feeds and [`finish`](Self::finish) return the fault again.
    pub fn feed(&mut self, piece: &[u8]) -> Result<(), GridFault>
        ensures { Feeds self.old self.new piece.now result }
    {
        if let Some(fault) = self.fault {
            return Err(fault);
        }
        if let Err(fault) = read_piece(&mut self.words, &mut self.taken, piece) {
            self.fault = Some(fault);
            return Err(fault);
        }
        Ok(())
    }

    /// Returns the grid that the pieces spell together.
    ///
    /// # Errors
    ///
    /// The text's first fault, or [`GridFault::Memory`]. Returns a fault of [`feed`](Self::feed)
    /// again.
    pub fn finish(self) -> Result<Grid, GridFault>
        ensures grid { (text : List ℕ) → WasFed self text →
            IfOk result (λ g. IsGridText self.scale text g) }
        ensures fault { (text : List ℕ) → WasFed self text →
            IfErr result (λ f. IsRefusal self.scale text f) }
        ensures again { (f : GridFault) → self.fault ≡ Some f → result ≡ Err f }
    {
        let GridReader {
            mut words,
            taken: _,
            fault,
        } = self;
        if let Some(fault) = fault {
            return Err(fault);
        }
        words.end_word()?;
        words.builder.finish()
    }
}

/// Reads the next piece, and counts its bytes, as far as the longest text has room for them.
fn read_piece(words: &mut Tokenizer, taken: &mut usize, piece: &[u8]) -> Result<(), GridFault>
    requires scale { words.old.builder.scale ≤ 6 }
    requires few { taken.old ≤ MOST_TEXT_BYTES }
    ensures scale { words.new.builder.scale ≡ words.old.builder.scale }
    ensures read { (text : List ℕ) → IsReading (reading words.old taken.old) text →
        MatchResult result (λ _. IsReading (reading words.new taken.new) (text ++ piece.now))
        (IsRefusalSoFar words.old.builder.scale (text ++ piece.now)) }
{
    let within = piece.len().min(MOST_TEXT_BYTES - *taken);
    words.take_all(&piece[..within])?;
    *taken += within;
    if within < piece.len() {
        return Err(GridFault::TooLong);
    }
    Ok(())
}
