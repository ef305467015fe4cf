//! A header word of at most 64 bytes, stored without an allocation.
ghost use Rattle.std.specs.Prelude.{◌≡◌, ◌≤◌, ℕ, List, length, take};
ghost use Rattle.terrain.specs.declared.word.TheConstants.{MOST_WORD_BYTES};

use std::marker::Model;

/// The greatest length of a word, in bytes.
pub const MOST_WORD_BYTES: usize = 64;

/// A word of at most [`MOST_WORD_BYTES`] bytes. Contracts see its bytes.
#[derive(Drop)]
pub struct Word {
    bytes: [u8; MOST_WORD_BYTES],
    len: usize,
}

impl Model for Word {
    ghost Value = { List ℕ };

    ghost view = { λ w. take w.len w.bytes };

    ghost invariant = { λ w. w.len ≤ MOST_WORD_BYTES };
}

impl Word {
    /// Makes a word of a copy of `bytes`.
    pub fn from_bytes(bytes: &[u8]) -> Self
        requires { length bytes.now ≤ MOST_WORD_BYTES }
        ensures { result ≡ bytes.now }
    {
        let mut kept = [0; MOST_WORD_BYTES];
        let len = bytes.len();
        kept[..len].copy_from_slice(bytes);
        Word { bytes: kept, len }
    }

    /// The word's bytes.
    pub fn as_bytes(&self) -> &[u8]
        ensures value { result.now ≡ self.now }
        ensures short { length result.now ≤ MOST_WORD_BYTES }
    {
        &self.bytes[..self.len]
    }

    /// Returns a copy of the word. Allocates nothing.
    pub fn copy(&self) -> Self
        ensures { result ≡ self.now }
    {
        Word {
            bytes: self.bytes,
            len: self.len,
        }
    }
}
