//! Finds the header slot that a key word fills. Tests whether a key names a cell's centre, and
//! whether a word is read as a key.
ghost use Rattle.std.specs.Prelude.{◌≡◌, map};
ghost use Rattle.std.specs.Char.{to_ascii_lowercase};
ghost use Rattle.ascii_grid.specs.Header.{is_key, slot_of, begins_with_letter};
ghost use Rattle.ascii_grid.specs.Slots.{is_centre};

use crate::fault::Key;

/// Returns the slot that a key fills, in any letter case; `None` for another word.
pub(crate) fn slot_of(word: &[u8]) -> Option<Key>
    ensures { result ≡ slot_of word.now }
{
    if is_key(b"ncols", word) {
        return Some(Key::Ncols);
    }
    if is_key(b"nrows", word) {
        return Some(Key::Nrows);
    }
    if is_key(b"xllcorner", word) || is_key(b"xllcenter", word) {
        return Some(Key::Xll);
    }
    if is_key(b"yllcorner", word) || is_key(b"yllcenter", word) {
        return Some(Key::Yll);
    }
    if is_key(b"cellsize", word) {
        return Some(Key::Cellsize);
    }
    if is_key(b"nodata_value", word) {
        return Some(Key::Nodata);
    }
    None
}

/// Whether a key word names the centre of the lower left cell, not its corner.
pub(crate) fn names_centre(word: &[u8]) -> bool
    ensures { result ≡ is_centre word.now }
{
    is_key(b"xllcenter", word) || is_key(b"yllcenter", word)
}

/// Whether a word begins with an ASCII letter, as a key does and a height does not.
pub(crate) fn begins_with_letter(word: &[u8]) -> bool
    ensures { result ≡ begins_with_letter word.now }
{
    match word {
        [first, ..] => first.is_ascii_alphabetic(),
        [] => false,
    }
}

fn is_key(key: &[u8], word: &[u8]) -> bool
    requires { map to_ascii_lowercase key.now ≡ key.now }
    ensures { result ≡ is_key key.now word.now }
{
    key.eq_ignore_ascii_case(word)
}
