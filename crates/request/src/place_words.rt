//! [`parse_observer`] parses observer words, [`parse_sink`] gauge and sink words.
ghost use Rattle.std.specs.Prelude.{◌≡◌, ◌==◌, ◌∷◌, [], ℕ, List, Option, Some, None, IfSome, IfNone, if◌then◌else◌};
ghost use Rattle.std.specs.List.{slice_split, position};
ghost use Rattle.terrain.specs.Decimal.{number_of};
ghost use Rattle.request.specs.PlaceWords.{is_number, observer_of, place_of_word};

use decimals::whole_number;
use terrain::{Observer, Place};

/// A value that one word of the command line spells.
pub(crate) trait FromWord: Sized {
    // The value that a word spells, or `None`.
    ghost spelled: { List ℕ → Option Self };

    fn from_word(word: &str) -> Option<Self>
        ensures { result ≡ spelled word.now };
}

impl FromWord for Observer {
    ghost use Rattle.request.specs.PlaceWords.{observer_of};

    ghost spelled = { observer_of };

    fn from_word(word: &str) -> Option<Self> {
        parse_observer(word)
    }
}

impl FromWord for Place {
    ghost use Rattle.request.specs.PlaceWords.{place_of_word};

    ghost spelled = { place_of_word };

    fn from_word(word: &str) -> Option<Self> {
        parse_sink(word)
    }
}

/// The most digits of a number.
const MOST_DIGITS: usize = 10;

fn comma_at(bytes: &[u8]) -> Option<usize>
    ensures { result ≡ position (λ b. b == 44) bytes.now }
{
    bytes.iter().position(|b| *b == b',')
}

/// Returns the bytes before and after the first comma, or `None` without a comma.
fn split_at_comma(bytes: &[u8]) -> Option<(&[u8], &[u8])>
    ensures some { IfSome result (λ parts.
        slice_split (λ b. b == 44) bytes.now
        ≡ parts.0.now ∷ slice_split (λ b. b == 44) parts.1.now) }
    ensures none { IfNone result (slice_split (λ b. b == 44) bytes.now ≡ bytes.now ∷ []) }
{
    let at = comma_at(bytes)?;
    Some((&bytes[..at], &bytes[at + 1..]))
}

fn number(part: &[u8]) -> Option<u32>
    ensures { result ≡ (if is_number part.now then Some (number_of part.now) else None) }
{
    if part.len() > MOST_DIGITS {
        return None;
    }
    whole_number(part)
}

/// Parses an observer word `ROW,COL,EYE`. Returns `None` for any other word.
///
/// Each number has 1 to 10 digits and is below 2^32. The eye's height is in units of 10^-scale.
pub fn parse_observer(word: &str) -> Option<Observer>
    ensures { result ≡ observer_of word.now }
{
    let (row, rest) = split_at_comma(word.as_bytes())?;
    let (col, eye) = split_at_comma(rest)?;
    if let Some((_, _)) = split_at_comma(eye) {
        return None;
    }
    let row = number(row)?;
    let col = number(col)?;
    let eye = number(eye)?;
    Some(Observer { row, col, eye })
}

/// Parses a sink or gauge word `ROW,COL`. Returns `None` for any other word.
///
/// Each number has 1 to 10 digits and is below 2^32.
pub fn parse_sink(word: &str) -> Option<Place>
    ensures { result ≡ place_of_word word.now }
{
    let (row, col) = split_at_comma(word.as_bytes())?;
    if let Some((_, _)) = split_at_comma(col) {
        return None;
    }
    let row = number(row)?;
    let col = number(col)?;
    Some(Place { row, col })
}
