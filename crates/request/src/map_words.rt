//! [`MapsFault`]: why the words of `relief maps` request nothing. [`DrainageMap`] from its word.
ghost use Rattle.std.specs.Prelude.{◌≡◌, map};
ghost use Rattle.request.specs.MapWords.{drainage_map_of, has_repeat, is_among, list_fault};

use crate::map::DrainageMap;
use crate::place_words::FromWord;

/// Why the map words of `relief maps` request nothing.
#[derive(Clone, Copy, Debug, PartialEq, Eq)]
pub enum MapsFault {
    /// The number of the first word that names no drainage map, from 0 among the map words.
    UnknownMap(usize),
    /// A map is named twice.
    RepeatedMap,
    /// Catchments are requested without a gauge.
    NoGauge,
    /// A gauge is given, and no catchments are requested.
    NoCatchments,
}

impl FromWord for DrainageMap {
    ghost use Rattle.request.specs.MapWords.{drainage_map_of};

    ghost spelled = { drainage_map_of };

    fn from_word(word: &str) -> Option<Self> {
        drainage_map(word)
    }
}

/// Returns the drainage map that a word names, or `None`.
fn drainage_map(word: &str) -> Option<DrainageMap>
    ensures { result ≡ drainage_map_of word.now }
{
    match word {
        "fill" => Some(DrainageMap::Fill),
        "flow" => Some(DrainageMap::Flow),
        "accumulate" => Some(DrainageMap::Accumulate),
        "basins" => Some(DrainageMap::Basins),
        "catchments" => Some(DrainageMap::Catchments),
        _ => None,
    }
}

fn is_among(word: &str, words: &[&str]) -> bool
    ensures { result ≡ is_among word.now (map (λ w. w.now) words.now) }
{
    words.contains(&word)
}

fn has_repeat(words: &[&str]) -> bool
    ensures { result ≡ has_repeat (map (λ w. w.now) words.now) }
{
    match words {
        [] => false,
        [first, rest @ ..] => is_among(first, rest) || has_repeat(rest),
    }
}

/// Returns the fault of map words that each name a map, beside these gauge words.
pub(crate) fn list_fault(words: &[&str], gauges: &[&str]) -> Option<MapsFault>
    ensures { result ≡ list_fault (map (λ w. w.now) words.now) (map (λ w. w.now) gauges.now) }
{
    if has_repeat(words) {
        return Some(MapsFault::RepeatedMap);
    }
    let has_gauges = !gauges.is_empty();
    if is_among("catchments", words) {
        if has_gauges {
            None
        } else {
            Some(MapsFault::NoGauge)
        }
    } else if has_gauges {
        Some(MapsFault::NoCatchments)
    } else {
        None
    }
}
