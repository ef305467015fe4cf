//! [`parse`] returns the [`Options`] that a command line requests, or a fault.
ghost use Rattle.std.specs.Prelude.{◌≡◌, ℕ, [], ◌++◌, map, codes, Some, None, IfOk, IfErr, IfSome, IfNone};
ghost use Rattle.clap.specs.Words.{found_of, rows_of};
ghost use Rattle.request.specs.CommandLine.{HasNumber, HasOptions, IsFirstBad, Names, Spell, RequestFor, is_flag_given, is_of_sight, sink_words, words_given, words_of};
ghost use Rattle.request.specs.MapWords.{drainage_map_of, maps_fault};
ghost use Rattle.request.specs.PlaceWords.{observer_of, place_of_word};
ghost use Rattle.request.specs.Request.{AreLimits};
ghost use Rattle.request.specs.WordsFaults.{IsBadWord, IsFaultWith, IsFaultOf, IsMapFault, IsNoMemory};
ghost use Rattle.request.specs.declared.words.BadWord.TheVariants.{NoMemory};
ghost use Rattle.request.specs.declared.words.WordsFault.TheVariants.{Clap};

use crate::map::{DrainageMap, Map};
use crate::map_words::{MapsFault, list_fault};
use crate::options::Options;
use crate::place_words::FromWord;
use crate::program::program;
use clap::{ArgMatches, Error};
use std::alloc::{AllocError, Global};
use terrain::{Observer, Place};

static NAME_ALONE: [&str; 1] = ["relief"];

/// Why a command line gives no options.
#[derive(Drop)]
pub enum WordsFault {
    /// `clap` refuses the words, they ask for help or the version, or memory ran out.
    Clap(Error),
    /// The number of the first word that is no observer, from 0 among observer words.
    BadObserver(usize),
    /// The number of the first word that is no gauge, from 0 among gauge words.
    BadGauge(usize),
    /// The number of the first word that is no sink, from 0 among sink words.
    BadSink(usize),
    /// The map words of `relief maps` request nothing.
    BadMaps(MapsFault),
    /// The words name no map, or a number is missing or outside its limits. `clap` refuses such
    /// words first.
    NoMap,
}

impl From<Error> for WordsFault {
    ghost from_gives = { λ error fault. fault ≡ Clap error };

    fn from(error: Error) -> Self {
        WordsFault::Clap(error)
    }
}

impl From<AllocError> for WordsFault {
    ghost from_gives = { λ _ fault. IsNoMemory fault };

    fn from(error: AllocError) -> Self {
        WordsFault::Clap(Error::from(error))
    }
}

/// Returns the 32-bit number that the value of option `id` spells, or `None`.
fn number_given(found: &ArgMatches<'_>, id: &str) -> Option<u32>
    ensures some { IfSome result (HasNumber (rows_of (found_of found.now)) id.now) }
    ensures none { IfNone result ((n : ℕ) → HasNumber (rows_of (found_of found.now)) id.now n → ⊥) }
{
    found.get_one::<u32>(id)
}

/// Why words were not parsed into a list of observers, gauges or sinks.
#[derive(Drop)]
pub(crate) enum BadWord {
    /// The number of the first bad word, from 0 among the words.
    At(usize),
    NoMemory(AllocError),
}

impl From<AllocError> for BadWord {
    ghost from_gives = { λ error bad. bad ≡ NoMemory error };

    fn from(error: AllocError) -> Self {
        BadWord::NoMemory(error)
    }
}

/// Returns the values of the words in order.
/// `Err` has the first bad word's number, or refused memory.
fn read_words<T: FromWord + Drop>(alloc: Global, words: &[&str]) -> Result<Vec<T>, BadWord>
    ensures some { IfOk result (λ v. Spell T.spelled (map (λ w. w.now) words.now) v.items) }
    ensures bad { IfErr result (IsBadWord (IsFirstBad T.spelled (map (λ w. w.now) words.now))) }
{
    let mut items = Vec::new(alloc);
    for place in 0..words.len() {
        let Some(item) = T::from_word(words[place]) else {
            return Err(BadWord::At(place));
        };
        items.push(item).map_err(AllocError::from)?;
    }
    Ok(items)
}

fn observers_of(alloc: Global, words: &[&str]) -> Result<Vec<Observer>, WordsFault>
    ensures some { IfOk result (λ v. Spell observer_of (map (λ w. w.now) words.now) v.items) }
    ensures none { IfErr result
        (IsFaultWith (IsFirstBad observer_of (map (λ w. w.now) words.now)) (λ _. ⊥) (λ _. ⊥)
        (λ _. ⊥) ⊥) }
{
    match read_words(alloc, words) {
        Ok(observers) => Ok(observers),
        Err(BadWord::At(place)) => Err(WordsFault::BadObserver(place)),
        Err(BadWord::NoMemory(error)) => Err(WordsFault::from(error)),
    }
}

fn gauges_of(alloc: Global, words: &[&str]) -> Result<Vec<Place>, WordsFault>
    ensures some { IfOk result (λ v. Spell place_of_word (map (λ w. w.now) words.now) v.items) }
    ensures none { IfErr result
        (IsFaultWith (λ _. ⊥) (IsFirstBad place_of_word (map (λ w. w.now) words.now)) (λ _. ⊥)
        (λ _. ⊥) ⊥) }
{
    match read_words(alloc, words) {
        Ok(gauges) => Ok(gauges),
        Err(BadWord::At(place)) => Err(WordsFault::BadGauge(place)),
        Err(BadWord::NoMemory(error)) => Err(WordsFault::from(error)),
    }
}

fn sinks_of(alloc: Global, words: &[&str]) -> Result<Vec<Place>, WordsFault>
    ensures some { IfOk result (λ v. Spell place_of_word (map (λ w. w.now) words.now) v.items) }
    ensures none { IfErr result
        (IsFaultWith (λ _. ⊥) (λ _. ⊥) (IsFirstBad place_of_word (map (λ w. w.now) words.now))
        (λ _. ⊥) ⊥) }
{
    match read_words(alloc, words) {
        Ok(sinks) => Ok(sinks),
        Err(BadWord::At(place)) => Err(WordsFault::BadSink(place)),
        Err(BadWord::NoMemory(error)) => Err(WordsFault::from(error)),
    }
}

/// Returns the maps that map words name. `Err` has the fault of these words beside the gauge words.
fn drainage_maps_of(
    alloc: Global,
    words: &[&str],
    gauges: &[&str],
) -> Result<Vec<DrainageMap>, WordsFault>
    ensures some { IfOk result
        (λ v. Spell drainage_map_of (map (λ w. w.now) words.now) v.items) }
    ensures sound { IfOk result
        (λ _. maps_fault (map (λ w. w.now) words.now) (map (λ w. w.now) gauges.now) ≡ None) }
    ensures none { IfErr result (IsFaultWith (λ _. ⊥) (λ _. ⊥) (λ _. ⊥)
        (λ f. maps_fault (map (λ w. w.now) words.now) (map (λ w. w.now) gauges.now) ≡ Some f) ⊥) }
{
    match read_words(alloc, words) {
        Ok(maps) => match list_fault(words, gauges) {
            Some(fault) => Err(WordsFault::BadMaps(fault)),
            None => Ok(maps),
        },
        Err(BadWord::At(place)) => Err(WordsFault::BadMaps(MapsFault::UnknownMap(place))),
        Err(BadWord::NoMemory(error)) => Err(WordsFault::from(error)),
    }
}

fn view_of(alloc: Global, found: &ArgMatches<'_>) -> Result<Map, WordsFault>
    ensures some { IfOk result (Names (codes "view") (rows_of (found_of found.now))) }
    ensures none { IfErr result (IsMapFault (codes "view") (rows_of (found_of found.now))) }
{
    let words: &[&str] = found.get_strs("observers").unwrap_or(&[]);
    let observers = observers_of(alloc, words)?;
    let Some(target) = number_given(found, "target") else {
        return Err(WordsFault::NoMap);
    };
    let Some(radius) = number_given(found, "radius") else {
        return Err(WordsFault::NoMap);
    };
    Ok(Map::View {
        observers,
        target,
        radius,
    })
}

fn rise_of(alloc: Global, found: &ArgMatches<'_>) -> Result<Map, WordsFault>
    ensures some { IfOk result (Names (codes "rise") (rows_of (found_of found.now))) }
    ensures none { IfErr result (IsMapFault (codes "rise") (rows_of (found_of found.now))) }
{
    let words: &[&str] = found.get_strs("observers").unwrap_or(&[]);
    let observers = observers_of(alloc, words)?;
    let Some(radius) = number_given(found, "radius") else {
        return Err(WordsFault::NoMap);
    };
    Ok(Map::Rise { observers, radius })
}

fn catchments_of(alloc: Global, found: &ArgMatches<'_>) -> Result<Map, WordsFault>
    ensures some { IfOk result (Names (codes "catchments") (rows_of (found_of found.now))) }
    ensures none { IfErr result (IsMapFault (codes "catchments") (rows_of (found_of found.now))) }
{
    let words: &[&str] = found.get_strs("gauges").unwrap_or(&[]);
    let gauges = gauges_of(alloc, words)?;
    Ok(Map::Catchments { gauges })
}

fn several_of(alloc: Global, found: &ArgMatches<'_>) -> Result<Map, WordsFault>
    ensures some { IfOk result (Names (codes "maps") (rows_of (found_of found.now))) }
    ensures none { IfErr result (IsMapFault (codes "maps") (rows_of (found_of found.now))) }
{
    let gauge_words: &[&str] = found.get_strs("gauges").unwrap_or(&[]);
    let gauges = gauges_of(alloc, gauge_words)?;
    let map_words: &[&str] = found.get_strs("maps").unwrap_or(&[]);
    let maps = drainage_maps_of(alloc, map_words, gauge_words)?;
    Ok(Map::Several { maps, gauges })
}

/// Returns the map that the subcommand of this name requests.
fn map_of(alloc: Global, name: &str, found: &ArgMatches<'_>) -> Result<Map, WordsFault>
    ensures some { IfOk result (Names name.now (rows_of (found_of found.now))) }
    ensures none { IfErr result (IsMapFault name.now (rows_of (found_of found.now))) }
{
    match name {
        "fill" => Ok(Map::Fill),
        "flow" => Ok(Map::Flow),
        "accumulate" => Ok(Map::Accumulate),
        "basins" => Ok(Map::Basins),
        "catchments" => catchments_of(alloc, found),
        "view" => view_of(alloc, found),
        "rise" => rise_of(alloc, found),
        "maps" => several_of(alloc, found),
        _ => Err(WordsFault::NoMap),
    }
}

/// Whether subcommand `name` is `view` or `rise`, which take no sinks.
fn is_of_sight(name: &str) -> bool
    ensures { result ≡ is_of_sight name.now }
{
    name == "view" || name == "rise"
}

/// Returns the sink words in order, then the values of `--sink` in order.
fn sink_words_given<'a>(alloc: Global, found: &ArgMatches<'a>) -> Result<Vec<&'a str>, AllocError>
    ensures { IfOk result (λ v. map (λ w. w.now) v.items
        ≡ words_of (codes "sinks") (rows_of (found_of found.now))
        ++ words_of (codes "sink") (rows_of (found_of found.now))) }
{
    let mut words = Vec::new(alloc);
    words.extend_from_slice(found.get_strs("sinks").unwrap_or(&[]))?;
    words.extend_from_slice(found.get_strs("sink").unwrap_or(&[]))?;
    Ok(words)
}

/// Returns the sinks given with subcommand `name`; with `view` and `rise`, none.
fn sinks_given(alloc: Global, name: &str, found: &ArgMatches<'_>) -> Result<Vec<Place>, WordsFault>
    ensures some { IfOk result
        (λ v. Spell place_of_word (sink_words name.now (rows_of (found_of found.now))) v.items) }
    ensures none { IfErr result (IsFaultWith (λ _. ⊥) (λ _. ⊥)
        (IsFirstBad place_of_word (sink_words name.now (rows_of (found_of found.now)))) (λ _. ⊥)
        ⊥) }
{
    if is_of_sight(name) {
        return Ok(Vec::new(alloc));
    }
    let words = sink_words_given(alloc, found)?;
    sinks_of(alloc, &words)
}

fn progress_given(found: &ArgMatches<'_>) -> bool
    ensures { result ≡ is_flag_given (codes "progress") (rows_of (found_of found.now)) }
{
    match found.get_str("progress") {
        Some(text) => text == "true",
        None => false,
    }
}

/// Adds the given options to a map. `None` if an option has no number within its limits.
fn with_options(map: Map, found: &ArgMatches<'_>) -> Option<Options>
    ensures some { IfSome result (λ o. (o.map ≡ map) × (o.sinks ≡ [])
        × HasOptions (rows_of (found_of found.now)) o.tile o.workers o.scale) }
    ensures progress { IfSome result
        (λ o. o.progress ≡ is_flag_given (codes "progress") (rows_of (found_of found.now))) }
    ensures limits { IfSome result (λ o. AreLimits o.tile o.workers o.scale) }
    ensures none { IfNone result ((tile workers scale : ℕ) → AreLimits tile workers scale →
        HasOptions (rows_of (found_of found.now)) tile workers scale → ⊥) }
{
    let tile = number_given(found, "tile")?;
    let workers = number_given(found, "workers")?;
    let scale = number_given(found, "scale")?;
    let Ok(scale) = u8::try_from(scale) else {
        return None;
    };
    let options = Options::new(map, tile, workers, scale)?;
    Some(options.with_progress(progress_given(found)))
}

fn requested_options<'a>(alloc: Global, words: &'a [&'a str]) -> Result<Options, WordsFault>
    ensures request { IfOk result (RequestFor (map (λ w. w.now) words.entry.now)) }
    ensures fault { IfErr result (IsFaultOf (map (λ w. w.now) words.entry.now)) }
{
    let command = program(alloc)?;
    let matches = command.try_get_matches_from(words)?;
    let Some((name, found)) = matches.subcommand() else {
        return Err(WordsFault::NoMap);
    };
    let map = map_of(alloc, name, found)?;
    let sinks = sinks_given(alloc, name, found)?;
    let Some(options) = with_options(map, found) else {
        return Err(WordsFault::NoMap);
    };
    // `Err` has the options of a viewshed or a rise, for which `sinks` is empty.
    match options.with_sinks(sinks) {
        Ok(options) => Ok(options),
        Err(options) => Ok(options),
    }
}

/// Returns the options that `words` request.
///
/// The program's name is the first word. An empty list counts as the program's name alone.
///
/// # Errors
///
/// - [`WordsFault::Clap`] if `clap` refuses the words, if they ask for help or the version, or if
///   memory is refused
/// - [`WordsFault::BadObserver`], [`WordsFault::BadGauge`] or [`WordsFault::BadSink`] with the
///   number, from 0, of the first bad word of its kind; a bad gauge is reported before a bad sink
/// - [`WordsFault::BadMaps`], reported after a bad gauge and before a bad sink
///
/// # Examples
///
/// ```ignore
/// let words = ["relief", "fill", "--tile=1"].as_slice();
/// let options = parse(rt.alloc(), words)?;
/// ```
pub fn parse(alloc: Global, words: &[&str]) -> Result<Options, WordsFault>
    ensures request { IfOk result (RequestFor (words_given (map (λ w. w.now) words.now))) }
    ensures fault { IfErr result (IsFaultOf (words_given (map (λ w. w.now) words.now))) }
{
    if words.is_empty() {
        requested_options(alloc, NAME_ALONE.as_slice())
    } else {
        requested_options(alloc, words)
    }
}
