//! Tests the header and cells of a grid, replaced cells, counts and named sinks.
ghost use Rattle.std.specs.Prelude.{◌≡◌, ◌*◌, ◌∷◌, [], pos, negsuc, None, Some, Contains};

use crate::texts::{PIT, PIT_CELLS, expect_cells, grid_of};
use ascii_grid::{Anchor, Cell, Count, Grid, Height, NoMemory, Place, SinkFault, Word};
use std::alloc::Global;
use std::process::Abort;
use std::test::Fail;

/// The middle of 3 by 3 cells; [`PAST_THE_ROWS`] and [`PAST_THE_COLUMNS`] are outside them.
const MIDDLE: Place = Place { row: 1, col: 1 };

const NORTH_EAST: Place = Place { row: 0, col: 2 };

const SOUTH_WEST: Place = Place { row: 2, col: 0 };

const SOUTH_EAST: Place = Place { row: 2, col: 2 };

const PAST_THE_ROWS: Place = Place { row: 3, col: 0 };

const PAST_THE_COLUMNS: Place = Place { row: 0, col: 3 };

/// Returns 3 by 3 cells, in tenths: heights 5 around a -1, and NODATA in the south-east.
fn bowl(rt: &impl Abort, alloc: Global) -> Grid
    ensures cols { result.terrain.cols ≡ 3 }
    ensures rows { result.terrain.rows ≡ 3 }
    ensures cells { result.terrain.cells ≡ Some (pos 5) ∷ Some (pos 5) ∷ Some (pos 5) ∷ Some (pos 5)
        ∷ Some (negsuc 0) ∷ Some (pos 5) ∷ Some (pos 5) ∷ Some (pos 5) ∷ None ∷ [] }
{
    let text =
        b"ncols 3 nrows 3 xllcenter 100.5 yllcorner -2E1 cellsize 30.0 .5 .5 .5 .5 -.1 .5 .5 .5 -9999";
    let high = Some(5);
    let cells = [high, high, high, high, Some(-1), high, high, high, None];
    let grid = grid_of(rt, alloc, 1, text, &cells);
    assert!(rt; grid.cols() == 3);
    assert!(rt; grid.rows() == 3);
    grid
}

/// Returns the grid with these sinks.
fn named(rt: &impl Abort, alloc: Global, grid: &Grid, sinks: &[Place]) -> Grid
    ensures cols { result.terrain.cols ≡ grid.now.terrain.cols }
    ensures rows { result.terrain.rows ≡ grid.now.terrain.rows }
    ensures cells { result.terrain.cells ≡ grid.now.terrain.cells }
{
    grid.with_sinks(alloc, sinks).expect(rt, "sinks")
}

/// The heights of [`bowl`], but 5 in the middle.
const FILLED: [Option<Height>; 9] = [
    Some(5),
    Some(5),
    Some(5),
    Some(5),
    Some(5),
    Some(5),
    Some(5),
    Some(5),
    None,
];

/// Returns the grid with [`FILLED`] as its cells.
fn filled(rt: &impl Abort, alloc: Global, grid: &Grid) -> Grid
    requires size { grid.now.terrain.cols * grid.now.terrain.rows ≡ 9 }
    requires high { Contains grid.now.terrain.cells (Some (pos 5)) }
{
    let high = Cell::of(5);
    let gap = Cell::no_data();
    let cells = [high, high, high, high, high, high, high, high, gap];
    grid.with_cells(alloc, &cells).expect(rt, "memory")
}

/// Returns whether a place of the grid is an end cell.
fn is_edge(rt: &impl Abort, grid: &Grid, place: Place) -> bool {
    assert!(rt; place.row < grid.rows());
    assert!(rt; place.col < grid.cols());
    grid.is_edge(place)
}

fn expect_sinks(rt: &impl Abort, grid: &Grid, sinks: &[Place]) {
    assert_eq!(rt; grid.sinks(), sinks);
}

/// Asserts that the grid refuses these sinks with this fault.
fn refuses(rt: &impl Abort, alloc: Global, grid: &Grid, sinks: &[Place], fault: SinkFault) {
    assert_eq!(rt; grid.with_sinks(alloc, sinks).err(), Some(fault));
}

fn expect_word(rt: &impl Abort, word: &Word, text: &[u8]) {
    assert_eq!(rt; word.as_bytes(), text);
}

fn expect_anchor(rt: &impl Abort, anchor: &Anchor, centre: bool, text: &[u8]) {
    assert_eq!(rt; anchor.centre, centre);
    expect_word(rt, &anchor.word, text);
}

/// Asserts the words of the grid's header. `centre` is whether the first names a cell's centre; the
/// second names a corner.
fn expect_frame(rt: &impl Abort, grid: &Grid, centre: bool, words: &[&[u8]; 4]) {
    let frame = grid.frame();
    expect_anchor(rt, frame.xll(), centre, words[0]);
    expect_anchor(rt, frame.yll(), false, words[1]);
    expect_word(rt, frame.cellsize(), words[2]);
    expect_word(rt, frame.nodata(), words[3]);
}

/// The header words of [`bowl`].
const BOWL_WORDS: [&[u8]; 4] = [b"100.5", b"-2E1", b"30.0", b"-9999"];

#[test]
fn parts_of_a_grid(rt: HostRuntime) {
    let grid = bowl(&rt, rt.alloc());
    assert_eq!(rt; grid.scale(), 1);
    expect_frame(&rt, &grid, true, &BOWL_WORDS);
}

#[test]
fn cells_by_place(rt: HostRuntime) {
    let grid = bowl(&rt, rt.alloc());
    let middle = grid.at(MIDDLE);
    let corners = (grid.at(NORTH_EAST), grid.at(SOUTH_EAST));
    assert_eq!(rt; (middle, corners), (Some(-1), (Some(5), None)));
    for (place, edge) in [
        (Place { row: 0, col: 1 }, true),
        (MIDDLE, true),
        (SOUTH_EAST, false),
    ] {
        assert_eq!(rt; is_edge(&rt, &grid, place), edge, "{place:?}");
    }
}

#[test]
fn other_cells(rt: HostRuntime) {
    let grid = bowl(&rt, rt.alloc());
    let other = filled(&rt, rt.alloc(), &grid);
    expect_cells(&rt, other.cells(), &FILLED);
    assert_eq!(rt; other.cols(), 3);
    assert_eq!(rt; other.scale(), 1);
    expect_frame(&rt, &other, true, &BOWL_WORDS);
    assert_eq!(rt; grid.at(MIDDLE), Some(-1));
}

/// A grid with other cells, here all 9, keeps its size and header.
#[test]
fn nine_nines(rt: HostRuntime) -> Result<(), NoMemory> {
    let pit = grid_of(&rt, rt.alloc(), 0, PIT, &PIT_CELLS);
    assert!(rt; pit.cols() == 3);
    assert!(rt; pit.rows() == 3);
    let nines = pit.with_cells(rt.alloc(), &[Cell::of(9); 9])?;
    expect_cells(&rt, nines.cells(), &[Some(9); 9]);
    assert_eq!(rt; (nines.cols(), nines.rows(), nines.scale()), (3, 3, 0));
    expect_frame(&rt, &nines, false, &[b"0", b"0", b"1", b"-9999"]);
    expect_sinks(&rt, &nines, &[]);
    Ok(())
}

/// 16,777,216 is the number of cells of the largest grid: no map has a greater count.
#[test]
fn counts(rt: HostRuntime) {
    for number in [0, 1, 16_777_216] {
        assert_eq!(rt; Count::of(number).value(), Some(number));
    }
    assert!(rt; Count::none().value().is_none());
}

#[test]
fn sink_in_a_pit(rt: HostRuntime) {
    let pit = grid_of(&rt, rt.alloc(), 0, PIT, &PIT_CELLS);
    expect_sinks(&rt, &pit, &[]);
    assert!(rt; !is_edge(&rt, &pit, MIDDLE));
    let named = named(&rt, rt.alloc(), &pit, &[MIDDLE]);
    expect_sinks(&rt, &named, &[MIDDLE]);
    assert!(rt; is_edge(&rt, &named, MIDDLE));
    expect_cells(&rt, named.cells(), &PIT_CELLS);
}

#[test]
fn sinks_count_once_and_are_replaced(rt: HostRuntime) {
    let bowl = bowl(&rt, rt.alloc());
    let repeated = [MIDDLE, SOUTH_WEST, MIDDLE, NORTH_EAST, SOUTH_WEST, MIDDLE];
    let first = named(&rt, rt.alloc(), &bowl, &repeated);
    expect_sinks(&rt, &first, &[MIDDLE, SOUTH_WEST, NORTH_EAST]);
    let second = named(&rt, rt.alloc(), &first, &[NORTH_EAST]);
    expect_sinks(&rt, &second, &[NORTH_EAST]);
    let none = named(&rt, rt.alloc(), &second, &[]);
    expect_sinks(&rt, &none, &[]);
}

#[test]
fn sinks_stay_with_other_cells(rt: HostRuntime) {
    let grid = bowl(&rt, rt.alloc());
    let sunk = named(&rt, rt.alloc(), &grid, &[NORTH_EAST, MIDDLE]);
    let other = filled(&rt, rt.alloc(), &sunk);
    expect_sinks(&rt, &other, &[NORTH_EAST, MIDDLE]);
    expect_cells(&rt, other.cells(), &FILLED);
}

#[test]
fn bad_sinks(rt: HostRuntime) {
    let alloc = rt.alloc();
    let grid = bowl(&rt, alloc);
    let outside = [MIDDLE, NORTH_EAST, PAST_THE_ROWS, SOUTH_EAST];
    refuses(&rt, alloc, &grid, &outside, SinkFault::Outside(2));
    let outside = [PAST_THE_COLUMNS, SOUTH_EAST];
    refuses(&rt, alloc, &grid, &outside, SinkFault::Outside(0));
    let on_nodata = [MIDDLE, SOUTH_EAST, PAST_THE_ROWS];
    refuses(&rt, alloc, &grid, &on_nodata, SinkFault::OnNodata(1));
}

/// Repeated sinks count towards the limit. Too many sinks are reported before one outside the grid.
#[test]
fn most_sinks(rt: HostRuntime) -> Result<(), Fail> {
    let grid = bowl(&rt, rt.alloc());
    let mut sinks = vec![in rt.alloc(); MIDDLE; 1024]?;
    expect_sinks(&rt, &named(&rt, rt.alloc(), &grid, &sinks), &[MIDDLE]);
    sinks.push(PAST_THE_ROWS)?;
    refuses(&rt, rt.alloc(), &grid, &sinks, SinkFault::TooManySinks);
    Ok(())
}

/// If `rt try --fail-alloc` refuses memory to the first call, a second call adds the sink.
#[test]
fn refused_sinks_are_named_once_more(rt: HostRuntime) {
    let pit = grid_of(&rt, rt.alloc(), 0, PIT, &PIT_CELLS);
    let named = match pit.with_sinks(rt.alloc(), &[MIDDLE]) {
        Ok(named) => named,
        Err(fault) => {
            assert_eq!(rt; fault, SinkFault::Memory);
            pit.with_sinks(rt.alloc(), &[MIDDLE])
                .expect(&rt, "once more")
        }
    };
    expect_sinks(&rt, &named, &[MIDDLE]);
    expect_cells(&rt, named.cells(), &PIT_CELLS);
}
