//! Tests writing of grids and maps: their bytes, and devices that fail or are interrupted.
ghost use Rattle.std.specs.Prelude.{◌≡◌, ◌*◌, ◌≤◌, length};

use crate::texts::{LENIENT, LENIENT_CELLS, PIT, PIT_CELLS, grid_of};
use ascii_grid::{Count, Counted, Grid, Height, Place, WriteFailed, write_counts, write_heights};
use std::alloc::Global;
use std::io;
use std::io::Write;
use std::process::Abort;
use std::test::Fail;

/// More bytes than a test writes.
const ALL: usize = 20_000;

/// A writer that takes at most `each` bytes a call, until `capacity` bytes are used up.
/// Call number `interrupted_at`, from 0, fails as interrupted; later calls write on.
#[derive(Drop)]
struct Taker {
    taken: Vec<u8>,
    each: usize,
    capacity: usize,
    flushed: usize,
    calls: usize,
    interrupted_at: Option<usize>,
}

impl Taker {
    fn new(alloc: Global, each: usize, capacity: usize) -> Self {
        Taker {
            taken: Vec::new(alloc),
            each,
            capacity,
            flushed: 0,
            calls: 0,
            interrupted_at: None,
        }
    }

    fn begin_call(&mut self) -> io::Result<()> {
        let call = self.calls;
        self.calls = call.wrapping_add(1);
        if self.interrupted_at == Some(call) {
            return Err(io::Error::from(io::ErrorKind::Interrupted));
        }
        Ok(())
    }
}

impl Write for Taker {
    fn write(&mut self, bytes: &[u8]) -> io::Result<usize> {
        self.begin_call()?;
        let count = bytes.len().min(self.each).min(self.capacity);
        if count == 0 && !bytes.is_empty() {
            return Err(io::Error::from(io::ErrorKind::Other));
        }
        self.taken.write(&bytes[..count])?;
        self.capacity -= count;
        Ok(count)
    }

    fn flush(&mut self) -> io::Result<()> {
        self.begin_call()?;
        self.flushed = self.taken.len();
        Ok(())
    }
}

const LENIENT_WRITTEN: &[u8] =
    b"ncols         2\nnrows         2\nxllcenter     100.5\nyllcorner     -2E1\ncellsize      30.0\nNODATA_value  -3.40282346638528860e+38\n12.50 -0.50\n-3.40282346638528860e+38 7.00\n";

const LENIENT_FLOW: &[u8] =
    b"ncols         2\nnrows         2\nxllcenter     100.5\nyllcorner     -2E1\ncellsize      30.0\nNODATA_value  -9999\n1 0\n-9999 64\n";

/// A text whose header has mixed order and case, a corner, a centre and no line feeds.
const MIXED: &[u8] = b"CELLSIZE 1 NROWS 1 yllCenter +.5 NCOLS 2 XLLCORNER 0 7 8";

const MIXED_WRITTEN: &[u8] =
    b"ncols         2\nnrows         1\nxllcorner     0\nyllcenter     +.5\ncellsize      1\nNODATA_value  -9999\n7 8\n";

const MIXED_COUNTS: &[u8] =
    b"ncols         2\nnrows         1\nxllcorner     0\nyllcenter     +.5\ncellsize      1\nNODATA_value  -9999\n12 -9999\n";

const HALVES: &[u8] =
    b"ncols         2\nnrows         2\nxllcorner     0\nyllcenter     0\ncellsize      1\nNODATA_value  -9999\n0.5 -0.5\n0.0 7.0\n";

const EXTREMES: &[u8] =
    b"ncols         4\nnrows         1\nxllcorner     0\nyllcenter     0\ncellsize      1\nNODATA_value  -9999\n-1000000000.000000 1000000000.000000 -0.000001 0.000010\n";

const PIT_WRITTEN: &[u8] =
    b"ncols         3\nnrows         3\nxllcorner     0\nyllcorner     0\ncellsize      1\nNODATA_value  -9999\n9 9 9\n9 1 9\n9 9 9\n";

const WHOLE: &[u8] =
    b"ncols         1\nnrows         4\nxllcorner     0\nyllcenter     0\ncellsize      1\nNODATA_value  -9999\n-1000000000000000\n1000000000000000\n0\n-1\n";

/// Writes the grid's heights to `taker`, and returns `taker`.
/// Asserts how many failures are counted, and that the bytes taken are all counted.
fn written(rt: &impl Abort, grid: &Grid, mut taker: Taker, failures: u64) -> Taker {
    let mut out = Counted::new(&mut taker);
    let result = write_heights(grid, &mut out);
    assert_eq!(rt; out.failures(), failures);
    let moved = out.moved();
    assert_eq!(rt;
        result,
        if failures == 0 {
            Ok(())
        } else {
            Err(WriteFailed)
        }
    );
    assert_eq!(rt; taker.taken.len() as u64, moved);
    taker
}

/// Asserts that the grid's heights are written as `text` and flushed.
fn writes(rt: &impl Abort, grid: &Grid, taker: Taker, text: &[u8]) {
    let taker = written(rt, grid, taker, 0);
    assert_eq!(rt; taker.taken.as_slice(), text, "{} bytes a call", taker.each);
    assert_eq!(rt; taker.flushed, text.len());
}

/// Asserts that `text` spells these cells, and that they are written as `written`.
fn writes_cells(
    rt: &impl Abort,
    alloc: Global,
    scale: u8,
    text: &[u8],
    cells: &[Option<Height>],
    written: &[u8],
)
    requires { scale ≤ 6 }
{
    let grid = grid_of(rt, alloc, scale, text, cells);
    writes(rt, &grid, Taker::new(alloc, ALL, ALL), written);
}

fn lenient_grid(rt: &impl Abort, alloc: Global) -> Grid
    ensures { result.terrain.cols * result.terrain.rows ≡ 4 }
{
    let grid = grid_of(rt, alloc, 2, LENIENT, &LENIENT_CELLS);
    assert!(rt; grid.cols() == 2);
    assert!(rt; grid.rows() == 2);
    grid
}

/// Returns a grid of 30 rows of 100 NODATA cells.
fn empty_cells(rt: &impl Abort, alloc: Global) -> Result<Grid, Fail> {
    let size = "ncols 100 nrows 30 xllcorner 0 yllcenter 0 cellsize 1";
    let cells = vec![in alloc; None; 3000]?;
    let mut text = format!(in alloc; "{size}")?;
    for _ in 0..3000 {
        text.push_str(" -9999")?;
    }
    Ok(grid_of(rt, alloc, 0, text.as_bytes(), &cells))
}

#[test]
fn lenient_text(rt: HostRuntime) {
    let grid = lenient_grid(&rt, rt.alloc());
    for each in [1, 7, ALL] {
        writes(
            &rt,
            &grid,
            Taker::new(rt.alloc(), each, ALL),
            LENIENT_WRITTEN,
        );
    }
}

/// Asserts that the counts are written as `text`.
fn writes_counts(rt: &impl Abort, alloc: Global, grid: &Grid, counts: &[Count], text: &[u8])
    requires { length counts.now ≡ grid.now.terrain.cols * grid.now.terrain.rows }
{
    let mut taker = Taker::new(alloc, ALL, ALL);
    let mut out = Counted::new(&mut taker);
    assert_eq!(rt; write_counts(grid, counts, &mut out), Ok(()));
    assert_eq!(rt; out.failures(), 0);
    assert_eq!(rt; taker.taken.as_slice(), text);
}

/// Counts have -9999 for NODATA, whatever the grid's own NODATA word.
#[test]
fn lenient_flow(rt: HostRuntime) {
    let grid = lenient_grid(&rt, rt.alloc());
    let codes = [Count::of(1), Count::of(0), Count::none(), Count::of(64)];
    writes_counts(&rt, rt.alloc(), &grid, &codes, LENIENT_FLOW);
}

#[test]
fn header_in_any_order(rt: HostRuntime) {
    let grid = grid_of(&rt, rt.alloc(), 0, MIXED, &[Some(7), Some(8)]);
    writes(&rt, &grid, Taker::new(rt.alloc(), ALL, ALL), MIXED_WRITTEN);
    assert!(rt; grid.cols() == 2);
    assert!(rt; grid.rows() == 1);
    let counts = [Count::of(12), Count::none()];
    writes_counts(&rt, rt.alloc(), &grid, &counts, MIXED_COUNTS);
}

#[test]
fn decimals_of_each_scale(rt: HostRuntime) {
    writes_cells(
        &rt,
        rt.alloc(),
        1,
        b"ncols 2 nrows 2 xllcorner 0 yllcenter 0 cellsize 1 .5 -.5 0 7",
        &[Some(5), Some(-5), Some(0), Some(70)],
        HALVES,
    );
    writes_cells(
        &rt,
        rt.alloc(),
        6,
        b"ncols 4 nrows 1 xllcorner 0 yllcenter 0 cellsize 1 -1000000000 1000000000 -.000001 .00001",
        &[
            Some(-1_000_000_000_000_000),
            Some(1_000_000_000_000_000),
            Some(-1),
            Some(10),
        ],
        EXTREMES,
    );
    writes_cells(
        &rt,
        rt.alloc(),
        0,
        b"ncols 1 nrows 4 xllcorner 0 yllcenter 0 cellsize 1 -1000000000000000 1000000000000000 0 -1",
        &[
            Some(-1_000_000_000_000_000),
            Some(1_000_000_000_000_000),
            Some(0),
            Some(-1),
        ],
        WHOLE,
    );
}

/// The written text is the same with and without sinks.
#[test]
fn sinks_are_not_written(rt: HostRuntime) {
    let pit = grid_of(&rt, rt.alloc(), 0, PIT, &PIT_CELLS);
    let middle = Place { row: 1, col: 1 };
    let named = pit.with_sinks(rt.alloc(), &[middle]).expect(&rt, "sinks");
    writes(&rt, &pit, Taker::new(rt.alloc(), ALL, ALL), PIT_WRITTEN);
    writes(&rt, &named, Taker::new(rt.alloc(), ALL, ALL), PIT_WRITTEN);
}

#[test]
fn ten_bytes_and_a_failure(rt: HostRuntime) {
    let grid = lenient_grid(&rt, rt.alloc());
    for each in [1, 4, ALL] {
        let taker = written(&rt, &grid, Taker::new(rt.alloc(), each, 10), 1);
        assert_eq!(rt; taker.taken.as_slice(), b"ncols     ".as_slice());
        assert_eq!(rt; taker.flushed, 0);
    }
}

/// Returns the bytes of the text of [`empty_cells`] that a writer takes.
fn taken_of_empty(
    rt: &impl Abort,
    alloc: Global,
    each: usize,
    capacity: usize,
    failures: u64,
) -> Result<Vec<u8>, Fail> {
    let grid = empty_cells(rt, alloc)?;
    Ok(written(rt, &grid, Taker::new(alloc, each, capacity), failures).taken)
}

/// Returns the byte at `at` in the rows of [`empty_cells`].
fn byte_of_empty(at: usize) -> u8 {
    let end = if at % 600 == 599 { b'\n' } else { b' ' };
    if at % 6 == 5 { end } else { b"-9999"[at % 6] }
}

#[test]
fn more_than_a_page(rt: HostRuntime) -> Result<(), Fail> {
    let taken = taken_of_empty(&rt, rt.alloc(), ALL, ALL, 0)?;
    assert_eq!(rt; taken.len(), 103 + 30 * 600);
    for (at, byte) in taken.iter().skip(103).enumerate() {
        assert_eq!(rt; *byte, byte_of_empty(at), "at {at}");
    }
    Ok(())
}

#[test]
fn failure_past_the_first_page(rt: HostRuntime) -> Result<(), Fail> {
    let whole = taken_of_empty(&rt, rt.alloc(), ALL, ALL, 0)?;
    let part = taken_of_empty(&rt, rt.alloc(), 1000, 5000, 1)?;
    assert_eq!(rt; part.len(), 5000);
    assert!(rt; whole.starts_with(&part));
    Ok(())
}

/// Writes `lenient_grid`, 50 bytes a call, interrupted at `call`.
/// Asserts that exactly the bytes of the earlier calls were taken.
fn write_until(rt: &impl Abort, alloc: Global, grid: &Grid, call: usize, failures: u64) {
    let mut taker = Taker::new(alloc, 50, ALL);
    taker.interrupted_at = Some(call);
    let taker = written(rt, grid, taker, failures);
    let taken = taker.taken.as_slice();
    assert_eq!(rt;
        taken.len(),
        LENIENT_WRITTEN.len().min(call.saturating_mul(50))
    );
    assert!(rt; LENIENT_WRITTEN.starts_with(taken));
}

/// Interrupts each write, the flush, and then no call.
#[test]
fn interrupted_write(rt: HostRuntime) {
    let grid = lenient_grid(&rt, rt.alloc());
    let writes = LENIENT_WRITTEN.len().div_ceil(50);
    for call in 0..writes + 2 {
        write_until(&rt, rt.alloc(), &grid, call, u64::from(call <= writes));
    }
}
