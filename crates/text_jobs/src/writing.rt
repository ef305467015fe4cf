//! Writes maps by several workers.
//!
//! With several workers, jobs make the text of all rows before the first byte is written. If
//! memory, a thread or the number of workers is refused, the rows are written without jobs. After
//! the first byte nothing is allocated.
ghost use Rattle.std.specs.Prelude.{◌≡◌, ◌++◌, ◌*◌, ◌-◌, ◌/◌, ◌^◌, ◌<◌, ◌≤◌, length, IfSome};
ghost use Rattle.std.specs.List.{flat_map};
ghost use Rattle.terrain.specs.declared.word.TheConstants.{MOST_WORD_BYTES};
ghost use Rattle.ascii_grid.specs.Device.{Writes};
ghost use Rattle.ascii_grid.specs.Text.{header_text, rows_text, heights_text, counts_text};

use ascii_grid::write::{COUNTS_NODATA, MapCell, lines, write_cells, write_lines};
use ascii_grid::{Counted, WriteFailed};
use drainage::Code;
use std::alloc::Global;
use std::io::Write;
use std::sync::Wait;
use std::thread::Threads;
use terrain::{Count, Frame, Grid, MOST_WORD_BYTES};
use tile_jobs::{Gate, JobFault, Work};
use tile_maps::Runner;

/// The most cells of which one job makes the text.
const JOB_CELLS: usize = 65_536;

/// Jobs that each return the text of `rows_each` rows; the last has the rows that remain.
#[derive(Drop)]
struct LineJobs<'a, E> {
    cells: &'a [E],
    cols: usize,
    rows_each: usize,
    scale: u8,
    nodata: &'a [u8],
    ghost some_col: { 0 < cols },
    ghost some_row: { 0 < rows_each },
    ghost scale_fits: { scale ≤ 6 },
    ghost short: { length nodata.now ≤ MOST_WORD_BYTES },
}

impl<'a, E: MapCell> Work for LineJobs<'a, E> {
    ghost use Rattle.std.specs.Int.{div_ceil};
    ghost use Rattle.text_jobs.specs.Parts.{part_text};

    type Out = Vec<u8>;

    ghost most = { λ w. div_ceil (length w.cells.now / w.cols) w.rows_each };

    ghost gives = { λ w job out. out.items
        ≡ part_text (E.text w.scale w.nodata.now) w.cols w.rows_each w.cells.now job };

    fn run(&self, alloc: Global, job: u32) -> Result<Vec<u8>, JobFault> {
        let rows = self.cells.len() / self.cols;
        let first = job as usize * self.rows_each;
        let end = first + self.rows_each.min(rows - first);
        let part = &self.cells[first * self.cols..end * self.cols];
        match lines(alloc, part, self.cols, self.scale, self.nodata) {
            Ok(text) => Ok(text),
            Err(_) => Err(JobFault::Memory),
        }
    }
}

/// Makes the texts of a map's rows, in order, by several workers.
///
/// Returns `None` with one worker, or if a thread, memory or the number of workers is refused.
fn make_lines<T: Threads + Wait + Sync, G: Gate + Sync, E: MapCell + Sync>(
    runner: &Runner<T, G>,
    frame: &Frame,
    cells: &[E],
    nodata: &[u8],
) -> Option<Vec<Vec<u8>>>
    requires size { length cells.now ≡ frame.now.terrain.cols * frame.now.terrain.rows }
    requires short { length nodata.now ≤ MOST_WORD_BYTES }
    ensures { IfSome result (λ texts. flat_map (λ text. text.items) texts.items
        ≡ rows_text (E.text frame.now.scale nodata.now) frame.now.terrain.cols
        frame.now.terrain.rows cells.now) }
{
    let cols = frame.cols() as usize;
    let rows = frame.rows() as usize;
    // At least 16, as a row has at most 4,096 cells; the `max` proves that it is not 0.
    let rows_each = (JOB_CELLS / cols).max(1);
    if runner.workers == 1 {
        return None;
    }
    let work = LineJobs {
        cells,
        cols,
        rows_each,
        scale: frame.scale(),
        nodata,
    };
    match runner.run(&work, rows.div_ceil(rows_each) as u32) {
        Ok(texts) => Some(texts),
        Err(_) => None,
    }
}

fn write_map<T: Threads + Wait + Sync, G: Gate + Sync, E: MapCell + Sync, W: Write>(
    runner: &Runner<T, G>,
    frame: &Frame,
    cells: &[E],
    nodata: &[u8],
    out: &mut Counted<W>,
) -> Result<(), WriteFailed>
    requires few { out.old.failures < 2 ^ 64 - 1 }
    requires size { length cells.now ≡ frame.now.terrain.cols * frame.now.terrain.rows }
    requires short { length nodata.now ≤ MOST_WORD_BYTES }
    ensures { Writes W.contents out.old out.new (header_text frame.now nodata.now
        ++ rows_text (E.text frame.now.scale nodata.now) frame.now.terrain.cols
        frame.now.terrain.rows cells.now)
        result }
{
    match make_lines(runner, frame, cells, nodata) {
        Some(texts) => write_lines(frame, nodata, &texts, out),
        None => write_cells(frame, cells, nodata, out),
    }
}

/// Writes a grid's header and heights, but not its sinks, by several workers.
///
/// # Memory
///
/// With more than one worker, the text of all rows. If memory, a thread or the number of workers is
/// refused, the map is written without jobs, which allocates nothing.
///
/// # Errors
///
/// [`WriteFailed`] if a write or the flush fails.
///
/// # Examples
///
/// ```ignore
/// let runner = Runner { rt: &rt, alloc: rt.alloc(), workers: 4, gate: &NoGate };
/// let mut writer = Counted::new(rt.stdout());
/// write_heights(&runner, &grid, &mut writer)?;
/// ```
pub fn write_heights<T: Threads + Wait + Sync, G: Gate + Sync, W: Write>(
    runner: &Runner<T, G>,
    grid: &Grid,
    out: &mut Counted<W>,
) -> Result<(), WriteFailed>
    requires { out.old.failures < 2 ^ 64 - 1 }
    ensures { Writes W.contents out.old out.new (heights_text grid.now) result }
{
    let frame = grid.frame();
    write_map(runner, frame, grid.cells(), frame.nodata().as_bytes(), out)
}

/// Writes a map of whole numbers, with NODATA -9999, by several workers.
/// The rest of the header is that of `frame`, a grid's header, scale and sinks without the cells.
///
/// # Memory
///
/// With more than one worker, the text of all rows. If memory, a thread or the number of workers is
/// refused, the map is written without jobs, which allocates nothing.
///
/// # Errors
///
/// [`WriteFailed`] if a write or the flush fails.
pub fn write_framed_counts<T: Threads + Wait + Sync, G: Gate + Sync, W: Write>(
    runner: &Runner<T, G>,
    frame: &Frame,
    values: &[Count],
    out: &mut Counted<W>,
) -> Result<(), WriteFailed>
    requires few { out.old.failures < 2 ^ 64 - 1 }
    requires size { length values.now ≡ frame.now.terrain.cols * frame.now.terrain.rows }
    ensures { Writes W.contents out.old out.new (counts_text frame.now values.now) result }
{
    write_map(runner, frame, values, COUNTS_NODATA, out)
}

/// Writes a map of direction codes, with NODATA -9999, by several workers.
/// The rest of the header is that of `frame`.
///
/// # Memory
///
/// With more than one worker, the text of all rows. If memory, a thread or the number of workers is
/// refused, the map is written without jobs, which allocates nothing.
///
/// # Errors
///
/// [`WriteFailed`] if a write or the flush fails.
pub fn write_codes<T: Threads + Wait + Sync, G: Gate + Sync, W: Write>(
    runner: &Runner<T, G>,
    frame: &Frame,
    codes: &[Option<Code>],
    out: &mut Counted<W>,
) -> Result<(), WriteFailed>
    requires few { out.old.failures < 2 ^ 64 - 1 }
    requires size { length codes.now ≡ frame.now.terrain.cols * frame.now.terrain.rows }
    ensures { Writes W.contents out.old out.new (counts_text frame.now codes.now) result }
{
    write_map(runner, frame, codes, COUNTS_NODATA, out)
}
