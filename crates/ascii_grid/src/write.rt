//! Writes a grid or a map as text.
//!
//! [`write_heights`], [`write_codes`] and [`write_counts`] write to a device; [`lines`] returns the
//! text of rows, for [`write_lines`].
ghost use Rattle.std.specs.Prelude.{◌≡◌, ◌∷◌, ◌+◌, ◌++◌, ◌*◌, ◌/◌, ◌-◌, ◌^◌, ◌<◌, ◌≤◌, [], ℕ, List, length, decimal, codes, OnOk, IfOk};
ghost use Rattle.std.specs.List.{flat_map};
ghost use Rattle.terrain.specs.Sinks.{raster_with_sinks};
ghost use Rattle.ascii_grid.specs.Device.{Writes};
ghost use Rattle.ascii_grid.specs.WritesByPage.{WritesByPage};
ghost use Rattle.ascii_grid.specs.GridText.{IsGridText, most_bytes};
ghost use Rattle.ascii_grid.specs.Text.{height_text, cell_text, row_text, rows_text, line_text, anchor_text, header_text, heights_text, counts_text};

use crate::cell_text::CellValue;
use crate::counted::{Counted, WriteFailed};
use crate::page::{PAGE, Page};
use drainage::Code;
use itoa::Buffer;
use std::alloc::Global;
use std::io::Write;
use terrain::{Anchor, Cell, Count, Frame, Grid, MOST_WORD_BYTES, NoMemory};

/// Bytes enough for the text of a cell and the byte after it, or for a header line.
pub const ENTRY_ROOM: usize = 80;

/// The NODATA word of all maps but filled heights.
pub const COUNTS_NODATA: &[u8] = b"-9999";

/// Bytes of a cell in usual texts, for the first allocation of [`lines`].
const USUAL_BYTES: usize = 6;

#[inline(never)]
fn write_page<W: Write>(page: &mut Page, out: &mut Counted<W>) -> Result<(), WriteFailed>
    requires { out.old.failures < 2 ^ 64 - 1 }
    ensures empty { OnOk result (page.new ≡ []) }
    ensures text { WritesByPage W.contents out.old page.old out.new page.new [] result }
{
    out.write_all(page.as_bytes())?;
    page.clear();
    Ok(())
}

/// Empties the page into the device unless [`ENTRY_ROOM`] more bytes fit.
#[inline(always)]
fn make_room<W: Write>(page: &mut Page, out: &mut Counted<W>) -> Result<(), WriteFailed>
    requires { out.old.failures < 2 ^ 64 - 1 }
    ensures room { OnOk result (length page.new + ENTRY_ROOM ≤ PAGE) }
    ensures text { WritesByPage W.contents out.old page.old out.new page.new [] result }
{
    if page.has_room(ENTRY_ROOM) {
        return Ok(());
    }
    write_page(page, out)
}

/// A cell of a map: a value or NODATA.
pub trait MapCell: Copy {
    /// The cell's text, by the scale and the NODATA word.
    ghost text: { ℕ → List ℕ → Self → List ℕ };

    /// Adds the cell's text to the page, then the byte `end`.
    fn push_to(self, end: u8, scale: u8, nodata: &[u8], page: &mut Page)
        requires scale { scale ≤ 6 }
        requires short { length nodata.now ≤ MOST_WORD_BYTES }
        requires room { length page.old + ENTRY_ROOM ≤ PAGE }
        ensures { page.new ≡ page.old ++ text scale nodata.now self ++ end ∷ [] };
}

impl<T: CellValue> MapCell for Option<T> {
    ghost text = { λ scale. cell_text (T.text scale) };

    #[inline(always)]
    fn push_to(self, end: u8, scale: u8, nodata: &[u8], page: &mut Page) {
        match self {
            Some(value) => value.push_to(scale, end, page),
            None => {
                page.push(nodata);
                page.push_byte(end);
            }
        }
    }
}

impl MapCell for Cell {
    ghost text = { λ scale. cell_text (height_text scale) };

    #[inline(always)]
    fn push_to(self, end: u8, scale: u8, nodata: &[u8], page: &mut Page) {
        self.height().push_to(end, scale, nodata, page);
    }
}

impl MapCell for Count {
    ghost text = { λ _. cell_text decimal };

    #[inline(always)]
    fn push_to(self, end: u8, scale: u8, nodata: &[u8], page: &mut Page) {
        self.value().push_to(end, scale, nodata, page);
    }
}

/// Adds one cell and the byte `end` to the page; a full page goes to the device.
#[inline(always)]
fn write_cell<E: MapCell, W: Write>(
    cell: E,
    end: u8,
    scale: u8,
    nodata: &[u8],
    page: &mut Page,
    out: &mut Counted<W>,
) -> Result<(), WriteFailed>
    requires few { out.old.failures < 2 ^ 64 - 1 }
    requires scale { scale ≤ 6 }
    requires short { length nodata.now ≤ MOST_WORD_BYTES }
    ensures { WritesByPage W.contents out.old page.old out.new page.new
        (E.text scale nodata.now cell ++ end ∷ []) result }
{
    make_room(page, out)?;
    cell.push_to(end, scale, nodata, page);
    Ok(())
}

/// Adds one row of cells as a line to the page; full pages go to the device.
fn write_row<E: MapCell, W: Write>(
    cells: &[E],
    scale: u8,
    nodata: &[u8],
    page: &mut Page,
    out: &mut Counted<W>,
) -> Result<(), WriteFailed>
    requires few { out.old.failures < 2 ^ 64 - 1 }
    requires scale { scale ≤ 6 }
    requires short { length nodata.now ≤ MOST_WORD_BYTES }
    requires some { 0 < length cells.now }
    ensures { WritesByPage W.contents out.old page.old out.new page.new
        (row_text (E.text scale nodata.now) cells.now) result }
{
    let last = cells.len() - 1;
    for index in 0..last {
        write_cell(cells[index], b' ', scale, nodata, page, out)?;
    }
    write_cell(cells[last], b'\n', scale, nodata, page, out)
}

/// Adds all complete rows of `cols` cells to the page; full pages go to the device.
fn write_rows<E: MapCell, W: Write>(
    cells: &[E],
    cols: usize,
    scale: u8,
    nodata: &[u8],
    page: &mut Page,
    out: &mut Counted<W>,
) -> Result<(), WriteFailed>
    requires few { out.old.failures < 2 ^ 64 - 1 }
    requires scale { scale ≤ 6 }
    requires short { length nodata.now ≤ MOST_WORD_BYTES }
    requires some { 0 < cols }
    ensures { WritesByPage W.contents out.old page.old out.new page.new
        (rows_text (E.text scale nodata.now) cols (length cells.now / cols) cells.now) result }
{
    for row in 0..cells.len() / cols {
        let line = &cells[row * cols..row * cols + cols];
        write_row(line, scale, nodata, page, out)?;
    }
    Ok(())
}

/// Writes the page, then all complete rows of `cols` cells, and flushes the device.
fn write_page_and_rows<E: MapCell, W: Write>(
    page: &mut Page,
    cells: &[E],
    cols: usize,
    scale: u8,
    nodata: &[u8],
    out: &mut Counted<W>,
) -> Result<(), WriteFailed>
    requires few { out.old.failures < 2 ^ 64 - 1 }
    requires scale { scale ≤ 6 }
    requires short { length nodata.now ≤ MOST_WORD_BYTES }
    requires some { 0 < cols }
    ensures { Writes W.contents out.old out.new (page.old
        ++ rows_text (E.text scale nodata.now) cols (length cells.now / cols) cells.now) result }
{
    write_rows(cells, cols, scale, nodata, page, out)?;
    page.write_to(out)
}

/// Adds a header line: the key with its spaces, the value and a line feed.
fn push_line(key: &[u8], value: &[u8], page: &mut Page)
    requires key { length key.now ≤ 14 }
    requires value { length value.now ≤ MOST_WORD_BYTES }
    requires room { length page.old + ENTRY_ROOM ≤ PAGE }
    ensures text { page.new ≡ page.old ++ line_text key.now value.now }
    ensures short { length page.new ≤ length page.old + ENTRY_ROOM }
{
    page.push(key);
    page.push(value);
    page.push_byte(b'\n');
}

fn push_number_line(key: &[u8], number: u32, page: &mut Page)
    requires key { length key.now ≤ 14 }
    requires room { length page.old + ENTRY_ROOM ≤ PAGE }
    ensures text { page.new ≡ page.old ++ line_text key.now (decimal number) }
    ensures short { length page.new ≤ length page.old + ENTRY_ROOM }
{
    let mut digits = Buffer::new();
    push_line(key, digits.format(number).as_bytes(), page);
}

/// Adds the header line of `anchor`, with the key `centre` or `corner`.
fn push_anchor(corner: &[u8], centre: &[u8], anchor: &Anchor, page: &mut Page)
    requires corner { length corner.now ≤ 14 }
    requires centre { length centre.now ≤ 14 }
    requires room { length page.old + ENTRY_ROOM ≤ PAGE }
    ensures text { page.new ≡ page.old ++ anchor_text corner.now centre.now
        (record { centre = anchor.now.centre; word = anchor.now.word }) }
    ensures short { length page.new ≤ length page.old + ENTRY_ROOM }
{
    let key = if anchor.centre { centre } else { corner };
    push_line(key, anchor.word.as_bytes(), page);
}

fn header_page(frame: &Frame, nodata: &[u8]) -> Page
    requires { length nodata.now ≤ MOST_WORD_BYTES }
    ensures { result ≡ header_text frame.now nodata.now }
{
    let mut page = Page::new();
    push_number_line(b"ncols         ", frame.cols(), &mut page);
    push_number_line(b"nrows         ", frame.rows(), &mut page);
    push_anchor(b"xllcorner     ", b"xllcenter     ", frame.xll(), &mut page);
    push_anchor(b"yllcorner     ", b"yllcenter     ", frame.yll(), &mut page);
    push_line(b"cellsize      ", frame.cellsize().as_bytes(), &mut page);
    push_line(b"NODATA_value  ", nodata, &mut page);
    page
}

/// Writes a header with the NODATA word `nodata`, and a map's rows. Allocates nothing.
///
/// # Errors
///
/// [`WriteFailed`] if a write or the flush fails.
pub fn write_cells<E: MapCell, W: Write>(
    frame: &Frame,
    cells: &[E],
    nodata: &[u8],
    out: &mut Counted<W>,
) -> Result<(), WriteFailed>
    requires few { out.old.failures < 2 ^ 64 - 1 }
    requires size { length cells.now ≡ frame.now.terrain.cols * frame.now.terrain.rows }
    requires short { length nodata.now ≤ MOST_WORD_BYTES }
    ensures { Writes W.contents out.old out.new (header_text frame.now nodata.now
        ++ rows_text (E.text frame.now.scale nodata.now) frame.now.terrain.cols
        frame.now.terrain.rows cells.now)
        result }
{
    let mut page = header_page(frame, nodata);
    let cols = frame.cols() as usize;
    write_page_and_rows(&mut page, cells, cols, frame.scale(), nodata, out)
}

/// Returns the text of all complete rows of `cols` cells, one line for each row.
///
/// # Errors
///
/// [`NoMemory`] if memory for the text is refused.
pub fn lines<E: MapCell>(
    alloc: Global,
    cells: &[E],
    cols: usize,
    scale: u8,
    nodata: &[u8],
) -> Result<Vec<u8>, NoMemory>
    requires scale { scale ≤ 6 }
    requires short { length nodata.now ≤ MOST_WORD_BYTES }
    requires some { 0 < cols }
    ensures { IfOk result (λ text. text.items
        ≡ rows_text (E.text scale nodata.now) cols (length cells.now / cols) cells.now) }
{
    let room = cells.len().saturating_mul(USUAL_BYTES);
    let mut out = Counted::new(Vec::with_capacity(alloc, room)?);
    match write_page_and_rows(&mut Page::new(), cells, cols, scale, nodata, &mut out) {
        Ok(()) => Ok(out.into_device()),
        Err(WriteFailed) => Err(NoMemory),
    }
}

fn write_texts<W: Write>(texts: &[Vec<u8>], out: &mut Counted<W>) -> Result<(), WriteFailed>
    requires { out.old.failures < 2 ^ 64 - 1 }
    ensures { Writes W.contents out.old out.new (flat_map (λ text. text.items) texts.now) result }
{
    for text in texts {
        out.write_all(text)?;
    }
    Ok(())
}

/// Writes a map's header and the texts of its rows. Allocates nothing.
///
/// For a map, `texts` must hold results of [`lines`], each for some successive rows. Together they
/// must be the texts of all rows, from north to south.
///
/// # Errors
///
/// [`WriteFailed`] if a write or the flush fails.
pub fn write_lines<W: Write>(
    frame: &Frame,
    nodata: &[u8],
    texts: &[Vec<u8>],
    out: &mut Counted<W>,
) -> Result<(), WriteFailed>
    requires few { out.old.failures < 2 ^ 64 - 1 }
    requires short { length nodata.now ≤ MOST_WORD_BYTES }
    ensures { Writes W.contents out.old out.new
        (header_text frame.now nodata.now ++ flat_map (λ text. text.items) texts.now) result }
{
    out.write_all(header_page(frame, nodata).as_bytes())?;
    write_texts(texts, out)?;
    out.flush()
}

/// Writes a grid's header and heights, but not its sinks. Allocates nothing.
///
/// # Errors
///
/// [`WriteFailed`] if a write or the flush fails.
///
/// # Examples
///
/// ```ignore
/// let grid = read_text(rt.alloc(), 0, text)?;
/// let mut out = Counted::new(rt.stdout());
/// write_heights(&grid, &mut out)?;
/// ```
pub fn write_heights<W: Write>(grid: &Grid, out: &mut Counted<W>) -> Result<(), WriteFailed>
    requires { out.old.failures < 2 ^ 64 - 1 }
    ensures text { Writes W.contents out.old out.new (heights_text grid.now) result }
    // A text of at most 2^29 bytes reads back as this grid without its sinks.
    ensures again { length (heights_text grid.now) ≤ most_bytes →
        IsGridText grid.now.scale (heights_text grid.now) (raster_with_sinks grid.now []) }
{
    let frame = grid.frame();
    write_cells(frame, grid.cells(), frame.nodata().as_bytes(), out)
}

/// Writes whole numbers, with a grid's header and NODATA -9999. Allocates nothing.
///
/// # Errors
///
/// [`WriteFailed`] if a write or the flush fails.
pub fn write_counts<W: Write>(
    grid: &Grid,
    values: &[Count],
    out: &mut Counted<W>,
) -> Result<(), WriteFailed>
    requires few { out.old.failures < 2 ^ 64 - 1 }
    requires size { length values.now ≡ grid.now.terrain.cols * grid.now.terrain.rows }
    ensures { Writes W.contents out.old out.new (counts_text grid.now values.now) result }
{
    write_framed_counts(grid.frame(), values, out)
}

/// Writes whole numbers, with the header of `frame` and NODATA -9999. Allocates nothing.
///
/// Unlike [`write_counts`], it needs no cells of the grid: these may be freed before the call.
///
/// # Errors
///
/// [`WriteFailed`] if a write or the flush fails.
pub fn write_framed_counts<W: Write>(
    frame: &Frame,
    values: &[Count],
    out: &mut Counted<W>,
) -> Result<(), WriteFailed>
    requires few { out.old.failures < 2 ^ 64 - 1 }
    requires size { length values.now ≡ frame.now.terrain.cols * frame.now.terrain.rows }
    ensures { Writes W.contents out.old out.new (counts_text frame.now values.now) result }
{
    write_cells(frame, values, COUNTS_NODATA, out)
}

/// Writes direction codes, with the header of `frame` and NODATA -9999. Allocates nothing.
///
/// # Errors
///
/// [`WriteFailed`] if a write or the flush fails.
pub fn write_codes<W: Write>(
    frame: &Frame,
    codes: &[Option<Code>],
    out: &mut Counted<W>,
) -> Result<(), WriteFailed>
    requires few { out.old.failures < 2 ^ 64 - 1 }
    requires size { length codes.now ≡ frame.now.terrain.cols * frame.now.terrain.rows }
    ensures { Writes W.contents out.old out.new (counts_text frame.now codes.now) result }
{
    write_cells(frame, codes, COUNTS_NODATA, out)
}
