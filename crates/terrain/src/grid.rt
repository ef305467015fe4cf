//! A grid's header, scale, sinks and cells ([`Grid`]), or all of these but the cells ([`Frame`]).
//!
//! [`Grid::from_parts`] makes a grid, and [`Grid::name_sinks`] replaces its sinks.
ghost use Rattle.std.specs.Prelude.{◌≡◌, ◌↔◌, ◌+◌, ◌*◌, ◌<◌, [], length, All, Contains, IfSome, IfOk, OnOk, IsTrue, None, Some};
ghost use Rattle.terrain.specs.Raster.{Raster, IsLawful};
ghost use Rattle.terrain.specs.Neighbours.{IsInside, height_at, IsEnd, HasGapAround};
ghost use Rattle.terrain.specs.Sinks.{RefusesSinks, each_once, raster_with_sinks, sinks_fault};

use crate::cell::Cell;
use crate::place::{Height, Place};
use crate::sinks::{SinkFault, each_once, is_one_of, sinks_fault};
use crate::word::Word;
use std::alloc::{AllocError, Global};
use std::marker::Model;
use std::snapshot::Snapshot;

/// The greatest number of columns and of rows of a grid.
pub const LONGEST_AXIS: u32 = 4_096;

/// The error of a failed allocation.
#[derive(Clone, Copy, Debug, PartialEq, Eq)]
pub struct NoMemory;

impl From<AllocError> for NoMemory {
    fn from(_error: AllocError) -> Self {
        NoMemory
    }
}

/// The x or y coordinate of the grid's lower left cell, as the header spells it.
/// The coordinate is that of the cell's centre if `centre`, else of the cell's lower left corner.
#[derive(Drop)]
pub struct Anchor {
    pub centre: bool,
    pub word: Word,
}

impl Anchor {
    fn copy(&self) -> Self
        ensures { result ≡ self.now }
    {
        Anchor {
            centre: self.centre,
            word: self.word.copy(),
        }
    }
}

/// The values of a grid text's header.
#[derive(Drop)]
pub struct GridHeader {
    pub cols: u32,
    pub rows: u32,
    pub xll: Anchor,
    pub yll: Anchor,
    pub cellsize: Word,
    pub nodata: Word,
}

impl GridHeader {
    fn copy(&self) -> Self
        ensures { result ≡ self.now }
    {
        GridHeader {
            cols: self.cols,
            rows: self.rows,
            xll: self.xll.copy(),
            yll: self.yll.copy(),
            cellsize: self.cellsize.copy(),
            nodata: self.nodata.copy(),
        }
    }
}

/// A grid's header, scale and sinks, without its cells.
/// Contracts see the grid's cells too, by a [`Snapshot`], which has no bytes at run time.
#[derive(Drop)]
pub struct Frame {
    header: GridHeader,
    scale: u8,
    sinks: Vec<Place>,
    cells: Snapshot<Vec<Cell>>,
}

impl Model for Frame {
    ghost use Rattle.terrain.specs.Raster.{Raster, IsLawful};
    ghost use Rattle.terrain.specs.Parts.{raster_with};

    ghost Value = { Raster };

    ghost view = { λ f. raster_with f.header f.scale f.cells.value.items f.sinks.items };

    ghost invariant = { λ f.
        IsLawful (raster_with f.header f.scale f.cells.value.items f.sinks.items) };
}

/// A terrain grid: its header, scale, named sinks and cells.
#[derive(Drop)]
pub struct Grid {
    frame: Frame,
    cells: Vec<Cell>,
}

impl Model for Grid {
    ghost use Rattle.std.specs.Prelude.{◌≡◌};
    ghost use Rattle.terrain.specs.Raster.{Raster, IsLawful};

    ghost Value = { Raster };

    ghost view = { λ g. g.frame };

    ghost invariant = { λ g. IsLawful g.frame × (g.cells.items ≡ g.frame.terrain.cells) };
}

impl Frame {
    ghost use Rattle.terrain.specs.Parts.{raster_with_parts};

    /// The number of columns, from 1 to [`LONGEST_AXIS`].
    pub fn cols(&self) -> u32
        ensures value { result ≡ self.now.terrain.cols }
        ensures lawful { IsLawful self.now }
    {
        self.header.cols
    }

    /// The number of rows, from 1 to [`LONGEST_AXIS`].
    pub fn rows(&self) -> u32
        ensures value { result ≡ self.now.terrain.rows }
        ensures lawful { IsLawful self.now }
    {
        self.header.rows
    }

    /// The number of decimals of the heights: one unit is 10^-scale.
    pub fn scale(&self) -> u8
        ensures value { result ≡ self.now.scale }
        ensures lawful { IsLawful self.now }
    {
        self.scale
    }

    /// The named sinks, each once, in the order of first naming.
    pub fn sinks(&self) -> &[Place]
        ensures value { result.now ≡ self.now.terrain.sinks }
        ensures lawful { IsLawful self.now }
    {
        &self.sinks
    }

    /// The x coordinate of the lower left cell, as the header spells it.
    pub fn xll(&self) -> &Anchor
        ensures centre { result.now.centre ≡ self.now.xll.centre }
        ensures word { result.now.word ≡ self.now.xll.word }
    {
        &self.header.xll
    }

    /// The y coordinate of the lower left cell, as the header spells it.
    pub fn yll(&self) -> &Anchor
        ensures centre { result.now.centre ≡ self.now.yll.centre }
        ensures word { result.now.word ≡ self.now.yll.word }
    {
        &self.header.yll
    }

    /// The size of a cell, as the header spells it.
    pub fn cellsize(&self) -> &Word
        ensures { result.now ≡ self.now.cellsize }
    {
        &self.header.cellsize
    }

    /// The NODATA word: as the header spells it, or `-9999` where the text that was read has none.
    pub fn nodata(&self) -> &Word
        ensures { result.now ≡ self.now.nodata }
    {
        &self.header.nodata
    }

    /// Returns a grid of the frame's header, scale and sinks, and of `cells`.
    /// `cells` must have one cell for each place, each without data or with a height that some cell
    /// of the frame's grid has. So each height is in range and differs from the NODATA value.
    ///
    /// # Errors
    ///
    /// [`NoMemory`] if an allocation fails.
    pub fn with_cells(&self, alloc: Global, cells: Vec<Cell>) -> Result<Grid, NoMemory>
        requires size { length cells.items ≡ self.now.terrain.cols * self.now.terrain.rows }
        requires heights { All (λ c. IfSome c (λ h. Contains self.now.terrain.cells (Some h)))
            cells.items }
        ensures { IfOk result (λ g. g
            ≡ record self.now { terrain = record self.now.terrain { cells = cells.items } }) }
    {
        let sinks = Vec::from_slice(alloc, self.sinks())?;
        Ok(self.with_parts(cells, sinks))
    }

    fn with_parts(&self, cells: Vec<Cell>, sinks: Vec<Place>) -> Grid
        requires { IsLawful (raster_with_parts self.now cells.items sinks.items) }
        ensures { result ≡ raster_with_parts self.now cells.items sinks.items }
    {
        Grid::of_parts(self.header.copy(), self.scale, cells, sinks)
    }
}

impl Grid {
    ghost use Rattle.terrain.specs.Parts.{raster_with, raster_with_parts};

    fn of_parts(header: GridHeader, scale: u8, cells: Vec<Cell>, sinks: Vec<Place>) -> Self
        requires { IsLawful (raster_with header scale cells.items sinks.items) }
        ensures { result ≡ raster_with header scale cells.items sinks.items }
    {
        let frame = Frame {
            header,
            scale,
            sinks,
            cells: Snapshot::of(&cells),
        };
        Grid { frame, cells }
    }

    /// Makes a grid of these parts, without sinks. `cells` is in row order.
    ///
    /// # Examples
    ///
    /// ```ignore
    /// // `header` has 3 columns and 3 rows, and `cells` is a `Vec` of 9 cells
    /// let grid = Grid::from_parts(rt.alloc(), header, 0, cells);
    /// let height = grid.at(Place { row: 1, col: 2 });
    /// ```
    pub fn from_parts(alloc: Global, header: GridHeader, scale: u8, cells: Vec<Cell>) -> Self
        requires { IsLawful (raster_with header scale cells.items []) }
        ensures { result ≡ raster_with header scale cells.items [] }
    {
        Grid::of_parts(header, scale, cells, Vec::new(alloc))
    }

    /// Returns the grid's header, scale and sinks as a [`Frame`].
    pub fn frame(&self) -> &Frame
        ensures value { result.now ≡ self.now }
        ensures lawful { IsLawful self.now }
    {
        &self.frame
    }

    /// Turns the grid into its [`Frame`] and frees the cells.
    pub fn into_frame(self) -> Frame
        ensures { result ≡ self }
    {
        let Grid { frame, .. } = self;
        frame
    }

    /// The number of columns, from 1 to [`LONGEST_AXIS`].
    pub fn cols(&self) -> u32
        ensures value { result ≡ self.now.terrain.cols }
        ensures lawful { IsLawful self.now }
    {
        self.frame.cols()
    }

    /// The number of rows, from 1 to [`LONGEST_AXIS`].
    pub fn rows(&self) -> u32
        ensures value { result ≡ self.now.terrain.rows }
        ensures lawful { IsLawful self.now }
    {
        self.frame.rows()
    }

    /// The number of decimals of the heights: one unit is 10^-scale.
    pub fn scale(&self) -> u8
        ensures value { result ≡ self.now.scale }
        ensures lawful { IsLawful self.now }
    {
        self.frame.scale()
    }

    /// The cells in row order.
    pub fn cells(&self) -> &[Cell]
        ensures value { result.now ≡ self.now.terrain.cells }
        ensures lawful { IsLawful self.now }
    {
        &self.cells
    }

    /// The named sinks, each once, in the order of first naming.
    pub fn sinks(&self) -> &[Place]
        ensures value { result.now ≡ self.now.terrain.sinks }
        ensures lawful { IsLawful self.now }
    {
        self.frame.sinks()
    }

    /// Returns the height at `place`, or `None` if the cell has no data.
    pub fn at(&self, place: Place) -> Option<Height>
        requires { IsInside self.now.terrain place }
        ensures { result ≡ height_at self.now.terrain place }
    {
        self.cells()[place.index_in(self.cols())].height()
    }

    /// Returns whether the cell at `place` is an end cell: an edge cell or a named sink.
    /// May search the whole list of sinks.
    pub fn is_edge(&self, place: Place) -> bool
        requires { IsInside self.now.terrain place }
        ensures { IsTrue result ↔ IsEnd self.now.terrain place }
    {
        self.at(place).is_some() && (self.has_gap_around(place) || is_one_of(self.sinks(), place))
    }

    /// Returns whether `place`, or a place around it, is outside the grid or has no data.
    fn has_gap_around(&self, place: Place) -> bool
        requires { IsInside self.now.terrain place }
        ensures { IsTrue result ↔ HasGapAround self.now.terrain place }
    {
        let cols = self.cols();
        let rows = self.rows();
        if place.row == 0 || place.col == 0 || place.row + 1 == rows || place.col + 1 == cols {
            return true;
        }
        for row in place.row - 1..place.row + 2 {
            for col in place.col - 1..place.col + 2 {
                if self.at(Place { row, col }).is_none() {
                    return true;
                }
            }
        }
        false
    }

    /// Returns a copy of the grid with a copy of `cells` in place of its own cells.
    /// `cells` must have one cell for each place, each without data or with a height that some cell
    /// of the grid has. So each height is in range and differs from the NODATA value.
    ///
    /// # Errors
    ///
    /// [`NoMemory`] if an allocation fails.
    pub fn with_cells(&self, alloc: Global, cells: &[Cell]) -> Result<Grid, NoMemory>
        requires size { length cells.now ≡ self.now.terrain.cols * self.now.terrain.rows }
        requires heights { All (λ c. IfSome c (λ h. Contains self.now.terrain.cells (Some h)))
            cells.now }
        ensures { IfOk result (λ g. g
            ≡ record self.now { terrain = record self.now.terrain { cells = cells.now } }) }
    {
        self.frame.with_cells(alloc, Vec::from_slice(alloc, cells)?)
    }

    /// Returns each of `sinks` once, or else their first fault or [`SinkFault::Memory`].
    fn checked_sinks(&self, alloc: Global, sinks: &[Place]) -> Result<Vec<Place>, SinkFault>
        ensures named { IfOk result (λ v. v.items ≡ each_once sinks.now) }
        ensures sound { OnOk result (sinks_fault self.now.terrain sinks.now ≡ None) }
        ensures fault { RefusesSinks (sinks_fault self.now.terrain sinks.now) result }
    {
        if let Some(fault) = sinks_fault(self, sinks) {
            return Err(fault);
        }
        Ok(each_once(alloc, sinks)?)
    }

    /// Returns a copy of the grid with `sinks`, each once, in place of its own sinks.
    ///
    /// # Errors
    ///
    /// [`SinkFault::TooManySinks`] for more than [`MOST_SINKS`](crate::MOST_SINKS) entries; else
    /// [`SinkFault::Outside`] or [`SinkFault::OnNodata`] for the first sink outside the grid or
    /// without data. Without such a fault, [`SinkFault::Memory`] if an allocation fails.
    ///
    /// # Examples
    ///
    /// ```ignore
    /// let grid = grid.with_sinks(rt.alloc(), &[Place { row: 1, col: 1 }])?;
    /// ```
    pub fn with_sinks(&self, alloc: Global, sinks: &[Place]) -> Result<Grid, SinkFault>
        ensures grid { IfOk result (λ g. g ≡ raster_with_sinks self.now sinks.now) }
        ensures fault { RefusesSinks (sinks_fault self.now.terrain sinks.now) result }
    {
        let sinks = self.checked_sinks(alloc, sinks)?;
        let cells = Vec::from_slice(alloc, self.cells())?;
        Ok(self.frame.with_parts(cells, sinks))
    }

    /// Replaces the grid's sinks by `sinks`, each once, without a copy of the cells.
    /// An error drops the grid.
    ///
    /// # Errors
    ///
    /// [`SinkFault::TooManySinks`] for more than [`MOST_SINKS`](crate::MOST_SINKS) entries; else
    /// [`SinkFault::Outside`] or [`SinkFault::OnNodata`] for the first sink outside the grid or
    /// without data. Without such a fault, [`SinkFault::Memory`] if an allocation fails.
    pub fn name_sinks(self, alloc: Global, sinks: &[Place]) -> Result<Grid, SinkFault>
        ensures grid { IfOk result (λ g. g ≡ raster_with_sinks self sinks.now) }
        ensures fault { RefusesSinks (sinks_fault self.terrain sinks.now) result }
    {
        let named = self.checked_sinks(alloc, sinks)?;
        let Grid { frame, cells } = self;
        Ok(frame.with_parts(cells, named))
    }
}
