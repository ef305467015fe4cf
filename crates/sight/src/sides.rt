//! Sweeps a tile: clears the flags of cells whose line of sight a crossing blocks.
//!
//! Crossings come in four families: those with the columns east or west of the observer, and with
//! the rows south or north. These columns or rows are a family's lines. The sweep takes one family
//! after the other.
ghost use Rattle.std.specs.Prelude.{◌≡◌, ℕ, ◌+◌, ◌*◌, ◌<◌, ◌≤◌, true, length, OnOk};
ghost use Rattle.terrain.specs.Neighbours.{IsInside};
ghost use Rattle.terrain.specs.declared.place.Place.{Place};
ghost use Rattle.tiles.specs.Cutting.{AreBounds, IsCutting};
ghost use Rattle.sightlines.specs.Sight.{highest_eye, is_open, place_of};
ghost use Rattle.sightlines.specs.Walk.{AreHeights, IsElevation};
ghost use Rattle.sight.specs.Hiding.{IsApart};
ghost use Rattle.sight.specs.Sides.{AreOpen, IsTileAxis, columns_at, rows_at, eye_of, facing, family_of, extent_of};
ghost use Rattle.sight.specs.LineBlocks.{AreLineTops};
ghost use Rattle.sight.specs.Flags.{AreLeft};

use crate::extent::{CellRun, Extent};
use crate::family::{Family, Lines, Side};
use crate::heights::height_at;
use crate::hiding::hide;
use crate::line_blocks::LineBlocks;
use crate::ranks::SweepFault;
use crate::tile::ViewshedInput;
use sightlines::{NEAR_BLOCK, blocks_in, elevation};
use std::alloc::Global;
use terrain::{Cell, Observer, Place};
use tiles::Bounds;

impl Family {
    /// Returns the family with its lines west or north of the observer.
    /// The lines are still columns, or still rows.
    pub(crate) fn reverse(self) -> Self
        ensures { result ≡ facing self true }
    {
        Family {
            lines: Lines {
                at: self.lines.at,
                stride: self.lines.stride,
                back: true,
            },
            side: self.side,
            eye: self.eye,
        }
    }
}

/// An axis of the grid, its columns or its rows, with the observer and a tile on it.
/// The observer is at `at`; the run `tile` has the tile's cells. Neighbouring cells along the axis
/// are `stride` apart in the list of cells.
#[derive(Clone, Copy)]
pub struct TileAxis {
    pub at: u32,
    pub stride: usize,
    pub tile: CellRun,
}

/// Returns the family whose lines are east or south of the observer.
/// Its lines are counted along the axis `lines`, and run along the axis `side`.
pub(crate) fn family_of(lines: TileAxis, side: TileAxis, eye: i64) -> Family
    requires side { IsTileAxis side }
    ensures { result ≡ family_of lines side eye }
{
    Family {
        lines: Lines {
            at: lines.at,
            stride: lines.stride,
            back: false,
        },
        side: Side {
            at: side.at,
            stride: side.stride,
            first: side.at.min(side.tile.first),
            cells: (side.at + 1).max(side.tile.first + side.tile.cells),
        },
        eye,
    }
}

/// Both axes of the grid with an observer and a tile on them, and the elevation of the eye.
/// `column_blocks` are for families of columns, `row_blocks` for those of rows.
#[derive(Clone, Copy)]
pub struct TileAxes {
    pub columns: TileAxis,
    pub rows: TileAxis,
    pub column_blocks: LineBlocks,
    pub row_blocks: LineBlocks,
    pub eye: i64,
}

/// Clears the flags of cells that lines on either side of the observer hide.
/// The lines of both families are counted along the axis `lines`, and run along the axis `side`.
fn hide_on_both_sides(
    alloc: Global,
    cells: &[Cell],
    tops: &[Cell],
    blocks: LineBlocks,
    lines: TileAxis,
    side: TileAxis,
    eye: i64,
    height: u32,
    flags: &mut [bool],
) -> Result<(), SweepFault>
    requires heights { AreHeights cells.now }
    requires tops { AreLineTops cells.now (family_of lines side eye) tops.now blocks }
    requires lines { IsTileAxis lines }
    requires side { IsTileAxis side }
    requires eye { IsElevation eye }
    requires inside { (x y : ℕ) → x < lines.tile.cells → y < side.tile.cells
        → x * lines.tile.stride + y * side.tile.stride < length flags.old }
    requires apart { IsApart (extent_of lines side) }
    requires height { height ≤ highest_eye }
    ensures { OnOk result
        (AreOpen cells.now (family_of lines side eye) (extent_of lines side) height flags.old
        flags.new) }
{
    let family = family_of(lines, side, eye);
    let extent = Extent {
        lines: lines.tile,
        side: side.tile,
    };
    hide(alloc, cells, tops, blocks, family, extent, height, flags)?;
    hide(
        alloc,
        cells,
        tops,
        blocks,
        family.reverse(),
        extent,
        height,
        flags,
    )
}

impl<'a> ViewshedInput<'a> {
    /// Returns the axes of the grid with an observer and a tile on them.
    pub(crate) fn axes(&self, observer: &Observer, bounds: Bounds) -> TileAxes
        requires lawful { IsCutting self.now.tiling.now }
        requires inside { AreBounds self.now.tiling.now bounds }
        requires observer { IsInside self.now.grid.now.terrain (place_of observer.now) }
        requires eye { observer.now.eye ≤ highest_eye }
        ensures columns { result.columns ≡ columns_at bounds (place_of observer.now) }
        ensures rows { result.rows
            ≡ rows_at self.now.grid.now.terrain bounds (place_of observer.now) }
        ensures eye { result.eye ≡ eye_of self.now.grid.now.terrain observer.now }
        ensures elevation { IsElevation result.eye }
        ensures limits { IsTileAxis result.columns × IsTileAxis result.rows }
        ensures apart { IsApart (extent_of result.columns result.rows)
            × IsApart (extent_of result.rows result.columns) }
        ensures column_tops { AreLineTops self.now.grid.now.terrain.cells
            (family_of result.columns result.rows result.eye) self.now.tops.now.near.items
            result.column_blocks }
        ensures row_tops { AreLineTops self.now.grid.now.terrain.cells
            (family_of result.rows result.columns result.eye) self.now.tops.now.near.items
            result.row_blocks }
    {
        let cols = self.grid.cols();
        let stands = Place {
            row: observer.row,
            col: observer.col,
        };
        // no contract here asks for an observer on data: on NODATA the specs' `height_of` is 0 too
        let ground = height_at(self.grid.cells(), stands.index_in(cols));
        let blocks = blocks_in(NEAR_BLOCK, cols);
        TileAxes {
            columns: TileAxis {
                at: observer.col,
                stride: 1,
                tile: CellRun {
                    first: bounds.left,
                    cells: bounds.cols,
                    stride: 1,
                },
            },
            rows: TileAxis {
                at: observer.row,
                stride: cols as usize,
                tile: CellRun {
                    first: bounds.top,
                    cells: bounds.rows,
                    stride: bounds.cols as usize,
                },
            },
            column_blocks: LineBlocks {
                across: 1,
                along: blocks,
                end: cols,
            },
            row_blocks: LineBlocks {
                across: blocks,
                along: 1,
                end: self.grid.rows(),
            },
            eye: elevation(ground.unwrap_or(0), observer.eye),
        }
    }

    /// Clears the flags of places whose line of sight a crossing blocks.
    pub(crate) fn hide_blocked(
        &self,
        alloc: Global,
        observer: &Observer,
        bounds: Bounds,
        flags: &mut [bool],
    ) -> Result<(), SweepFault>
        requires lawful { IsCutting self.now.tiling.now }
        requires inside { AreBounds self.now.tiling.now bounds }
        requires observer { IsInside self.now.grid.now.terrain (place_of observer.now) }
        requires eye { observer.now.eye ≤ highest_eye }
        requires size { length flags.old ≡ bounds.rows * bounds.cols }
        ensures { OnOk result (AreLeft bounds
            (λ (p : Place). is_open self.now.grid.now.terrain observer.now p self.now.target_height)
            flags.old flags.new) }
    {
        let axes = self.axes(observer, bounds);
        let (columns, rows, eye) = (axes.columns, axes.rows, axes.eye);
        let cells = self.grid.cells();
        let tops = &self.tops.near;
        let height = self.target_height;
        hide_on_both_sides(
            alloc,
            cells,
            tops,
            axes.column_blocks,
            columns,
            rows,
            eye,
            height,
            flags,
        )?;
        hide_on_both_sides(
            alloc,
            cells,
            tops,
            axes.row_blocks,
            rows,
            columns,
            eye,
            height,
            flags,
        )
    }
}
