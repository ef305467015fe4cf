//! A rectangle of cells as a net, nodes with joins between neighbours: [`CellNet`].
//!
//! A border of cells without data gives each cell of the rectangle eight cells around it. A data
//! cell beside a cell without data is a source: paths end there. So the border makes all data cells
//! on the rim sources.
ghost use Rattle.std.specs.Prelude.{◌≡◌, None, ◌+◌, ◌-◌, ◌*◌, ◌^◌, ◌<◌, ◌≤◌, ◌∷◌, ◌↔◌, [], EachIndex, IsSome, IsTrue, length, All, IfOk, OnOk, is_none, slice_index_or, slice_range};
ghost use Rattle.std.specs.List.{list_any, filter_map, cons_option};
ghost use Rattle.std.specs.Bool.{OnTrue};
ghost use Rattle.floods.specs.Walk.{HasNoSource};
ghost use Rattle.terrain.specs.Sinks.{with_sinks};
ghost use Rattle.cell_floods.specs.Cells.{Cells, IsBordered, cell_at, cells_around, arc_to, whole, IsNetOf, IsCellJoin, source_of, HaveData, inner_rows};
ghost use Rattle.tiles.specs.Cutting.{bounds_of, terrain_of};

use crate::sinks::{is_sink, rectangle_sinks};
use floods::{Net, Spill};
use smallvec::SmallVec;
use std::alloc::{AllocError, Global};
use std::marker::Model;
use terrain::{Cell, Grid, Height, NoMemory, Place};
use tiles::{TileView, Tiling, Window};

/// A rectangle of cells as a net, with a border of cells without data.
/// Neighbouring data cells are joined at the greater of their heights. A data cell beside a cell
/// without data is a source, and so is a sink.
#[derive(Drop)]
pub struct CellNet {
    /// The number of cells in a row, its two border cells included.
    stride: u32,
    cells: Vec<Cell>,
    /// Whether each node is a sink; empty if none is.
    sinks: Vec<bool>,
}

impl Model for CellNet {
    ghost use Rattle.cell_floods.specs.Cells.{Cells, IsBordered};

    ghost Value = { Cells };

    ghost view = { λ n.
        record { stride = n.stride; cells = n.cells.items; sinks = n.sinks.items } };

    ghost invariant = { λ n. IsBordered
        (record { stride = n.stride; cells = n.cells.items; sinks = n.sinks.items }) };
}

/// The number of consecutive nodes, a run, that are tested together.
/// A run is skipped if the test shows that none of its nodes is a source.
const RUN: u32 = 16;

/// Returns the eight nodes around `node`, which is not on the border.
#[inline(always)]
fn around(stride: u32, node: u32) -> [u32; 8]
    requires above { stride < node }
    requires below { node + stride + 1 < 2 ^ 32 }
    ensures { result ≡ cells_around stride node }
{
    let above = node - stride;
    let below = node + stride;
    [
        above - 1,
        above,
        above + 1,
        node - 1,
        node + 1,
        below - 1,
        below,
        below + 1,
    ]
}

/// Returns whether a node has no data.
#[inline(always)]
fn is_gap(cells: &[Cell], node: u32) -> bool
    requires { node < length cells.now }
    ensures { result ≡ is_none (slice_index_or cells.now node None) }
{
    cells[node as usize].height().is_none()
}

#[inline(always)]
fn any_gap(cells: &[Cell], around: &[u32; 8]) -> bool
    requires { All (λ b. b < length cells.now) around.now }
    ensures { result ≡ list_any (λ b. is_none (slice_index_or cells.now b None)) around.now }
{
    let mut any = false;
    for node in around {
        // No branch: among holes it would be guessed wrong.
        any |= is_gap(cells, *node);
    }
    any
}

/// Returns the arc from a cell of this height to node `to`, if `to` has data.
/// An arc ([`Spill`]) is a join seen from one of its two nodes.
#[inline(always)]
fn arc_to(cells: &[Cell], height: Height, to: u32) -> Option<Spill>
    requires { to < length cells.now }
    ensures { result ≡ arc_to cells.now height to }
{
    let other = cells[to as usize].height()?;
    Some(Spill {
        to,
        height: other.max(height),
    })
}

/// Returns the arcs from a cell of this height to the nodes of `around` with data.
fn arcs_to(alloc: Global, cells: &[Cell], height: Height, around: [u32; 8]) -> SmallVec<Spill, 8>
    requires { All (λ b. b < length cells.now) around }
    ensures { result.items ≡ filter_map (arc_to cells.now height) around }
{
    let mut arcs = SmallVec::new(alloc);
    for to in around {
        if let Some(arc) = arc_to(cells, height, to) {
            arcs.push_reserved(arc);
        }
    }
    arcs
}

#[inline(always)]
pub(crate) fn have_data(cells: &[Cell]) -> bool
    ensures { IsTrue result ↔ EachIndex cells.now (λ k. IsSome (slice_index_or cells.now k None)) }
{
    let mut all = true;
    for cell in cells {
        // No branch: among holes it would be guessed wrong.
        all &= cell.height().is_some();
    }
    all
}

#[inline(always)]
fn have_data_from(cells: &[Cell], first: usize, count: usize) -> bool
    requires { first + count ≤ length cells.now }
    ensures { IsTrue result ↔ HaveData cells.now first (first + count) }
{
    have_data(&cells[first..first + count])
}

impl CellNet {
    /// Returns `true` only if none of the [`RUN`] nodes from `node` on is a source.
    /// Tests that the net has no sinks, and that these nodes and all around them have data.
    #[inline]
    fn is_run_with_data(&self, node: u32) -> bool
        ensures few { length self.now.cells < 2 ^ 32 }
        ensures inside { OnTrue result (node + RUN ≤ length self.now.cells) }
        ensures none { OnTrue result (HasNoSource (source_of self.now) node (node + RUN)) }
    {
        let first = node as usize;
        let stride = self.stride as usize;
        let count = RUN as usize + 2;
        self.sinks.is_empty()
            && stride < first
            && first + stride + count <= self.cells.len() + 1
            && have_data_from(&self.cells, first - stride - 1, count)
            && have_data_from(&self.cells, first - 1, count)
            && have_data_from(&self.cells, first + stride - 1, count)
    }
}

impl Net for CellNet {
    ghost use Rattle.std.specs.Prelude.{length};
    ghost use Rattle.std.proofs.Common.{inl, inr, ◌∙◌};
    ghost use Rattle.terrain.proofs.Options.{some_inside};
    ghost use Rattle.terrain.proofs.Orders.{max_comm};
    ghost use Rattle.cell_floods.specs.Cells.{IsCellJoin, source_of};

    ghost node_count = { λ n. length n.cells };

    ghost joins = { IsCellJoin };

    ghost source_height = { source_of };

    ghost joined_inside = { λ n a b h j. some_inside n.cells b j.to_height j.to_cell };

    ghost joined_back = { λ n a b h j. record {
      beside = elim j.beside [ inl after ↦ inr after | inr before ↦ inl before ];
      from_height = j.to_height;
      to_height = j.from_height;
      from_cell = j.to_cell;
      to_cell = j.from_cell;
      greater = max_comm j.from_height j.to_height ∙ j.greater;
    } };

    #[inline]
    fn nodes(&self) -> u32 {
        self.cells.len() as u32
    }

    #[inline]
    fn neighbours(&self, alloc: Global, node: u32) -> Result<SmallVec<Spill, 8>, NoMemory> {
        let Some(height) = self.cells[node as usize].height() else {
            return Ok(SmallVec::new(alloc));
        };
        Ok(arcs_to(alloc, &self.cells, height, around(self.stride, node)))
    }

    #[inline]
    fn source(&self, node: u32) -> Option<Height> {
        let height = self.cells[node as usize].height()?;
        if any_gap(&self.cells, &around(self.stride, node)) || is_sink(&self.sinks, node) {
            Some(height)
        } else {
            None
        }
    }
}

impl CellNet {
    /// Makes the net of a whole grid, with the grid's sinks.
    ///
    /// # Errors
    ///
    /// [`NoMemory`] if an allocation fails.
    ///
    /// # Examples
    ///
    /// ```ignore
    /// let net = CellNet::of_grid(alloc, &grid)?;
    /// let Flooded { level, label } = flood(alloc, &net)?;
    /// ```
    pub fn of_grid(alloc: Global, grid: &Grid) -> Result<CellNet, NoMemory>
        ensures { IfOk result (IsNetOf grid.now.terrain (whole grid.now.terrain)) }
    {
        let tiling = Tiling::of_one_tile(grid.cols(), grid.rows());
        CellNet::of_view(alloc, &tiling.view(grid.cells(), 0), grid.sinks())
    }

    /// Makes the net of a tile, with those of `sinks` that lie in the tile.
    ///
    /// # Errors
    ///
    /// [`NoMemory`] if an allocation fails.
    pub fn of_view(
        alloc: Global,
        view: &TileView<'_, Cell>,
        sinks: &[Place],
    ) -> Result<CellNet, NoMemory>
        ensures { IfOk result (IsNetOf (with_sinks (terrain_of view.now) sinks.now)
            (bounds_of view.now.cutting view.now.tile)) }
    {
        let Window { bounds, values } = Window::of_tile(alloc, view, Cell::no_data())?;
        let sinks = rectangle_sinks(alloc, bounds, sinks)?;
        Ok(CellNet {
            stride: bounds.cols + 2,
            cells: values,
            sinks,
        })
    }
}

impl CellNet {
    /// Returns the cells of all nodes.
    #[inline(always)]
    pub(crate) fn cells(&self) -> &[Cell]
        ensures value { result.now ≡ self.now.cells }
        ensures bordered { IsBordered self.now }
        ensures few { length result.now ≤ 16793604 }
    {
        &self.cells
    }

    /// Returns the eight nodes around a data cell.
    #[inline(always)]
    pub(crate) fn around(&self, node: u32) -> [u32; 8]
        requires { IsSome (cell_at self.now node) }
        ensures value { result ≡ cells_around self.now.stride node }
        ensures inside { All (λ b. b < length self.now.cells) result }
        ensures above { self.now.stride < node }
        ensures few { length self.now.cells ≤ 16793604 }
    {
        around(self.stride, node)
    }

    /// Returns the number of nodes in a row, its two border nodes included.
    #[inline(always)]
    pub(crate) fn stride(&self) -> u32 {
        self.stride
    }

    /// Returns a node from `from` on, or the node count.
    /// No node from `from` on and before the returned number is a source. Tests only runs that
    /// begin at a multiple of [`RUN`], so a cell without data makes few tests fail.
    pub(crate) fn next_candidate(&self, from: u32) -> u32
        requires { from ≤ length self.now.cells }
        ensures from { from ≤ result }
        ensures inside { result ≤ length self.now.cells }
        ensures passed { HasNoSource (source_of self.now) from result }
    {
        let mut node = from;
        while node % RUN == 0 && self.is_run_with_data(node) {
            node += RUN;
        }
        node
    }

    /// Frees the net but for the list of its sinks, and returns that list.
    pub(crate) fn into_sinks(self) -> Vec<bool>
        ensures { result.items ≡ self.sinks }
    {
        self.sinks
    }
}

/// Returns the entries of a row inside the border, of a list over a [`CellNet`]'s nodes.
/// `cols` and `rows` are the size of the rectangle without its border.
#[inline(always)]
pub(crate) fn inner_row<T>(list: &[T], cols: u32, rows: u32, row: u32) -> &[T]
    requires size { length list.now ≡ (rows + 2) * (cols + 2) }
    requires few_cols { cols ≤ 4096 }
    requires few_rows { rows ≤ 4096 }
    requires row { row < rows }
    ensures { result.now ≡ slice_range list.now ((row + 1) * (cols + 2) + 1)
        ((row + 1) * (cols + 2) + 1 + cols) }
{
    let width = cols as usize;
    let start = (row as usize + 1) * (width + 2) + 1;
    &list[start..start + width]
}

/// Returns a list over a [`CellNet`]'s nodes without the border's entries.
/// `cols` and `rows` are the size of the rectangle without its border.
pub(crate) fn without_border<T: Copy>(
    alloc: Global,
    list: &[T],
    cols: u32,
    rows: u32,
) -> Result<Vec<T>, AllocError>
    requires size { length list.now ≡ (rows + 2) * (cols + 2) }
    requires few_cols { cols ≤ 4096 }
    requires few_rows { rows ≤ 4096 }
    ensures { IfOk result (λ v. v.items ≡ inner_rows list.now cols rows) }
{
    let mut inner = Vec::with_capacity(alloc, rows as usize * cols as usize)?;
    for row in 0..rows {
        inner.extend_from_slice(inner_row(list, cols, rows, row))?;
    }
    Ok(inner)
}
