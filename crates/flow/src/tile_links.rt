//! The codes and links of a tile's cells, one byte each: [`TileLinks`].
//!
//! A cell's link is the index of the next cell downstream, or its own index if none is in the tile.
//! Its byte is a move: 64 times the rows down to that cell, plus the columns right, each plus 1,
//! plus 4 times the number of its code: the direction, 8 for an outlet, 9 for NODATA.
ghost use Rattle.std.specs.Prelude.{◌≡◌, ◌*◌, ◌≤◌, ◌<◌, ℕ, length, map, is_some, None, slice_index, slice_index_or, if◌then◌else◌, IfOk};
ghost use Rattle.terrain.specs.StoredCells.{uncounted};
ghost use Rattle.tiles.specs.Cutting.{IsInBounds, index_in};
ghost use Rattle.flow.specs.TileLinks.{AreInteriorMoves, AreMovesOf, IsInteriorMove, IsMove, EndsInLargestGrid, code_numbered, code_told, links_by, weights_by, where_data};

use crate::cells::next_of;
use crate::nodes::Links;
use drainage::Code;
use std::alloc::{AllocError, Global};
use std::marker::Model;
use terrain::{Count, Place};
use tiles::Bounds;

/// The number of an outlet's code.
const OUTLET: u8 = 8;

/// The number of NODATA.
const NO_DATA: u8 = 9;

/// The moves of interior cells by their codes' numbers: from E clockwise to NE, outlet, NODATA.
const INTERIOR_MOVES: [u8; 10] = [66, 134, 137, 140, 80, 20, 25, 30, 97, 101];

/// The move of a cell that is linked to itself, less what tells its code.
const STAY: u32 = 65;

/// The codes and links of a tile's cells, in the tile's row order.
#[derive(Drop)]
pub struct TileLinks {
    cols: u32,
    moves: Vec<u8>,
}

impl Model for TileLinks {
    ghost use Rattle.std.specs.Prelude.{map};
    ghost use Rattle.flow.specs.TileLinks.{AreMoves, LinkedCells, code_told, moved_by};

    ghost Value = { LinkedCells };

    ghost view = { λ l. record {
      codes = map code_told l.moves.items;
      links = moved_by l.cols l.moves.items;
    } };

    ghost invariant = { λ l. AreMoves l.cols l.moves.items };
}

impl Links for TileLinks {
    ghost list = { λ l. l.links };

    #[inline(always)]
    fn count(&self) -> usize {
        self.moves.len()
    }

    #[inline(always)]
    fn next(&self, node: usize) -> usize {
        let cols = self.cols as usize;
        let to = self.moves[node] as usize;
        node + to / 64 * cols + to % 4 - (cols + 1)
    }
}

impl TileLinks {
    /// Finds the links of a tile's cells by their codes.
    /// NODATA, an outlet, and a cell whose direction leaves the tile are linked to themselves.
    pub(crate) fn of_codes(
        alloc: Global,
        bounds: Bounds,
        cells: &[Option<Code>],
    ) -> Result<TileLinks, AllocError>
        requires small { EndsInLargestGrid bounds }
        requires some_row { 1 ≤ bounds.rows }
        requires size { length cells.now ≡ bounds.rows * bounds.cols }
        ensures codes { IfOk result (λ l. l.codes ≡ cells.now) }
        ensures links { IfOk result (λ l. l.links ≡ links_by bounds cells.now) }
    {
        let mut moves = vec![in alloc; 0; cells.len()]?;
        set_moves(&mut moves, bounds, cells);
        Ok(TileLinks {
            cols: bounds.cols,
            moves,
        })
    }

    /// Returns the code of the cell with this index.
    #[inline(always)]
    pub(crate) fn code(&self, index: usize) -> Option<Code>
        requires { index < length self.now.codes }
        ensures { result ≡ slice_index_or self.now.codes index None }
    {
        code_in(self.moves[index])
    }

    /// Returns whether the cell with this index has data.
    #[inline(always)]
    pub(crate) fn has_data(&self, index: usize) -> bool
        requires { index < length self.now.codes }
        ensures { result ≡ is_some (slice_index_or self.now.codes index None) }
    {
        has_data(self.moves[index])
    }

    /// Returns the moves of the tile's cells, as a slice that loops keep at hand.
    #[inline(always)]
    pub(crate) fn moves(&self) -> &[u8]
        ensures size { length result.now ≡ length self.now.codes }
        ensures tell { (i : ℕ) → i < length self.now.codes →
            slice_index_or self.now.codes i None ≡ code_told (slice_index result.now i) }
    {
        &self.moves
    }

    /// Returns each cell's weight: 1 for a data cell, 0 for NODATA.
    pub(crate) fn weights(&self, alloc: Global) -> Result<Vec<u32>, AllocError>
        ensures { IfOk result (λ v. v.items ≡ weights_by self.now.codes) }
    {
        let mut weights = vec![in alloc; 0; self.moves.len()]?;
        set_weights(&mut weights, &self.moves);
        Ok(weights)
    }
}

/// Returns the code that a move tells.
#[inline(always)]
fn code_in(cell: u8) -> Option<Code>
    ensures { result ≡ code_told cell }
{
    let number = cell / 4 % 16;
    if number == NO_DATA {
        return None;
    }
    if number < OUTLET {
        Some(Code::of_way(number as usize))
    } else {
        Some(Code::outlet())
    }
}

/// Returns whether a move is that of a cell with data.
#[inline(always)]
fn has_data(cell: u8) -> bool
    ensures { result ≡ is_some (code_told cell) }
{
    cell / 4 % 16 != NO_DATA
}

/// Returns `number` as the count of a cell with this move, or the `Count` of NODATA.
#[inline(always)]
pub(crate) fn count_where_data(cell: u8, number: u32) -> Count
    ensures { number < uncounted → result ≡ where_data (code_told cell) number }
{
    // Without a branch, loops over cells take eight at once.
    Count::of(none_without_data(cell).max(number))
}

/// Returns 0 for a move of a cell with data, the number stored for NODATA otherwise.
#[inline(always)]
fn none_without_data(cell: u8) -> u32
    ensures { result ≡ if is_some (code_told cell) then 0 else uncounted }
{
    if has_data(cell) { 0 } else { u32::MAX }
}

/// Returns 1 for a move of a cell with data, 0 otherwise.
#[inline(always)]
fn weight(cell: u8) -> u32
    ensures { result ≡ if is_some (code_told cell) then 1 else 0 }
{
    u32::from(has_data(cell))
}

/// Sets the weight of each cell.
fn set_weights(weights: &mut [u32], moves: &[u8])
    requires { length weights.old ≡ length moves.now }
    ensures { weights.new ≡ weights_by (map code_told moves.now) }
{
    for index in 0..weights.len() {
        weights[index] = weight(moves[index]);
    }
}

/// Sets the moves of a tile's cells. Directions of rim cells may leave the tile.
fn set_moves(moves: &mut [u8], bounds: Bounds, cells: &[Option<Code>])
    requires small { EndsInLargestGrid bounds }
    requires some_row { 1 ≤ bounds.rows }
    requires size { length cells.now ≡ bounds.rows * bounds.cols }
    requires moves { length moves.old ≡ length cells.now }
    ensures { AreMovesOf bounds cells.now moves.new }
{
    set_interior_moves(moves, cells);
    for side in 0..bounds.side_count() {
        let place = bounds.side_place(bounds, side);
        let index = bounds.index_of(place);
        moves[index] = rim_move(bounds, place, &cells[index]);
    }
}

/// Sets the move of each cell as if it were interior, which needs no place.
fn set_interior_moves(moves: &mut [u8], cells: &[Option<Code>])
    requires { length moves.old ≡ length cells.now }
    ensures { AreInteriorMoves cells.now moves.new }
{
    for index in 0..cells.len() {
        moves[index] = interior_move(cells[index]);
    }
}

/// Returns the move of an interior cell: all eight places around it lie in the tile.
#[inline(always)]
fn interior_move(code: Option<Code>) -> u8
    ensures { IsInteriorMove code result }
{
    INTERIOR_MOVES[number_of(code) as usize]
}

/// Returns the move of a cell on the rim.
#[inline(always)]
fn rim_move(bounds: Bounds, place: Place, code: &Option<Code>) -> u8
    requires small { EndsInLargestGrid bounds }
    requires inside { IsInBounds bounds place }
    ensures { IsMove bounds (index_in bounds place) code.now result }
{
    let next = next_of(*code, place);
    let number = u32::from(number_of(*code));
    if bounds.contains(next) {
        let down = next.row + 1 - place.row;
        let right = next.col + 1 - place.col;
        (64 * down + right + 4 * number) as u8
    } else {
        (STAY + 4 * number) as u8
    }
}

/// Returns the number of a code: its direction, 8 for an outlet, 9 for NODATA.
#[inline(always)]
fn number_of(code: Option<Code>) -> u8
    ensures few { result < 10 }
    ensures code { code_numbered result ≡ code }
{
    let Some(code) = code else {
        return NO_DATA;
    };
    if code.number() == 0 {
        return OUTLET;
    }
    match code.way() {
        Some(way) => way as u8,
        None => OUTLET,
    }
}
