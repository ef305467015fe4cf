//! A copy of a tile's values and of a border around it: [`Window`].
//!
//! A spot is a place of a tile's window: the tile and a border of one cell around it.
ghost use Rattle.std.specs.Prelude.{◌≡◌, ℕ, ◌+◌, ◌*◌, ◌<◌, ◌≤◌, ◌↔◌, IsTrue, length, MatchOption, OnOk, IfOk, slice_index_or};
ghost use Rattle.terrain.specs.Neighbours.{entry_or};
ghost use Rattle.terrain.specs.Ways.{around_index};
ghost use Rattle.terrain.specs.declared.place.Place.{Place};
ghost use Rattle.tiles.specs.Cutting.{IsCutting, IsView, IsWithinLimits, AreBounds, bounds_of};
ghost use Rattle.tiles.specs.Windows.{area_of, spot_index, IsSpot, IsInner, IsOff, Shows, AreShown, IsSeen, AreSeenBelow, IsHeld, entry_inside};

use crate::bounds::Bounds;
use crate::view::TileView;
use std::alloc::{AllocError, Global};
use terrain::{Place, around_index};

/// The values of a tile and of a border of one cell around it, in row order.
/// With [`Window::of_view`] the border has the values around the tile, and `none` off the grid.
/// With [`Window::of_tile`] it has `none` alone. The places of the window are spots.
#[derive(Drop)]
pub struct Window<T> {
    pub bounds: Bounds,
    pub values: Vec<T>,
    ghost limits: { IsWithinLimits bounds },
    ghost size: { length values.items ≡ area_of bounds },
}

impl<T> Window<T> {
    /// Returns the row-order index of a spot.
    #[inline(always)]
    #[tactic(auto, using(crate::proofs::Spots::spot_below))]
    pub fn index(&self, spot: Place) -> usize
        requires { IsSpot self.now.bounds spot }
        ensures value { result ≡ spot_index self.now.bounds spot }
        ensures below { result < area_of self.now.bounds }
    {
        spot.index_in(self.bounds.cols + 2)
    }

    /// Returns the row-order indexes, in code order, of the eight spots around a spot of the tile.
    #[inline(always)]
    #[tactic(auto, using(crate::proofs::SpotWays::index_after_row))]
    pub fn around(&self, spot: Place) -> [usize; 8]
        requires { IsInner self.now.bounds spot }
        ensures value { result
            ≡ around_index (self.now.bounds.cols + 2) (spot_index self.now.bounds spot) }
        ensures below { (way : ℕ) → way < 8 →
            slice_index_or result way 0 < area_of self.now.bounds }
    {
        around_index(self.bounds.cols as usize + 2, self.index(spot))
    }

    /// Returns whether a spot lies in the tile itself.
    #[inline(always)]
    pub fn is_inner(&self, spot: Place) -> bool
        ensures { IsTrue result ↔ IsInner self.now.bounds spot }
    {
        1 <= spot.row
            && spot.row <= self.bounds.rows
            && 1 <= spot.col
            && spot.col <= self.bounds.cols
    }
}

impl<T: Copy + Drop> Window<T> {
    /// Copies the values of a view's tile and of the places around it; `none` off the grid.
    ///
    /// # Errors
    ///
    /// [`AllocError`] if an allocation fails.
    pub fn of_view(alloc: Global, view: &TileView<'_, T>, none: T) -> Result<Window<T>, AllocError>
        ensures lawful { IfOk result (λ _. IsView view.now) }
        ensures bounds { IfOk result
            (λ w. w.bounds ≡ bounds_of view.now.cutting view.now.tile) }
        ensures shown { IfOk result (λ w. AreShown
            (entry_or view.now.cutting.cols view.now.cutting.rows view.now.cells none) none
            w.bounds w.values.items) }
    {
        load(alloc, view, none, view.grid_bounds())
    }

    /// Copies the values of a view's tile alone; `none` at all places around the tile.
    ///
    /// # Errors
    ///
    /// [`AllocError`] if an allocation fails.
    pub fn of_tile(alloc: Global, view: &TileView<'_, T>, none: T) -> Result<Window<T>, AllocError>
        ensures lawful { IfOk result (λ _. IsView view.now) }
        ensures bounds { IfOk result
            (λ w. w.bounds ≡ bounds_of view.now.cutting view.now.tile) }
        ensures shown { IfOk result (λ w. AreShown
            (entry_inside w.bounds view.now.cutting.cols view.now.cells none) none
            w.bounds w.values.items) }
    {
        load(alloc, view, none, view.bounds())
    }
}

/// Returns the place at a spot, `None` if it lies north or west of the grid.
/// Any other spot south or east of the grid gets a place outside the grid.
#[inline(always)]
fn place_shown(bounds: Bounds, spot: Place) -> Option<Place>
    requires bounds { IsWithinLimits bounds }
    requires spot { IsSpot bounds spot }
    ensures { MatchOption result (IsOff bounds spot) (λ p. Shows bounds spot p) }
{
    let row = bounds.top + spot.row;
    let col = bounds.left + spot.col;
    if row == 0 || col == 0 {
        return None;
    }
    Some(Place {
        row: row - 1,
        col: col - 1,
    })
}

/// Returns the spot of a place, `None` if it lies outside the window.
pub fn spot_of(bounds: Bounds, place: Place) -> Option<Place>
    requires { IsWithinLimits bounds }
    ensures { MatchOption result ((s : Place) → IsSpot bounds s → Shows bounds s place → ⊥)
        (λ s. IsSpot bounds s × Shows bounds s place) }
{
    let Bounds {
        top,
        left,
        rows,
        cols,
    } = bounds;
    if place.row > top + rows || place.col > left + cols {
        return None;
    }
    let row = place.row + 1;
    let col = place.col + 1;
    if row < top || col < left {
        return None;
    }
    Some(Place {
        row: row - top,
        col: col - left,
    })
}

/// Returns a view's value at a spot, `none` where its place is not in `seen`.
#[inline(always)]
fn spot_value<T: Copy>(
    view: &TileView<'_, T>,
    none: T,
    seen: Bounds,
    bounds: Bounds,
    spot: Place,
) -> T
    requires bounds { bounds ≡ bounds_of view.now.cutting view.now.tile }
    requires inside { AreBounds view.now.cutting bounds }
    requires lawful { IsCutting view.now.cutting }
    requires seen { IsHeld view.now.cutting bounds seen }
    requires spot { IsSpot bounds spot }
    ensures { IsSeen view.now seen none bounds spot result }
{
    match place_shown(bounds, spot) {
        Some(place) if seen.contains(place) => view.at(place).copied().unwrap_or(none),
        _ => none,
    }
}

/// Appends the values of a window row north or south of the tile, spot by spot.
fn load_row_beside<T: Copy + Drop>(
    view: &TileView<'_, T>,
    none: T,
    seen: Bounds,
    bounds: Bounds,
    row: u32,
    list: &mut Vec<T>,
) -> Result<(), AllocError>
    requires bounds { bounds ≡ bounds_of view.now.cutting view.now.tile }
    requires inside { AreBounds view.now.cutting bounds }
    requires lawful { IsCutting view.now.cutting }
    requires seen { IsHeld view.now.cutting bounds seen }
    requires row { row < bounds.rows + 2 }
    requires old { AreSeenBelow view.now seen none bounds (row * (bounds.cols + 2)) list.old.items }
    ensures { OnOk result
        (AreSeenBelow view.now seen none bounds ((row + 1) * (bounds.cols + 2)) list.new.items) }
{
    for col in 0..bounds.cols + 2 {
        list.push(spot_value(view, none, seen, bounds, Place { row, col }))?;
    }
    Ok(())
}

/// Appends the values of a window row: first spot, row of the tile, last spot.
fn load_row_across<T: Copy + Drop>(
    view: &TileView<'_, T>,
    none: T,
    seen: Bounds,
    bounds: Bounds,
    row: u32,
    list: &mut Vec<T>,
) -> Result<(), AllocError>
    requires bounds { bounds ≡ bounds_of view.now.cutting view.now.tile }
    requires inside { AreBounds view.now.cutting bounds }
    requires lawful { IsCutting view.now.cutting }
    requires seen { IsHeld view.now.cutting bounds seen }
    requires row { (1 ≤ row) × (row ≤ bounds.rows) }
    requires old { AreSeenBelow view.now seen none bounds (row * (bounds.cols + 2)) list.old.items }
    ensures { OnOk result
        (AreSeenBelow view.now seen none bounds ((row + 1) * (bounds.cols + 2)) list.new.items) }
{
    let first = spot_value(view, none, seen, bounds, Place { row, col: 0 });
    let col = bounds.cols + 1;
    let last = spot_value(view, none, seen, bounds, Place { row, col });
    list.push(first)?;
    list.extend_from_slice(view.row(row - 1))?;
    list.push(last)?;
    Ok(())
}

/// Copies a view's values at all spots whose places lie in `seen`; `none` at other spots.
fn load<T: Copy + Drop>(
    alloc: Global,
    view: &TileView<'_, T>,
    none: T,
    seen: Bounds,
) -> Result<Window<T>, AllocError>
    requires { IsHeld view.now.cutting (bounds_of view.now.cutting view.now.tile) seen }
    ensures lawful { IfOk result (λ _. IsView view.now) }
    ensures bounds { IfOk result (λ w. w.bounds ≡ bounds_of view.now.cutting view.now.tile) }
    ensures shown { IfOk result (λ w. AreShown
        (entry_inside seen view.now.cutting.cols view.now.cells none) none w.bounds
        w.values.items) }
{
    let bounds = view.bounds();
    let mut values = Vec::with_capacity(
        alloc,
        (bounds.rows as usize + 2) * (bounds.cols as usize + 2),
    )?;
    load_row_beside(view, none, seen, bounds, 0, &mut values)?;
    for row in 1..bounds.rows + 1 {
        load_row_across(view, none, seen, bounds, row, &mut values)?;
    }
    load_row_beside(view, none, seen, bounds, bounds.rows + 1, &mut values)?;
    Ok(Window { bounds, values })
}
