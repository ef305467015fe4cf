//! A cell of a grid: a height or no data, in 8 bytes.
//!
//! Contracts see a cell as an option. [`Cell::of`] makes a cell of a height, and [`Cell::height`]
//! returns the option.
ghost use Rattle.std.specs.Prelude.{◌≡◌, ◌↔◌, ◌≤ℤ◌, IsTrue, None, Some, unwrap_or};
ghost use Rattle.terrain.specs.Raster.{highest};
ghost use Rattle.terrain.specs.StoredCells.{stored_cell, no_data};

use crate::place::Height;
use std::marker::Model;

/// The stored number of a cell without data; above [`HIGHEST`](crate::HIGHEST).
pub const NO_DATA: Height = Height::MAX;

/// A height or no data, in 8 bytes; an `Option<Height>` takes 16.
#[derive(Clone, Copy, Debug, PartialEq, Eq)]
pub struct Cell {
    stored: Height,
}

impl Model for Cell {
    ghost use Rattle.std.specs.Prelude.{ℤ, Option, unwrap_or};
    ghost use Rattle.terrain.specs.StoredCells.{stored_cell, no_data};
    ghost use Rattle.std.specs.Ordering.{int_eq};
    ghost use Rattle.std.proofs.Common.{inl, inr, ap, sym, ◌∙◌};
    ghost use Rattle.std.proofs.lemmas.Bool.{cases_Bool, cond-true, cond-false};
    ghost use Rattle.std.proofs.lemmas.Bool.Decides.{Decides-int_eq};

    ghost Value = { Option ℤ };

    ghost view = { λ c. stored_cell c.stored };

    ghost inverse = { λ o. record { stored = unwrap_or o no_data } };

    ghost inverse_ok = { λ c _.
        ap (λ n. record { stored = n }) (elim (cases_Bool (int_eq c.stored no_data)) [
          | inl same ↦
              ap (λ o. unwrap_or o no_data) (cond-true _ _ _ same)
              ∙ sym ((Decides-int_eq c.stored no_data).0 same)
          | inr other ↦ ap (λ o. unwrap_or o no_data) (cond-false _ _ _ other)
        ]) };
}

impl Cell {
    /// Returns a cell of `height`, or without data if `height` is [`NO_DATA`].
    #[inline(always)]
    #[tactic(auto, using(crate::proofs::Stored::stored_some))]
    pub fn of(height: Height) -> Cell
        ensures stored { result ≡ stored_cell height }
        ensures height { height ≤ℤ highest → result ≡ Some height }
    {
        Cell { stored: height }
    }

    /// Returns a cell without data.
    #[inline(always)]
    pub fn no_data() -> Cell
        ensures { result ≡ None }
    {
        Cell { stored: NO_DATA }
    }

    /// Returns the height, or `None` if the cell has no data.
    #[inline(always)]
    pub fn height(self) -> Option<Height>
        ensures { result ≡ self }
    {
        if self.stored == NO_DATA {
            None
        } else {
            Some(self.stored)
        }
    }

    /// Returns the height, or [`NO_DATA`] if the cell has no data.
    #[inline(always)]
    pub fn number(self) -> Height
        ensures { result ≡ unwrap_or self no_data }
    {
        self.stored
    }

    /// Returns whether the heights are equal, or neither cell has data.
    #[inline(always)]
    #[tactic(auto, using(crate::proofs::Stored::stored_injective))]
    pub fn is_level_with(self, other: Cell) -> bool
        ensures { IsTrue result ↔ (self ≡ other) }
    {
        other.stored == self.stored
    }
}
