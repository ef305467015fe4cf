//! A count or none, in 4 bytes: an entry of a map of whole numbers, or a number of steps.
//!
//! Contracts see an option. [`OptionalCount::of`] stores a number, and [`OptionalCount::value`]
//! returns the option.
ghost use Rattle.std.specs.Prelude.{◌≡◌, ◌<◌, ◌≤◌, None, Some, unwrap_or};
ghost use Rattle.terrain.specs.StoredCells.{stored_count};

use std::marker::Model;

/// The number stored for a cell without data; above every count that a map has.
const UNCOUNTED: u32 = u32::MAX;

/// A cell's count in a map, or no data, in 4 bytes.
pub type Count = OptionalCount<UNCOUNTED>;

/// A number below `NONE`, or none, stored as `NONE`. Takes 4 bytes; an `Option<u32>` takes 8.
#[derive(Clone, Copy, Debug, PartialEq, Eq)]
pub struct OptionalCount<const NONE: u32> {
    number: u32,
}

impl<const NONE: u32> Model for OptionalCount<NONE> {
    ghost use Rattle.std.specs.Prelude.{ℕ, Option, ◌≤◌, unwrap_or};
    ghost use Rattle.std.proofs.Common.{inl, inr, ap, ◌∙◌};
    ghost use Rattle.std.proofs.Math.Nat.{le_antisymm};
    ghost use Rattle.std.proofs.lemmas.Bool.{cases_lt, cond-true, cond-false, lt-ltb, le-ltb};
    ghost use Rattle.terrain.specs.StoredCells.{stored_count};

    ghost Value = { Option ℕ };

    ghost view = { λ s. stored_count NONE s.number };

    ghost invariant = { λ s. s.number ≤ NONE };

    ghost inverse = { λ o. record { number = unwrap_or o NONE } };

    ghost inverse_ok = { λ s few.
        ap (λ n. record { number = n }) (elim (cases_lt s.number NONE) [
          | inl less ↦ ap (λ o. unwrap_or o NONE) (cond-true _ _ _ (lt-ltb _ _ less))
          | inr more ↦
              ap (λ o. unwrap_or o NONE) (cond-false _ _ _ (le-ltb _ _ more))
              ∙ le_antisymm more few
        ]) };
}

impl<const NONE: u32> OptionalCount<NONE> {
    /// Returns the count `number`, or none if that is `NONE` or more.
    #[inline(always)]
    #[tactic(auto, using(crate::proofs::Stored::stored_count_some))]
    pub fn of(number: u32) -> Self
        ensures stored { result ≡ stored_count NONE number }
        ensures number { number < NONE → result ≡ Some number }
    {
        OptionalCount {
            number: number.min(NONE),
        }
    }

    /// Returns a stored count without a number.
    #[inline(always)]
    pub fn none() -> Self
        ensures { result ≡ None }
    {
        OptionalCount { number: NONE }
    }

    /// Returns the count, or `None` if there is none.
    #[inline(always)]
    pub fn value(&self) -> Option<u32>
        ensures { result ≡ self.now }
    {
        if self.number < NONE {
            Some(self.number)
        } else {
            None
        }
    }

    /// Returns the count, or `NONE` if there is none.
    #[inline(always)]
    pub fn number(&self) -> u32
        ensures value { result ≡ unwrap_or self.now NONE }
        ensures few { result ≤ NONE }
    {
        self.number
    }
}
