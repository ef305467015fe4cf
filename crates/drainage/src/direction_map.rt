//! A map of directions: the code of each data cell of a grid.
ghost use Rattle.std.specs.Prelude.{◌≡◌};
ghost use Rattle.terrain.specs.Neighbours.{IsInside};
ghost use Rattle.drainage.specs.Drained.{IsDraining, directed_of};
ghost use Rattle.drainage.specs.Following.{code_at};

use crate::code::Code;
use crate::step_count::StepCount;
use std::marker::Model;
use std::snapshot::Snapshot;
use terrain::{Grid, Place};

/// The code of each data cell of a grid; ghosts hold filled heights and steps.
/// Each code but 0 leads to a lower cell, or to one as high with fewer steps.
#[derive(Drop)]
pub struct Directions {
    cols: u32,
    codes: Vec<Option<Code>>,
    grid: Snapshot<Grid>,
    steps: Snapshot<Vec<StepCount>>,
}

impl Model for Directions {
    ghost use Rattle.std.specs.Prelude.{◌≡◌};
    ghost use Rattle.drainage.specs.Drained.{Drained, IsDraining};

    ghost Value = { Drained };

    ghost view = { λ d. record {
      terrain = d.grid.value.terrain;
      steps = d.steps.value.items;
      codes = d.codes.items;
    } };

    ghost invariant = { λ d. (d.cols ≡ d.grid.value.terrain.cols)
        × IsDraining (record {
          terrain = d.grid.value.terrain;
          steps = d.steps.value.items;
          codes = d.codes.items;
        }) };
}

impl Directions {
    /// Makes a map of directions from the codes of a filled grid, in row order.
    /// `steps` is a ghost copy, so the caller may free the real list first.
    pub fn new(grid: &Grid, steps: Snapshot<Vec<StepCount>>, codes: Vec<Option<Code>>) -> Self
        requires { IsDraining (record {
          terrain = grid.now.terrain;
          steps = steps.value.items;
          codes = codes.items;
        }) }
        ensures { result ≡ record {
          terrain = grid.now.terrain;
          steps = steps.value.items;
          codes = codes.items;
        } }
    {
        Directions {
            cols: grid.cols(),
            codes,
            grid: Snapshot::of(grid),
            steps,
        }
    }

    /// Returns the code at `place`, or `None` if the cell has no data.
    #[inline(always)]
    pub fn code(&self, place: Place) -> Option<Code>
        requires { IsInside self.now.terrain place }
        ensures value { result ≡ code_at (directed_of self.now) place }
        ensures draining { IsDraining self.now }
    {
        self.codes[place.index_in(self.cols)]
    }

    /// Returns the codes of all cells, in row order.
    #[inline(always)]
    pub fn codes(&self) -> &[Option<Code>]
        ensures value { result.now ≡ self.now.codes }
        ensures draining { IsDraining self.now }
    {
        &self.codes
    }
}
