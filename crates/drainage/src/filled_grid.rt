//! [`Filled`]: a grid in which the height of each data cell is its filled height.
ghost use Rattle.std.specs.Prelude.{◌≡◌};
ghost use Rattle.drainage.specs.Filled.{IsOwnFilled};

use std::marker::Model;
use terrain::Grid;

/// A filled grid: the height of each data cell is its filled height.
#[derive(Drop)]
pub struct Filled {
    grid: Grid,
}

impl Model for Filled {
    ghost use Rattle.terrain.specs.Raster.{Raster};
    ghost use Rattle.drainage.specs.Filled.{IsOwnFilled};

    ghost Value = { Raster };

    ghost view = { λ f. f.grid };

    ghost invariant = { λ f. IsOwnFilled f.grid };
}

impl Filled {
    /// Wraps a grid in which the height of each data cell is its filled height.
    pub fn from_grid(grid: Grid) -> Self
        requires { IsOwnFilled grid }
        ensures { result ≡ grid }
    {
        Filled { grid }
    }

    /// Returns the grid.
    pub fn grid(&self) -> &Grid
        ensures value { result.now ≡ self.now }
        ensures own { IsOwnFilled self.now }
    {
        &self.grid
    }

    /// Unwraps the grid.
    pub fn into_grid(self) -> Grid
        ensures { result ≡ self }
    {
        self.grid
    }
}
