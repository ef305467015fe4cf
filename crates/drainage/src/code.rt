//! A direction code: one of eight directions, or an outlet.
ghost use Rattle.std.specs.Prelude.{◌≡◌, ◌<◌, IfSome, Some};
ghost use Rattle.terrain.specs.Ways.{code_of, way_of};
ghost use Rattle.drainage.specs.CodeNumber.{IsCode};

use std::marker::Model;

/// A D8 code: E 1, SE 2, S 4, SW 8, W 16, NW 32, N 64, NE 128; an outlet has 0.
#[derive(Clone, Copy, Debug, PartialEq, Eq)]
pub struct Code {
    number: u8,
}

impl Model for Code {
    ghost use Rattle.std.specs.Prelude.{ℕ};
    ghost use Rattle.drainage.specs.CodeNumber.{IsCode};

    ghost Value = { ℕ };

    ghost view = { λ c. c.number };

    ghost invariant = { λ c. IsCode c.number };

    ghost inverse = { λ n. record { number = n } };
}

/// The codes of the eight directions, from E clockwise to NE.
const WAY_CODES: [u8; 8] = [1, 2, 4, 8, 16, 32, 64, 128];

impl Code {
    /// Returns the code of an outlet, 0.
    #[inline(always)]
    pub fn outlet() -> Code
        ensures { result ≡ 0 }
    {
        Code { number: 0 }
    }

    /// Returns the code of direction `way`, from 0 for E clockwise to 7 for NE.
    #[inline(always)]
    pub fn of_way(way: usize) -> Code
        requires { way < 8 }
        ensures { result ≡ code_of (Some way) }
    {
        Code {
            number: WAY_CODES[way],
        }
    }

    /// Returns the direction, 0 for E clockwise to 7 for NE; `None` for an outlet.
    #[inline(always)]
    pub fn way(&self) -> Option<usize>
        ensures value { result ≡ way_of self.now }
        ensures few { IfSome result (λ way. way < 8) }
    {
        if self.number == 0 {
            return None;
        }
        Some(self.number.trailing_zeros() as usize)
    }

    /// Returns the code as a number.
    #[inline(always)]
    pub fn number(&self) -> u8
        ensures value { result ≡ self.now }
        ensures lawful { IsCode self.now }
    {
        self.number
    }
}
