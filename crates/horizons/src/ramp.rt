//! A ramp: the ground between two cells, as a straight line over directions of targets: [`Ramp`].
ghost use Rattle.std.specs.Prelude.{◌≡◌, ℤ, ◌^◌, ◌≤◌, false, unsigned_abs};
ghost use Rattle.horizons.specs.declared.target.Target.{Target};
ghost use Rattle.horizons.specs.Horizons.{IsTarget, IsRampAt, ramp_value, ramp_hides, is_ramp_above};

use crate::target::Target;

/// The integer type of rises, and of a ramp's `gain`, `intercept` and values.
pub type Value = i64;

/// The integer type of products with a [`Value`].
type Product = i128;

/// A straight line over the slope `s`: `(gain * s + intercept) / lines`.
/// The slope is a target's direction seen from above: cells aside per row or column outward. The
/// value is the ground's rise above the eye, in units per row or column outward. A caller may note
/// in `clear_to` up to which row or column outward no ground is above the ramp; 0 notes nothing.
#[derive(Clone, Copy, PartialEq)]
pub struct Ramp {
    pub gain: Value,
    pub intercept: Value,
    pub lines: u32,
    pub clear_to: u32,
}

impl Ramp {
    /// Returns a ramp that stands for no ground.
    /// It hides no target whose rise is within ±2^51.
    pub fn nothing() -> Self
        ensures below { (t : Target) (rise : ℤ) → IsTarget t → unsigned_abs rise ≤ 2 ^ 51 →
            ramp_hides result t rise ≡ false }
        ensures at { (t : Target) → IsTarget t → IsRampAt result t }
        ensures clear { result.clear_to ≡ 0 }
    {
        Ramp {
            gain: 0,
            intercept: -(1 << 51),
            lines: 1,
            clear_to: 0,
        }
    }

    /// Returns the ramp with another `clear_to`.
    #[inline(always)]
    pub fn cleared_to(self, line: u32) -> Self
        ensures { result ≡ record self { clear_to = line } }
    {
        Ramp {
            gain: self.gain,
            intercept: self.intercept,
            lines: self.lines,
            clear_to: line,
        }
    }

    /// Returns the value at a target's slope, times the target's `line` and the ramp's `lines`.
    #[inline(always)]
    pub(crate) fn value_at(self, target: Target) -> Value
        requires target { IsTarget target }
        requires at { IsRampAt self target }
        ensures { result ≡ ramp_value self target }
    {
        let gained = Product::from(self.gain) * Product::from(target.offset);
        let based = Product::from(self.intercept) * Product::from(target.line);
        (gained + based) as Value
    }

    /// Returns whether the ramp is above another at a target's slope.
    #[inline(always)]
    pub(crate) fn is_above(self, other: Ramp, target: Target) -> bool
        requires target { IsTarget target }
        requires at { IsRampAt self target }
        requires other { IsRampAt other target }
        ensures { result ≡ is_ramp_above self other target }
    {
        Product::from(self.value_at(target)) * Product::from(other.lines)
            > Product::from(other.value_at(target)) * Product::from(self.lines)
    }

    /// Returns whether the ramp hides a target that is `rise` above the eye.
    #[inline(always)]
    pub fn hides(self, target: Target, rise: Value) -> bool
        requires target { IsTarget target }
        requires at { IsRampAt self target }
        ensures { result ≡ ramp_hides self target rise }
    {
        Product::from(self.value_at(target)) > Product::from(rise) * Product::from(self.lines)
    }
}
