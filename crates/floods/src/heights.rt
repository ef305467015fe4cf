//! Lists of heights, some of them missing, in 9 bytes an entry.
ghost use Rattle.std.specs.Prelude.{◌≡◌, ◌↔◌, ◌<◌, ◌≤ℤ◌, ℤ, IsTrue, IfOk, None, Some, length, map, replicate, set, slice_index_or};
ghost use Rattle.floods.specs.Notes.{height_or_lack, lack};
ghost use Rattle.std.specs.Ordering.{int_eq};

use std::alloc::{AllocError, Global};
use std::marker::Model;
use terrain::Height;

/// The number stored for a missing height.
/// No number is greater, so [`HeightList::is_no_higher`] reads `greatest` only if its argument
/// `height` is this number.
const LACK: Height = Height::MAX;

/// A list of optional heights, in 9 bytes an entry. An `Option<Height>` takes 16.
#[derive(Drop)]
pub struct HeightList {
    /// A missing height is stored as [`LACK`].
    heights: Vec<Height>,
    /// Whether an entry of `heights` that equals [`LACK`] is a height. Read for such entries only.
    greatest: Vec<bool>,
    ghost size: { length greatest.items ≡ length heights.items },
}

impl Model for HeightList {
    ghost use Rattle.std.specs.Prelude.{ℤ, List, Option};
    ghost use Rattle.floods.specs.Notes.{heights_where};

    ghost Value = { List (Option ℤ) };

    ghost view = { λ l. heights_where l.greatest.items l.heights.items };
}

#[inline(always)]
fn is_lack(height: Height) -> bool
    ensures { result ≡ int_eq height lack }
{
    height == LACK
}

impl HeightList {
    pub(crate) fn all_none(alloc: Global, count: usize) -> Result<Self, AllocError>
        ensures { IfOk result (λ l. l ≡ replicate count None) }
    {
        let heights = vec![in alloc; LACK; count]?;
        let greatest = vec![in alloc; false; count]?;
        Ok(HeightList { heights, greatest })
    }

    #[inline(always)]
    pub(crate) fn len(&self) -> usize
        ensures { result ≡ length self.now }
    {
        self.heights.len()
    }

    /// Returns the height at `index`, or `None` if it is missing.
    #[inline(always)]
    pub fn at(&self, index: usize) -> Option<Height>
        requires { index < length self.now }
        ensures { result ≡ slice_index_or self.now index None }
    {
        let height = self.heights[index];
        if !is_lack(height) || self.greatest[index] {
            Some(height)
        } else {
            None
        }
    }

    /// Returns whether there is a height at `index`, and it is at most `height`.
    #[inline(always)]
    pub fn is_no_higher(&self, index: u32, height: Height) -> bool
        requires { index < length self.now }
        ensures { IsTrue result
            ↔ (h : ℤ) × (slice_index_or self.now index None ≡ Some h) × (h ≤ℤ height) }
    {
        let noted = self.heights[index as usize];
        noted <= height && (!is_lack(noted) || self.greatest[index as usize])
    }

    #[inline(always)]
    pub(crate) fn put(&mut self, index: u32, height: Height)
        requires { index < length self.old }
        ensures { self.new ≡ set self.old index (Some height) }
    {
        self.heights[index as usize] = height;
        if is_lack(height) {
            self.greatest[index as usize] = true;
        }
    }

    /// Returns the stored numbers: a missing height is `i64::MAX`.
    pub fn heights(&self) -> &[Height]
        ensures { result.now ≡ map height_or_lack self.now }
    {
        &self.heights
    }
}
