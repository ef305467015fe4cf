//! Numbers the outlets of a list of codes from 1 in row order.
//!
//! They are counted before each group of 16 codes: a count for each code would take 4 bytes a cell.
ghost use Rattle.std.specs.Prelude.{◌≡◌, ◌-◌, ◌*◌, ◌^◌, ◌<◌, ◌≤◌, length, take, count_by, IfOk, if◌then◌else◌};
ghost use Rattle.flow.specs.Whole.{is_outlet_code};

use crate::end_numbers::EndNumbering;
use crate::tile_exits::is_outlet;
use drainage::Code;
use std::alloc::{AllocError, Global};
use std::marker::Model;

/// The number of codes in a group.
const GROUP: usize = 16;

/// The numbers of the outlets in a list of codes, kept as counts of those before each group.
#[derive(Drop)]
pub struct OutletNumbers<'a> {
    codes: &'a [Option<Code>],
    // the number of outlets before each group
    before: Vec<u32>,
}

impl<'a> Model for OutletNumbers<'a> {
    ghost use Rattle.std.specs.Prelude.{ℕ, List, Option};
    ghost use Rattle.flow.specs.Numbering.{AreGroupsCounted};

    ghost Value = { List (Option ℕ) };

    ghost view = { λ n. n.codes.now };

    ghost invariant = { λ n. AreGroupsCounted n.codes.now n.before.items };
}

impl<'a> OutletNumbers<'a> {
    /// Counts the outlets before each group of a list of codes.
    pub(crate) fn of_codes(
        alloc: Global,
        codes: &'a [Option<Code>],
    ) -> Result<OutletNumbers<'a>, AllocError>
        requires { length codes.now < 2 ^ 32 - 1 }
        ensures { IfOk result (λ n. n ≡ codes.now) }
    {
        let groups = codes.len().div_ceil(GROUP);
        let mut before = Vec::with_capacity(alloc, groups)?;
        let mut count = 0;
        for group in 0..groups {
            before.push(count)?;
            let from = group * GROUP;
            count = count_on(codes, from, codes.len().min(from + GROUP), count);
        }
        Ok(OutletNumbers { codes, before })
    }
}

impl<'a> EndNumbering for OutletNumbers<'a> {
    ghost use Rattle.flow.specs.Numbering.{outlet_numbers};

    ghost numbers = { λ n. outlet_numbers n };

    /// Returns 1 plus the number of outlets before `index`.
    fn number(&self, index: usize) -> u32 {
        let group = index / GROUP;
        1 + count_on(self.codes, group * GROUP, index, self.before[group])
    }
}

/// Returns how many outlets precede index `to`, if `before` precede index `from`.
#[inline(always)]
fn count_on(codes: &[Option<Code>], from: usize, to: usize, before: u32) -> u32
    requires few { length codes.now < 2 ^ 32 - 1 }
    requires order { from ≤ to }
    requires inside { to ≤ length codes.now }
    requires before { before ≡ count_by is_outlet_code (take from codes.now) }
    ensures value { result ≡ count_by is_outlet_code (take to codes.now) }
    ensures few { result < 2 ^ 32 - 1 }
{
    let mut count = before;
    for index in from..to {
        count += one_if_outlet(codes[index]);
    }
    count
}

#[inline(always)]
fn one_if_outlet(code: Option<Code>) -> u32
    ensures { result ≡ if is_outlet_code code then 1 else 0 }
{
    u32::from(is_outlet(code))
}
