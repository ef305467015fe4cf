//! Adds the text of one value of a map to a page (a buffer), and then the byte after the text.
ghost use Rattle.std.specs.Prelude.{◌≡◌, ◌+◌, ◌-◌, ◌/◌, ◌^◌, ◌≤◌, ◌∷◌, ◌++◌, [], ℕ, List, length, drop, decimal};
ghost use Rattle.ascii_grid.specs.Text.{last_digits, height_text};

use crate::page::{PAGE, Page};
use drainage::Code;
use terrain::Height;

/// Bytes enough for the text of any value and the byte `end` after the text.
const ROOM: usize = 32;

#[inline(always)]
fn write_last_digits(size: u64, count: usize, buffer: &mut [u8; ROOM]) -> u64
    requires { count ≤ 6 }
    ensures left { result ≡ size / 10 ^ count }
    ensures written { drop (ROOM - count) buffer.new ≡ last_digits count size }
{
    let mut left = size;
    for done in 0..count {
        buffer[ROOM - 1 - done] = b'0' + (left % 10) as u8;
        left /= 10;
    }
    left
}

/// The value of a map's cell: a height, a whole number or a direction code.
pub(crate) trait CellValue: Copy {
    /// The value's text at a scale.
    ghost text: { ℕ → Self → List ℕ };

    /// Adds the value's text to the page, then the byte `end`.
    fn push_to(self, scale: u8, end: u8, page: &mut Page)
        requires scale { scale ≤ 6 }
        requires room { length page.old + ROOM ≤ PAGE }
        ensures text { page.new ≡ page.old ++ text scale self ++ end ∷ [] }
        ensures short { length page.new ≤ length page.old + ROOM };
}

impl CellValue for Height {
    ghost text = { height_text };

    #[inline(always)]
    fn push_to(self, scale: u8, end: u8, page: &mut Page) {
        if self < 0 {
            page.push_byte(b'-');
        }
        let size = self.unsigned_abs();
        if scale == 0 {
            page.push_number(size, end);
            return;
        }
        let mut decimals = [0; ROOM];
        let whole = write_last_digits(size, scale as usize, &mut decimals);
        page.push_number(whole, b'.');
        page.push(&decimals[ROOM - scale as usize..]);
        page.push_byte(end);
    }
}

impl CellValue for u32 {
    ghost text = { λ _. decimal };

    #[inline(always)]
    fn push_to(self, _scale: u8, end: u8, page: &mut Page) {
        page.push_number(u64::from(self), end);
    }
}

impl CellValue for Code {
    ghost text = { λ _. decimal };

    #[inline(always)]
    fn push_to(self, scale: u8, end: u8, page: &mut Page) {
        u32::from(self.number()).push_to(scale, end, page);
    }
}
