//! A byte buffer on the stack: a page of text for a device, or the front of a word.
ghost use Rattle.std.specs.Prelude.{◌≡◌, ◌↔◌, ◌+◌, ◌≤◌, ◌∷◌, ◌++◌, [], ℕ, List, length, take, IsTrue, ◌<◌, ◌-◌, ◌^◌, decimal};
ghost use Rattle.ascii_grid.specs.Device.{Writes};

use crate::counted::{Counted, WriteFailed};
use itoa::write_digits;
use std::io::Write;
use std::marker::Model;

/// How many bytes a page holds.
pub const PAGE: usize = 4096;

/// The most digits of a number that `push_number` adds.
const MOST_DIGITS: usize = 19;

/// A buffer of [`PAGE`] bytes, to write many short texts to a device at once.
pub type Page = Buffer<PAGE>;

/// At most `N` bytes on the stack. Contracts see a list of bytes.
#[derive(Drop)]
pub struct Buffer<const N: usize> {
    bytes: [u8; N],
    len: usize,
}

impl<const N: usize> Model for Buffer<N> {
    ghost Value = { List ℕ };

    ghost view = { λ p. take p.len p.bytes };

    ghost invariant = { λ p. p.len ≤ N };
}

impl<const N: usize> Buffer<N> {
    /// Returns an empty buffer.
    pub fn new() -> Self
        ensures { result ≡ [] }
    {
        Buffer {
            bytes: [0; N],
            len: 0,
        }
    }

    #[inline(always)]
    pub(crate) fn has_room(&self, count: usize) -> bool
        requires { count ≤ N }
        ensures { IsTrue result ↔ (length self.now + count ≤ N) }
    {
        self.len <= N - count
    }

    /// Adds bytes, which must fit.
    #[inline(always)]
    pub fn push(&mut self, bytes: &[u8])
        requires { length self.old + length bytes.now ≤ N }
        ensures { self.new ≡ self.old ++ bytes.now }
    {
        let end = self.len + bytes.len();
        let room = &mut self.bytes[..];
        room[self.len..end].copy_from_slice(bytes);
        self.len += bytes.len();
    }

    /// Adds a byte, which must fit.
    #[inline(always)]
    pub fn push_byte(&mut self, byte: u8)
        requires { length self.old + 1 ≤ N }
        ensures { self.new ≡ self.old ++ byte ∷ [] }
    {
        self.bytes[self.len] = byte;
        self.len += 1;
    }

    /// Adds a number's decimal digits, then the byte `after`; 20 bytes must fit.
    #[inline(always)]
    pub(crate) fn push_number(&mut self, number: u64, after: u8)
        requires small { number < 10 ^ 19 }
        requires room { length self.old + MOST_DIGITS < N }
        ensures digits { self.new ≡ self.old ++ decimal number ++ after ∷ [] }
        ensures short { length self.new ≤ length self.old + MOST_DIGITS + 1 }
    {
        let end = self.len + digit_count(number);
        write_digits(number, &mut self.bytes, end);
        self.bytes[end] = after;
        self.len = end + 1;
    }

    #[inline(always)]
    pub(crate) fn as_bytes(&self) -> &[u8]
        ensures { result.now ≡ self.now }
    {
        &self.bytes[..self.len]
    }

    /// Writes the bytes to a device and flushes it.
    ///
    /// # Errors
    ///
    /// [`WriteFailed`] if a write or the flush fails.
    pub fn write_to<W: Write>(&self, out: &mut Counted<W>) -> Result<(), WriteFailed>
        requires { out.old.failures < 2 ^ 64 - 1 }
        ensures { Writes W.contents out.old out.new self.now result }
    {
        out.write_all(self.as_bytes())?;
        out.flush()
    }

    #[inline(always)]
    pub(crate) fn clear(&mut self)
        ensures { self.new ≡ [] }
    {
        self.len = 0;
    }
}

#[inline(always)]
fn digit_count(number: u64) -> usize
    requires { number < 10 ^ 19 }
    ensures value { result ≡ length (decimal number) }
    ensures few { result ≤ MOST_DIGITS }
{
    let mut limit = 10;
    for count in 1..MOST_DIGITS {
        if number < limit {
            return count;
        }
        limit *= 10;
    }
    MOST_DIGITS
}
