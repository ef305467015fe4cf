//! Parses digits, without sign or point, into whole numbers.
//!
//! [`whole_number`] returns a number below 2^32, [`size`] a number of columns or rows.
ghost use Rattle.std.specs.Prelude.{nat_lt, ◌≡◌, ◌≤◌, ℕ, ◌+◌, ◌*◌, ◌-◌, ◌^◌, ◌&&◌, min, fold, if◌then◌else◌, Some, None};
ghost use Rattle.std.specs.List.{list_all};
ghost use Rattle.std.specs.Char.{is_ascii_digit};
ghost use Rattle.terrain.specs.Decimal.{are_digits, number_of, is_size};

use terrain::LONGEST_AXIS;

/// One more than the greatest scaled value; it replaces all greater numbers.
pub(crate) const OVER: u64 = 1_000_000_000_000_000_001;

/// Returns the number below 2^32 that digits spell, else `None`.
pub fn whole_number(digits: &[u8]) -> Option<u32>
    ensures { result ≡ (if are_digits digits.now && nat_lt (number_of digits.now) (2 ^ 32)
        then Some (number_of digits.now) else None) }
{
    if !are_digits(digits) {
        return None;
    }
    u32::try_from(digits_after(0, digits)).ok()
}

/// Returns the number from 1 to [`LONGEST_AXIS`] that digits spell, else `None`.
pub fn size(word: &[u8]) -> Option<u16>
    ensures { result ≡ (if is_size word.now then Some (number_of word.now) else None) }
{
    let number = whole_number(word)?;
    if 1 <= number && number <= LONGEST_AXIS {
        Some(number as u16)
    } else {
        None
    }
}

pub(crate) fn are_digits(bytes: &[u8]) -> bool
    ensures { result ≡ are_digits bytes.now }
{
    !bytes.is_empty() && all_digits(bytes)
}

pub(crate) fn all_digits(bytes: &[u8]) -> bool
    ensures { result ≡ list_all is_ascii_digit bytes.now }
{
    bytes.iter().all(|b| b.is_ascii_digit())
}

/// Returns `number` with `digits` appended, but at most [`OVER`].
pub(crate) fn digits_after(number: u64, digits: &[u8]) -> u64
    requires { number ≤ OVER }
    ensures small { result ≤ OVER }
    ensures value { (n : ℕ) → number ≡ min n OVER →
        result ≡ min (fold (λ n b. 10 * n + (b - 48)) n digits.now) OVER }
{
    let mut value = number;
    for b in digits {
        // Callers pass digits alone; `saturating_sub` avoids a `requires` that says so.
        value = (10 * value + u64::from(b.saturating_sub(b'0'))).min(OVER);
    }
    value
}
