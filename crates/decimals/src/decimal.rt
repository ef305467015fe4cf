//! Tests for decimal texts, as `-12.5`, and parses them into whole numbers of units of 10^-scale.
//!
//! [`scaled_value`] parses a word, [`plain_number`] an optional `-` and digits at a text's front.
ghost use Rattle.std.specs.Prelude.{◌<◌, true, length, ◌≡◌, IfSome, pos, neg_ℤ, ◌≤◌, not, ℕ, ◌+◌, ◌*◌, ◌-◌, ◌^◌, ◌++◌, ◌&&◌, ◌==◌, nat_le, take, drop, replicate, min, fold, if◌then◌else◌, Option, Some, None};
ghost use Rattle.std.specs.List.{before_first, after_first, position, list_all, list_any};
ghost use Rattle.std.specs.Char.{is_ascii_digit};
ghost use Rattle.terrain.specs.Decimal.{without_sign, is_negative, is_point, is_exponent_mark, has_exponent, are_digits, is_decimal, is_above_zero, number_of, scaled_value};
ghost use Rattle.decimals.specs.Plain.{IsPlain, IsPlainSize};

use crate::digits::{OVER, all_digits, are_digits, digits_after};

/// The most digits of a height in units; 10^15 has this many.
const HEIGHT_DIGITS: usize = 16;

/// Returns whether a word is a decimal text, as `-12.5` or `3E2`.
///
/// A decimal text has an optional sign, one or more digits with at most one point, and an optional
/// exponent.
pub fn is_decimal(word: &[u8]) -> bool
    ensures { result ≡ is_decimal word.now }
{
    let (mantissa, _) = split_at_exponent(without_sign(word));
    let (whole, fraction) = split_at_point(mantissa);
    let (_, exponent) = split_at_exponent(word);
    are_digits_in_all(whole, fraction)
        && (!has_exponent(word) || are_digits(without_sign(exponent)))
}

/// Returns whether a decimal text is above 0: no `-` in front, and a mantissa other than 0.
pub fn is_above_zero(word: &[u8]) -> bool
    ensures { result ≡ is_above_zero word.now }
{
    let (mantissa, _) = split_at_exponent(without_sign(word));
    let (whole, fraction) = split_at_point(mantissa);
    !is_negative(word) && (has_other_than_zero(whole) || has_other_than_zero(fraction))
}

/// Returns the value of a decimal text in units of 10^-scale.
///
/// `None` if the word is no decimal text or has an exponent. `None` too if, after the point, a
/// digit later than the first `scale` is not 0, or if the result is not from -10^18 to 10^18.
///
/// # Examples
///
/// ```ignore
/// assert_eq!(scaled_value(2, b"-0.5"), Some(-50));
/// assert_eq!(scaled_value(0, b"4.000"), Some(4));
/// assert_eq!(scaled_value(0, b"4.5"), None);
/// ```
pub fn scaled_value(scale: u8, word: &[u8]) -> Option<i64>
    ensures { result ≡ scaled_value scale word.now }
{
    if has_exponent(word) {
        return None;
    }
    let (whole, fraction) = split_at_point(without_sign(word));
    if !are_digits_in_all(whole, fraction) {
        return None;
    }
    let size = scaled_size(scale, whole, fraction)?;
    Some(signed(is_negative(word), size))
}

/// Parses up to 16 digits at the front of a text, after an optional `-`.
///
/// Returns the number of bytes parsed, the `-` included, and their value times 10^scale. The word
/// may go on after these bytes, after `-9999` also with a digit. `None` if there is no digit, or if
/// the number of parsed digits and the scale add up to more than 16.
#[inline(always)]
pub fn plain_number(scale: u8, bytes: &[u8]) -> Option<(usize, i64)>
    requires { scale ≤ 6 }
    ensures { IfSome result (λ r. IsPlain scale bytes.now r.0 r.1) }
{
    if is_negative(bytes) {
        let (len, size) = size_after_minus(scale, &bytes[1..])?;
        return Some((len + 1, signed(true, size)));
    }
    let (len, size) = plain_size(scale, bytes)?;
    Some((len, signed(false, size)))
}

/// Parses digits as [`plain_size`], but `9999` at once, since `-9999` mostly means NODATA.
#[inline(always)]
fn size_after_minus(scale: u8, bytes: &[u8]) -> Option<(usize, u64)>
    requires { scale ≤ 6 }
    ensures { IfSome result (λ r. IsPlainSize scale bytes.now r.0 r.1) }
{
    if bytes.starts_with(b"9999") {
        return Some((4, 9_999 * power_of_ten(scale)));
    }
    plain_size(scale, bytes)
}

#[inline(always)]
#[tactic(auto, using(crate::proofs::Scaled::padded_small))]
fn plain_size(scale: u8, bytes: &[u8]) -> Option<(usize, u64)>
    requires { scale ≤ 6 }
    ensures { IfSome result (λ r. IsPlainSize scale bytes.now r.0 r.1) }
{
    let (len, number) = leading_digits(bytes);
    if len == 0 || len + scale as usize > HEIGHT_DIGITS {
        return None;
    }
    Some((len, number * power_of_ten(scale)))
}

/// Parses up to 16 digits at the front of a text. Returns their count and their number.
#[inline(always)]
fn leading_digits(bytes: &[u8]) -> (usize, u64)
    ensures within { (result.0 ≤ HEIGHT_DIGITS) × (result.0 ≤ length bytes.now) }
    ensures digits { list_all is_ascii_digit (take result.0 bytes.now) ≡ true }
    ensures number { result.1 ≡ number_of (take result.0 bytes.now) }
    ensures small { result.1 < 10 ^ result.0 }
{
    let most = bytes.len().min(HEIGHT_DIGITS);
    let mut number = 0;
    for at in 0..most {
        if !bytes[at].is_ascii_digit() {
            return (at, number);
        }
        number = 10 * number + u64::from(bytes[at] - b'0');
    }
    (most, number)
}

#[inline(always)]
fn power_of_ten(scale: u8) -> u64
    requires { scale ≤ 6 }
    ensures power { result ≡ 10 ^ scale }
    ensures small { result ≤ 1000000 }
{
    match scale {
        0 => 1,
        1 => 10,
        2 => 100,
        3 => 1_000,
        4 => 10_000,
        5 => 100_000,
        _ => 1_000_000,
    }
}

fn without_sign(word: &[u8]) -> &[u8]
    ensures { result.now ≡ without_sign word.now }
{
    match word {
        [b'+' | b'-', rest @ ..] => rest,
        _ => word,
    }
}

#[inline(always)]
fn is_negative(word: &[u8]) -> bool
    ensures { result ≡ is_negative word.now }
{
    matches!(word, [b'-', ..])
}

fn is_exponent_mark(b: u8) -> bool
    ensures { result ≡ is_exponent_mark b }
{
    b == b'e' || b == b'E'
}

fn has_exponent(word: &[u8]) -> bool
    ensures { result ≡ has_exponent word.now }
{
    word.iter().any(|b| is_exponent_mark(*b))
}

fn split_at_exponent(word: &[u8]) -> (&[u8], &[u8])
    ensures before { result.0.now ≡ before_first is_exponent_mark word.now }
    ensures after { result.1.now ≡ after_first is_exponent_mark word.now }
{
    match exponent_at(word) {
        Some(at) => (&word[..at], &word[at + 1..]),
        None => (word, &word[word.len()..]),
    }
}

fn exponent_at(word: &[u8]) -> Option<usize>
    ensures { result ≡ position is_exponent_mark word.now }
{
    word.iter().position(|b| is_exponent_mark(*b))
}

fn split_at_point(word: &[u8]) -> (&[u8], &[u8])
    ensures before { result.0.now ≡ before_first is_point word.now }
    ensures after { result.1.now ≡ after_first is_point word.now }
{
    match point_at(word) {
        Some(at) => (&word[..at], &word[at + 1..]),
        None => (word, &word[word.len()..]),
    }
}

fn point_at(word: &[u8]) -> Option<usize>
    ensures { result ≡ position is_point word.now }
{
    word.iter().position(|b| *b == b'.')
}

#[tactic(auto, using(crate::proofs::Scaled::are_digits_joined))]
fn are_digits_in_all(whole: &[u8], fraction: &[u8]) -> bool
    ensures { result ≡ are_digits (whole.now ++ fraction.now) }
{
    if whole.is_empty() {
        are_digits(fraction)
    } else {
        all_digits(whole) && all_digits(fraction)
    }
}

fn only_zeros(bytes: &[u8]) -> bool
    ensures { result ≡ list_all (λ b. b == 48) bytes.now }
{
    bytes.iter().all(|b| *b == b'0')
}

fn has_other_than_zero(bytes: &[u8]) -> bool
    ensures { result ≡ list_any (λ b. not (b == 48)) bytes.now }
{
    bytes.iter().any(|b| *b != b'0')
}

/// Returns `whole.fraction` times 10^scale, if the product is whole and at most 10^18.
fn scaled_size(scale: u8, whole: &[u8], fraction: &[u8]) -> Option<u64>
    ensures small { IfSome result (λ size. size ≤ 10 ^ 18) }
    ensures value { result ≡ (if list_all (λ b. b == 48) (drop scale fraction.now)
        && nat_le (number_of (whole.now ++ take scale (fraction.now ++ replicate scale 48)))
        (10 ^ 18)
        then Some (number_of (whole.now ++ take scale (fraction.now ++ replicate scale 48)))
        else None) }
{
    let kept = usize::from(scale).min(fraction.len());
    if !only_zeros(&fraction[kept..]) {
        return None;
    }
    let number = digits_after(digits_after(0, whole), &fraction[..kept]);
    let size = zeros_after(number, usize::from(scale) - kept);
    (size < OVER).then_some(size)
}

#[inline(always)]
fn signed(negative: bool, size: u64) -> i64
    requires { size ≤ 10 ^ 18 }
    ensures { result ≡ (if negative then neg_ℤ (pos size) else pos size) }
{
    let value = size as i64;
    if negative { -value } else { value }
}

/// Returns `number` with `zeros` digits 0 appended, but at most [`OVER`].
fn zeros_after(number: u64, zeros: usize) -> u64
    requires { number ≤ OVER }
    ensures small { result ≤ OVER }
    ensures value { (n : ℕ) → number ≡ min n OVER →
        result ≡ min (fold (λ n b. 10 * n + (b - 48)) n (replicate zeros 48)) OVER }
{
    let mut value = number;
    for _ in 0..zeros {
        value = (10 * value).min(OVER);
    }
    value
}
