//! Numbers from the digits of a text.
ghost use Rattle.std.specs.Prelude.{◌≡◌, ◌^◌, ◌%◌, ◌<◌, ◌≤◌, ◌↔◌, IsTrue, min};
ghost use Rattle.std.specs.Str.{all_ascii_digits};
ghost use Rattle.std.specs.Str.Parse.{AllDigits, digits_value_after};
ghost use Rattle.pq_base.specs.Decimal.{signed};
ghost use Rattle.paql_grammar.specs.Numerals as numerals;

use pq_base::Scaled;

/// One more than the greatest magnitude that is stored.
const LIMIT: u128 = 1_000_000_000_000_000_000_000_000_000_000;

/// The most places after the point that are stored.
const MOST_PLACES: usize = 30;

/// The most digits of a whole number.
const MOST_WHOLE_DIGITS: usize = 18;

/// What comes before the first point, and what comes after it.
fn split_point(text: &[u8]) -> (&[u8], &[u8])
    ensures before { result.0.now ≡ numerals.before_point text.now }
    ensures behind { result.1.now ≡ numerals.behind_point text.now }
{
    for (at, byte) in text.iter().enumerate() {
        if *byte == b'.' {
            return (&text[..at], &text[at + 1..]);
        }
    }
    (text, &[])
}

/// The digits without the zeros at the end.
fn without_zeros(digits: &[u8]) -> &[u8]
    ensures { result.now ≡ numerals.without_zeros digits.now }
{
    let mut len = digits.len();
    while len > 0 {
        if digits[len - 1] != b'0' {
            return &digits[..len];
        }
        len -= 1;
    }
    &digits[..0]
}

fn is_digits(text: &[u8]) -> bool
    ensures { result ≡ all_ascii_digits text.now }
{
    let mut rest = text;
    while let [byte, behind @ ..] = rest {
        if !byte.is_ascii_digit() {
            return false;
        }
        rest = behind;
    }
    true
}

/// Appends digits to a number, which stops at the limit.
fn append_digits(start: u128, digits: &[u8]) -> u128
    requires start { start ≤ 10 ^ 30 }
    requires digits { AllDigits 10 digits.now }
    ensures { result ≡ min (digits_value_after 10 start digits.now) (10 ^ 30) }
{
    let mut number = start;
    for digit in digits {
        number = (number * 10 + u128::from(*digit - b'0')).min(LIMIT);
    }
    number
}

/// A magnitude with a sign.
fn with_sign(minus: bool, magnitude: u128) -> i128
    requires { magnitude ≤ 10 ^ 30 }
    ensures { result ≡ signed minus magnitude }
{
    let value = magnitude as i128;
    if minus { -value } else { value }
}

/// Whether the last digit after the point is a zero.
fn ends_with_zero(magnitude: u128, places: usize) -> bool
    ensures { IsTrue result ↔ ((0 < places) × (magnitude % 10 ≡ 0)) }
{
    places > 0 && magnitude % 10 == 0
}

/// The number with this magnitude and so many places, where it is in its shortest form.
fn scaled(minus: bool, magnitude: u128, places: usize) -> Option<Scaled>
    requires { magnitude ≤ 10 ^ 30 }
    ensures { result ≡ numerals.scaled (signed minus magnitude) places }
{
    if magnitude >= LIMIT {
        return None;
    }
    if places > MOST_PLACES {
        return None;
    }
    if ends_with_zero(magnitude, places) {
        return None;
    }
    Some(Scaled::new(with_sign(minus, magnitude), places as u8))
}

/// The number that a text is, below zero or not.
pub(crate) fn number_in(minus: bool, text: &[u8]) -> Option<Scaled>
    ensures { result ≡ numerals.number_in minus text.now }
{
    let (whole, behind) = split_point(text);
    let fraction = without_zeros(behind);
    if !is_digits(whole) {
        return None;
    }
    if !is_digits(fraction) {
        return None;
    }
    let magnitude = append_digits(append_digits(0, whole), fraction);
    scaled(minus, magnitude, fraction.len())
}

/// The whole number that a text is: at most 18 digits and no point.
pub(crate) fn whole_in(text: &[u8]) -> Option<u64>
    ensures { result ≡ numerals.whole_in text.now }
{
    if !is_digits(text) {
        return None;
    }
    if text.len() > MOST_WHOLE_DIGITS {
        return None;
    }
    Some(append_digits(0, text) as u64)
}
