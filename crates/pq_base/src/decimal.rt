//! Whole units of a decimal scale, read from text and written as text.
ghost use Rattle.std.specs.Prelude.{◌≡◌, ◌≢◌, ◌∷◌, ℕ, ◌+◌, ◌-◌, ◌*◌, ◌^◌, ◌<◌, ◌≤◌, ◌≤ℤ◌, ◌↔◌, ◌++◌, List, [], length, take, drop, min, Bool, IsTrue, IfOk, OnOk, MatchOption, replicate, All};
ghost use Rattle.std.specs.Str.Parse.{AllDigits, digits_value_after};
ghost use Rattle.std.specs.String.{string_bytes};
ghost use Rattle.std.specs.Fmt.{decimal};
ghost use Rattle.std.specs.Int.RustNames.{unsigned_abs};
ghost use Rattle.pq_base.specs.Decimal.{Parts, Spells, Reads, OneReading, HasSign, BeginsWithDigit, PrintedIsSpelled, PrintedIsRead, units_of, signed, point_and, sign_text, padded, decimal_text};
ghost use Rattle.pq_base.specs.Spelling.{parts_of};

use std::alloc::{AllocError, Global};
use thiserror::Error;

/// Why a text or a number gives no units.
#[derive(Clone, Copy, Debug, PartialEq, Eq, Error)]
pub enum NumFault {
    /// The text spells no number.
    #[error("this is not a number")]
    NotANumber,
    /// A digit after the last place that the scale keeps isn't zero.
    #[error("the number has more places behind the point than are kept")]
    TooFine,
    /// The units are more than 1,000,000,000,000, with either sign.
    #[error("the number is out of range")]
    OutOfRange,
}

/// The greatest magnitude of the units that a reader gives.
pub(crate) const MOST_UNITS: u64 = 1_000_000_000_000;

/// The parts of a number's text, borrowed from it.
#[derive(Clone, Copy)]
struct Spelling<'a> {
    minus: bool,
    whole: &'a [u8],
    fraction: &'a [u8],
}

/// The sign before a number, and what comes after it.
fn split_sign(text: &[u8]) -> (bool, &[u8])
    ensures sign { HasSign result.0 text.now result.1.now }
    ensures one { (minus : Bool) (number : List ℕ) → HasSign minus text.now number
        → BeginsWithDigit number → (minus ≡ result.0) × (number ≡ result.1.now) }
{
    match text {
        [b'-', number @ ..] => (true, number),
        [b'+', number @ ..] => (false, number),
        _ => (false, text),
    }
}

/// The digits at the beginning of a text, and what comes after them.
pub fn split_digits(text: &[u8]) -> (&[u8], &[u8])
    ensures whole { text.now ≡ result.0.now ++ result.1.now }
    ensures digits { AllDigits 10 result.0.now }
    ensures all { ¬ BeginsWithDigit result.1.now }
{
    for (at, byte) in text.iter().enumerate() {
        if !byte.is_ascii_digit() {
            return text.split_at(at);
        }
    }
    text.split_at(text.len())
}

/// What comes after the point at the beginning of a text, if there is one.
fn strip_point(text: &[u8]) -> Option<&[u8]>
    ensures { MatchOption result ((places : List ℕ) → text.now ≢ 46 ∷ places)
        (λ places. text.now ≡ 46 ∷ places.now) }
{
    match text {
        [b'.', places @ ..] => Some(places),
        _ => None,
    }
}

/// The digits of the fraction, if the text is a point and digits, or nothing.
fn read_fraction(text: &[u8]) -> Option<&[u8]>
    ensures { MatchOption result
        ((digits : List ℕ) → AllDigits 10 digits → text.now ≢ point_and digits)
        (λ digits. AllDigits 10 digits.now × (text.now ≡ point_and digits.now)) }
{
    if text.is_empty() {
        return Some(text);
    }
    let Some(places) = strip_point(text) else {
        return None;
    };
    let (digits, rest) = split_digits(places);
    if digits.is_empty() {
        return None;
    }
    if !rest.is_empty() {
        return None;
    }
    Some(digits)
}

/// The parts that spell the text, if there are any.
fn read_parts(text: &[u8]) -> Option<Spelling<'_>>
    ensures { MatchOption result ((parts : Parts) → ¬ Spells text.now parts)
        (λ spelling. Spells text.now (parts_of spelling)) }
{
    let (minus, number) = split_sign(text);
    let (whole, behind) = split_digits(number);
    if whole.is_empty() {
        return None;
    }
    let Some(fraction) = read_fraction(behind) else {
        return None;
    };
    Some(Spelling {
        minus,
        whole,
        fraction,
    })
}

/// Appends digits to a number, which stops at one above the most units.
fn append_digits(start: u64, digits: &[u8]) -> u64
    requires start { start ≤ 10 ^ 12 + 1 }
    requires digits { AllDigits 10 digits.now }
    ensures { result ≡ min (digits_value_after 10 start digits.now) (10 ^ 12 + 1) }
{
    let mut number = start;
    for digit in digits {
        number = (number * 10 + u64::from(*digit - b'0')).min(MOST_UNITS + 1);
    }
    number
}

/// Multiplies a number by ten so many times, and stops at one above the most units.
pub(crate) fn times_tens(start: u64, tens: u8) -> u64
    requires { start ≤ 10 ^ 12 + 1 }
    ensures { result ≡ min (start * 10 ^ tens) (10 ^ 12 + 1) }
{
    let mut number = start;
    for _i in 0..tens {
        number = (number * 10).min(MOST_UNITS + 1);
    }
    number
}

/// Whether only zeros come after the scale's last place.
fn is_fine(fraction: &[u8], scale: u8) -> bool
    ensures { IsTrue result ↔ All (λ byte. byte ≡ 48) (drop scale fraction.now) }
{
    let kept = usize::from(scale).min(fraction.len());
    fraction[kept..].iter().all(|byte| *byte == b'0')
}

/// The number in units of the scale, which stops at one above the most units.
fn count_units(spelling: &Spelling, scale: u8) -> u64
    requires whole { AllDigits 10 spelling.now.whole.now }
    requires fraction { AllDigits 10 spelling.now.fraction.now }
    ensures { result ≡ min (units_of scale (parts_of spelling.now)) (10 ^ 12 + 1) }
{
    let kept = usize::from(scale).min(spelling.fraction.len());
    let number = append_digits(0, spelling.whole);
    let number = append_digits(number, &spelling.fraction[..kept]);
    times_tens(number, scale - kept as u8)
}

/// A magnitude within the range with a sign.
pub(crate) fn with_sign(minus: bool, magnitude: u64) -> i64
    requires { magnitude ≤ 10 ^ 12 }
    ensures { result ≡ signed minus magnitude }
{
    let value = magnitude as i64;
    if minus { -value } else { value }
}

/// Reads a number in whole units of `10^-scale`: a sign `+` or `-` or none, at least one digit,
/// and perhaps a point with at least one digit after it. The first fault in the order of
/// `NumFault` is told.
pub fn read_decimal(text: &str, scale: u8) -> Result<i64, NumFault>
    ensures { Reads text.now scale result }
{
    let Some(spelling) = read_parts(text.as_bytes()) else {
        return Err(NumFault::NotANumber);
    };
    if !is_fine(spelling.fraction, scale) {
        return Err(NumFault::TooFine);
    }
    let magnitude = count_units(&spelling, scale);
    if magnitude > MOST_UNITS {
        return Err(NumFault::OutOfRange);
    }
    Ok(with_sign(spelling.minus, magnitude))
}

/// A text is spelled by at most one list of parts, so each refusal of `read_decimal` comes just
/// where it is said.
pub fn one_reading()
    ensures { OneReading }
{}

/// Writes the minus of a negative number.
fn push_sign(text: &mut String, minus: bool) -> Result<(), AllocError>
    ensures { OnOk result (string_bytes text.new ≡ string_bytes text.old ++ sign_text minus) }
{
    if minus {
        text.push('-')?;
    }
    Ok(())
}

/// Writes so many zeros.
fn push_zeros(text: &mut String, count: usize) -> Result<(), AllocError>
    ensures { OnOk result (string_bytes text.new ≡ string_bytes text.old ++ replicate count 48) }
{
    for _i in 0..count {
        text.push('0')?;
    }
    Ok(())
}

/// Writes digits with a point before the last `scale` of them.
fn push_pointed(text: &mut String, digits: &str, scale: u8) -> Result<(), AllocError>
    requires ascii { All (λ byte. byte < 128) digits.now }
    requires enough { scale < length digits.now }
    ensures { OnOk result (string_bytes text.new ≡ string_bytes text.old
        ++ (take (length digits.now - scale) digits.now
        ++ point_and (drop (length digits.now - scale) digits.now))) }
{
    let (whole, fraction) = digits.split_at(digits.len() - usize::from(scale));
    text.push_str(whole)?;
    if fraction.is_empty() {
        return Ok(());
    }
    text.push('.')?;
    text.push_str(fraction)?;
    Ok(())
}

/// The digits of a magnitude, with zeros before them so that there are more than `scale`.
fn padded_digits(alloc: Global, magnitude: u128, scale: u8) -> Result<String, AllocError>
    ensures text { IfOk result (λ text. string_bytes text ≡ padded scale (decimal magnitude)) }
    ensures ascii { IfOk result (λ text. All (λ byte. byte < 128) (string_bytes text)) }
{
    let digits = magnitude.to_string(alloc)?;
    let mut text = String::new(alloc);
    push_zeros(
        &mut text,
        (usize::from(scale) + 1).saturating_sub(digits.len()),
    )?;
    text.push_str(&digits)?;
    Ok(text)
}

/// Prints so many units of `10^-scale`: the sign `-` of a negative number, the whole part with no
/// zero before another digit, and for a scale above 0 a point and just `scale` digits.
pub fn print_decimal(alloc: Global, value: i128, scale: u8) -> Result<String, AllocError>
    ensures { IfOk result (λ text. string_bytes text ≡ decimal_text value scale) }
{
    let digits = padded_digits(alloc, value.unsigned_abs(), scale)?;
    let mut text = String::new(alloc);
    push_sign(&mut text, value < 0)?;
    push_pointed(&mut text, &digits, scale)?;
    Ok(text)
}

/// A printed number is spelled by parts with its sign, just as many places as the scale and its
/// magnitude as units, and within the range a reader gives the number back.
pub fn printed_is_read()
    ensures spelled { PrintedIsSpelled }
    ensures read { PrintedIsRead }
{}

#[cfg(test)]
mod tests;
