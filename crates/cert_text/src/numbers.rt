//! Numbers in a line.
ghost use Rattle.std.specs.Prelude.{◌≡◌, ◌∷◌, [], ◌++◌, ℕ, ◌+◌, ◌-◌, ◌/◌, ◌*◌, ◌^◌, ◌<◌, ◌≤◌, ◌↔◌, List, IsTrue, IfOk, MatchOption, length, slice_index};
ghost use Rattle.std.specs.Fmt.{decimal};
ghost use Rattle.std.specs.Str.Parse.{AllDigits, digits_value};
ghost use Rattle.cert_text.specs.Numbers.{IsWithin, CanBegin, IsNumber, Reaches};

use std::alloc::AllocError;

/// The least and the greatest of some numbers.
#[derive(Clone, Copy, Debug, PartialEq, Eq)]
pub(crate) struct Range {
    pub(crate) low: u64,
    pub(crate) high: u64,
}

/// How a text fits what may be written.
#[derive(Clone, Copy, Debug, PartialEq, Eq)]
pub(crate) enum Fit {
    /// It is this.
    Whole,
    /// This may begin so.
    Begun,
    /// It is nothing of this.
    Bad,
}

/// The greatest number of digits that are read.
const MOST_DIGITS: usize = 19;

/// The number that digits spell, so many of them that it is small.
fn value_of(digits: &[u8]) -> u64
    requires digits { AllDigits 10 digits.now }
    requires few { length digits.now ≤ 19 }
    ensures { result ≡ digits_value 10 digits.now }
{
    let mut number = 0;
    for digit in digits {
        number = number * 10 + u64::from(*digit - b'0');
    }
    number
}

/// Whether there are more digits than one, and the first one is zero.
fn has_leading_zero(digits: &[u8]) -> bool
    ensures { IsTrue result ↔ ((1 < length digits.now) × (slice_index digits.now 0 ≡ 48)) }
{
    digits.len() > 1 && digits[0] == b'0'
}

/// The number whose decimal form these digits are.
fn number_of(digits: &[u8]) -> Option<u64>
    requires { AllDigits 10 digits.now }
    ensures { MatchOption result
        ((number : ℕ) → number < 10 ^ 19 → digits.now ≡ decimal number → ⊥)
        (λ number. (digits.now ≡ decimal number) × (number < 10 ^ 19)) }
{
    if digits.is_empty() {
        return None;
    }
    if digits.len() > MOST_DIGITS {
        return None;
    }
    if has_leading_zero(digits) {
        return None;
    }
    Some(value_of(digits))
}

impl Range {
    /// Whether it holds a number.
    fn holds(self, number: u64) -> bool
        ensures { IsTrue result ↔ IsWithin self number }
    {
        self.low <= number && number <= self.high
    }

    /// The number of the range whose decimal form these digits are.
    pub(crate) fn number(self, digits: &[u8]) -> Option<u64>
        requires digits { AllDigits 10 digits.now }
        requires small { self.high < 10 ^ 19 }
        ensures { IsNumber self digits.now result }
    {
        let Some(number) = number_of(digits) else {
            return None;
        };
        if self.holds(number) {
            return Some(number);
        }
        None
    }

    /// Whether some number that has this one before its last digits, or is it, lies in the range.
    fn is_reached(self, number: u64) -> bool
        requires { 0 < number }
        ensures { IsTrue result ↔ Reaches number self.low self.high }
    {
        let (mut low, mut high) = (self.low, self.high);
        while number <= high {
            if low <= number {
                return true;
            }
            low /= 10;
            high /= 10;
        }
        false
    }

    /// Whether the decimal form of some number of the range begins with that of this one.
    fn begins_with(self, number: u64) -> bool
        requires small { self.high < 10 ^ 19 }
        requires some { self.low ≤ self.high }
        ensures { IsTrue result ↔ CanBegin self (decimal number) }
    {
        if number == 0 {
            return self.low == 0;
        }
        self.is_reached(number)
    }

    /// Whether the decimal form of some number of the range begins with these digits.
    pub(crate) fn can_begin(self, digits: &[u8]) -> bool
        requires digits { AllDigits 10 digits.now }
        requires small { self.high < 10 ^ 19 }
        requires some { self.low ≤ self.high }
        ensures { IsTrue result ↔ CanBegin self digits.now }
    {
        if digits.is_empty() {
            return true;
        }
        let Some(number) = number_of(digits) else {
            return false;
        };
        self.begins_with(number)
    }
}

/// Appends the decimal form of a number.
pub(crate) fn put_number(out: &mut Vec<u8>, number: u64) -> Result<(), AllocError>
    ensures { IfOk result (λ _. out.new.items ≡ out.old.items ++ decimal number) }
{
    if number < 10 {
        out.push(b'0' + number as u8)?;
        return Ok(());
    }
    put_number(out, number / 10)?;
    out.push(b'0' + (number % 10) as u8)?;
    Ok(())
}
