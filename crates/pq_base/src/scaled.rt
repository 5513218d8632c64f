//! Decimal numbers as an integer and the place of the point in it.
ghost use Rattle.std.specs.Prelude.{◌≡◌, ◌≢◌, ◌*◌, ◌+◌, ◌/◌, ◌%◌, ◌^◌, ◌<◌, ◌≤◌, ◌*ℤ◌, pos, min};
ghost use Rattle.std.specs.Int.RustNames.{unsigned_abs};
ghost use Rattle.pq_base.specs.Decimal.{is_negative, signed};
ghost use Rattle.pq_base.specs.Scaled.{IsSameNumber, GivesUnits};

use crate::decimal::{MOST_UNITS, NumFault, times_tens, with_sign};

/// The number `mant * 10^-scale`, in its shortest form.
#[derive(Clone, Copy, Debug, PartialEq, Eq)]
pub struct Scaled {
    /// All digits, with the sign.
    pub mant: i128,
    /// How many of the digits come after the point.
    pub scale: u8,
    pub ghost small: { unsigned_abs mant < 10 ^ 30 },
    pub ghost shallow: { scale ≤ 30 },
    pub ghost shortest: { 0 < scale → unsigned_abs mant % 10 ≢ 0 },
}

impl Scaled {
    /// The number with these digits, of which the last isn't a zero after the point.
    pub fn new(mant: i128, scale: u8) -> Self
        requires small { unsigned_abs mant < 10 ^ 30 }
        requires shallow { scale ≤ 30 }
        requires shortest { 0 < scale → unsigned_abs mant % 10 ≢ 0 }
        ensures digits { result.mant ≡ mant }
        ensures places { result.scale ≡ scale }
    {
        Scaled { mant, scale }
    }

    /// The number with these digits, whose zeros at the end after the point are left out.
    pub fn of(mant: i128, scale: u8) -> Self
        requires small { unsigned_abs mant < 10 ^ 30 }
        requires shallow { scale ≤ 30 }
        ensures { IsSameNumber mant scale result.mant result.scale }
    {
        let (magnitude, places) = without_zeros(mant.unsigned_abs(), scale);
        Scaled {
            mant: with_sign_of(mant, magnitude),
            scale: places,
        }
    }

    /// The number in whole units of `10^-scale`: too fine if it is no whole number of them, and
    /// else out of range if it is more than 1,000,000,000,000 of them with either sign.
    pub fn units(&self, scale: u8) -> Result<i64, NumFault>
        ensures { GivesUnits self.now.mant self.now.scale scale result }
    {
        if scale < self.scale {
            return Err(NumFault::TooFine);
        }
        let magnitude = times_tens(capped_magnitude(self.mant), scale - self.scale);
        if magnitude > MOST_UNITS {
            return Err(NumFault::OutOfRange);
        }
        Ok(units_with_sign_of(self.mant, magnitude))
    }
}

/// The number with so many digits after the point, without the zeros at the end.
fn without_zeros(magnitude: u128, scale: u8) -> (u128, u8)
    ensures same { result.0 * 10 ^ scale ≡ magnitude * 10 ^ result.1 }
    ensures smaller { result.0 ≤ magnitude }
    ensures fewer { result.1 ≤ scale }
    ensures shortest { 0 < result.1 → result.0 % 10 ≢ 0 }
{
    let mut rest = magnitude;
    let mut places = scale;
    while places > 0 {
        if rest % 10 != 0 {
            return (rest, places);
        }
        rest /= 10;
        places -= 1;
    }
    (rest, places)
}

/// A magnitude with the sign of a number.
fn with_sign_of(number: i128, magnitude: u128) -> i128
    requires { magnitude < 10 ^ 30 }
    ensures { result ≡ signed (is_negative number) magnitude }
{
    let value = magnitude as i128;
    if number < 0 { -value } else { value }
}

/// The magnitude of units within the range with the sign of a number.
fn units_with_sign_of(number: i128, magnitude: u64) -> i64
    requires { magnitude ≤ 10 ^ 12 }
    ensures { result ≡ signed (is_negative number) magnitude }
{
    with_sign(number < 0, magnitude)
}

/// The magnitude of a number, or one above the most units if it is more.
fn capped_magnitude(number: i128) -> u64
    ensures { result ≡ min (unsigned_abs number) (10 ^ 12 + 1) }
{
    number.unsigned_abs().min(u128::from(MOST_UNITS) + 1) as u64
}

#[cfg(test)]
mod tests;
