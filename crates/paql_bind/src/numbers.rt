//! The numbers of queries.
ghost use Rattle.std.specs.Prelude.{◌≡◌, ◌-ℤ◌, ◌*◌, ◌^◌, ◌≤◌, []};
ghost use Rattle.std.specs.Int.RustNames.{unsigned_abs};
ghost use Rattle.paql_bind.specs.Faults.{Refuses};
ghost use Rattle.paql_bind.specs.Names.{number_faults};
ghost use Rattle.paql_bind.specs.Sums as sums;

use crate::faults::{BindFault, Refusal};
use crate::limits::{MAX_LITERAL_SCALE, MAX_LITERAL_UNITS};
use pq_base::Scaled;

/// Refuses a number that is too fine or out of range.
pub(crate) fn check_number(number: Scaled) -> Result<(), BindFault>
    ensures { Refuses (number_faults number) result }
{
    if number.scale > MAX_LITERAL_SCALE {
        return Err(BindFault::Refused(Refusal::TooFineLiteral));
    }
    if number.mant.unsigned_abs() > MAX_LITERAL_UNITS {
        return Err(BindFault::Refused(Refusal::LiteralRange));
    }
    Ok(())
}

fn tens(places: u8) -> u64
    requires { places ≤ 6 }
    ensures value { result ≡ 10 ^ places }
    ensures small { result ≤ 10 ^ 6 }
{
    10u64.pow(u32::from(places))
}

/// A number of units of `10^-places` in units of `10^-scale`, which are no coarser.
pub(crate) fn in_units(scale: u8, places: u8, number: i128) -> i128
    requires scale { scale ≤ 6 }
    requires number { unsigned_abs number ≤ 10 ^ 12 }
    ensures value { result ≡ sums.in_units scale places number }
    ensures small { unsigned_abs result ≤ unsigned_abs number * 10 ^ 6 }
{
    number * i128::from(tens(scale.saturating_sub(places)))
}

/// A number that isn't refused, in units of `10^-scale`, which are no coarser than its own.
pub(crate) fn scaled_units(scale: u8, number: Scaled) -> i128
    requires scale { scale ≤ 6 }
    requires good { number_faults number ≡ [] }
    ensures value { result ≡ sums.scaled_units scale number }
    ensures small { unsigned_abs result ≤ 10 ^ 18 }
{
    in_units(scale, number.scale, number.mant)
}

/// A number, or its negative with a minus.
pub(crate) fn with_sign(minus: bool, number: i128) -> i128
    requires { unsigned_abs number ≤ 10 ^ 30 }
    ensures value { result ≡ sums.with_sign minus number }
    ensures small { unsigned_abs result ≡ unsigned_abs number }
{
    if minus { -number } else { number }
}

/// The one number less the other.
pub(crate) fn difference(one: i128, other: i128) -> i128
    requires one { unsigned_abs one ≤ 2 ^ 64 * 10 ^ 18 }
    requires other { unsigned_abs other ≤ 2 ^ 64 * 10 ^ 18 }
    ensures { result ≡ one -ℤ other }
{
    one - other
}
