//! The dual bound of a box under multipliers, and when it closes the box.
ghost use Rattle.std.specs.Prelude.{◌≡◌, ℕ, ◌*◌, ◌^◌, ◌<◌, ◌≤◌, ◌↔◌, IsTrue, pos, ◌+ℤ◌, ◌*ℤ◌, unsigned_abs};
ghost use Rattle.lin_bound.specs.Sums.{sum_below};
ghost use Rattle.lin_bound.specs.Problem.{variables, row_count};
ghost use Rattle.lin_bound.specs.Box.{IsRegion};
ghost use Rattle.lin_bound.specs.Bound.{IsMult, greatest, sides, part_of, bound_of, Closes};
ghost use Rattle.lin_bound.specs.Weights.{mass};

use crate::mult::Mult;
use crate::problem::Problem;
use crate::region::Region;
use crate::{narrow, wide};

/// So many variables are weighed at a time, in room on the stack.
pub(crate) const BLOCK: usize = 256;

/// Weights below this are summed in 64 bits.
const LIGHT: u128 = 1 << 62;

/// A multiplier times a coefficient or a right-hand side.
fn share(multiplier: u32, number: i64) -> i128
    requires { multiplier ≤ 2 ^ 30 }
    ensures value { result ≡ pos multiplier *ℤ number }
    ensures small { unsigned_abs result ≤ 2 ^ 30 * unsigned_abs number }
    ensures number { unsigned_abs number ≤ 2 ^ 63 }
{
    i128::from(multiplier) * i128::from(number)
}

/// The most that a variable between two ends adds, at so much a unit.
pub(crate) fn gain(each: i128, low: u64, high: u64) -> i128
    requires ends { low ≤ high }
    requires small { unsigned_abs each * high < 2 ^ 127 }
    ensures { result ≡ greatest each low high }
{
    if each >= 0 {
        each * i128::from(high)
    } else {
        each * i128::from(low)
    }
}

/// What the right-hand sides add.
fn sides(problem: &Problem, mult: &Mult) -> i128
    requires { IsMult problem.now mult.now }
    ensures value { result ≡ sides problem.now mult.now }
    ensures small { unsigned_abs result ≤ 64 * 2 ^ 91 }
{
    let multipliers = mult.lambda.as_slice();
    let mut total: i128 = 0;
    for row in 0..problem.row_count() {
        total += share(multipliers[row], problem.rhs(row));
    }
    total
}

/// A multiplier times a size.
fn product(multiplier: u32, size: u64) -> u128
    ensures { result ≡ multiplier * size }
{
    u128::from(multiplier) * u128::from(size)
}

/// The most that a weight can come to in size.
fn most_mass(problem: &Problem, mult: &Mult) -> u128
    requires { IsMult problem.now mult.now }
    ensures most { (i : ℕ) → i < variables problem.now → mass problem.now mult.now i ≤ result }
    ensures small { result < 2 ^ 126 }
{
    let multipliers = mult.lambda.as_slice();
    let mut total = product(mult.d, problem.cost_size());
    for row in 0..problem.row_count() {
        total += product(multipliers[row], problem.row_size(row));
    }
    total
}

/// What the variables add: by sums of 64 bits, if the multipliers and the coefficients are so small that they fit.
fn gains(problem: &Problem, region: &Region, mult: &Mult) -> i128
    requires region { IsRegion problem.now region.now }
    requires mult { IsMult problem.now mult.now }
    ensures value { result ≡
        sum_below (part_of problem.now region.now mult.now) (variables problem.now) }
    ensures small { unsigned_abs result ≤ 65 * 2 ^ 90 }
{
    let _legal = problem.variables();
    if most_mass(problem, mult) < LIGHT {
        narrow::gains(problem, region, mult)
    } else {
        wide::gains(problem, region, mult)
    }
}

/// The dual bound: `d` times the cost of each feasible point of the box is at most this. It takes a pass over the
/// columns for the cost and for each row whose multiplier isn't 0, in blocks of columns, and no memory.
/// See Wolsey, Integer Programming, section 10.2 (Lagrangian duality).
pub fn bound(problem: &Problem, region: &Region, mult: &Mult) -> i128
    requires region { IsRegion problem.now region.now }
    requires mult { IsMult problem.now mult.now }
    ensures value { result ≡ bound_of problem.now region.now mult.now }
    ensures small { unsigned_abs result < 2 ^ 98 }
{
    sides(problem, mult) + gains(problem, region, mult)
}

/// `d` times the next value, which a bound has to stay below.
fn next_value(d: u32, value: i64) -> i128
    ensures { result ≡ pos d *ℤ (value +ℤ pos 1) }
{
    i128::from(d) * (i128::from(value) + 1)
}

/// Whether the multipliers show that the box holds no feasible point above the value,
/// or where there is no value yet, that it holds none.
pub fn closes(problem: &Problem, region: &Region, mult: &Mult, best: Option<i64>) -> bool
    requires region { IsRegion problem.now region.now }
    requires mult { IsMult problem.now mult.now }
    ensures { IsTrue result ↔ Closes problem.now region.now mult.now best }
{
    let most = bound(problem, region, mult);
    match best {
        Some(value) => most < next_value(mult.d, value),
        None => mult.d == 0 && most < 0,
    }
}
