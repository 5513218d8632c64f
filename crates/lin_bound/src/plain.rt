//! Which plain multipliers close a box.
ghost use Rattle.std.specs.Prelude.{◌≡◌, ◌+◌, ◌*◌, ◌^◌, ◌<◌, ◌≤◌, ◌↔◌, IsTrue, length, unsigned_abs};
ghost use lib.Signed.{◌<ℤ◌};
ghost use Rattle.lin_bound.specs.Sums.{int_at};
ghost use Rattle.lin_bound.specs.Problem.{variables, row_count, row_of, load};
ghost use Rattle.lin_bound.specs.Box.{IsRegion};
ghost use Rattle.lin_bound.specs.Bound.{greatest, plain, Closes, IsPlainClosing};
ghost use Rattle.lin_bound.specs.Activities.{least, greatest_activity, least_activity};

use crate::problem::Problem;
use crate::region::Region;

/// The most that a variable between two ends adds to a cost.
fn most_part(cost: i64, low: u64, high: u64) -> i64
    requires ends { low ≤ high }
    requires count { high ≤ 10 ^ 12 }
    requires small { unsigned_abs cost * high ≤ 2 ^ 60 }
    ensures value { result ≡ greatest cost low high }
    ensures small { unsigned_abs result ≤ high * unsigned_abs cost }
{
    if cost >= 0 {
        cost * high as i64
    } else {
        cost * low as i64
    }
}

/// The least that a variable between two ends adds to a row.
fn least_part(coefficient: i64, low: u64, high: u64) -> i64
    requires ends { low ≤ high }
    requires count { high ≤ 10 ^ 12 }
    requires small { unsigned_abs coefficient * high ≤ 2 ^ 60 }
    ensures value { result ≡ least coefficient low high }
    ensures small { unsigned_abs result ≤ high * unsigned_abs coefficient }
{
    if coefficient >= 0 {
        coefficient * low as i64
    } else {
        coefficient * high as i64
    }
}

/// The most that the coefficients come to in the box.
fn most_of(problem: &Problem, region: &Region, coefficients: &[i64]) -> i64
    requires region { IsRegion problem.now region.now }
    requires each { length coefficients.now ≡ variables problem.now }
    requires light { load problem.now.upper coefficients.now (variables problem.now) ≤ 2 ^ 60 }
    ensures { result ≡ greatest_activity coefficients.now region.now (variables problem.now) }
{
    let low = region.low.as_slice();
    let high = region.high.as_slice();
    let mut total: i64 = 0;
    for variable in 0..problem.variables() {
        total += most_part(coefficients[variable], low[variable], high[variable]);
    }
    total
}

/// The least that the coefficients come to in the box.
fn least_of(problem: &Problem, region: &Region, coefficients: &[i64]) -> i64
    requires region { IsRegion problem.now region.now }
    requires each { length coefficients.now ≡ variables problem.now }
    requires light { load problem.now.upper coefficients.now (variables problem.now) ≤ 2 ^ 60 }
    ensures { result ≡ least_activity coefficients.now region.now (variables problem.now) }
{
    let low = region.low.as_slice();
    let high = region.high.as_slice();
    let mut total: i64 = 0;
    for variable in 0..problem.variables() {
        total += least_part(coefficients[variable], low[variable], high[variable]);
    }
    total
}

/// Whether the cost alone closes the box.
fn cost_closes(problem: &Problem, region: &Region, best: Option<i64>) -> bool
    requires { IsRegion problem.now region.now }
    ensures { IsTrue result ↔ Closes problem.now region.now (plain problem.now 0) best }
{
    match best {
        Some(value) => most_of(problem, region, problem.costs()) <= value,
        None => false,
    }
}

/// Whether no point of the box keeps the row.
fn row_closes(problem: &Problem, region: &Region, row: usize) -> bool
    requires region { IsRegion problem.now region.now }
    requires row { row < row_count problem.now }
    ensures { IsTrue result ↔ (int_at problem.now.rhs row
        <ℤ least_activity (row_of problem.now row) region.now (variables problem.now)) }
{
    least_of(problem, region, problem.row(row)) > problem.rhs(row)
}

/// The least number whose plain multipliers close the box, as `plain_mult` numbers them and `closes` judges. It takes a
/// pass over the columns for the cost and for each row up to the one found, and no memory.
pub fn plain_closing(problem: &Problem, region: &Region, best: Option<i64>) -> Option<usize>
    requires { IsRegion problem.now region.now }
    ensures { IsPlainClosing problem.now region.now best result }
{
    if cost_closes(problem, region, best) {
        return Some(0);
    }
    for row in 0..problem.row_count() {
        if row_closes(problem, region, row) {
            return Some(row + 1);
        }
    }
    None
}
