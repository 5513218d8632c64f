//! What the variables add to a bound, with weights of 64 bits.
ghost use Rattle.std.specs.Prelude.{◌≡◌, ℕ, ◌+◌, ◌*◌, ◌^◌, ◌<◌, ◌≤◌, length, pos, ◌-ℤ◌, ◌*ℤ◌, unsigned_abs};
ghost use Rattle.lin_bound.specs.Sums.{sum_below, int_at};
ghost use Rattle.lin_bound.specs.Problem.{variables, row_count};
ghost use Rattle.lin_bound.specs.Box.{IsRegion};
ghost use Rattle.lin_bound.specs.Bound.{IsMult, part_of};
ghost use Rattle.lin_bound.specs.Weights.{IsLight, AreWeights};

use crate::bounds::{BLOCK, gain};
use crate::mult::Mult;
use crate::problem::Problem;
use crate::region::Region;

/// A weight less what a row takes from it.
fn less(weight: i64, multiplier: u32, coefficient: i64) -> i64
    requires { unsigned_abs weight + multiplier * unsigned_abs coefficient < 2 ^ 62 }
    ensures { result ≡ weight -ℤ (pos multiplier *ℤ coefficient) }
{
    weight - i64::from(multiplier) * coefficient
}

/// What a unit's cost gives to a weight.
fn of_cost(d: u32, cost: i64) -> i64
    requires { d * unsigned_abs cost < 2 ^ 62 }
    ensures { result ≡ pos d *ℤ cost }
{
    i64::from(d) * cost
}

/// Makes each weight what its cost gives.
fn set_costs(weights: &mut [i64], d: u32, costs: &[i64])
    requires same { length costs.now ≡ length weights.old }
    requires fits { (k : ℕ) → k < length costs.now →
        d * unsigned_abs (int_at costs.now k) < 2 ^ 62 }
    ensures { (k : ℕ) → k < length weights.new →
        int_at weights.new k ≡ pos d *ℤ int_at costs.now k }
{
    for place in 0..costs.len() {
        weights[place] = of_cost(d, costs[place]);
    }
}

/// Takes from each weight what a row takes. A row whose multiplier is 0 takes no time.
fn take_row(weights: &mut [i64], multiplier: u32, coefficients: &[i64])
    requires same { length coefficients.now ≡ length weights.old }
    requires fits { (k : ℕ) → k < length coefficients.now → unsigned_abs (int_at weights.old k)
        + multiplier * unsigned_abs (int_at coefficients.now k) < 2 ^ 62 }
    ensures { (k : ℕ) → k < length weights.new → int_at weights.new k
        ≡ int_at weights.old k -ℤ (pos multiplier *ℤ int_at coefficients.now k) }
{
    if multiplier == 0 {
        return;
    }
    for place in 0..coefficients.len() {
        weights[place] = less(weights[place], multiplier, coefficients[place]);
    }
}

/// Makes them the weights of the variables from the start on.
fn weigh(problem: &Problem, mult: &Mult, start: usize, weights: &mut [i64])
    requires mult { IsMult problem.now mult.now }
    requires light { IsLight problem.now mult.now (2 ^ 62) }
    requires block { start + length weights.old ≤ variables problem.now }
    ensures { AreWeights problem.now mult.now (row_count problem.now) start weights.new }
{
    let costs = problem.costs();
    let multipliers = mult.lambda.as_slice();
    let end = start + weights.len();
    set_costs(weights, mult.d, &costs[start..end]);
    for row in 0..problem.row_count() {
        take_row(weights, multipliers[row], &problem.row(row)[start..end]);
    }
}

/// What the variables before the start add, and with them those of the weights.
fn add_gains(
    problem: &Problem,
    region: &Region,
    mult: &Mult,
    start: usize,
    weights: &[i64],
    before: i128,
) -> i128
    requires region { IsRegion problem.now region.now }
    requires mult { IsMult problem.now mult.now }
    requires block { start + length weights.now ≤ variables problem.now }
    requires weights { AreWeights problem.now mult.now (row_count problem.now) start weights.now }
    requires before { before ≡ sum_below (part_of problem.now region.now mult.now) start }
    ensures { result ≡
        sum_below (part_of problem.now region.now mult.now) (start + length weights.now) }
{
    let _legal = problem.variables();
    let low = region.low.as_slice();
    let high = region.high.as_slice();
    let mut total = before;
    for place in 0..weights.len() {
        total += gain(
            i128::from(weights[place]),
            low[start + place],
            high[start + place],
        );
    }
    total
}

/// What all variables add.
pub(crate) fn gains(problem: &Problem, region: &Region, mult: &Mult) -> i128
    requires region { IsRegion problem.now region.now }
    requires mult { IsMult problem.now mult.now }
    requires light { IsLight problem.now mult.now (2 ^ 62) }
    ensures { result ≡
        sum_below (part_of problem.now region.now mult.now) (variables problem.now) }
{
    let mut block = [0i64; BLOCK];
    let mut total: i128 = 0;
    let mut start = 0;
    while start < problem.variables() {
        let count = (problem.variables() - start).min(BLOCK);
        let weights = &mut block[..count];
        weigh(problem, mult, start, weights);
        total = add_gains(problem, region, mult, start, weights, total);
        start += count;
    }
    total
}
