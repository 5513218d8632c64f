//! What one unit of each variable adds to a dual bound.

use crate::fixed::{bits, held, size_of};
use lin_bound::{Mult, Problem};
use std::alloc::{AllocError, Global};

/// What one unit of a variable adds to a row, and 0 where there is no such row or variable.
pub(crate) fn coefficient(problem: &Problem, row: usize, variable: usize) -> i64 {
    if row < problem.row_count() && variable < problem.variables() {
        return problem.coefficient(row, variable);
    }
    0
}

/// What one unit of a variable adds to the cost, and 0 where there is no such variable.
pub(crate) fn cost(problem: &Problem, variable: usize) -> i64 {
    if variable < problem.variables() {
        return problem.cost(variable);
    }
    0
}

/// A row whose multiplier isn't 0.
#[derive(Clone, Copy, Debug)]
struct Priced {
    row: usize,
    multiplier: i128,
}

/// The weights of all variables.
#[derive(Debug, Drop)]
pub(crate) struct Weights {
    /// Each without its last bits.
    pub each: Vec<i64>,
    /// How many bits these are.
    pub shift: u32,
}

/// The rows whose multiplier isn't 0.
fn priced_rows(alloc: Global, mult: &Mult) -> Result<Vec<Priced>, AllocError> {
    let mut rows = Vec::new(alloc);
    for (row, multiplier) in mult.lambda.as_slice().iter().enumerate() {
        if *multiplier > 0 {
            let multiplier = i128::from(*multiplier);
            rows.push(Priced { row, multiplier })?;
        }
    }
    Ok(rows)
}

/// The weight of a variable. The sum fits, since a problem keeps its numbers small.
fn weight_of(problem: &Problem, d: i128, rows: &[Priced], variable: usize) -> i128 {
    let mut total = d.wrapping_mul(i128::from(cost(problem, variable)));
    for row in rows {
        let number = i128::from(coefficient(problem, row.row, variable));
        total = total.wrapping_sub(row.multiplier.wrapping_mul(number));
    }
    total
}

/// By how many bits weights have to shrink to fit 61.
fn spare_bits(problem: &Problem, d: i128, rows: &[Priced]) -> u32 {
    let mut most: i128 = 0;
    for (variable, upper) in problem.uppers().iter().enumerate() {
        if *upper > 0 {
            most = most.max(size_of(weight_of(problem, d, rows, variable)));
        }
    }
    bits(most).saturating_sub(61)
}

impl Weights {
    /// The weights by these multipliers. It takes two passes over the rows that have one.
    pub(crate) fn new(
        alloc: Global,
        problem: &Problem,
        mult: &Mult,
    ) -> Result<Weights, AllocError> {
        let d = i128::from(mult.d);
        let rows = priced_rows(alloc, mult)?;
        let shift = spare_bits(problem, d, rows.as_slice());
        let mut each = Vec::with_capacity(alloc, problem.variables())?;
        for variable in 0..problem.variables() {
            let weight = weight_of(problem, d, rows.as_slice(), variable);
            each.push(held(weight.wrapping_shr(shift)))?;
        }
        Ok(Weights { each, shift })
    }
}
