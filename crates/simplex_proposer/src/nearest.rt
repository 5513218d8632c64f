//! The variables that prices leave nearest to no matter: those of the smallest reduced costs.

use crate::columns::{Program, end_of};
use crate::dual::Dual;
use crate::fixed::{bits, held, shifted, size_of};
use crate::ranged::{RangedRow, coefficient, cost};
use lin_bound::{Mult, Problem, Region};
use std::alloc::{AllocError, Global};

/// How many buckets sizes fall into: 64 for each bit length.
const BUCKETS: usize = 65 * 64;

/// Prices of the ranged rows, in some unit.
#[derive(Debug, Drop)]
pub(crate) struct Guide {
    pub unit: i128,
    pub factors: Vec<i128>,
}

/// The multiplier of a row, and 0 past the last row.
fn multiplier_of(mult: &Mult, row: usize) -> i128 {
    i128::from(mult.lambda.as_slice().get(row).copied().unwrap_or(0))
}

impl Guide {
    /// The prices that multipliers give, or none where they weigh no cost or no row that can bind.
    pub(crate) fn of_mult(
        alloc: Global,
        rows: &[RangedRow],
        mult: &Mult,
    ) -> Result<Option<Guide>, AllocError> {
        let mut factors = Vec::with_capacity(alloc, rows.len())?;
        for row in rows {
            let below = row.twin.map_or(0, |twin| multiplier_of(mult, twin));
            factors.push(multiplier_of(mult, row.row).wrapping_sub(below))?;
        }
        if mult.d == 0 || factors.iter().all(|factor| *factor == 0) {
            return Ok(None);
        }
        Ok(Some(Guide {
            unit: i128::from(mult.d),
            factors,
        }))
    }

    /// The prices of a basis.
    pub(crate) fn of_basis(
        alloc: Global,
        program: &Program,
        dual: &Dual,
    ) -> Result<Guide, AllocError> {
        Ok(Guide {
            unit: shifted(1, program.scale.cost_shift()),
            factors: Vec::from_slice(alloc, dual.weighed.as_slice())?,
        })
    }

    /// What one unit of a variable adds to the dual bound.
    fn weight(&self, problem: &Problem, rows: &[RangedRow], variable: usize) -> i128 {
        let mut total = self.unit.wrapping_mul(i128::from(cost(problem, variable)));
        for (factor, row) in self.factors.iter().zip(rows) {
            if *factor != 0 {
                let number = i128::from(coefficient(problem, row.row, variable));
                total = total.wrapping_sub(factor.wrapping_mul(number));
            }
        }
        total
    }

    /// By how many bits weights shrink to fit.
    fn spare_bits(&self, problem: &Problem, rows: &[RangedRow]) -> u32 {
        let mut most: i128 = 0;
        for variable in 0..problem.variables() {
            most = most.max(size_of(i128::from(cost(problem, variable))));
        }
        most = most.saturating_mul(self.unit);
        for (factor, row) in self.factors.iter().zip(rows) {
            most = most.saturating_add(shifted(size_of(*factor), i32::from(row.bits)));
        }
        (i32::from(bits(most)) - 61).max(0).unsigned_abs()
    }

    /// What one unit of each variable adds to the dual bound. It takes a pass over the rows that have a price.
    pub(crate) fn weights(
        &self,
        alloc: Global,
        problem: &Problem,
        rows: &[RangedRow],
    ) -> Result<Vec<i64>, AllocError> {
        let shift = self.spare_bits(problem, rows);
        let mut weights = Vec::with_capacity(alloc, problem.variables())?;
        for variable in 0..problem.variables() {
            let weight = self.weight(problem, rows, variable);
            weights.push(held(weight.wrapping_shr(shift)))?;
        }
        Ok(weights)
    }
}

/// The bucket of a size. Those of greater sizes come after it.
fn bucket_of(weight: i64) -> usize {
    let size = weight.unsigned_abs();
    let length = 64 - size.leading_zeros();
    if length <= 6 {
        return (size & 63) as usize;
    }
    let next_bits = size.wrapping_shr(length - 7) & 63;
    (length as usize) * 64 + next_bits as usize
}

/// The bucket up to which there are so many variables, and how many more than that.
fn last_bucket(counts: &[usize], want: usize) -> (usize, usize) {
    let mut total: usize = 0;
    for (bucket, count) in counts.iter().enumerate() {
        total = total.saturating_add(*count);
        if total >= want {
            return (bucket, total.saturating_sub(want));
        }
    }
    (counts.len(), 0)
}

/// How many of the variables that may be more than 0 fall into each bucket.
fn count_buckets(alloc: Global, weights: &[i64], uppers: &[u64]) -> Result<Vec<usize>, AllocError> {
    let mut counts = vec![in alloc; 0usize; BUCKETS]?;
    for (weight, upper) in weights.iter().zip(uppers) {
        let bucket = bucket_of(*weight);
        if *upper > 0 && bucket < counts.len() {
            counts[bucket] = counts[bucket].saturating_add(1);
        }
    }
    Ok(counts)
}

/// So many variables of the smallest weights, in their order, of those that may be more than 0. It takes two passes.
pub(crate) fn nearest(
    alloc: Global,
    weights: &[i64],
    uppers: &[u64],
    want: usize,
) -> Result<Vec<usize>, AllocError> {
    let counts = count_buckets(alloc, weights, uppers)?;
    let (last, excess) = last_bucket(counts.as_slice(), want);
    let mut left = counts
        .get(last)
        .copied()
        .unwrap_or(0)
        .saturating_sub(excess);
    let mut chosen = Vec::new(alloc);
    for (variable, (weight, upper)) in weights.iter().zip(uppers).enumerate() {
        let bucket = bucket_of(*weight);
        if *upper == 0 || bucket > last || (bucket == last && left == 0) {
            continue;
        }
        if bucket == last {
            left = left.saturating_sub(1);
        }
        chosen.push(variable)?;
    }
    Ok(chosen)
}

/// The variables whose weights are of another sign, of those that are left out and have room.
pub(crate) fn turned(
    alloc: Global,
    region: &Region,
    is_in: &[bool],
    before: &[i64],
    after: &[i64],
) -> Result<Vec<usize>, AllocError> {
    let mut found = Vec::new(alloc);
    for (variable, ((is_in, old), new)) in is_in.iter().zip(before).zip(after).enumerate() {
        let low = end_of(region.low.as_slice(), variable);
        let high = end_of(region.high.as_slice(), variable);
        if !*is_in && low < high && *new != 0 && (*new > 0) != (*old > 0) {
            found.push(variable)?;
        }
    }
    Ok(found)
}
