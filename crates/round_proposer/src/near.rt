//! The resting point, where each variable is at the end that its weight prefers, and the variables that may leave it
//! at the least loss.

use crate::fixed::{MOST, bits, held, times};
use crate::weights::{Weights, coefficient, cost};
use lin_bound::{Mult, Problem, Region};
use std::alloc::{AllocError, Global};

/// A variable that may leave its resting end.
#[derive(Clone, Copy, Debug)]
pub(crate) struct Candidate {
    pub variable: usize,
    pub cost: i64,
    pub low: i64,
    pub high: i64,
    pub rest: i64,
    /// What one unit away from there takes from the bound.
    pub loss: i64,
}

/// What is known of a row.
#[derive(Clone, Copy, Debug)]
pub(crate) struct Row {
    /// What the resting point leaves of its right-hand side.
    pub slack: i64,
    pub multiplier: i64,
    /// How many bits its greatest coefficient takes.
    pub bits: u32,
    /// How far apart its least and greatest sum are, if a neighbour of opposite signs says so.
    pub width: Option<i64>,
}

/// The points near the resting one.
#[derive(Debug, Drop)]
pub(crate) struct Near {
    /// Those of the smallest losses first.
    pub candidates: Vec<Candidate>,
    /// What one unit of each adds to each row, a candidate after another.
    entries: Vec<i64>,
    pub rows: Vec<Row>,
    /// The cost of the resting point.
    pub cost: i64,
    pub d: i64,
    /// The dual bound. Losses are what it has after so many bits are dropped.
    pub bound: i128,
    pub shift: u32,
}

/// A number of a list, and 0 past its end.
pub(crate) fn number_at(numbers: &[i64], place: usize) -> i64 {
    numbers.get(place).copied().unwrap_or(0)
}

/// The end of a variable, and 0 past the last.
fn end_of(ends: &[u64], variable: usize) -> i64 {
    ends.get(variable).copied().unwrap_or(0).cast_signed()
}

/// Where a variable rests.
pub(crate) fn resting(region: &Region, weight: i64, variable: usize) -> i64 {
    let ends = if weight > 0 {
        &region.high
    } else {
        &region.low
    };
    end_of(ends.as_slice(), variable)
}

/// The variables with room, so many of those of the smallest weights, in their order.
fn smallest(
    alloc: Global,
    region: &Region,
    weights: &[i64],
    want: usize,
) -> Result<Vec<(u64, usize)>, AllocError> {
    let mut order = Vec::with_capacity(alloc, weights.len())?;
    let ends = region.low.as_slice().iter().zip(region.high.as_slice());
    for (variable, (weight, (low, high))) in weights.iter().zip(ends).enumerate() {
        if low < high {
            order.push((weight.unsigned_abs(), variable))?;
        }
    }
    if want < order.len() {
        let _ = order.as_mut_slice().select_nth_unstable(want);
        order.truncate(want);
    }
    order.sort_unstable();
    Ok(order)
}

/// The candidate of a variable.
fn candidate_of(problem: &Problem, region: &Region, weight: i64, variable: usize) -> Candidate {
    Candidate {
        variable,
        cost: cost(problem, variable),
        low: end_of(region.low.as_slice(), variable),
        high: end_of(region.high.as_slice(), variable),
        rest: resting(region, weight, variable),
        loss: weight.saturating_abs(),
    }
}

/// A row at the resting point. Its sum fits, since a problem keeps its sums small.
fn row_of(problem: &Problem, region: &Region, weights: &[i64], row: usize) -> Row {
    let mut slack = if row < problem.row_count() {
        problem.rhs(row)
    } else {
        0
    };
    let mut most = 0;
    for (variable, weight) in weights.iter().enumerate() {
        let number = coefficient(problem, row, variable);
        let count = resting(region, *weight, variable);
        slack = slack.wrapping_sub(number.wrapping_mul(count));
        if count != 0 || end_of(region.high.as_slice(), variable) > 0 {
            most = most.max(number.unsigned_abs());
        }
    }
    Row {
        slack,
        multiplier: 0,
        bits: bits(i128::from(most)),
        width: None,
    }
}

/// The cost of the resting point.
fn resting_cost(problem: &Problem, region: &Region, weights: &[i64]) -> i64 {
    let mut total: i64 = 0;
    for (variable, weight) in weights.iter().enumerate() {
        let count = resting(region, *weight, variable);
        total = total.wrapping_add(cost(problem, variable).wrapping_mul(count));
    }
    total
}

impl Near {
    /// The resting point by these weights, and so many candidates.
    pub(crate) fn new(
        alloc: Global,
        problem: &Problem,
        region: &Region,
        mult: &Mult,
        weights: &Weights,
        want: usize,
    ) -> Result<Near, AllocError> {
        let each = weights.each.as_slice();
        let mut near = Near {
            candidates: Vec::with_capacity(alloc, want)?,
            entries: Vec::with_capacity(alloc, want.saturating_mul(problem.row_count()))?,
            rows: Vec::with_capacity(alloc, problem.row_count())?,
            cost: resting_cost(problem, region, each),
            d: i64::from(mult.d),
            bound: 0,
            shift: weights.shift,
        };
        for (_, variable) in smallest(alloc, region, each, want)? {
            near.add(
                problem,
                candidate_of(problem, region, number_at(each, variable), variable),
            )?;
        }
        near.set_rows(problem, region, mult, each)?;
        near.set_widths(problem);
        near.set_bound();
        Ok(near)
    }

    /// Adds a candidate.
    fn add(&mut self, problem: &Problem, candidate: Candidate) -> Result<(), AllocError> {
        for row in 0..problem.row_count() {
            self.entries
                .push(coefficient(problem, row, candidate.variable))?;
        }
        self.candidates.push(candidate)?;
        Ok(())
    }

    /// Sets what is known of each row.
    fn set_rows(
        &mut self,
        problem: &Problem,
        region: &Region,
        mult: &Mult,
        weights: &[i64],
    ) -> Result<(), AllocError> {
        for row in 0..problem.row_count() {
            let mut found = row_of(problem, region, weights, row);
            let multiplier = mult.lambda.as_slice().get(row).copied().unwrap_or(0);
            found.multiplier = i64::from(multiplier);
            self.rows.push(found)?;
        }
        Ok(())
    }

    /// Sets the width of each row that the row after it has with opposite signs, as far as the candidates tell.
    fn set_widths(&mut self, problem: &Problem) {
        for row in 1..problem.row_count() {
            let before = row.saturating_sub(1);
            if self.width_of(before).is_some() || !self.are_opposite(before, row) {
                continue;
            }
            let width = problem.rhs(before).saturating_add(problem.rhs(row));
            self.set_width(before, width);
            self.set_width(row, width);
        }
    }

    fn width_of(&self, row: usize) -> Option<i64> {
        self.rows.get(row).and_then(|row| row.width)
    }

    fn set_width(&mut self, row: usize, width: i64) {
        if row < self.rows.len() {
            self.rows[row].width = Some(width);
        }
    }

    /// Whether each candidate adds to one row what it takes from the other.
    fn are_opposite(&self, row: usize, other: usize) -> bool {
        for place in 0..self.candidates.len() {
            let numbers = self.entries_of(place);
            if number_at(numbers, row).wrapping_add(number_at(numbers, other)) != 0 {
                return false;
            }
        }
        true
    }

    /// Sets the dual bound: d times the cost of the resting point, and what the slacks of the rows are worth.
    fn set_bound(&mut self) {
        self.bound = times(self.d, self.cost);
        for row in self.rows.iter() {
            self.bound = self.bound.saturating_add(times(row.multiplier, row.slack));
        }
    }

    /// What one unit of a candidate adds to each row, and nothing past the last candidate.
    pub(crate) fn entries_of(&self, place: usize) -> &[i64] {
        let start = place.saturating_mul(self.rows.len());
        let end = start.saturating_add(self.rows.len());
        if end > self.entries.len() {
            return &[];
        }
        &self.entries[start..end]
    }

    /// What of the bound a point may lose and still be better than the best one, or as much as there can be where
    /// there is none.
    pub(crate) fn gap(&self, best: Option<i64>) -> i64 {
        let Some(value) = best else {
            return held(MOST);
        };
        let needed = times(self.d, value.saturating_add(1));
        held(self.bound.saturating_sub(needed).wrapping_shr(self.shift))
    }

    /// The resting point's slacks.
    pub(crate) fn slacks(&self, alloc: Global) -> Result<Vec<i64>, AllocError> {
        let mut slacks = Vec::with_capacity(alloc, self.rows.len())?;
        for row in self.rows.iter() {
            slacks.push(row.slack)?;
        }
        Ok(slacks)
    }

    /// Where the candidates rest.
    pub(crate) fn rests(&self, alloc: Global) -> Result<Vec<i64>, AllocError> {
        let mut counts = Vec::with_capacity(alloc, self.candidates.len())?;
        for candidate in self.candidates.iter() {
            counts.push(candidate.rest)?;
        }
        Ok(counts)
    }
}
