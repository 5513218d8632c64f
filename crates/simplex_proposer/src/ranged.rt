//! The rows that can bind in a box.

use crate::fixed::bits;
use lin_bound::{Problem, Region};
use std::alloc::{AllocError, Global};

/// A row with its least and greatest sum. Two neighbours of opposite signs are one ranged row.
#[derive(Clone, Copy, Debug)]
pub(crate) struct RangedRow {
    /// The row that keeps the sum from growing.
    pub row: usize,
    /// The row of opposite signs after it, which keeps the sum from falling.
    pub twin: Option<usize>,
    pub low: i64,
    pub high: i64,
    /// How many bits its greatest coefficient takes, at least 1.
    pub bits: i16,
}

/// What is known of the rows of a problem in a box.
#[derive(Debug, Drop)]
pub(crate) enum Ranged {
    /// Those that can bind.
    Rows(Vec<RangedRow>),
    /// No point of the box keeps this row.
    Unmeetable(usize),
    /// No sum keeps both this row and the one after it.
    Crossed(usize),
}

/// How a row relates to a box.
#[derive(Clone, Copy, Debug)]
enum Standing {
    /// Each point of the box keeps it.
    Free,
    Binding(RangedRow),
    /// No point keeps this row, which is it or its twin.
    Unmeetable(usize),
    /// No sum keeps it and its twin.
    Crossed,
}

/// What a row comes to in a box.
#[derive(Clone, Copy, Debug)]
struct Span {
    least: i64,
    greatest: i64,
    bits: i16,
}

/// What one unit of a variable adds to a row, and 0 where there is no such row or variable.
pub(crate) fn coefficient(problem: &Problem, row: usize, variable: usize) -> i64 {
    if row < problem.row_count() && variable < problem.variables() {
        return problem.coefficient(row, variable);
    }
    0
}

/// What one unit of a variable adds to the cost, and 0 where there is no such variable.
pub(crate) fn cost(problem: &Problem, variable: usize) -> i64 {
    if variable < problem.variables() {
        return problem.cost(variable);
    }
    0
}

/// The most that a row may come to, and 0 where there is no such row.
fn right_side(problem: &Problem, row: usize) -> i64 {
    if row < problem.row_count() {
        return problem.rhs(row);
    }
    0
}

/// What a row comes to in the box. The sums fit, since a problem keeps its sums small.
fn span_of(problem: &Problem, region: &Region, row: usize) -> Span {
    let mut span = Span {
        least: 0,
        greatest: 0,
        bits: 1,
    };
    let ends = region.low.as_slice().iter().zip(region.high.as_slice());
    for (variable, (low, high)) in ends.enumerate() {
        let number = coefficient(problem, row, variable);
        let at_low = number.wrapping_mul(low.cast_signed());
        let at_high = number.wrapping_mul(high.cast_signed());
        span.least = span.least.wrapping_add(at_low.min(at_high));
        span.greatest = span.greatest.wrapping_add(at_low.max(at_high));
        if *high > 0 {
            span.bits = span.bits.max(bits(i128::from(number)));
        }
    }
    span
}

/// Whether the row after this one is this one with opposite signs.
fn has_twin(problem: &Problem, row: usize) -> bool {
    if row.saturating_add(1) >= problem.row_count() {
        return false;
    }
    for variable in 0..problem.variables() {
        let number = coefficient(problem, row, variable);
        if number.wrapping_add(coefficient(problem, row.saturating_add(1), variable)) != 0 {
            return false;
        }
    }
    true
}

/// How a row and its twin, if it has one, relate to the box.
fn standing_of(problem: &Problem, region: &Region, row: usize, twin: Option<usize>) -> Standing {
    let span = span_of(problem, region, row);
    let most = right_side(problem, row);
    let least = twin.map_or(
        i64::MIN,
        |other| right_side(problem, other).saturating_neg(),
    );
    if least > most {
        return Standing::Crossed;
    }
    if span.least > most {
        return Standing::Unmeetable(row);
    }
    if span.greatest < least {
        return Standing::Unmeetable(row.saturating_add(1));
    }
    if span.greatest <= most && span.least >= least {
        return Standing::Free;
    }
    Standing::Binding(RangedRow {
        row,
        twin,
        low: span.least.max(least),
        high: span.greatest.min(most),
        bits: span.bits,
    })
}

/// The rows that can bind in the box, or one that no point of the box keeps. It takes two passes over the rows.
pub(crate) fn ranged_rows(
    alloc: Global,
    problem: &Problem,
    region: &Region,
) -> Result<Ranged, AllocError> {
    let mut rows = Vec::new(alloc);
    let mut is_twin = false;
    for row in 0..problem.row_count() {
        if is_twin {
            is_twin = false;
            continue;
        }
        is_twin = has_twin(problem, row);
        let twin = if is_twin {
            Some(row.saturating_add(1))
        } else {
            None
        };
        match standing_of(problem, region, row, twin) {
            Standing::Free => {}
            Standing::Binding(found) => rows.push(found)?,
            Standing::Unmeetable(row) => return Ok(Ranged::Unmeetable(row)),
            Standing::Crossed => return Ok(Ranged::Crossed(row)),
        }
    }
    Ok(Ranged::Rows(rows))
}
