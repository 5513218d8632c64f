//! Where to split a box so that the multipliers that bound it close one of the halves.
ghost use Rattle.std.specs.Prelude.{◌<◌};
ghost use Rattle.lin_bound.specs.Problem.{variables};
ghost use Rattle.lin_bound.specs.Box.{IsRegion};

use lin_bound::{Mult, Problem, Region};

/// Boxes that are farther from the whole one aren't split so.
const MOST_DEPTH: usize = 128;

/// Nor are they farther from it than so many times the variables that the multipliers leave undecided.
const DEPTH_SHARE: usize = 3;

/// Nor are boxes that are bounded by more rows than so many.
const MOST_ROWS: usize = 4;

/// A place at which one half of a box is closed by the same multipliers, since a unit of the variable there costs more
/// of the bound than the box has above the best value.
#[derive(Clone, Copy, Debug)]
pub struct Exclusion {
    pub var: u32,
    pub at: u64,
    /// Whether it is the upper half that is closed.
    pub is_upper_closed: bool,
}

/// The rows that multipliers weigh, if these are few.
#[derive(Clone, Copy, Debug)]
struct Weighed {
    rows: [(usize, u32); MOST_ROWS],
    count: usize,
    d: u32,
}

/// What one unit of a variable adds to the bound, and what its cost and its coefficients give to that in size.
#[derive(Clone, Copy, Debug)]
struct Weight {
    value: i128,
    size: u128,
}

/// A number times a multiplier. It fits, as neither takes more than 64 bits.
fn times(multiplier: u32, number: i64) -> i128 {
    i128::from(multiplier).wrapping_mul(i128::from(number))
}

/// The rows whose multiplier isn't 0, unless there are none or too many, or the cost isn't weighed.
fn weighed_rows(problem: &Problem, mult: &Mult) -> Option<Weighed> {
    let mut rows = [(0, 0); MOST_ROWS];
    let mut count = 0;
    for (row, multiplier) in mult.lambda.as_slice().iter().enumerate() {
        if *multiplier == 0 {
            continue;
        }
        if count >= MOST_ROWS || row >= problem.row_count() {
            return None;
        }
        rows[count] = (row, *multiplier);
        count += 1;
    }
    if count == 0 || mult.d == 0 {
        return None;
    }
    Some(Weighed {
        rows,
        count,
        d: mult.d,
    })
}

impl Weighed {
    /// What one unit of a variable adds. The sums fit, since a problem keeps its numbers small.
    fn weight(&self, problem: &Problem, variable: usize) -> Weight
        requires { variable < variables problem.now }
    {
        let mut value = times(self.d, problem.cost(variable));
        let mut size: u128 = 1;
        for (row, multiplier) in self.rows.iter().take(self.count) {
            if *row < problem.row_count() {
                let part = times(*multiplier, problem.coefficient(*row, variable));
                value = value.wrapping_sub(part);
                size = size.wrapping_add(part.unsigned_abs());
            }
        }
        Weight { value, size }
    }
}

/// A quotient as a number of the same order: an exponent, and 32 bits of the quotient.
fn quotient_key(number: u128, divisor: u128) -> u64 {
    let (zeros, divisor_zeros) = (number.leading_zeros(), divisor.leading_zeros());
    let top = u64::try_from(number.wrapping_shl(zeros) >> 65).unwrap_or(u64::MAX);
    let bottom = u64::try_from(divisor.wrapping_shl(divisor_zeros) >> 96).unwrap_or(u64::MAX);
    let quotient = top.checked_div(bottom).unwrap_or(u64::MAX);
    let exponent = u64::from(divisor_zeros.saturating_add(128).saturating_sub(zeros));
    if quotient < 1 << 31 {
        return (exponent.saturating_sub(1) << 32).wrapping_add(quotient << 1);
    }
    (exponent << 32).wrapping_add(quotient)
}

/// The exclusion of the half of a variable's counts that doesn't hold the end that its weight prefers.
fn exclusion_at(variable: usize, weight: i128, low: u64, high: u64) -> Exclusion {
    let is_upper_closed = weight < 0;
    Exclusion {
        var: u32::try_from(variable).unwrap_or(0),
        at: if is_upper_closed {
            low
        } else {
            high.saturating_sub(1)
        },
        is_upper_closed,
    }
}

/// What was found among the variables so far.
#[derive(Clone, Copy, Debug)]
struct Found {
    /// How many have room, and weigh no more than the gap.
    undecided: usize,
    /// How much the weight of the one to split at is, over its size.
    least: u64,
    exclusion: Option<Exclusion>,
}

impl Found {
    /// Counts one more variable with room, or takes it for the one to split at.
    fn add(&mut self, variable: usize, weight: Weight, gap: u128, low: u64, high: u64) {
        if weight.value.unsigned_abs() <= gap {
            self.undecided = self.undecided.saturating_add(1);
            return;
        }
        let key = quotient_key(weight.value.unsigned_abs(), weight.size);
        if key < self.least {
            self.least = key;
            self.exclusion = Some(exclusion_at(variable, weight.value, low, high));
        }
    }
}

/// Of the variables whose weight is above the gap, the one that is so by the least share of its size.
fn nearest_above(problem: &Problem, region: &Region, weighed: &Weighed, gap: u128) -> Found
    requires { IsRegion problem.now region.now }
{
    let low = region.low.as_slice();
    let high = region.high.as_slice();
    let mut found = Found {
        undecided: 0,
        least: u64::MAX,
        exclusion: None,
    };
    for variable in 0..problem.variables() {
        let (least, most) = (low[variable], high[variable]);
        if least < most {
            let weight = weighed.weight(problem, variable);
            found.add(variable, weight, gap, least, most);
        }
    }
    found
}

/// What of the bound is above `d` times the next value, if there is a value: below 0, the multipliers close the box.
pub fn gap_of(mult: &Mult, most: i128, best: Option<i64>) -> Option<i128> {
    let value = best?;
    let next = times(mult.d, value).wrapping_add(i128::from(mult.d));
    Some(most.wrapping_sub(next))
}

/// Where to split a box that has this gap, so that the multipliers close one half: at the variable that is most likely
/// to matter further on. Nowhere if there is no gap, or the box is too far from the whole one. It takes a pass over the
/// rows that the multipliers weigh.
pub fn find_exclusion(
    problem: &Problem,
    region: &Region,
    mult: &Mult,
    gap: Option<i128>,
    depth: usize,
) -> Option<Exclusion>
    requires { IsRegion problem.now region.now }
{
    let gap = gap?;
    if depth >= MOST_DEPTH || gap < 0 {
        return None;
    }
    let weighed = weighed_rows(problem, mult)?;
    let found = nearest_above(problem, region, &weighed, gap.unsigned_abs());
    if depth >= found.undecided.saturating_mul(DEPTH_SHARE) {
        return None;
    }
    found.exclusion
}
