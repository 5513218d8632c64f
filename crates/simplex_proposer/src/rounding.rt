//! Whole prices for those of a basis.

use crate::columns::{FRACTION, Scale};
use crate::fixed::{bits, held, shifted, size_of};
use crate::multipliers::MOST_MULTIPLIER;
use crate::turns::Turns;
use std::alloc::{AllocError, Global};

/// How many values of d are tried.
const TRIED: u16 = 2_000;

/// How many bits of what is weighed in units of cost are after the point.
const COST_FRACTION: i32 = 20;

/// A rounding that costs at most an eighth of a unit of cost is good enough.
const SMALL_ERROR: i128 = 1 << (COST_FRACTION - 3);

/// A price of the cost, and one for each ranged row: below 0 for its twin.
#[derive(Debug, Drop)]
pub(crate) struct WholePrices {
    pub d: i64,
    pub rows: Vec<i64>,
}

/// By which power of two the price of a row grows when it becomes one in units of cost.
fn price_shift(scale: &Scale, size: i16) -> i32 {
    i32::from(scale.cost) - i32::from(size) - FRACTION
}

/// The greatest d at which every price stays within the multipliers' limit.
fn greatest_d(scale: &Scale, prices: &[i64]) -> i64 {
    let mut most: i128 = 1;
    for (price, size) in prices.iter().zip(&scale.rows) {
        let by = price_shift(scale, *size).saturating_add(COST_FRACTION);
        most = most.max(shifted(size_of(i128::from(*price)), by));
    }
    let limit = i128::from(MOST_MULTIPLIER) << COST_FRACTION;
    held(
        limit
            .checked_div(most)
            .unwrap_or(1)
            .clamp(1, i128::from(MOST_MULTIPLIER)),
    )
}

/// A size times d in units of cost, rounded to the nearest whole number.
fn rounded(size: i128, d: i64, by: i32) -> i128 {
    let double = shifted(size.wrapping_mul(i128::from(d)), by.saturating_add(1));
    double.saturating_add(1) >> 1
}

/// A whole number of the sign of a price.
fn signed(price: i64, size: i128) -> i64 {
    let limited = held(size.min(i128::from(MOST_MULTIPLIER)));
    if price < 0 {
        limited.saturating_neg()
    } else {
        limited
    }
}

/// How far a size times d is from a whole number, times what that weighs, in fixed point.
fn error_of(size: i128, d: i64, by: i32, row_bits: i16) -> i128 {
    if by >= 0 || by < -100 {
        return 0;
    }
    let whole = shifted(1, by.saturating_neg());
    let product = size.wrapping_mul(i128::from(d));
    let above = product & (whole.saturating_sub(1));
    let away = above.min(whole.saturating_sub(above));
    shifted(away, by.saturating_add(i32::from(row_bits) + COST_FRACTION))
}

/// What rounding at d may cost, in fixed point.
fn error_at(scale: &Scale, prices: &[i64], d: i64) -> i128 {
    let mut total: i128 = 0;
    for (price, size) in prices.iter().zip(&scale.rows) {
        let by = price_shift(scale, *size);
        let error = error_of(size_of(i128::from(*price)), d, by, *size);
        total = total.saturating_add(error);
    }
    total.checked_div(i128::from(d)).unwrap_or(0)
}

/// The d, from the greatest to a quarter of it, at which rounding costs least, or the first that is good enough.
fn best_d(scale: &Scale, prices: &[i64], turns: &mut Turns) -> i64 {
    let first = greatest_d(scale, prices);
    let lowest = (first / 4).max(1);
    let step = (first.saturating_sub(lowest) / i64::from(TRIED)).max(1);
    let mut best = first;
    let mut least = error_at(scale, prices, first);
    let mut d = first;
    for _ in 0..TRIED {
        d = d.saturating_sub(step);
        if least <= SMALL_ERROR || d < lowest || !turns.take() {
            return best;
        }
        let error = error_at(scale, prices, d);
        if error < least {
            least = error;
            best = d;
        }
    }
    best
}

impl WholePrices {
    /// The prices of a basis, rounded where that costs little.
    pub(crate) fn of_basis(
        alloc: Global,
        scale: &Scale,
        prices: &[i64],
        turns: &mut Turns,
    ) -> Result<WholePrices, AllocError> {
        let d = best_d(scale, prices, turns);
        let mut rows = Vec::with_capacity(alloc, prices.len())?;
        for (price, size) in prices.iter().zip(&scale.rows) {
            let by = price_shift(scale, *size);
            rows.push(signed(*price, rounded(size_of(i128::from(*price)), d, by)))?;
        }
        Ok(WholePrices { d, rows })
    }

    /// The prices along a direction, without the cost, as large as they may be.
    pub(crate) fn of_ray(
        alloc: Global,
        scale: &Scale,
        ray: &[i64],
    ) -> Result<WholePrices, AllocError> {
        let mut most = i32::MIN;
        for (price, size) in ray.iter().zip(&scale.rows) {
            if *price != 0 {
                most = most.max(i32::from(bits(i128::from(*price))) - i32::from(*size));
            }
        }
        let mut rows = Vec::with_capacity(alloc, ray.len())?;
        for (price, size) in ray.iter().zip(&scale.rows) {
            let by = 30i32.saturating_sub(most).saturating_sub(i32::from(*size));
            rows.push(signed(*price, shifted(size_of(i128::from(*price)), by)))?;
        }
        Ok(WholePrices { d: 0, rows })
    }

    /// The price of a ranged row, and 0 past the last.
    pub(crate) fn of_row(&self, place: usize) -> i64 {
        self.rows.get(place).copied().unwrap_or(0)
    }

    /// The same with opposite signs.
    pub(crate) fn turn(&mut self) {
        for price in self.rows.iter_mut() {
            *price = price.saturating_neg();
        }
    }
}
