//! Where to split a box that multipliers don't close.

use crate::breakpoints::VALUE_FRACTION;
use crate::columns::{Column, Program};
use crate::dual::{Dual, End};
use crate::fixed::{bits, held, shifted};
use crate::turns::Turns;
use std::alloc::{AllocError, Global};

/// How many variables are tried.
const MOST_TRIED: usize = 4;

/// How many steps a trial takes.
const TRIAL_STEPS: usize = 8;

/// A whole unit in fixed point.
const ONE: i64 = 1 << VALUE_FRACTION;

/// A variable, and a count below which one half of the box ends.
#[derive(Clone, Copy, Debug)]
pub(crate) struct Place {
    pub variable: usize,
    pub at: u64,
}

/// A variable whose value is no whole number.
#[derive(Clone, Copy, Debug)]
struct Fraction {
    column: usize,
    variable: usize,
    floor: i64,
    /// How far what is after the point is from one half.
    from_half: u64,
}

/// What each half of a trial loses of the bound.
#[derive(Clone, Copy, Debug)]
struct Losses {
    low: i128,
    high: i128,
}

/// The member at a place as a fraction, if it is a variable and its value is no whole number.
fn fraction_at(program: &Program, dual: &Dual, column: usize, value: i128) -> Option<Fraction> {
    let variable = program.variables.get(column).copied()?;
    let ends = dual.column(column)?;
    let floor = held(value >> VALUE_FRACTION);
    let after = held(value.wrapping_sub(i128::from(floor) << VALUE_FRACTION));
    if floor < ends.low || floor >= ends.high {
        return None;
    }
    if after <= ONE / 4096 || after >= ONE - ONE / 4096 {
        return None;
    }
    Some(Fraction {
        column,
        variable,
        floor,
        from_half: after.abs_diff(ONE / 2),
    })
}

/// The members that are no whole numbers, those nearest to one half first.
fn fractions(alloc: Global, program: &Program, dual: &Dual) -> Result<Vec<Fraction>, AllocError> {
    let mut found = Vec::new(alloc);
    for (member, value) in dual.basis.members.iter().zip(&dual.values) {
        if let Some(fraction) = fraction_at(program, dual, member.column, *value) {
            found.push(fraction)?;
        }
    }
    found.sort_unstable_by_key(|fraction| fraction.from_half);
    Ok(found)
}

/// What half of the box loses of the bound in a few steps; none where it turns out to be empty.
fn loss_of(
    alloc: Global,
    program: &Program,
    dual: &Dual,
    fraction: &Fraction,
    is_high: bool,
    turns: &mut Turns,
) -> Result<Option<i128>, AllocError> {
    let mut trial = dual.copy(alloc)?;
    if fraction.column < trial.columns.len() {
        let column = &mut trial.columns[fraction.column];
        if is_high {
            column.low = fraction.floor.saturating_add(1);
        } else {
            column.high = fraction.floor;
        }
    }
    if trial.run(alloc, program, TRIAL_STEPS, turns)? == End::Ray {
        return Ok(None);
    }
    Ok(Some(
        dual.bound(program)
            .saturating_sub(trial.bound(program))
            .max(0),
    ))
}

/// What both halves lose. An empty half loses more than any other.
fn losses_of(
    alloc: Global,
    program: &Program,
    dual: &Dual,
    fraction: &Fraction,
    turns: &mut Turns,
) -> Result<Losses, AllocError> {
    let low = loss_of(alloc, program, dual, fraction, false, turns)?;
    let high = loss_of(alloc, program, dual, fraction, true, turns)?;
    Ok(Losses {
        low: low.unwrap_or(i128::MAX),
        high: high.unwrap_or(i128::MAX),
    })
}

/// A loss in at most 60 bits, where a unit of cost is the least that counts.
fn graded(loss: i128, unit: i128, shift: i32) -> i128 {
    if loss == i128::MAX {
        return 1 << 62;
    }
    shifted(loss.max(unit), shift.saturating_neg()).clamp(1, 1 << 60)
}

/// How good a place is: the product of what both halves lose, and more where that is the lower half, since one more
/// unit of a variable is worth more than the loss of one that fills a rest.
fn score_of(program: &Program, dual: &Dual, losses: Losses) -> i128 {
    let unit = shifted(1, program.scale.cost_shift());
    let size = i32::from(bits(dual.bound(program))).max(program.scale.window);
    let shift = size.saturating_sub(55).max(0);
    let product = graded(losses.low, unit, shift).saturating_mul(graded(losses.high, unit, shift));
    if losses.low > losses.high {
        product.saturating_mul(4)
    } else {
        product
    }
}

/// The best of the first fractions by trials.
fn best_of(
    alloc: Global,
    program: &Program,
    dual: &Dual,
    found: &[Fraction],
    turns: &mut Turns,
) -> Result<Option<Fraction>, AllocError> {
    if found.len() < 2 {
        return Ok(found.first().copied());
    }
    let mut best = None;
    let mut most = -1;
    for fraction in found.iter().take(MOST_TRIED) {
        let losses = losses_of(alloc, program, dual, fraction, turns)?;
        let score = score_of(program, dual, losses);
        if score > most {
            most = score;
            best = Some(*fraction);
        }
    }
    Ok(best)
}

/// A count below the high end of a column.
fn count_in(column: &Column, value: i64) -> u64 {
    value
        .max(column.low)
        .min(column.high.saturating_sub(1))
        .max(0)
        .unsigned_abs()
}

/// The value of a column, rounded to the nearest whole number.
fn whole_value(dual: &Dual, place: usize, column: &Column) -> i64 {
    for (member, value) in dual.basis.members.iter().zip(&dual.values) {
        if member.column == place {
            return held(value.saturating_add(i128::from(ONE / 2)) >> VALUE_FRACTION);
        }
    }
    column.rest()
}

/// The variable with room of the smallest reduced cost, at its value.
fn nearest_place(program: &Program, dual: &Dual) -> Option<Place> {
    let mut best = None;
    let mut least = u64::MAX;
    for (place, (variable, column)) in program.variables.iter().zip(&dual.columns).enumerate() {
        let size = column.reduced.unsigned_abs();
        if column.low < column.high && size < least {
            least = size;
            best = Some(Place {
                variable: *variable,
                at: count_in(column, whole_value(dual, place, column)),
            });
        }
    }
    best
}

/// Where to split the box: at a variable whose value at the basis is no whole number, if there is one.
/// See Achterberg, Koch and Martin, Branching rules revisited, Operations Research Letters 33 (2005).
pub(crate) fn choose_place(
    alloc: Global,
    program: &Program,
    dual: &Dual,
    turns: &mut Turns,
) -> Result<Option<Place>, AllocError> {
    let found = fractions(alloc, program, dual)?;
    if let Some(fraction) = best_of(alloc, program, dual, found.as_slice(), turns)? {
        return Ok(Some(Place {
            variable: fraction.variable,
            at: fraction.floor.max(0).unsigned_abs(),
        }));
    }
    Ok(nearest_place(program, dual))
}
