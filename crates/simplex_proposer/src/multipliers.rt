//! Legal multipliers for whole prices.
ghost use Rattle.std.specs.Prelude.{◌≡◌, ◌≤◌, ◌^◌, length, IfOk};
ghost use Rattle.lin_bound.specs.Bound.{IsMult};
ghost use Rattle.simplex_proposer.specs.Multipliers.{AreSmall};

use crate::ranged::RangedRow;
use crate::rounding::WholePrices;
use lin_bound::{Mult, Problem};
use sqlite_items::Items;
use std::alloc::{AllocError, Global};

/// The greatest multiplier.
pub(crate) const MOST_MULTIPLIER: i64 = 1 << 30;

/// The nearest multiplier that is legal.
fn legal(price: i64) -> u32
    ensures { result ≤ 2 ^ 30 }
{
    price.clamp(0, MOST_MULTIPLIER) as u32
}

/// Writes the multiplier of a row, unless it is past the last.
fn put(lambda: &mut Vec<u32>, row: usize, price: i64)
    requires { AreSmall lambda.old.items }
    ensures small { AreSmall lambda.new.items }
    ensures same { length lambda.new.items ≡ length lambda.old.items }
{
    if row < lambda.len() {
        lambda[row] = legal(price);
    }
}

/// Writes the multipliers of a ranged row: a price below 0 is one of its twin.
fn put_both(lambda: &mut Vec<u32>, row: &RangedRow, price: i64)
    requires { AreSmall lambda.old.items }
    ensures small { AreSmall lambda.new.items }
    ensures same { length lambda.new.items ≡ length lambda.old.items }
{
    put(lambda, row.row, price);
    if let Some(twin) = row.twin {
        put(lambda, twin, price.saturating_neg());
    }
}

/// The multipliers of whole prices of some ranged rows. The other rows get none.
pub(crate) fn mult_of(
    alloc: Global,
    problem: &Problem,
    rows: &[RangedRow],
    prices: &WholePrices,
) -> Result<Mult, AllocError>
    ensures { IfOk result (λ mult. IsMult problem.now mult) }
{
    let mut lambda = vec![in alloc; 0u32; problem.row_count()]?;
    for (place, row) in rows.iter().enumerate() {
        put_both(&mut lambda, row, prices.of_row(place));
    }
    Ok(Mult {
        d: legal(prices.d),
        lambda: Items::from_vec(lambda),
    })
}

/// The multipliers of a row and the one after it alone, 1 each.
pub(crate) fn mult_of_both(alloc: Global, problem: &Problem, row: usize) -> Result<Mult, AllocError>
    ensures { IfOk result (λ mult. IsMult problem.now mult) }
{
    let mut lambda = vec![in alloc; 0u32; problem.row_count()]?;
    put(&mut lambda, row, 1);
    put(&mut lambda, row.saturating_add(1), 1);
    Ok(Mult {
        d: 0,
        lambda: Items::from_vec(lambda),
    })
}
