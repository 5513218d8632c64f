//! Proposals for problems whose linear optimum was computed by hand.
ghost use Rattle.std.specs.Prelude.{◌∷◌, []};
ghost use Rattle.lin_bound.specs.Problem.{IsLegal};

use lin_bound::{Path, Problem, bound, box_of, plain_mult};
use simplex_proposer::propose;
use sqlite_items::Items;
use std::alloc::{AllocError, Global};
use std::test::*;

/// A problem of one row.
fn one_row(
    alloc: Global,
    cost: &[i64],
    row: &[i64],
    most: i64,
    upper: &[u64],
) -> Result<Problem, AllocError>
    requires { IsLegal (record {
      cost = cost.now;
      rows = row.now ∷ [];
      rhs = most ∷ [];
      upper = upper.now;
    }) }
{
    let mut rows = Items::new(alloc);
    rows.push(Items::from_slice(alloc, row)?)?;
    Ok(Problem::new(
        Items::from_slice(alloc, cost)?,
        rows,
        Items::from_slice(alloc, &[most])?,
        Items::from_slice(alloc, upper)?,
    ))
}

/// A problem of two rows.
fn two_rows(
    alloc: Global,
    cost: &[i64],
    first: &[i64],
    second: &[i64],
    most: &[i64],
    upper: &[u64],
) -> Result<Problem, AllocError>
    requires { IsLegal (record {
      cost = cost.now;
      rows = first.now ∷ second.now ∷ [];
      rhs = most.now;
      upper = upper.now;
    }) }
{
    let mut rows = Items::new(alloc);
    rows.push(Items::from_slice(alloc, first)?)?;
    rows.push(Items::from_slice(alloc, second)?)?;
    Ok(Problem::new(
        Items::from_slice(alloc, cost)?,
        rows,
        Items::from_slice(alloc, most)?,
        Items::from_slice(alloc, upper)?,
    ))
}

/// At most six of twelve that are worth 1 each.
fn six_of_twelve(alloc: Global) -> Result<Problem, AllocError> {
    one_row(alloc, &[1; 12], &[1; 12], 6, &[1; 12])
}

/// A knapsack: 10 + 7/2 is its linear optimum.
fn knapsack(alloc: Global) -> Result<Problem, AllocError> {
    one_row(alloc, &[3, 10, 7], &[2, 5, 4], 7, &[1, 1, 1])
}

/// Twice the sum of three is to be 3, so 3/2 is the linear optimum of the sum.
fn odd_sum(alloc: Global) -> Result<Problem, AllocError> {
    two_rows(
        alloc,
        &[1, 1, 1],
        &[2, 2, 2],
        &[-2, -2, -2],
        &[3, -3],
        &[1, 1, 1],
    )
}

/// x + 2y <= 5 and 3x + y <= 6 with the cost 4x + 5y: x = 7/5 and y = 9/5 come to 73/5.
fn two_binding(alloc: Global) -> Result<Problem, AllocError> {
    two_rows(alloc, &[4, 5], &[1, 2], &[3, 1], &[5, 6], &[9, 9])
}

/// A sum of three is to be at most 1 and at least 2.
fn crossed(alloc: Global) -> Result<Problem, AllocError> {
    two_rows(
        alloc,
        &[1, 1, 1],
        &[1, 1, 1],
        &[-1, -1, -1],
        &[1, -2],
        &[1, 1, 1],
    )
}

/// x + y <= 1 and 2x + y >= 3, where neither row is beyond the box alone.
fn empty_together(alloc: Global) -> Result<Problem, AllocError> {
    two_rows(alloc, &[1, 1], &[1, 1], &[-2, -1], &[1, -3], &[3, 3])
}

/// One variable whose coefficients are as large as they can be: one half of it is the linear optimum.
fn largest(alloc: Global) -> Result<Problem, AllocError> {
    let most = 1_152_921_504_606_846_976;
    two_rows(alloc, &[most], &[most], &[-most], &[most / 2, most], &[1])
}

/// No variables.
fn nothing(alloc: Global) -> Result<Problem, AllocError> {
    one_row(alloc, &[], &[], 0, &[])
}

/// The dual bound of the whole box, rounded down, by a proposal whose hint is an earlier one. It is -1 if the
/// multipliers show that the box is empty.
fn bound_of(alloc: Global, problem: Problem) -> Result<i128, AllocError> {
    let region = box_of(alloc, &problem, &Path::new(alloc))?;
    let plain = plain_mult(alloc, &problem, 0)?;
    let hint = propose(alloc, &problem, &region, &plain)?;
    let proposal = propose(alloc, &problem, &region, &hint.mult)?;
    let whole = bound(&problem, &region, &proposal.mult);
    if proposal.mult.d == 0 && whole < 0 {
        return Ok(-1);
    }
    Ok(
        whole
            .checked_div_euclid(i128::from(proposal.mult.d))
            .unwrap_or(i128::MAX),
    )
}

#[test]
fn bounds_are_linear_optima(rt: HostRuntime) -> Result<(), Fail> {
    let alloc = rt.alloc();
    assert_eq!(rt; bound_of(alloc, six_of_twelve(alloc)?)?, 6);
    assert_eq!(rt; bound_of(alloc, knapsack(alloc)?)?, 13);
    assert_eq!(rt; bound_of(alloc, odd_sum(alloc)?)?, 1);
    assert_eq!(rt; bound_of(alloc, two_binding(alloc)?)?, 14);
    assert_eq!(rt; bound_of(alloc, largest(alloc)?)?, 1 << 59);
    assert_eq!(rt; bound_of(alloc, nothing(alloc)?)?, 0);
    Ok(())
}

#[test]
fn empty_boxes_are_shown(rt: HostRuntime) -> Result<(), Fail> {
    let alloc = rt.alloc();
    assert_eq!(rt; bound_of(alloc, crossed(alloc)?)?, -1);
    assert_eq!(rt; bound_of(alloc, empty_together(alloc)?)?, -1);
    Ok(())
}

/// Where the whole box is to be split.
fn place_of(alloc: Global, problem: Problem) -> Result<(u32, u64), AllocError> {
    let region = box_of(alloc, &problem, &Path::new(alloc))?;
    let plain = plain_mult(alloc, &problem, 0)?;
    let proposal = propose(alloc, &problem, &region, &plain)?;
    Ok((proposal.var, proposal.at))
}

#[test]
fn fractions_are_split(rt: HostRuntime) -> Result<(), Fail> {
    assert_eq!(rt; place_of(rt.alloc(), knapsack(rt.alloc())?)?, (2, 0));
    Ok(())
}
