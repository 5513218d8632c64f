//! Points for problems that were solved by hand.
ghost use Rattle.std.specs.Prelude.{◌≤◌, ◌^◌, ◌∷◌, [], ◌≡◌, IfOk};
ghost use Rattle.lin_bound.specs.Problem.{IsLegal, row_count};

use lin_bound::{Mult, Path, Problem, box_of};
use round_proposer::round_points;
use sqlite_items::Items;
use std::alloc::{AllocError, Global};
use std::test::*;

/// A problem of two rows.
fn two_rows(
    alloc: Global,
    cost: &[i64],
    first: &[i64],
    second: &[i64],
    most: &[i64],
    upper: &[u64],
) -> Result<Problem, AllocError>
    requires { IsLegal (record {
      cost = cost.now;
      rows = first.now ∷ second.now ∷ [];
      rhs = most.now;
      upper = upper.now;
    }) }
    ensures { IfOk result (λ problem. row_count problem ≡ 2) }
{
    let mut rows = Items::new(alloc);
    rows.push(Items::from_slice(alloc, first)?)?;
    rows.push(Items::from_slice(alloc, second)?)?;
    Ok(Problem::new(
        Items::from_slice(alloc, cost)?,
        rows,
        Items::from_slice(alloc, most)?,
        Items::from_slice(alloc, upper)?,
    ))
}

/// At most six of twelve that are worth 1 each.
fn six_of_twelve(alloc: Global) -> Result<Problem, AllocError>
    ensures { IfOk result (λ problem. row_count problem ≡ 2) }
{
    two_rows(alloc, &[1; 12], &[1; 12], &[0; 12], &[6, 0], &[1; 12])
}

/// A knapsack whose best point has the cost 13.
fn knapsack(alloc: Global) -> Result<Problem, AllocError>
    ensures { IfOk result (λ problem. row_count problem ≡ 2) }
{
    two_rows(
        alloc,
        &[3, 10, 7],
        &[2, 5, 4],
        &[0, 0, 0],
        &[7, 0],
        &[1, 1, 1],
    )
}

/// Exactly two of three.
fn two_of_three(alloc: Global) -> Result<Problem, AllocError>
    ensures { IfOk result (λ problem. row_count problem ≡ 2) }
{
    two_rows(
        alloc,
        &[3, 2, 1],
        &[1, 1, 1],
        &[-1, -1, -1],
        &[2, -2],
        &[1, 1, 1],
    )
}

/// No variables.
fn nothing(alloc: Global) -> Result<Problem, AllocError>
    ensures { IfOk result (λ problem. row_count problem ≡ 2) }
{
    two_rows(alloc, &[], &[], &[], &[0, 0], &[])
}

/// The cost of the point of the whole box that these multipliers lead to, or none if there is no feasible one.
fn found(alloc: Global, problem: Problem, d: u32, lambda: u32) -> Result<Option<i64>, AllocError>
    requires rows { row_count problem ≡ 2 }
    requires d { d ≤ 2 ^ 30 }
    requires lambda { lambda ≤ 2 ^ 30 }
{
    let mult = Mult {
        d,
        lambda: Items::from_slice(alloc, &[lambda, 0])?,
    };
    let region = box_of(alloc, &problem, &Path::new(alloc))?;
    for point in round_points(alloc, &problem, &region, &mult)? {
        if problem.is_feasible(&point) {
            return Ok(Some(problem.cost_of(&point)));
        }
    }
    Ok(None)
}

#[test]
fn best_points_are_found(rt: HostRuntime) -> Result<(), Fail> {
    let alloc = rt.alloc();
    assert_eq!(rt; found(alloc, six_of_twelve(alloc)?, 1, 1)?, Some(6));
    assert_eq!(rt; found(alloc, knapsack(alloc)?, 4, 7)?, Some(13));
    assert_eq!(rt; found(alloc, two_of_three(alloc)?, 1, 2)?, Some(5));
    assert_eq!(rt; found(alloc, nothing(alloc)?, 1, 0)?, Some(0));
    assert_eq!(rt; found(alloc, knapsack(alloc)?, 0, 1)?, None);
    Ok(())
}
