//! Problems that were worked by hand, and that calls succeed.
ghost use Rattle.std.specs.Prelude.{◌≡◌, ◌≤◌, ◌^◌, ◌∷◌, [], IfOk, unsigned_abs};
ghost use Rattle.lin_bound.specs.Problem.{IsLegal};
ghost use Rattle.sketch.specs.Parts.{IsPartOf};
ghost use Rattle.sketch.specs.Worked as worked;

use crate::{HeldPart, given, given_cost, joined, refine_problem, sketch_problem};
use lin_bound::Problem;
use sqlite_items::Items;
use std::alloc::{AllocError, Global};
use std::test::*;

// A problem of one row.
fn one_row(
    alloc: Global,
    cost: &[i64],
    row: &[i64],
    rhs: &[i64],
    upper: &[u64],
) -> Result<Problem, AllocError>
    requires { IsLegal (record {
      cost = cost.now;
      rows = row.now ∷ [];
      rhs = rhs.now;
      upper = upper.now;
    }) }
    ensures { IfOk result (λ problem. problem ≡ record {
      cost = cost.now;
      rows = row.now ∷ [];
      rhs = rhs.now;
      upper = upper.now;
    }) }
{
    let mut rows = Items::new(alloc);
    rows.push(Items::from_slice(alloc, row)?)?;
    Ok(Problem::new(
        Items::from_slice(alloc, cost)?,
        rows,
        Items::from_slice(alloc, rhs)?,
        Items::from_slice(alloc, upper)?,
    ))
}

// The worked problem.
fn whole(alloc: Global) -> Result<Problem, AllocError>
    ensures { IfOk result (λ problem. problem ≡ worked.whole) }
{
    one_row(
        alloc,
        &[4, -1, -2, 7, 0, -3],
        &[1, 2, 3, 4, 5, 6],
        &[10],
        &[2, 2, 2, 2, 2, 2],
    )
}

// Its three parts.
fn three(alloc: Global) -> Result<Items<Items<u32>>, AllocError>
    ensures { IfOk result (λ parts. parts ≡ worked.three) }
{
    let mut parts = Items::new(alloc);
    parts.push(Items::from_slice(alloc, &[1, 2])?)?;
    parts.push(Items::from_slice(alloc, &[0])?)?;
    parts.push(Items::from_slice(alloc, &[5, 3, 4])?)?;
    Ok(parts)
}

// A count for each of their members.
fn counts(alloc: Global) -> Result<Items<Items<u64>>, AllocError>
    ensures { IfOk result (λ counts. counts ≡ worked.counts) }
{
    let mut counts = Items::new(alloc);
    counts.push(Items::from_slice(alloc, &[0, 1])?)?;
    counts.push(Items::from_slice(alloc, &[2])?)?;
    counts.push(Items::from_slice(alloc, &[1, 0, 2])?)?;
    Ok(counts)
}

// The coefficients of a row.
fn tell_row(problem: &Problem, row: usize, told: &mut Vec<i128>) -> Result<(), AllocError> {
    for variable in 0..problem.variables() {
        if row < problem.row_count() {
            told.push(i128::from(problem.coefficient(row, variable)))?;
        }
    }
    Ok(())
}

// The cost, and each row with its right-hand side.
fn tell_lines(problem: &Problem, told: &mut Vec<i128>) -> Result<(), AllocError> {
    for variable in 0..problem.variables() {
        told.push(i128::from(problem.cost(variable)))?;
    }
    for row in 0..problem.row_count() {
        tell_row(problem, row, told)?;
        told.push(i128::from(problem.rhs(row)))?;
    }
    Ok(())
}

// A problem's lines, and after them its uppers.
fn told(alloc: Global, problem: &Problem) -> Result<Vec<i128>, AllocError> {
    let mut told = Vec::new(alloc);
    tell_lines(problem, &mut told)?;
    for upper in problem.uppers() {
        told.push(i128::from(*upper))?;
    }
    Ok(told)
}

// The sketch of the worked problem.
fn sketched(alloc: Global) -> Result<Vec<i128>, AllocError> {
    let problem = whole(alloc)?;
    let parts = three(alloc)?;
    let sketch = sketch_problem(alloc, &problem, parts.as_slice())?;
    told(alloc, &sketch)
}

#[test]
fn sketch_of_three_parts(rt: HostRuntime) -> Result<(), Fail> {
    // the mean of -1 and -2 is -1
    let told = sketched(rt.alloc())?;
    assert_eq!(rt;
        told.as_slice(),
        [-1, 4, 1, 2, 1, 5, 10, 4, 2, 6].as_slice()
    );
    Ok(())
}

// The problem of a part of the worked problem.
fn refined(alloc: Global, part: &[u32], others: i128) -> Result<Vec<i128>, AllocError>
    requires part { IsPartOf worked.whole part.now }
    requires small { unsigned_abs others ≤ 2 ^ 100 }
{
    let problem = whole(alloc)?;
    let refined = refine_problem(alloc, &problem, part, &[others])?;
    told(alloc, &refined)
}

// The problem of the last part, where the others give 8.
fn last_part(alloc: Global) -> Result<Vec<i128>, AllocError> {
    refined(alloc, &[5, 3, 4], 8)
}

// The problem of the part of one member, where the others give this.
fn middle_part(alloc: Global, others: i128) -> Result<Vec<i128>, AllocError>
    requires { unsigned_abs others ≤ 2 ^ 100 }
{
    refined(alloc, &[0], others)
}

#[test]
fn refined_parts(rt: HostRuntime) -> Result<(), Fail> {
    let last = last_part(rt.alloc())?;
    assert_eq!(rt; last.as_slice(), [-3, 7, 0, 6, 4, 5, 2, 2, 2, 2].as_slice());
    // the most that may be given to a row, and the least
    let most = middle_part(rt.alloc(), 1 << 100)?;
    assert_eq!(rt;
        most.as_slice(),
        [4, 1, -2_305_843_009_213_693_952, 2].as_slice()
    );
    let least = middle_part(rt.alloc(), -(1 << 100))?;
    assert_eq!(rt;
        least.as_slice(),
        [4, 1, 2_305_843_009_213_693_952, 2].as_slice()
    );
    Ok(())
}

// What 3 of the first part's sketch give to the row.
fn sketch_gift(alloc: Global) -> Result<i128, AllocError> {
    let problem = whole(alloc)?;
    Ok(given(&problem, 0, &[1, 2], 2, &HeldPart::Sketch(3)))
}

// What real counts of the last part give to the row.
fn real_gift(alloc: Global) -> Result<i128, AllocError> {
    let problem = whole(alloc)?;
    let counts = Items::from_slice(alloc, &[1, 0, 2])?;
    Ok(given(&problem, 0, &[5, 3, 4], 5, &HeldPart::Real(counts)))
}

// And what they give to the cost.
fn cost_gift(alloc: Global) -> Result<i128, AllocError> {
    let problem = whole(alloc)?;
    let counts = Items::from_slice(alloc, &[1, 0, 2])?;
    Ok(given_cost(&problem, &[5, 3, 4], 1, &HeldPart::Real(counts)))
}

#[test]
fn what_parts_give(rt: HostRuntime) -> Result<(), Fail> {
    assert_eq!(rt; sketch_gift(rt.alloc())?, 6);
    assert_eq!(rt; real_gift(rt.alloc())?, 16);
    assert_eq!(rt; cost_gift(rt.alloc())?, -3);
    Ok(())
}

// The counts of the worked parts, by variable.
fn together(alloc: Global) -> Result<Items<u64>, AllocError> {
    let problem = whole(alloc)?;
    let parts = three(alloc)?;
    let counts = counts(alloc)?;
    let point = joined(alloc, &problem, parts.as_slice(), counts.as_slice())?;
    Items::from_slice(alloc, point.counts())
}

#[test]
fn counts_put_together(rt: HostRuntime) -> Result<(), Fail> {
    assert_eq!(rt;
        together(rt.alloc())?.as_slice(),
        [2, 0, 1, 0, 2, 1].as_slice()
    );
    Ok(())
}

// A problem of one variable and no row.
fn lone(alloc: Global) -> Result<Problem, AllocError>
    ensures { IfOk result (λ problem. problem ≡ worked.lone) }
{
    Ok(Problem::new(
        Items::from_slice(alloc, &[5])?,
        Items::new(alloc),
        Items::new(alloc),
        Items::from_slice(alloc, &[3])?,
    ))
}

// Its one part.
fn one_part(alloc: Global) -> Result<Items<Items<u32>>, AllocError>
    ensures { IfOk result (λ parts. parts ≡ worked.one_part) }
{
    let mut parts = Items::new(alloc);
    parts.push(Items::from_slice(alloc, &[0])?)?;
    Ok(parts)
}

// Its sketch.
fn lone_sketched(alloc: Global) -> Result<Vec<i128>, AllocError> {
    let problem = lone(alloc)?;
    let parts = one_part(alloc)?;
    let sketch = sketch_problem(alloc, &problem, parts.as_slice())?;
    told(alloc, &sketch)
}

// The problem that refines its one part.
fn lone_refined(alloc: Global) -> Result<Vec<i128>, AllocError> {
    let problem = lone(alloc)?;
    let refined = refine_problem(alloc, &problem, &[0], &[])?;
    told(alloc, &refined)
}

#[test]
fn no_rows(rt: HostRuntime) -> Result<(), Fail> {
    assert_eq!(rt; lone_sketched(rt.alloc())?.as_slice(), [5, 3].as_slice());
    assert_eq!(rt; lone_refined(rt.alloc())?.as_slice(), [5, 3].as_slice());
    Ok(())
}
