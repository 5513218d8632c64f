//! The sketch of a problem, as SketchRefine has it (Brucato, Abouzied, Meliou: "Package queries: efficient and scalable
//! computation of high-order constraints", VLDB Journal 27, 2018).
ghost use Rattle.std.specs.Prelude.{◌≡◌, ◌<◌, ◌^◌, length, map, IfOk};
ghost use Rattle.lin_bound.specs.Problem.{IsLegal};
ghost use Rattle.sketch.specs.Parts as spec;
ghost use Rattle.sketch.specs.Parts.{IsEven, ArePartsOf, IsPartOf, IsSumOf64};
ghost use Rattle.sketch.specs.Lines.{numbers_of, IsLineOf};
ghost use Rattle.sketch.specs.Sketched.{sketch_of, means_of};

use crate::lines::{Line, number};
use lin_bound::Problem;
use sqlite_items::Items;
use std::alloc::{AllocError, Global};

/// The sum of a line's numbers at a part's members.
fn part_sum(problem: &Problem, line: Line, part: &[u32]) -> i128
    requires line { IsLineOf problem.now line }
    requires part { IsPartOf problem.now part.now }
    ensures value { result ≡ spec.part_sum (numbers_of problem.now line) part.now }
    ensures range { IsSumOf64 (length part.now) result }
    ensures few { length part.now < 2 ^ 32 }
{
    let _legal = problem.variables();
    let mut sum: i128 = 0;
    for member in part {
        sum += i128::from(number(problem, line, *member));
    }
    sum
}

/// The mean of a line's numbers at a part's members, truncated toward zero.
fn mean(problem: &Problem, line: Line, part: &[u32]) -> i64
    requires line { IsLineOf problem.now line }
    requires part { IsPartOf problem.now part.now }
    ensures { result ≡ spec.mean (numbers_of problem.now line) part.now }
{
    let sum = part_sum(problem, line, part);
    (sum / part.len() as i128) as i64
}

/// A line of the sketch: a mean a part.
fn means(
    alloc: Global,
    problem: &Problem,
    line: Line,
    parts: &[Items<u32>],
) -> Result<Items<i64>, AllocError>
    requires line { IsLineOf problem.now line }
    requires parts { ArePartsOf problem.now parts.now }
    ensures { IfOk result (λ means. means ≡ means_of parts.now (numbers_of problem.now line)) }
{
    let mut means = Items::new(alloc);
    for part in parts {
        means.push(mean(problem, line, part.as_slice()))?;
    }
    Ok(means)
}

/// The rows of the sketch.
fn rows_of_means(
    alloc: Global,
    problem: &Problem,
    parts: &[Items<u32>],
) -> Result<Items<Items<i64>>, AllocError>
    requires { ArePartsOf problem.now parts.now }
    ensures { IfOk result (λ rows. rows ≡ map (means_of parts.now) problem.now.rows) }
{
    let mut rows = Items::new(alloc);
    for row in 0..problem.row_count() {
        rows.push(means(alloc, problem, Line::Row(row), parts)?)?;
    }
    Ok(rows)
}

/// The right-hand sides once more.
fn sides(alloc: Global, problem: &Problem) -> Result<Items<i64>, AllocError>
    ensures { IfOk result (λ sides. sides ≡ problem.now.rhs) }
{
    let _legal = problem.row_count();
    let mut sides = Items::new(alloc);
    for row in 0..problem.row_count() {
        sides.push(problem.rhs(row))?;
    }
    Ok(sides)
}

/// The sum of the uppers of a part's members.
fn upper_sum(problem: &Problem, part: &[u32]) -> u64
    requires even { IsEven problem.now }
    requires part { IsPartOf problem.now part.now }
    ensures { result ≡ spec.upper_sum problem.now.upper part.now }
{
    let _legal = problem.variables();
    let mut sum = 0;
    for member in part {
        sum += problem.upper(*member as usize);
    }
    sum
}

/// The uppers of the sketch.
fn upper_sums(
    alloc: Global,
    problem: &Problem,
    parts: &[Items<u32>],
) -> Result<Items<u64>, AllocError>
    requires even { IsEven problem.now }
    requires parts { ArePartsOf problem.now parts.now }
    ensures { IfOk result (λ uppers. uppers ≡ map (spec.upper_sum problem.now.upper) parts.now) }
{
    let mut uppers = Items::new(alloc);
    for part in parts {
        uppers.push(upper_sum(problem, part.as_slice()))?;
    }
    Ok(uppers)
}

/// The sketch of a problem whose variables all have the same upper: a variable a part. It takes time by rows times
/// variables, and no memory but for the sketch.
pub fn sketch_problem(
    alloc: Global,
    problem: &Problem,
    parts: &[Items<u32>],
) -> Result<Problem, AllocError>
    requires even { IsEven problem.now }
    requires parts { ArePartsOf problem.now parts.now }
    ensures { IfOk result (λ made. made ≡ sketch_of problem.now parts.now) }
{
    let _legal = problem.variables();
    let cost = means(alloc, problem, Line::Cost, parts)?;
    let rows = rows_of_means(alloc, problem, parts)?;
    let rhs = sides(alloc, problem)?;
    let upper = upper_sums(alloc, problem, parts)?;
    Ok(Problem::new(cost, rows, rhs, upper))
}
