//! The problem that refines one part, as SketchRefine has it (Brucato, Abouzied, Meliou: "Package queries: efficient
//! and scalable computation of high-order constraints", VLDB Journal 27, 2018).
ghost use Rattle.std.specs.Prelude.{◌≡◌, ◌<◌, ◌≤◌, ◌-ℤ◌, length, map, unsigned_abs, IfOk};
ghost use Rattle.std.specs.List.{range_with_len};
ghost use Rattle.lin_bound.specs.Problem.{IsLegal, row_count};
ghost use Rattle.lin_bound.specs.Sums.{int_at, nat_at};
ghost use Rattle.sketch.specs.Parts.{IsPartOf};
ghost use Rattle.sketch.specs.Lines.{numbers_of, IsLineOf};
ghost use Rattle.sketch.specs.Refined as spec;
ghost use Rattle.sketch.specs.Refined.{refine_of, AreSmall, held_side, most_others};

use crate::lines::{Line, number};
use lin_bound::Problem;
use sqlite_items::Items;
use std::alloc::{AllocError, Global};

/// The most that a right-hand side is in size.
const MOST_SIDE: i128 = 1 << 61;

/// The number, or the nearest that a right-hand side may be.
fn held_side(number: i128) -> i64
    ensures { result ≡ held_side number }
{
    number.clamp(-MOST_SIDE, MOST_SIDE) as i64
}

/// What one unit of each member adds to a line.
fn numbers_at(
    alloc: Global,
    problem: &Problem,
    line: Line,
    part: &[u32],
) -> Result<Items<i64>, AllocError>
    requires line { IsLineOf problem.now line }
    requires part { IsPartOf problem.now part.now }
    ensures { IfOk result (λ numbers.
        numbers ≡ spec.numbers_at part.now (numbers_of problem.now line)) }
{
    let mut numbers = Items::new(alloc);
    for member in part {
        numbers.push(number(problem, line, *member))?;
    }
    Ok(numbers)
}

/// What one unit of each member adds to each row.
fn rows_at(alloc: Global, problem: &Problem, part: &[u32]) -> Result<Items<Items<i64>>, AllocError>
    requires { IsPartOf problem.now part.now }
    ensures { IfOk result (λ rows. rows ≡ map (spec.numbers_at part.now) problem.now.rows) }
{
    let mut rows = Items::new(alloc);
    for row in 0..problem.row_count() {
        rows.push(numbers_at(alloc, problem, Line::Row(row), part)?)?;
    }
    Ok(rows)
}

/// What the others leave of a row's right-hand side.
fn side_left(problem: &Problem, row: usize, others: i128) -> i64
    requires row { row < row_count problem.now }
    requires small { unsigned_abs others ≤ most_others }
    ensures { result ≡ held_side (int_at problem.now.rhs row -ℤ others) }
{
    held_side(i128::from(problem.rhs(row)) - others)
}

/// What the others leave of each right-hand side.
fn sides_left(alloc: Global, problem: &Problem, others: &[i128]) -> Result<Items<i64>, AllocError>
    requires each { length others.now ≡ row_count problem.now }
    requires small { AreSmall others.now }
    ensures { IfOk result (λ sides. sides
        ≡ map (spec.side_left problem.now others.now) (range_with_len 0 (row_count problem.now))) }
{
    let mut sides = Items::new(alloc);
    for row in 0..others.len() {
        sides.push(side_left(problem, row, others[row]))?;
    }
    Ok(sides)
}

/// The uppers of a part's members.
fn uppers_at(alloc: Global, problem: &Problem, part: &[u32]) -> Result<Items<u64>, AllocError>
    requires { IsPartOf problem.now part.now }
    ensures { IfOk result (λ uppers. uppers ≡ map (nat_at problem.now.upper) part.now) }
{
    let mut uppers = Items::new(alloc);
    for member in part {
        uppers.push(problem.upper(*member as usize))?;
    }
    Ok(uppers)
}

/// The problem of a part's members, where the other parts give a number to each row. It takes time by rows times
/// members, and no memory but for the problem.
pub fn refine_problem(
    alloc: Global,
    problem: &Problem,
    part: &[u32],
    others: &[i128],
) -> Result<Problem, AllocError>
    requires part { IsPartOf problem.now part.now }
    requires each { length others.now ≡ row_count problem.now }
    requires small { AreSmall others.now }
    ensures { IfOk result (λ made. made ≡ refine_of problem.now part.now others.now) }
{
    let _legal = problem.variables();
    let cost = numbers_at(alloc, problem, Line::Cost, part)?;
    let rows = rows_at(alloc, problem, part)?;
    let rhs = sides_left(alloc, problem, others)?;
    let upper = uppers_at(alloc, problem, part)?;
    Ok(Problem::new(cost, rows, rhs, upper))
}
