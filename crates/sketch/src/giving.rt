//! What a held part gives to the cost and to the rows of the whole problem.
ghost use Rattle.std.specs.Prelude.{◌≡◌, ◌<◌, ◌≤◌, ◌^◌, pos, ◌*ℤ◌, unsigned_abs};
ghost use Rattle.lin_bound.specs.Problem.{IsLegal, row_count, row_of};
ghost use Rattle.lin_bound.specs.Sums.{int_at, nat_at};
ghost use Rattle.sketch.specs.Parts as parts;
ghost use Rattle.sketch.specs.Parts.{IsEven, IsPartOf};
ghost use Rattle.sketch.specs.Lines.{numbers_of, IsLineOf};
ghost use Rattle.sketch.specs.Held as spec;
ghost use Rattle.sketch.specs.Held.{IsHeldOf, IsRealOf};

use crate::held::HeldPart;
use crate::lines::{Line, number};
use lin_bound::Problem;

/// What so many units add.
fn product(number: i64, count: u64) -> i128
    ensures { result ≡ number *ℤ pos count }
{
    i128::from(number) * i128::from(count)
}

/// What real counts of a part give to a line.
fn given_by_members(problem: &Problem, line: Line, part: &[u32], counts: &[u64]) -> i128
    requires line { IsLineOf problem.now line }
    requires part { IsPartOf problem.now part.now }
    requires counts { IsRealOf problem.now part.now counts.now }
    ensures { result ≡ spec.given (numbers_of problem.now line) part.now (HeldPart.Real counts.now) }
{
    let mut total: i128 = 0;
    for place in 0..part.len() {
        total += product(number(problem, line, part[place]), counts[place]);
    }
    total
}

/// What a held part gives to a line.
fn given_to(problem: &Problem, line: Line, part: &[u32], mean: i64, held: &HeldPart) -> i128
    requires line { IsLineOf problem.now line }
    requires part { IsPartOf problem.now part.now }
    requires mean { mean ≡ parts.mean (numbers_of problem.now line) part.now }
    requires held { IsHeldOf problem.now part.now held.now }
    ensures { result ≡ spec.given (numbers_of problem.now line) part.now held.now }
{
    match held {
        HeldPart::Sketch(count) => product(mean, *count),
        HeldPart::Real(counts) => given_by_members(problem, line, part, counts.as_slice()),
    }
}

/// What a held part gives to a row. The mean is the sketch's coefficient in that row, so a part that is not refined
/// takes no time by its members; real counts take time by them.
pub fn given(problem: &Problem, row: usize, part: &[u32], mean: i64, held: &HeldPart) -> i128
    requires row { row < row_count problem.now }
    requires even { IsEven problem.now }
    requires part { IsPartOf problem.now part.now }
    requires mean { mean ≡ parts.mean (row_of problem.now row) part.now }
    requires held { IsHeldOf problem.now part.now held.now }
    ensures value { result ≡ spec.given (row_of problem.now row) part.now held.now }
    ensures small { unsigned_abs result ≤ 2 ^ 60 }
{
    let _legal = problem.variables();
    given_to(problem, Line::Row(row), part, mean, held)
}

/// What a held part gives to the cost. The mean is the sketch's cost of the part.
pub fn given_cost(problem: &Problem, part: &[u32], mean: i64, held: &HeldPart) -> i128
    requires even { IsEven problem.now }
    requires part { IsPartOf problem.now part.now }
    requires mean { mean ≡ parts.mean problem.now.cost part.now }
    requires held { IsHeldOf problem.now part.now held.now }
    ensures value { result ≡ spec.given problem.now.cost part.now held.now }
    ensures small { unsigned_abs result ≤ 2 ^ 60 }
{
    let _legal = problem.variables();
    given_to(problem, Line::Cost, part, mean, held)
}
