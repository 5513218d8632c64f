//! The cost and the rows of a problem, as lines of one number a variable.
ghost use Rattle.std.specs.Prelude.{◌≡◌, ◌<◌};
ghost use Rattle.lin_bound.specs.Problem.{variables, IsLegal};
ghost use Rattle.lin_bound.specs.Sums.{int_at};
ghost use Rattle.sketch.specs.Lines.{numbers_of, IsLineOf};

use lin_bound::Problem;

/// The cost, or the row with this number.
#[derive(Clone, Copy, Debug)]
pub(crate) enum Line {
    Cost,
    Row(usize),
}

/// What one unit of a variable adds to a line.
pub(crate) fn number(problem: &Problem, line: Line, variable: u32) -> i64
    requires line { IsLineOf problem.now line }
    requires variable { variable < variables problem.now }
    ensures value { result ≡ int_at (numbers_of problem.now line) variable }
    ensures legal { IsLegal problem.now }
{
    match line {
        Line::Cost => problem.cost(variable as usize),
        Line::Row(row) => problem.coefficient(row, variable as usize),
    }
}
