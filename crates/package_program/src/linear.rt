//! A program with the ids of its variables' rows.
ghost use Rattle.std.specs.Prelude.{◌≡◌};
ghost use Rattle.package_program.specs.Linear.{IsLinear};

use lin_bound::Problem;
use std::marker::Model;

/// The program of a query, with the id of each variable's row. The ids ascend, and every upper is
/// the one row bound, at most 1,000,000.
#[derive(Debug, Drop)]
pub struct Linear {
    problem: Problem,
    ids: Vec<u64>,
}

impl Model for Linear {
    ghost use Rattle.package_program.specs.Linear.{LinearData, IsLinear};

    ghost Value = { LinearData };

    ghost view = { λ l. record { problem = l.problem; ids = l.ids.items } };

    ghost invariant = { λ l. IsLinear (record { problem = l.problem; ids = l.ids.items }) };
}

impl Linear {
    pub(crate) fn new(problem: Problem, ids: Vec<u64>) -> Linear
        requires { IsLinear (record { problem = problem; ids = ids.items }) }
        ensures { result ≡ record { problem = problem; ids = ids.items } }
    {
        Linear { problem, ids }
    }

    /// The program.
    pub fn problem(&self) -> &Problem
        ensures value { result.now ≡ self.now.problem }
        ensures linear { IsLinear self.now }
    {
        &self.problem
    }

    /// The id of each variable's row.
    pub fn ids(&self) -> &[u64]
        ensures value { result.now ≡ self.now.ids }
        ensures linear { IsLinear self.now }
    {
        self.ids.as_slice()
    }

    /// The program alone.
    pub fn into_problem(self) -> Problem
        ensures { result ≡ self.problem }
    {
        let Linear { problem, ids: _ids } = self;
        problem
    }
}
