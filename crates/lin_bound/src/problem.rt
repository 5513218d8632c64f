//! A bounded integer program.
ghost use Rattle.std.specs.Prelude.{◌≡◌, ◌<◌, ◌≤◌, ℕ, length, slice_index_or, [], unsigned_abs};
ghost use Rattle.lin_bound.specs.Problem.{variables, row_count, row_of, coefficient_of, IsLegal};
ghost use Rattle.lin_bound.specs.Sums.{int_at, nat_at};

use sqlite_items::Items;
use std::marker::Model;

/// The whole numbers x with 0 <= x_i <= upper_i whose rows keep row·x <= rhs, and a cost for each of them.
#[derive(Debug, Drop)]
pub struct Problem {
    cost: Items<i64>,
    rows: Items<Items<i64>>,
    rhs: Items<i64>,
    upper: Items<u64>,
    /// No cost is larger in size.
    cost_size: u64,
    /// No coefficient of the row with this number is larger in size.
    row_sizes: [u64; MOST_ROWS],
}

/// A problem has no more rows.
const MOST_ROWS: usize = 64;

/// The largest size of the numbers, 0 if there are none.
fn largest_size(numbers: &[i64]) -> u64
    ensures { (i : ℕ) → i < length numbers.now → unsigned_abs (int_at numbers.now i) ≤ result }
{
    let mut size = 0;
    for place in 0..numbers.len() {
        size = numbers[place].unsigned_abs().max(size);
    }
    size
}

/// The largest size of each row's coefficients.
fn largest_sizes(rows: &[Items<i64>]) -> [u64; MOST_ROWS]
    requires { length rows.now ≤ 64 }
    ensures { (j i : ℕ) → j < length rows.now → i < length (slice_index_or rows.now j [])
        → unsigned_abs (int_at (slice_index_or rows.now j []) i) ≤ nat_at result j }
{
    let mut sizes = [0; MOST_ROWS];
    for row in 0..rows.len() {
        sizes[row] = largest_size(rows[row].as_slice());
    }
    sizes
}

impl Model for Problem {
    ghost use Rattle.lin_bound.specs.Problem.{ProblemData, IsLegal};
    ghost use Rattle.lin_bound.specs.Weights.{IsSized};

    ghost Value = { ProblemData };

    ghost view = { λ p. record { cost = p.cost; rows = p.rows; rhs = p.rhs; upper = p.upper } };

    ghost invariant = { λ p. IsLegal (record { cost = p.cost; rows = p.rows; rhs = p.rhs; upper = p.upper })
        × IsSized (record { cost = p.cost; rows = p.rows; rhs = p.rhs; upper = p.upper }) p.cost_size p.row_sizes };
}

impl Problem {
    /// A problem of these lists: one cost and one upper a variable, and one right-hand side a row.
    pub fn new(
        cost: Items<i64>,
        rows: Items<Items<i64>>,
        rhs: Items<i64>,
        upper: Items<u64>,
    ) -> Problem
        requires { IsLegal (record { cost = cost; rows = rows; rhs = rhs; upper = upper }) }
        ensures { result ≡ record { cost = cost; rows = rows; rhs = rhs; upper = upper } }
    {
        let cost_size = largest_size(cost.as_slice());
        let row_sizes = largest_sizes(rows.as_slice());
        Problem {
            cost,
            rows,
            rhs,
            upper,
            cost_size,
            row_sizes,
        }
    }

    /// How many variables there are.
    pub fn variables(&self) -> usize
        ensures count { result ≡ variables self.now }
        ensures legal { IsLegal self.now }
    {
        self.cost.len()
    }

    /// How many rows there are.
    pub fn row_count(&self) -> usize
        ensures count { result ≡ row_count self.now }
        ensures legal { IsLegal self.now }
    {
        self.rows.len()
    }

    /// What one unit of a variable adds to the cost.
    pub fn cost(&self, variable: usize) -> i64
        requires { variable < variables self.now }
        ensures value { result ≡ int_at self.now.cost variable }
        ensures legal { IsLegal self.now }
    {
        self.cost.as_slice()[variable]
    }

    /// What one unit of each variable adds to the cost.
    pub(crate) fn costs(&self) -> &[i64]
        ensures value { result.now ≡ self.now.cost }
        ensures legal { IsLegal self.now }
    {
        self.cost.as_slice()
    }

    /// No cost is larger in size.
    pub(crate) fn cost_size(&self) -> u64
        ensures { (i : ℕ) → i < variables self.now →
            unsigned_abs (int_at self.now.cost i) ≤ result }
    {
        self.cost_size
    }

    /// No coefficient of a row is larger in size.
    pub(crate) fn row_size(&self, row: usize) -> u64
        requires { row < row_count self.now }
        ensures { (i : ℕ) → i < variables self.now →
            unsigned_abs (coefficient_of self.now row i) ≤ result }
    {
        let _legal = self.row_count();
        self.row_sizes[row]
    }

    /// What one unit of each variable adds to a row.
    pub(crate) fn row(&self, row: usize) -> &[i64]
        requires { row < row_count self.now }
        ensures value { result.now ≡ row_of self.now row }
        ensures legal { IsLegal self.now }
    {
        self.rows.as_slice()[row].as_slice()
    }

    /// What one unit of a variable adds to a row.
    pub fn coefficient(&self, row: usize, variable: usize) -> i64
        requires row { row < row_count self.now }
        requires variable { variable < variables self.now }
        ensures value { result ≡ coefficient_of self.now row variable }
        ensures legal { IsLegal self.now }
    {
        self.rows.as_slice()[row].as_slice()[variable]
    }

    /// The most that a row may come to.
    pub fn rhs(&self, row: usize) -> i64
        requires { row < row_count self.now }
        ensures value { result ≡ int_at self.now.rhs row }
        ensures legal { IsLegal self.now }
    {
        self.rhs.as_slice()[row]
    }

    /// The most that a variable may be.
    pub fn upper(&self, variable: usize) -> u64
        requires { variable < variables self.now }
        ensures value { result ≡ nat_at self.now.upper variable }
        ensures legal { IsLegal self.now }
    {
        self.upper.as_slice()[variable]
    }

    /// The uppers of all variables, in their order.
    pub fn uppers(&self) -> &[u64]
        ensures value { result.now ≡ self.now.upper }
        ensures legal { IsLegal self.now }
    {
        self.upper.as_slice()
    }
}
