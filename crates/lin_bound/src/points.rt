//! Points, and how a problem judges them.
ghost use Rattle.std.specs.Prelude.{◌≡◌, ◌≤◌, ◌<◌, ◌^◌, ◌↔◌, IsTrue, IfOk, ℕ, length, pos, ◌*ℤ◌, unsigned_abs};
ghost use Rattle.lin_bound.specs.Problem.{variables, value_at, cost_at, IsLegal, IsWithin, KeepsRows, IsFeasible};
ghost use Rattle.lin_bound.specs.Sums.{nat_at};

use crate::problem::Problem;
use sqlite_items::Items;
use std::alloc::{AllocError, Global};
use std::marker::Model;

/// How much of each variable a solution takes.
#[derive(Debug, Drop)]
pub struct Point {
    counts: Items<u64>,
}

/// Copies counts over others, in the room that these have.
fn overwrite(from: &[u64], into: &mut Items<u64>)
    requires { length from.now ≡ length into.old }
    ensures { into.new ≡ from.now }
{
    for place in 0..from.len() {
        into.set(place, from[place]);
    }
}

impl Model for Point {
    ghost use Rattle.std.specs.Prelude.{List, ℕ};

    ghost Value = { List ℕ };

    ghost view = { λ point. point.counts };
}

impl Point {
    /// The point with these counts, one a variable.
    pub fn new(counts: Items<u64>) -> Point
        ensures { result ≡ counts }
    {
        Point { counts }
    }

    /// The same point once more.
    pub fn copy(&self, alloc: Global) -> Result<Point, AllocError>
        ensures { IfOk result (λ point. point ≡ self.now) }
    {
        Ok(Point {
            counts: Items::from_slice(alloc, self.counts())?,
        })
    }

    /// Makes it the point with these counts, which are as many. It takes no memory.
    pub fn copy_from(&mut self, counts: &[u64])
        requires { length counts.now ≡ length self.old }
        ensures { self.new ≡ counts.now }
    {
        overwrite(counts, &mut self.counts);
    }

    /// The counts, one a variable.
    pub fn counts(&self) -> &[u64]
        ensures { result.now ≡ self.now }
    {
        self.counts.as_slice()
    }
}

/// What so many units add.
fn part(coefficient: i64, count: u64) -> i128
    ensures { result ≡ coefficient *ℤ pos count }
{
    i128::from(coefficient) * i128::from(count)
}

/// The coefficients times the counts, added up.
fn value_of(coefficients: &[i64], counts: &[u64]) -> i64
    requires same { length coefficients.now ≡ length counts.now }
    requires small { (n : ℕ) → n ≤ length counts.now →
        unsigned_abs (value_at coefficients.now counts.now n) ≤ 2 ^ 60 }
    ensures { result ≡ value_at coefficients.now counts.now (length counts.now) }
{
    let mut total: i128 = 0;
    for place in 0..counts.len() {
        total += part(coefficients[place], counts[place]);
    }
    total as i64
}

/// Whether a point has a count a variable, and none above its upper.
fn is_within(problem: &Problem, point: &Point) -> bool
    ensures { IsTrue result ↔ IsWithin problem.now point.now }
{
    let counts = point.counts();
    let uppers = problem.uppers();
    if counts.len() != uppers.len() {
        return false;
    }
    for place in 0..uppers.len() {
        if counts[place] > uppers[place] {
            return false;
        }
    }
    true
}

/// Whether a point within the uppers keeps each row.
fn keeps_rows(problem: &Problem, point: &Point) -> bool
    requires { IsWithin problem.now point.now }
    ensures { IsTrue result ↔ KeepsRows problem.now point.now }
{
    for row in 0..problem.row_count() {
        if value_of(problem.row(row), point.counts()) > problem.rhs(row) {
            return false;
        }
    }
    true
}

impl Problem {
    /// The cost of a point within the uppers. It takes no memory.
    pub fn cost_of(&self, point: &Point) -> i64
        requires each { length point.now ≡ variables self.now }
        requires within { (i : ℕ) → i < variables self.now →
            nat_at point.now i ≤ nat_at self.now.upper i }
        ensures value { result ≡ cost_at self.now point.now }
        ensures legal { IsLegal self.now }
    {
        value_of(self.costs(), point.counts())
    }

    /// Whether a point keeps the uppers and each row. It takes no memory.
    pub fn is_feasible(&self, point: &Point) -> bool
        ensures yes { IsTrue result ↔ IsFeasible self.now point.now }
        ensures legal { IsLegal self.now }
    {
        let _legal = self.variables();
        is_within(self, point) && keeps_rows(self, point)
    }
}
