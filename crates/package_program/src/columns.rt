//! The numbers of the columns that several sums read, kept once, so that a sum walks through a list
//! and not through the rows.
ghost use Rattle.std.specs.Prelude.{◌≡◌, IfOk};
ghost use Rattle.bound_query.specs.Terms.{number_in};
ghost use Rattle.package_program.specs.Columns.{AreColumnsOf, kept_number, numbers_in};
ghost use Rattle.package_program.specs.Translation.{entries_of};

use bound_query::{BoundAgg, BoundQuery, BoundTerm};
use sqlite_items::Items;
use std::alloc::{AllocError, Global};
use std::marker::Model;
use table_schema::{Cell, MAX_COLUMNS, Row};

/// For each column its numbers, one a candidate, or nothing if they aren't kept.
#[derive(Drop)]
pub(crate) struct Columns {
    numbers: Items<Items<i64>>,
}

impl Model for Columns {
    ghost use Rattle.std.specs.Prelude.{List, ℤ};

    ghost Value = { List (List ℤ) };

    ghost view = { λ columns. columns.numbers };
}

impl Columns {
    /// The numbers of the columns that more than one term sums.
    pub(crate) fn new(
        alloc: Global,
        query: &BoundQuery,
        candidates: &[&(u64, Row)],
    ) -> Result<Columns, AllocError>
        ensures { IfOk result (λ columns. AreColumnsOf (entries_of candidates.now) columns) }
    {
        let mut numbers = Items::new(alloc);
        for column in 0..MAX_COLUMNS {
            if times_summed(query, column) > 1 {
                numbers.push(numbers_in(alloc, column, candidates)?)?;
            } else {
                numbers.push(Items::new(alloc))?;
            }
        }
        Ok(Columns { numbers })
    }

    /// The number of the candidate at a place, if the column is kept.
    pub(crate) fn number(&self, column: usize, place: usize) -> Option<i64>
        ensures { result ≡ kept_number self.now column place }
    {
        let numbers = self.numbers.as_slice().get(column)?;
        numbers.as_slice().get(place).copied()
    }
}

/// The number in a column, and 0 if the row has none there.
pub(crate) fn number_in(column: usize, row: &[Cell]) -> i64
    ensures { result ≡ number_in column row.now }
{
    match row.get(column) {
        Some(Cell::Num(units)) => *units,
        _ => 0,
    }
}

fn numbers_in(
    alloc: Global,
    column: usize,
    candidates: &[&(u64, Row)],
) -> Result<Items<i64>, AllocError>
    ensures { IfOk result (λ numbers. numbers ≡ numbers_in column (entries_of candidates.now)) }
{
    let mut numbers = Vec::with_capacity(alloc, candidates.len())?;
    for candidate in candidates {
        numbers.push(number_in(column, candidate.1.as_slice()))?;
    }
    Ok(Items::from_vec(numbers))
}

/// How many terms of the query sum the column.
fn times_summed(query: &BoundQuery, column: usize) -> usize {
    let in_goal = match &query.goal {
        Some(goal) => count_sums(goal.terms.as_slice(), column),
        None => 0,
    };
    let mut count = in_goal;
    for conjunct in query.conjuncts.as_slice() {
        count = count.saturating_add(count_sums(conjunct.terms.as_slice(), column));
    }
    count
}

fn count_sums(terms: &[BoundTerm], column: usize) -> usize {
    terms
        .iter()
        .filter(|term| is_sum_of(&term.agg, column))
        .count()
}

fn is_sum_of(agg: &BoundAgg, column: usize) -> bool {
    match agg {
        BoundAgg::Count(_) => false,
        BoundAgg::Sum(summed, _) => *summed == column,
    }
}
