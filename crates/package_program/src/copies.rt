//! What one copy of a row gives to the terms of a bound query.
ghost use Rattle.std.specs.Prelude.{◌≡◌, ◌*◌, ◌^◌, ◌≤◌, IsTrue, ◌*ℤ◌, ◌-ℤ◌, map, unsigned_abs};
ghost use Rattle.bound_query.specs.Rows.{true_on};
ghost use Rattle.bound_query.specs.Terms.{number_in, taken_by, measured, term_value};
ghost use Rattle.bound_query.specs.Fits.{IsBoundTerm, AreBoundTerms, agg_fits, agg_is_bound, fits_terms};
ghost use Rattle.package_program.specs.Columns.{AreNumbersOf};
ghost use Rattle.package_program.specs.Program.{per_copy};

use crate::columns::{Columns, number_in};
use bound_query::{BoundAgg, BoundTerm, eval};
use table_schema::Cell;

/// The number that the row at this place has in a column.
fn number_at(columns: &Columns, column: usize, place: usize, row: &[Cell]) -> i64
    requires { AreNumbersOf columns.now place row.now }
    ensures { result ≡ number_in column row.now }
{
    match columns.number(column, place) {
        Some(number) => number,
        None => number_in(column, row),
    }
}

/// What a row that meets the aggregate's condition adds.
fn measured(agg: &BoundAgg, columns: &Columns, place: usize, row: &[Cell]) -> i64
    requires fits { IsTrue (agg_fits row.now agg.now) }
    requires kept { AreNumbersOf columns.now place row.now }
    ensures value { result ≡ measured agg.now row.now }
    ensures small { unsigned_abs result ≤ 10 ^ 12 }
{
    match agg {
        BoundAgg::Count(_) => 1,
        BoundAgg::Sum(column, _) => number_at(columns, *column, place, row),
    }
}

/// Whether the row meets the condition of the aggregate.
fn is_taken(agg: &BoundAgg, row: &[Cell]) -> bool
    requires bound { IsTrue (agg_is_bound agg.now) }
    requires fits { IsTrue (agg_fits row.now agg.now) }
    ensures { result ≡ true_on (taken_by agg.now) row.now }
{
    match agg {
        BoundAgg::Count(pred) => eval(pred, row),
        BoundAgg::Sum(_, pred) => eval(pred, row),
    }
}

fn times(factor: i64, number: i64) -> i128
    requires factor { unsigned_abs factor ≤ 10 ^ 12 }
    requires number { unsigned_abs number ≤ 10 ^ 12 }
    ensures value { result ≡ factor *ℤ number }
    ensures small { unsigned_abs result ≤ 10 ^ 24 }
{
    i128::from(factor) * i128::from(number)
}

/// `product - minus`
fn less(product: i128, minus: i128) -> i128
    requires product { unsigned_abs product ≤ 10 ^ 24 }
    requires minus { unsigned_abs minus ≤ 10 ^ 18 }
    ensures value { result ≡ product -ℤ minus }
    ensures small { unsigned_abs result ≤ 2 * 10 ^ 24 }
{
    product - minus
}

/// What a term gives for one copy of a row.
fn term_value(term: &BoundTerm, columns: &Columns, place: usize, row: &[Cell]) -> i128
    requires bound { IsBoundTerm term.now }
    requires fits { IsTrue (agg_fits row.now term.now.agg) }
    requires kept { AreNumbersOf columns.now place row.now }
    ensures value { result ≡ term_value term.now row.now }
    ensures small { unsigned_abs result ≤ 2 * 10 ^ 24 }
{
    if !is_taken(&term.agg, row) {
        return 0;
    }
    less(
        times(term.factor, measured(&term.agg, columns, place, row)),
        term.minus,
    )
}

/// What all terms give for one copy of the row at a place of the columns.
pub fn per_copy(terms: &[BoundTerm], columns: &Columns, place: usize, row: &[Cell]) -> i128
    requires bound { AreBoundTerms terms.now }
    requires fits { IsTrue (fits_terms row.now terms.now) }
    requires kept { AreNumbersOf columns.now place row.now }
    ensures value { result ≡ per_copy (map term_value terms.now) row.now }
    ensures small { unsigned_abs result ≤ 2 ^ 90 }
{
    let mut sum: i128 = 0;
    for term in terms {
        sum += term_value(term, columns, place, row);
    }
    sum
}
