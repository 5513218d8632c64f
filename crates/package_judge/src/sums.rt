//! The totals of a package, in 128 bits.
ghost use Rattle.std.specs.Prelude.{◌≡◌, ◌^◌, ◌<◌, ◌≤◌, length, map, pos, ◌*ℤ◌, ◌-ℤ◌, IsTrue};
ghost use Rattle.std.specs.Option.{option_copied};
ghost use Rattle.std.specs.Int.RustNames.{unsigned_abs};
ghost use Rattle.package_query.specs.Package as tables;
ghost use Rattle.package_query.specs.Package.{AscendsFrom};
ghost use Rattle.package_query.specs.Meaning as meaning;
ghost use Rattle.bound_query.specs.Rows as truth;
ghost use Rattle.bound_query.specs.Terms as values;
ghost use Rattle.bound_query.specs.Fits.{is_summable, agg_is_bound, agg_fits, IsBoundTerm, AreBoundTerms, fits_terms};
ghost use Rattle.package_judge.specs.Sums.{AreSmall, RowsFit};

use bound_query::{BoundAgg, BoundTerm, RowPred, eval};
use table_schema::{Cell, Row};

/// The row with an id, of rows whose ids ascend.
pub(crate) fn row_at(id: u64, rows: &[(u64, Row)]) -> Option<&Row>
    requires { AscendsFrom 0 rows.now }
    ensures { option_copied result ≡ tables.row_at id rows.now }
{
    match rows.binary_search_by_key(&id, |entry| entry.0) {
        Ok(at) => Some(&rows[at].1),
        Err(_) => None,
    }
}

/// What the row has in a column.
fn cell_at(row: &[Cell], column: usize) -> &Cell
    requires { column < length row.now }
    ensures { result.now ≡ truth.cell_at row.now column }
{
    &row[column]
}

fn units_of(cell: &Cell) -> i64
    ensures { result ≡ values.units_of cell.now }
{
    match cell {
        Cell::Num(units) => *units,
        Cell::Text(_) => 0,
    }
}

/// The number that a row has in a column.
fn number_in(column: usize, row: &[Cell]) -> i64
    requires { IsTrue (is_summable row.now column) }
    ensures value { result ≡ values.number_in column row.now }
    ensures small { unsigned_abs result ≤ 10 ^ 12 }
{
    units_of(cell_at(row, column))
}

/// Which rows an aggregate takes.
fn taken_by(agg: &BoundAgg) -> &RowPred
    ensures { result.now ≡ values.taken_by agg.now }
{
    match agg {
        BoundAgg::Count(pred) | BoundAgg::Sum(_, pred) => pred,
    }
}

/// What an aggregate adds up for a copy of a row that it takes.
fn measured(agg: &BoundAgg, row: &[Cell]) -> i64
    requires { IsTrue (agg_fits row.now agg.now) }
    ensures value { result ≡ values.measured agg.now row.now }
    ensures small { unsigned_abs result ≤ 10 ^ 12 }
{
    match agg {
        BoundAgg::Count(_) => 1,
        BoundAgg::Sum(column, _) => number_in(*column, row),
    }
}

fn product(factor: i64, number: i64) -> i128
    requires factor { unsigned_abs factor ≤ 10 ^ 12 }
    requires number { unsigned_abs number ≤ 10 ^ 12 }
    ensures value { result ≡ factor *ℤ number }
    ensures small { unsigned_abs result ≤ 10 ^ 24 }
{
    i128::from(factor) * i128::from(number)
}

fn less(sum: i128, minus: i128) -> i128
    requires sum { unsigned_abs sum ≤ 10 ^ 24 }
    requires minus { unsigned_abs minus ≤ 10 ^ 18 }
    ensures value { result ≡ sum -ℤ minus }
    ensures small { unsigned_abs result ≤ 2 ^ 80 }
{
    sum - minus
}

/// What a term gives for one copy of a row.
fn term_value(term: &BoundTerm, row: &[Cell]) -> i128
    requires bound { IsBoundTerm term.now }
    requires fits { IsTrue (agg_fits row.now term.now.agg) }
    ensures value { result ≡ values.term_value term.now row.now }
    ensures small { unsigned_abs result ≤ 2 ^ 80 }
{
    if !eval(taken_by(&term.agg), row) {
        return 0;
    }
    less(product(term.factor, measured(&term.agg, row)), term.minus)
}

fn times(count: u32, value: i128) -> i128
    requires count { count ≤ 1000000 }
    requires value { unsigned_abs value ≤ 2 ^ 80 }
    ensures value { result ≡ pos count *ℤ value }
    ensures small { unsigned_abs result ≤ 2 ^ 100 }
{
    i128::from(count) * value
}

/// What so many copies of a row give.
fn copies_give(terms: &[BoundTerm], count: u32, row: &[Cell]) -> i128
    requires bound { AreBoundTerms terms.now }
    requires fits { IsTrue (fits_terms row.now terms.now) }
    requires count { count ≤ 1000000 }
    ensures value { result
        ≡ meaning.copies_give (map values.term_value terms.now) count row.now }
    ensures small { unsigned_abs result ≤ 2 ^ 106 }
{
    let mut sum: i128 = 0;
    for term in terms {
        sum += times(count, term_value(term, row));
    }
    sum
}

fn pair_gives(terms: &[BoundTerm], rows: &[(u64, Row)], pair: &(u64, u32)) -> i128
    requires bound { AreBoundTerms terms.now }
    requires ascends { AscendsFrom 0 rows.now }
    requires fits { RowsFit terms.now rows.now }
    requires count { pair.now.1 ≤ 1000000 }
    ensures value { result ≡ meaning.pair_gives (map values.term_value terms.now) pair.now.1
        (tables.row_at pair.now.0 rows.now) }
    ensures small { unsigned_abs result ≤ 2 ^ 106 }
{
    match row_at(pair.0, rows) {
        Some(row) => copies_give(terms, pair.1, row.as_slice()),
        None => 0,
    }
}

/// The total of a package over these terms.
pub(crate) fn total(terms: &[BoundTerm], rows: &[(u64, Row)], pairs: &[(u64, u32)]) -> i128
    requires bound { AreBoundTerms terms.now }
    requires ascends { AscendsFrom 0 rows.now }
    requires fits { RowsFit terms.now rows.now }
    requires small { AreSmall pairs.now }
    ensures { result ≡ meaning.total (map values.term_value terms.now) rows.now pairs.now }
{
    let mut sum: i128 = 0;
    for pair in pairs {
        sum += pair_gives(terms, rows, pair);
    }
    sum
}
