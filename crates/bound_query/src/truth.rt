//! Which rows meet a condition.
ghost use Rattle.std.specs.Prelude.{◌≡◌, ◌<◌, ◌≤◌, ◌^◌, IsTrue, length, map, pos, ◌*ℤ◌};
ghost use Rattle.std.specs.Int.RustNames.{unsigned_abs};
ghost use Rattle.std.specs.Ordering.{int_cmp};
ghost use Rattle.bound_query.specs.Rows as truth;
ghost use Rattle.bound_query.specs.Rows.{order, cell_at, cell_value, lit_value, value_at, right_value, true_on, true_of};
ghost use Rattle.bound_query.specs.Fits.{most_scale, is_bound_lit, is_bound_right, are_bound_lits, suits_right};
ghost use Rattle.bound_query.specs.Fits.{is_bound, fits, all_fit, all_are_bound};

use crate::conditions::{RowPred, RowRight};
use paql_ast::conditions::CmpOp;
use schema_types::Lit;
use std::cmp::Ordering;
use table_schema::Cell;

/// Ten to the power of a scale.
fn power_of_ten(scale: u8) -> i128
    requires { scale ≤ most_scale }
    ensures { result ≡ pos (10 ^ scale) }
{
    match scale {
        0 => 1,
        1 => 10,
        2 => 100,
        3 => 1_000,
        4 => 10_000,
        5 => 100_000,
        _ => 1_000_000,
    }
}

/// How `mant * 10^-scale` and `other * 10^-places` compare.
fn order_of_numbers(mant: i128, scale: u8, other: i128, places: u8) -> Ordering
    requires mant { unsigned_abs mant ≤ 2 ^ 63 }
    requires scale { scale ≤ most_scale }
    requires other { unsigned_abs other ≤ 2 ^ 63 }
    requires places { places ≤ most_scale }
    ensures { result ≡ int_cmp (mant *ℤ pos (10 ^ places)) (other *ℤ pos (10 ^ scale)) }
{
    let left = mant * power_of_ten(places);
    let right = other * power_of_ten(scale);
    left.cmp(&right)
}

fn order_of_cells(cell: &Cell, scale: u8, other: &Cell, places: u8) -> Ordering
    requires scale { scale ≤ most_scale }
    requires places { places ≤ most_scale }
    ensures { result ≡ order (cell_value cell.now scale) (cell_value other.now places) }
{
    match cell {
        Cell::Num(units) => match other {
            Cell::Num(others) => {
                order_of_numbers(i128::from(*units), scale, i128::from(*others), places)
            }
            Cell::Text(_) => Ordering::Equal,
        },
        Cell::Text(bytes) => match other {
            Cell::Num(_) => Ordering::Equal,
            Cell::Text(others) => bytes.as_slice().cmp(others.as_slice()),
        },
    }
}

fn order_with_lit(cell: &Cell, scale: u8, lit: &Lit) -> Ordering
    requires scale { scale ≤ most_scale }
    requires lit { IsTrue (is_bound_lit lit.now) }
    ensures { result ≡ order (cell_value cell.now scale) (lit_value lit.now) }
{
    match cell {
        Cell::Num(units) => match lit {
            Lit::Num(number) => {
                order_of_numbers(i128::from(*units), scale, number.mant, number.scale)
            }
            Lit::Text(_) => Ordering::Equal,
        },
        Cell::Text(bytes) => match lit {
            Lit::Num(_) => Ordering::Equal,
            Lit::Text(others) => bytes.as_slice().cmp(others.as_slice()),
        },
    }
}

/// What an operator says of an order.
fn allows(op: CmpOp, order: Ordering) -> bool
    ensures { result ≡ truth.allows op order }
{
    match op {
        CmpOp::Eq => order.is_eq(),
        CmpOp::Ne => order.is_ne(),
        CmpOp::Lt => order.is_lt(),
        CmpOp::Le => order.is_le(),
        CmpOp::Gt => order.is_gt(),
        CmpOp::Ge => order.is_ge(),
    }
}

/// What the row has in a column.
fn cell_at(row: &[Cell], column: usize) -> &Cell
    requires { column < length row.now }
    ensures { result.now ≡ cell_at row.now column }
{
    &row[column]
}

fn order_with(row: &[Cell], column: usize, scale: u8, right: &RowRight) -> Ordering
    requires fits { IsTrue (suits_right row.now column right.now) }
    requires scale { scale ≤ most_scale }
    requires right { IsTrue (is_bound_right right.now) }
    ensures { result ≡ order (value_at row.now column scale) (right_value row.now right.now) }
{
    let cell = cell_at(row, column);
    match right {
        RowRight::Lit(lit) => order_with_lit(cell, scale, lit),
        RowRight::Column {
            column: other,
            scale: places,
        } => order_of_cells(cell, scale, cell_at(row, *other), *places),
    }
}

fn lies_between(cell: &Cell, scale: u8, low: &Lit, high: &Lit) -> bool
    requires scale { scale ≤ most_scale }
    requires low { IsTrue (is_bound_lit low.now) }
    requires high { IsTrue (is_bound_lit high.now) }
    ensures { result ≡ truth.lies_between (cell_value cell.now scale) low.now high.now }
{
    order_with_lit(cell, scale, low).is_ge() && order_with_lit(cell, scale, high).is_le()
}

fn is_one_of(cell: &Cell, scale: u8, list: &[Lit]) -> bool
    requires scale { scale ≤ most_scale }
    requires list { IsTrue (are_bound_lits list.now) }
    ensures { result ≡ truth.is_one_of (cell_value cell.now scale) list.now }
{
    for lit in list {
        if order_with_lit(cell, scale, lit).is_eq() {
            return true;
        }
    }
    false
}

/// Whether the row meets the condition, whose columns it has, each with cells of the sort that the
/// condition compares them with. It takes no memory.
#[cycle(truth)]
pub fn eval(pred: &RowPred, row: &[Cell]) -> bool
    requires fits { IsTrue (fits row.now pred.now) }
    requires bound { IsTrue (is_bound pred.now) }
    ensures { result ≡ true_on pred.now row.now }
{
    match pred {
        RowPred::All => true,
        RowPred::Or(parts) => meets_some(parts.as_slice(), row),
        RowPred::And(parts) => meets_all(parts.as_slice(), row),
        RowPred::Not(denied) => !eval(denied.get(), row),
        RowPred::Compare {
            column,
            scale,
            op,
            right,
        } => allows(*op, order_with(row, *column, *scale, right)),
        RowPred::Between {
            column,
            scale,
            low,
            high,
        } => lies_between(cell_at(row, *column), *scale, low, high),
        RowPred::In {
            column,
            scale,
            list,
        } => is_one_of(cell_at(row, *column), *scale, list.as_slice()),
    }
}

#[cycle(truth)]
fn meets_some(parts: &[RowPred], row: &[Cell]) -> bool
    requires fits { IsTrue (all_fit row.now parts.now) }
    requires bound { IsTrue (all_are_bound parts.now) }
    ensures { result ≡ truth.some_true (map (true_of row.now) parts.now) }
{
    for part in parts {
        if eval(part, row) {
            return true;
        }
    }
    false
}

#[cycle(truth)]
fn meets_all(parts: &[RowPred], row: &[Cell]) -> bool
    requires fits { IsTrue (all_fit row.now parts.now) }
    requires bound { IsTrue (all_are_bound parts.now) }
    ensures { result ≡ truth.all_true (map (true_of row.now) parts.now) }
{
    for part in parts {
        if !eval(part, row) {
            return false;
        }
    }
    true
}
