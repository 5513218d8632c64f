//! The points of rows.
ghost use Rattle.std.specs.Prelude.{◌≡◌, map, IfOk};
ghost use Rattle.groups.specs.Points as spec;

use sqlite_items::Items;
use std::alloc::{AllocError, Global};
use table_schema::{Cell, Row};

/// A row's number in the column at a place, or 0 if it has none there.
fn number_at(row: &[Cell], place: usize) -> i64
    ensures { result ≡ spec.number_at row.now place }
{
    match row.get(place) {
        Some(Cell::Num(units)) => *units,
        _ => 0,
    }
}

/// A row's numbers in columns.
fn numbers_of(alloc: Global, row: &[Cell], columns: &[usize]) -> Result<Items<i64>, AllocError>
    ensures { IfOk result (λ numbers. numbers ≡ map (spec.number_at row.now) columns.now) }
{
    let mut numbers = Vec::with_capacity(alloc, columns.len())?;
    for place in columns {
        numbers.push(number_at(row, *place))?;
    }
    Ok(Items::from_vec(numbers))
}

/// The points of rows, by their numbers in columns.
pub(crate) fn points_of(
    alloc: Global,
    rows: &[(u64, Row)],
    columns: &[usize],
) -> Result<Vec<(u64, Items<i64>)>, AllocError>
    ensures { IfOk result (λ points. points.items ≡ map (spec.point_of columns.now) rows.now) }
{
    let mut points = Vec::with_capacity(alloc, rows.len())?;
    for row in rows {
        let numbers = numbers_of(alloc, row.1.as_slice(), columns)?;
        points.push((row.0, numbers))?;
    }
    Ok(points)
}
