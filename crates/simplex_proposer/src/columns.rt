//! The linear program of a box over some of its variables, in numbers of fixed point.

use crate::fixed::{bits, held, shifted};
use crate::ranged::{RangedRow, coefficient, cost};
use crate::table::Table;
use lin_bound::{Problem, Region};
use std::alloc::{AllocError, Global};

/// How many bits of a price, and of a number of the inverse of a basis, are after the point.
pub(crate) const FRACTION: i32 = 40;

/// A variable, or the sum of a row. The sum's column has -1 in its row and 0 elsewhere.
#[derive(Clone, Copy, Debug)]
pub(crate) struct Column {
    pub cost: i64,
    pub low: i64,
    pub high: i64,
    /// Room for a sum over the rows.
    pub total: i128,
    /// What one unit adds to the dual bound, in units of the program's scale.
    pub reduced: i64,
    /// How fast that changes along the direction.
    pub slope: i64,
    /// Whether it is at its high end, if it isn't in the basis.
    pub is_high: bool,
    pub is_basic: bool,
}

impl Column {
    /// The column of this cost between two ends.
    fn new(cost: i64, low: i64, high: i64) -> Column {
        Column {
            cost,
            low,
            high,
            total: 0,
            reduced: 0,
            slope: 0,
            is_high: cost > 0,
            is_basic: false,
        }
    }

    /// Its value, or 0 if it is in the basis.
    pub(crate) fn rest(&self) -> i64 {
        if self.is_basic {
            return 0;
        }
        if self.is_high { self.high } else { self.low }
    }

    /// Takes the reduced cost from the total, which shrinks by so many bits, and goes to the end of its sign.
    pub(crate) fn settle(&mut self, shift: i32) {
        self.reduced = 0;
        if self.is_basic {
            return;
        }
        self.reduced = held(self.total.wrapping_shr(shift.unsigned_abs()));
        if self.reduced != 0 {
            self.is_high = self.reduced > 0;
        }
    }
}

/// How large the numbers of a program are.
#[derive(Debug, Drop)]
pub(crate) struct Scale {
    /// How many bits the greatest coefficient of each row takes.
    pub rows: Vec<i16>,
    /// How many bits the greatest cost takes.
    pub cost: i16,
    /// How many bits a cost has when the dual bound is weighed.
    pub window: i32,
}

impl Scale {
    fn new(alloc: Global, rows: &[RangedRow], cost: i16) -> Result<Scale, AllocError> {
        let mut sizes = Vec::with_capacity(alloc, rows.len())?;
        let mut window = 56.max(i32::from(cost));
        for row in rows {
            sizes.push(row.bits)?;
            window = window.max(i32::from(row.bits) + 30);
        }
        Ok(Scale {
            rows: sizes,
            cost,
            window,
        })
    }

    /// By how many bits a cost grows when the dual bound is weighed.
    pub(crate) fn cost_shift(&self) -> i32 {
        self.window.saturating_sub(i32::from(self.cost))
    }
}

/// What of a program stays the same while it is solved.
#[derive(Debug, Drop)]
pub(crate) struct Program {
    /// The variable of each column before the sums of the rows.
    pub variables: Vec<usize>,
    /// A row for each ranged row, and a column for each variable and then for each sum.
    pub entries: Table,
    pub scale: Scale,
    /// What the variables that are left out add to each row.
    pub others: Vec<i64>,
}

/// The end of a variable in a list, and 0 past the end of the list.
pub(crate) fn end_of(ends: &[u64], variable: usize) -> i64 {
    ends.get(variable).copied().unwrap_or(0).cast_signed()
}

/// The columns of some variables, and of the sums of the rows after them.
pub(crate) fn columns_of(
    alloc: Global,
    problem: &Problem,
    region: &Region,
    rows: &[RangedRow],
    variables: &[usize],
) -> Result<Vec<Column>, AllocError> {
    let count = variables.len().saturating_add(rows.len());
    let mut columns = Vec::with_capacity(alloc, count)?;
    for variable in variables {
        columns.push(Column::new(
            cost(problem, *variable),
            end_of(region.low.as_slice(), *variable),
            end_of(region.high.as_slice(), *variable),
        ))?;
    }
    for row in rows {
        columns.push(Column::new(0, row.low, row.high))?;
    }
    Ok(columns)
}

/// Writes a row's coefficients, and the -1 of its sum.
fn fill_row(
    entries: &mut Table,
    problem: &Problem,
    place: usize,
    row: RangedRow,
    variables: &[usize],
) {
    for (column, variable) in variables.iter().enumerate() {
        entries.set(place, column, coefficient(problem, row.row, *variable));
    }
    entries.set(place, variables.len().saturating_add(place), -1);
}

/// How many bits the greatest cost takes, at least 1.
fn cost_bits(columns: &[Column]) -> i16 {
    let mut most = 1;
    for column in columns {
        if column.high > 0 {
            most = bits(i128::from(column.cost)).max(most);
        }
    }
    most
}

impl Program {
    /// The program of these columns.
    pub(crate) fn new(
        alloc: Global,
        problem: &Problem,
        rows: &[RangedRow],
        columns: &[Column],
        variables: Vec<usize>,
        others: Vec<i64>,
    ) -> Result<Program, AllocError> {
        let mut entries = Table::new(alloc, rows.len(), columns.len())?;
        for (place, row) in rows.iter().enumerate() {
            fill_row(&mut entries, problem, place, *row, variables.as_slice());
        }
        let scale = Scale::new(alloc, rows, cost_bits(columns))?;
        Ok(Program {
            variables,
            entries,
            scale,
            others,
        })
    }

    /// How many rows there are.
    pub(crate) fn height(&self) -> usize {
        self.scale.rows.len()
    }

    /// The column of the sum of a row.
    pub(crate) fn sum_of(&self, row: usize) -> usize {
        self.variables.len().saturating_add(row)
    }

    /// The row whose sum a column is, or none where it is a variable.
    pub(crate) fn row_of(&self, column: usize) -> Option<usize> {
        column.checked_sub(self.variables.len())
    }

    /// By which power of two a column has to grow until its greatest number, over its row's, is about 1.
    pub(crate) fn scale_of(&self, column: usize) -> i16 {
        let mut least = i16::MAX;
        for (row, size) in self.scale.rows.iter().enumerate() {
            let entry = self.entries.at(row, column);
            if entry != 0 {
                least = least.min(size.saturating_sub(bits(i128::from(entry))));
            }
        }
        if least == i16::MAX { 0 } else { least }
    }

    /// A column's number in a row over the row's greatest, in a column that grows by a power of two.
    pub(crate) fn normal_entry(&self, row: usize, size: i16, column: usize, scale: i16) -> i64 {
        let by = FRACTION - i32::from(size) + i32::from(scale);
        held(shifted(i128::from(self.entries.at(row, column)), by))
    }

    /// The cost of a column over the greatest cost, likewise.
    pub(crate) fn normal_cost(&self, cost: i64, scale: i16) -> i64 {
        let by = FRACTION - i32::from(self.scale.cost) + i32::from(scale);
        held(shifted(i128::from(cost), by))
    }
}
