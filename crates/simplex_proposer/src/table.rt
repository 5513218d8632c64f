//! Tables of numbers.

use std::alloc::{AllocError, Global};

/// Rows of as many numbers each.
#[derive(Debug, Drop)]
pub(crate) struct Table {
    width: usize,
    cells: Vec<i64>,
}

impl Table {
    /// A table of zeros.
    pub(crate) fn new(alloc: Global, height: usize, width: usize) -> Result<Table, AllocError> {
        let cells = vec![in alloc; 0i64; height.saturating_mul(width)]?;
        Ok(Table { width, cells })
    }

    /// The same table once more.
    pub(crate) fn copy(&self, alloc: Global) -> Result<Table, AllocError> {
        Ok(Table {
            width: self.width,
            cells: Vec::from_slice(alloc, self.cells.as_slice())?,
        })
    }

    /// The numbers of a row, and none past the last row.
    pub(crate) fn row(&self, row: usize) -> &[i64] {
        let start = row.saturating_mul(self.width);
        let end = start.saturating_add(self.width);
        if end > self.cells.len() {
            return &[];
        }
        &self.cells[start..end]
    }

    /// The number at a place, and 0 outside.
    pub(crate) fn at(&self, row: usize, column: usize) -> i64 {
        let place = row.saturating_mul(self.width).saturating_add(column);
        self.cells.get(place).copied().unwrap_or(0)
    }

    /// Writes the number at a place, unless it is outside.
    pub(crate) fn set(&mut self, row: usize, column: usize, number: i64) {
        let place = row.saturating_mul(self.width).saturating_add(column);
        if place < self.cells.len() {
            self.cells[place] = number;
        }
    }
}
