//! Rows, and what literals give as rows.
ghost use Rattle.std.specs.Prelude.{◌≡◌, IsOk, MatchOption, Err};
ghost use Rattle.table_schema.specs.Rows.{AnswersRow, fault_at, row_gives};

use crate::cells::{Cell, CellFault, cell_fault, copied_cell};
use crate::schema::Schema;
use schema_types::Lit;
use sqlite_items::Items;
use std::alloc::{AllocError, Global};
use thiserror::Error;

/// The cells of a row, in the order of the columns.
pub type Row = Items<Cell>;

/// Why literals give no row of a table. A column is named by its place, from 0.
#[derive(Debug, Drop, Error)]
pub enum RowFault {
    /// There are fewer or more literals than columns.
    #[error("there are {have} literals for {want} columns")]
    Arity { have: u64, want: u64 },
    /// This column's literal is of another kind, or has more digits after the point than it keeps.
    #[error("the literal doesn't fit column {0}")]
    BadCell(usize),
    /// This column's number is more than 1,000,000,000,000 of its units, with either sign.
    #[error("the number of column {0} is out of range")]
    OutOfRange(usize),
    /// This column's text is longer than the text of a cell can be.
    #[error("the text of column {0} is too long")]
    TextTooLong(usize),
    #[error("out of memory")]
    Memory(AllocError),
}

/// The row that the literals give, with copies of their texts.
pub fn check_row(alloc: Global, schema: &Schema, lits: &[Lit]) -> Result<Row, RowFault>
    ensures { AnswersRow (row_gives schema.now lits.now) result }
{
    let columns = schema.columns();
    if lits.len() != columns.len() {
        return Err(arity(lits.len(), columns.len()));
    }
    let Ok(mut cells) = Vec::with_capacity(alloc, columns.len()) else {
        return Err(RowFault::Memory(AllocError));
    };
    for (place, column) in columns.iter().enumerate() {
        let cell = match copied_cell(alloc, column, &lits[place]) {
            Ok(Ok(cell)) => cell,
            Ok(Err(fault)) => return Err(at_place(fault, place)),
            Err(error) => return Err(RowFault::Memory(error)),
        };
        if cells.push(cell).is_err() {
            return Err(RowFault::Memory(AllocError));
        }
    }
    Ok(Items::from_vec(cells))
}

/// Why the literals give no row, if they give none. It takes no memory.
pub fn row_fault(schema: &Schema, lits: &[Lit]) -> Option<RowFault>
    ensures { MatchOption result (IsOk (row_gives schema.now lits.now))
        (λ fault. row_gives schema.now lits.now ≡ Err fault) }
{
    let columns = schema.columns();
    if lits.len() != columns.len() {
        return Some(arity(lits.len(), columns.len()));
    }
    for (place, column) in columns.iter().enumerate() {
        if let Some(fault) = cell_fault(column, &lits[place]) {
            return Some(at_place(fault, place));
        }
    }
    None
}

/// There are so many literals for so many columns.
fn arity(lits: usize, columns: usize) -> RowFault
    ensures { result ≡ RowFault.Arity lits columns }
{
    RowFault::Arity {
        have: lits as u64,
        want: columns as u64,
    }
}

/// The fault of a cell at the place of its column.
fn at_place(fault: CellFault, place: usize) -> RowFault
    ensures { result ≡ fault_at place fault }
{
    match fault {
        CellFault::BadCell => RowFault::BadCell(place),
        CellFault::OutOfRange => RowFault::OutOfRange(place),
        CellFault::TextTooLong => RowFault::TextTooLong(place),
    }
}
