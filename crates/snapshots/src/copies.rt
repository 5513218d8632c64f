//! Copies of rows and columns.
ghost use Rattle.std.specs.Prelude.{◌≡◌, IfOk};

use schema_types::{Column, Text};
use sqlite_items::Items;
use std::alloc::{AllocError, Global};
use table_schema::{Cell, Row, Schema};

/// A copy of the row.
pub fn copied_row(alloc: Global, row: &Row) -> Result<Row, AllocError>
    ensures { IfOk result (λ copy. copy ≡ row.now) }
{
    let mut copy = Vec::with_capacity(alloc, row.len())?;
    for cell in row.as_slice() {
        copy.push(copied_cell(alloc, cell)?)?;
    }
    Ok(Items::from_vec(copy))
}

/// A copy of the columns.
pub fn copied_schema(alloc: Global, schema: &Schema) -> Result<Schema, AllocError>
    ensures { IfOk result (λ copy. copy ≡ schema.now) }
{
    let columns = schema.columns();
    let mut copy = Vec::with_capacity(alloc, columns.len())?;
    for column in columns {
        copy.push(Column {
            name: copied_text(alloc, &column.name)?,
            kind: column.kind,
        })?;
    }
    Schema::new(Items::from_vec(copy)).map_err(|_| AllocError)
}

/// A copy of the cell.
fn copied_cell(alloc: Global, cell: &Cell) -> Result<Cell, AllocError>
    ensures { IfOk result (λ copy. copy ≡ cell.now) }
{
    match cell {
        Cell::Num(units) => Ok(Cell::Num(*units)),
        Cell::Text(text) => Ok(Cell::Text(copied_text(alloc, text)?)),
    }
}

/// A copy of the text.
pub fn copied_text(alloc: Global, text: &Text) -> Result<Text, AllocError>
    ensures { IfOk result (λ copy. copy ≡ text.now) }
{
    Items::from_slice(alloc, text.as_slice())
}
