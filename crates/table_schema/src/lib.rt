//! Schemas, and the rows of tables.
#![tactic(auto)]

mod cells;
pub mod laws;
mod limits;
mod rows;
mod schema;
mod schemas;

pub use cells::{Cell, CellFault, cell_fault, cell_of};
pub use limits::{MAX_COLUMNS, MAX_SCALE, MAX_TEXT_BYTES};
pub use rows::{Row, RowFault, check_row, row_fault};
pub use schema::{Schema, SchemaFault, schema_fault};
pub use schemas::{Schemas, schema_named};

#[cfg(test)]
mod tests;
