//! The columns of a table.
ghost use Rattle.std.specs.Prelude.{◌≡◌, ◌<◌, [], length, IfSome, MatchResult, Some, slice_get};
ghost use Rattle.table_schema.specs.Columns.{IsSchema, has_legal_scale, place_of, schema_faults};

use crate::limits::{MAX_COLUMNS, MAX_SCALE};
use schema_types::{Column, Kind};
use sqlite_items::Items;
use std::marker::Model;
use thiserror::Error;

/// Why a list of columns is no schema. A column is named by its place, from 0.
#[derive(Clone, Copy, Debug, PartialEq, Eq, Error)]
pub enum SchemaFault {
    /// There are so many columns, which is more than a table can have.
    #[error("there are {0} columns, which is more than a table can have")]
    TooManyColumns(u64),
    /// The decimals of this column keep no digit after the point, or more than can be kept.
    #[error("column {0} keeps no digit after the point, or too many")]
    BadScale(usize),
    /// This column has the name of a column before it.
    #[error("column {0} has the name of a column before it")]
    DuplicateColumn(usize),
}

/// The columns of a table, in their order. Contracts see the list of the columns.
#[derive(Debug, Drop)]
pub struct Schema {
    columns: Items<Column>,
}

impl Model for Schema {
    ghost use Rattle.std.specs.Prelude.{List};
    ghost use Rattle.schema_types.specs.declared.Column.{Column};
    ghost use Rattle.table_schema.specs.Columns.{IsSchema};

    ghost Value = { List Column };

    ghost view = { λ schema. schema.columns };

    ghost invariant = { λ schema. IsSchema schema.columns };
}

impl Schema {
    /// A schema of these columns. It takes no memory. At a fault the columns come back, for the
    /// name of the column at the place that the fault tells.
    pub fn new(columns: Items<Column>) -> Result<Schema, (SchemaFault, Items<Column>)>
        requires { 0 < length columns }
        ensures { MatchResult result
            (λ schema. (schema ≡ columns) × (schema_faults columns ≡ []))
            (λ refused. (slice_get (schema_faults columns) 0 ≡ Some refused.0)
            × (refused.1 ≡ columns)) }
    {
        match schema_fault(columns.as_slice()) {
            None => Ok(Schema { columns }),
            Some(fault) => Err((fault, columns)),
        }
    }

    /// The columns, in their order.
    pub fn columns(&self) -> &[Column]
        ensures value { result.now ≡ self.now }
        ensures legal { IsSchema self.now }
    {
        self.columns.as_slice()
    }

    /// The place of the column of a name, from 0.
    pub fn place(&self, name: &[u8]) -> Option<usize>
        ensures value { result ≡ place_of name.now self.now }
        ensures within { IfSome result (λ place. place < length self.now) }
    {
        place_among(self.columns.as_slice(), name)
    }
}

/// The first fault of a list of columns, if there is one.
pub fn schema_fault(columns: &[Column]) -> Option<SchemaFault>
    ensures { result ≡ slice_get (schema_faults columns.now) 0 }
{
    if columns.len() > MAX_COLUMNS {
        return Some(SchemaFault::TooManyColumns(columns.len() as u64));
    }
    for (place, column) in columns.iter().enumerate() {
        if !has_legal_scale(column.kind) {
            return Some(SchemaFault::BadScale(place));
        }
        if place_among(&columns[..place], column.name.as_slice()).is_some() {
            return Some(SchemaFault::DuplicateColumn(place));
        }
    }
    None
}

/// Whether a column of this kind keeps as many digits after the point as a table can keep.
fn has_legal_scale(kind: Kind) -> bool
    ensures { result ≡ has_legal_scale kind }
{
    match kind {
        Kind::Dec(scale) => 0 < scale && scale <= MAX_SCALE,
        Kind::Int | Kind::Text => true,
    }
}

/// The place of the first of these columns that has this name.
fn place_among(columns: &[Column], name: &[u8]) -> Option<usize>
    ensures value { result ≡ place_of name.now columns.now }
    ensures within { IfSome result (λ place. place < length columns.now) }
{
    columns
        .iter()
        .position(|column| column.name.as_slice() == name)
}
