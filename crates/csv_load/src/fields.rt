//! The fields of records as literals.
ghost use Rattle.std.specs.Prelude.{◌≡◌, ◌≤◌, length, IfOk, IsTrue};
ghost use Rattle.table_schema.specs.Columns.{has_legal_scale};
ghost use Rattle.csv.specs.Records.{fields_of};
ghost use Rattle.csv_load.specs.Fields.{FieldGives, GivesRow, NumberGives, TextGives};

use csv::StringRecord;
use pq_base::Scaled;
use pq_base::decimal::read_decimal;
use schema_types::{Column, Kind, Lit};
use sqlite_items::Items;
use std::alloc::{AllocError, Global};
use table_schema::{MAX_TEXT_BYTES, Schema};

/// Why the fields of a record give no row.
#[derive(Debug, Drop)]
pub(crate) enum RowRefusal {
    /// The field at this place gives no literal of its column.
    Bad(usize),
    Memory(AllocError),
}

/// The literals of a record's fields, one a column.
pub(crate) fn lits_of(
    alloc: Global,
    schema: &Schema,
    fields: &StringRecord,
) -> Result<Items<Lit>, RowRefusal>
    ensures { length (fields_of fields.now) ≡ length schema.now
        → GivesRow schema.now (fields_of fields.now) result }
{
    let columns = schema.columns();
    let Ok(mut lits) = Vec::with_capacity(alloc, columns.len()) else {
        return Err(RowRefusal::Memory(AllocError));
    };
    for (place, column) in columns.iter().enumerate() {
        let Some(field) = fields.get(place) else {
            return Err(RowRefusal::Bad(place));
        };
        let lit = match lit_of(alloc, column, field) {
            Ok(Some(lit)) => lit,
            Ok(None) => return Err(RowRefusal::Bad(place)),
            Err(error) => return Err(RowRefusal::Memory(error)),
        };
        if lits.push(lit).is_err() {
            return Err(RowRefusal::Memory(AllocError));
        }
    }
    Ok(Items::from_vec(lits))
}

/// The literal that a field gives in a column, if it gives one.
fn lit_of(alloc: Global, column: &Column, field: &str) -> Result<Option<Lit>, AllocError>
    requires { IsTrue (has_legal_scale column.now.kind) }
    ensures { IfOk result (FieldGives column.now.kind field.now) }
{
    match column.kind {
        Kind::Int => Ok(number_of(field, 0)),
        Kind::Dec(scale) => Ok(number_of(field, scale as u8)),
        Kind::Text => text_of(alloc, field),
    }
}

/// The number that a field spells, if the units of the scale can hold it.
fn number_of(field: &str, scale: u8) -> Option<Lit>
    requires { scale ≤ 30 }
    ensures { NumberGives scale field.now result }
{
    match read_decimal(field, scale) {
        Ok(units) => Some(Lit::Num(Scaled::of(i128::from(units), scale))),
        Err(_) => None,
    }
}

/// A field as a text, if it isn't too long.
fn text_of(alloc: Global, field: &str) -> Result<Option<Lit>, AllocError>
    ensures { IfOk result (TextGives field.now) }
{
    if field.len() > MAX_TEXT_BYTES {
        return Ok(None);
    }
    let text = Items::from_slice(alloc, field.as_bytes())?;
    Ok(Some(Lit::Text(text)))
}
