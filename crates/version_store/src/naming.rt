//! Columns that a change names.
ghost use Rattle.std.specs.Prelude.{◌≡◌, IsTrue, IfSome, Some};
ghost use Rattle.std.specs.Option.{option_copied};
ghost use Rattle.paql_bind.specs.Names.{is_text_kind};
ghost use Rattle.table_schema.specs.Columns.{has_legal_scale};
ghost use Rattle.version_store.specs.Changes.{place_or_zero};
ghost use Rattle.version_store.specs.Faults.{column_named};

use schema_types::{Column, Kind, Text};
use table_schema::Schema;

/// The column of a name.
pub(crate) fn column_named<'a>(schema: &'a Schema, name: &Text) -> Option<&'a Column>
    ensures value { option_copied result ≡ column_named name.now schema.now }
    ensures legal { IfSome result (λ column. IsTrue (has_legal_scale column.now.kind)) }
{
    let columns = schema.columns();
    for column in columns {
        if column.name.as_slice() == name.as_slice() {
            return Some(column);
        }
    }
    None
}

/// Whether a column of this kind has texts.
pub(crate) fn is_text(kind: Kind) -> bool
    ensures { result ≡ is_text_kind (Some kind) }
{
    match kind {
        Kind::Text => true,
        Kind::Int | Kind::Dec(_) => false,
    }
}

/// The place of the column of a name: 0 if there is none, which is refused before.
pub(crate) fn place_or_zero(schema: &Schema, name: &Text) -> usize
    ensures { result ≡ place_or_zero schema.now name.now }
{
    schema.place(name.as_slice()).unwrap_or(0)
}
