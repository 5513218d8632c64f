//! A new table.
ghost use Rattle.std.specs.Prelude.{◌≡◌, ◌<◌, IfOk, length, map};
ghost use Rattle.table_schema.specs.Columns.{schema_faults};
ghost use Rattle.version_store.specs.Changes.{new_table};
ghost use Rattle.version_store.specs.Faults.{made_fault};
ghost use Rattle.version_store.specs.Performing.{Judges};

use crate::faults::CommitKind;
use crate::kinds::made_fault;
use schema_types::{Column, Text};
use snapshots::{Entries, Table, copied_text};
use sqlite_items::Items;
use std::alloc::{AllocError, Global};
use table_schema::Schema;

/// A table of this name with these columns, unless no table can have them.
pub(crate) fn new_table(alloc: Global, name: &Text, columns: &[Column]) -> Result<Table, CommitKind>
    requires { 0 < length columns.now }
    ensures judged { Judges (map (made_fault columns.now) (schema_faults columns.now)) result }
    ensures new { IfOk result (λ table. table ≡ new_table name.now columns.now) }
{
    let columns = new_schema(alloc, columns)?;
    let name = copied_text(alloc, name).map_err(CommitKind::Memory)?;
    Ok(Table {
        name,
        columns,
        next: 1,
        entries: Entries::new(alloc),
        partition: None,
    })
}

/// A schema of copies of these columns, unless no table can have them.
fn new_schema(alloc: Global, columns: &[Column]) -> Result<Schema, CommitKind>
    requires { 0 < length columns.now }
    ensures judged { Judges (map (made_fault columns.now) (schema_faults columns.now)) result }
    ensures new { IfOk result (λ schema. schema ≡ columns.now) }
{
    let Ok(copy) = copied(alloc, columns) else {
        return Err(CommitKind::Memory(AllocError));
    };
    match Schema::new(copy) {
        Ok(schema) => Ok(schema),
        Err((fault, _)) => Err(made_fault(alloc, columns, fault)),
    }
}

/// A copy of the columns.
fn copied(alloc: Global, columns: &[Column]) -> Result<Items<Column>, AllocError>
    ensures { IfOk result (λ copy. copy ≡ columns.now) }
{
    let mut copy = Vec::with_capacity(alloc, columns.len())?;
    for column in columns {
        copy.push(Column {
            name: copied_text(alloc, &column.name)?,
            kind: column.kind,
        })?;
    }
    Ok(Items::from_vec(copy))
}
