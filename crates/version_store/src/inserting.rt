//! New rows of a table.
ghost use Rattle.std.specs.Prelude.{◌≡◌, ◌+◌, ◌<◌, ◌^◌, ◌++◌, length, IfOk, OnOk};
ghost use Rattle.version_store.specs.Changes.{inserted, new_entries};
ghost use Rattle.version_store.specs.Faults.{insert_faults};
ghost use Rattle.version_store.specs.Performing.{Judges};

use crate::faults::CommitKind;
use crate::kinds::row_kind;
use crate::tables::with_entries;
use schema_types::Lit;
use snapshots::{Entries, Table};
use sqlite_items::Items;
use std::alloc::{AllocError, Global};
use table_schema::{Schema, check_row, row_fault};

/// The table with new rows, which have its next ids.
pub(crate) fn inserted(
    alloc: Global,
    version: u64,
    table: &Table,
    rows: &[Items<Lit>],
) -> Result<Table, CommitKind>
    ensures judged { Judges (insert_faults table.now.columns 1 rows.now) result }
    ensures new { IfOk result (λ new. new ≡ inserted table.now version rows.now) }
{
    check_rows(alloc, &table.columns, rows)?;
    with_rows(alloc, version, table, rows).map_err(CommitKind::Memory)
}

/// The first fault of the rows, if there is one.
fn check_rows(alloc: Global, schema: &Schema, rows: &[Items<Lit>]) -> Result<(), CommitKind>
    ensures { Judges (insert_faults schema.now 1 rows.now) result }
{
    for (place, lits) in rows.iter().enumerate() {
        if let Some(fault) = row_fault(schema, lits.as_slice()) {
            return Err(row_kind(alloc, schema.columns(), place as u64 + 1, fault));
        }
    }
    Ok(())
}

/// The table with rows of which none has a fault. Ids past the largest, which take more rows than
/// fit in memory, are answered like out of memory.
fn with_rows(
    alloc: Global,
    version: u64,
    table: &Table,
    rows: &[Items<Lit>],
) -> Result<Table, AllocError>
    ensures { IfOk result (λ new. new ≡ inserted table.now version rows.now) }
{
    let Some(next) = table.next.checked_add(rows.len() as u64) else {
        return Err(AllocError);
    };
    let mut entries = table.entries.copied(alloc)?;
    push_rows(alloc, version, table, rows, &mut entries)?;
    with_entries(alloc, table, next, entries)
}

/// Appends the rows that the literals give. Their texts are copied, and rows that can't be made,
/// which are refused before, are answered like out of memory.
fn push_rows(
    alloc: Global,
    version: u64,
    table: &Table,
    rows: &[Items<Lit>],
    entries: &mut Entries,
) -> Result<(), AllocError>
    requires { table.now.next + length rows.now < 2 ^ 64 }
    ensures { OnOk result (entries.new
        ≡ entries.old ++ new_entries table.now.columns version table.now.next rows.now) }
{
    for (place, lits) in rows.iter().enumerate() {
        let Ok(row) = check_row(alloc, &table.columns, lits.as_slice()) else {
            return Err(AllocError);
        };
        entries.push(table.next + place as u64, row, version)?;
    }
    Ok(())
}
