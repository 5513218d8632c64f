//! Copies of tables, with other rows or another partition.
ghost use Rattle.std.specs.Prelude.{◌≡◌, IfOk};

use snapshots::{Entries, Partition, Table, copied_schema, copied_text};
use sqlite_items::Items;
use std::alloc::{AllocError, Global};

/// The table with these entries in place of its own, and this next id.
pub(crate) fn with_entries(
    alloc: Global,
    table: &Table,
    next: u64,
    entries: Entries,
) -> Result<Table, AllocError>
    ensures { IfOk result
        (λ new. new ≡ record table.now { next = next; entries = entries }) }
{
    Ok(Table {
        name: copied_text(alloc, &table.name)?,
        columns: copied_schema(alloc, &table.columns)?,
        next,
        entries,
        partition: copied_partition(alloc, &table.partition)?,
    })
}

/// The table with this partition.
pub(crate) fn with_partition(
    alloc: Global,
    table: &Table,
    partition: Option<Partition>,
) -> Result<Table, AllocError>
    ensures { IfOk result (λ new. new ≡ record table.now { partition = partition }) }
{
    Ok(Table {
        name: copied_text(alloc, &table.name)?,
        columns: copied_schema(alloc, &table.columns)?,
        next: table.next,
        entries: table.entries.copied(alloc)?,
        partition,
    })
}

/// A copy of the partition.
fn copied_partition(
    alloc: Global,
    partition: &Option<Partition>,
) -> Result<Option<Partition>, AllocError>
    ensures { IfOk result (λ copy. copy ≡ partition.now) }
{
    match partition {
        Some(cut) => Ok(Some(Partition {
            columns: Items::from_slice(alloc, cut.columns.as_slice())?,
            size: cut.size,
            radius: cut.radius,
        })),
        None => Ok(None),
    }
}
