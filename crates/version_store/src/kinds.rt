//! Why a change is refused, with the names that the refusal prints.
ghost use Rattle.std.specs.Prelude.{◌≡◌, IfOk, MatchResult};
ghost use Rattle.version_store.specs.Answers.{IsMemoryKind};
ghost use Rattle.version_store.specs.Faults.{made_fault, name_at, row_kind, set_kind};
ghost use Rattle.version_store.specs.Performing.{Says};

use crate::faults::{CommitKind, RowKind, TableFault};
use paql_bind::Refusal;
use schema_types::{Column, Text};
use snapshots::copied_text;
use sqlite_items::{Items, at};
use std::alloc::{AllocError, Global};
use table_schema::{CellFault, RowFault, SchemaFault};

/// The fault, if there was memory for the name that it prints.
fn or_memory(kind: Result<CommitKind, AllocError>) -> CommitKind
    ensures { MatchResult kind (λ kind. result ≡ kind) (λ _. IsMemoryKind result) }
{
    match kind {
        Ok(kind) => kind,
        Err(error) => CommitKind::Memory(error),
    }
}

/// The name of the column at a place.
fn name_at(alloc: Global, columns: &[Column], place: usize) -> Result<Text, AllocError>
    ensures { IfOk result (λ name. name ≡ name_at columns.now place) }
{
    match at(columns, place) {
        Some(column) => copied_text(alloc, &column.name),
        None => Ok(Items::new(alloc)),
    }
}

/// Why these columns make no table.
pub(crate) fn made_fault(alloc: Global, columns: &[Column], fault: SchemaFault) -> CommitKind
    ensures { Says (made_fault columns.now fault) result }
{
    or_memory(made_fault_named(alloc, columns, fault))
}

fn made_fault_named(
    alloc: Global,
    columns: &[Column],
    fault: SchemaFault,
) -> Result<CommitKind, AllocError>
    ensures { IfOk result (λ kind. kind ≡ made_fault columns.now fault) }
{
    match fault {
        SchemaFault::TooManyColumns(count) => {
            Ok(CommitKind::Table(TableFault::TooManyColumns(count)))
        },
        SchemaFault::BadScale(place) => {
            let name = name_at(alloc, columns, place)?;
            Ok(CommitKind::Table(TableFault::BadScale(name)))
        },
        SchemaFault::DuplicateColumn(place) => {
            let name = name_at(alloc, columns, place)?;
            Ok(CommitKind::DuplicateColumn(name))
        },
    }
}

/// Why the literals of this row make no row of these columns.
pub(crate) fn row_kind(alloc: Global, columns: &[Column], row: u64, fault: RowFault) -> CommitKind
    ensures { Says (row_kind columns.now row fault) result }
{
    or_memory(row_kind_named(alloc, columns, row, fault))
}

fn row_kind_named(
    alloc: Global,
    columns: &[Column],
    row: u64,
    fault: RowFault,
) -> Result<CommitKind, AllocError>
    ensures { IfOk result (λ kind. kind ≡ row_kind columns.now row fault) }
{
    match fault {
        RowFault::Arity { have, want } => Ok(CommitKind::Row(RowKind::Arity { have, row, want })),
        RowFault::BadCell(place) => {
            let column = name_at(alloc, columns, place)?;
            Ok(CommitKind::Row(RowKind::BadCell { column, row }))
        },
        RowFault::OutOfRange(place) => {
            let column = name_at(alloc, columns, place)?;
            Ok(CommitKind::Row(RowKind::OutOfRange { column, row }))
        },
        RowFault::TextTooLong(place) => {
            let column = name_at(alloc, columns, place)?;
            Ok(CommitKind::Row(RowKind::TextTooLong { column, row }))
        },
        RowFault::Memory(error) => Ok(CommitKind::Memory(error)),
    }
}

/// Why the literal of a SET gives no cell.
pub(crate) fn set_kind(alloc: Global, name: &Text, fault: CellFault) -> CommitKind
    ensures { Says (set_kind name.now fault) result }
{
    match copied_text(alloc, name) {
        Ok(column) => match fault {
            CellFault::BadCell => CommitKind::Row(RowKind::BadCell { column, row: 0 }),
            CellFault::OutOfRange => CommitKind::Row(RowKind::OutOfRange { column, row: 0 }),
            CellFault::TextTooLong => CommitKind::Row(RowKind::TextTooLong { column, row: 0 }),
        },
        Err(error) => CommitKind::Memory(error),
    }
}

/// There is no table of this name.
pub(crate) fn no_table(alloc: Global, table: &Text) -> CommitKind
    ensures { Says (CommitKind.Binding (Refusal.NoTable table.now)) result }
{
    match copied_text(alloc, table) {
        Ok(name) => CommitKind::Binding(Refusal::NoTable(name)),
        Err(error) => CommitKind::Memory(error),
    }
}

/// There is a table of this name.
pub(crate) fn table_exists(alloc: Global, table: &Text) -> CommitKind
    ensures { Says (CommitKind.Table (TableFault.TableExists table.now)) result }
{
    match copied_text(alloc, table) {
        Ok(name) => CommitKind::Table(TableFault::TableExists(name)),
        Err(error) => CommitKind::Memory(error),
    }
}

/// There is no column of this name.
pub(crate) fn no_column(alloc: Global, column: &Text) -> CommitKind
    ensures { Says (CommitKind.Binding (Refusal.NoColumn column.now)) result }
{
    match copied_text(alloc, column) {
        Ok(name) => CommitKind::Binding(Refusal::NoColumn(name)),
        Err(error) => CommitKind::Memory(error),
    }
}

/// A text can't be grouped.
pub(crate) fn wrong_kind(alloc: Global, column: &Text) -> CommitKind
    ensures { Says (CommitKind.Binding (Refusal.WrongKind column.now)) result }
{
    match copied_text(alloc, column) {
        Ok(name) => CommitKind::Binding(Refusal::WrongKind(name)),
        Err(error) => CommitKind::Memory(error),
    }
}

/// A column is named twice.
pub(crate) fn named_twice(alloc: Global, column: &Text) -> CommitKind
    ensures { Says (CommitKind.DuplicateColumn column.now) result }
{
    match copied_text(alloc, column) {
        Ok(name) => CommitKind::DuplicateColumn(name),
        Err(error) => CommitKind::Memory(error),
    }
}
