//! The statements that are changes.
ghost use Rattle.std.specs.Prelude.{◌≡◌, IfSome};
ghost use Rattle.paql_engine.specs.Performed.{change_of};
ghost use Rattle.version_store.specs.Legal.{HasColumns};

use paql_ast::statements::Statement;
use schema_types::{Column, Text};
use sqlite_items::Items;
use version_store::Change;

/// The change that a statement is, or None if it is none that is performed.
pub(crate) fn change_of(statement: Statement) -> Option<Change>
    ensures value { result ≡ change_of statement }
    ensures columns { IfSome result HasColumns }
{
    match statement {
        Statement::Create { table, columns } => created(table, columns),
        Statement::Insert { table, rows } => Some(Change::Insert { table, rows }),
        Statement::Update {
            table,
            sets,
            filter,
        } => Some(Change::Update {
            table,
            sets,
            filter,
        }),
        Statement::Delete { table, filter } => Some(Change::Delete { table, filter }),
        Statement::Partition {
            table,
            columns,
            size,
            radius,
        } => Some(Change::Partition {
            table,
            columns,
            size,
            radius,
        }),
        Statement::Vacuum { version } => Some(Change::Vacuum { version }),
        _ => None,
    }
}

// A table has a column.
fn created(table: Text, columns: Items<Column>) -> Option<Change>
    ensures value { result ≡ change_of (Statement.Create table columns) }
    ensures columns { IfSome result HasColumns }
{
    if columns.is_empty() {
        return None;
    }
    Some(Change::Create { table, columns })
}
