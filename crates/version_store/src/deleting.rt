//! Rows of a table go.
ghost use Rattle.std.specs.Prelude.{◌≡◌, ◌++◌, [], ◌∷◌, if◌then◌else◌, Some, IfOk, OnOk, length};
ghost use Rattle.version_store.specs.Changes.{count_met, with_entries};
ghost use Rattle.version_store.specs.Faults.{condition_faults};
ghost use Rattle.version_store.specs.Performing.{CanBeAsked, Judges, RowsFit, deleted, left, met};

use crate::conditions::bound_condition;
use crate::faults::CommitKind;
use crate::tables::with_entries;
use bound_query::{RowPred, eval};
use paql_ast::conditions::Pred;
use snapshots::{Entries, Table, copied_row};
use std::alloc::{AllocError, Global};
use table_schema::Row;

/// The table without the rows that meet the condition, and how many they are.
pub(crate) fn deleted(
    alloc: Global,
    table: &Table,
    filter: &Option<Pred>,
) -> Result<(Table, u64), CommitKind>
    requires { RowsFit table.now }
    ensures judged { Judges (condition_faults table.now filter.now) result }
    ensures new { IfOk result (λ done. done.0 ≡ deleted table.now filter.now) }
    ensures rows { IfOk result (λ done. done.1 ≡ count_met filter.now (Some table.now)) }
{
    let condition = bound_condition(alloc, table, filter)?;
    match without_rows(alloc, table, &condition) {
        Ok(done) => Ok(done),
        Err(error) => Err(CommitKind::Memory(error)),
    }
}

/// The table without the rows that meet a bound condition, and how many they are.
fn without_rows(
    alloc: Global,
    table: &Table,
    condition: &RowPred,
) -> Result<(Table, u64), AllocError>
    requires rows { RowsFit table.now }
    requires asked { CanBeAsked table.now.columns condition.now }
    ensures new { IfOk result (λ done. done.0
        ≡ with_entries table.now (left condition.now table.now.entries)) }
    ensures count { IfOk result (λ done. done.1
        ≡ length (met condition.now table.now.entries)) }
{
    let rows = table.entries.rows();
    let versions = table.entries.versions();
    let mut entries = Entries::new(alloc);
    let mut gone = 0;
    for (place, row) in rows.iter().enumerate() {
        let goes = eval(condition, row.1.as_slice());
        push_unless(alloc, goes, row, versions[place], &mut entries)?;
        gone += u64::from(goes);
    }
    Ok((with_entries(alloc, table, table.next, entries)?, gone))
}

/// Appends a copy of the row, unless it goes.
fn push_unless(
    alloc: Global,
    goes: bool,
    row: &(u64, Row),
    born: u64,
    entries: &mut Entries,
) -> Result<(), AllocError>
    ensures { OnOk result (entries.new ≡ entries.old ++ (if goes then []
        else record { id = row.now.0; row = row.now.1; born = born } ∷ [])) }
{
    if goes {
        return Ok(());
    }
    entries.push(row.0, copied_row(alloc, &row.1)?, born)
}
