//! New values in rows of a table.
ghost use Rattle.std.specs.Prelude.{◌≡◌, ◌++◌, [], if◌then◌else◌, Some, IfOk, IsTrue, OnOk, length};
ghost use Rattle.table_schema.specs.Columns.{has_legal_scale};
ghost use Rattle.table_schema.specs.Cells.{cell_gives};
ghost use Rattle.version_store.specs.Changes.{count_met, put, put_all, put_cell, with_entries};
ghost use Rattle.version_store.specs.Faults.{condition_faults, set_faults};
ghost use Rattle.version_store.specs.Performing.{CanBeAsked, Judges, RowsFit, all_anew, met, rewritten};

use crate::conditions::bound_condition;
use crate::faults::CommitKind;
use crate::naming::{column_named, place_or_zero};
use crate::setting::check_sets;
use crate::tables::with_entries;
use bound_query::{RowPred, eval};
use paql_ast::conditions::Pred;
use schema_types::{Column, Lit, Text};
use snapshots::{Entries, Table, copied_row, copied_text};
use std::alloc::{AllocError, Global};
use table_schema::{Row, Schema, cell_of};

/// The table with new values in the rows that meet the condition, and how many they are.
pub(crate) fn updated(
    alloc: Global,
    version: u64,
    table: &Table,
    sets: &[(Text, Lit)],
    filter: &Option<Pred>,
) -> Result<(Table, u64), CommitKind>
    requires { RowsFit table.now }
    ensures judged { Judges (set_faults table.now.columns [] sets.now
        ++ condition_faults table.now filter.now) result }
    ensures new { IfOk result
        (λ done. done.0 ≡ rewritten table.now version sets.now filter.now) }
    ensures rows { IfOk result (λ done. done.1 ≡ count_met filter.now (Some table.now)) }
{
    check_sets(alloc, &table.columns, sets)?;
    let condition = bound_condition(alloc, table, filter)?;
    match with_values(alloc, version, table, sets, &condition) {
        Ok(done) => Ok(done),
        Err(error) => Err(CommitKind::Memory(error)),
    }
}

/// The table with new values in the rows that meet a bound condition, and how many they are.
fn with_values(
    alloc: Global,
    version: u64,
    table: &Table,
    sets: &[(Text, Lit)],
    condition: &RowPred,
) -> Result<(Table, u64), AllocError>
    requires rows { RowsFit table.now }
    requires asked { CanBeAsked table.now.columns condition.now }
    ensures new { IfOk result (λ done. done.0 ≡ with_entries table.now
        (all_anew table.now.columns version sets.now condition.now table.now.entries)) }
    ensures count { IfOk result (λ done. done.1
        ≡ length (met condition.now table.now.entries)) }
{
    let rows = table.entries.rows();
    let versions = table.entries.versions();
    let mut entries = Entries::new(alloc);
    let mut written = 0;
    for (place, row) in rows.iter().enumerate() {
        let meets = eval(condition, row.1.as_slice());
        let cells = row_anew(alloc, &table.columns, sets, meets, &row.1)?;
        let born = born_anew(meets, version, versions[place]);
        entries.push(row.0, cells, born)?;
        written += u64::from(meets);
    }
    Ok((with_entries(alloc, table, table.next, entries)?, written))
}

/// The row with the new values if it meets the condition, and else as it is.
fn row_anew(
    alloc: Global,
    schema: &Schema,
    sets: &[(Text, Lit)],
    meets: bool,
    row: &Row,
) -> Result<Row, AllocError>
    ensures { IfOk result (λ new. new
        ≡ (if meets then put_all schema.now sets.now row.now else row.now)) }
{
    if meets {
        return with_cells(alloc, schema, sets, row);
    }
    copied_row(alloc, row)
}

/// The version that last wrote the row.
fn born_anew(meets: bool, version: u64, born: u64) -> u64
    ensures { result ≡ (if meets then version else born) }
{
    if meets { version } else { born }
}

/// The row with the new values.
fn with_cells(
    alloc: Global,
    schema: &Schema,
    sets: &[(Text, Lit)],
    row: &Row,
) -> Result<Row, AllocError>
    ensures { IfOk result (λ new. new ≡ put_all schema.now sets.now row.now) }
{
    let mut new = copied_row(alloc, row)?;
    for set in sets {
        put(alloc, schema, set, &mut new)?;
    }
    Ok(new)
}

/// One new value in a row. A column that isn't there and a value that doesn't fit it, which are
/// refused before, change nothing.
fn put(alloc: Global, schema: &Schema, set: &(Text, Lit), row: &mut Row) -> Result<(), AllocError>
    ensures { OnOk result (row.new ≡ put schema.now set.now row.old) }
{
    let Some(column) = column_named(schema, &set.0) else {
        return Ok(());
    };
    let place = place_or_zero(schema, &set.0);
    put_cell(column, copied_lit(alloc, &set.1)?, place, row);
    Ok(())
}

/// The cell that the literal gives, in its place.
fn put_cell(column: &Column, lit: Lit, place: usize, row: &mut Row)
    requires { IsTrue (has_legal_scale column.now.kind) }
    ensures { row.new ≡ put_cell place (cell_gives column.now.kind lit) row.old }
{
    let Ok(cell) = cell_of(column, lit) else {
        return;
    };
    if place < row.len() {
        row.set(place, cell);
    }
}

/// A copy of the literal.
fn copied_lit(alloc: Global, lit: &Lit) -> Result<Lit, AllocError>
    ensures { IfOk result (λ copy. copy ≡ lit.now) }
{
    match lit {
        Lit::Num(number) => Ok(Lit::Num(*number)),
        Lit::Text(text) => Ok(Lit::Text(copied_text(alloc, text)?)),
    }
}
