//! The refusals of changes and queries, with the names that they show as text.
ghost use Rattle.std.specs.Prelude.{◌≡◌, IfOk, MatchOption, Some, string_bytes};
ghost use Rattle.std.specs.Str.{IsUtf8};
ghost use Rattle.session_proto.specs.Refusals as refusals;
ghost use Rattle.session_proto.specs.Causes.{cell_cause};
ghost use Rattle.paql_engine.specs.Refused.{binding_cause, table_cause, row_cause, given_in, kind_cause};
ghost use Rattle.paql_engine.specs.Showing.{Shows};

use paql_bind::Refusal as Binding;
use schema_types::Text;
use session_proto::Refusal;
use session_proto::refusals::{
    BindFault, CellFault, ChangeFault, CommitLimit, LoadFault, QueryFault,
};
use std::alloc::{AllocError, Global};
use version_store::{CommitKind, PartitionFault, RowKind, TableFault};

// A name as text, if it is one.
fn text_of(alloc: Global, name: &Text) -> Result<Option<String>, AllocError>
    ensures { IfOk result (λ found.
        MatchOption found (¬ IsUtf8 name.now) (λ text. string_bytes text ≡ name.now)) }
{
    match String::from_utf8(Vec::from_slice(alloc, name.as_slice())?) {
        Ok(text) => Ok(Some(text)),
        Err(_) => Ok(None),
    }
}

/// There is no table of this name.
pub(crate) fn no_table(
    alloc: Global,
    change: Option<u64>,
    name: &Text,
) -> Result<Option<Refusal>, AllocError>
    ensures { Shows (refusals.no_table change name.now) result }
{
    match text_of(alloc, name)? {
        Some(name) => Ok(Some(Refusal::Bind(change, BindFault::NoTable(name)))),
        None => Ok(None),
    }
}

fn no_column(alloc: Global, change: Option<u64>, name: &Text) -> Result<Option<Refusal>, AllocError>
    ensures { Shows (refusals.no_column change name.now) result }
{
    match text_of(alloc, name)? {
        Some(name) => Ok(Some(Refusal::Bind(change, BindFault::NoColumn(name)))),
        None => Ok(None),
    }
}

fn wrong_kind(
    alloc: Global,
    change: Option<u64>,
    name: &Text,
) -> Result<Option<Refusal>, AllocError>
    ensures { Shows (refusals.wrong_kind change name.now) result }
{
    match text_of(alloc, name)? {
        Some(name) => Ok(Some(Refusal::Bind(change, BindFault::WrongKind(name)))),
        None => Ok(None),
    }
}

/// What can't be bound in a query, or in the change of this number.
pub(crate) fn binding(
    alloc: Global,
    change: Option<u64>,
    fault: &Binding,
) -> Result<Option<Refusal>, AllocError>
    ensures { Shows (binding_cause change fault.now) result }
{
    match fault {
        Binding::NoTable(name) => no_table(alloc, change, name),
        Binding::NoColumn(name) => no_column(alloc, change, name),
        Binding::WrongKind(name) => wrong_kind(alloc, change, name),
        Binding::TooFineLiteral => Ok(Some(Refusal::Bind(change, BindFault::TooFine))),
        Binding::LiteralRange => Ok(Some(Refusal::Bind(change, BindFault::LiteralRange))),
        Binding::Factor => Ok(Some(Refusal::Query(QueryFault::Factor))),
        Binding::LimitBudget(given) => Ok(Some(Refusal::Query(QueryFault::LimitBudget(*given)))),
        Binding::LimitConjuncts(given) => {
            Ok(Some(Refusal::Query(QueryFault::LimitConjuncts(*given))))
        }
        Binding::LimitTerms { conjunct, given } => Ok(Some(Refusal::Query(
            QueryFault::LimitTerms {
                conjunct: *conjunct,
                given: *given,
            },
        ))),
        Binding::Unbounded => Ok(Some(Refusal::Query(QueryFault::Unbounded))),
        Binding::LimitRepeat(given) => Ok(Some(Refusal::Query(QueryFault::LimitRepeat(*given)))),
    }
}

fn table_exists(alloc: Global, change: u64, name: &Text) -> Result<Option<Refusal>, AllocError>
    ensures { Shows (refusals.table_exists change name.now) result }
{
    match text_of(alloc, name)? {
        Some(name) => Ok(Some(Refusal::Change(change, ChangeFault::TableExists(name)))),
        None => Ok(None),
    }
}

fn bad_scale(alloc: Global, change: u64, name: &Text) -> Result<Option<Refusal>, AllocError>
    ensures { Shows (refusals.bad_scale change name.now) result }
{
    match text_of(alloc, name)? {
        Some(name) => Ok(Some(Refusal::Change(change, ChangeFault::BadScale(name)))),
        None => Ok(None),
    }
}

fn duplicate_column(alloc: Global, change: u64, name: &Text) -> Result<Option<Refusal>, AllocError>
    ensures { Shows (refusals.duplicate_column change name.now) result }
{
    match text_of(alloc, name)? {
        Some(name) => Ok(Some(Refusal::Change(change, ChangeFault::DuplicateColumn(name)))),
        None => Ok(None),
    }
}

fn table(alloc: Global, change: u64, fault: &TableFault) -> Result<Option<Refusal>, AllocError>
    ensures { Shows (table_cause change fault.now) result }
{
    match fault {
        TableFault::TooManyColumns(given) => {
            Ok(Some(Refusal::Change(change, ChangeFault::TooManyColumns(*given))))
        }
        TableFault::BadScale(name) => bad_scale(alloc, change, name),
        TableFault::TableExists(name) => table_exists(alloc, change, name),
        TableFault::LimitTables(given) => Ok(Some(Refusal::Limit(CommitLimit::Tables, *given))),
    }
}

// A value that doesn't fit its column.
fn cell(
    alloc: Global,
    change: u64,
    fault: CellFault,
    column: &Text,
    row: u64,
) -> Result<Option<Refusal>, AllocError>
    ensures { Shows (cell_cause fault change column.now row) result }
{
    match text_of(alloc, column)? {
        Some(column) => Ok(Some(Refusal::Change(change, ChangeFault::Cell { fault, column, row }))),
        None => Ok(None),
    }
}

/// A field of the record of this number doesn't fit its column.
pub(crate) fn bad_field(
    alloc: Global,
    column: &Text,
    number: u64,
) -> Result<Option<Refusal>, AllocError>
    ensures { Shows (refusals.bad_field column.now number) result }
{
    match text_of(alloc, column)? {
        Some(column) => Ok(Some(Refusal::Load(LoadFault::BadCell { column, number }))),
        None => Ok(None),
    }
}

fn row(alloc: Global, change: u64, fault: &RowKind) -> Result<Option<Refusal>, AllocError>
    ensures { Shows (row_cause change fault.now) result }
{
    match fault {
        RowKind::Arity { have, row, want } => Ok(Some(Refusal::Change(
            change,
            ChangeFault::Arity {
                have: *have,
                row: *row,
                want: *want,
            },
        ))),
        RowKind::BadCell { column, row } => cell(alloc, change, CellFault::BadCell, column, *row),
        RowKind::OutOfRange { column, row } => {
            cell(alloc, change, CellFault::OutOfRange, column, *row)
        }
        RowKind::TextTooLong { column, row } => {
            cell(alloc, change, CellFault::TextTooLong, column, *row)
        }
    }
}

fn given(fault: PartitionFault) -> u64
    ensures { result ≡ given_in fault }
{
    match fault {
        PartitionFault::Columns(given) | PartitionFault::Size(given) => given,
    }
}

/// Why the change of this number is refused, or its whole commit.
pub(crate) fn kind(
    alloc: Global,
    change: u64,
    kind: &CommitKind,
) -> Result<Option<Refusal>, AllocError>
    ensures { Shows (kind_cause change kind.now) result }
{
    match kind {
        CommitKind::Binding(fault) => binding(alloc, Some(change), fault),
        CommitKind::Table(fault) => table(alloc, change, fault),
        CommitKind::DuplicateColumn(name) => duplicate_column(alloc, change, name),
        CommitKind::Row(fault) => row(alloc, change, fault),
        CommitKind::Partition(fault) => {
            Ok(Some(Refusal::Change(change, ChangeFault::LimitPartition(given(*fault)))))
        }
        CommitKind::Unkept { asked, low, high } => Ok(Some(Refusal::Bind(
            Some(change),
            BindFault::Unkept {
                asked: *asked,
                high: *high,
                low: *low,
            },
        ))),
        CommitKind::LimitVersions(given) => Ok(Some(Refusal::Limit(CommitLimit::Versions, *given))),
        CommitKind::LimitCommit(given) => Ok(Some(Refusal::Limit(CommitLimit::Inserted, *given))),
        CommitKind::LimitRows(given) => Ok(Some(Refusal::Limit(CommitLimit::Rows, *given))),
        CommitKind::Memory(_) => Ok(Some(Refusal::Memory)),
    }
}
