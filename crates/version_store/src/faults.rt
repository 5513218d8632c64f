//! Why a commit is refused.

use paql_bind::Refusal;
use schema_types::Text;
use std::alloc::AllocError;
use thiserror::Error;

/// Why a table can't be made.
#[derive(Debug, Drop, Error)]
pub enum TableFault {
    #[error("{0} columns")]
    TooManyColumns(u64),
    /// The scale of this column.
    #[error("a scale that no column can have")]
    BadScale(Text),
    #[error("a table of this name is there")]
    TableExists(Text),
    /// The number of tables that there would be.
    #[error("{0} tables")]
    LimitTables(u64),
}

/// Why a row can't be made. Rows of an INSERT are counted from 1, and that of a SET is 0.
#[derive(Debug, Drop, Error)]
pub enum RowKind {
    #[error("row {row} has {have} values for {want} columns")]
    Arity { have: u64, row: u64, want: u64 },
    #[error("a value of row {row} doesn't fit its column")]
    BadCell { column: Text, row: u64 },
    #[error("a number of row {row} is out of range")]
    OutOfRange { column: Text, row: u64 },
    #[error("a text of row {row} is too long")]
    TextTooLong { column: Text, row: u64 },
}

/// Why a table can't be partitioned so.
#[derive(Clone, Copy, Debug, PartialEq, Eq, Error)]
pub enum PartitionFault {
    #[error("{0} columns")]
    Columns(u64),
    #[error("groups of {0} rows")]
    Size(u64),
}

/// Why a commit is refused.
#[derive(Debug, Drop, Error)]
pub enum CommitKind {
    /// A name or a number, as in a query.
    #[error(transparent)]
    Binding(Refusal),
    #[error(transparent)]
    Table(TableFault),
    /// CREATE, SET or PARTITION names this column twice.
    #[error("a column is named twice")]
    DuplicateColumn(Text),
    #[error(transparent)]
    Row(RowKind),
    #[error(transparent)]
    Partition(PartitionFault),
    /// VACUUM of a version that isn't kept, or isn't there.
    #[error("version {asked} of {low} to {high}")]
    Unkept { asked: u64, low: u64, high: u64 },
    /// The version that the commit would make.
    #[error("version {0}")]
    LimitVersions(u64),
    /// The rows that the commit would insert.
    #[error("{0} rows in a commit")]
    LimitCommit(u64),
    /// The entries that there would be.
    #[error("{0} entries")]
    LimitRows(u64),
    #[error("out of memory")]
    Memory(AllocError),
}

/// A refused commit: which of its changes is refused, from 1, and why. The number is 0 for what is
/// judged of the whole commit (`LimitVersions`, `LimitCommit`, `LimitRows`), and out of memory.
#[derive(Debug, Drop, Error)]
#[error("change {change}: {kind}")]
pub struct CommitFault {
    pub change: u64,
    pub kind: CommitKind,
}
